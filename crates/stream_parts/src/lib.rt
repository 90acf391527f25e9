//! Clusters that live on: an owner's stream is cut in parts, and each part is a cluster of its own.
//!
//! `part_lives` says what parts are and what a node may do, `specs/LongRuns.antt` which runs can be, and `specs/Laws.antt`
//! what holds of each. No program is here.
#![tactic(auto)]

pub mod laws;

pub use laws::{
    decides_alike, issued_has_room, keeps_the_promise, no_part_is_full, parts_are_runs,
    past_is_complete, same_relations, summary_is_true, total_integrity, totals_agree,
    totals_agree_whenever,
};
