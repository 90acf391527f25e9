//! Nodes that crash and are restored to what they had synced: what stands is a run of a cluster.
//!
//! `specs/Lives.antt` says what correct nodes record, sync and lose in crashes, `specs/Laws.antt` what holds of every
//! such life, and `specs/Example.antt` has one. No program is here: one that keeps a journal would have to do what a
//! life says.
#![tactic(auto)]

pub mod laws;

pub use laws::{
    law_begun_once, law_nobody_is_told_two_stories, law_nothing_is_taken_back,
    law_restarts_are_runs, law_restarts_keep_the_promise,
};
