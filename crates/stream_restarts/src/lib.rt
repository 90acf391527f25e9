//! Nodes that take parts, adopt, crash and are restored to what they had synced: what stands is a long run.
//!
//! `specs/LongLives.antt` says what correct nodes do, sync and lose in crashes, and `specs/Laws.antt` what holds of it. No
//! program is here.
#![tactic(auto)]

pub mod laws;

pub use laws::{long_lives_are_runs, nobody_is_told_two_stories, nothing_is_taken_back};
