//! A cluster with lying nodes: correct nodes, and all that liars and the network may do to them, as a list of steps.
//!
//! `specs/Runs.antt` says what a run of a cluster is, `specs/Pools.antt` which packets it has sent, `specs/Steps.antt`
//! what a step does, `specs/Laws.antt` what holds of every run, `specs/Progress.antt` how each owner's stream goes on,
//! `specs/Windows.antt` how a cluster heals, and `specs/Headline.antt` the promise of the whole.
#![tactic(auto)]

mod block;
mod cursor;
mod faults;
mod keys;
pub mod laws;
mod members;
mod notes;
mod settle;
mod step;
mod world;

pub use faults::WorldFault;
pub use keys::lab_key;
pub use laws::{
    law_at_rest, law_begun_once, law_consistency, law_fair_schedules_settle, law_headline,
    law_integrity, law_nothing_is_stuck, law_same_policy, law_windows_heal, law_windows_suffice,
    law_work_is_bounded,
};
pub use step::{Step, StepReply};
pub use world::World;
