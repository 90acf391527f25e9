//! The life of a node that takes an owner's stream in parts, each part a cluster of its own.
//!
//! `specs/Parts.antt` says what parts are and how they stand in a row, `specs/Holding.antt` which pairs hold,
//! `specs/Lives.antt` what a node may do, and `specs/States.antt` what it has to keep. No program is here.
#![tactic(auto)]

pub mod laws;

pub use laws::{held_is_said, state_goes_on, state_is_enough};
