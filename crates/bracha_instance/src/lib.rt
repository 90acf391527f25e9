//! One instance of authenticated double-echo broadcast, as one node keeps it.
//!
//! `specs/Broadcast.antt` says what follows from the messages that the node took, and `specs/Taking.antt`
//! what one more causes.
#![tactic(auto)]

mod first_votes;
mod instance;
pub mod laws;
mod record;
mod tallies;

pub use instance::{Caused, Effect, Instance, Taken};
pub use record::Record;
