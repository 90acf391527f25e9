//! A share each: how many places of each owner's stream a node takes, and how many acts of its clients, so that nobody
//! fills what is another's.
//!
//! `specs/Shares.antt` says how much each has, `specs/Answers.antt` what the shares answer to an event before the node
//! is asked, `specs/Laws.antt` what follows for a node that asks them first.
#![tactic(auto)]

mod answer;
pub mod laws;
mod shares;

pub use answer::ShareAnswer;
pub use shares::{ACTS_SHARE, Shares};
