//! A whole node: a state machine whose every reply can be audited from its history.
//!
//! `specs/Histories.antt` reads a history's parts, `specs/Access.antt` the streams, relations, sessions and
//! decisions that follow from it, `specs/Answers.antt` the answer that is due to an event, and
//! `specs/Questions.antt` the answer to a question.
#![tactic(auto)]

mod config;
mod entry;
mod event;
mod faults;
pub mod laws;
mod node;
mod noted;
mod question;
mod state;

pub use config::{Config, MOST_EVENTS};
pub use entry::Entry;
pub use event::{Event, NodeAgain, Reply};
pub use faults::{AskFault, NodeFault};
pub use node::Node;
pub use question::{Answer, Question};
pub use role_sessions::{ClientEvent, Rule, Verdict};
