//! A node with its journal, as a program has it: the journal's files, begun, opened and looked at; the node as a server
//! has it behind its lock; the keys of its setup.
//!
//! `specs/Keeping.antt` says what of a node with a journal may leave, and `specs/Statuses.antt` with which status a
//! program ends whose journal is refused.
#![tactic(auto)]

mod beyond;
mod fault;
mod held;
mod journal_file;
mod keeping;
mod keys;

pub use beyond::Beyond;
pub use fault::KeptFault;
pub use held::Journaled;
pub use journal_file::{make_journal, open_journal, open_to_look, remove_beside};
pub use keeping::{Sight, begin, look, restored};
pub use keys::keys_of;
