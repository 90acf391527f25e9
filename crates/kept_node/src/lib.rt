//! A locked node with its journal: what it records is on the disk before anybody is told of it.
//!
//! `specs/Events.antt` says how events stand in a journal as digits, `specs/NodeHeads.antt` what a node's journal
//! begins with, `specs/Keeping.antt` what a crash leaves of a node, `specs/Restoring.antt` why none is restored, and
//! `specs/Telling.antt` what a hold said and who may read it.
#![tactic(auto)]

mod event_digits;
mod event_reading;
mod fault;
mod head;
mod kept;
pub mod laws;
mod opening;
mod replaying;
mod unkept;
mod untold;

pub use event_digits::{MOST_EVENT_DIGITS, push_event};
pub use event_reading::read_event;
pub use fault::Unrestored;
pub use head::head_of;
pub use kept::{Kept, MOST_WAITING};
pub use replaying::{NotNew, ReplayFault, new_locked, replay_events};
pub use unkept::Unkept;
pub use untold::{Leaving, Synced, Told, Untold};
