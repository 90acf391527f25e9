//! Sessions and access checks of Core RBAC (ANSI INCITS 359-2004).
//!
//! A session has one user and opens with no active roles. A role that is active counts only while
//! the user is assigned to it. `specs/Sessions.antt` reads the sessions off the list of what the
//! clients did, `specs/Decisions.antt` has the decision on an access, and `specs/Refusals.antt` when
//! a call is refused.
#![tactic(auto)]

mod answers;
mod event;
mod faults;
pub mod laws;
mod open_session;
mod open_sessions;
mod session;
mod sessionless;
mod sessions;
mod verdict;

pub use event::ClientEvent;
pub use faults::{EndFault, SessionFault};
pub use sessionless::decide;
pub use sessions::Sessions;
pub use verdict::{Rule, Verdict};
