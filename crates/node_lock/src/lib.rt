//! A node that threads share: each call under its lock gives a receipt, and the receipts can be audited afterwards.
//!
//! `specs/Receipts.antt` says which outcome is due to a call, `specs/Seats.antt` what a caller's seat has seen and
//! recorded, `specs/Holds.antt` what a call under the lock does, `specs/Views.antt` what may be read after it, and
//! `specs/Audits.antt` which receipts are true.
#![tactic(auto)]

mod audits;
mod gate;
mod inbox;
mod job;
pub mod laws;
mod locked;
mod pool;
mod questions;
mod receipt;
mod report;
mod seat;
mod shared;
mod view;
mod worker;

pub use audits::{AuditFault, audit};
pub use gate::{Gate, NoGate};
pub use inbox::{INBOX_CAPACITY, Inbox, InboxFault, InboxPass, MOST_PASSES};
pub use job::Job;
pub use locked::{Locked, StepFault};
pub use pool::{MOST_CALLS, run_pool};
pub use receipt::{Call, Outcome, Receipt};
pub use report::{Cause, PoolFault, PoolReport};
pub use seat::{MOST_SEATS, Seat};
pub use shared::{CloseFault, SharedNode, close, unshared};
pub use view::View;
