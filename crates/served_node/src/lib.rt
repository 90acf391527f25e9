//! A node as it is served: what is behind its lock, what a client and an operator hear of it, and what its peers are
//! sent.
//!
//! A server does not know what is behind the lock (`HeldNode`): a node in memory alone, or one with a journal.
//! `specs/Served.antt` says what a client hears and what the node sends, `specs/Told.antt` which answers it reads.
//! Nothing here knows of sockets or threads.
#![tactic(auto)]

pub mod answers;
mod asked;
mod behind;
mod ending;
mod heard;
mod owed;
mod said;
mod tally;
mod told;

pub use asked::node_answer;
pub use behind::{HeldNode, NotKept, make_call, taken_packet};
pub use ending::Ending;
pub use heard::{Heard, PeerHeard};
pub use owed::{frames_to, owed_to};
pub use said::Said;
pub use tally::{SyncTally, micros, millis};
pub use told::{LineAnswer, Told};
