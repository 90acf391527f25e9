//! Batches of digits over a disk.
#![tactic(auto)]

mod digits;
mod disk;
mod fault;
mod head;
mod journal;
mod laying;
mod placing;
mod preparing;
mod reading;
mod room;
mod sealing;

pub use digits::{are_digits, push_digits};
pub use disk::MOST_BYTES;
pub use fault::JournalFault;
pub use head::Head;
pub use journal::{Journal, MOST_DIGITS, read};
pub use reading::{Found, read_journal};
pub use room::ROOM_BEHIND;
