//! What a frame is: the packet that it carries, the keys of its nodes and its tag, and how frames are sealed, opened,
//! read and cut.

mod cutting;
mod hmac;
mod hmac_blocks;
mod keys;
mod kind;
mod layout;
mod opening;
mod packet;
mod reading;
mod schedule;
mod sealing;
mod sha256;

pub use cutting::frames_of;
pub use hmac::hmac_sha256;
pub use keys::{KeyFault, PairKeys};
pub use kind::Kind;
pub use layout::{FRAME_LEN, Frame};
pub use opening::{LinkFault, open_frame};
pub use packet::{Message, PLACES, Packet, Place};
pub use reading::{ReadFault, read_frame};
pub use sealing::seal;
