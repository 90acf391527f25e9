//! The streams of commands that the owners broadcast, as one node delivers them.
//!
//! `specs/Places.antt` says what a stream is, from the packets that the node took, and `specs/Steps.antt` what one
//! more packet causes.
#![tactic(auto)]

pub mod laws;
mod owner_stream;
mod steps;
mod streams;
mod vote_ends;

pub use link_frames::PLACES;
pub use owner_stream::WINDOW;
pub use steps::{Again, StreamFault, StreamStep};
pub use streams::Streams;
