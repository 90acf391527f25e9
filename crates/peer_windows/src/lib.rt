//! What a node sends again by itself to a peer that may lack it, and when.
//!
//! `specs/Sent.antt` says what is sent again, `specs/Pauses.antt` which pauses there are, `specs/Pairs.antt` what a
//! look at a pair of an owner and a peer brings, `specs/Answers.antt` what a frame of the peer brings,
//! `specs/Owners.antt` what all pairs are and when something is due, and `specs/Notes.antt` what an answer of the node
//! changes in them. Nothing here knows of sockets, threads or clocks: times are milliseconds that are handed in.
#![tactic(auto)]

mod answers;
mod gather;
mod note;
mod owed;
mod owner_pairs;
mod pair;
mod pairs;
mod pause;
mod peer_sent;
mod seen;
mod sent;
mod stream_look;
mod window;

pub use answers::Repeat;
pub use gather::ENOUGH_ROOM;
pub use owed::{Owed, Share};
pub use pairs::Pairs;
pub use pause::{FIRST_PAUSE, MOST_TIME, NEVER};
pub use peer_sent::{level_of, push_rest, push_step, push_window, seen_of, window_at};
pub use seen::{Level, Seen, Step};
pub use sent::{look_at, push_again, push_probe, push_sent, push_tail};
pub use stream_look::StreamLook;
pub use window::{PeerWindow, vote_end};
