//! What a server does with packets and frames beside its inbox: which packets come before the jobs that wait there,
//! which wait until their owner's stream has grown, in which turns the frames of several connections are put, how the
//! bytes of a connection are read as frames, how frames wait until they are written over one, and which slot a client
//! gets that comes through a door.
//!
//! Nothing here knows of sockets, threads or locks.
#![tactic(auto)]

mod caller;
mod doors;
mod first_packets;
mod frame_block;
mod keys;
pub mod laws;
mod limits;
mod parked_packets;
mod places;
mod slots;
mod stream_packets;
mod turns;
mod unsent_frames;

pub use caller::{
    CLIENT_NUMBERS, Caller, DOOR_SLOTS, MOST_CLIENTS, MOST_LINES, MOST_PEERS, NO_LINE,
};
pub use doors::{ALL_SLOTS, Door, SlotStanding, WayIn, way_in};
pub use first_packets::FirstPackets;
pub use frame_block::{BLOCK_FRAMES, Came, FrameBlock};
pub use keys::{ClusterKeys, FrameKeys, PeerName};
pub use limits::Limits;
pub use parked_packets::{MOST_PARKED, ParkedPackets};
pub use slots::{Connected, Place, Slots, Standing};
pub use turns::{TURN_FRAMES, Turn, Turns};
pub use unsent_frames::{MOST_FRAMES, UnsentFrames};
