//! The messages of the broadcast, the links that carry them, and how a program reads lines and writes texts
//! over a reader and a writer that may fail.
//!
//! `specs/lines/Devices.antt` says when a device has failed, and `specs/lines/LinePrograms.antt` what a program means
//! that goes over lines.
#![tactic(auto)]

mod frames;
pub mod laws;
mod lines;

pub use frames::{
    FRAME_LEN, Frame, KeyFault, Kind, LinkFault, Message, PLACES, Packet, PairKeys, Place,
    ReadFault, frames_of, hmac_sha256, open_frame, read_frame, seal,
};
pub use lines::{
    Ahead, AheadFault, DeviceFault, Faulty, Held, Mishap, Next, Watched, read_patiently,
    write_whole,
};
