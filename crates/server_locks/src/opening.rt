//! Opening the frames of a peer's connection.

ghost use Rattle.std.specs.Prelude.{◌≡◌, IfOk, OnOk};
ghost use Rattle.server_locks.specs.Opened.{name_due, packets_taken, unopened_taken};

use frame_queues::{FrameKeys, PeerName};
use link_frames::{Frame, Packet};
use std::alloc::AllocError;

/// What came of frames of a connection.
#[derive(Clone, Copy, Debug, PartialEq, Eq)]
pub struct Opened {
    /// The peer whose frame was the first that opened on the connection, if one has.
    pub peer: Option<PeerName>,
    /// How many frames did not open, and are lost.
    pub unopened: usize,
}

/// Opens frames of a connection on which a frame of this peer was the first that opened, if one has. Their packets come
/// in place of those that are there, in the order of the frames. Where none has opened before, and the first does not,
/// no more are opened.
///
/// # Errors
///
/// Only for want of memory. The packets before are there.
pub fn open_frames<K: FrameKeys>(
    keys: &K,
    frames: &[Frame],
    peer: Option<PeerName>,
    packets: &mut Vec<Packet>,
) -> Result<Opened, AllocError>
    ensures packets { OnOk result (packets.new.items ≡ packets_taken (K.opened keys.now) peer frames.now) }
    ensures unopened { IfOk result (λ o. o.unopened ≡ unopened_taken (K.opened keys.now) peer frames.now) }
    ensures named { IfOk result (λ o. o.peer ≡ name_due (K.opened keys.now) (K.peer_of keys.now) peer frames.now) }
{
    packets.clear();
    let mut opened = Opened { peer, unopened: 0 };
    for frame in frames {
        match keys.open(frame) {
            Some(packet) => {
                if opened.peer.is_none() {
                    opened.peer = Some(keys.peer(&packet));
                }
                packets.push(packet)?;
            }
            None => {
                opened.unopened += 1;
                if opened.peer.is_none() {
                    return Ok(opened);
                }
            }
        }
    }
    Ok(opened)
}
