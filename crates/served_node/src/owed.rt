//! What a node sends to a single peer.

ghost use Rattle.std.specs.Prelude.{◌≡◌, ◌++◌, length, IfOk, OnOk};
ghost use Rattle.served_node.specs.Sent as sent;

use frame_queues::FrameKeys;
use link_frames::{Frame, Message};
use peer_windows::Share;
use quorum_sizes::NodeName;
use std::alloc::{AllocError, Global};

/// The messages of a peer's shares. Those of all shares stand one share after the other.
///
/// # Errors
///
/// Only for want of memory.
pub fn owed_to(
    alloc: Global,
    peer: NodeName,
    shares: &[Share],
    messages: &[Message],
) -> Result<Vec<Message>, AllocError>
    ensures { IfOk result (λ made. made.items ≡ sent.owed_to peer shares.now messages.now) }
{
    let mut made = Vec::new(alloc);
    let mut rest = messages;
    for share in shares {
        let (own, behind) = rest.split_at(share.count.min(rest.len()));
        if share.peer == peer {
            made.extend_from_slice(own)?;
        }
        rest = behind;
    }
    Ok(made)
}

/// Makes the frames to a peer, in place of those that are there: of the messages to all, and behind these of what it
/// alone is owed. How many these are.
///
/// # Errors
///
/// Only for want of memory. Some of the frames may be there.
pub fn frames_to<K: FrameKeys>(
    alloc: Global,
    keys: &K,
    to: NodeName,
    messages: &[Message],
    shares: &[Share],
    owed: &[Message],
    frames: &mut Vec<Frame>,
) -> Result<usize, AllocError>
    ensures frames { OnOk result (frames.new.items ≡ sent.frames_of (K.sealed keys.now) to messages.now
        ++ sent.frames_of (K.sealed keys.now) to (sent.owed_to to shares.now owed.now)) }
    ensures alone { IfOk result (λ count.
        count ≡ length (sent.frames_of (K.sealed keys.now) to (sent.owed_to to shares.now owed.now))) }
{
    frames.clear();
    seal(keys, to, messages, frames)?;
    let to_all = frames.len();
    let alone = owed_to(alloc, to, shares, owed)?;
    seal(keys, to, &alone, frames)?;
    Ok(frames.len() - to_all)
}

/// Puts the frames of messages to a node behind those that are there.
///
/// # Errors
///
/// Only for want of memory. Some of the frames may be there.
fn seal<K: FrameKeys>(
    keys: &K,
    to: NodeName,
    messages: &[Message],
    frames: &mut Vec<Frame>,
) -> Result<(), AllocError>
    ensures { OnOk result
        (frames.new.items ≡ frames.old.items ++ sent.frames_of (K.sealed keys.now) to messages.now) }
{
    for message in messages {
        if let Some(frame) = keys.seal(to, message) {
            frames.push(frame)?;
        }
    }
    Ok(())
}
