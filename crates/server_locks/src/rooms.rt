//! How many frames each node takes, of what is sent to it alone.

ghost use Rattle.std.specs.Prelude.{◌≡◌, [], ◌∷◌, length, slice_set};
ghost use Rattle.server_locks.specs.Rooms.{AreRoomsFor, room_beside, rooms_beside};

use crate::outbox::Outbox;
use peer_windows::Share;
use quorum_sizes::NodeName;
use std::sync::Wait;

/// How many frames each node takes: the peers as their outboxes say, the node itself so many, and all of them fewer by
/// what these shares have.
pub(crate) fn find_rooms<R: Wait>(
    rt: &R,
    outboxes: &[Outbox],
    own: (NodeName, u32),
    shares: &[Share],
    rooms: &mut [Option<u32>],
)
    ensures { AreRoomsFor own.0 own.1 shares.now rooms.old rooms.new }
{
    ask_rooms(rt, outboxes, rooms);
    put_room(rooms, own.0, Some(own.1));
    take_rooms(rooms, shares);
}

/// How many frames each peer takes, as its outbox says; `None` at the node itself.
fn ask_rooms<R: Wait>(rt: &R, outboxes: &[Outbox], rooms: &mut [Option<u32>])
    ensures { length rooms.new ≡ length rooms.old }
{
    rooms.fill(None);
    for outbox in outboxes {
        put_room(rooms, outbox.to, outbox.room(rt));
    }
}

/// A node takes so many frames.
fn put_room(rooms: &mut [Option<u32>], node: NodeName, room: Option<u32>)
    ensures { rooms.new ≡ slice_set rooms.old node room }
{
    let index = usize::from(node.index());
    if index < rooms.len() {
        rooms[index] = room;
    }
}

/// Each share's peer takes as many frames fewer as the share has.
fn take_rooms(rooms: &mut [Option<u32>], shares: &[Share])
    ensures { rooms.new ≡ rooms_beside shares.now rooms.old }
{
    for share in shares {
        take_room(rooms, share);
    }
}

fn take_room(rooms: &mut [Option<u32>], share: &Share)
    ensures { rooms.new ≡ rooms_beside (share.now ∷ []) rooms.old }
{
    let index = usize::from(share.peer.index());
    if index < rooms.len() {
        rooms[index] = room_beside(rooms[index], share.count);
    }
}

fn room_beside(room: Option<u32>, count: usize) -> Option<u32>
    ensures { result ≡ room_beside room count }
{
    let count = u32::try_from(count).unwrap_or(u32::MAX);
    Some(room?.saturating_sub(count))
}
