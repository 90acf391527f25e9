//! Packets of one owner's stream that wait, in the order of their places.

ghost use Rattle.std.specs.Prelude.{◌≡◌, ℕ, ◌+◌, ◌-◌, ◌<◌, ◌≤◌, [], length, take, drop, All, slice_index_or};
ghost use Rattle.std.specs.Prelude.{IfOk, OnErr, OnOk, IfSome, OnSome, IfNone, if◌then◌else◌};
ghost use Rattle.link_frames.specs.frames.Packets.{PacketValue};
ghost use Rattle.frame_queues.specs.Waiting as waiting;
ghost use Rattle.frame_queues.specs.Waiting.{waiting_with, first_below, IsInOrder};

use link_frames::{Kind, Packet, Place};
use std::alloc::{AllocError, Global};
use std::collections::VecDeque;
use std::marker::Model;

/// Packets of one owner's stream, those of lower places first. Contracts see them as a list.
#[derive(Drop)]
pub(crate) struct StreamPackets {
    packets: VecDeque<Packet>,
}

impl Model for StreamPackets {
    ghost use Rattle.std.specs.Prelude.{List};
    ghost use Rattle.link_frames.specs.frames.Packets.{PacketValue};
    ghost use Rattle.frame_queues.specs.Waiting.{IsInOrder};

    ghost Value = { List PacketValue };

    ghost view = { λ a. a.packets.items };

    ghost invariant = { λ a. IsInOrder a.packets.items };
}

impl StreamPackets {
    /// None. Takes no memory.
    pub(crate) fn new(alloc: Global) -> StreamPackets
        ensures { result ≡ [] }
    {
        StreamPackets {
            packets: VecDeque::new(alloc),
        }
    }

    /// How many wait.
    pub(crate) fn len(&self) -> usize
        ensures { result ≡ length self.now }
    {
        self.packets.len()
    }

    /// Lets a packet wait, where it belongs. Whether it is one more: where one of its kind waits at its place already,
    /// that stays alone.
    ///
    /// # Errors
    ///
    /// Only for want of memory. It doesn't wait.
    pub(crate) fn put(&mut self, packet: Packet) -> Result<bool, AllocError>
        ensures ok { OnOk result (self.new ≡ waiting_with packet self.old) }
        ensures more { IfOk result (λ more. length self.new ≡ length self.old + (if more then 1 else 0)) }
        ensures err { OnErr result (self.new ≡ self.old) }
    {
        let Some(at) = room_for(&self.packets, order_of(&packet)) else {
            return Ok(false);
        };
        self.packets.insert(at, packet)?;
        Ok(true)
    }

    /// Takes the first packet, if its place is below this one.
    pub(crate) fn take_below(&mut self, end: Place) -> Option<Packet>
        ensures value { result ≡ first_below end self.old }
        ensures some { OnSome result (self.new ≡ drop 1 self.old) }
        ensures least { IfSome result (λ p. All (λ q. p.place ≤ q.place) self.old) }
        ensures none { IfNone result (self.new ≡ self.old) }
    {
        if self.packets.front()?.place() < end {
            self.packets.pop_front()
        } else {
            None
        }
    }

    /// Drops the last packet, if there is one.
    pub(crate) fn drop_last(&mut self)
        ensures { self.new ≡ take (length self.old - 1) self.old }
    {
        let _ = self.packets.pop_back();
    }
}

/// Where a packet of this order belongs among packets; `None` where one has it. Looked for from the end, where packets
/// mostly belong.
fn room_for(packets: &VecDeque<Packet>, order: u32) -> Option<usize>
    requires { IsInOrder packets.now.items }
    ensures bound { IfSome result (λ at. at ≤ length packets.now.items) }
    ensures before { IfSome result (λ at. All (λ p. waiting.order_of p < order) (take at packets.now.items)) }
    ensures behind { IfSome result (λ at. All (λ p. order < waiting.order_of p) (drop at packets.now.items)) }
    ensures none { IfNone result ((at : ℕ) × (at < length packets.now.items) ×
        ((d : PacketValue) → waiting.order_of (slice_index_or packets.now.items at d) ≡ order)) }
{
    let mut at = packets.len();
    while at > 0 {
        let other = order_of(&packets[at - 1]);
        if other == order {
            return None;
        }
        if other < order {
            return Some(at);
        }
        at -= 1;
    }
    Some(0)
}

/// Where a packet belongs: by its place, and at one place by its kind.
fn order_of(packet: &Packet) -> u32
    ensures { result ≡ waiting.order_of packet.now }
{
    let kind = match packet.kind() {
        Kind::Send => 0,
        Kind::Echo => 1,
        Kind::Ready => 2,
    };
    packet.place() * 3 + kind
}
