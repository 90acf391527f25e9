//! Packets of one peer that wait until their owners' streams have grown.

ghost use Rattle.std.specs.Prelude.{◌≡◌, ℕ, ◌+◌, ◌<◌, ◌≤◌, [], All, replicate, length, IfOk, OnErr, OnOk, IfSome};
ghost use Rattle.std.specs.Prelude.{OnSome, IfNone, vec_len};
ghost use Rattle.frame_queues.specs.Waiting.{first_below};
ghost use Rattle.frame_queues.specs.Parking.{Parked, parked_count, parked_in, without_first, most_parked};
ghost use Rattle.frame_queues.specs.Parking.{IsFullest, IsRelieved, IsParked};

use crate::stream_packets::StreamPackets;
use link_frames::{Packet, Place};
use quorum_sizes::NodeName;
use std::alloc::{AllocError, Global};
use std::marker::Model;

/// The most packets of a peer that wait.
pub const MOST_PARKED: usize = 1_024;

/// Packets of one peer that wait, in a list for each owner's stream. Contracts see these lists.
#[derive(Drop)]
pub struct ParkedPackets {
    streams: Vec<StreamPackets>,
    /// How many wait in all.
    count: usize,
}

impl Model for ParkedPackets {
    ghost use Rattle.std.specs.Prelude.{◌≡◌, ◌≤◌};
    ghost use Rattle.frame_queues.specs.Parking.{Parked, parked_count, most_parked};

    ghost Value = { Parked };

    ghost view = { λ a. a.streams.items };

    ghost invariant = { λ a. (parked_count a.streams.items ≡ a.count) × (a.count ≤ most_parked) };
}

impl ParkedPackets {
    /// None, with a list for each of so many owners.
    ///
    /// # Errors
    ///
    /// Only for want of memory.
    pub fn new(alloc: Global, owners: u8) -> Result<ParkedPackets, AllocError>
        ensures { IfOk result (λ made. made ≡ replicate owners []) }
    {
        let mut streams = Vec::new(alloc);
        for _owner in 0..owners {
            streams.push(StreamPackets::new(alloc))?;
        }
        Ok(ParkedPackets { streams, count: 0 })
    }

    /// How many wait.
    pub fn len(&self) -> usize
        ensures value { result ≡ parked_count self.now }
        ensures most { parked_count self.now ≤ most_parked }
    {
        self.count
    }

    /// Lets a packet wait, unless one of its kind waits at its place. Where more wait then than may, of the owner with
    /// most packets the one furthest ahead is dropped. A packet of an owner that has no list doesn't wait.
    ///
    /// # Errors
    ///
    /// Only for want of memory. The packet doesn't wait.
    pub fn park(&mut self, packet: Packet) -> Result<(), AllocError>
        ensures ok { OnOk result (IsParked packet self.old self.new) }
        ensures most { parked_count self.new ≤ most_parked }
        ensures err { OnErr result (self.new ≡ self.old) }
    {
        let owner = usize::from(packet.owner().index());
        if owner >= self.streams.len() {
            return Ok(());
        }
        if self.streams[owner].put(packet)? {
            if self.count < MOST_PARKED {
                self.count += 1;
            } else {
                relieve(&mut self.streams);
            }
        }
        Ok(())
    }

    /// Takes the first packet of the owner's stream, if its place is below this one.
    pub fn take(&mut self, owner: NodeName, end: Place) -> Option<Packet>
        ensures value { result ≡ first_below end (parked_in self.old owner) }
        ensures some { OnSome result (self.new ≡ without_first self.old owner) }
        ensures least { IfSome result (λ p. All (λ q. p.place ≤ q.place) (parked_in self.old owner)) }
        ensures none { IfNone result (self.new ≡ self.old) }
    {
        let owner = usize::from(owner.index());
        if owner >= self.streams.len() {
            return None;
        }
        let packet = self.streams[owner].take_below(end)?;
        self.count -= 1;
        Some(packet)
    }
}

/// Drops the packet furthest ahead of the owner with most.
fn relieve(streams: &mut Vec<StreamPackets>)
    requires { 0 < vec_len streams.old }
    ensures relieved { IsRelieved streams.old.items streams.new.items }
    ensures fewer { 0 < parked_count streams.old.items →
        parked_count streams.new.items + 1 ≡ parked_count streams.old.items }
{
    let owner = fullest(streams);
    streams[owner].drop_last();
}

/// The owner with most packets, the first of them.
fn fullest(streams: &[StreamPackets]) -> usize
    requires { 0 < length streams.now }
    ensures { IsFullest streams.now result }
{
    let mut most = 0usize;
    for owner in 1..streams.len() {
        if streams[most].len() < streams[owner].len() {
            most = owner;
        }
    }
    most
}
