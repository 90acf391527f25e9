//! What comes before the jobs of an inbox.

ghost use Rattle.std.specs.Prelude.{◌≡◌, Some, None, [], replicate, IfOk, OnErr, OnOk, IfSome, IfNone};
ghost use Rattle.frame_queues.specs.Firsts.{IsFirstParked, NoneIsDue, IsTaken, IsDueAnswer};

use crate::parked_packets::ParkedPackets;
use link_frames::{Packet, Place};
use quorum_sizes::NodeName;
use std::alloc::{AllocError, Global};
use std::marker::Model;

/// An owner whose stream has grown: its packets below the end of its window count now.
#[derive(Clone, Copy, Debug, PartialEq, Eq)]
struct Due {
    owner: NodeName,
    end: Place,
}

impl Model for Due {
    ghost use Rattle.frame_queues.specs.Firsts.{DueValue};

    ghost Value = { DueValue };

    ghost view = { λ a. record { owner = a.owner; end = a.end } };

    ghost inverse = { λ d. record { owner = d.owner; end = d.end } };
}

/// What comes before the jobs of an inbox: the node's own packet, and then packets of peers that were beyond the window
/// of their owner's stream, once it has grown.
#[derive(Drop)]
pub struct FirstPackets {
    own: Option<Packet>,
    due: Option<Due>,
    /// What waits of each peer.
    parked: Vec<ParkedPackets>,
}

impl Model for FirstPackets {
    ghost use Rattle.frame_queues.specs.Firsts.{FirstValue};

    ghost Value = { FirstValue };

    ghost view = { λ a. record { own = a.own; due = a.due; parked = a.parked.items } };
}

impl FirstPackets {
    /// Nothing, in a cluster of so many nodes.
    ///
    /// # Errors
    ///
    /// Only for want of memory.
    pub fn new(alloc: Global, nodes: u8) -> Result<FirstPackets, AllocError>
        ensures own { IfOk result (λ made. made.own ≡ None) }
        ensures due { IfOk result (λ made. made.due ≡ None) }
        ensures parked { IfOk result (λ made. made.parked ≡ replicate nodes (replicate nodes [])) }
    {
        let mut parked = Vec::new(alloc);
        for _peer in 0..nodes {
            parked.push(ParkedPackets::new(alloc, nodes)?)?;
        }
        Ok(FirstPackets {
            own: None,
            due: None,
            parked,
        })
    }

    /// The node has sent this packet to itself. The one before it must have been taken, as [`next`](Self::next) does
    /// first, so there is always room for it.
    pub fn put_own(&mut self, packet: Packet)
        requires { self.old.own ≡ None }
        ensures { self.new ≡ record self.old { own = Some packet } }
    {
        self.own = Some(packet);
    }

    /// Lets a packet of a peer wait, as [`ParkedPackets::park`] does.
    ///
    /// # Errors
    ///
    /// Only for want of memory. The packet doesn't wait.
    pub fn park(&mut self, packet: Packet) -> Result<(), AllocError>
        ensures ok { OnOk result (IsFirstParked packet self.old self.new) }
        ensures own { self.new.own ≡ self.old.own }
        ensures err { OnErr result (self.new ≡ self.old) }
    {
        let peer = usize::from(packet.from().index());
        if peer < self.parked.len() {
            self.parked[peer].park(packet)?;
        }
        Ok(())
    }

    /// An owner's stream has grown, so that packets below this place are not beyond its window. They are due until none
    /// of them waits, or another owner's are.
    pub fn reached(&mut self, owner: NodeName, end: Place)
        ensures { self.new ≡ record self.old { due = Some (record { owner = owner; end = end }) } }
    {
        self.due = Some(Due { owner, end });
    }

    /// Takes what comes next: the node's own packet; else the first that is due, of the first peer that has one.
    pub fn next(&mut self) -> Option<Packet>
        ensures own { IfSome self.old.own (λ p. (result ≡ Some p) × (self.new ≡ record self.old { own = None })) }
        ensures others { self.old.own ≡ None → IsDueAnswer self.old self.new result }
        ensures free { self.new.own ≡ None }
    {
        if let Some(packet) = self.own {
            self.own = None;
            return Some(packet);
        }
        let due = self.due?;
        let packet = take_due(&mut self.parked, due);
        if packet.is_none() {
            self.due = None;
        }
        packet
    }
}

/// Takes the first packet that is due, of the first peer that has one.
fn take_due(parked: &mut Vec<ParkedPackets>, due: Due) -> Option<Packet>
    ensures none { IfNone result (NoneIsDue due parked.old.items × (parked.new.items ≡ parked.old.items)) }
    ensures some { IfSome result (IsTaken due parked.old.items parked.new.items) }
{
    for peer in 0..parked.len() {
        if let Some(packet) = parked[peer].take(due.owner, due.end) {
            return Some(packet);
        }
    }
    None
}
