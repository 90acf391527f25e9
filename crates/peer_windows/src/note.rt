//! What the answers to packets and commands change.

ghost use Rattle.std.specs.Prelude.{◌≡◌, ◌≤◌};
ghost use Rattle.std.specs.Option.{option_copied};
ghost use Rattle.peer_windows.specs.Pauses.{most_time};
ghost use Rattle.peer_windows.specs.Notes.{noted, counted_noted, idle_noted, level_seen};

use crate::answers::Repeat;
use crate::pairs::Pairs;
use crate::peer_sent::level_of;
use crate::seen::Level;
use link_frames::{Kind, Packet};
use node_lock::{Locked, Outcome, Seat};
use quorum_sizes::NodeName;
use role_node::{NodeFault, Reply};
use std::sync::ledger::Ledger;

impl Pairs {
    /// Notes what the node answered to a packet, or to what else has no packet. What a packet of the node itself
    /// repeats says nothing.
    pub fn note<L: Ledger>(
        &mut self,
        locked: &mut Locked<L>,
        seat: &mut Seat<L>,
        now: u64,
        packet: Option<&Packet>,
        outcome: &Outcome,
    )
        requires { now ≤ most_time }
        ensures pairs { self.new ≡ noted locked.old seat.old now (option_copied packet.entry) outcome.now self.old }
        ensures same { locked.new ≡ locked.old }
    {
        match (outcome, packet) {
            (Outcome::Reply(Reply::Issued(message)), _) => self.grow(now, message.owner),
            (Outcome::Reply(Reply::Counted { .. }), Some(packet)) => {
                self.note_counted(locked, seat, now, packet);
            }
            (Outcome::Reply(Reply::Idle), Some(packet)) => self.note_idle(
                locked, seat, now, packet,
            ),
            (Outcome::Refused(NodeFault::Beyond { .. }), Some(packet)) => {
                let (owner, peer) = (packet.owner(), packet.from());
                if let Some(level) = level_in(locked, seat, owner, peer) {
                    self.pass(now, owner, peer, level);
                }
            }
            _ => {}
        }
    }

    /// A packet has counted.
    fn note_counted<L: Ledger>(
        &mut self,
        locked: &mut Locked<L>,
        seat: &mut Seat<L>,
        now: u64,
        packet: &Packet,
    )
        requires { now ≤ most_time }
        ensures pairs { self.new ≡ counted_noted locked.old seat.old now packet.now self.old }
        ensures same { locked.new ≡ locked.old }
    {
        let (owner, peer) = (packet.owner(), packet.from());
        self.grow(now, owner);
        if !matches!(packet.kind(), Kind::Send) {
            self.move_on(now, owner, peer);
        }
        if self.is_served(owner, peer) {
            if let Some(level) = level_in(locked, seat, owner, peer) {
                self.vote(now, owner, peer, level);
            }
        }
    }

    /// A packet has changed nothing.
    fn note_idle<L: Ledger>(
        &mut self,
        locked: &mut Locked<L>,
        seat: &mut Seat<L>,
        now: u64,
        packet: &Packet,
    )
        requires { now ≤ most_time }
        ensures pairs { self.new ≡ idle_noted locked.old seat.old now packet.now self.old }
        ensures same { locked.new ≡ locked.old }
    {
        let (owner, peer) = (packet.owner(), packet.from());
        if peer == self.me {
            return;
        }
        if let Some(level) = level_in(locked, seat, owner, peer) {
            let repeat = Repeat {
                place: packet.place(),
                is_ready: matches!(packet.kind(), Kind::Ready),
            };
            self.hear(now, owner, peer, level, repeat);
        }
    }
}

/// How the owner's stream and the peer stand, where both are nodes and the seat fits the node.
fn level_in<L: Ledger>(
    locked: &mut Locked<L>,
    seat: &mut Seat<L>,
    owner: NodeName,
    peer: NodeName,
) -> Option<Level>
    ensures level { result ≡ level_seen locked.old seat.old owner peer }
    ensures same { locked.new ≡ locked.old }
{
    if locked.has(owner) && locked.has(peer) {
        level_of(locked, seat, owner, peer).ok()
    } else {
        None
    }
}
