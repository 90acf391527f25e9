//! The same surface over a locked node that keeps all in memory.

ghost use Rattle.std.specs.Prelude.{◌≡◌, ◌↔◌, ◌<◌, ◌≤◌, [], length, IsTrue, option_map, IfOk, IfErr, OnOk, OnErr};
ghost use Rattle.std.specs.Prelude.{◌⊎◌, true, map};
ghost use Rattle.std.specs.Option.{option_copied};
ghost use Rattle.role_node.specs.Nodes.{IsLegalNode};
ghost use Rattle.node_lock.specs.Holds.{end_of, Fits, receipt_of};
ghost use Rattle.node_lock.specs.Views.{node_count, view_of, held_after_hold, seat_after_hold, IsHoldFault};
ghost use Rattle.peer_windows.specs.Notes.{noted};
ghost use Rattle.peer_windows.specs.Looks.{AreLookedAt};
ghost use Rattle.peer_windows.specs.Owed.{IsGathered, IsGatherFault, is_full};
ghost use Rattle.peer_windows.specs.Owners.{next_probe};
ghost use Rattle.peer_windows.specs.Pauses.{most_time};

use crate::untold::{Synced, Untold};
use link_frames::{Packet, Place};
use node_lock::{Call, Locked, Outcome, Seat, StepFault};
use peer_windows::{Owed, Pairs};
use quorum_sizes::NodeName;
use std::marker::Model;
use std::sync::ledger::Ledger;

/// A locked node without a journal: what it records counts as synced at once, and a crash loses all of it. Contracts
/// see what is behind the lock.
#[derive(Drop)]
pub struct Unkept<L: Ledger> {
    locked: Locked<L>,
    /// How many events the node has recorded.
    recorded: u64,
}

impl<L: Ledger> Model for Unkept<L> {
    ghost use Rattle.std.specs.Prelude.{◌≡◌};
    ghost use Rattle.node_lock.specs.Holds.{Held, held_code, end_of};

    ghost Value = { Held };

    ghost coded = { held_code };

    ghost view = { λ a. a.locked };

    ghost invariant = { λ a. a.recorded ≡ end_of a.locked };
}

impl<L: Ledger> Unkept<L> {
    /// A node that has recorded nothing.
    pub fn new(locked: Locked<L>) -> Unkept<L>
        requires { locked.node.history ≡ [] }
        ensures { result ≡ locked }
    {
        Unkept {
            locked,
            recorded: 0,
        }
    }

    /// Whether the name is a node's of the sizes of the node.
    pub fn has(&self, name: NodeName) -> bool
        ensures { IsTrue result ↔ (name < node_count self.now) }
    {
        self.locked.has(name)
    }

    /// The node's name.
    pub fn me(&self) -> NodeName
        ensures value { result ≡ self.now.node.me }
        ensures node { self.now.node.me < node_count self.now }
    {
        self.locked.me()
    }

    /// How many events count as synced: all.
    pub fn synced(&self) -> Synced<L>
        ensures { result ≡ end_of self.now }
    {
        Synced::new(self.recorded)
    }

    /// As [`Locked::hold`].
    ///
    /// # Errors
    ///
    /// As [`Locked::hold`]. Node and seat stay as they were.
    pub fn hold(
        &mut self,
        seat: &mut Seat<L>,
        call: Option<Call>,
        owner: NodeName,
        place: Place,
    ) -> Result<Untold<L>, StepFault>
        requires { owner < node_count self.old }
        ensures fits { OnOk result (Fits self.old seat.old) }
        ensures receipt { IfOk result (λ u. u.receipt ≡ option_map (receipt_of self.old seat.old) call) }
        ensures view { IfOk result (λ u. u.view ≡ view_of self.new owner place) }
        ensures at { IfOk result (λ u. u.at ≡ end_of self.new) }
        ensures held { OnOk result (self.new ≡ held_after_hold self.old seat.old call) }
        ensures seat { OnOk result (seat.new ≡ seat_after_hold self.old seat.old call) }
        ensures err { IfErr result (IsHoldFault self.old seat.old call) }
        ensures same { OnErr result (self.new ≡ self.old) }
        ensures same_seat { OnErr result (seat.new ≡ seat.old) }
        ensures legal { IsLegalNode self.new.node }
        ensures beside { length self.new.seats ≡ end_of self.new }
    {
        let (receipt, view) = self.locked.hold(seat, call, owner, place)?;
        let at = u64::from(view.at);
        self.recorded = at;
        Ok(Untold::new(receipt, view, at))
    }

    /// All counts as synced.
    pub fn sync(&mut self) -> Synced<L>
        ensures upto { result ≡ end_of self.new }
        ensures same { self.new ≡ self.old }
    {
        Synced::new(self.recorded)
    }

    /// As [`Pairs::note`].
    pub fn note(
        &mut self,
        seat: &mut Seat<L>,
        now: u64,
        pairs: &mut Pairs,
        packet: Option<&Packet>,
        outcome: &Outcome,
    )
        requires { now ≤ most_time }
        ensures pairs { pairs.new ≡ noted self.old seat.old now (option_copied packet.entry) outcome.now pairs.old }
        ensures same { self.new ≡ self.old }
    {
        pairs.note(&mut self.locked, seat, now, packet, outcome);
    }

    /// As [`Pairs::gather`].
    ///
    /// # Errors
    ///
    /// As [`Pairs::gather`].
    pub fn gather(
        &mut self,
        seat: &mut Seat<L>,
        now: u64,
        pairs: &mut Pairs,
        rooms: &mut [Option<u32>],
        owed: &mut Owed,
    ) -> Result<(), StepFault>
        requires { now ≤ most_time }
        ensures owed { IsGathered self.old owed.old owed.new }
        ensures fault { IfErr result (IsGatherFault self.old seat.old) }
        ensures looks { OnOk result
            (AreLookedAt self.old now rooms.old rooms.new owed.new pairs.old pairs.new) }
        ensures probes { OnOk result
            ((is_full owed.new ≡ true) ⊎ (pairs.new.probes ≡ map (next_probe now) pairs.old.probes)) }
        ensures same { self.new ≡ self.old }
    {
        pairs.gather(&mut self.locked, seat, now, rooms, owed)
    }
}
