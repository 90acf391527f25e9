//! What is behind a serving node's lock.

ghost use Rattle.std.specs.Prelude.{◌≡◌, ◌≤◌, ◌↔◌, ◌<◌, Bool, false, IsTrue, IfOk, IfErr, IfSome, OnOk, OnErr, OnSome};
ghost use Rattle.std.specs.Prelude.{◌⊎◌, ℕ, option_map, Some, IfNone, IsOk, IsSome, true, map, length};
ghost use Rattle.std.specs.Option.{option_copied};
ghost use Rattle.owner_shares.specs.Answers.{answer_of_shares};
ghost use Rattle.role_node.specs.Begun.{is_begun_twice};
ghost use Rattle.role_node.specs.Histories.{issued};
ghost use Rattle.role_node.specs.Nodes.{IsLegalNode};
ghost use Rattle.node_lock.specs.Holds.{end_of, Held};
ghost use Rattle.node_lock.specs.Receipts.{outcome_due};
ghost use Rattle.node_lock.specs.Views.{node_count, view_of, held_after_hold, seat_after_hold, IsHoldFault};
ghost use Rattle.peer_windows.specs.Notes.{noted};
ghost use Rattle.peer_windows.specs.Looks.{AreLookedAt};
ghost use Rattle.peer_windows.specs.Owed.{IsGathered, IsGatherFault, is_full as is_full_of};
ghost use Rattle.peer_windows.specs.Owners.{next_probe};
ghost use Rattle.peer_windows.specs.Pauses.{most_time};
ghost use Rattle.served_node.specs.Holds.{IsNotHeld};
ghost use Rattle.served_node.specs.Served.{own_packet, taken_by};
ghost use Rattle.served_node.specs.declared.said.Said.{Said};

use crate::said::Said;
use link_frames::{Packet, Place};
use node_lock::{Call, Locked, Outcome, Seat, StepFault};
use owner_shares::{ShareAnswer, Shares};
use peer_windows::{Owed, Pairs};
use quorum_sizes::NodeName;
use role_node::{Event, Node};
use std::sync::ledger::Ledger;

/// What holds recorded could not be kept.
#[derive(Clone, Copy, Debug, PartialEq, Eq)]
pub struct NotKept;

/// What is behind a serving node's lock: a node of which holds are made, which keeps what they record, and releases
/// what they said once that is kept. So a server tells nobody what a crash could take back.
///
/// Contracts see the node with the seat beside each event (`held`), what a hold said (`said`), of how many events that
/// speaks (`speaks_of`), and whether it may leave (`may_leave`).
pub trait HeldNode {
    /// Of which ledger the node's seats are.
    type Ledger: Ledger + Send + Sync;

    /// What a hold said, which nobody reads before it is released, save a packet to the node itself.
    type Untold: Drop + Send;

    ghost held: { Self → Held };

    /// So much is recorded that it has to be kept before the next hold.
    ghost is_full: { Self → Bool };

    /// All that was recorded is kept.
    ghost is_kept: { Self → Type 0 };

    /// Nothing more can be kept: what was to keep it has failed, or has no room.
    ghost has_failed: { Self → Type 0 };

    ghost said: { Self.Untold → Said };

    ghost speaks_of: { Self.Untold → ℕ };

    ghost may_leave: { Self → Self.Untold → Type 0 };

    /// Whether a [`sync`](Self::sync) may take long, so that what came meanwhile is better done by one.
    fn may_sync_long() -> bool;

    /// Whether the name is a node's of the sizes of the node.
    fn has(&self, name: NodeName) -> bool
        ensures { IsTrue result ↔ (name < node_count (held self.now)) };

    /// How many commands the node has published.
    fn published(&self) -> u32
        ensures { result ≡ length (issued (held self.now).node.history) };

    /// Whether the history shows that the node was begun twice, as [`Node::is_begun_twice`] does.
    fn is_begun_twice(&self) -> bool
        ensures { result ≡ is_begun_twice (held self.now).node.config.roles.sizes (held self.now).node.me
            (held self.now).node.history };

    /// What the shares answer to an event before the node is asked, as [`Shares::answer`] does. It takes no memory.
    fn share_answer(&self, shares: &Shares, event: &Event) -> Option<ShareAnswer>
        ensures answer { result ≡ answer_of_shares shares.now (held self.now).node event.now }
        ensures legal { IsLegalNode (held self.now).node };

    /// Whether so much is recorded that a [`sync`](Self::sync) has to come before the next hold.
    fn must_sync(&self) -> bool
        ensures { result ≡ is_full self.now };

    /// Makes a hold, as [`Locked::hold`] does: the call, where there is one, and then the view of the owner's stream
    /// and of the place in it.
    ///
    /// # Errors
    ///
    /// As [`Locked::hold`]. Node and seat stay as they were.
    fn hold(
        &mut self,
        seat: &mut Seat<Self::Ledger>,
        call: Option<Call>,
        owner: NodeName,
        place: Place,
    ) -> Result<Self::Untold, StepFault>
        requires owner { owner < node_count (held self.old) }
        requires room { is_full self.old ≡ false }
        ensures outcome { IfOk result (λ u. (said u).outcome ≡ option_map (outcome_due (held self.old).node) call) }
        ensures view { IfOk result (λ u. (said u).view ≡ view_of (held self.new) owner place) }
        ensures at { IfOk result (λ u. speaks_of u ≡ end_of (held self.new)) }
        ensures held { OnOk result (held self.new ≡ held_after_hold (held self.old) seat.old call) }
        ensures seat { OnOk result (seat.new ≡ seat_after_hold (held self.old) seat.old call) }
        ensures err { IfErr result (IsHoldFault (held self.old) seat.old call) }
        ensures same { OnErr result (held self.new ≡ held self.old) }
        ensures same_seat { OnErr result (seat.new ≡ seat.old) };

    /// The packet that a hold has this node send to itself, which need not wait until what was recorded is kept.
    fn own_packet(&self, me: NodeName, untold: &Self::Untold) -> Option<Packet>
        ensures { result ≡ own_packet me (said untold.now).outcome };

    /// Keeps all that was recorded, so that what holds said until now may leave.
    ///
    /// # Errors
    ///
    /// It could not be kept. The server ends, and releases nothing more.
    fn sync(&mut self) -> Result<(), NotKept>
        ensures kept { OnOk result
            ((u : Self.Untold) → speaks_of u ≤ end_of (held self.new) → may_leave self.new u) }
        ensures all { OnOk result (is_kept self.new) }
        ensures err { OnErr result (has_failed self.new) }
        ensures nothing { is_kept self.old → IsOk result }
        ensures same { held self.new ≡ held self.old };

    /// The node, where all that was recorded is kept; then what holds said until now may leave.
    fn kept(&self) -> Option<&Node>
        ensures node { IfSome result (λ node. node.now ≡ (held self.now).node) }
        ensures kept { OnSome result
            ((u : Self.Untold) → speaks_of u ≤ end_of (held self.now) → may_leave self.now u) }
        ensures some { is_kept self.now → IsSome result };

    /// What a hold said, if that may leave.
    fn release(&self, untold: Self::Untold) -> Option<Said>
        ensures value { IfSome result (λ s. s ≡ said untold) }
        ensures kept { OnSome result (may_leave self.now untold) }
        ensures some { may_leave self.now untold → IsSome result };

    /// Notes in the pairs what the node answered to a packet, or to what else has none, as [`Pairs::note`] does.
    fn note(
        &mut self,
        seat: &mut Seat<Self::Ledger>,
        now: u64,
        pairs: &mut Pairs,
        packet: Option<&Packet>,
        outcome: &Outcome,
    )
        requires { now ≤ most_time }
        ensures pairs { pairs.new ≡ noted (held self.old) seat.old now (option_copied packet.entry) outcome.now
            pairs.old }
        ensures same { held self.new ≡ held self.old };

    /// Gathers what is due to single peers, as [`Pairs::gather`] does, where all that was recorded is kept. Nothing is
    /// gathered that is not kept.
    ///
    /// # Errors
    ///
    /// As [`Pairs::gather`].
    fn gather(
        &mut self,
        seat: &mut Seat<Self::Ledger>,
        now: u64,
        pairs: &mut Pairs,
        rooms: &mut [Option<u32>],
        owed: &mut Owed,
    ) -> Result<(), StepFault>
        requires { now ≤ most_time }
        ensures owed { IsGathered (held self.old) owed.old owed.new }
        ensures fault { IfErr result (IsGatherFault (held self.old) seat.old) }
        ensures looks { is_kept self.old → OnOk result
            (AreLookedAt (held self.old) now rooms.old rooms.new owed.new pairs.old pairs.new) }
        ensures probes { is_kept self.old → OnOk result ((is_full_of owed.new ≡ true)
            ⊎ (pairs.new.probes ≡ map (next_probe now) pairs.old.probes)) }
        ensures same { held self.new ≡ held self.old };
}

/// The packet that a call has the node take.
pub fn taken_packet(call: &Call) -> Option<Packet>
    ensures { result ≡ taken_by call.now }
{
    match call {
        Call::Step(Event::Take(packet)) => Some(*packet),
        _ => None,
    }
}

/// Makes the call by one hold, and reads how far the node's own stream reaches; nothing for want of memory, where the
/// seat does not fit the node, and where a sync has to come first.
pub fn make_call<N: HeldNode>(
    node: &mut N,
    seat: &mut Seat<N::Ledger>,
    call: Call,
    me: NodeName,
) -> Option<N::Untold>
    ensures outcome { IfSome result (λ u. (N.said u).outcome ≡ Some (outcome_due (N.held node.old).node call)) }
    ensures view { IfSome result (λ u. (N.said u).view ≡ view_of (N.held node.new) me 0) }
    ensures at { IfSome result (λ u. N.speaks_of u ≡ end_of (N.held node.new)) }
    ensures held { IfSome result (λ u. N.held node.new ≡ held_after_hold (N.held node.old) seat.old (Some call)) }
    ensures seat { IfSome result (λ u. seat.new ≡ seat_after_hold (N.held node.old) seat.old (Some call)) }
    ensures none { IfNone result (IsNotHeld (N.held node.old) (N.is_full node.old) seat.old me call) }
    ensures same { IfNone result (N.held node.new ≡ N.held node.old) }
    ensures same_seat { IfNone result (seat.new ≡ seat.old) }
{
    if node.has(me) && !node.must_sync() {
        node.hold(seat, Some(call), me, 0).ok()
    } else {
        None
    }
}

/// A node that keeps all in memory: what it records is kept at once.
impl<L: Ledger + Send + Sync> HeldNode for Locked<L> {
    ghost use Rattle.std.specs.Prelude.{⊤, false};

    type Ledger = L;

    type Untold = Said;

    ghost held = { λ a. a };

    ghost is_full = { λ _. false };

    ghost is_kept = { λ _. ⊤ };

    ghost has_failed = { λ _. ⊥ };

    ghost said = { λ u. u };

    ghost speaks_of = { λ u. u.view.at };

    ghost may_leave = { λ _ _. ⊤ };

    fn may_sync_long() -> bool {
        false
    }

    fn has(&self, name: NodeName) -> bool {
        Locked::has(self, name)
    }

    fn published(&self) -> u32 {
        Locked::node(self).published()
    }

    fn is_begun_twice(&self) -> bool {
        Locked::node(self).is_begun_twice()
    }

    fn share_answer(&self, shares: &Shares, event: &Event) -> Option<ShareAnswer> {
        let node = Locked::node(self);
        let _events = node.events();
        shares.answer(node, event)
    }

    fn must_sync(&self) -> bool {
        false
    }

    fn hold(
        &mut self,
        seat: &mut Seat<L>,
        call: Option<Call>,
        owner: NodeName,
        place: Place,
    ) -> Result<Said, StepFault> {
        let (receipt, view) = Locked::hold(self, seat, call, owner, place)?;
        let outcome = receipt.map(|receipt| receipt.outcome);
        Ok(Said { outcome, view })
    }

    fn own_packet(&self, me: NodeName, untold: &Said) -> Option<Packet> {
        let message = untold.message()?;
        Packet::new(me, me, message)
    }

    fn sync(&mut self) -> Result<(), NotKept> {
        Ok(())
    }

    fn kept(&self) -> Option<&Node> {
        Some(Locked::node(self))
    }

    fn release(&self, untold: Said) -> Option<Said> {
        Some(untold)
    }

    fn note(
        &mut self,
        seat: &mut Seat<L>,
        now: u64,
        pairs: &mut Pairs,
        packet: Option<&Packet>,
        outcome: &Outcome,
    ) {
        pairs.note(self, seat, now, packet, outcome);
    }

    fn gather(
        &mut self,
        seat: &mut Seat<L>,
        now: u64,
        pairs: &mut Pairs,
        rooms: &mut [Option<u32>],
        owed: &mut Owed,
    ) -> Result<(), StepFault> {
        pairs.gather(self, seat, now, rooms, owed)
    }
}
