//! A locked node with its journal.

ghost use Rattle.std.specs.Prelude.{◌≡◌, ◌↔◌, ◌⊎◌, ◌<◌, ◌≤◌, ◌+◌, [], false, length, IsTrue, List, ℕ};
ghost use Rattle.std.specs.Prelude.{option_map, Ok, IfOk, IfErr, IfSome, OnOk, OnErr};
ghost use Rattle.std.specs.Prelude.{◌++◌, IsOk, vec_len, true, map};
ghost use Rattle.std.specs.Option.{option_copied};
ghost use Rattle.std.specs.Vec.{vec_capacity};
ghost use Rattle.batch_journal.specs.Digits.{AreDigits};
ghost use Rattle.batch_journal.specs.Faults.{Failed};
ghost use Rattle.batch_journal.specs.Journals as journals;
ghost use Rattle.batch_journal.specs.Journals.{Records, IsSame};
ghost use Rattle.batch_journal.specs.Readings.{room_behind};
ghost use Rattle.batch_journal.specs.declared.fault.JournalFault.TheVariants as journal_fault;
ghost use Rattle.owner_shares.specs.Answers.{answer_of_shares};
ghost use Rattle.role_node.specs.Begun.{is_begun_twice};
ghost use Rattle.role_node.specs.Histories.{issued};
ghost use Rattle.role_node.specs.Nodes.{IsLegalNode};
ghost use Rattle.node_lock.specs.Holds.{end_of, Fits, receipt_of};
ghost use Rattle.node_lock.specs.Views.{node_count, view_of, held_after_hold, seat_after_hold, IsHoldFault};
ghost use Rattle.peer_windows.specs.Notes.{noted};
ghost use Rattle.peer_windows.specs.Looks.{AreLookedAt};
ghost use Rattle.peer_windows.specs.Owed.{IsGathered, IsGatherFault, is_full as is_full_of};
ghost use Rattle.peer_windows.specs.Owners.{next_probe};
ghost use Rattle.peer_windows.specs.Pauses.{most_time};
ghost use Rattle.kept_node.specs.Events.{event_digits, IsEvent};
ghost use Rattle.kept_node.specs.inside.Fields.{IsCommitted, event_in};
ghost use Rattle.kept_node.specs.Keeping as keeping;
ghost use Rattle.kept_node.specs.Keeping.{Survives, StandsFor, HasFailed, node_if_synced};
ghost use Rattle.kept_node.specs.Restoring.{IsUnrestored, LeavesAsBefore, file_of};

use crate::event_digits::push_event;
use crate::fault::Unrestored;
use crate::opening::replay_journal;
use crate::untold::{Synced, Untold};
use batch_journal::{Journal, JournalFault};
use link_frames::{Packet, Place};
use node_lock::{Call, Locked, Outcome, Seat, StepFault};
use owner_shares::{ShareAnswer, Shares};
use peer_windows::{Owed, Pairs};
use quorum_sizes::NodeName;
use role_node::{Event, Node};
use sqlite_disk::{Disk, Files};
use std::alloc::Global;
use std::marker::Model;
use std::sync::ledger::Ledger;

/// So many events at most are recorded and not yet synced.
pub const MOST_WAITING: u64 = 1_024;

/// A locked node with its journal. What a hold records waits for a sync, which writes it, and what a hold said is read
/// by nobody before that. Whatever a crash leaves is restored as a prefix of the history that has all that was synced.
#[derive(Drop)]
pub struct Kept<L: Ledger, D: Disk> {
    locked: Locked<L>,
    journal: Journal<D>,
    /// The digits of the events that are not yet written.
    waiting: Vec<u8>,
    /// How many events the node has recorded, and how many of them are synced.
    recorded: u64,
    synced: u64,
}

impl<L: Ledger, D: Disk> Model for Kept<L, D> {
    ghost use Rattle.std.specs.Coded.{codes};
    ghost use Rattle.std.specs.Vec.{vec_capacity};
    ghost use Rattle.node_lock.specs.Holds.{held_code};
    ghost use Rattle.kept_node.specs.Keeping.{KeptValue};
    ghost use Rattle.kept_node.specs.inside.Fields.{IsKept};

    ghost Value = { KeptValue D };

    ghost coded = { Prim.hlevel (codes, held_code) };

    ghost view = { λ a. record {
      held = a.locked;
      disk = a.journal.disk;
      key = a.journal.key;
      synced = a.synced;
      broken = a.journal.broken;
    } };

    ghost invariant = { λ a. IsKept D.Disk.may_leave D.Disk.is_clean a.locked a.journal a.waiting.items
        (vec_capacity a.waiting) a.recorded a.synced };
}

impl<L: Ledger, D: Disk> Kept<L, D> {
    /// A node that has recorded nothing, restored from its journal: it records what the files stand for, and all of
    /// that is synced. The seat counts as having recorded it.
    ///
    /// # Errors
    ///
    /// What was handed over is handed back. The journal is not opened under the node's head and this key; then its
    /// digits are no event that the node records; want of memory. What a crash then leaves stands for the same as the
    /// files did.
    pub fn restore(
        alloc: Global,
        locked: Locked<L>,
        seat: &mut Seat<L>,
        key: &[u8; 32],
        files: Files<D>,
    ) -> Result<Kept<L, D>, Unrestored<D>>
        requires new { locked.node.history ≡ [] }
        requires fits { Fits locked seat.old }
        requires beside { IsTrue (D.Disk.is_usable files.log) }
        requires usable { IsTrue (D.Disk.is_usable files.db) }
        ensures node { IfOk result (λ k. k.held.node ≡ record locked.node { history = k.held.node.history }) }
        ensures legal { IfOk result (λ k. IsLegalNode k.held.node) }
        ensures stands { IfOk result (λ k. IsTrue (D.Disk.is_clean k.disk) →
            StandsFor key.now locked.node.config locked.node.me (D.Disk.seen files.db) k.held.node.history) }
        ensures synced { IfOk result (λ k. k.synced ≡ end_of k.held) }
        ensures key { IfOk result (λ k. k.key ≡ key.now) }
        ensures whole { IfOk result (λ k. k.broken ≡ false) }
        ensures seat { IfOk result (λ k. Fits k.held seat.new) }
        ensures crash { IfOk result (Survives D.Disk.may_leave D.Disk.is_clean) }
        ensures why { IfErr result (IsUnrestored D.Disk.seen D.Disk.faults D.Disk.is_clean D.Disk.is_mixing key.now
            locked.node.config locked.node.me files) }
        ensures left { IfErr result (λ e. IsTrue (D.Disk.is_clean (file_of e)) → LeavesAsBefore key.now
            locked.node.config locked.node.me (D.Disk.seen files.db) (D.Disk.may_leave files.db)
            (D.Disk.may_leave (file_of e))) }
    {
        let mut locked = locked;
        match replay_journal(alloc, &mut locked, seat, key, files) {
            Ok((journal, waiting, count)) => Ok(Kept {
                locked,
                journal,
                waiting,
                recorded: count,
                synced: count,
            }),
            Err(unrestored) => Err(unrestored),
        }
    }

    /// Whether the name is a node's of the sizes of the node.
    pub fn has(&self, name: NodeName) -> bool
        ensures value { IsTrue result ↔ (name < node_count self.now.held) }
        ensures crash { Survives D.Disk.may_leave D.Disk.is_clean self.now }
    {
        self.locked.has(name)
    }

    /// The node's name.
    pub fn me(&self) -> NodeName
        ensures value { result ≡ self.now.held.node.me }
        ensures node { self.now.held.node.me < node_count self.now.held }
    {
        self.locked.me()
    }

    /// Whether the history shows that the node was begun twice ([`Node::is_begun_twice`]), with what is not yet synced.
    pub fn is_begun_twice(&self) -> bool
        ensures value { let node = self.now.held.node in
            result ≡ is_begun_twice node.config.roles.sizes node.me node.history }
        ensures crash { Survives D.Disk.may_leave D.Disk.is_clean self.now }
    {
        self.locked.node().is_begun_twice()
    }

    /// How many commands the node has published, with those that are not yet synced.
    pub fn published(&self) -> u32
        ensures value { result ≡ length (issued self.now.held.node.history) }
        ensures crash { Survives D.Disk.may_leave D.Disk.is_clean self.now }
    {
        self.locked.node().published()
    }

    /// What the shares answer to an event at the node, with what is not yet synced, before it is asked
    /// ([`Shares::answer`]).
    pub fn share_answer(&self, shares: &Shares, event: &Event) -> Option<ShareAnswer>
        ensures value { result ≡ answer_of_shares shares.now self.now.held.node event.now }
        ensures legal { IsLegalNode self.now.held.node }
        ensures crash { Survives D.Disk.may_leave D.Disk.is_clean self.now }
    {
        let node = self.locked.node();
        let _events = node.events();
        shares.answer(node, event)
    }

    /// Whether so many events wait for a sync that no hold is made before it.
    pub fn is_full(&self) -> bool
        ensures value { result ≡ keeping.is_full self.now }
        ensures crash { Survives D.Disk.may_leave D.Disk.is_clean self.now }
    {
        self.recorded - self.synced >= MOST_WAITING
    }

    /// The node behind the lock, if all that it recorded is synced: what it tells of itself may then be told.
    pub fn kept_node(&self) -> Option<&Node>
        ensures value { option_copied result ≡ node_if_synced self.now }
        ensures crash { Survives D.Disk.may_leave D.Disk.is_clean self.now }
    {
        if self.synced != self.recorded {
            return None;
        }
        Some(self.locked.node())
    }

    /// How many events since the journal began are synced: what speaks of no more may be told.
    pub fn synced(&self) -> Synced<L>
        ensures value { result ≡ self.now.synced }
        ensures within { self.now.synced ≤ end_of self.now.held }
        ensures crash { Survives D.Disk.may_leave D.Disk.is_clean self.now }
    {
        Synced::new(self.synced)
    }

    /// Makes the call, where there is one, as [`Locked::hold`] does, and then reads the view of the owner's stream and
    /// of the place in it. What is recorded waits for a [`sync`](Self::sync). The owner must be a node of the sizes
    /// ([`has`](Self::has)), and there must be room ([`is_full`](Self::is_full)).
    ///
    /// # Errors
    ///
    /// As [`Locked::hold`]. Node and seat stay as they were.
    pub fn hold(
        &mut self,
        seat: &mut Seat<L>,
        call: Option<Call>,
        owner: NodeName,
        place: Place,
    ) -> Result<Untold<L>, StepFault>
        requires owner { owner < node_count self.old.held }
        requires room { keeping.is_full self.old ≡ false }
        ensures fits { OnOk result (Fits self.old.held seat.old) }
        ensures receipt { IfOk result (λ u. u.receipt ≡ option_map (receipt_of self.old.held seat.old) call) }
        ensures view { IfOk result (λ u. u.view ≡ view_of self.new.held owner place) }
        ensures at { IfOk result (λ u. u.at ≡ end_of self.new.held) }
        ensures held { OnOk result (self.new.held ≡ held_after_hold self.old.held seat.old call) }
        ensures seat { OnOk result (seat.new ≡ seat_after_hold self.old.held seat.old call) }
        ensures err { IfErr result (IsHoldFault self.old.held seat.old call) }
        ensures same { OnErr result (self.new ≡ self.old) }
        ensures same_seat { OnErr result (seat.new ≡ seat.old) }
        ensures legal { IsLegalNode self.new.held.node }
        ensures beside { length self.new.held.seats ≡ end_of self.new.held }
        ensures journal { self.new ≡ record self.old { held = self.new.held } }
        ensures crash { Survives D.Disk.may_leave D.Disk.is_clean self.new }
    {
        let event = event_of(&call);
        let (receipt, view) = self.locked.hold(seat, call, owner, place)?;
        let at = u64::from(view.at);
        if_recorded(&mut self.waiting, self.recorded, at, event);
        self.recorded = at;
        Ok(Untold::new(receipt, view, at))
    }

    /// Writes all that was recorded into the journal and syncs it. Where all is synced it asks nothing of the disk. It
    /// wants no memory.
    ///
    /// # Errors
    ///
    /// `Full`, and nothing has changed: the file would be too long. `Device`: the node is broken, and what waited may
    /// be restored after a crash or not.
    pub fn sync(&mut self) -> Result<Synced<L>, JournalFault>
        ensures ok { IfOk result (λ synced. (synced ≡ end_of self.new.held) × (self.new.synced ≡ synced)) }
        ensures held { self.new.held ≡ self.old.held }
        ensures key { self.new.key ≡ self.old.key }
        ensures clean { D.Disk.is_clean self.new.disk ≡ D.Disk.is_clean self.old.disk }
        ensures nothing { self.old.synced ≡ end_of self.old.held → IsOk result × (self.new ≡ self.old) }
        ensures broken { IsTrue self.old.broken → self.old.synced < end_of self.old.held →
            (result ≡ Err journal_fault.Device) × (self.new ≡ self.old) }
        ensures err { OnErr result (self.new.synced ≡ self.old.synced) }
        ensures which { IfErr result (λ e. (e ≡ journal_fault.Device) ⊎ (e ≡ journal_fault.Full)) }
        ensures fails { OnErr result (HasFailed D.Disk.seen D.Disk.is_clean self.new.disk self.new.broken) }
        ensures device { self.old.broken ≡ false → result ≡ Err journal_fault.Device → IsTrue self.new.broken
            × Failed 0 (D.Disk.faults self.new.disk) (D.Disk.is_mixing self.new.disk) }
        ensures full { result ≡ Err journal_fault.Full → (self.new ≡ self.old)
            × (IsTrue (D.Disk.is_clean self.old.disk) →
            536870912 < length (D.Disk.seen self.old.disk) + room_behind) }
        ensures crash { Survives D.Disk.may_leave D.Disk.is_clean self.new }
    {
        if self.synced == self.recorded {
            return Ok(Synced::new(self.synced));
        }
        commit(&mut self.journal, &mut self.waiting)?;
        self.synced = self.recorded;
        Ok(Synced::new(self.synced))
    }

    /// Notes in the pairs what the node answered to a packet, or to what else has none, as [`Pairs::note`] does.
    pub fn note(
        &mut self,
        seat: &mut Seat<L>,
        now: u64,
        pairs: &mut Pairs,
        packet: Option<&Packet>,
        outcome: &Outcome,
    )
        requires { now ≤ most_time }
        ensures pairs { pairs.new ≡ noted self.old.held seat.old now (option_copied packet.entry) outcome.now
            pairs.old }
        ensures same { self.new ≡ self.old }
        ensures crash { Survives D.Disk.may_leave D.Disk.is_clean self.new }
    {
        pairs.note(&mut self.locked, seat, now, packet, outcome);
    }

    /// Gathers what is due to single peers, as [`Pairs::gather`] does, where all that is recorded is synced; else
    /// nothing.
    ///
    /// # Errors
    ///
    /// As [`Pairs::gather`].
    pub fn gather(
        &mut self,
        seat: &mut Seat<L>,
        now: u64,
        pairs: &mut Pairs,
        rooms: &mut [Option<u32>],
        owed: &mut Owed,
    ) -> Result<(), StepFault>
        requires { now ≤ most_time }
        ensures owed { IsGathered self.old.held owed.old owed.new }
        ensures fault { IfErr result (IsGatherFault self.old.held seat.old) }
        ensures untold { self.old.synced < end_of self.old.held → owed.new ≡ owed.old }
        ensures looks { self.old.synced ≡ end_of self.old.held → OnOk result
            (AreLookedAt self.old.held now rooms.old rooms.new owed.new pairs.old pairs.new) }
        ensures probes { self.old.synced ≡ end_of self.old.held → OnOk result ((is_full_of owed.new ≡ true)
            ⊎ (pairs.new.probes ≡ map (next_probe now) pairs.old.probes)) }
        ensures same { self.new ≡ self.old }
        ensures crash { Survives D.Disk.may_leave D.Disk.is_clean self.new }
    {
        if self.synced < self.recorded {
            return Ok(());
        }
        pairs.gather(&mut self.locked, seat, now, rooms, owed)
    }
}

/// The event that a call applies.
fn event_of(call: &Option<Call>) -> Option<Event>
    ensures { result ≡ event_in call.now }
{
    match call {
        Some(Call::Step(event)) => Some(*event),
        _ => None,
    }
}

/// Puts the digits of an event behind those that wait, if it was recorded: the history has become longer. There must be
/// memory for them.
fn if_recorded(waiting: &mut Vec<u8>, before: u64, after: u64, event: Option<Event>)
    requires { vec_len waiting.old + 19 ≤ vec_capacity waiting.old }
    ensures digits { before < after → IfSome event (λ e. waiting.new.items ≡ waiting.old.items ++ event_digits e) }
    ensures fits { before < after → IfSome event IsEvent }
    ensures same { after ≤ before → waiting.new.items ≡ waiting.old.items }
    ensures few { vec_len waiting.new ≤ vec_len waiting.old + 19 }
    ensures capacity { vec_capacity waiting.old ≤ vec_capacity waiting.new }
{
    if after <= before {
        return;
    }
    let Some(event) = event else {
        return;
    };
    let Ok(()) = push_event(waiting, &event) else {
        unreachable!()
    };
}

/// Writes what waits as one batch, and syncs it.
///
/// # Errors
///
/// `Full`, and nothing has changed. `Device`: what waited may be written or not; where the journal was broken before,
/// nothing has changed.
fn commit<D: Disk>(journal: &mut Journal<D>, waiting: &mut Vec<u8>) -> Result<(), JournalFault>
    requires settled { journal.old.broken ≡ false → journal.old.synced ≡ length journal.old.batches }
    requires digits { AreDigits waiting.old.items }
    requires few { length waiting.old.items ≤ 19456 }
    requires room { 19497 ≤ journal.old.room }
    ensures same { IsSame D.Disk.is_clean journal.old journal.new }
    ensures ok { OnOk result (IsCommitted D.Disk.is_clean journal.old journal.new waiting.old.items) }
    ensures written { OnOk result (waiting.new.items ≡ []) }
    ensures broken { IsTrue journal.old.broken → (result ≡ Err journal_fault.Device) × (journal.new ≡ journal.old)
        × (waiting.new.items ≡ waiting.old.items) }
    ensures device { journal.old.broken ≡ false → result ≡ Err journal_fault.Device → IsTrue journal.new.broken
        × Records D.Disk.is_clean journal.old journal.new waiting.old.items × (waiting.new.items ≡ [])
        × Failed 0 (D.Disk.faults journal.new.disk) (D.Disk.is_mixing journal.new.disk) }
    ensures full { result ≡ Err journal_fault.Full → (journal.new ≡ record journal.old { room = journal.new.room })
        × (waiting.new.items ≡ waiting.old.items)
        × (IsTrue (D.Disk.is_clean journal.old.disk) →
        536870912 < length (D.Disk.seen journal.old.disk) + room_behind) }
    ensures which { IfErr result (λ e. (e ≡ journal_fault.Device) ⊎ (e ≡ journal_fault.Full)) }
    ensures fails { OnErr result (HasFailed D.Disk.seen D.Disk.is_clean journal.new.disk journal.new.broken) }
    ensures room { journal.old.room ≤ journal.new.room }
    ensures capacity { vec_capacity waiting.new ≡ vec_capacity waiting.old }
    ensures crash { journals.Survives D.Disk.may_leave D.Disk.is_clean journal.new }
{
    if journal.is_broken() {
        return Err(JournalFault::Device);
    }
    match journal.write(waiting) {
        Ok(()) => {
            waiting.clear();
            journal.sync()
        }
        Err(JournalFault::Device) => {
            waiting.clear();
            Err(JournalFault::Device)
        }
        Err(fault) => Err(fault),
    }
}
