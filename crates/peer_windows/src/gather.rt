//! What is due now is gathered, owner by owner in turn.

ghost use Rattle.std.specs.Prelude.{◌≡◌, ◌≤◌, ◌<◌, ◌⊎◌, IfSome, IsSome, IfOk, IfErr, OnOk, Some, true, map};
ghost use Rattle.node_lock.specs.Views.{node_count};
ghost use Rattle.peer_windows.specs.Pauses.{most_time};
ghost use Rattle.peer_windows.specs.Sent.{IsLookAt, IsSeatAfter};
ghost use Rattle.peer_windows.specs.Owed.{IsGathered, IsGatherFault, is_full};
ghost use Rattle.peer_windows.specs.Owners.{IsSameNode, next_probe, pair_at, probed, with_pair_at};
ghost use Rattle.peer_windows.specs.Looks.{AreLookedAt, after_sending};
ghost use Rattle.peer_windows.specs.inside.PairLooks.{IsPairGathered, IsOwnerGathered, AreRoomsAfter};

use crate::owed::Owed;
use crate::pairs::{PROBE_INTERVAL, Pairs};
use crate::pause::NEVER;
use crate::peer_sent::{seen_of, window_at};
use crate::seen::Step;
use crate::sent::look_at;
use crate::stream_look::StreamLook;
use crate::window::vote_end;
use node_lock::{Locked, Seat, StepFault};
use quorum_sizes::NodeName;
use std::sync::ledger::Ledger;

/// The milliseconds after which an owner's pairs are looked at again of which a peer had no room.
const NEXT_ROOM: u64 = 10;

/// A peer is sent something where it takes so many messages: a whole window, with room for what is new.
pub const ENOUGH_ROOM: u32 = 512;

impl Pairs {
    /// Gathers what is due now: for each owner that is due, in turn, what its pairs have the node send, and the probes.
    /// `rooms` says of each peer how many messages it takes, which are fewer then; where there is no connection to it,
    /// nothing. What finds no room is owed.
    ///
    /// # Errors
    ///
    /// The seat does not fit the node, or memory is wanting. What was gathered before stays.
    #[tactic(auto, using(crate::proofs::Gathering::gathered, crate::proofs::Seats::gather_seats))]
    pub fn gather<L: Ledger>(
        &mut self,
        locked: &mut Locked<L>,
        seat: &mut Seat<L>,
        now: u64,
        rooms: &mut [Option<u32>],
        owed: &mut Owed,
    ) -> Result<(), StepFault>
        requires { now ≤ most_time }
        ensures owed { IsGathered locked.old owed.old owed.new }
        ensures fault { IfErr result (IsGatherFault locked.old seat.old) }
        ensures seat { IsSeatAfter locked.old seat.old seat.new }
        ensures looks { OnOk result
            (AreLookedAt locked.old now rooms.old rooms.new owed.new self.old self.new) }
        ensures probes { OnOk result
            ((is_full owed.new ≡ true) ⊎ (self.new.probes ≡ map (next_probe now) self.old.probes)) }
        ensures node { IsSameNode self.old self.new }
        ensures same { locked.new ≡ locked.old }
    {
        'owners: for _turn in 0..self.dues.len() {
            if owed.is_full() {
                return Ok(());
            }
            let owner = self.take_turn();
            self.gather_owner(locked, seat, now, owner, rooms, owed)?;
        }
        'peers: for peer in 0..self.probes.len() {
            if owed.is_full() {
                return Ok(());
            }
            self.gather_probes(locked, seat, now, peer, rooms, owed)?;
        }
        Ok(())
    }

    /// Gathers what the pairs of an owner have the node send, if it is due.
    #[tactic(auto, using(crate::proofs::Gathering::gathered, crate::proofs::Seats::gather_seats))]
    fn gather_owner<L: Ledger>(
        &mut self,
        locked: &mut Locked<L>,
        seat: &mut Seat<L>,
        now: u64,
        owner: usize,
        rooms: &mut [Option<u32>],
        owed: &mut Owed,
    ) -> Result<(), StepFault>
        requires { now ≤ most_time }
        ensures owed { IsGathered locked.old owed.old owed.new }
        ensures fault { IfErr result (IsGatherFault locked.old seat.old) }
        ensures seat { IsSeatAfter locked.old seat.old seat.new }
        ensures looks { OnOk result
            (IsOwnerGathered locked.old now owner rooms.old rooms.new owed.new self.old self.new) }
        ensures probes { self.new.probes ≡ self.old.probes }
        ensures node { IsSameNode self.old self.new }
        ensures same { locked.new ≡ locked.old }
    {
        if self.due(owner) > now {
            return Ok(());
        }
        self.set_due(owner, now + NEXT_ROOM);
        let Some(name) = name_of(&*locked, owner) else {
            return Ok(());
        };
        let look = look_at(locked, seat, name)?;
        let mut next = NEVER;
        for peer in 0..rooms.len() {
            let room = &mut rooms[peer];
            next = next.min(self.gather_peer(locked, seat, now, name, &look, peer, room, owed)?);
        }
        self.set_due(owner, next);
        Ok(())
    }

    /// Gathers what a pair has the node send, where there is a connection to the peer. When the owner is due for it.
    #[tactic(auto, using(crate::proofs::Gathering::gathered_once, crate::proofs::Seats::gather_seats))]
    fn gather_peer<L: Ledger>(
        &mut self,
        locked: &mut Locked<L>,
        seat: &mut Seat<L>,
        now: u64,
        owner: NodeName,
        look: &StreamLook,
        peer: usize,
        room: &mut Option<u32>,
        owed: &mut Owed,
    ) -> Result<u64, StepFault>
        requires time { now ≤ most_time }
        requires owner { owner < node_count locked.old }
        requires look { IsLookAt locked.old owner look.now }
        ensures owed { IsGathered locked.old owed.old owed.new }
        ensures fault { IfErr result (IsGatherFault locked.old seat.old) }
        ensures seat { IsSeatAfter locked.old seat.old seat.new }
        ensures pair { IfOk result (λ due.
            IsPairGathered locked.old now owner peer room.old room.new owed.new due self.old self.new) }
        ensures probes { self.new.probes ≡ self.old.probes }
        ensures node { IsSameNode self.old self.new }
        ensures same { locked.new ≡ locked.old }
    {
        let Some(name) = name_of(&*locked, peer) else {
            return Ok(NEVER);
        };
        let Some(free) = *room else {
            return Ok(NEVER);
        };
        let (due, left) = self.gather_pair(locked, seat, now, owner, look, name, free, owed)?;
        *room = Some(left);
        Ok(due)
    }

    /// Gathers what a pair has the node send, where the peer takes so many messages. When the owner is due for it, and
    /// how many the peer takes then.
    #[tactic(auto, using(crate::proofs::Gathering::gathered_once, crate::proofs::Seats::gather_seats))]
    fn gather_pair<L: Ledger>(
        &mut self,
        locked: &mut Locked<L>,
        seat: &mut Seat<L>,
        now: u64,
        owner: NodeName,
        look: &StreamLook,
        peer: NodeName,
        free: u32,
        owed: &mut Owed,
    ) -> Result<(u64, u32), StepFault>
        requires time { now ≤ most_time }
        requires owner { owner < node_count locked.old }
        requires peer { peer < node_count locked.old }
        requires look { IsLookAt locked.old owner look.now }
        ensures owed { IsGathered locked.old owed.old owed.new }
        ensures fault { IfErr result (IsGatherFault locked.old seat.old) }
        ensures seat { IsSeatAfter locked.old seat.old seat.new }
        ensures pair { IfOk result (λ r.
            IsPairGathered locked.old now owner peer (Some free) (Some r.1) owed.new r.0 self.old self.new) }
        ensures probes { self.new.probes ≡ self.old.probes }
        ensures node { IsSameNode self.old self.new }
        ensures same { locked.new ≡ locked.old }
    {
        let seen = seen_of(&*locked, look, owner, peer);
        let step = self.attend(owner, peer, now, seen);
        if step == Step::Nothing {
            return Ok((self.until(owner, peer), free));
        }
        if free < ENOUGH_ROOM {
            self.owe(owner, peer, step);
            return Ok((now + NEXT_ROOM, free));
        }
        let count = owed.push(locked, seat, owner, peer, step)?;
        self.note_sent(&*locked, now, owner, peer, step);
        Ok((self.until(owner, peer), left_of(free, count)))
    }

    /// This was sent to the peer: of a window it is kept how far the peer had voted, and where the window ended.
    fn note_sent<L: Ledger>(
        &mut self,
        locked: &Locked<L>,
        now: u64,
        owner: NodeName,
        peer: NodeName,
        step: Step,
    )
        requires time { now ≤ most_time }
        requires owner { owner < node_count locked.now }
        requires peer { peer < node_count locked.now }
        ensures { self.new ≡ with_pair_at self.old owner peer
            (after_sending locked.now now owner peer step (pair_at self.old owner peer)) }
    {
        if matches!(step, Step::Window | Step::Rest(_)) {
            let voted = vote_end(locked.last_vote(owner, peer));
            let end = window_at(locked, owner, peer).to;
            self.serve(owner, peer, now, voted, end);
        }
    }

    /// Gathers the probes of a peer, if they are due: one for each pair of it that sleeps.
    #[tactic(auto, using(crate::proofs::Gathering::gathered, crate::proofs::Seats::gather_seats))]
    fn gather_probes<L: Ledger>(
        &mut self,
        locked: &mut Locked<L>,
        seat: &mut Seat<L>,
        now: u64,
        peer: usize,
        rooms: &mut [Option<u32>],
        owed: &mut Owed,
    ) -> Result<(), StepFault>
        requires { now ≤ most_time }
        ensures owed { IsGathered locked.old owed.old owed.new }
        ensures fault { IfErr result (IsGatherFault locked.old seat.old) }
        ensures seat { IsSeatAfter locked.old seat.old seat.new }
        ensures probes { self.new ≡ probed now peer self.old }
        ensures rooms { AreRoomsAfter rooms.old rooms.new }
        ensures same { locked.new ≡ locked.old }
    {
        if peer >= self.probes.len() || self.probes[peer] > now {
            return Ok(());
        }
        self.probes[peer] = now + PROBE_INTERVAL;
        let Some(name) = name_of(&*locked, peer) else {
            return Ok(());
        };
        if name == self.me || peer >= rooms.len() {
            return Ok(());
        }
        let Some(free) = rooms[peer] else {
            return Ok(());
        };
        if free < ENOUGH_ROOM {
            return Ok(());
        }
        rooms[peer] = Some(left_of(free, self.pairs.len()));
        for owner in 0..self.pairs.len() {
            self.gather_probe(locked, seat, owner, name, owed)?;
        }
        Ok(())
    }

    /// Gathers the probe of a pair, if it sleeps.
    #[tactic(auto, using(crate::proofs::Gathering::gathered_once, crate::proofs::Seats::gather_seats))]
    fn gather_probe<L: Ledger>(
        &self,
        locked: &mut Locked<L>,
        seat: &mut Seat<L>,
        owner: usize,
        peer: NodeName,
        owed: &mut Owed,
    ) -> Result<(), StepFault>
        requires { peer < node_count locked.old }
        ensures owed { IsGathered locked.old owed.old owed.new }
        ensures fault { IfErr result (IsGatherFault locked.old seat.old) }
        ensures seat { IsSeatAfter locked.old seat.old seat.new }
        ensures same { locked.new ≡ locked.old }
    {
        let Some(name) = name_of(&*locked, owner) else {
            return Ok(());
        };
        if self.until(name, peer) == NEVER {
            owed.push(locked, seat, name, peer, Step::Probe)?;
        }
        Ok(())
    }
}

/// The name of the node of this index, if the node behind the lock has it.
fn name_of<L: Ledger>(locked: &Locked<L>, index: usize) -> Option<NodeName>
    ensures name { IfSome result (λ name. (name ≡ index) × (name < node_count locked.now)) }
    ensures node { index < node_count locked.now → IsSome result }
{
    let sizes = locked.config().roles().sizes();
    if index < usize::from(sizes.n()) {
        sizes.name(index as u8)
    } else {
        None
    }
}

/// What is left of a room where so many messages more are put.
fn left_of(room: u32, count: usize) -> u32
    ensures { result ≤ room }
{
    match u32::try_from(count) {
        Ok(count) => room.saturating_sub(count),
        Err(_) => 0,
    }
}
