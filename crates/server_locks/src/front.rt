//! What comes before the inbox, and what is sent to single peers.

ghost use Rattle.std.specs.Prelude.{◌≡◌, ◌≤◌, ◌<◌, ◌||◌, nat_le, ◌++◌, ◌∷◌, [], None, false, true, is_some};
ghost use Rattle.std.specs.Prelude.{◌↔◌, IsFalse, IsOk, IfOk, IfErr, OnOk, min, replicate, vec_len};
ghost use Rattle.std.specs.Vec.{vec_capacity};
ghost use Rattle.peer_windows.specs.Owed.{IsGathered, IsGatherFault};
ghost use Rattle.peer_windows.specs.Owners.{next_due, pairs_at_first};
ghost use Rattle.peer_windows.specs.Pauses.{most_time, never};
ghost use Rattle.served_node.specs.Sent as sent;
ghost use Rattle.served_node.specs.Served.{grows};
ghost use Rattle.server_locks.specs.Fronts.{all_connected, is_due, own_packets, owed_behind, AreKept, AreSeen};
ghost use Rattle.server_locks.specs.Jobs.{told_by};
ghost use Rattle.server_locks.specs.Rooms.{AreRooms};
ghost use Rattle.server_locks.specs.NextJobs.{IsNextJob};
ghost use Rattle.server_locks.specs.VotesAhead.{nobody_ahead, are_enough};

use crate::hold_rules::HoldRules;
use crate::job_queue::JobQueue;
use crate::outbox::Outbox;
use crate::rooms::find_rooms;
use crate::votes_ahead::VotesAhead;
use frame_queues::{Caller, FirstPackets};
use link_frames::{Message, Packet};
use node_lock::{Call, Job, Outcome, Seat, StepFault};
use owner_streams::WINDOW;
use peer_windows::{ENOUGH_ROOM, NEVER, Owed, Pairs, Share};
use quorum_sizes::{NodeName, Sizes};
use role_node::{Event, NodeFault, Reply};
use served_node::{Ending, HeldNode, owed_to};
use std::alloc::{AllocError, Global};
use std::collections::VecDeque;
use std::mem;
use std::sync::Wait;

/// The most jobs that a worker takes at once: where a sync may take long, about as many as come meanwhile. A journal
/// has room for 1,024 between two syncs.
pub fn most_batch<N: HeldNode>() -> usize
    ensures least { 192 ≤ result }
    ensures most { result ≤ 960 }
{
    if N::may_sync_long() { 960 } else { 192 }
}

/// For how many milliseconds it waits at most to be told what has the node send nothing, and no client waits for.
const LONGEST_UNTOLD: u64 = 10;

/// A job that is done: who waits for it, the packet that it had the node take, and what came of it.
#[derive(Drop)]
pub struct Done<U> {
    pub caller: Caller,
    pub packet: Option<Packet>,
    pub ending: Ending<U>,
}

/// What the worker has that takes jobs: what comes before the inbox, the pairs of owners and peers, and what holds have
/// said. There is one, so one worker takes at a time, and jobs are done in the order in which they came.
#[derive(Drop)]
pub struct Front<U> {
    pub first: FirstPackets,
    /// Packets that the node sends to itself once more.
    again: VecDeque<Packet>,
    pub pairs: Pairs,
    /// A stream has grown for which packets may wait.
    has_grown: bool,
    /// The peers to which there is a new connection.
    pub connected: Vec<NodeName>,
    /// Jobs that are done, before what they recorded is kept, and when that is at the latest, in milliseconds.
    pub untold: Vec<Done<U>>,
    pub tell_by: u64,
    /// How many frames each node takes.
    rooms: Vec<Option<u32>>,
    pub(crate) me: NodeName,
    /// Which calls get no hold, and who has voted ahead of what the node has published, by which that goes too.
    pub(crate) hold_rules: HoldRules,
    pub(crate) ahead: VotesAhead,
}

impl<U: Drop> Front<U> {
    /// Nothing comes before the inbox. There is room for so many jobs that are told later.
    ///
    /// # Errors
    ///
    /// Only for want of memory.
    pub fn new(
        alloc: Global,
        sizes: Sizes,
        me: NodeName,
        hold_rules: HoldRules,
        most: usize,
        now: u64,
    ) -> Result<Front<U>, AllocError>
        requires { now ≤ most_time }
        ensures first { IfOk result (λ f. f.first
            ≡ record { own = None; due = None; parked = replicate sizes.nodes (replicate sizes.nodes []) }) }
        ensures again { IfOk result (λ f. f.again.items ≡ []) }
        ensures pairs { IfOk result (λ f. f.pairs ≡ pairs_at_first now sizes.nodes me) }
        ensures grown { IfOk result (λ f. f.has_grown ≡ false) }
        ensures connected { IfOk result (λ f. f.connected.items ≡ []) }
        ensures untold { IfOk result (λ f. f.untold.items ≡ []) }
        ensures room { IfOk result (λ f. most ≤ vec_capacity f.untold) }
        ensures tell_by { IfOk result (λ f. f.tell_by ≡ never) }
        ensures rooms { IfOk result (λ f. vec_len f.rooms ≡ sizes.nodes) }
        ensures me { IfOk result (λ f. f.me ≡ me) }
        ensures hold_rules { IfOk result (λ f. f.hold_rules ≡ hold_rules) }
        ensures ahead { IfOk result (λ f. f.ahead ≡ nobody_ahead sizes me) }
    {
        Ok(Front {
            first: FirstPackets::new(alloc, sizes.n())?,
            again: VecDeque::new(alloc),
            pairs: Pairs::new(alloc, sizes, me, now)?,
            has_grown: false,
            connected: Vec::with_capacity(alloc, usize::from(sizes.n()))?,
            untold: Vec::with_capacity(alloc, most)?,
            tell_by: NEVER,
            rooms: Vec::from_elem(alloc, None, usize::from(sizes.n()))?,
            me,
            hold_rules,
            ahead: VotesAhead::new(&sizes, me),
        })
    }

    /// The next job: a packet that comes first, else one that the node sends to itself once more, else what waits in
    /// the inbox.
    pub fn next_job<R: Wait>(&mut self, rt: &R, queue: &mut JobQueue<'_>) -> Option<Job>
        ensures own { self.new.first.own ≡ None }
        ensures next { IsNextJob self.old.first self.new.first self.old.again.items self.new.again.items
            queue.old.pass queue.new.pass result }
        ensures same { self.new ≡ record self.old { first = self.new.first; again = self.new.again } }
    {
        let mut packet = self.first.next();
        if packet.is_none() {
            packet = self.again.pop_front();
        }
        match packet {
            Some(packet) => {
                let number = Caller::Nobody.number();
                let call = Call::Step(Event::Take(packet));
                Some(Job { number, call })
            }
            None => queue.take(rt),
        }
    }

    /// A job is done. It is told at once where something leaves then, and else with what comes soon after.
    pub fn put_untold(&mut self, done: Done<U>, leaves: bool, now: u64)
        requires { now ≤ most_time }
        ensures told { self.new.tell_by ≡ min self.old.tell_by (told_by leaves now) }
        ensures put { vec_len self.old.untold < vec_capacity self.old.untold →
            self.new.untold.items ≡ self.old.untold.items ++ done ∷ [] }
        ensures same { self.new ≡ record self.old { untold = self.new.untold; tell_by = self.new.tell_by } }
    {
        let by = if leaves { now } else { now + LONGEST_UNTOLD };
        self.tell_by = self.tell_by.min(by);
        // there is room for a batch
        let _ = self.untold.push(done);
    }

    /// Whether it is time to tell what is untold, or for what is due to single peers, which waits for that.
    pub fn tells_now(&self, now: u64) -> bool
        ensures { result ≡ (nat_le self.now.tell_by now || nat_le (next_due self.now.pairs) now) }
    {
        self.tell_by <= now || self.pairs.next_due() <= now
    }

    /// Whether a stream has grown since this was last asked, for which packets may wait.
    pub fn has_grown(&mut self) -> bool
        ensures told { result ≡ self.old.has_grown }
        ensures since { self.new ≡ record self.old { has_grown = false } }
    {
        mem::replace(&mut self.has_grown, false)
    }

    /// Whether more peers than may lie have voted ahead of what the node has published.
    pub fn votes_are_ahead(&self) -> bool
        ensures { result ≡ are_enough self.now.ahead }
    {
        self.ahead.are_enough()
    }

    /// Whether the node sends something to itself once more.
    pub fn owes_itself(&self) -> bool
        ensures { IsFalse result ↔ (self.now.again.items ≡ []) }
    {
        !self.again.is_empty()
    }

    /// Notes what the node answered. A packet that is beyond the window now waits until its owner's stream has grown;
    /// one that made the stream grow lets those go on that wait for that.
    pub fn note(&mut self, packet: Option<&Packet>, outcome: &Outcome)
        ensures grown { is_some packet.entry ≡ true → grows outcome.now ≡ true → self.new.has_grown ≡ true }
        ensures kept { self.old.has_grown ≡ true → self.new.has_grown ≡ true }
        ensures same { self.new ≡ record self.old { first = self.new.first; has_grown = self.new.has_grown } }
    {
        let Some(packet) = packet else {
            return;
        };
        match outcome {
            Outcome::Reply(Reply::Counted { from, to, .. }) => {
                if *from < *to {
                    self.first
                        .reached(packet.owner(), to.saturating_add(WINDOW));
                    self.has_grown = true;
                }
            }
            Outcome::Refused(NodeFault::Beyond { .. }) => {
                // without memory it is lost, as on any network
                let _ = self.first.park(*packet);
            }
            _ => {}
        }
    }

    /// Gathers what is due now to single peers. What the node owes itself comes before the inbox.
    ///
    /// # Errors
    ///
    /// As [`HeldNode::gather`], and for want of memory: some of what the node owes itself is lost, as on any network.
    /// What was gathered before is there.
    pub fn gather<N: HeldNode, R: Wait>(
        &mut self,
        rt: &R,
        alloc: Global,
        outboxes: &[Outbox],
        node: &mut N,
        seat: &mut Seat<N::Ledger>,
        now: u64,
        owed: &mut Owed,
    ) -> Result<(), StepFault>
        requires { now ≤ most_time }
        ensures node { N.held node.new ≡ N.held node.old }
        ensures owed { IsGathered (N.held node.old) owed.old owed.new }
        ensures due { is_due now (all_connected now self.old.connected.items self.old.pairs) ≡ true →
            N.is_kept node.old → OnOk result (AreSeen (N.held node.old) now self.old.me self.old.again.items
            self.old.rooms.items owed.old owed.new
            (all_connected now self.old.connected.items self.old.pairs) self.new.pairs) }
        ensures rooms { vec_len self.new.rooms ≡ vec_len self.old.rooms }
        ensures later { is_due now (all_connected now self.old.connected.items self.old.pairs) ≡ false →
            IsOk result × (owed.new ≡ owed.old)
            × (self.new.pairs ≡ all_connected now self.old.connected.items self.old.pairs) }
        ensures own { OnOk result (self.new.again.items ≡ self.old.again.items
            ++ own_packets self.old.me (owed_behind self.old.me owed.old owed.new)) }
        ensures kept { AreKept self.old.me (owed_behind self.old.me owed.old owed.new) self.old.again.items
            self.new.again.items }
        ensures fault { IfErr result (IsGatherFault (N.held node.old) seat.old) }
        ensures connected { self.new.connected.items ≡ [] }
        ensures same { self.new ≡ record self.old {
          again = self.new.again;
          pairs = self.new.pairs;
          connected = self.new.connected;
          rooms = self.new.rooms;
        } }
    {
        connect_all(&mut self.pairs, now, &self.connected);
        self.connected.clear();
        if self.pairs.next_due() > now {
            return Ok(());
        }
        self.look_at_rooms(rt, outboxes, owed);
        let (shares, messages) = (owed.shares().len(), owed.messages().len());
        let gathered = node.gather(seat, now, &mut self.pairs, &mut self.rooms, owed);
        match self.keep_own(
            alloc,
            &owed.shares()[shares..],
            &owed.messages()[messages..],
        ) {
            Ok(()) => gathered,
            Err(_) => Err(StepFault::Memory),
        }
    }

    /// How many frames each node takes, beside those that are owed to it already. The node itself takes some where it
    /// has taken all before.
    fn look_at_rooms<R: Wait>(&mut self, rt: &R, outboxes: &[Outbox], owed: &Owed)
        ensures rooms { AreRooms self.old.me self.old.again.items owed.now.shares self.old.rooms.items
            self.new.rooms.items }
        ensures count { vec_len self.new.rooms ≡ vec_len self.old.rooms }
        ensures same { self.new ≡ record self.old { rooms = self.new.rooms } }
    {
        let own = if self.again.is_empty() {
            ENOUGH_ROOM
        } else {
            0
        };
        find_rooms(rt, outboxes, (self.me, own), owed.shares(), &mut self.rooms);
    }

    /// Keeps what the node owes itself.
    fn keep_own(
        &mut self,
        alloc: Global,
        shares: &[Share],
        messages: &[Message],
    ) -> Result<(), AllocError>
        ensures own { OnOk result (self.new.again.items ≡ self.old.again.items
            ++ own_packets self.old.me (sent.owed_to self.old.me shares.now messages.now)) }
        ensures kept { AreKept self.old.me (sent.owed_to self.old.me shares.now messages.now) self.old.again.items
            self.new.again.items }
        ensures same { self.new ≡ record self.old { again = self.new.again } }
    {
        let own = owed_to(alloc, self.me, shares, messages)?;
        push_own(&mut self.again, self.me, &own)
    }
}

/// There is a new connection to each of these peers.
fn connect_all(pairs: &mut Pairs, now: u64, peers: &[NodeName])
    requires { now ≤ most_time }
    ensures { pairs.new ≡ all_connected now peers.now pairs.old }
{
    for peer in peers {
        pairs.connected(now, *peer);
    }
}

/// Puts the packets of messages from a node to itself behind those that are there.
///
/// # Errors
///
/// Only for want of memory. Some of them are there.
fn push_own(
    again: &mut VecDeque<Packet>,
    me: NodeName,
    messages: &[Message],
) -> Result<(), AllocError>
    ensures own { OnOk result (again.new.items ≡ again.old.items ++ own_packets me messages.now) }
    ensures kept { AreKept me messages.now again.old.items again.new.items }
{
    for message in messages {
        if let Some(packet) = Packet::new(me, me, *message) {
            again.push_back(packet)?;
        }
    }
    Ok(())
}
