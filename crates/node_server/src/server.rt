//! What the threads of a serving node share.

use crate::crew::Crew;
use frame_queues::{ALL_SLOTS, FrameKeys, SlotStanding};
use link_frames::{Frame, Message, Place};
use mio::Waker;
use node_lock::{Call, Seat};
use owner_shares::Shares;
use peer_windows::Share;
use quorum_sizes::NodeName;
use role_commands::Items;
use role_node::Question;
use served_node::{Heard, HeldNode, Said, SyncTally, frames_to, millis};
use server_locks::{Outbox, Purpose, Slot, TicketLock, keep};
use std::alloc::Global;
use std::sync::{Condvar, Mutex, Wait};
use std::time::{Clock, Duration};

/// What the threads of a serving node share.
#[derive(Drop)]
pub struct Server<'a, N: HeldNode, K: FrameKeys, R> {
    pub rt: &'a R,
    pub alloc: Global,
    pub node: Mutex<N>,
    /// The threads' turns at the node, where syncs take long.
    pub turns: TicketLock,
    /// The seat of those who only look, for which one of those waits at most whose answers may be long.
    pub view_seat: Mutex<Seat<N::Ledger>>,
    pub listing: Mutex<()>,
    pub keys: K,
    pub crew: Mutex<Crew<'a, N>>,
    /// Threads wait here for jobs that are left to them.
    pub left: Condvar,
    /// An outbox for each other node.
    pub outboxes: Vec<Outbox>,
    /// A slot for each client.
    pub slots: Vec<Slot<'a>>,
    /// Wakes the thread of the ports.
    pub waker: Waker,
    /// After so long a client that sends nothing is closed.
    pub idle: Duration,
    /// Whether the lines of operators are answered; what they are told of syncs, and of what is heard of the peers.
    pub operators: bool,
    /// The shares that are asked before the node, if any.
    pub shares: Option<Shares>,
    pub syncs: Mutex<SyncTally>,
    pub heard: Mutex<Heard>,
    /// Whether more peers than may lie have voted ahead of what the node has published.
    pub votes_ahead: Mutex<bool>,
    /// The roles of each node, by its index, by which is decided without a session.
    pub roles: Vec<Items<u16>>,
}

impl<N: HeldNode, K: FrameKeys, R: Wait + Clock> Server<'_, N, K, R> {
    /// Ends every thread.
    pub fn end(&self) {
        self.crew.lock(self.rt).ended = true;
        self.left.notify_all();
        for slot in &self.slots {
            slot.end(self.rt);
        }
        self.wake_ports();
    }

    /// A port has failed, or what was recorded is not kept, which ends the node.
    pub fn fail(&self) {
        self.crew.lock(self.rt).failed = true;
        self.end();
    }

    /// Whether the node has ended.
    pub fn has_ended(&self) -> bool {
        self.crew.lock(self.rt).ended
    }

    /// Wakes the thread of the ports.
    pub fn wake_ports(&self) {
        // where that fails it wakes a little later
        let _ = self.waker.wake();
    }

    /// A client's slot is free again, for want of a thread.
    pub fn refuse(&self, slot: u32) {
        if let Some(slot) = self.slots.get(slot as usize) {
            slot.refuse(self.rt);
        }
    }

    /// How the slots of all clients stand.
    pub fn standings(&self) -> [SlotStanding; ALL_SLOTS] {
        let mut standings = [SlotStanding::Answered; ALL_SLOTS];
        for (standing, slot) in standings.iter_mut().zip(&self.slots) {
            *standing = slot.standing(self.rt);
        }
        standings
    }

    /// The connection in a slot gives way to another, if it still stands as it did, and waits for the end of a line.
    /// None does where operators' lines are not answered.
    pub fn give_way(&self, slot: usize, standings: &[SlotStanding; ALL_SLOTS]) {
        if !self.operators {
            return;
        }
        if let (Some(slot), Some(SlotStanding::Waits(since))) = (
            self.slots.get(slot),
            standings.get(slot),
        ) {
            slot.give_way(self.rt, *since);
        }
    }

    /// Waits for this thread's turn at the node, where threads have it for as long as a sync takes, and that is long:
    /// so who only looks waits for one sync at most. Whether it has a turn, which it ends then.
    pub fn begin_turn(&self, purpose: Purpose) -> bool {
        let has_turn = N::may_sync_long() && self.syncs.lock(self.rt).are_long();
        if has_turn {
            self.turns.wait_for_turn(self.rt, purpose);
        }
        has_turn
    }

    /// Ends this thread's turn, if it has one.
    pub fn end_turn(&self, has_turn: bool) {
        if has_turn {
            self.turns.end_turn(self.rt);
        }
    }

    /// Has a question answered whose answer may be long. Who asks such waits for the others that do: so who looks for
    /// something else waits for one of them at most.
    pub fn list(&self, question: Question) -> Option<Said> {
        let listing = self.listing.lock(self.rt);
        let said = self.look(Some(question), self.keys.me(), 0);
        drop(listing);
        said
    }

    /// Makes a hold of the seat of those who look: asks a question, if there is one, and looks at a place of the
    /// owner's stream. Nothing is said for want of memory, and where the seat does not fit the node.
    pub fn look(&self, question: Option<Question>, owner: NodeName, place: Place) -> Option<Said> {
        let has_turn = self.begin_turn(Purpose::Look);
        let said = self.look_now(question, owner, place);
        self.end_turn(has_turn);
        said
    }

    fn look_now(&self, question: Option<Question>, owner: NodeName, place: Place) -> Option<Said> {
        let call = question.map(|question| Call::Ask(question));
        let mut seat = self.view_seat.lock(self.rt);
        let mut node = self.node.lock(self.rt);
        if !node.has(owner) || node.must_sync() {
            return None;
        }
        let untold = node.hold(&mut seat, call, owner, place).ok()?;
        keep(self.rt, &self.syncs, &mut *node).ok()?;
        node.release(untold)
    }

    /// Sends each other node the messages to all, and behind them what it alone is owed: the messages of its shares.
    /// `frames` is room for them; what finds no memory is lost.
    pub fn send(
        &self,
        messages: &[Message],
        shares: &[Share],
        owed: &[Message],
        frames: &mut Vec<Frame>,
    ) {
        for outbox in &self.outboxes {
            let (alloc, keys, to) = (self.alloc, &self.keys, outbox.to);
            let alone = frames_to(alloc, keys, to, messages, shares, owed, frames);
            if !frames.is_empty() {
                outbox.send(self.rt, millis(self.rt), frames, alone.unwrap_or(0));
            }
        }
    }
}
