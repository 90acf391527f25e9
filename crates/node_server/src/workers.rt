//! The workers, who make the calls of all jobs.

ghost use Rattle.std.specs.Prelude.{◌≤◌};
ghost use Rattle.peer_windows.specs.Pauses.{most_time};

use crate::credits::Noted;
use crate::server::Server;
use frame_queues::{Caller, FrameKeys};
use link_frames::{Frame, Message, Packet};
use node_lock::Seat;
use peer_windows::{NEVER, Owed};
use served_node::{Ending, HeldNode, NotKept, Said, millis};
use server_locks::{Done, Front, JobQueue, Purpose, hear, keep, make_next, most_batch};
use std::alloc::{AllocError, Global};
use std::mem;
use std::sync::Wait;
use std::time::Clock;

/// A worker, with its seat and room for a batch of jobs.
#[derive(Drop)]
pub struct Worker<'a, N: HeldNode> {
    queue: JobQueue<'a>,
    seat: Seat<N::Ledger>,
    /// Jobs that are released now, and those that are.
    untold: Vec<Done<N::Untold>>,
    told: Vec<Done<Said>>,
    sending: Sending,
    /// Of which connections of peers a packet has counted, and of which one found no memory.
    pub heard: Vec<Noted>,
}

/// What a batch of jobs has the node send: messages to all, what goes to single peers, and room for the frames.
#[derive(Drop)]
struct Sending {
    messages: Vec<Message>,
    owed: Owed,
    frames: Vec<Frame>,
}

impl Sending {
    /// Nothing, with room for so many messages, in a cluster of so many nodes.
    ///
    /// # Errors
    ///
    /// Only for want of memory.
    fn new(alloc: Global, most: usize, nodes: u8) -> Result<Sending, AllocError> {
        Ok(Sending {
            messages: Vec::with_capacity(alloc, most)?,
            owed: Owed::new(alloc, nodes)?,
            frames: Vec::with_capacity(alloc, most)?,
        })
    }
}

impl<'a, N: HeldNode> Worker<'a, N> {
    /// A worker without jobs, in a cluster of so many nodes.
    ///
    /// # Errors
    ///
    /// Only for want of memory.
    pub fn new(
        alloc: Global,
        queue: JobQueue<'a>,
        seat: Seat<N::Ledger>,
        nodes: u8,
    ) -> Result<Worker<'a, N>, AllocError> {
        let most = most_batch::<N>();
        Ok(Worker {
            queue,
            seat,
            untold: Vec::with_capacity(alloc, most)?,
            told: Vec::with_capacity(alloc, most)?,
            sending: Sending::new(alloc, most, nodes)?,
            heard: Vec::with_capacity(alloc, most)?,
        })
    }

    /// Makes the calls of what comes first and of jobs, each by one hold, until nothing is left or the batch is full,
    /// and keeps what they recorded, unless nothing of it has to be told yet. Whether there is more. In a turn it keeps
    /// once, so that who waits for the next turn waits for one sync.
    ///
    /// # Errors
    ///
    /// It could not be kept. Nothing is told.
    fn take<K: FrameKeys, R: Wait + Clock>(
        &mut self,
        server: &Server<'_, N, K, R>,
        node: &mut N,
        front: &mut Front<N::Untold>,
        now: u64,
        in_turn: bool,
    ) -> Result<bool, NotKept>
        requires { now ≤ most_time }
    {
        for _ in 0..most_batch::<N>() {
            let is_full = self.make_calls(server.rt, node, front, now);
            if !is_full && !tells_now(&*node, front, now) {
                return Ok(false);
            }
            keep(server.rt, &server.syncs, node)?;
            self.release(node, front, now);
            // packets may wait for a stream that has grown
            let is_left = front.has_grown() || is_full;
            if is_full || in_turn || !is_left {
                return Ok(is_left);
            }
        }
        Ok(true)
    }

    /// Makes the calls of what comes first and of jobs, until nothing is left or the batch is full. Whether it is full.
    fn make_calls<R: Wait>(
        &mut self,
        rt: &R,
        node: &mut N,
        front: &mut Front<N::Untold>,
        now: u64,
    ) -> bool
        requires { now ≤ most_time }
    {
        for _ in self.told.len().saturating_add(front.untold.len())..most_batch::<N>() {
            let (queue, seat) = (&mut self.queue, &mut self.seat);
            if !make_next(rt, node, seat, queue, front, now) {
                return false;
            }
        }
        true
    }

    /// Hears what the calls said, and notes what comes of it.
    fn release(&mut self, node: &mut N, front: &mut Front<N::Untold>, now: u64)
        requires { now ≤ most_time }
    {
        mem::swap(&mut self.untold, &mut front.untold);
        front.tell_by = NEVER;
        for done in self.untold.drain(..) {
            let done = hear(node, &mut self.seat, front, done, now);
            note_message(&mut self.sending.messages, &done.ending);
            let _ = self.told.push(done);
        }
    }
}

/// Notes the message that what a hold said has the node send to all, if there is one.
fn note_message(messages: &mut Vec<Message>, ending: &Ending<Said>) {
    if let Ending::Held(said) = ending {
        if let Some(message) = said.message() {
            let _ = messages.push(message);
        }
    }
}

impl<'a, N: HeldNode, K: FrameKeys, R: Wait + Clock> Server<'a, N, K, R> {
    /// Has a worker take jobs until nothing is left or its batch is full, and gather what is due to single peers, all
    /// under one lock. Whether there is more. Where what they recorded can't be kept the node ends.
    pub fn take_jobs(&self, worker: &mut Worker<'a, N>, front: &mut Front<N::Untold>) -> bool {
        let has_turn = self.begin_turn(Purpose::Work);
        let is_left = self.take_now(worker, front, has_turn);
        self.end_turn(has_turn);
        is_left
    }

    fn take_now(
        &self,
        worker: &mut Worker<'a, N>,
        front: &mut Front<N::Untold>,
        in_turn: bool,
    ) -> bool {
        let now = millis(self.rt);
        let mut node = self.node.lock(self.rt);
        let taken = worker.take(self, &mut *node, front, now, in_turn);
        self.note_votes(front.votes_are_ahead());
        match taken {
            Ok(is_left) => {
                let (seat, owed) = (&mut worker.seat, &mut worker.sending.owed);
                // what a fault leaves out is looked at again, or lost, as on any network
                let _ = front.gather(
                    self.rt,
                    self.alloc,
                    &self.outboxes,
                    &mut *node,
                    seat,
                    now,
                    owed,
                );
                is_left || front.owes_itself()
            }
            Err(NotKept) => {
                drop(node);
                front.untold.clear();
                self.fail();
                false
            }
        }
    }

    /// Notes for those who look at the node that more peers than may lie have voted ahead of what it has published.
    fn note_votes(&self, are_ahead: bool) {
        if are_ahead {
            *self.votes_ahead.lock(self.rt) = true;
        }
    }

    /// Sends what a worker's calls have the node send, and tells the clients what was said to their lines.
    pub fn send_and_tell(&self, worker: &mut Worker<'a, N>) {
        let sending = &mut worker.sending;
        let (shares, owed) = (sending.owed.shares(), sending.owed.messages());
        self.send(&sending.messages, shares, owed, &mut sending.frames);
        sending.messages.clear();
        sending.owed.clear();
        for done in worker.told.drain(..) {
            self.tell(&mut worker.heard, done);
        }
    }

    /// Tells a client what was said to its line, and notes what came of a peer's packet.
    fn tell(&self, heard: &mut Vec<Noted>, done: Done<Said>) {
        match done.caller {
            Caller::Client { slot, line } => {
                if let Some(slot) = self.slots.get(slot as usize) {
                    slot.tell(self.rt, line, done.ending);
                }
            }
            Caller::Peer { place, connection } => {
                note_packet(heard, place, connection, &done.ending);
            }
            Caller::Nobody => {}
        }
    }
}

/// Notes that a packet of a connection has counted, or found no memory.
fn note_packet(heard: &mut Vec<Noted>, place: u32, connection: u16, ending: &Ending<Said>) {
    if let Some(has_memory) = ending.counted() {
        let _ = heard.push(Noted {
            place,
            connection,
            has_memory,
        });
    }
}

/// Whether what is untold is kept and told now: where that takes no time, or it is time.
fn tells_now<N: HeldNode>(node: &N, front: &Front<N::Untold>, now: u64) -> bool {
    !N::may_sync_long() || node.kept().is_some() || front.tells_now(now)
}
