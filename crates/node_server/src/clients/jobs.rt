//! A client's jobs: they are put for its lines, and their answers waited for.

ghost use Rattle.std.specs.Prelude.{◌≡◌, ◌++◌, OnOk};
ghost use Rattle.node_lock.specs.Inboxes.{after_put};
ghost use Rattle.role_node.specs.Windows.{messages_of};
ghost use Rattle.server_locks.specs.Jobs.{again_number, own_jobs};

use crate::clients::Client;
use frame_queues::{Caller, FrameKeys, NO_LINE};
use link_frames::{AheadFault, Message, Place};
use node_lock::{Call, Job};
use peer_windows::push_again;
use quorum_sizes::NodeName;
use role_node::NodeAgain;
use served_node::HeldNode;
use std::mem;
use std::sync::Wait;
use std::time::Clock;

impl<N: HeldNode, K: FrameKeys, R: Wait + Clock> Client<'_, '_, N, K, R> {
    /// Puts a job for a line.
    pub fn call(&mut self, call: Call) -> Result<(), AheadFault> {
        let (slot, line) = (self.number, self.in_flight);
        let number = Caller::Client { slot, line }.number();
        self.put(&Job { number, call })?;
        self.in_flight = self.in_flight.saturating_add(1);
        Ok(())
    }

    /// Puts a job, again until the inbox takes it. No answer is held back meanwhile.
    fn put(&mut self, job: &Job) -> Result<(), AheadFault>
        ensures { OnOk result (self.new.queue.pass ≡ after_put self.old.queue.pass job.now) }
    {
        if self.queue.put(self.server.rt, *job).is_err() {
            self.server.wake_workers();
            self.held.write_all(&mut self.writer)?;
            let server = self.server;
            if !self
                .queue
                .put_patiently(server.rt, &|| server.wake_for_room(), job)
            {
                return Err(AheadFault::Device);
            }
        }
        self.put = self.put.saturating_add(1);
        Ok(())
    }

    /// Has the answers to all lines that are in flight, and holds them. Those that are held are written first where
    /// this thread has to wait for the others.
    ///
    /// # Errors
    ///
    /// As [`collect`](Client::collect).
    pub fn await_answers(&mut self) -> Result<(), AheadFault> {
        if self.put == 0 {
            return Ok(());
        }
        self.server.wake_workers();
        if !self.slot.has_done(self.server.rt, self.put) {
            self.held.write_all(&mut self.writer)?;
        }
        self.collect()
    }

    /// Waits until no job is in flight, and holds the answers to the lines that were, in the order of the lines.
    ///
    /// # Errors
    ///
    /// `Memory` where one of them has no answer. Those before it are held.
    pub fn collect(&mut self) -> Result<(), AheadFault> {
        let Some(mut state) = self.slot.wait(self.server.rt, self.put) else {
            return Err(AheadFault::Device);
        };
        self.put = 0;
        let lines = mem::replace(&mut self.in_flight, 0);
        let told = &mut state.told;
        told.hold_answers(self.server.alloc, &mut self.held, lines)?;
        Ok(())
    }

    /// Sends to all once more what was sent at a place. What goes to the node itself is done before the answer, so that
    /// a client that asks again and again has no more in the inbox than by other lines.
    pub fn send_again(
        &mut self,
        me: NodeName,
        owner: NodeName,
        place: Place,
        sent: &NodeAgain,
    ) -> Result<(), AheadFault>
        ensures { let jobs = own_jobs (again_number self.old.number) me (messages_of owner place sent.now) in
            OnOk result (self.new.queue.pass.put ≡ self.old.queue.pass.put ++ jobs) }
    {
        let alloc = self.server.alloc;
        let mut messages = Vec::new(alloc);
        push_again(&mut messages, owner, place, sent)?;
        let mut frames = Vec::with_capacity(alloc, messages.len())?;
        self.server.send(&messages, &[], &[], &mut frames);
        self.take_again(me, &messages)
    }

    /// Has the node take messages that it sends to itself. No answer is held back meanwhile.
    fn take_again(&mut self, me: NodeName, messages: &[Message]) -> Result<(), AheadFault>
        ensures { OnOk result (self.new.queue.pass.put
            ≡ self.old.queue.pass.put ++ own_jobs (again_number self.old.number) me messages.now) }
    {
        let (slot, line) = (self.number, NO_LINE);
        let number = Caller::Client { slot, line }.number();
        self.held.write_all(&mut self.writer)?;
        let server = self.server;
        let queue = &mut self.queue;
        match queue.put_own(server.rt, &|| server.wake_for_room(), number, me, messages) {
            Some(count) => {
                self.put = self.put.saturating_add(count);
                Ok(())
            }
            None => Err(AheadFault::Device),
        }
    }
}
