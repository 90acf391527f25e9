//! Slots for the clients' connections that are open at once.

ghost use Rattle.std.specs.Prelude.{◌≡◌, ◌+◌, ◌-◌, ◌^◌, min, nat_le, slice_set, true, false, Some};
ghost use Rattle.std.specs.Prelude.{not, unwrap_or, IsTrue, IsFalse, None};
ghost use Rattle.served_node.specs.Told.{answer_to};
ghost use Rattle.server_locks.specs.SlotStates.{does_wait, standing_of, without_stream};

use crate::job_queue::JobQueue;
use crate::stream::ClientStream;
use frame_queues::SlotStanding;
use served_node::{Ending, Said, Told};
use std::alloc::{AllocError, Global};
use std::net::Shutdown;
use std::sync::{Arc, Condvar, Mutex, MutexGuard, Wait};

/// What a connection has, and what was done for it.
#[derive(Drop)]
pub struct SlotState<'a> {
    stream: Option<Arc<ClientStream>>,
    /// Absent while a thread serves the connection.
    queue: Option<JobQueue<'a>>,
    /// How many of its jobs are done, and how many its thread waits for.
    done: u32,
    wanted: u32,
    pub told: Told,
    /// Since when its thread waits for the end of a line, in milliseconds, if it does.
    waits_since: Option<u64>,
    /// The connection was shut for reading, to give way to another.
    gave_way: bool,
    /// The node has ended.
    ended: bool,
}

impl SlotState<'_> {
    /// A job is done, that of the line of this number, and this came of it. Whether all are done that are waited for.
    fn tell(&mut self, line: u32, ending: Ending<Said>) -> bool
        ensures told { self.new.told ≡ slice_set self.old.told line (answer_to ending) }
        ensures done { self.new.done ≡ min (self.old.done + 1) (2 ^ 32 - 1) }
        ensures wanted { result ≡ nat_le self.old.wanted self.new.done }
        ensures same { self.new ≡ record self.old { told = self.new.told; done = self.new.done } }
    {
        self.told.tell(line, ending);
        self.done = self.done.saturating_add(1);
        self.done >= self.wanted
    }
}

impl<'a> SlotState<'a> {
    /// How the slot stands.
    fn standing(&self) -> SlotStanding
        ensures { result ≡ standing_of self.now }
    {
        if self.stream.is_none() {
            return without_stream(self.queue.is_some());
        }
        match self.waits_since {
            _ if self.gave_way => SlotStanding::Leaves,
            Some(since) => SlotStanding::Waits(since),
            None => SlotStanding::Answered,
        }
    }

    /// There is this connection, unless the node has ended. Whether there is.
    fn give(&mut self, stream: Arc<ClientStream>) -> bool
        ensures given { result ≡ not self.old.ended }
        ensures stream { IsTrue result →
            self.new ≡ record self.old { stream = Some stream; waits_since = None; gave_way = false } }
        ensures same { IsFalse result → self.new ≡ self.old }
    {
        if self.ended {
            return false;
        }
        self.stream = Some(stream);
        self.waits_since = None;
        self.gave_way = false;
        true
    }

    /// The thread waits for the end of a line from now on, if it didn't.
    fn begin_wait(&mut self, now: u64)
        ensures { self.new ≡ record self.old { waits_since = Some (unwrap_or self.old.waits_since now) } }
    {
        self.waits_since = Some(self.waits_since.unwrap_or(now));
    }

    /// The connection gives way, if it waits for the end of a line since this time still. Whether it does.
    fn give_way(&mut self, since: u64) -> bool
        ensures waits { result ≡ does_wait since (standing_of self.old) }
        ensures gives { IsTrue result → self.new ≡ record self.old { gave_way = true } }
        ensures same { IsFalse result → self.new ≡ self.old }
    {
        let waits = self.does_wait(since);
        if waits {
            self.gave_way = true;
        }
        waits
    }

    fn does_wait(&self, since: u64) -> bool
        ensures { result ≡ does_wait since (standing_of self.now) }
    {
        match self.standing() {
            SlotStanding::Waits(other) => other == since,
            _ => false,
        }
    }

    /// The slot is free once more, if so many jobs are done, all that were put: else one could meet the next
    /// connection.
    fn give_back(&mut self, queue: JobQueue<'a>, put: u32)
        ensures back { nat_le put self.old.done ≡ true →
            self.new ≡ record self.old { queue = Some queue.entry; done = 0 } }
        ensures kept { nat_le put self.old.done ≡ false → self.new ≡ self.old }
    {
        if self.done >= put {
            self.queue = Some(queue);
            self.done = 0;
        }
    }
}

/// How a slot without a connection stands, whose way into the inbox is there or not.
fn without_stream(is_free: bool) -> SlotStanding
    ensures { result ≡ without_stream is_free }
{
    if is_free {
        SlotStanding::Free
    } else {
        SlotStanding::Leaves
    }
}

/// A slot for one client's connection at a time.
#[derive(Drop)]
pub struct Slot<'a> {
    state: Mutex<SlotState<'a>>,
    /// The thread of the connection waits here.
    done: Condvar,
}

impl<'a> Slot<'a> {
    /// A free slot.
    ///
    /// # Errors
    ///
    /// Only for want of memory.
    pub fn new(alloc: Global, queue: JobQueue<'a>) -> Result<Slot<'a>, AllocError> {
        Ok(Slot {
            state: Mutex::new(SlotState {
                stream: None,
                queue: Some(queue),
                done: 0,
                wanted: u32::MAX,
                told: Told::new(alloc)?,
                waits_since: None,
                gave_way: false,
                ended: false,
            }),
            done: Condvar::new(),
        })
    }

    /// How the slot stands.
    pub fn standing<R: Wait>(&self, rt: &R) -> SlotStanding {
        self.state.lock(rt).standing()
    }

    /// Gives a connection to the slot, which is free. False at the node's end, and for want of memory.
    pub fn give<R: Wait>(&self, rt: &R, stream: &Arc<ClientStream>) -> bool {
        match Arc::try_clone(stream) {
            Ok(other) => self.state.lock(rt).give(other),
            Err(_) => false,
        }
    }

    /// The way into the inbox, for the thread that serves the connection.
    pub fn begin<R: Wait>(&self, rt: &R) -> Option<JobQueue<'a>> {
        self.state.lock(rt).queue.take()
    }

    /// The slot is free again, for want of a thread.
    pub fn refuse<R: Wait>(&self, rt: &R) {
        self.state.lock(rt).stream = None;
    }

    /// The slot is free again once all jobs that were put are done, so that none of them meets the next connection.
    pub fn free<R: Wait>(&self, rt: &R, queue: JobQueue<'a>, put: u32) {
        self.state.lock(rt).stream = None;
        if let Some(mut state) = self.wait_for(rt, put) {
            state.give_back(queue, put);
        }
    }

    /// The connection's thread waits for the end of a line from now on, if it didn't: so the connection may give way.
    pub fn begin_wait<R: Wait>(&self, rt: &R, now: u64) {
        self.state.lock(rt).begin_wait(now);
    }

    /// A line has come: the connection is answered, and gives way to none.
    pub fn end_wait<R: Wait>(&self, rt: &R) {
        self.state.lock(rt).waits_since = None;
    }

    /// The connection gives way, if it waits for the end of a line since this time still: it is shut for reading. What
    /// had come of it as whole lines is answered.
    pub fn give_way<R: Wait>(&self, rt: &R, since: u64) {
        let mut state = self.state.lock(rt);
        if state.give_way(since) {
            if let Some(stream) = &state.stream {
                let _ = stream.shutdown(Shutdown::Read);
            }
        }
    }

    /// Whether the connection has given way.
    pub fn has_given_way<R: Wait>(&self, rt: &R) -> bool {
        self.state.lock(rt).gave_way
    }

    /// Whether so many jobs are done.
    pub fn has_done<R: Wait>(&self, rt: &R, put: u32) -> bool {
        self.state.lock(rt).done >= put
    }

    /// Waits until all jobs that were put are done, so many. Its state then, where none is done of those that are put
    /// next; `None` at the end.
    pub fn wait<R: Wait>(&self, rt: &R, put: u32) -> Option<MutexGuard<'_, SlotState<'a>>> {
        let mut state = self.wait_for(rt, put)?;
        state.done = 0;
        Some(state)
    }

    fn wait_for<R: Wait>(&self, rt: &R, put: u32) -> Option<MutexGuard<'_, SlotState<'a>>> {
        let mut state = self.state.lock(rt);
        state.wanted = put;
        let mut state = self.done.wait_while(
            rt,
            state,
            |state| !state.ended && state.done < state.wanted,
        );
        if state.ended {
            return None;
        }
        state.wanted = u32::MAX;
        Some(state)
    }

    /// A job is done, that of the line of this number, and this came of it.
    pub fn tell<R: Wait>(&self, rt: &R, line: u32, ending: Ending<Said>) {
        let mut state = self.state.lock(rt);
        if state.tell(line, ending) {
            self.done.notify_one();
        }
    }

    /// Shuts the connection down, and takes no other.
    pub fn end<R: Wait>(&self, rt: &R) {
        let mut state = self.state.lock(rt);
        state.ended = true;
        self.done.notify_all();
        if let Some(stream) = &state.stream {
            let _ = stream.shutdown(Shutdown::Both);
        }
    }
}
