//! The way of jobs into the inbox and out of it.

ghost use Rattle.std.specs.Prelude.{◌≡◌, ◌++◌, ◌-◌, ◌^◌, All, IsTrue, IsFalse, OnOk, OnErr, OnSome, IfOk, IfSome};
ghost use Rattle.std.specs.Prelude.{◌≤◌, MatchOption, length, map, min, take, vec_len};
ghost use Rattle.node_lock.specs.Inboxes.{IsPassTo, IsNewPassTo, after_put, after_take};
ghost use Rattle.server_locks.specs.Jobs.{own_jobs, peer_job};

use frame_queues::Caller;
use link_frames::{Message, Packet};
use node_lock::{Call, Inbox, InboxPass, Job};
use quorum_sizes::NodeName;
use role_node::Event;
use std::alloc::{AllocError, Global};
use std::sync::Wait;
use std::thread;
use std::time::{Clock, Duration};

/// The milliseconds before a job is put again that the inbox did not take.
const NEXT_PUT: u64 = 1;

/// One thread's leave to put jobs into the inbox and to take them out.
#[derive(Drop)]
pub struct JobQueue<'a> {
    inbox: &'a Inbox,
    pass: InboxPass,
    ghost fits: { IsPassTo inbox.now pass },
}

impl<'a> JobQueue<'a> {
    /// Puts a job into the inbox. The workers hear of it by `wake`.
    ///
    /// # Errors
    ///
    /// The inbox is full. The job is handed back.
    pub fn put<R: Wait>(&mut self, rt: &R, job: Job) -> Result<(), Job>
        ensures ok { OnOk result (self.new.pass ≡ after_put self.old.pass job) }
        ensures full { OnErr result (self.new.pass ≡ self.old.pass) }
    {
        self.inbox.put(rt, &mut self.pass, job)
    }

    /// Puts a job into the inbox. Where that has no room `wake` tells those who do the jobs of it, and this thread
    /// tries again, as long as `wake` says that they do any. Whether it is put.
    pub fn put_patiently<R: Wait + Clock, F: Fn() -> bool>(
        &mut self,
        rt: &R,
        wake: &F,
        job: &Job,
    ) -> bool
        requires wake { F.IsAlwaysCallable wake.now }
        ensures put { IsTrue result → self.new.pass ≡ after_put self.old.pass job.now }
        ensures same { IsFalse result → self.new.pass ≡ self.old.pass }
    {
        for _turn in rt.forever() {
            if self.put(rt, *job).is_ok() {
                return true;
            }
            if !wake() {
                return false;
            }
            thread::sleep(rt, Duration::from_millis(NEXT_PUT));
        }
        unreachable!()
    }

    /// Puts a packet that came over a caller's connection, as [`put_patiently`](Self::put_patiently) does. Whether it
    /// is put.
    fn put_packet<R: Wait + Clock, F: Fn() -> bool>(
        &mut self,
        rt: &R,
        wake: &F,
        caller: Caller,
        packet: Packet,
    ) -> bool
        requires wake { F.IsAlwaysCallable wake.now }
        ensures put { IsTrue result → self.new.pass ≡ after_put self.old.pass (peer_job caller packet) }
        ensures same { IsFalse result → self.new.pass ≡ self.old.pass }
    {
        let number = caller.number();
        let call = Call::Step(Event::Take(packet));
        self.put_patiently(rt, wake, &Job { number, call })
    }

    /// Puts packets that came over a caller's connection, in order, each as [`put_packet`](Self::put_packet) does.
    /// How many: fewer where those who do the jobs have ended.
    pub fn put_packets<R: Wait + Clock, F: Fn() -> bool>(
        &mut self,
        rt: &R,
        wake: &F,
        caller: Caller,
        packets: &[Packet],
    ) -> usize
        requires wake { F.IsAlwaysCallable wake.now }
        ensures count { result ≤ length packets.now }
        ensures put { self.new.pass.put ≡ self.old.pass.put ++ map (peer_job caller) (take result packets.now) }
    {
        let mut count = 0usize;
        for packet in packets {
            if !self.put_packet(rt, wake, caller, *packet) {
                return count;
            }
            count = count.saturating_add(1);
        }
        count
    }

    /// Puts messages that the node sends to itself, each as a job of this number, as
    /// [`put_patiently`](Self::put_patiently) does. How many; `None` where those who do the jobs have ended.
    pub fn put_own<R: Wait + Clock, F: Fn() -> bool>(
        &mut self,
        rt: &R,
        wake: &F,
        number: u32,
        me: NodeName,
        messages: &[Message],
    ) -> Option<u32>
        requires wake { F.IsAlwaysCallable wake.now }
        ensures put { OnSome result
            (self.new.pass.put ≡ self.old.pass.put ++ own_jobs number me messages.now) }
        ensures count { IfSome result
            (λ count. count ≡ min (length (own_jobs number me messages.now)) (2 ^ 32 - 1)) }
    {
        let mut count = 0u32;
        for message in messages {
            if let Some(packet) = Packet::new(me, me, *message) {
                let call = Call::Step(Event::Take(packet));
                if !self.put_patiently(rt, wake, &Job { number, call }) {
                    return None;
                }
                count = count.saturating_add(1);
            }
        }
        Some(count)
    }

    /// Takes the next job.
    pub fn take<R: Wait>(&mut self, rt: &R) -> Option<Job>
        ensures { MatchOption result (self.new.pass ≡ self.old.pass)
            (λ job. self.new.pass ≡ after_take self.old.pass job) }
    {
        self.inbox.take(rt, &mut self.pass)
    }
}

/// A queue for each pass.
///
/// # Errors
///
/// Only for want of memory.
pub fn job_queues<'a>(
    alloc: Global,
    inbox: &'a Inbox,
    mut passes: Vec<InboxPass>,
) -> Result<Vec<JobQueue<'a>>, AllocError>
    requires { All (IsNewPassTo inbox.now) passes.items }
    ensures { IfOk result (λ made. vec_len made ≡ length passes.items) }
{
    let mut made = Vec::new(alloc);
    while let Some(pass) = passes.pop() {
        made.push(JobQueue { inbox, pass })?;
    }
    Ok(made)
}
