//! How the workers stand. The thread that has put jobs does them with an idle worker.

ghost use Rattle.std.specs.Prelude.{◌≡◌, ◌&&◌, nat_lt, vec_len, is_some, false, None, IfNone, IfSome, OnSome};

use crate::credits::Credits;
use crate::server::Server;
use crate::workers::Worker;
use frame_queues::FrameKeys;
use quorum_sizes::NodeName;
use served_node::{HeldNode, millis};
use server_locks::{Alarm, Front};
use std::mem;
use std::sync::Wait;
use std::time::Clock;

/// The workers that are idle, and what is there for them and for the thread of the ports.
#[derive(Drop)]
pub struct Crew<'a, N: HeldNode> {
    pub idle: Vec<Worker<'a, N>>,
    /// Absent while a worker takes jobs.
    pub front: Option<Front<N::Untold>>,
    /// Jobs were put, and no worker has looked since; or a worker has left some, since its batch was full.
    pub jobs: bool,
    /// The peers to which there is a new connection since a worker looked.
    pub connected: Vec<NodeName>,
    /// What is new of the connections of peers.
    pub credits: Credits,
    /// When something is due for which nobody wakes a worker.
    pub alarm: Alarm,
    /// A port has failed, or what was recorded is not kept.
    pub failed: bool,
    /// The node has ended.
    pub ended: bool,
}

impl<'a, N: HeldNode> Crew<'a, N> {
    /// Whether an idle worker may take jobs.
    fn is_due(&self) -> bool
        ensures { result ≡ (self.now.jobs && is_some self.now.front && nat_lt 0 (vec_len self.now.idle)) }
    {
        self.jobs && self.front.is_some() && !self.idle.is_empty()
    }

    /// An idle worker takes jobs from now on, if none does, with what comes before them.
    fn begin(&mut self) -> Option<(Worker<'a, N>, Front<N::Untold>)>
        ensures begun { is_some result ≡ (is_some self.old.front && nat_lt 0 (vec_len self.old.idle)) }
        ensures front { IfSome result (λ r. IfSome self.old.front
            (λ f. r.1 ≡ record f { connected = self.old.connected })) }
        ensures some { OnSome result (self.new ≡ record self.old {
          idle = self.new.idle;
          front = None;
          jobs = false;
          connected = self.new.connected;
        }) }
        ensures none { IfNone result (self.new ≡ self.old) }
    {
        if self.idle.is_empty() {
            return None;
        }
        let mut front = self.front.take()?;
        let worker = self.idle.pop()?;
        self.jobs = false;
        mem::swap(&mut self.connected, &mut front.connected);
        Some((worker, front))
    }
}

impl<'a, N: HeldNode, K: FrameKeys, R: Wait + Clock> Server<'a, N, K, R> {
    /// Jobs were put. This thread does them with an idle worker, or leaves them to others where that may take long.
    /// Where a worker takes jobs now, or all are at work, those look again.
    pub fn wake_workers(&self) {
        let mut crew = self.crew.lock(self.rt);
        crew.jobs = true;
        if N::may_sync_long() {
            self.left.notify_one();
            return;
        }
        let begun = crew.begin();
        drop(crew);
        if let Some((worker, front)) = begun {
            self.work(worker, front);
        }
    }

    /// Jobs were put, for which the inbox has no room. Whether the node goes on.
    pub fn wake_for_room(&self) -> bool {
        let goes_on = !self.has_ended();
        if goes_on {
            self.wake_workers();
        }
        goes_on
    }

    /// Does jobs that are left to others, until the end.
    pub fn do_jobs(&self) {
        for _ in self.rt.forever() {
            let crew = self.crew.lock(self.rt);
            let mut crew = self
                .left
                .wait_while(self.rt, crew, |crew| !crew.ended && !crew.is_due());
            if crew.ended {
                return;
            }
            let begun = crew.begin();
            drop(crew);
            if let Some((worker, front)) = begun {
                self.work(worker, front);
            }
        }
    }

    /// Does a batch of jobs with a worker. What is left then is left to others.
    fn work(&self, mut worker: Worker<'a, N>, front: Front<N::Untold>) {
        self.take_batch(&mut worker, front);
        self.send_and_tell(&mut worker);
        self.rest(worker);
    }

    /// Has a worker take jobs, until its batch is full or no more were put since it looked.
    fn take_batch(&self, worker: &mut Worker<'a, N>, mut front: Front<N::Untold>) {
        for _ in self.rt.forever() {
            let is_left = self.take_jobs(worker, &mut front);
            match self.takes_on(is_left, front) {
                Some(kept) => front = kept,
                None => return,
            }
        }
    }

    /// A worker is idle again. What came of its packets is noted.
    fn rest(&self, mut worker: Worker<'a, N>) {
        let now = millis(self.rt);
        let mut crew = self.crew.lock(self.rt);
        for noted in worker.heard.drain(..) {
            crew.credits.note(noted, now);
        }
        // there is room for each worker
        let _ = crew.idle.push(worker);
        if crew.is_due() {
            self.left.notify_one();
        }
    }

    /// What comes before the inbox, for the worker that takes jobs, if it takes more that were put since it looked.
    /// What is left of a full batch is left to others, who look at once.
    fn takes_on(&self, is_left: bool, front: Front<N::Untold>) -> Option<Front<N::Untold>> {
        let mut crew = self.crew.lock(self.rt);
        if crew.jobs && !is_left && !N::may_sync_long() {
            crew.jobs = false;
            return Some(front);
        }
        crew.jobs |= is_left;
        let due = front.pairs.next_due().min(front.tell_by);
        if crew.alarm.set(due) {
            self.wake_ports();
        }
        crew.front = Some(front);
        if crew.is_due() {
            self.left.notify_one();
        }
        None
    }

    /// Something may have come of the connection to an outbox's peer. If it is made now, the workers hear of it.
    pub fn go_on(&self, at: usize, now: u64) {
        if let Some(outbox) = self.outboxes.get(at) {
            if outbox.go_on(self.rt, now) {
                let _ = self.crew.lock(self.rt).connected.push(outbox.to);
            }
        }
    }

    /// For how many milliseconds the thread of the ports may wait now, until this time at most.
    pub fn wait_until_due(&self, now: u64, most: u64) -> u64 {
        self.crew.lock(self.rt).alarm.wait(now, most)
    }

    /// Whether something is due now for which nobody wakes a worker, a new connection among it.
    pub fn is_due(&self, now: u64) -> bool {
        let mut crew = self.crew.lock(self.rt);
        let is_due = crew.alarm.is_due(now);
        is_due || !crew.connected.is_empty()
    }
}
