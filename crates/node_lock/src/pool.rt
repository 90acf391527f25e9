//! A pool: workers that make calls at one shared node.

ghost use Rattle.std.specs.Prelude.{◌≡◌, ◌<◌, ◌≤◌, ◌+◌, [], All, length, IfOk, vec_len};
ghost use Rattle.node_lock.specs.Inboxes.{IsPassTo, IsNewPassTo};
ghost use Rattle.node_lock.specs.Pools.{most_calls, IsReport};
ghost use Rattle.node_lock.specs.Seats.{most_seats};

use crate::gate::Gate;
use crate::inbox::{INBOX_CAPACITY, Inbox, InboxPass};
use crate::job::Job;
use crate::receipt::Call;
use crate::report::{PoolFault, PoolReport, ReceiptSlot, report};
use crate::seat::Seat;
use crate::shared::{SharedNode, close};
use crate::worker::{NumberedReceipt, WorkerResult, WorkerSeat, work};
use quorum_sizes::NodeName;
use role_node::{Config, Node};
use std::alloc::{AllocError, Global};
use std::marker::Brand;
use std::sync::Wait;
use std::sync::ledger::{Blank, Ledger};
use std::thread;
use std::thread::Threads;

/// The most calls of a pool.
pub const MOST_CALLS: usize = 65_536;

/// Makes the calls at a new node of this configuration and name, by so many workers at once, each with a seat of its
/// own. `me` must be a node of its sizes; there are 1 to [`MOST_SEATS`](crate::MOST_SEATS) workers, and at most
/// [`MOST_CALLS`] calls.
///
/// # Errors
///
/// A worker failed, or a call has not exactly one receipt; then what an audit of the receipts finds. Want of memory may
/// come before a fault that is not yet met.
pub fn run_pool<G: Gate, R: Threads + Wait + Sync>(
    rt: &R,
    alloc: Global,
    config: Config,
    me: NodeName,
    calls: Vec<Call>,
    workers: u8,
    gate: &G,
) -> Result<PoolReport, PoolFault>
    requires me { me < config.roles.sizes.nodes }
    requires workers { (1 ≤ workers) × (workers ≤ most_seats) }
    requires calls { vec_len calls ≤ most_calls }
    ensures { IfOk result (IsReport config me calls.items workers) }
{
    let mut slots = vacant_slots(alloc, calls.len())?;
    let pool = Pool {
        alloc,
        calls: calls.as_slice(),
        gate,
    };
    let node = pool.run_at_new_node(rt, &config, me, workers, slots.as_mut_slice())?;
    report(
        alloc,
        config,
        me,
        node.history(),
        slots,
        calls.as_slice(),
        workers,
    )
}

/// What stays the same in all rounds of a pool: its allocator, all its calls, and its gate.
#[derive(Drop)]
struct Pool<'a, G> {
    alloc: Global,
    calls: &'a [Call],
    gate: &'a G,
}

impl<G: Gate> Pool<'_, G> {
    /// The node that made the calls. Their receipts go into the slots.
    fn run_at_new_node<R: Threads + Wait + Sync>(
        &self,
        rt: &R,
        config: &Config,
        me: NodeName,
        workers: u8,
        slots: &mut [ReceiptSlot],
    ) -> Result<Node, PoolFault>
        requires me { me < config.now.roles.sizes.nodes }
        requires workers { (1 ≤ workers) × (workers ≤ most_seats) }
        requires calls { length self.now.calls.now ≤ most_calls }
    {
        let node = Node::new(self.alloc, config.copy(self.alloc)?, me)?;
        let blank = Blank::new(workers as u64);
        self.run_with_seats::<Brand, R>(rt, blank, node, workers, slots)
    }

    /// The same at this node, by a ledger with one part for each worker's seat.
    fn run_with_seats<L: Ledger + Send + Sync, R: Threads + Wait + Sync>(
        &self,
        rt: &R,
        blank: Blank,
        node: Node,
        workers: u8,
        slots: &mut [ReceiptSlot],
    ) -> Result<Node, PoolFault>
        requires name { blank.name ≡ L.name }
        requires parts { (blank.parts ≡ L.parts) × (workers ≡ L.parts) }
        requires empty { node.history ≡ [] }
        requires workers { (1 ≤ workers) × (workers ≤ most_seats) }
        requires calls { length self.now.calls.now ≤ most_calls }
    {
        let (shared, seats) = SharedNode::<L>::new(self.alloc, blank, node, workers)?;
        let seats = self.run_rounds(rt, &shared, seats, slots)?;
        Ok(close_with_all(shared, seats))
    }

    /// Runs the calls, as many at a time as an inbox takes.
    fn run_rounds<L: Ledger + Send + Sync, R: Threads + Wait + Sync>(
        &self,
        rt: &R,
        shared: &SharedNode<L>,
        mut seats: Vec<Seat<L>>,
        slots: &mut [ReceiptSlot],
    ) -> Result<Vec<Seat<L>>, PoolFault>
        requires seats { (1 ≤ vec_len seats) × (vec_len seats ≤ most_seats) }
        requires calls { length self.now.calls.now ≤ most_calls }
        ensures { IfOk result (λ back. vec_len back ≡ vec_len seats) }
    {
        let mut start = 0;
        while start < self.calls.len() {
            seats = self.run_round(rt, shared, seats, start, slots)?;
            start += INBOX_CAPACITY;
        }
        Ok(seats)
    }

    /// Runs the calls from `start` on that an inbox takes.
    fn run_round<L: Ledger + Send + Sync, R: Threads + Wait + Sync>(
        &self,
        rt: &R,
        shared: &SharedNode<L>,
        seats: Vec<Seat<L>>,
        start: usize,
        slots: &mut [ReceiptSlot],
    ) -> Result<Vec<Seat<L>>, PoolFault>
        requires seats { (1 ≤ vec_len seats) × (vec_len seats ≤ most_seats) }
        requires start { start ≤ length self.now.calls.now }
        requires calls { length self.now.calls.now ≤ most_calls }
        ensures { IfOk result (λ back. vec_len back ≡ vec_len seats) }
    {
        let end = self.calls.len().min(start + INBOX_CAPACITY);
        let (inbox, passes) = Inbox::new(self.alloc, seats.len() as u8)?;
        let passes = fill_inbox(rt, &inbox, passes, self.calls, start, end)?;
        let worker_seats = pair_seats(self.alloc, &inbox, seats, passes)?;
        let results = run_workers(rt, self.alloc, shared, &inbox, self.gate, worker_seats)?;
        collect_seats(self.alloc, results, slots)
    }
}

/// The node of a shared node, with all its seats.
fn close_with_all<L: Ledger>(shared: SharedNode<L>, seats: Vec<Seat<L>>) -> Node
    requires { vec_len seats ≡ L.parts }
{
    let Ok(node) = close(shared, seats) else {
        unreachable!()
    };
    node
}

/// So many slots without a receipt.
fn vacant_slots(alloc: Global, count: usize) -> Result<Vec<ReceiptSlot>, AllocError> {
    let mut slots = Vec::new(alloc);
    for _ in 0..count {
        slots.push(ReceiptSlot::Vacant)?;
    }
    Ok(slots)
}

/// Puts the calls from `start` to `end` into an inbox, each with its index as the job's number.
fn fill_inbox<R: Wait>(
    rt: &R,
    inbox: &Inbox,
    mut passes: Vec<InboxPass>,
    calls: &[Call],
    start: usize,
    end: usize,
) -> Result<Vec<InboxPass>, AllocError>
    requires some { 0 < vec_len passes }
    requires passes { All (IsNewPassTo inbox.now) passes.items }
    requires within { (end ≤ length calls.now) × (length calls.now ≤ most_calls) }
    ensures passes { IfOk result (λ back. All (IsPassTo inbox.now) back.items) }
    ensures count { IfOk result (λ back. vec_len back ≡ vec_len passes) }
{
    let Some(mut pass) = passes.pop() else {
        unreachable!()
    };
    for number in start..end {
        let job = Job {
            number: number as u32,
            call: calls[number],
        };
        let _ = inbox.put(rt, &mut pass, job);
    }
    passes.push(pass)?;
    Ok(passes)
}

/// Each seat with a pass.
fn pair_seats<L: Ledger>(
    alloc: Global,
    inbox: &Inbox,
    mut seats: Vec<Seat<L>>,
    mut passes: Vec<InboxPass>,
) -> Result<Vec<WorkerSeat<L>>, AllocError>
    requires passes { All (IsPassTo inbox.now) passes.items }
    requires count { vec_len passes ≡ vec_len seats }
    ensures passes { IfOk result (λ made. All (λ worker_seat. IsPassTo inbox.now worker_seat.pass) made.items) }
    ensures count { IfOk result (λ made. vec_len made ≡ vec_len seats) }
{
    let mut worker_seats = Vec::new(alloc);
    while let Some(seat) = seats.pop() {
        let Some(pass) = passes.pop() else {
            unreachable!()
        };
        worker_seats.push(WorkerSeat { seat, pass })?;
    }
    Ok(worker_seats)
}

/// The worker of each seat, all at once.
fn run_workers<L: Ledger + Send + Sync, G: Gate, R: Threads + Wait + Sync>(
    rt: &R,
    alloc: Global,
    shared: &SharedNode<L>,
    inbox: &Inbox,
    gate: &G,
    worker_seats: Vec<WorkerSeat<L>>,
) -> Result<Vec<WorkerResult<L>>, AllocError>
    requires { All (λ worker_seat. IsPassTo inbox.now worker_seat.pass) worker_seats.items }
    ensures { IfOk result (λ results. vec_len results ≡ vec_len worker_seats) }
{
    let worker = |worker_seat: WorkerSeat<L>| -> WorkerResult<L>
        requires { IsPassTo inbox.now worker_seat.pass }
    { work(rt, alloc, shared, inbox, gate, worker_seat) };
    thread::map_vec(rt, worker_seats, &worker)
}

/// The seats that the workers leave. Their receipts go into the slots of their calls.
fn collect_seats<L: Ledger>(
    alloc: Global,
    mut results: Vec<WorkerResult<L>>,
    slots: &mut [ReceiptSlot],
) -> Result<Vec<Seat<L>>, PoolFault>
    ensures { IfOk result (λ seats. vec_len seats ≡ vec_len results) }
{
    let mut seats = Vec::with_capacity(alloc, results.len())?;
    let mut failed = None;
    while let Some(one) = results.pop() {
        let WorkerResult {
            seat,
            receipts,
            cause,
        } = one;
        seats.push_reserved(seat);
        store_receipts(slots, receipts);
        if cause.is_some() {
            failed = cause;
        }
    }
    match failed {
        Some(cause) => Err(PoolFault::WorkerFailed(cause)),
        None => Ok(seats),
    }
}

/// Puts each receipt into its call's slot.
fn store_receipts(slots: &mut [ReceiptSlot], mut receipts: Vec<NumberedReceipt>) {
    while let Some(one) = receipts.pop() {
        let NumberedReceipt { number, receipt } = one;
        if let Some(slot) = slots.get_mut(number as usize) {
            slot.fill(receipt);
        }
    }
}
