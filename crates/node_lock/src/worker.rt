//! A pool's worker: it takes jobs and makes their calls.

ghost use Rattle.node_lock.specs.Inboxes.{IsPassTo};

use crate::gate::Gate;
use crate::inbox::{INBOX_CAPACITY, Inbox, InboxPass};
use crate::job::Job;
use crate::locked::StepFault;
use crate::receipt::{Call, Receipt};
use crate::report::Cause;
use crate::seat::Seat;
use crate::shared::SharedNode;
use std::alloc::Global;
use std::sync::Wait;
use std::sync::ledger::Ledger;

/// What a worker sits at: its seat, and a pass to the inbox.
#[derive(Drop)]
pub struct WorkerSeat<L: Ledger> {
    pub(crate) seat: Seat<L>,
    pub(crate) pass: InboxPass,
}

/// A job's receipt.
#[derive(Drop)]
pub struct NumberedReceipt {
    pub(crate) number: u32,
    pub(crate) receipt: Receipt,
}

/// What a worker leaves: its seat, the receipts of its jobs, and why it stopped before the inbox was empty.
#[derive(Drop)]
pub struct WorkerResult<L: Ledger> {
    pub(crate) seat: Seat<L>,
    pub(crate) receipts: Vec<NumberedReceipt>,
    pub(crate) cause: Option<Cause>,
}

/// Takes jobs until the inbox is empty, and makes their calls, each under one hold of the lock.
pub(crate) fn work<L: Ledger, G: Gate, R: Wait>(
    rt: &R,
    alloc: Global,
    shared: &SharedNode<L>,
    inbox: &Inbox,
    gate: &G,
    worker_seat: WorkerSeat<L>,
) -> WorkerResult<L>
    requires { IsPassTo inbox.now worker_seat.pass }
{
    let WorkerSeat { mut seat, mut pass } = worker_seat;
    let mut receipts = Vec::new(alloc);
    let mut cause = None;
    for _ in 0..INBOX_CAPACITY {
        let Some(job) = inbox.take(rt, &mut pass) else {
            break;
        };
        if let Err(found) = do_job(rt, shared, gate, &mut seat, job, &mut receipts) {
            cause = Some(found);
            break;
        }
    }
    WorkerResult {
        seat,
        receipts,
        cause,
    }
}

/// Makes a job's call, and keeps its receipt.
fn do_job<L: Ledger, G: Gate, R: Wait>(
    rt: &R,
    shared: &SharedNode<L>,
    gate: &G,
    seat: &mut Seat<L>,
    job: Job,
    receipts: &mut Vec<NumberedReceipt>,
) -> Result<(), Cause> {
    let worker = seat.number();
    let number = job.number;
    gate.enter(worker, number);
    let receipt = call_locked(rt, shared, seat, job)?;
    if receipts.push(NumberedReceipt { number, receipt }).is_err() {
        return Err(Cause::Memory);
    }
    gate.leave(worker, number);
    Ok(())
}

/// The job's call under one hold of the lock.
fn call_locked<L: Ledger, R: Wait>(
    rt: &R,
    shared: &SharedNode<L>,
    seat: &mut Seat<L>,
    job: Job,
) -> Result<Receipt, StepFault> {
    match job.call {
        Call::Step(event) => shared.node.lock(rt).step(seat, event),
        Call::Ask(question) => shared.node.lock(rt).ask(seat, question),
    }
}
