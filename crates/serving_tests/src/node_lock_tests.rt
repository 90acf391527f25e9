//! What needs threads or waits: an inbox gives back what is left and hands back what has no room; a pool's workers run
//! at once, make more calls than an inbox takes, and end well or want memory.

ghost use Rattle.std.specs.Prelude.{◌≡◌, ◌<◌, ◌≤◌, [], All, IfOk, vec_len};
ghost use Rattle.node_lock.specs.Seats.{most_seats};
ghost use Rattle.node_lock.specs.Inboxes.{IsPassTo, IsNewPassTo};

use node_lock::*;
use quorum_sizes::{NodeName, Sizes};
use role_commands::RoleTable;
use role_node::{ClientEvent, Config, Event, Reply};
use std::alloc::{AllocError, Global};
use std::sync::Wait;
use std::sync::atomic::{AtomicU32, Ordering};
use std::test::Fail;
use std::thread::Threads;

const OPEN: Event = Event::Client(ClientEvent::Open { user: 7 });

/// A job of this number.
fn job(number: u32) -> Job {
    Job {
        number,
        call: Call::Step(OPEN),
    }
}

/// A new inbox with two passes, made again where memory was wanting.
fn inbox_for_two(alloc: Global) -> Result<(Inbox, Vec<InboxPass>), Fail>
    ensures count { IfOk result (λ made. vec_len made.1 ≡ 2) }
    ensures fresh { IfOk result (λ made. All (IsNewPassTo made.0) made.1.items) }
{
    match Inbox::new(alloc, 2) {
        Ok(made) => Ok(made),
        Err(_) => Ok(Inbox::new(alloc, 2)?),
    }
}

/// No passes, with room for two, made again where memory was wanting.
fn room_for_two(alloc: Global) -> Result<Vec<InboxPass>, Fail>
    ensures { IfOk result (λ made. made.items ≡ []) }
{
    match Vec::with_capacity(alloc, 2) {
        Ok(made) => Ok(made),
        Err(_) => Ok(Vec::with_capacity(alloc, 2)?),
    }
}

/// Finishes an inbox, where memory was wanting with what was then handed back. The jobs that are left.
fn finish_at_last<R: Wait>(
    rt: &R,
    alloc: Global,
    inbox: Inbox,
    passes: Vec<InboxPass>,
) -> Result<Vec<Job>, Fail>
    requires { All (IsPassTo inbox) passes.items }
{
    match inbox.finish(rt, alloc, passes) {
        Ok(left) => Ok(left),
        Err(InboxFault::Memory { inbox, passes }) => match inbox.finish(rt, alloc, passes) {
            Ok(left) => Ok(left),
            Err(_) => Err("not finished with what was handed back".into()),
        },
        Err(_) => Err("not finished".into()),
    }
}

/// Finishes an inbox without one of its two passes, and then with it. The jobs that are left.
fn finish_in_two<R: Wait>(
    rt: &R,
    alloc: Global,
    inbox: Inbox,
    pass: InboxPass,
    kept: InboxPass,
) -> Result<Vec<Job>, Fail>
    requires pass { IsPassTo inbox pass }
    requires kept { IsPassTo inbox kept }
{
    let mut one = room_for_two(alloc)?;
    one.push(pass)?;
    let Err(InboxFault::PassMissing { inbox, mut passes }) = inbox.finish(rt, alloc, one) else {
        return Err("finished without a pass".into());
    };
    passes.push(kept)?;
    finish_at_last(rt, alloc, inbox, passes)
}

#[test]
fn an_inbox_gives_back_what_is_left(rt: HostRuntime) -> Result<(), Fail> {
    let alloc = rt.alloc();
    let (inbox, mut passes) = inbox_for_two(alloc)?;
    let Some(mut pass) = passes.pop() else {
        return Err("no pass".into());
    };
    let Some(kept) = passes.pop() else {
        return Err("no second pass".into());
    };
    assert!(rt; inbox.put(&rt, &mut pass, job(0)).is_ok());
    assert!(rt; inbox.put(&rt, &mut pass, job(1)).is_ok());
    let taken = inbox.take(&rt, &mut pass);
    assert!(rt; taken == Some(job(0)), "job 0 is taken: {taken:?}");
    let left = finish_in_two(&rt, alloc, inbox, pass, kept)?;
    assert!(rt;
        left.as_slice() == [job(1)].as_slice(),
        "job 1 is left: {left:?}"
    );
    Ok(())
}

/// Puts so many jobs into an inbox, up to the first that it hands back, whose number it says.
fn fill<R: Wait>(rt: &R, inbox: &Inbox, pass: &mut InboxPass, count: u32) -> Option<u32>
    requires { IsPassTo inbox.now pass.old }
    ensures { IsPassTo inbox.now pass.new }
{
    for number in 0..count {
        if inbox.put(rt, pass, job(number)).is_err() {
            return Some(number);
        }
    }
    None
}

#[test]
fn a_full_inbox_hands_the_job_back(rt: HostRuntime) -> Result<(), Fail> {
    let (inbox, mut passes) = Inbox::new(rt.alloc(), 1)?;
    let Some(mut pass) = passes.pop() else {
        return Err("no pass".into());
    };
    let back = fill(&rt, &inbox, &mut pass, 1_024);
    assert!(rt; back.is_none(), "handed back: {back:?}");
    let last = inbox.put(&rt, &mut pass, job(1_024));
    assert!(rt;
        last == Err(job(1_024)),
        "job 1024 is handed back: {last:?}"
    );
    Ok(())
}

/// The most turns that a gate waits.
const PATIENCE: u32 = 200_000_000;

/// The configuration of a cluster of one node, which records so many events, and its node's name.
fn config(alloc: Global, limit: u32) -> Result<(Config, NodeName), Fail>
    ensures { IfOk result (λ made. made.1 < made.0.roles.sizes.nodes) }
{
    let sizes = Sizes::new(1, 0)?;
    let me = sizes.name(0).ok_or("no node")?;
    if !sizes.has(me) {
        return Err("no node".into());
    }
    let table = RoleTable::new(alloc, sizes);
    let config = Config::new(1, table, limit).ok_or("no configuration")?;
    Ok((config, me))
}

/// The calls that open a session for each of so many users.
fn openings(alloc: Global, users: u32) -> Result<Vec<Call>, AllocError> {
    let mut calls = room_for(alloc, users)?;
    for user in 0..users {
        calls.push(Call::Step(Event::Client(ClientEvent::Open { user })))?;
    }
    Ok(calls)
}

/// No calls, with room for so many, made again where memory was wanting.
fn room_for(alloc: Global, users: u32) -> Result<Vec<Call>, AllocError> {
    match Vec::with_capacity(alloc, users as usize) {
        Ok(calls) => Ok(calls),
        Err(_) => Vec::with_capacity(alloc, users as usize),
    }
}

/// The session that a receipt says was opened.
fn session_of(receipt: &Receipt) -> Option<u64> {
    match receipt.outcome {
        Outcome::Reply(Reply::Session(session)) => Some(session),
        _ => None,
    }
}

/// The user for whom a receipt's call opens a session.
fn user_of(receipt: &Receipt) -> Option<u32> {
    match receipt.call {
        Call::Step(Event::Client(ClientEvent::Open { user })) => Some(user),
        _ => None,
    }
}

/// A gate in which each call waits until both have entered, and call 0 then until call 1 has left.
#[derive(Drop)]
struct Meeting {
    entered: AtomicU32,
    left: AtomicU32,
    late: AtomicU32,
}

impl Meeting {
    /// Waits until the word is this high, for so many turns at most.
    fn wait_for(&self, word: &AtomicU32, count: u32) {
        for _ in 0..PATIENCE {
            if word.load(Ordering::SeqCst) >= count {
                return;
            }
        }
        self.late.store(1, Ordering::SeqCst);
    }
}

impl Gate for Meeting {
    fn enter(&self, _worker: u8, job: u32) {
        self.entered.fetch_add(1, Ordering::SeqCst);
        self.wait_for(&self.entered, 2);
        if job == 0 {
            self.wait_for(&self.left, 1);
        }
    }

    fn leave(&self, _worker: u8, job: u32) {
        if job == 1 {
            self.left.store(1, Ordering::SeqCst);
        }
    }
}

/// What workers report that make so many openings.
fn report_of<G: Gate, R: Threads + Wait + Sync>(
    rt: &R,
    alloc: Global,
    users: u32,
    workers: u8,
    gate: &G,
) -> Result<PoolReport, Fail>
    requires { (1 ≤ workers) × (workers ≤ most_seats) }
{
    let (config, me) = config(alloc, users)?;
    let calls = openings(alloc, users)?;
    if calls.len() > MOST_CALLS {
        return Err("too many calls".into());
    }
    Ok(run_pool(rt, alloc, config, me, calls, workers, gate)?)
}

/// Whether the receipt at this place of a report says that it opened this session, at this place of the history.
fn says(report: &PoolReport, call: usize, place: u32, session: u64) -> bool {
    match report.receipts.get(call) {
        Some(receipt) => receipt.place == place && session_of(receipt) == Some(session),
        None => false,
    }
}

#[test]
fn two_workers_run_at_once(rt: HostRuntime) -> Result<(), Fail> {
    let gate = Meeting {
        entered: AtomicU32::new(0),
        left: AtomicU32::new(0),
        late: AtomicU32::new(0),
    };
    let report = report_of(&rt, rt.alloc(), 2, 2, &gate)?;
    assert!(rt; gate.late.load(Ordering::SeqCst) == 0, "both are at work");
    assert!(rt; says(&report, 1, 0, 1), "call 1 is the first");
    assert!(rt; says(&report, 0, 1, 2), "call 0 is the second");
    assert!(rt;
        report.recorded.as_slice() == [1, 1].as_slice(),
        "one of each worker"
    );
    assert!(rt; report.node.events() == 2 && report.receipts.len() == 2);
    Ok(())
}

#[test]
fn a_pool_runs_more_calls_than_an_inbox_takes(rt: HostRuntime) -> Result<(), Fail> {
    let report = report_of(&rt, rt.alloc(), 2_500, 8, &NoGate)?;
    assert!(rt; report.receipts.len() == 2_500 && report.recorded.len() == 8);
    assert!(rt;
        first_other(&report.receipts) == None,
        "a receipt is another user's"
    );
    assert!(rt;
        sum_of(&report.recorded) == 2_500,
        "the workers recorded all"
    );
    Ok(())
}

/// The first receipt that is not of the user with its number.
fn first_other(receipts: &[Receipt]) -> Option<u32> {
    for (receipt, user) in receipts.iter().zip(0..2_500) {
        if user_of(receipt) != Some(user) {
            return Some(user);
        }
    }
    None
}

fn sum_of(counts: &[u32]) -> u32 {
    let mut sum = 0u32;
    for count in counts {
        sum = sum.wrapping_add(*count);
    }
    sum
}

/// Has two workers make two calls, and audits their receipts. False where memory was wanting, and nothing else.
fn runs_two_calls<R: Threads + Wait + Sync>(rt: &R, alloc: Global) -> Result<bool, Fail> {
    let (config, me) = config(alloc, 10)?;
    let Ok(calls) = openings(alloc, 2) else {
        return Ok(false);
    };
    if calls.len() > MOST_CALLS {
        return Err("too many calls".into());
    }
    match run_pool(rt, alloc, config, me, calls, 2, &NoGate) {
        Ok(report) => is_true(alloc, &report),
        Err(PoolFault::Memory | PoolFault::WorkerFailed(Cause::Memory)) => Ok(false),
        Err(_) => Err("the pool fails".into()),
    }
}

/// Whether an audit finds a report's receipts true. False where memory was wanting, and nothing else.
fn is_true(alloc: Global, report: &PoolReport) -> Result<bool, Fail> {
    match audit(alloc, &report.node, &report.receipts) {
        Ok(()) => Ok(true),
        Err(AuditFault::Memory) => Ok(false),
        Err(_) => Err("the audit fails".into()),
    }
}

#[test]
fn a_pool_ends_well_or_wants_memory(rt: HostRuntime) -> Result<(), Fail> {
    let first = runs_two_calls(&rt, rt.alloc())?;
    assert!(rt; first || runs_two_calls(&rt, rt.alloc())?);
    Ok(())
}
