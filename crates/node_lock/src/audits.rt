//! The audit of receipts against a replay of a node's history.

ghost use Rattle.std.specs.Prelude.{◌≡◌, ◌<◌, ◌≤◌, ◌++◌, length, slice_get, IsTrue, ◌↔◌, All, Some, IfOk, IfErr, OnOk};
ghost use Rattle.std.specs.List.Sorted.{IsNonDecreasingBy};
ghost use Rattle.role_node.specs.Answers.{is_recorded};
ghost use Rattle.role_node.specs.Nodes.{new_node, due_at, with_event};
ghost use Rattle.node_lock.specs.Audits.{node_at, AreTrue, IsAuditFault};
ghost use Rattle.node_lock.specs.inside.Walks.{receipts_of, IsRest, event_in, IsNext};
ghost use Rattle.node_lock.specs.inside.Walks.{IsTrueHere, IsUnrecorded, recorded_in, AreRightHere, IsFaultHere};
ghost use Rattle.node_lock.specs.declared.receipt.Call.TheVariants.{Step};
ghost use Rattle.node_lock.specs.declared.receipt.Outcome.TheVariants.{Reply as Replied};
ghost use Rattle.node_lock.specs.declared.receipt.Receipt.{Receipt as ReceiptValue};

use crate::questions::ask_outcome;
use crate::receipt::{Call, Outcome, Receipt};
use bracha_instance::Effect;
use role_node::{Event, Node, Reply};
use std::alloc::{AllocError, Global};
use std::error::Error;
use std::fmt;

/// What an audit found wrong, at the least wrong place of the history.
#[derive(Clone, Copy, Debug, PartialEq, Eq)]
pub enum AuditFault {
    /// No receipt is of the event that was recorded at this place.
    Missing(u32),
    /// More than one receipt is.
    Doubled(u32),
    /// A receipt for this place is not true of the history.
    Differs(u32),
    /// Memory is wanting.
    Memory,
}

impl fmt::Display for AuditFault {
    ghost use Rattle.std.specs.Prelude.{Some};
    ghost use Rattle.node_lock.specs.Texts.{audit_fault_text};

    ghost output = { λ fault. Some (audit_fault_text fault) };

    fn fmt<W: fmt::Write>(&self, f: &mut fmt::Formatter<W>) -> fmt::Result {
        match self {
            AuditFault::Missing(place) => write!(f, "Z2 Missing {place}"),
            AuditFault::Doubled(place) => write!(f, "Z4 Doubled {place}"),
            AuditFault::Differs(place) => write!(f, "Z3 Differs {place}"),
            AuditFault::Memory => write!(f, "out of memory"),
        }
    }
}

impl Error for AuditFault {}

impl From<AllocError> for AuditFault {
    ghost use Rattle.std.specs.Prelude.{◌≡◌};
    ghost use Rattle.node_lock.specs.declared.audits.AuditFault.TheVariants.{Memory};

    ghost from_gives = { λ _ fault. fault ≡ Memory };

    fn from(_: AllocError) -> Self {
        AuditFault::Memory
    }
}

/// An entry of the history: an event that was recorded, and its reply.
#[derive(Clone, Copy)]
struct EntryParts {
    event: Event,
    reply: Reply,
}

impl EntryParts {
    /// Whether the entry is of this event.
    #[inline(always)]
    fn is_of(&self, event: &Event) -> bool
        ensures { IsTrue result ↔ (self.now.event ≡ event.now) }
    {
        self.event == *event
    }

    /// Whether the receipt is of the entry's event, with its reply.
    #[inline(always)]
    fn is_told_by(&self, receipt: &Receipt) -> bool
        ensures call { IsTrue result → receipt.now.call ≡ Step self.now.event }
        ensures outcome { IsTrue result → receipt.now.outcome ≡ Replied self.now.reply }
    {
        match &receipt.call {
            Call::Step(event) => self.is_of(event) && receipt.outcome.is_reply(&self.reply),
            Call::Ask(_) => false,
        }
    }
}

/// Whether every receipt is true of the node's history, and each of its places has exactly one receipt of a recorded
/// event. It replays the history once, and goes once over the receipts, which it sorts by place.
///
/// # Errors
///
/// At the least wrong place: no receipt is of its event; then more than one is; then a receipt is not true, as is one
/// past the history, or of a recorded event at its end. Want of memory may come before a fault that is not yet met.
pub fn audit(alloc: Global, node: &Node, receipts: &[Receipt]) -> Result<(), AuditFault>
    ensures ok { OnOk result (AreTrue node.now receipts.now) }
    ensures err { IfErr result (IsAuditFault node.now receipts.now) }
{
    let mut replay = Node::new(alloc, node.config().copy(alloc)?, node.me())?;
    check_all_places(alloc, node, receipts, &mut replay)
}

/// Applies the node's events to a new node, and checks the receipts for each place on the way.
fn check_all_places(
    alloc: Global,
    node: &Node,
    receipts: &[Receipt],
    replay: &mut Node,
) -> Result<(), AuditFault>
    requires { replay.old ≡ new_node node.now.config node.now.me }
    ensures ok { OnOk result (AreTrue node.now receipts.now) }
    ensures err { IfErr result (IsAuditFault node.now receipts.now) }
{
    let sorted = by_place(alloc, receipts)?;
    let sorted = sorted.as_slice();
    let end = node.events();
    let mut done = 0;
    for place in 0..end {
        let (here, _) = split_at_place(&sorted[done..], place);
        let entry = entry_at(node, place);
        check_recorded(replay, entry, here, place)?;
        advance(replay, &entry.event)?;
        done += here.len();
    }
    let (here, past) = split_at_place(&sorted[done..], end);
    check_place(replay, &None, here, end)?;
    match past.first() {
        Some(receipt) => Err(AuditFault::Differs(receipt.place)),
        None => Ok(()),
    }
}

/// The entry at a place of the history, with its event and its reply side by side.
fn entry_at(node: &Node, place: u32) -> EntryParts
    requires { place < length node.now.history }
    ensures event { slice_get node.now.history place ≡ Some result.event }
    ensures next { IsNext (node_at node.now place) (Some result) }
{
    let entry = node.history()[place as usize];
    EntryParts {
        event: entry.event(),
        reply: entry.reply(),
    }
}

/// The receipts in the order of their places.
fn by_place(alloc: Global, receipts: &[Receipt]) -> Result<Vec<&Receipt>, AllocError>
    ensures { IfOk result (λ sorted. IsRest receipts.now 0 (receipts_of sorted.items)) }
{
    // Each place stands beside its reference, so that the sort reads no receipt.
    let mut keys = Vec::with_capacity(alloc, receipts.len())?;
    for receipt in receipts {
        keys.push((receipt.place, receipt))?;
    }
    keys.sort_unstable_by_key(|key| key.0);
    let mut sorted = Vec::with_capacity(alloc, receipts.len())?;
    for key in keys.as_slice() {
        sorted.push(key.1)?;
    }
    Ok(sorted)
}

/// The receipts for a place, and those for later ones, where none is for an earlier one.
fn split_at_place<'a, 'b>(
    rest: &'b [&'a Receipt],
    place: u32,
) -> (&'b [&'a Receipt], &'b [&'a Receipt])
    requires ordered { IsNonDecreasingBy (λ (r : ReceiptValue). r.place) (receipts_of rest.now) }
    requires low { All (λ (r : ReceiptValue). place ≤ r.place) (receipts_of rest.now) }
    ensures whole { receipts_of rest.now ≡ receipts_of result.0.now ++ receipts_of result.1.now }
    ensures here { All (λ (r : ReceiptValue). r.place ≡ place) (receipts_of result.0.now) }
    ensures later { All (λ (r : ReceiptValue). place < r.place) (receipts_of result.1.now) }
{
    let mut count = 0;
    for receipt in rest {
        if receipt.place != place {
            break;
        }
        count += 1;
    }
    rest.split_at(count)
}

/// Whether one receipt is of the entry's event, and all receipts here are true. The node has the history before it.
/// Most places have one receipt alone, which tells of the entry.
#[inline(always)]
fn check_recorded(
    replay: &mut Node,
    entry: EntryParts,
    here: &[&Receipt],
    place: u32,
) -> Result<(), AuditFault>
    requires { IsNext replay.old (Some entry) }
    ensures ok { OnOk result (AreRightHere replay.old (Some entry.event) (receipts_of here.now)) }
    ensures err { IfErr result (IsFaultHere replay.old (Some entry.event) (receipts_of here.now) place) }
    ensures same { replay.new ≡ replay.old }
{
    match here {
        [receipt] if entry.is_told_by(receipt) => Ok(()),
        _ => check_place(replay, &Some(entry), here, place),
    }
}

/// Whether one receipt is of the place's event, and all receipts here are true. The node has the history before it.
fn check_place(
    replay: &mut Node,
    entry: &Option<EntryParts>,
    here: &[&Receipt],
    place: u32,
) -> Result<(), AuditFault>
    requires { IsNext replay.old entry.now }
    ensures ok { OnOk result (AreRightHere replay.old (event_in entry.now) (receipts_of here.now)) }
    ensures err { IfErr result (IsFaultHere replay.old (event_in entry.now) (receipts_of here.now) place) }
    ensures same { replay.new ≡ replay.old }
{
    if entry.is_some() {
        let recorded = count_recorded(here);
        if recorded == 0 {
            return Err(AuditFault::Missing(place));
        }
        if recorded > 1 {
            return Err(AuditFault::Doubled(place));
        }
    }
    if are_true(replay, entry, here)? {
        Ok(())
    } else {
        Err(AuditFault::Differs(place))
    }
}

fn count_recorded(receipts: &[&Receipt]) -> usize
    ensures { result ≡ recorded_in (receipts_of receipts.now) }
{
    receipts
        .iter()
        .filter(|receipt| receipt.outcome.is_recorded())
        .count()
}

/// Whether all receipts here are true.
fn are_true(
    replay: &mut Node,
    entry: &Option<EntryParts>,
    here: &[&Receipt],
) -> Result<bool, AllocError>
    requires { IsNext replay.old entry.now }
    ensures all { IfOk result
        (λ yes. IsTrue yes ↔ All (IsTrueHere replay.old (event_in entry.now)) (receipts_of here.now)) }
    ensures same { replay.new ≡ replay.old }
{
    for receipt in here {
        if !is_true(replay, entry, receipt)? {
            return Ok(false);
        }
    }
    Ok(true)
}

/// Whether a receipt is true here.
fn is_true(
    replay: &mut Node,
    entry: &Option<EntryParts>,
    receipt: &Receipt,
) -> Result<bool, AllocError>
    requires { IsNext replay.old entry.now }
    ensures is { IfOk result (λ yes. IsTrue yes ↔ IsTrueHere replay.old (event_in entry.now) receipt.now) }
    ensures same { replay.new ≡ replay.old }
{
    match &receipt.call {
        Call::Ask(question) => Ok(ask_outcome(replay, *question)?.equals(&receipt.outcome)),
        Call::Step(event) => Ok(match entry {
            Some(entry) if entry.is_of(event) => receipt.outcome.is_reply(&entry.reply),
            _ => is_unrecorded(replay, event, &receipt.outcome),
        }),
    }
}

/// Whether the outcome is due to the event, and it is not recorded.
fn is_unrecorded(replay: &Node, event: &Event, outcome: &Outcome) -> bool
    ensures { IsTrue result ↔ IsUnrecorded (due_at replay.now event.now) outcome.now }
{
    match replay.look(event) {
        Ok(Effect::Counted) => false,
        Ok(Effect::Idle) => Outcome::Reply(Reply::Idle).equals(outcome),
        Err(fault) => Outcome::Refused(fault).equals(outcome),
    }
}

/// Has the node record an event that counts.
fn advance(replay: &mut Node, event: &Event) -> Result<(), AllocError>
    requires { IsTrue (is_recorded (due_at replay.old event.now)) }
    ensures { OnOk result (replay.new ≡ with_event replay.old event.now) }
{
    replay.record(event)?;
    Ok(())
}
