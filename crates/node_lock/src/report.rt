//! What a pool reports: the receipts in the order of its calls, audited.

ghost use Rattle.std.specs.Prelude.{◌≡◌, ◌<◌, ◌≤◌, map, length, IfOk, OnOk, vec_len};
ghost use Rattle.node_lock.specs.Audits.{AreTrue};
ghost use Rattle.node_lock.specs.Pools.{most_calls, call_of, recorded_by, recorded_counts, IsReport};

use crate::audits::{AuditFault, audit};
use crate::locked::StepFault;
use crate::receipt::{Call, Receipt};
use bracha_instance::Effect;
use quorum_sizes::NodeName;
use role_node::{Config, Entry, Node};
use std::alloc::{AllocError, Global};
use std::error::Error;
use std::fmt;

/// What a pool did.
#[derive(Drop)]
pub struct PoolReport {
    /// The receipt of each call, in the order of the calls.
    pub receipts: Vec<Receipt>,
    /// How many receipts of recorded events name the seat of each worker.
    pub recorded: Vec<u32>,
    /// A node made from the configuration and the name, against which the receipts were audited.
    pub node: Node,
}

/// What is known of a call's receipt.
#[derive(Drop)]
pub enum ReceiptSlot {
    Vacant,
    Filled(Receipt),
    Repeated,
}

impl ReceiptSlot {
    /// Fills the slot, or marks it where a receipt came before.
    pub(crate) fn fill(&mut self, receipt: Receipt) {
        *self = match self {
            ReceiptSlot::Vacant => ReceiptSlot::Filled(receipt),
            _ => ReceiptSlot::Repeated,
        };
    }
}

/// Why a pool's worker failed, or a call has no receipt.
#[derive(Clone, Copy, Debug, PartialEq, Eq)]
pub enum Cause {
    /// A hold found a history that is shorter than the worker's seat had seen.
    Behind { seen: u32, found: u32 },
    /// A hold found not as many events of the worker's seat as it had recorded.
    Strange { recorded: u32, found: u32 },
    /// The call has not exactly one receipt, and it is the least such call.
    NoReceipt { call: u32 },
    /// Memory is wanting.
    Memory,
}

impl From<StepFault> for Cause {
    ghost use Rattle.std.specs.Prelude.{◌≡◌};
    ghost use Rattle.node_lock.specs.PoolTexts.{cause_of};

    ghost from_gives = { λ fault cause. cause ≡ cause_of fault };

    fn from(fault: StepFault) -> Self {
        match fault {
            StepFault::Behind { seen, found } => Cause::Behind { seen, found },
            StepFault::Strange { recorded, found } => Cause::Strange { recorded, found },
            StepFault::Memory => Cause::Memory,
        }
    }
}

impl fmt::Display for Cause {
    ghost use Rattle.std.specs.Prelude.{Some};
    ghost use Rattle.node_lock.specs.PoolTexts.{cause_text};

    ghost output = { λ cause. Some (cause_text cause) };

    fn fmt<W: fmt::Write>(&self, f: &mut fmt::Formatter<W>) -> fmt::Result {
        match self {
            Cause::Behind { seen, found } => write!(f, "Y1 Behind {seen} {found}"),
            Cause::Strange { recorded, found } => write!(f, "Y2 Strange {recorded} {found}"),
            Cause::NoReceipt { call } => write!(f, "NoReceipt {call}"),
            Cause::Memory => write!(f, "out of memory"),
        }
    }
}

/// Why a pool has no report.
#[derive(Clone, Copy, Debug, PartialEq, Eq)]
pub enum PoolFault {
    /// No receipt is of the event that was recorded at this place.
    Missing(u32),
    /// More than one receipt is.
    Doubled(u32),
    /// A receipt for this place is not true of the history.
    Differs(u32),
    /// A worker failed, or a call has no receipt.
    WorkerFailed(Cause),
    /// Memory is wanting.
    Memory,
}

impl fmt::Display for PoolFault {
    ghost use Rattle.std.specs.Prelude.{Some};
    ghost use Rattle.node_lock.specs.PoolTexts.{pool_fault_text};

    ghost output = { λ fault. Some (pool_fault_text fault) };

    fn fmt<W: fmt::Write>(&self, f: &mut fmt::Formatter<W>) -> fmt::Result {
        match self {
            PoolFault::Missing(place) => write!(f, "Z2 Missing {place}"),
            PoolFault::Doubled(place) => write!(f, "Z4 Doubled {place}"),
            PoolFault::Differs(place) => write!(f, "Z3 Differs {place}"),
            PoolFault::WorkerFailed(cause) => write!(f, "Z5 WorkerFailed {cause}"),
            PoolFault::Memory => write!(f, "out of memory"),
        }
    }
}

impl Error for PoolFault {}

impl From<AllocError> for PoolFault {
    ghost use Rattle.std.specs.Prelude.{◌≡◌};
    ghost use Rattle.node_lock.specs.declared.report.PoolFault.TheVariants.{Memory};

    ghost from_gives = { λ _ fault. fault ≡ Memory };

    fn from(_: AllocError) -> Self {
        PoolFault::Memory
    }
}

impl From<AuditFault> for PoolFault {
    ghost use Rattle.std.specs.Prelude.{◌≡◌};
    ghost use Rattle.node_lock.specs.PoolTexts.{of_audit_fault};

    ghost from_gives = { λ fault given. given ≡ of_audit_fault fault };

    fn from(fault: AuditFault) -> Self {
        match fault {
            AuditFault::Missing(place) => PoolFault::Missing(place),
            AuditFault::Doubled(place) => PoolFault::Doubled(place),
            AuditFault::Differs(place) => PoolFault::Differs(place),
            AuditFault::Memory => PoolFault::Memory,
        }
    }
}

/// The report of a pool: the receipts in the order of the calls, which are audited against a node of this
/// configuration and name that is given the entries' events.
pub(crate) fn report(
    alloc: Global,
    config: Config,
    me: NodeName,
    entries: &[Entry],
    slots: Vec<ReceiptSlot>,
    calls: &[Call],
    workers: u8,
) -> Result<PoolReport, PoolFault>
    requires me { me < config.roles.sizes.nodes }
    requires few { length calls.now ≤ most_calls }
    ensures { IfOk result (IsReport config me calls.now workers) }
{
    let receipts = receipts_in_order(alloc, slots, calls)?;
    let node = Node::new(alloc, config, me)?;
    audited_report(alloc, node, entries, receipts, workers)
}

/// The report of these receipts, with a new node that is given the entries' events.
fn audited_report(
    alloc: Global,
    mut node: Node,
    entries: &[Entry],
    receipts: Vec<Receipt>,
    workers: u8,
) -> Result<PoolReport, PoolFault>
    requires { vec_len receipts ≤ most_calls }
    ensures { IfOk result (IsReport node.config node.me (map call_of receipts.items) workers) }
{
    let recorded = audited_counts(alloc, &mut node, entries, receipts.as_slice(), workers)?;
    Ok(PoolReport {
        receipts,
        recorded,
        node,
    })
}

/// Gives the entries' events to the node, and audits the receipts against it. How many recorded events each worker's
/// receipts tell of.
fn audited_counts(
    alloc: Global,
    node: &mut Node,
    entries: &[Entry],
    receipts: &[Receipt],
    workers: u8,
) -> Result<Vec<u32>, PoolFault>
    requires { length receipts.now ≤ most_calls }
    ensures audited { OnOk result (AreTrue node.new receipts.now) }
    ensures counted { IfOk result (λ counts. counts.items ≡ recorded_counts receipts.now workers) }
    ensures config { node.new.config ≡ node.old.config }
    ensures me { node.new.me ≡ node.old.me }
{
    replay(node, entries)?;
    audit(alloc, node, receipts)?;
    Ok(counts(alloc, receipts, workers)?)
}

/// The receipts in the order of the calls.
fn receipts_in_order(
    alloc: Global,
    slots: Vec<ReceiptSlot>,
    calls: &[Call],
) -> Result<Vec<Receipt>, PoolFault>
    requires { length calls.now ≤ most_calls }
    ensures { IfOk result (λ receipts. map call_of receipts.items ≡ calls.now) }
{
    let mut receipts = Vec::with_capacity(alloc, calls.len())?;
    let mut index = 0;
    for slot in slots {
        let ReceiptSlot::Filled(receipt) = slot else {
            return Err(no_receipt(index));
        };
        if index >= calls.len() || !receipt.call.equals(&calls[index]) {
            return Err(no_receipt(index));
        }
        receipts.push_reserved(receipt);
        index += 1;
    }
    if index != calls.len() {
        return Err(no_receipt(index));
    }
    Ok(receipts)
}

fn no_receipt(call: usize) -> PoolFault
    requires { call ≤ most_calls }
{
    PoolFault::WorkerFailed(Cause::NoReceipt { call: call as u32 })
}

/// Gives the entries' events to a node, up to the first that it does not record.
fn replay(node: &mut Node, entries: &[Entry]) -> Result<(), AllocError>
    ensures config { node.new.config ≡ node.old.config }
    ensures me { node.new.me ≡ node.old.me }
{
    for entry in entries {
        let event = entry.event();
        let Ok(Effect::Counted) = node.look(&event) else {
            break;
        };
        node.record(&event)?;
    }
    Ok(())
}

/// How many recorded events each worker's receipts tell of.
fn counts(alloc: Global, receipts: &[Receipt], workers: u8) -> Result<Vec<u32>, AllocError>
    requires { length receipts.now ≤ most_calls }
    ensures { IfOk result (λ counts. counts.items ≡ recorded_counts receipts.now workers) }
{
    let mut counts = Vec::new(alloc);
    for worker in 0..workers {
        counts.push(count_by_worker(receipts, worker))?;
    }
    Ok(counts)
}

fn count_by_worker(receipts: &[Receipt], worker: u8) -> u32
    requires { length receipts.now ≤ most_calls }
    ensures { result ≡ recorded_by receipts.now worker }
{
    let mut count = 0;
    for receipt in receipts {
        if receipt.seat == worker && receipt.outcome.is_recorded() {
            count += 1;
        }
    }
    count
}
