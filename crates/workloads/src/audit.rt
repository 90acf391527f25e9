//! Audits of histories of one node: with the receipts of one seat after another's, with all receipts from the last to
//! the first, with all in no order, and with one that is not true.

use crate::digest::Digest;
use crate::history::History;
use crate::sample::{Sample, part};
use anyhow::Result;
use node_lock::{AuditFault, Outcome, Receipt, audit};
use role_node::{Node, Reply};
use std::alloc::Global;

/// So many commands, of some nine events each.
const COMMANDS: u32 = 40_000;

/// Does the job on the input of a seed.
pub fn run(alloc: Global, seed: u32, share: u32) -> Result<Digest> {
    let mut sample = Sample::new(seed, 5);
    let mut digest = Digest::new();
    let commands = part(COMMANDS, share);
    for order in 0..6 {
        audit_one(alloc, &mut sample, commands, order, &mut digest)?;
    }
    Ok(digest)
}

/// Audits a history of so many commands, with its receipts in this order.
fn audit_one(
    alloc: Global,
    sample: &mut Sample,
    commands: u32,
    order: u32,
    digest: &mut Digest,
) -> Result<()> {
    let mut history = History::new(alloc, sample, commands, digest)?;
    audit_receipts(alloc, &mut history, sample, order, digest)
}

/// Audits the history with its receipts in this order.
fn audit_receipts(
    alloc: Global,
    history: &mut History,
    sample: &mut Sample,
    order: u32,
    digest: &mut Digest,
) -> Result<()> {
    let mut receipts = history.receipts(alloc)?;
    arrange(&mut receipts, sample, order);
    digest.number(u64::from(history.node.events()));
    digest.number(judged(alloc, &history.node, &receipts)?);
    Ok(())
}

fn arrange(receipts: &mut [Receipt], sample: &mut Sample, order: u32) {
    match order {
        3 => receipts.reverse(),
        4 => sample.shuffle(receipts),
        5 => forge(receipts),
        _ => {}
    }
}

/// Has the receipt in the middle of the first seat's say something else.
fn forge(receipts: &mut [Receipt]) {
    let middle = receipts.len() / 8;
    if let Some(receipt) = receipts.get_mut(middle) {
        receipt.outcome = Outcome::Reply(Reply::Session(1));
    }
}

/// What the audit says, as a number.
fn judged(alloc: Global, node: &Node, receipts: &[Receipt]) -> Result<u64> {
    match audit(alloc, node, receipts) {
        Ok(()) => Ok(0),
        Err(AuditFault::Missing(place)) => Ok(1 << 32 | u64::from(place)),
        Err(AuditFault::Doubled(place)) => Ok(2 << 32 | u64::from(place)),
        Err(AuditFault::Differs(place)) => Ok(3 << 32 | u64::from(place)),
        Err(AuditFault::Memory) => anyhow::bail!("out of memory"),
    }
}
