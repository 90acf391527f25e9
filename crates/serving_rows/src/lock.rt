//! Rows of a node behind a lock, which two seats share in one thread.

ghost use Rattle.std.specs.Prelude.{◌≡◌};

use crate::alone::node_of;
use crate::table::Table;
use node_lock::SharedNode;
use row_words::RowFault;
use std::alloc::Global;
use std::marker::Brand;
use std::sync::ledger::{Blank, Ledger};

/// The rows that were answered. A ledger has a name for the prover alone, which lasts for one call, so each row is
/// answered by a new node that has answered the rows before it.
#[derive(Drop)]
pub struct Lock {
    rows: Vec<String>,
}

/// `locked`: the only node of its cluster, which records 10 events and owns role 2; its seats are 0 and 1.
pub fn begin(alloc: Global) -> Lock {
    Lock {
        rows: Vec::new(alloc),
    }
}

pub fn answer(alloc: Global, lock: &mut Lock, line: &str) -> Result<String, RowFault> {
    let row = String::from_str(alloc, line)?;
    let text = answer_last::<Brand>(alloc, Blank::new(2), &lock.rows, &row)?;
    lock.rows.push(row)?;
    Ok(text)
}

/// Some numbers that tell whether anything has changed.
pub fn seen(lock: &Lock) -> [u64; 3] {
    [lock.rows.len() as u64, 0, 0]
}

/// What a new node answers to a row behind these.
fn answer_last<L: Ledger>(
    alloc: Global,
    blank: Blank,
    rows: &[String],
    last: &String,
) -> Result<String, RowFault>
    requires name { blank.name ≡ L.name }
    requires parts { (blank.parts ≡ L.parts) × (2 ≡ L.parts) }
{
    let (node, seats) = SharedNode::<L>::new(alloc, blank, node_of(alloc, 10, 2)?, 2)?;
    let mut table = Table::new(alloc, node, seats);
    for row in rows {
        let _text = table.answer(alloc, row)?;
    }
    table.answer(alloc, last)
}
