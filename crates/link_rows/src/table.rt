//! Rows of a table of roles.

use quorum_sizes::Sizes;
use role_commands::{RoleTable, TableFault};
use row_words::{OrNone, Pair, RowFault, Words, text_of, yes_or_no};
use std::alloc::Global;

/// `table N F`: no roles.
pub fn begin(alloc: Global, words: &mut Words<'_>) -> Result<RoleTable, RowFault> {
    Ok(RoleTable::new(alloc, words.sizes()?))
}

pub fn answer(alloc: Global, table: &mut RoleTable, line: &str) -> Result<String, RowFault> {
    let mut words = Words::new(line);
    match words.word() {
        "add" => add(alloc, table, &mut words),
        "fill" => fill(alloc, table, &mut words),
        "copy" => {
            *table = table.copy(alloc)?;
            text_of(alloc, &"ok")
        }
        "owner" => owner(alloc, table, &mut words),
        "owned" => owned(alloc, table, &mut words),
        "sizes" => sizes(alloc, &table.sizes()),
        _ => Err(RowFault::BadRow),
    }
}

/// `add ROLE OWNER`
fn add(alloc: Global, table: &mut RoleTable, words: &mut Words<'_>) -> Result<String, RowFault> {
    let role = words.narrow()?;
    let owner = words.byte()?;
    added(alloc, table.add(role, owner))
}

fn added(alloc: Global, came: Result<(), TableFault>) -> Result<String, RowFault> {
    match came {
        Ok(()) => text_of(alloc, &"ok"),
        Err(TableFault::Memory) => Err(RowFault::Memory),
        Err(fault) => text_of(alloc, &fault),
    }
}

/// `fill FIRST END`: node 0 gets each of these roles. The first that is refused.
fn fill(alloc: Global, table: &mut RoleTable, words: &mut Words<'_>) -> Result<String, RowFault> {
    let first = words.narrow()?;
    for role in first..words.narrow()? {
        if table.add(role, 0).is_err() {
            return text_of(alloc, &role);
        }
    }
    text_of(alloc, &"ok")
}

/// `owner ROLE`
fn owner(alloc: Global, table: &RoleTable, words: &mut Words<'_>) -> Result<String, RowFault> {
    let owner = table.owner(words.narrow()?);
    text_of(alloc, &OrNone(owner.map(|name| name.index())))
}

/// `owned ROLE NODE`
fn owned(alloc: Global, table: &RoleTable, words: &mut Words<'_>) -> Result<String, RowFault> {
    let role = words.narrow()?;
    let node = words.node(&table.sizes())?;
    yes_or_no(alloc, table.is_owned_by(role, node))
}

fn sizes(alloc: Global, sizes: &Sizes) -> Result<String, RowFault> {
    text_of(alloc, &Pair(Pair("n", sizes.n()), Pair("f", sizes.f())))
}
