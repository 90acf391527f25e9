//! A role table, as a row spells it.

use quorum_sizes::Sizes;
use role_commands::numbers::{byte_number, narrow_number};
use role_commands::{RoleTable, TableFault};
use row_words::{RowFault, Words};
use std::alloc::Global;

/// A table of the roles that all words spell that are left, each as `ROLE:OWNER`.
pub fn table_of(alloc: Global, words: &mut Words<'_>, sizes: Sizes) -> Result<RoleTable, RowFault> {
    let mut table = RoleTable::new(alloc, sizes);
    for _ in 0..u16::MAX {
        if words.is_done() {
            return Ok(table);
        }
        add_role(&mut table, words.word())?;
    }
    Err(RowFault::BadRow)
}

fn add_role(table: &mut RoleTable, word: &str) -> Result<(), RowFault> {
    let (role, owner) = word.split_once(':').ok_or(RowFault::BadRow)?;
    let role = narrow_number(role).ok_or(RowFault::BadRow)?;
    let owner = byte_number(owner).ok_or(RowFault::BadRow)?;
    match table.add(role, owner) {
        Ok(()) => Ok(()),
        Err(TableFault::Memory) => Err(RowFault::Memory),
        Err(_) => Err(RowFault::BadRow),
    }
}
