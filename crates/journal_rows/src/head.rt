//! The head and the key of a row's journal.

ghost use Rattle.std.specs.Prelude.{IfOk};
ghost use Rattle.batch_journal.specs.Heads.{IsHead};

use batch_journal::{Head, JournalFault, are_digits};
use row_words::{RowFault, Words};
use std::alloc::{AllocError, Global};

/// The head of node 2 of four in cluster 1.
pub fn first_head(alloc: Global) -> Result<Head, AllocError> {
    Ok(Head {
        cluster: 1,
        node: 2,
        nodes: 4,
        liars: 1,
        limit: 1000,
        roles: [129u8, 130, 131].to_vec(alloc)?,
    })
}

/// The head once more, if a journal may have it.
pub fn copy_of(alloc: Global, head: &Head) -> Result<Head, RowFault>
    ensures { IfOk result IsHead }
{
    let copy = Head {
        cluster: head.cluster,
        node: head.node,
        nodes: head.nodes,
        liars: head.liars,
        limit: head.limit,
        roles: head.roles.as_slice().to_vec(alloc)?,
    };
    if !are_digits(&copy.roles) || copy.roles.len() > 100_000 {
        return Err(RowFault::BadRow);
    }
    Ok(copy)
}

/// `FIELD VALUE`: another field of the head.
pub fn change(alloc: Global, head: &mut Head, words: &mut Words<'_>) -> Result<(), RowFault> {
    match words.word() {
        "cluster" => head.cluster = words.wide()?,
        "node" => head.node = words.byte()?,
        "nodes" => head.nodes = words.byte()?,
        "liars" => head.liars = words.byte()?,
        "limit" => head.limit = words.wide()?,
        "roles" => head.roles = words.bytes(alloc)?.as_slice().to_vec(alloc)?,
        _ => return Err(RowFault::BadRow),
    }
    Ok(())
}

/// The fault with this name.
pub fn fault_named(name: &str) -> Result<JournalFault, RowFault> {
    match name {
        "Unopened" => Ok(JournalFault::Unopened),
        "Full" => Ok(JournalFault::Full),
        "Device" => Ok(JournalFault::Device),
        "Memory" => Ok(JournalFault::Memory),
        _ => Err(RowFault::BadRow),
    }
}
