//! The head of a journal: whose it is.

ghost use Rattle.std.specs.Prelude.{◌≡◌, ◌≤◌, length, IfOk, OnOk};
ghost use Rattle.batch_journal.specs.Faults.{IsOfBytes};
ghost use Rattle.batch_journal.specs.Heads.{IsHead, opened_head, head_of, other_head};

use crate::digits::push_digits;
use crate::fault::JournalFault;
use crate::sealing::push_seal;
use std::alloc::{AllocError, Global};

/// Whose a journal is. It is written before the first batch, and each later opening names it anew.
#[derive(Drop, Debug)]
pub struct Head {
    /// The number of the cluster.
    pub cluster: u32,
    /// The node.
    pub node: u8,
    /// How many nodes there are.
    pub nodes: u8,
    /// How many of them may lie.
    pub liars: u8,
    /// How many events the node may record.
    pub limit: u32,
    /// The roles with their owners, as digits: 100,000 at most.
    pub roles: Vec<u8>,
}

/// The head before its seal.
fn opened(alloc: Global, head: &Head) -> Result<Vec<u8>, AllocError>
    ensures { IfOk result (λ bytes. bytes.items ≡ opened_head head.now) }
{
    let mut bytes = Vec::new(alloc);
    bytes.push(249)?;
    push_digits(&mut bytes, 1, 1)?;
    push_digits(&mut bytes, 1, 1)?;
    push_digits(&mut bytes, 2, 0)?;
    push_digits(&mut bytes, 5, u64::from(head.cluster))?;
    push_digits(&mut bytes, 2, u64::from(head.node))?;
    push_digits(&mut bytes, 2, u64::from(head.nodes))?;
    push_digits(&mut bytes, 2, u64::from(head.liars))?;
    push_digits(&mut bytes, 3, head.roles.len() as u64)?;
    bytes.extend_from_slice(&head.roles)?;
    push_digits(&mut bytes, 5, u64::from(head.limit))?;
    push_digits(&mut bytes, 3, 60 + head.roles.len() as u64)?;
    Ok(bytes)
}

/// The head as it stands in the file.
pub(crate) fn head_bytes(alloc: Global, key: &[u8; 32], head: &Head) -> Result<Vec<u8>, AllocError>
    requires { length head.now.roles.items ≤ 100000 }
    ensures { IfOk result (λ bytes. bytes.items ≡ head_of key.now head.now) }
{
    let mut bytes = opened(alloc, head)?;
    push_seal(&mut bytes, key)?;
    Ok(bytes)
}

/// What is wrong where the first byte that differs from this head stands at this place.
pub(crate) fn head_fault(head: &Head, at: usize) -> JournalFault
    requires { length head.now.roles.items ≤ 100000 }
    ensures value { result ≡ other_head head.now at }
    ensures which { IsOfBytes result }
{
    let roles = head.roles.len();
    if at < 1 {
        JournalFault::NotAJournal
    } else if at < 2 {
        JournalFault::OtherVersion
    } else if at < 3 {
        JournalFault::OtherKind
    } else if at < 5 {
        JournalFault::OtherGeneration
    } else if at < 10 {
        JournalFault::OtherCluster
    } else if at < 12 {
        JournalFault::OtherNode
    } else if at < 16 {
        JournalFault::OtherSizes
    } else if at < 19 + roles {
        JournalFault::OtherRoles
    } else if at < 24 + roles {
        JournalFault::OtherLimit
    } else if at < 27 + roles {
        JournalFault::OtherLength
    } else {
        JournalFault::OtherKey
    }
}
