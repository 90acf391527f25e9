//! The head of a node's journal.

ghost use Rattle.std.specs.Prelude.{◌≡◌, ◌≤◌, ◌++◌, IfOk, OnOk, length};
ghost use Rattle.batch_journal.specs.Digits.{AreDigits};
ghost use Rattle.batch_journal.specs.Heads.{IsHead};
ghost use Rattle.role_commands.specs.Tables.{IsTable};
ghost use Rattle.kept_node.specs.NodeHeads.{IsHeadOf, role_digits, roles_digits as roles_digits_of};

use batch_journal::{Head, push_digits};
use quorum_sizes::NodeName;
use role_commands::RoleTable;
use role_node::Config;
use std::alloc::{AllocError, Global};

/// The head of the journal of a node that is told this at its start.
///
/// # Errors
///
/// Only for want of memory.
pub fn head_of(alloc: Global, config: &Config, me: NodeName) -> Result<Head, AllocError>
    ensures names { IfOk result (IsHeadOf config.now me) }
    ensures head { IfOk result IsHead }
{
    let roles = roles_digits(alloc, config.roles())?;
    let sizes = config.roles().sizes();
    Ok(Head {
        cluster: config.cluster(),
        node: me.index(),
        nodes: sizes.n(),
        liars: sizes.f(),
        limit: config.limit(),
        roles,
    })
}

/// The roles with their owners, the lowest role first.
#[tactic(auto, unfolding(crate::specs::NodeHeads::roles_digits))]
fn roles_digits(alloc: Global, roles: &RoleTable) -> Result<Vec<u8>, AllocError>
    ensures value { IfOk result (λ bytes. bytes.items ≡ roles_digits_of roles.now) }
    ensures digits { IfOk result (λ bytes. AreDigits bytes.items) }
    ensures few { IfOk result (λ bytes. IsTable roles.now → length bytes.items ≤ 100000) }
{
    let mut bytes = Vec::new(alloc);
    for role in 0..65_536u32 {
        push_role(&mut bytes, role as u16, roles.owner(role as u16))?;
    }
    Ok(bytes)
}

/// Appends a role and its owner, if it has one.
fn push_role(bytes: &mut Vec<u8>, role: u16, owner: Option<NodeName>) -> Result<(), AllocError>
    ensures { OnOk result (bytes.new.items ≡ bytes.old.items ++ role_digits role owner) }
{
    if let Some(owner) = owner {
        push_digits(bytes, 3, u64::from(role))?;
        push_digits(bytes, 2, u64::from(owner.index()))?;
    }
    Ok(())
}
