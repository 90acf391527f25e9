//! Rows of a policy.

use crate::many;
use crate::roles::table_of;
use rbac_state::Policy;
use row_words::{RowFault, Words, list_text, permissions_text, text_of, yes_or_no};
use std::alloc::Global;

/// `policy N F ROLE:OWNER ..`
pub fn begin(alloc: Global, words: &mut Words<'_>) -> Result<Policy, RowFault> {
    let sizes = words.sizes()?;
    Ok(Policy::new(alloc, table_of(alloc, words, sizes)?))
}

pub fn answer(alloc: Global, policy: &mut Policy, line: &str) -> Result<String, RowFault> {
    let mut words = Words::new(line);
    let name = words.word();
    match name {
        "as" => apply(alloc, policy, &mut words),
        "room" => room(alloc, policy),
        "assigned" => assigned(alloc, policy, &mut words),
        "granted" => granted(alloc, policy, &mut words),
        "first" => first(alloc, policy, &mut words),
        "text"
        | "text-pretty"
        | "text-signed"
        | "draw"
        | "pairs"
        | "unpair"
        | "scatter"
        | "scatter-grants" => { many::answer(alloc, policy, name, &mut words) }
        _ => list(alloc, policy, name, &mut words),
    }
}

/// `as NODE COMMAND`: room is made, and the node's command applied.
fn apply(alloc: Global, policy: &mut Policy, words: &mut Words<'_>) -> Result<String, RowFault> {
    let node = words.node(&policy.roles().sizes())?;
    let command = words.command()?;
    policy.make_room()?;
    policy.apply(node, command);
    text_of(alloc, &"ok")
}

/// `room`: how many commands can be applied before room is made.
fn room(alloc: Global, policy: &Policy) -> Result<String, RowFault> {
    text_of(alloc, &policy.room())
}

/// `assigned USER ROLE`
fn assigned(alloc: Global, policy: &Policy, words: &mut Words<'_>) -> Result<String, RowFault> {
    let user = words.wide()?;
    let role = words.narrow()?;
    yes_or_no(alloc, policy.is_assigned(user, role))
}

/// `granted ROLE OPERATION OBJECT`
fn granted(alloc: Global, policy: &Policy, words: &mut Words<'_>) -> Result<String, RowFault> {
    let role = words.narrow()?;
    let operation = words.narrow()?;
    let object = words.wide()?;
    yes_or_no(alloc, policy.is_granted(role, operation, object))
}

/// `first USER OPERATION OBJECT ROLE ..`: the first of these roles that grants.
fn first(alloc: Global, policy: &Policy, words: &mut Words<'_>) -> Result<String, RowFault> {
    let user = words.wide()?;
    let operation = words.narrow()?;
    let object = words.wide()?;
    let roles = roles_of(alloc, words)?;
    match policy.first_granting(user, &roles, operation, object) {
        Some(role) => text_of(alloc, &role),
        None => text_of(alloc, &"none"),
    }
}

/// The roles that all words spell that are left.
pub fn roles_of(alloc: Global, words: &mut Words<'_>) -> Result<Vec<u16>, RowFault> {
    let mut roles = Vec::new(alloc);
    for _ in 0..u16::MAX {
        if words.is_done() {
            return Ok(roles);
        }
        roles.push(words.narrow()?)?;
    }
    Err(RowFault::BadRow)
}

fn list(
    alloc: Global,
    policy: &Policy,
    name: &str,
    words: &mut Words<'_>,
) -> Result<String, RowFault> {
    match name {
        "users" => users(alloc, policy, words),
        "roles" => roles(alloc, policy, words),
        "permissions" => permissions(alloc, policy, words),
        "user-permissions" => user_permissions(alloc, policy, words),
        "permissions-of" => permissions_of(alloc, policy, words),
        "operations" => operations(alloc, policy, words),
        "user-operations" => user_operations(alloc, policy, words),
        _ => Err(RowFault::BadRow),
    }
}

/// `users ROLE`
fn users(alloc: Global, policy: &Policy, words: &mut Words<'_>) -> Result<String, RowFault> {
    let users = policy.assigned_users(words.narrow()?)?;
    list_text(alloc, &users)
}

/// `roles USER`
fn roles(alloc: Global, policy: &Policy, words: &mut Words<'_>) -> Result<String, RowFault> {
    let roles = policy.assigned_roles(words.wide()?)?;
    list_text(alloc, &roles)
}

/// `permissions ROLE`
fn permissions(alloc: Global, policy: &Policy, words: &mut Words<'_>) -> Result<String, RowFault> {
    let permissions = policy.role_permissions(words.narrow()?)?;
    permissions_text(alloc, &permissions)
}

/// `user-permissions USER`
fn user_permissions(
    alloc: Global,
    policy: &Policy,
    words: &mut Words<'_>,
) -> Result<String, RowFault> {
    let permissions = policy.user_permissions(words.wide()?)?;
    permissions_text(alloc, &permissions)
}

/// `permissions-of ROLE ..`
fn permissions_of(
    alloc: Global,
    policy: &Policy,
    words: &mut Words<'_>,
) -> Result<String, RowFault> {
    let roles = roles_of(alloc, words)?;
    let permissions = policy.permissions_of(&roles)?;
    permissions_text(alloc, &permissions)
}

/// `operations ROLE OBJECT`
fn operations(alloc: Global, policy: &Policy, words: &mut Words<'_>) -> Result<String, RowFault> {
    let role = words.narrow()?;
    let operations = policy.role_operations(role, words.wide()?)?;
    list_text(alloc, &operations)
}

/// `user-operations USER OBJECT`
fn user_operations(
    alloc: Global,
    policy: &Policy,
    words: &mut Words<'_>,
) -> Result<String, RowFault> {
    let user = words.wide()?;
    let operations = policy.user_operations(user, words.wide()?)?;
    list_text(alloc, &operations)
}

/// Room may grow where memory is wanting; what is assigned and granted, as far as it is looked at, may not.
pub fn seen(policy: &Policy) -> [u64; 3] {
    [
        u64::from(policy.is_assigned(7, 2)),
        u64::from(policy.is_granted(2, 5, 9)),
        0,
    ]
}
