//! Rows of a policy of many pairs, and of its text.

use quorum_sizes::NodeName;
use rbac_state::Policy;
use role_commands::Command;
use row_words::{RowFault, Words, text_of};
use std::alloc::Global;

pub fn answer(
    alloc: Global,
    policy: &mut Policy,
    name: &str,
    words: &mut Words<'_>,
) -> Result<String, RowFault> {
    match name {
        "text" => Ok(format!(in alloc; "{policy:?}")?),
        "text-pretty" => Ok(format!(in alloc; "{policy:#?}")?),
        "text-signed" => Ok(format!(in alloc; "{policy:+06?}")?),
        _ => {
            let owner = policy.roles().sizes().name(0).ok_or(RowFault::BadRow)?;
            fill(policy, owner, name, words)?;
            text_of(alloc, &"ok")
        }
    }
}

fn fill(
    policy: &mut Policy,
    owner: NodeName,
    name: &str,
    words: &mut Words<'_>,
) -> Result<(), RowFault> {
    match name {
        "draw" => draw(policy, owner, words.wide()?),
        "pairs" => pairs(policy, owner, words),
        "unpair" => unpair(policy, owner, words),
        "scatter" => scatter(policy, owner, words),
        "scatter-grants" => scatter_grants(policy, owner, words),
        _ => Err(RowFault::BadRow),
    }
}

/// Room is made, and the owner's command applied.
fn put(policy: &mut Policy, owner: NodeName, command: Command) -> Result<(), RowFault> {
    policy.make_room()?;
    policy.apply(owner, command);
    Ok(())
}

/// `draw COUNT`: so many assignments, and then so many grants, of numbers that come again, and of the largest.
fn draw(policy: &mut Policy, owner: NodeName, count: u32) -> Result<(), RowFault> {
    for number in 0..count {
        let (user, role) = drawn(number);
        put(policy, owner, Command::Assign { user, role })?;
    }
    for number in 0..count {
        let (object, role) = drawn(number);
        let operation = if drawn_number(number) % 7 == 0 {
            u16::MAX
        } else {
            5
        };
        put(
            policy,
            owner,
            Command::Grant {
                role,
                operation,
                object,
            },
        )?;
    }
    Ok(())
}

/// The high half of the number's product with 2,654,435,761.
fn drawn_number(number: u32) -> u32 {
    number.wrapping_mul(2_654_435_761) >> 16
}

fn drawn(number: u32) -> (u32, u16) {
    let drawn = drawn_number(number);
    let role = if drawn % 3 == 0 { 65_535 } else { 2 };
    (if drawn % 5 == 0 { u32::MAX } else { drawn % 97 }, role)
}

/// `pairs COUNT SPLIT`: each user below COUNT gets a role, and then each role may do operation 0 on as many objects: role
/// 2 below SPLIT, and role 65,535 from there on.
fn pairs(policy: &mut Policy, owner: NodeName, words: &mut Words<'_>) -> Result<(), RowFault> {
    let (count, split) = (words.wide()?, words.wide()?);
    for user in 0..count {
        let role = if user < split { 2 } else { 65_535 };
        put(policy, owner, Command::Assign { user, role })?;
    }
    for object in 0..count {
        let role = if object < split { 2 } else { 65_535 };
        let operation = 0;
        put(
            policy,
            owner,
            Command::Grant {
                role,
                operation,
                object,
            },
        )?;
    }
    Ok(())
}

/// `unpair FIRST END ROLE`: takes the role's pairs of these numbers away, each assignment and then the grant.
fn unpair(policy: &mut Policy, owner: NodeName, words: &mut Words<'_>) -> Result<(), RowFault> {
    let (first, end) = (words.wide()?, words.wide()?);
    let role = words.narrow()?;
    for number in first..end {
        put(policy, owner, Command::Deassign { user: number, role })?;
        put(
            policy,
            owner,
            Command::Revoke {
                role,
                operation: 0,
                object: number,
            },
        )?;
    }
    Ok(())
}

/// Numbers below 65,536 in no order, all different for as many `k`.
fn scattered(k: u32) -> u32 {
    k.wrapping_mul(40_503) % 65_536
}

/// `scatter assign ROLE FIRST END STEP`: the scattered users of these numbers get the role; `deassign` takes it away.
fn scatter(policy: &mut Policy, owner: NodeName, words: &mut Words<'_>) -> Result<(), RowFault> {
    let is_assigned = words.word() == "assign";
    let role = words.narrow()?;
    let (first, end, step) = (words.wide()?, words.wide()?, words.wide()?);
    for k in first..end {
        if k.wrapping_sub(first).checked_rem(step) == Some(0) {
            let user = scattered(k);
            let command = if is_assigned {
                Command::Assign { user, role }
            } else {
                Command::Deassign { user, role }
            };
            put(policy, owner, command)?;
        }
    }
    Ok(())
}

/// `scatter-grants ROLE FIRST END STEP ADDED`: the role may do operation 65,535 or 4, each third and the others, on the
/// scattered objects of these numbers, with ADDED to each.
fn scatter_grants(
    policy: &mut Policy,
    owner: NodeName,
    words: &mut Words<'_>,
) -> Result<(), RowFault> {
    let role = words.narrow()?;
    let (first, end, step) = (words.wide()?, words.wide()?, words.wide()?);
    let added = words.wide()?;
    for k in first..end {
        if k.wrapping_sub(first).checked_rem(step) == Some(0) {
            put(
                policy,
                owner,
                Command::Grant {
                    role,
                    operation: if k % 3 == 0 { 65_535 } else { 4 },
                    object: scattered(k).wrapping_add(added),
                },
            )?;
        }
    }
    Ok(())
}
