//! Rows of numbers in a line.

ghost use Rattle.std.specs.Prelude.{◌≡◌, ◌<◌, ◌≤◌, ◌-◌, ◌&&◌, nat_le, length, map, filter_map, option_map, is_some};
ghost use Rattle.std.specs.Prelude.{Some, None, IfSome, IfOk};
ghost use Rattle.std.specs.List.{list_all, AllByRecursion};
ghost use Rattle.operator_lines.specs.declared.decision.Access as accesses;
ghost use Rattle.serde_json.specs.View.{view};
ghost use Rattle.operator_lines.specs.Rows as rows;
ghost use Rattle.operator_lines.specs.Rows.{most_asked};

use crate::decision::Access;
use crate::request::MOST_ASKED;
use quorum_sizes::{NodeName, Sizes};
use role_commands::Items;
use serde_json::Value;
use std::alloc::{AllocError, Global};

/// An access about which is asked: user, owner, operation and object.
#[tactic(auto, unfolding(crate::specs::Rows::asked_of))]
pub fn asked_of(sizes: &Sizes, row: &Value) -> Option<Access>
    ensures value { result ≡ rows.asked_of sizes.now (view row.now) }
    ensures node { IfSome result (λ asked. asked.owner < sizes.now.nodes) }
{
    match list_of(row)? {
        [user, owner, operation, object] => {
            let user = number_most(user, u64::from(u32::MAX))?;
            let owner = owner_of(sizes, owner)?;
            let operation = number_most(operation, u64::from(u16::MAX))?;
            let object = number_most(object, u64::from(u32::MAX))?;
            Some(Access {
                user: user as u32,
                owner,
                operation: operation as u16,
                object: object as u32,
            })
        }
        _ => None,
    }
}

/// The node of this index.
fn owner_of(sizes: &Sizes, value: &Value) -> Option<NodeName>
    ensures value { result ≡ rows.number_most (sizes.now.nodes - 1) (view value.now) }
    ensures node { IfSome result (λ owner. owner < sizes.now.nodes) }
{
    let index = number_most(value, u64::from(sizes.n() - 1))?;
    match sizes.name(index as u8) {
        Some(owner) => Some(owner),
        None => unreachable!(),
    }
}

/// The whole number, where it is no more than `most`.
fn number_most(value: &Value, most: u64) -> Option<u64>
    ensures value { result ≡ rows.number_most most (view value.now) }
    ensures within { IfSome result (λ n. n ≤ most) }
{
    let number = value.as_u64()?;
    if number <= most { Some(number) } else { None }
}

/// The items of a list.
fn list_of(value: &Value) -> Option<&[Value]>
    ensures { option_map (λ items. map view items.now) result ≡ rows.list_of (view value.now) }
{
    match value.as_array() {
        Some(items) => Some(items.as_slice()),
        None => None,
    }
}

/// From one to [`MOST_ASKED`] rows, each an access about which is asked.
pub fn rows_of<'a>(sizes: &Sizes, value: &'a Value) -> Option<&'a [Value]>
    ensures some { IfSome result (λ items. rows.rows_of sizes.now (view value.entry.now)
        ≡ Some (filter_map (λ row. rows.asked_of sizes.now (view row)) items.now)) }
    ensures none { result ≡ None → rows.rows_of sizes.now (view value.entry.now) ≡ None }
{
    let items = list_of(value)?;
    if are_few(sizes, items) {
        Some(items)
    } else {
        None
    }
}

/// Whether there are from one to [`MOST_ASKED`] items, each an access about which is asked.
fn are_few(sizes: &Sizes, items: &[Value]) -> bool
    ensures { result ≡ (nat_le 1 (length items.now) && (nat_le (length items.now) most_asked
        && list_all (λ row. is_some (rows.asked_of sizes.now (view row))) items.now)) }
{
    items.len() >= 1 && items.len() <= MOST_ASKED && are_asked(sizes, items)
}

/// Whether each item is an access about which is asked.
fn are_asked(sizes: &Sizes, items: &[Value]) -> bool
    ensures { result ≡ list_all (λ row. is_some (rows.asked_of sizes.now (view row))) items.now }
{
    items.iter().all(|row| asked_of(sizes, row).is_some())
}

/// The accesses about which is asked, of these rows.
///
/// # Errors
///
/// Only for want of memory.
pub fn all_asked(alloc: Global, sizes: &Sizes, items: &[Value]) -> Result<Items<Access>, AllocError>
    ensures value { IfOk result (λ asked. asked
        ≡ filter_map (λ row. rows.asked_of sizes.now (view row)) items.now) }
    ensures nodes { IfOk result (AllByRecursion (λ (a : accesses.Access). a.owner < sizes.now.nodes)) }
{
    let nodes = sizes.n();
    prove!(nodes > 0);
    let asked = each_asked(alloc, sizes, items)?;
    Ok(Items::new(asked))
}

fn each_asked(alloc: Global, sizes: &Sizes, items: &[Value]) -> Result<Vec<Access>, AllocError>
    ensures { IfOk result (λ asked. asked.items
        ≡ filter_map (λ row. rows.asked_of sizes.now (view row)) items.now) }
{
    items
        .iter()
        .filter_map(|row| asked_of(sizes, row))
        .collect(alloc)
}
