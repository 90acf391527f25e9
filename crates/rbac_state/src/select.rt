//! What the review functions look for, in the order in which it is kept.

ghost use Rattle.std.specs.Prelude.{◌≡◌, ◌<◌, ◌≤◌, ◌==◌, ◌&&◌, ◌++◌, length, drop, map, filter, find, IfOk, OnOk};
ghost use Rattle.std.specs.Ordering.{eq_by_cmp, nat_cmp};
ghost use Rattle.std.specs.List.{AllByRecursion, flat_map, list_any};
ghost use Rattle.std.specs.List.Sorted.{IsStrictlySortedBy};
ghost use Rattle.sorted_pairs.specs.Blocks.{items_in};
ghost use Rattle.rbac_state.specs.inside.PermissionNumbers.{permission_of};
ghost use Rattle.sorted_pairs.specs.KeyRanges.{IsFilled, IsKeyRange, pairs_in};
ghost use Rattle.sorted_pairs.specs.Pairs.{number_cmp};
ghost use Rattle.sorted_pairs.specs.Lists.{is_among};
ghost use Rattle.rbac_state.specs.inside.Limits.{most_firsts};
ghost use Rattle.rbac_state.specs.inside.Relations.{IsKeptBothWays, relates, CanBeAsked, is_granting};

use crate::limits::{PERMISSIONS, ROLES};
use crate::numbered::Numbered;
use crate::permission_number::Permission;
use crate::relation::{Grants, Users};
use sorted_pairs::key_range::{KeyRange, blocks_of};
use sorted_pairs::{Pair, beginning_with};
use std::alloc::{AllocError, Global};

/// So many roles are asked about by themselves, the first ones: to find the roles that have a permission takes longer
/// than to ask about one role, and pays where more are asked about.
const ROLES_ASKED_ALONE: usize = 4;

/// Where no more roles than so many have a permission, the user is asked about by itself for each of them.
const FEW_GRANTS: usize = 8;

/// What the second of each pair of this first stands for.
pub fn seconds<const LIMIT: u64, B: Numbered>(
    alloc: Global,
    blocks: &[Vec<Pair<LIMIT>>],
    first: u64,
) -> Result<Vec<B>, AllocError>
    requires few { LIMIT ≤ B.limit }
    requires ascending { IsStrictlySortedBy number_cmp (items_in blocks.now) }
    requires filled { AllByRecursion (λ b. 0 < length b.items) (drop 1 blocks.now) }
    ensures { IfOk result (λ seconds. seconds.items
        ≡ map (λ p. B.of p.1) (filter (λ p. eq_by_cmp nat_cmp first p.0) (items_in blocks.now))) }
{
    let mut seconds = Vec::new(alloc);
    add_seconds(&mut seconds, blocks, first)?;
    Ok(seconds)
}

/// Adds what the second of each pair of this first stands for.
fn add_seconds<const LIMIT: u64, B: Numbered>(
    seconds: &mut Vec<B>,
    blocks: &[Vec<Pair<LIMIT>>],
    first: u64,
) -> Result<(), AllocError>
    requires few { LIMIT ≤ B.limit }
    requires ascending { IsStrictlySortedBy number_cmp (items_in blocks.now) }
    requires filled { AllByRecursion (λ b. 0 < length b.items) (drop 1 blocks.now) }
    ensures { OnOk result (seconds.new.items ≡ seconds.old.items
        ++ map (λ p. B.of p.1) (filter (λ p. eq_by_cmp nat_cmp first p.0) (items_in blocks.now))) }
{
    let alike = blocks_of(blocks, first);
    for block in alike {
        add_each_second(seconds, beginning_with(block, first))?;
    }
    Ok(())
}

fn add_each_second<const LIMIT: u64, B: Numbered>(
    seconds: &mut Vec<B>,
    pairs: &[Pair<LIMIT>],
) -> Result<(), AllocError>
    requires few { LIMIT ≤ B.limit }
    ensures { OnOk result (seconds.new.items ≡ seconds.old.items ++ map (λ p. B.of p.1) pairs.now) }
{
    for pair in pairs {
        seconds.push(B::of_number(pair.second()))?;
    }
    Ok(())
}

/// The permissions of each of these roles.
pub fn permissions(
    alloc: Global,
    granted: &Grants,
    roles: &[u16],
) -> Result<Vec<Permission>, AllocError>
    requires { IsKeptBothWays granted.now }
    ensures { IfOk result (λ permissions. permissions.items ≡ flat_map
        (λ role. map (λ g. permission_of g.1)
        (filter (λ g. eq_by_cmp nat_cmp role g.0) (items_in granted.now.by_second.items))) roles.now) }
{
    let mut permissions = Vec::new(alloc);
    for role in roles {
        add_seconds(&mut permissions, granted.with_second(), *role as u64)?;
    }
    Ok(permissions)
}

/// The operations on the object that each of these roles may do.
pub fn operations(
    alloc: Global,
    granted: &Grants,
    roles: &[u16],
    object: u32,
) -> Result<Vec<u16>, AllocError>
    requires { IsKeptBothWays granted.now }
    ensures { IfOk result (λ operations. operations.items ≡ flat_map
        (λ role. map (λ g. (permission_of g.1).0) (filter (λ g. (permission_of g.1).1 == object)
        (filter (λ g. eq_by_cmp nat_cmp role g.0) (items_in granted.now.by_second.items)))) roles.now) }
{
    let mut operations = Vec::new(alloc);
    for role in roles {
        add_operations(&mut operations, granted.with_second(), *role, object)?;
    }
    Ok(operations)
}

/// Adds the operations on the object that this role may do.
fn add_operations(
    operations: &mut Vec<u16>,
    blocks: &[Vec<Pair<PERMISSIONS>>],
    role: u16,
    object: u32,
) -> Result<(), AllocError>
    requires ascending { IsStrictlySortedBy number_cmp (items_in blocks.now) }
    requires filled { AllByRecursion (λ b. 0 < length b.items) (drop 1 blocks.now) }
    ensures { OnOk result (operations.new.items ≡ operations.old.items ++ map (λ g. (permission_of g.1).0)
        (filter (λ g. (permission_of g.1).1 == object)
        (filter (λ g. eq_by_cmp nat_cmp role g.0) (items_in blocks.now)))) }
{
    let alike = blocks_of(blocks, role as u64);
    for block in alike {
        let grants = beginning_with(block, role as u64);
        add_each_operation(operations, grants, object)?;
    }
    Ok(())
}

fn add_each_operation(
    operations: &mut Vec<u16>,
    grants: &[Pair<PERMISSIONS>],
    object: u32,
) -> Result<(), AllocError>
    ensures { OnOk result (operations.new.items ≡ operations.old.items
        ++ map (λ g. (permission_of g.1).0) (filter (λ g. (permission_of g.1).1 == object) grants.now)) }
{
    for grant in grants {
        let permission = Permission::of_number(grant.second());
        if permission.1 == object {
            operations.push(permission.0)?;
        }
    }
    Ok(())
}

/// The first of these roles that the user has and that has the permission of this number.
pub fn first_granting(
    assigned: &Users,
    granted: &Grants,
    user: u64,
    roles: &[u16],
    permission: u64,
) -> Option<u16>
    requires user { user < most_firsts }
    requires permission { permission < most_firsts }
    requires users { IsKeptBothWays assigned.now }
    requires permissions { IsKeptBothWays granted.now }
    ensures { result ≡ find (λ role. relates assigned.now user role
        && relates granted.now permission role) roles.now }
{
    let (few, rest) = roles.split_at(asked_alone(roles.len()));
    match first_of_few(assigned, granted, user, few, permission) {
        Some(role) => Some(role),
        None => first_of_many(assigned, granted, user, rest, permission),
    }
}

/// So many of these roles are asked about by themselves. To find the roles that have the permission takes as long as
/// asking about two of them, so that it is worth it from seven roles on.
fn asked_alone(roles: usize) -> usize
    ensures { result ≤ roles }
{
    if roles <= ROLES_ASKED_ALONE + 2 {
        roles
    } else {
        ROLES_ASKED_ALONE
    }
}

/// As `first_granting`: each role is asked about by itself.
fn first_of_few(
    assigned: &Users,
    granted: &Grants,
    user: u64,
    roles: &[u16],
    permission: u64,
) -> Option<u16>
    requires { CanBeAsked assigned.now granted.now user permission }
    ensures { result ≡ find (is_granting assigned.now granted.now user permission) roles.now }
{
    for role in roles {
        if granted.has(permission, *role) && assigned.has(user, *role) {
            return Some(*role);
        }
    }
    None
}

/// As `first_granting`: the roles that have the permission are found once for all of these.
fn first_of_many(
    assigned: &Users,
    granted: &Grants,
    user: u64,
    roles: &[u16],
    permission: u64,
) -> Option<u16>
    requires { CanBeAsked assigned.now granted.now user permission }
    ensures { result ≡ find (is_granting assigned.now granted.now user permission) roles.now }
{
    if roles.is_empty() {
        return None;
    }
    let grants = granted.of_first(permission);
    if grants.is_empty() {
        return None;
    }
    if are_few(&grants) {
        first_of_granted(assigned, granted, user, roles, permission, &grants)
    } else {
        first_of_both(assigned, granted, user, roles, permission, &grants)
    }
}

/// Whether these are few pairs. It only chooses a way: to find the user's roles takes as long as to ask about some.
fn are_few(grants: &KeyRange<'_, ROLES>) -> bool {
    match grants {
        KeyRange::Part(pairs) => pairs.len() <= FEW_GRANTS,
        KeyRange::Blocks(_) => false,
    }
}

/// As `first_of_many`: the user is asked about by itself for each role that has the permission.
fn first_of_granted(
    assigned: &Users,
    granted: &Grants,
    user: u64,
    roles: &[u16],
    permission: u64,
    grants: &KeyRange<'_, ROLES>,
) -> Option<u16>
    requires asked { CanBeAsked assigned.now granted.now user permission }
    requires grants { IsKeyRange permission (items_in granted.now.by_first.items) grants.now }
    ensures { result ≡ find (is_granting assigned.now granted.now user permission) roles.now }
{
    for role in roles {
        if is_there(grants, permission, *role) && assigned.has(user, *role) {
            return Some(*role);
        }
    }
    None
}

/// As `first_of_many`: the user's roles are found once too.
fn first_of_both(
    assigned: &Users,
    granted: &Grants,
    user: u64,
    roles: &[u16],
    permission: u64,
    grants: &KeyRange<'_, ROLES>,
) -> Option<u16>
    requires asked { CanBeAsked assigned.now granted.now user permission }
    requires grants { IsKeyRange permission (items_in granted.now.by_first.items) grants.now }
    ensures { result ≡ find (is_granting assigned.now granted.now user permission) roles.now }
{
    let mine = assigned.of_first(user);
    for role in roles {
        if is_there(&mine, user, *role) && is_there(grants, permission, *role) {
            return Some(*role);
        }
    }
    None
}

/// Whether the pairs that were found have this one.
fn is_there(found: &KeyRange<'_, ROLES>, first: u64, role: u16) -> bool
    requires below { first < most_firsts }
    requires ascending { IsStrictlySortedBy number_cmp (pairs_in found.now) }
    requires filled { IsFilled found.now }
    ensures { result ≡ is_among number_cmp (pairs_in found.now) (first, role) }
{
    found.has(&Pair::new(first, role as u64))
}

/// Whether the user has one of these roles. The user's roles are found once for all but the first of these.
pub fn has_one_of(assigned: &Users, user: u64, roles: &[u16]) -> bool
    requires user { user < most_firsts }
    requires users { IsKeptBothWays assigned.now }
    ensures { result ≡ list_any (relates assigned.now user) roles.now }
{
    let (few, rest) = roles.split_at(asked_alone(roles.len()));
    has_one_of_few(assigned, user, few) || has_one_of_many(assigned, user, rest)
}

/// As `has_one_of`: each role is asked about by itself.
fn has_one_of_few(assigned: &Users, user: u64, roles: &[u16]) -> bool
    requires user { user < most_firsts }
    requires users { IsKeptBothWays assigned.now }
    ensures { result ≡ list_any (relates assigned.now user) roles.now }
{
    roles.iter().any(|role| assigned.has(user, *role))
}

/// As `has_one_of`: the user's roles are found once for all of these.
fn has_one_of_many(assigned: &Users, user: u64, roles: &[u16]) -> bool
    requires user { user < most_firsts }
    requires users { IsKeptBothWays assigned.now }
    ensures { result ≡ list_any (relates assigned.now user) roles.now }
{
    if roles.is_empty() {
        return false;
    }
    let of_user = assigned.of_first(user);
    if of_user.is_empty() {
        return false;
    }
    for role in roles {
        if of_user.has(&Pair::new(user, *role as u64)) {
            return true;
        }
    }
    false
}
