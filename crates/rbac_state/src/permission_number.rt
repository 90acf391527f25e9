//! Permissions as one number each, which has their order: a relation keeps it, and it is quicker to sort.

ghost use Rattle.std.specs.Prelude.{◌≡◌, ◌<◌, map, Contains, IfOk, refl};
ghost use Rattle.std.specs.Ordering.{eq_by_cmp, as_partial_cmp, nat_cmp};
ghost use Rattle.std.specs.Cmp.{partial_equiv_from_equiv, partial_order_from_agreeing_total};
ghost use Rattle.std.proofs.lemmas.Cmp.{nat_cmp_total, eq_by_cmp_equiv};
ghost use Rattle.rbac_state.specs.Policies.{permission_cmp};
ghost use Rattle.rbac_state.specs.Listings.{IsListing};
ghost use Rattle.rbac_state.specs.inside.PermissionNumbers.{permission_number, permission_of};
ghost use Rattle.rbac_state.specs.inside.Limits.{most_firsts};

use crate::listing::{ascending, ascends};
use std::alloc::{AllocError, Global};
use std::cmp::{Eq, Ord, Ordering, PartialEq, PartialOrd};
use std::marker::Model;

/// An operation and an object.
pub type Permission = (u16, u32);

/// So many permissions are sorted as they are, since two more lists would cost more than they save.
const SORTED_AS_THEY_ARE: usize = 64;

/// A permission's number.
#[derive(Clone, Copy, Drop)]
pub struct PermissionNumber {
    number: u64,
}

impl Model for PermissionNumber {
    ghost use Rattle.std.specs.Prelude.{ℕ, ◌<◌, refl};
    ghost use Rattle.rbac_state.specs.inside.Limits.{most_firsts};

    ghost Value = { ℕ };

    ghost view = { λ a. a.number };

    ghost invariant = { λ a. a.number < most_firsts };

    ghost inverse = { λ n. record { number = n } };

    ghost inverse_ok = { λ a h. refl };
}

impl PermissionNumber {
    /// The number, which must be a permission's.
    pub fn new(number: u64) -> Self
        requires { number < most_firsts }
        ensures { result ≡ number }
    {
        PermissionNumber { number }
    }

    /// The number of a permission.
    fn of(permission: Permission) -> Self
        ensures { permission_of result ≡ permission }
    {
        PermissionNumber::new(number_of(permission))
    }

    /// The permission of the number.
    pub fn permission(&self) -> Permission
        ensures { result ≡ permission_of self.now }
    {
        (
            (self.number / 4_294_967_296) as u16,
            (self.number % 4_294_967_296) as u32,
        )
    }
}

impl PartialEq for PermissionNumber {
    ghost eq = { eq_by_cmp nat_cmp };

    ghost laws = { partial_equiv_from_equiv (eq_by_cmp_equiv nat_cmp_total) };

    fn eq(&self, other: &PermissionNumber) -> bool {
        self.cmp(other).is_eq()
    }
}

impl Eq for PermissionNumber {
    ghost laws = { eq_by_cmp_equiv nat_cmp_total };
}

impl PartialOrd for PermissionNumber {
    ghost partial_cmp = { as_partial_cmp nat_cmp };

    ghost laws = { partial_order_from_agreeing_total nat_cmp nat_cmp_total (λ x y. refl) (λ x y. refl) };

    fn partial_cmp(&self, other: &PermissionNumber) -> Option<Ordering> {
        Some(self.cmp(other))
    }
}

impl Ord for PermissionNumber {
    ghost cmp = { nat_cmp };

    ghost total = { nat_cmp_total };

    ghost matches_partial_cmp = { λ x y. refl };

    ghost matches_eq = { λ x y. refl };

    fn cmp(&self, other: &PermissionNumber) -> Ordering {
        self.number.cmp(&other.number)
    }
}

/// The permissions in ascending order, each once. Where they are many, and not so already, it takes memory for as many
/// numbers, and then for as many permissions.
///
/// # Errors
///
/// Only for want of memory.
pub fn ascending_permissions(permissions: Vec<Permission>) -> Result<Vec<Permission>, AllocError>
    ensures { IfOk result (λ sorted. IsListing permission_cmp (Contains permissions.items) sorted.items) }
{
    if ascends(&permissions) {
        return Ok(permissions);
    }
    if permissions.len() <= SORTED_AS_THEY_ARE {
        return Ok(ascending(permissions));
    }
    sorted_as_numbers(*permissions.allocator(), permissions)
}

/// The permissions in ascending order, each once, by their numbers.
fn sorted_as_numbers(
    alloc: Global,
    permissions: Vec<Permission>,
) -> Result<Vec<Permission>, AllocError>
    ensures { IfOk result (λ sorted. IsListing permission_cmp (Contains permissions.items) sorted.items) }
{
    let numbers = to_numbers(alloc, permissions)?;
    from_numbers(alloc, &ascending(numbers))
}

/// Numbers of which each stands for its permission.
fn to_numbers(
    alloc: Global,
    permissions: Vec<Permission>,
) -> Result<Vec<PermissionNumber>, AllocError>
    ensures { IfOk result (λ numbers. map permission_of numbers.items ≡ permissions.items) }
{
    permissions
        .iter()
        .map(|permission| PermissionNumber::of(*permission))
        .collect(alloc)
}

fn from_numbers(alloc: Global, numbers: &[PermissionNumber]) -> Result<Vec<Permission>, AllocError>
    ensures { IfOk result (λ permissions. permissions.items ≡ map permission_of numbers.now) }
{
    numbers
        .iter()
        .map(|number| number.permission())
        .collect(alloc)
}

/// The number of a permission.
pub fn number_of(permission: Permission) -> u64
    ensures { result ≡ permission_number permission }
{
    u64::from(permission.0) * 4_294_967_296 + u64::from(permission.1)
}
