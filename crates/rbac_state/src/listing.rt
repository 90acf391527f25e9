//! Lists of a set: ascending, each member once.

ghost use Rattle.std.specs.Prelude.{◌≡◌, true, Contains};
ghost use Rattle.std.specs.List.Sorted.{IsStrictlySortedBy};
ghost use Rattle.std.specs.declared.cmp.Ordering.TheVariants.{Equal};
ghost use Rattle.rbac_state.specs.Listings.{IsListing};

use std::cmp::Ord;

/// The items in ascending order, each once. It takes no memory.
pub fn ascending<T: Ord + Drop>(mut items: Vec<T>) -> Vec<T>
    requires { (x y : T) → T.cmp x y ≡ Equal → x ≡ y }
    ensures { IsListing T.cmp (Contains items.items) result.items }
{
    if ascends(&items) {
        return items;
    }
    items.sort_unstable();
    items.dedup();
    items
}

/// Whether each item is below the next one.
pub fn ascends<T: Ord>(items: &[T]) -> bool
    ensures yes { result ≡ true → IsStrictlySortedBy T.cmp items.now }
    ensures no { IsStrictlySortedBy T.cmp items.now → result ≡ true }
{
    let mut place = 1;
    while place < items.len() {
        if items[place - 1].cmp(&items[place]).is_ge() {
            return false;
        }
        place += 1;
    }
    true
}
