//! Lists in ascending order without repeats: a look-up is a search, or a look at each of a few.

ghost use Rattle.std.specs.Prelude.{◌≡◌, ◌<◌, ◌≤◌, ◌+◌, ◌||◌, ◌&&◌, All, false, true, not, filter, insert};
ghost use Rattle.std.specs.Prelude.{vec_len, vec_capacity};
ghost use Rattle.std.specs.List.Sorted.{IsStrictlySortedBy};
ghost use Rattle.std.specs.Ordering.{eq_by_cmp, is_eq, is_lt, nat_cmp};
ghost use Rattle.sorted_pairs.specs.Pairs.{number_cmp};
ghost use Rattle.sorted_pairs.specs.Lists.{is_among};

use crate::pair::Pair;
use crate::search::{Predicate, find, partition_point, partition_point_near};
use std::cmp::Ord;

/// So many items are quicker looked at one by one.
const QUICKER_ONE_BY_ONE: usize = 8;

/// Whether the item is in the list.
pub fn has<T: Ord>(items: &[T], item: &T) -> bool
    requires { IsStrictlySortedBy T.cmp items.now }
    ensures { result ≡ is_among T.cmp items.now item.now }
{
    if items.len() <= QUICKER_ONE_BY_ONE {
        is_one_of(items, item)
    } else {
        find(items, item).is_ok()
    }
}

/// As `has`, by a look at each.
fn is_one_of<T: Ord>(items: &[T], item: &T) -> bool
    ensures { result ≡ is_among T.cmp items.now item.now }
{
    for one in items {
        if item.cmp(one).is_eq() {
            return true;
        }
    }
    false
}

/// Puts the item in its place, unless it is there.
pub fn put<T: Ord + Drop>(items: &mut Vec<T>, item: T)
    requires room { vec_len items.old < vec_capacity items.old }
    requires ascending { IsStrictlySortedBy T.cmp items.old.items }
    ensures ascending { IsStrictlySortedBy T.cmp items.new.items }
    ensures members { (q : T) →
        is_among T.cmp items.new.items q ≡ (eq_by_cmp T.cmp q item || is_among T.cmp items.old.items q) }
    ensures grows { vec_len items.old ≤ vec_len items.new }
    ensures by_one { vec_len items.new ≤ vec_len items.old + 1 }
    ensures capacity { vec_capacity items.old ≤ vec_capacity items.new }
{
    if let Err(place) = find(items, &item) {
        insert_within_capacity(items, place, item);
    }
}

/// Puts the item at this place. There must be room for it.
fn insert_within_capacity<T: Drop>(items: &mut Vec<T>, place: usize, item: T)
    requires place { place ≤ vec_len items.old }
    requires room { vec_len items.old < vec_capacity items.old }
    ensures items { items.new.items ≡ insert items.old.items place item }
    ensures len { vec_len items.new ≡ vec_len items.old + 1 }
    ensures capacity { vec_capacity items.old ≤ vec_capacity items.new }
{
    let _within = items.insert(place, item);
}

/// Takes the item away, if it is there.
pub fn take_away<T: Ord + Drop>(items: &mut Vec<T>, item: &T)
    requires { IsStrictlySortedBy T.cmp items.old.items }
    ensures ascending { IsStrictlySortedBy T.cmp items.new.items }
    ensures members { (q : T) →
        is_among T.cmp items.new.items q ≡ (not (eq_by_cmp T.cmp q item.now) && is_among T.cmp items.old.items q) }
    ensures shrinks { vec_len items.new ≤ vec_len items.old }
    ensures capacity { vec_capacity items.old ≤ vec_capacity items.new }
{
    if let Ok(place) = find(items, item) {
        let _gone = items.remove(place);
    }
}

/// Whether a pair may be of this second. It only chooses a way, of two with one result: all pairs are looked at, since
/// a look that ends at the first such pair takes longer.
fn may_have_second<const LIMIT: u64>(pairs: &[Pair<LIMIT>], second: u64) -> bool
    ensures { result ≡ false → All (λ p. not (eq_by_cmp nat_cmp p.1 second) ≡ true) pairs.now }
{
    let mut found = false;
    for pair in pairs {
        found |= pair.second().cmp(&second).is_eq();
    }
    found
}

/// Takes away all pairs of this second.
pub fn take_away_second<const LIMIT: u64>(pairs: &mut Vec<Pair<LIMIT>>, second: u64)
    ensures items { pairs.new.items ≡ filter (λ p. not (eq_by_cmp nat_cmp p.1 second)) pairs.old.items }
    ensures shrinks { vec_len pairs.new ≤ vec_len pairs.old }
    ensures capacity { vec_capacity pairs.old ≤ vec_capacity pairs.new }
{
    if !may_have_second(pairs, second) {
        return;
    }
    pairs.retain(
        |pair: &Pair<LIMIT>| -> bool
            ensures { result ≡ not (eq_by_cmp nat_cmp pair.now.1 second) }
        { pair.second().cmp(&second).is_ne() },
    );
}

/// Takes away all pairs of this first.
pub fn take_away_first<const LIMIT: u64>(pairs: &mut Vec<Pair<LIMIT>>, first: u64)
    ensures items { pairs.new.items ≡ filter (λ p. not (eq_by_cmp nat_cmp p.0 first)) pairs.old.items }
    ensures shrinks { vec_len pairs.new ≤ vec_len pairs.old }
    ensures capacity { vec_capacity pairs.old ≤ vec_capacity pairs.new }
{
    pairs.retain(
        |pair: &Pair<LIMIT>| -> bool
            ensures { result ≡ not (eq_by_cmp nat_cmp pair.now.0 first) }
        { pair.first().cmp(&first).is_ne() },
    );
}

/// Pairs of a first below this one pass.
#[derive(Drop)]
struct FirstBelow(u64);

impl<const LIMIT: u64> Predicate<Pair<LIMIT>> for FirstBelow {
    ghost passes = { λ b p. is_lt (nat_cmp p.0 b.0) };

    #[inline(always)]
    fn passes(&self, pair: &Pair<LIMIT>) -> bool {
        pair.first().cmp(&self.0).is_lt()
    }
}

/// Pairs of this first pass.
#[derive(Drop)]
struct FirstIs(u64);

impl<const LIMIT: u64> Predicate<Pair<LIMIT>> for FirstIs {
    ghost passes = { λ b p. is_eq (nat_cmp p.0 b.0) };

    #[inline(always)]
    fn passes(&self, pair: &Pair<LIMIT>) -> bool {
        pair.first().cmp(&self.0).is_eq()
    }
}

/// The pairs that begin with this, which are one part of the list. It stands alone, as `find` does.
#[inline(never)]
pub fn beginning_with<const LIMIT: u64>(pairs: &[Pair<LIMIT>], first: u64) -> &[Pair<LIMIT>]
    requires ascending { IsStrictlySortedBy number_cmp pairs.now }
    ensures { result.now ≡ filter (λ p. eq_by_cmp nat_cmp first p.0) pairs.now }
{
    let start = partition_point(pairs, &FirstBelow(first));
    let rest = &pairs[start..];
    let count = partition_point_near(rest, &FirstIs(first));
    &rest[..count]
}
