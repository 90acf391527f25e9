//! Searches in ascending lists, for a processor that waits for memory: a step looks at several items, which come
//! together, and chooses by a number, since a branch would be guessed wrong each second time. Among few items, which
//! come with one look, a step looks at one.

ghost use Rattle.std.specs.Prelude.{◌≡◌, Bool, true, false, ◌+◌, ◌-◌, ◌/◌, ◌<◌, ◌≤◌, length, IfOk};
ghost use Rattle.std.specs.List.{HoldsAt};
ghost use Rattle.std.specs.List.Sorted.{IsStrictlySortedBy, IsPartitionedBy, IsPartitionPoint};
ghost use Rattle.std.specs.List.Sorted.{IsSearchInRange, IsBinarySearchResult};
ghost use Rattle.std.specs.Ordering.{is_lt};
ghost use Rattle.std.specs.declared.cmp.Ordering.TheVariants.{Equal};
ghost use Rattle.sorted_pairs.specs.inside.Searches.{IsSearching, IsPlace};

use std::cmp::Ord;

/// Tells what is before the place that is looked for: each item there passes, and none behind it. It is a trait and no
/// closure, so that a contract can say what passes.
pub trait Predicate<T> {
    ghost passes: { Self → T → Bool };

    fn passes(&self, item: &T) -> bool
        ensures { result ≡ passes self.now item.now };
}

/// Items below this one pass.
#[derive(Drop)]
struct Below<'a, T>(&'a T);

impl<'a, T: Ord> Predicate<T> for Below<'a, T> {
    ghost passes = { λ b y. is_lt (T.cmp y b.0.now) };

    #[inline(always)]
    fn passes(&self, item: &T) -> bool {
        item.cmp(self.0).is_lt()
    }
}

/// Where the item is, or else where it would be put. It stands alone, since in a loop of its caller the compiler makes
/// branches of the choices.
#[inline(never)]
pub fn find<T: Ord>(items: &[T], item: &T) -> Result<usize, usize>
    requires { IsStrictlySortedBy T.cmp items.now }
    ensures bound { IsSearchInRange result (length items.now) }
    ensures ok { IfOk result (HoldsAt (λ y. T.cmp y item.now ≡ Equal) items.now) }
    ensures position { IsBinarySearchResult (λ y. T.cmp y item.now) items.now result }
{
    let place = partition_point(items, &Below(item));
    if place < items.len() && items[place].cmp(item).is_eq() {
        Ok(place)
    } else {
        Err(place)
    }
}

/// How many items pass: those before a place.
#[inline(always)]
pub fn partition_point<T, P: Predicate<T>>(items: &[T], test: &P) -> usize
    ensures bound { result ≤ length items.now }
    ensures place { IsPartitionedBy (P.passes test.now) items.now →
        IsPartitionPoint (λ y. P.passes test.now y ≡ true) (λ y. P.passes test.now y ≡ false) items.now result }
{
    if items.is_empty() {
        return 0;
    }
    if items.len() <= 64 {
        return by_halves(items, test, 0, items.len());
    }
    let mut base = 0;
    let mut size = items.len();
    while size > 512 {
        base = half(items, test, base, size);
        size -= size / 2;
    }
    among_512(items, test, base, size)
}

/// As `partition_point`, and quicker where few items pass.
#[inline(always)]
pub fn partition_point_near<T, P: Predicate<T>>(items: &[T], test: &P) -> usize
    ensures bound { result ≤ length items.now }
    ensures place { IsPartitionedBy (P.passes test.now) items.now →
        IsPartitionPoint (λ y. P.passes test.now y ≡ true) (λ y. P.passes test.now y ≡ false) items.now result }
{
    if items.len() > 1 && !test.passes(&items[1]) {
        at_one(items, test, 0)
    } else if items.len() > 8 && !test.passes(&items[8]) {
        among_8(items, test, 0, 8)
    } else if items.len() > 64 && !test.passes(&items[64]) {
        by_halves(items, test, 0, 64)
    } else {
        partition_point(items, test)
    }
}

/// The place, where it is in these so many items. It looks at fewer of them than `among_512`, one after another.
#[inline(always)]
fn by_halves<T, P: Predicate<T>>(items: &[T], test: &P, from: usize, count: usize) -> usize
    requires { IsSearching (P.passes test.now) from count items.now }
    ensures { IsPlace (P.passes test.now) items.now result }
{
    let mut base = from;
    let mut size = count;
    while size > 1 {
        base = half(items, test, base, size);
        size -= size / 2;
    }
    at_one(items, test, base)
}

/// The place, where it is in these so many items.
#[inline(always)]
fn among_512<T, P: Predicate<T>>(items: &[T], test: &P, base: usize, size: usize) -> usize
    requires many { 8 ≤ size }
    requires few { size ≤ 512 }
    requires about { IsSearching (P.passes test.now) base size items.now }
    ensures { IsPlace (P.passes test.now) items.now result }
{
    let (base, size) = eighth(items, test, base, size);
    among_64(items, test, base, size)
}

/// As `among_512`.
#[inline(always)]
fn among_64<T, P: Predicate<T>>(items: &[T], test: &P, base: usize, size: usize) -> usize
    requires few { size ≤ 64 }
    requires about { IsSearching (P.passes test.now) base size items.now }
    ensures { IsPlace (P.passes test.now) items.now result }
{
    if size <= 8 {
        return among_8(items, test, base, size);
    }
    let (base, size) = eighth(items, test, base, size);
    among_8(items, test, base, size)
}

/// As `among_512`.
#[inline(always)]
fn among_8<T, P: Predicate<T>>(items: &[T], test: &P, base: usize, size: usize) -> usize
    requires few { size ≤ 8 }
    requires about { IsSearching (P.passes test.now) base size items.now }
    ensures { IsPlace (P.passes test.now) items.now result }
{
    let first = half(items, test, base, size);
    let rest = size - size / 2;
    let second = half(items, test, first, rest);
    let last = half(items, test, second, rest - rest / 2);
    at_one(items, test, last)
}

/// The place, where it is before or behind the item here.
#[inline(always)]
fn at_one<T, P: Predicate<T>>(items: &[T], test: &P, base: usize) -> usize
    requires { IsSearching (P.passes test.now) base 1 items.now }
    ensures { IsPlace (P.passes test.now) items.now result }
{
    if test.passes(&items[base]) {
        base + 1
    } else {
        base
    }
}

/// Of so many items the part, about an eighth, in which the place is: where it begins, and how long it is. The seven
/// that it looks at don't depend on one another, so that what they wait for comes together.
#[inline(always)]
fn eighth<T, P: Predicate<T>>(items: &[T], test: &P, base: usize, size: usize) -> (usize, usize)
    requires some { 8 ≤ size }
    requires few { size ≤ 512 }
    requires about { IsSearching (P.passes test.now) base size items.now }
    ensures about { IsSearching (P.passes test.now) result.0 result.1 items.now }
    ensures short { result.1 ≤ (size + 7) / 8 }
{
    let mut passing = 0;
    let mut part = 1;
    while part < 8 {
        passing += usize::from(test.passes(&items[base + size * part / 8]));
        part += 1;
    }
    let begin = size * passing / 8;
    (base + begin, size * (passing + 1) / 8 - begin)
}

/// Where the half of so many items begins, rounded up, in which the place is.
#[inline(always)]
fn half<T, P: Predicate<T>>(items: &[T], test: &P, base: usize, size: usize) -> usize
    requires { IsSearching (P.passes test.now) base size items.now }
    ensures { IsSearching (P.passes test.now) result (size - size / 2) items.now }
{
    let middle = base + size / 2;
    if test.passes(&items[middle]) {
        middle
    } else {
        base
    }
}
