//! The pairs of one first, which lie together in a list of pairs in blocks.

ghost use Rattle.std.specs.Prelude.{◌≡◌, ◌≤◌, ◌<◌, ◌*◌, ◌^◌, [], ℕ, ◌&&◌, not, length, take, drop, filter, IsTrue};
ghost use Rattle.std.specs.List.{AllByRecursion};
ghost use Rattle.std.specs.List.Sorted.{IsStrictlySortedBy};
ghost use Rattle.std.specs.Ordering.{eq_by_cmp, is_le, is_lt, nat_cmp};
ghost use Rattle.std.specs.declared.cmp.Ordering.TheVariants.{Less};
ghost use Rattle.sorted_pairs.specs.Blocks.{AreBlocks, items_in, begins};
ghost use Rattle.sorted_pairs.specs.Pairs.{number_cmp};
ghost use Rattle.sorted_pairs.specs.Lists.{is_among};
ghost use Rattle.sorted_pairs.specs.KeyRanges.{IsKeyRange, IsFilled, pairs_in};

use crate::blocks::{self, drop_empty, drop_if_empty, later};
use crate::pair::Pair;
use crate::sorted;

/// One pair is searched and taken away in about the time in which a pass goes over so many.
const PASSED_A_SEARCH: usize = 256;

/// Fewer pairs than so many are gone over in the time in which it is seen how many there are of one first.
const PAIRS_WORTH_COUNTING: usize = 64;

/// Of fewer blocks that get empty each is dropped by itself: to drop several together all blocks are looked at.
const BLOCKS_DROPPED_ALONE: usize = 8;

/// Where the pairs of one first lie: in a part of one block, which has no others, or in blocks behind one another,
/// which may begin and end with others.
#[derive(Clone, Copy)]
pub enum KeyRange<'a, const LIMIT: u64> {
    Part(&'a [Pair<LIMIT>]),
    Blocks(&'a [Vec<Pair<LIMIT>>]),
}

impl<'a, const LIMIT: u64> KeyRange<'a, LIMIT> {
    /// Where the pairs of this first lie.
    pub fn find(blocks: &'a [Vec<Pair<LIMIT>>], first: u64) -> KeyRange<'a, LIMIT>
        requires ascending { IsStrictlySortedBy number_cmp (items_in blocks.now) }
        requires filled { AllByRecursion (λ b. 0 < length b.items) (drop 1 blocks.now) }
        ensures { IsKeyRange first (items_in blocks.now) result }
    {
        match blocks_of(blocks, first) {
            [block] => KeyRange::Part(sorted::beginning_with(block, first)),
            alike => KeyRange::Blocks(alike),
        }
    }

    /// Whether it is plain that there is none.
    pub fn is_empty(&self) -> bool
        ensures { IsTrue result → pairs_in self.now ≡ [] }
    {
        match self {
            KeyRange::Part(pairs) => pairs.is_empty(),
            KeyRange::Blocks(_) => false,
        }
    }

    /// Whether the pair is there.
    pub fn has(&self, pair: &Pair<LIMIT>) -> bool
        requires ascending { IsStrictlySortedBy number_cmp (pairs_in self.now) }
        requires filled { IsFilled self.now }
        ensures { result ≡ is_among number_cmp (pairs_in self.now) pair.now }
    {
        match self {
            KeyRange::Part(pairs) => sorted::has(pairs, pair),
            KeyRange::Blocks(blocks) => blocks::has(blocks, pair),
        }
    }
}

/// The blocks in which the pairs of this first lie, which others may begin and end.
pub fn blocks_of<const LIMIT: u64>(blocks: &[Vec<Pair<LIMIT>>], first: u64) -> &[Vec<Pair<LIMIT>>]
    requires ascending { IsStrictlySortedBy number_cmp (items_in blocks.now) }
    requires filled { AllByRecursion (λ b. 0 < length b.items) (drop 1 blocks.now) }
    ensures same { filter (λ p. eq_by_cmp nat_cmp first p.0) (items_in result.now)
        ≡ filter (λ p. eq_by_cmp nat_cmp first p.0) (items_in blocks.now) }
    ensures ascending { IsStrictlySortedBy number_cmp (items_in result.now) }
    ensures filled { AllByRecursion (λ b. 0 < length b.items) (drop 1 result.now) }
{
    if blocks.len() <= 1 {
        return blocks;
    }
    let start = lower_bound(blocks, first);
    let end = end_of(blocks, first, start);
    &blocks[start..end]
}

/// The place of the first block in which pairs of this first may lie: all before it are of a lower first.
fn lower_bound<const LIMIT: u64>(blocks: &[Vec<Pair<LIMIT>>], first: u64) -> usize
    requires ascending { IsStrictlySortedBy number_cmp (items_in blocks.now) }
    requires filled { AllByRecursion (λ b. 0 < length b.items) (drop 1 blocks.now) }
    ensures within { result ≤ length blocks.now }
    ensures below { AllByRecursion (λ p. nat_cmp p.0 first ≡ Less) (items_in (take result blocks.now)) }
{
    later(blocks).partition_point(
        |block: &Vec<Pair<LIMIT>>| -> bool
            ensures { result ≡ begins (λ p. is_lt (nat_cmp p.0 first)) block.now.items }
        { begins_before(block, first) },
    )
}

/// The place behind the last block in which pairs of this first may lie, from this place on: all behind it are of a
/// higher first.
fn end_of<const LIMIT: u64>(blocks: &[Vec<Pair<LIMIT>>], first: u64, start: usize) -> usize
    requires ascending { IsStrictlySortedBy number_cmp (items_in blocks.now) }
    requires filled { AllByRecursion (λ b. 0 < length b.items) (drop 1 blocks.now) }
    requires within { start ≤ length blocks.now }
    ensures onward { start ≤ result }
    ensures within { result ≤ length blocks.now }
    ensures above { AllByRecursion (λ p. nat_cmp first p.0 ≡ Less) (items_in (drop result blocks.now)) }
{
    if start == blocks.len() {
        return start;
    }
    let next = start + 1;
    if next < blocks.len() && begins_upto(&blocks[next], first) {
        end_behind(blocks, first, next)
    } else {
        next
    }
}

/// As `end_of`, for pairs that reach the block at this place: by halving, however many blocks they fill.
fn end_behind<const LIMIT: u64>(blocks: &[Vec<Pair<LIMIT>>], first: u64, reached: usize) -> usize
    requires ascending { IsStrictlySortedBy number_cmp (items_in blocks.now) }
    requires filled { AllByRecursion (λ b. 0 < length b.items) (drop 1 blocks.now) }
    requires within { reached < length blocks.now }
    ensures onward { reached < result }
    ensures within { result ≤ length blocks.now }
    ensures above { AllByRecursion (λ p. nat_cmp first p.0 ≡ Less) (items_in (drop result blocks.now)) }
{
    let mut end = reached + 1;
    let mut behind = blocks.len();
    while end < behind {
        let middle = end + (behind - end) / 2;
        if begins_upto(&blocks[middle], first) {
            end = middle + 1;
        } else {
            behind = middle;
        }
    }
    behind
}

/// How many pairs of this first there are. It only chooses a way, of two with one result.
fn count_of<const LIMIT: u64>(range: &[Vec<Pair<LIMIT>>], first: u64) -> usize
    requires ascending { IsStrictlySortedBy number_cmp (items_in range.now) }
{
    let mut count = 0usize;
    for block in range {
        count = count.saturating_add(sorted::beginning_with(block, first).len());
    }
    count
}

/// Whether the blocks have so many pairs, which it sees as soon as it has counted them. It only chooses a way, as
/// `count_of` does.
fn have_at_least<T>(blocks: &[Vec<T>], least: usize) -> bool {
    let mut pairs = 0usize;
    for block in blocks {
        pairs = pairs.saturating_add(block.len());
        if pairs >= least {
            return true;
        }
    }
    false
}

/// Takes away all pairs of this first. It takes no memory.
pub fn take_away_first<const LIMIT: u64>(blocks: &mut Vec<Vec<Pair<LIMIT>>>, first: u64)
    requires blocks { AreBlocks 0 blocks.old.items }
    requires ascending { IsStrictlySortedBy number_cmp (items_in blocks.old.items) }
    ensures items { items_in blocks.new.items
        ≡ filter (λ p. not (eq_by_cmp nat_cmp p.0 first)) (items_in blocks.old.items) }
    ensures room { (room : ℕ) → AreBlocks room blocks.old.items → AreBlocks room blocks.new.items }
{
    let start = lower_bound(blocks, first);
    let end = end_of(blocks, first, start);
    if end - start <= BLOCKS_DROPPED_ALONE {
        take_away_in_few(blocks, first, start, end);
    } else {
        take_away_in_many(blocks, first, start, end);
    }
}

/// As `take_away_first`, where all pairs of this first lie in the blocks from one place up to another. Each block that
/// gets empty is dropped by itself.
fn take_away_in_few<const LIMIT: u64>(
    blocks: &mut Vec<Vec<Pair<LIMIT>>>,
    first: u64,
    start: usize,
    end: usize,
)
    requires onward { start ≤ end }
    requires within { end ≤ length blocks.old.items }
    requires below { AllByRecursion (λ p. nat_cmp p.0 first ≡ Less) (items_in (take start blocks.old.items)) }
    requires above { AllByRecursion (λ p. nat_cmp first p.0 ≡ Less) (items_in (drop end blocks.old.items)) }
    ensures items { items_in blocks.new.items
        ≡ filter (λ p. not (eq_by_cmp nat_cmp p.0 first)) (items_in blocks.old.items) }
    ensures room { (room : ℕ) → AreBlocks room blocks.old.items → AreBlocks room blocks.new.items }
{
    let mut place = end;
    while place > start {
        place -= 1;
        sorted::take_away_first(&mut blocks[place], first);
        drop_if_empty(blocks, place);
    }
}

/// As `take_away_in_few`, but the blocks that get empty are dropped together.
fn take_away_in_many<const LIMIT: u64>(
    blocks: &mut Vec<Vec<Pair<LIMIT>>>,
    first: u64,
    start: usize,
    end: usize,
)
    requires onward { start ≤ end }
    requires within { end ≤ length blocks.old.items }
    requires below { AllByRecursion (λ p. nat_cmp p.0 first ≡ Less) (items_in (take start blocks.old.items)) }
    requires above { AllByRecursion (λ p. nat_cmp first p.0 ≡ Less) (items_in (drop end blocks.old.items)) }
    ensures items { items_in blocks.new.items
        ≡ filter (λ p. not (eq_by_cmp nat_cmp p.0 first)) (items_in blocks.old.items) }
    ensures room { (room : ℕ) → AreBlocks room blocks.old.items → AreBlocks room blocks.new.items }
{
    let mut next = end;
    while next > start {
        next -= 1;
        sorted::take_away_first(&mut blocks[next], first);
    }
    drop_empty(blocks);
}

/// Takes away all pairs of this second: each by a search where they are few beside all pairs, and else in one pass.
/// The other list has the same pairs turned. It takes no memory.
pub fn take_away_second<const SECONDS: u64, const FIRSTS: u64>(
    blocks: &mut Vec<Vec<Pair<SECONDS>>>,
    turned: &[Vec<Pair<FIRSTS>>],
    second: u64,
)
    requires few { FIRSTS * SECONDS ≤ 2 ^ 64 }
    requires below { second < SECONDS }
    requires blocks { AreBlocks 0 blocks.old.items }
    requires ascending { IsStrictlySortedBy number_cmp (items_in blocks.old.items) }
    requires turned { IsStrictlySortedBy number_cmp (items_in turned.now) }
    requires filled { AllByRecursion (λ b. 0 < length b.items) (drop 1 turned.now) }
    requires same { (a b : ℕ) → is_among number_cmp (items_in turned.now) (b, a)
        ≡ is_among number_cmp (items_in blocks.old.items) (a, b) }
    ensures ascending { IsStrictlySortedBy number_cmp (items_in blocks.new.items) }
    ensures members { (a b : ℕ) → is_among number_cmp (items_in blocks.new.items) (a, b)
        ≡ (not (eq_by_cmp nat_cmp b second) && is_among number_cmp (items_in blocks.old.items) (a, b)) }
    ensures room { (room : ℕ) → AreBlocks room blocks.old.items → AreBlocks room blocks.new.items }
{
    if have_at_least(blocks, PAIRS_WORTH_COUNTING) {
        let range = blocks_of(turned, second);
        let passed = count_of(range, second).saturating_mul(PASSED_A_SEARCH);
        if have_at_least(blocks, passed) {
            take_away_turned(blocks, range, second);
            return;
        }
    }
    blocks::take_away_second(blocks, second);
}

/// Takes away the pairs of this first, turned, from a list of pairs in blocks. It takes no memory.
fn take_away_turned<const SECONDS: u64, const FIRSTS: u64>(
    blocks: &mut Vec<Vec<Pair<SECONDS>>>,
    range: &[Vec<Pair<FIRSTS>>],
    first: u64,
)
    requires few { FIRSTS * SECONDS ≤ 2 ^ 64 }
    requires below { first < SECONDS }
    requires turned { IsStrictlySortedBy number_cmp (items_in range.now) }
    requires blocks { AreBlocks 0 blocks.old.items }
    requires ascending { IsStrictlySortedBy number_cmp (items_in blocks.old.items) }
    ensures ascending { IsStrictlySortedBy number_cmp (items_in blocks.new.items) }
    ensures members { (q : ℕ × ℕ) → is_among number_cmp (items_in blocks.new.items) q
        ≡ (not (is_among number_cmp (filter (λ p. eq_by_cmp nat_cmp first p.0) (items_in range.now)) (q.1, q.0))
        && is_among number_cmp (items_in blocks.old.items) q) }
    ensures room { (room : ℕ) → AreBlocks room blocks.old.items → AreBlocks room blocks.new.items }
{
    let mut place = range.len();
    while place > 0 {
        place -= 1;
        take_away_each(blocks, sorted::beginning_with(&range[place], first), first);
    }
}

/// Takes away each of these pairs of one first, turned. It begins with the last of them, so that few blocks stand
/// behind one that gets empty.
fn take_away_each<const SECONDS: u64, const FIRSTS: u64>(
    blocks: &mut Vec<Vec<Pair<SECONDS>>>,
    pairs: &[Pair<FIRSTS>],
    first: u64,
)
    requires few { FIRSTS * SECONDS ≤ 2 ^ 64 }
    requires below { first < SECONDS }
    requires alike { AllByRecursion (λ p. p.0 ≡ first) pairs.now }
    requires blocks { AreBlocks 0 blocks.old.items }
    requires ascending { IsStrictlySortedBy number_cmp (items_in blocks.old.items) }
    ensures ascending { IsStrictlySortedBy number_cmp (items_in blocks.new.items) }
    ensures members { (q : ℕ × ℕ) → is_among number_cmp (items_in blocks.new.items) q
        ≡ (not (is_among number_cmp pairs.now (q.1, q.0)) && is_among number_cmp (items_in blocks.old.items) q) }
    ensures room { (room : ℕ) → AreBlocks room blocks.old.items → AreBlocks room blocks.new.items }
{
    let mut place = pairs.len();
    while place > 0 {
        place -= 1;
        blocks::take_away(blocks, &Pair::new(pairs[place].second(), first));
    }
}

/// Whether the block begins with a pair of a lower first.
fn begins_before<const LIMIT: u64>(block: &[Pair<LIMIT>], first: u64) -> bool
    ensures { result ≡ begins (λ p. is_lt (nat_cmp p.0 first)) block.now }
{
    match block.first() {
        Some(pair) => pair.first().cmp(&first).is_lt(),
        None => false,
    }
}

/// Whether the block begins with a pair of this first or of a lower one.
fn begins_upto<const LIMIT: u64>(block: &[Pair<LIMIT>], first: u64) -> bool
    ensures { result ≡ begins (λ p. is_le (nat_cmp p.0 first)) block.now }
{
    match block.first() {
        Some(pair) => pair.first().cmp(&first).is_le(),
        None => false,
    }
}
