//! Long lists in ascending order without repeats, in blocks of bounded size: an item that is put or
//! taken away moves those of one block.

ghost use Rattle.std.specs.Prelude.{◌≡◌, ℕ, ◌<◌, ◌≤◌, ◌-◌, ◌+◌, ◌||◌, ◌&&◌, not, length, take, drop, OnOk, OnErr};
ghost use Rattle.std.specs.Prelude.{IfOk, filter, vec_len, vec_capacity};
ghost use Rattle.std.specs.List.{AllByRecursion};
ghost use Rattle.std.specs.List.Sorted.{IsStrictlySortedBy};
ghost use Rattle.std.specs.Ordering.{eq_by_cmp, is_le, nat_cmp};
ghost use Rattle.std.specs.declared.cmp.Ordering.TheVariants.{Less};
ghost use Rattle.sorted_pairs.specs.Blocks.{AreBlocks, IsRoomy, IsSplit, block_size, items_in};
ghost use Rattle.sorted_pairs.specs.Blocks.{begins, has_none, tidied};
ghost use Rattle.sorted_pairs.specs.Lists.{is_among};

use crate::pair::Pair;
use crate::sorted;
use std::alloc::{AllocError, Global};
use std::cmp::Ord;

/// So many items fit a block.
const BLOCK_SIZE: usize = 512;

/// Whether the item is in the blocks.
pub fn has<T: Ord>(blocks: &[Vec<T>], item: &T) -> bool
    requires ascending { IsStrictlySortedBy T.cmp (items_in blocks.now) }
    requires filled { AllByRecursion (λ b. 0 < length b.items) (drop 1 blocks.now) }
    ensures { result ≡ is_among T.cmp (items_in blocks.now) item.now }
{
    let place = place_of(blocks, item);
    place < blocks.len() && sorted::has(&blocks[place], item)
}

/// Puts the item in its place, unless it is there. It takes no memory.
pub fn put<T: Ord + Drop>(blocks: &mut Vec<Vec<T>>, item: T)
    requires room { AreBlocks 1 blocks.old.items }
    requires ascending { IsStrictlySortedBy T.cmp (items_in blocks.old.items) }
    ensures ascending { IsStrictlySortedBy T.cmp (items_in blocks.new.items) }
    ensures members { (q : T) → is_among T.cmp (items_in blocks.new.items) q
        ≡ (eq_by_cmp T.cmp q item || is_among T.cmp (items_in blocks.old.items) q) }
    ensures room { (room : ℕ) → 0 < room → AreBlocks room blocks.old.items → AreBlocks (room - 1) blocks.new.items }
{
    let place = place_of(blocks, &item);
    sorted::put(&mut blocks[place], item);
}

/// Takes the item away, if it is there.
pub fn take_away<T: Ord + Drop>(blocks: &mut Vec<Vec<T>>, item: &T)
    requires filled { AllByRecursion (λ b. 0 < length b.items) (drop 1 blocks.old.items) }
    requires ascending { IsStrictlySortedBy T.cmp (items_in blocks.old.items) }
    ensures ascending { IsStrictlySortedBy T.cmp (items_in blocks.new.items) }
    ensures members { (q : T) → is_among T.cmp (items_in blocks.new.items) q
        ≡ (not (eq_by_cmp T.cmp q item.now) && is_among T.cmp (items_in blocks.old.items) q) }
    ensures room { (room : ℕ) → AreBlocks room blocks.old.items → AreBlocks room blocks.new.items }
{
    let place = place_of(blocks, item);
    if place < blocks.len() {
        sorted::take_away(&mut blocks[place], item);
        drop_if_empty(blocks, place);
    }
}

/// The block in which the item is, if it is there at all: the last that begins with it or with one
/// before it, or else the first.
fn place_of<T: Ord>(blocks: &[Vec<T>], item: &T) -> usize
    requires ascending { IsStrictlySortedBy T.cmp (items_in blocks.now) }
    requires filled { AllByRecursion (λ b. 0 < length b.items) (drop 1 blocks.now) }
    ensures within { 0 < length blocks.now → result < length blocks.now }
    ensures below { AllByRecursion (λ x. T.cmp x item.now ≡ Less) (items_in (take result blocks.now)) }
    ensures above { AllByRecursion (λ x. T.cmp item.now x ≡ Less) (items_in (drop (result + 1) blocks.now)) }
{
    later(blocks).partition_point(|block| begins_by(block, item))
}

/// All but the first.
pub(crate) fn later<T>(blocks: &[Vec<T>]) -> &[Vec<T>]
    ensures { result.now ≡ drop 1 blocks.now }
{
    &blocks[blocks.len().min(1)..]
}

/// Whether the block begins with the item or with one before it.
fn begins_by<T: Ord>(block: &[T], item: &T) -> bool
    ensures { result ≡ begins (λ x. is_le (T.cmp x item.now)) block.now }
{
    match block.first() {
        Some(first) => first.cmp(item).is_le(),
        None => false,
    }
}

/// Drops the block at this place, where it is empty and not the first.
pub(crate) fn drop_if_empty<T: Drop>(blocks: &mut Vec<Vec<T>>, place: usize)
    requires { place < vec_len blocks.old }
    ensures { blocks.new.items ≡ tidied place blocks.old.items }
{
    if place > 0 && blocks[place].is_empty() {
        let _empty = blocks.remove(place);
    }
}

/// Makes room for so many more items in each block.
///
/// # Errors
///
/// Only for want of memory. The items stay as they were, and the room.
pub fn make_room<T: Copy + Drop>(blocks: &mut Vec<Vec<T>>, least: usize) -> Result<(), AllocError>
    requires few { least + least ≤ block_size }
    requires blocks { AreBlocks 0 blocks.old.items }
    ensures same { items_in blocks.new.items ≡ items_in blocks.old.items }
    ensures ok { OnOk result (AreBlocks least blocks.new.items) }
    ensures more { (room : ℕ) → room ≤ least → AreBlocks room blocks.old.items → AreBlocks room blocks.new.items }
{
    begin(blocks)?;
    split_long(blocks, least)
}

/// Makes the first block, where there is none.
///
/// # Errors
///
/// Only for want of memory. Nothing changes then.
fn begin<T: Drop>(blocks: &mut Vec<Vec<T>>) -> Result<(), AllocError>
    ensures same { items_in blocks.new.items ≡ items_in blocks.old.items }
    ensures ok { OnOk result (0 < length blocks.new.items) }
    ensures blocks { (room : ℕ) → room ≤ block_size → AreBlocks room blocks.old.items
        → AreBlocks room blocks.new.items }
{
    if blocks.is_empty() {
        let first = Vec::with_capacity(*blocks.allocator(), BLOCK_SIZE)?;
        blocks.push(first)?;
    }
    Ok(())
}

/// Splits each block that has no room for so many more items.
///
/// # Errors
///
/// Only for want of memory. The items stay as they were, and the room.
fn split_long<T: Copy + Drop>(blocks: &mut Vec<Vec<T>>, least: usize) -> Result<(), AllocError>
    requires few { least + least ≤ block_size }
    requires some { 0 < length blocks.old.items }
    requires blocks { AreBlocks 0 blocks.old.items }
    ensures same { items_in blocks.new.items ≡ items_in blocks.old.items }
    ensures ok { OnOk result (AreBlocks least blocks.new.items) }
    ensures more { (room : ℕ) → room ≤ least → AreBlocks room blocks.old.items → AreBlocks room blocks.new.items }
{
    let mut place = blocks.len();
    while place > 0 {
        place -= 1;
        if blocks[place].len() > BLOCK_SIZE - least {
            split(blocks, place)?;
        }
    }
    Ok(())
}

/// Moves the upper half of a block into a block of its own.
///
/// # Errors
///
/// Only for want of memory. The blocks stay as they were.
fn split<T: Copy + Drop>(blocks: &mut Vec<Vec<T>>, place: usize) -> Result<(), AllocError>
    requires { place < vec_len blocks.old }
    ensures ok { OnOk result (IsSplit place blocks.old.items blocks.new.items) }
    ensures err { OnErr result (blocks.new.items ≡ blocks.old.items) }
{
    let half = blocks[place].len() / 2;
    let upper = upper_part(*blocks.allocator(), &blocks[place], half)?;
    blocks.insert(place + 1, upper)?;
    blocks[place].truncate(half);
    Ok(())
}

/// A block of the items from this place on.
fn upper_part<T: Copy + Drop>(alloc: Global, items: &[T], from: usize) -> Result<Vec<T>, AllocError>
    requires { from ≤ length items.now }
    ensures items { IfOk result (λ upper. upper.items ≡ drop from items.now) }
    ensures capacity { IfOk result (λ upper. block_size ≤ vec_capacity upper) }
{
    let mut upper = Vec::with_capacity(alloc, BLOCK_SIZE)?;
    upper.extend_from_slice(&items[from..])?;
    Ok(upper)
}

/// Takes away all pairs of this second. It takes no memory.
pub(crate) fn take_away_second<const LIMIT: u64>(blocks: &mut Vec<Vec<Pair<LIMIT>>>, second: u64)
    requires { AreBlocks 0 blocks.old.items }
    ensures items { items_in blocks.new.items
        ≡ filter (λ p. not (eq_by_cmp nat_cmp p.1 second)) (items_in blocks.old.items) }
    ensures room { (room : ℕ) → AreBlocks room blocks.old.items → AreBlocks room blocks.new.items }
{
    let mut place = blocks.len();
    while place > 0 {
        place -= 1;
        sorted::take_away_second(&mut blocks[place], second);
    }
    drop_empty(blocks);
}

/// Drops all blocks that are empty, save that one stays. Those that stay are moved once.
pub(crate) fn drop_empty<T: Drop>(blocks: &mut Vec<Vec<T>>)
    ensures same { items_in blocks.new.items ≡ items_in blocks.old.items }
    ensures room { (room : ℕ) → AllByRecursion (IsRoomy room) blocks.old.items
        → (0 < room → 0 < length blocks.old.items) → AreBlocks room blocks.new.items }
{
    if have_items(blocks) {
        blocks.retain(
            |block: &Vec<T>| -> bool
                ensures { result ≡ not (has_none block.now.items) }
            { !block.is_empty() },
        );
    } else {
        blocks.truncate(1);
    }
}

/// Whether some block has an item.
fn have_items<T>(blocks: &[Vec<T>]) -> bool
    ensures { result ≡ not (has_none (items_in blocks.now)) }
{
    for block in blocks {
        if !block.is_empty() {
            return true;
        }
    }
    false
}
