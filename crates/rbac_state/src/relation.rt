//! A relation that is looked up from either side.

ghost use Rattle.std.specs.Prelude.{◌≡◌, ◌<◌, ◌≤◌, ◌+◌, ◌*◌, ◌||◌, ◌&&◌, ℕ, not, [], filter, OnOk, OnErr};
ghost use Rattle.std.specs.Ordering.{eq_by_cmp, nat_cmp};
ghost use Rattle.sorted_pairs.specs.Blocks.{block_size, items_in};
ghost use Rattle.rbac_state.specs.inside.Limits.{most_firsts};
ghost use Rattle.rbac_state.specs.inside.Relations.{IsKeptBothWays, SamePairs, relates, room_of};
ghost use Rattle.sorted_pairs.specs.KeyRanges.{IsKeyRange};

use crate::limits::{PERMISSIONS, ROLES, USERS};
use crate::numbered::Numbered;
use crate::permission_number::Permission;
use crate::shown::ShownBlocks;
use sorted_pairs::key_range::{self, KeyRange};
use sorted_pairs::{Pair, blocks};
use std::alloc::{AllocError, Global};
use std::fmt::{self, Debug, Formatter, Write};
use std::marker::PhantomData;

/// A finite relation of numbers below `FIRSTS` with roles. Its pairs are kept twice, in ascending order by either side,
/// so that a look-up from either side is a search, and in blocks, so that a change moves few of them.
#[derive(Drop)]
pub struct Relation<const FIRSTS: u64> {
    by_first: Vec<Vec<Pair<ROLES>>>,
    by_second: Vec<Vec<Pair<FIRSTS>>>,
    /// So many places, or more, are free in each block.
    room: usize,
}

/// Users, each with a role.
pub type Users = Relation<USERS>;

/// Permissions by their numbers, each with a role.
pub type Grants = Relation<PERMISSIONS>;

impl Debug for Users {
    fn fmt<W: Write>(&self, f: &mut Formatter<W>) -> fmt::Result {
        self.write::<u64, W>(f)
    }
}

impl Debug for Grants {
    fn fmt<W: Write>(&self, f: &mut Formatter<W>) -> fmt::Result {
        self.write::<Permission, W>(f)
    }
}

impl<const FIRSTS: u64> Relation<FIRSTS> {
    /// The relation of no pairs. It takes no memory.
    pub fn new(alloc: Global) -> Self
        ensures kept { IsKeptBothWays result }
        ensures blank { items_in result.by_first.items ≡ [] }
    {
        Relation {
            by_first: Vec::new(alloc),
            by_second: Vec::new(alloc),
            room: 0,
        }
    }

    /// Makes room for so many pairs, or more. Where there is less, room is made for twice as many, so
    /// that the blocks are gone over once in so many pairs.
    ///
    /// # Errors
    ///
    /// Only for want of memory, where there is less room than that. The pairs stay as they were.
    #[inline(always)]
    pub fn make_room(&mut self, least: usize) -> Result<(), AllocError>
        requires few { 4 * least ≤ block_size }
        requires kept { IsKeptBothWays self.old }
        ensures kept { IsKeptBothWays self.new }
        ensures ok { OnOk result (least ≤ room_of self.new) }
        ensures full { OnErr result (room_of self.old < least) }
        ensures more { room_of self.old ≤ room_of self.new }
        ensures same { SamePairs self.old self.new }
    {
        if self.room < least {
            self.free(2 * least)?;
        }
        Ok(())
    }

    /// Makes room for so many pairs, which are more than there is room for.
    fn free(&mut self, room: usize) -> Result<(), AllocError>
        requires few { 2 * room ≤ block_size }
        requires more { room_of self.old ≤ room }
        requires kept { IsKeptBothWays self.old }
        ensures kept { IsKeptBothWays self.new }
        ensures ok { OnOk result (room_of self.new ≡ room) }
        ensures err { OnErr result (room_of self.new ≡ room_of self.old) }
        ensures same { SamePairs self.old self.new }
    {
        blocks::make_room(&mut self.by_first, room)?;
        blocks::make_room(&mut self.by_second, room)?;
        self.room = room;
        Ok(())
    }

    /// How many pairs can be put before room has to be made.
    pub fn room(&self) -> usize
        ensures { result ≡ room_of self.now }
    {
        self.room
    }

    /// Puts the pair, unless it is there. It takes no memory.
    pub fn put(&mut self, first: u64, second: u16)
        requires below { first < FIRSTS }
        requires few { FIRSTS ≤ most_firsts }
        requires room { 0 < room_of self.old }
        requires kept { IsKeptBothWays self.old }
        ensures kept { IsKeptBothWays self.new }
        ensures members { (a b : ℕ) → relates self.new a b
            ≡ ((eq_by_cmp nat_cmp a first && eq_by_cmp nat_cmp b second) || relates self.old a b) }
        ensures room { room_of self.old ≤ room_of self.new + 1 }
    {
        blocks::put(&mut self.by_first, Pair::new(first, second as u64));
        blocks::put(&mut self.by_second, Pair::new(second as u64, first));
        self.room -= 1;
    }

    /// Takes the pair away, if it is there.
    pub fn take_away(&mut self, first: u64, second: u16)
        requires below { first < FIRSTS }
        requires few { FIRSTS ≤ most_firsts }
        requires kept { IsKeptBothWays self.old }
        ensures kept { IsKeptBothWays self.new }
        ensures members { (a b : ℕ) → relates self.new a b
            ≡ (not (eq_by_cmp nat_cmp a first && eq_by_cmp nat_cmp b second) && relates self.old a b) }
        ensures room { room_of self.old ≤ room_of self.new }
    {
        blocks::take_away(&mut self.by_first, &Pair::new(first, second as u64));
        blocks::take_away(&mut self.by_second, &Pair::new(second as u64, first));
    }

    /// Takes away all pairs of this second. It takes no memory.
    pub fn take_away_second(&mut self, second: u16)
        requires few { FIRSTS ≤ most_firsts }
        requires kept { IsKeptBothWays self.old }
        ensures kept { IsKeptBothWays self.new }
        ensures members { (a b : ℕ) → relates self.new a b
            ≡ (not (eq_by_cmp nat_cmp b second) && relates self.old a b) }
        ensures room { room_of self.old ≤ room_of self.new }
    {
        key_range::take_away_second(&mut self.by_first, &self.by_second, second as u64);
        key_range::take_away_first(&mut self.by_second, second as u64);
    }

    /// Whether the pair is in the relation.
    pub fn has(&self, first: u64, second: u16) -> bool
        requires below { first < most_firsts }
        requires kept { IsKeptBothWays self.now }
        ensures { result ≡ relates self.now first second }
    {
        blocks::has(&self.by_first, &Pair::new(first, second as u64))
    }

    /// Where the pairs of this first lie.
    pub fn of_first(&self, first: u64) -> KeyRange<'_, ROLES>
        requires { IsKeptBothWays self.now }
        ensures { IsKeyRange first (items_in self.now.by_first.items) result }
    {
        KeyRange::find(&self.by_first, first)
    }

    /// The blocks of the pairs, in ascending order, in which those of this first lie.
    pub fn with_first(&self) -> &[Vec<Pair<ROLES>>]
        requires { IsKeptBothWays self.now }
        ensures { result.now ≡ self.now.by_first.items }
    {
        &self.by_first
    }

    /// The blocks of the pairs turned, in ascending order, in which those of this second lie.
    pub fn with_second(&self) -> &[Vec<Pair<FIRSTS>>]
        requires { IsKeptBothWays self.now }
        ensures { result.now ≡ self.now.by_second.items }
    {
        &self.by_second
    }

    /// Where the lists have their memory from.
    pub fn alloc(&self) -> Global {
        *self.by_first.allocator()
    }

    /// Writes the relation as a derive would, with what a first stands for in place of its number.
    pub fn write<A: Numbered + Debug, W: Write>(&self, f: &mut Formatter<W>) -> fmt::Result
        requires some { 0 < FIRSTS }
        requires few { FIRSTS ≤ A.limit }
        requires all { most_firsts ≤ A.limit }
    {
        let by_first = ShownBlocks::<'_, ROLES, A, u64> {
            blocks: &self.by_first,
            of: PhantomData,
        };
        let by_second = ShownBlocks::<'_, FIRSTS, u64, A> {
            blocks: &self.by_second,
            of: PhantomData,
        };
        f.debug_struct("Relation")
            .field("by_first", &by_first)
            .field("by_second", &by_second)
            .field("room", &self.room)
            .finish()
    }
}
