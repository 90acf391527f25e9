//! What `{:?}` writes of the pairs in a relation: what their numbers stand for.

ghost use Rattle.std.specs.Prelude.{◌*◌, ◌≤◌, ◌^◌};

use crate::numbered::Numbered;
use sorted_pairs::Pair;
use std::fmt::{Debug, Formatter, Result, Write};
use std::marker::PhantomData;

/// Blocks of pairs, as a list of lists. A pair's first number stands for an `A`, its second for a `B`.
#[derive(Drop)]
pub struct ShownBlocks<'a, const LIMIT: u64, A: Numbered, B: Numbered> {
    pub blocks: &'a [Vec<Pair<LIMIT>>],
    pub of: PhantomData<(A, B)>,
    ghost firsts: { 2 ^ 64 ≤ A.limit * LIMIT },
    ghost seconds: { LIMIT ≤ B.limit },
}

impl<'a, const LIMIT: u64, A: Numbered + Debug, B: Numbered + Debug> Debug
    for ShownBlocks<'a, LIMIT, A, B> {
    fn fmt<W: Write>(&self, f: &mut Formatter<W>) -> Result {
        let mut list = f.debug_list();
        for pairs in self.blocks {
            let _next = list.entry(&ShownBlock::<'_, LIMIT, A, B> {
                pairs,
                of: PhantomData,
            });
        }
        list.finish()
    }
}

/// The pairs of a block, as a list.
#[derive(Drop)]
struct ShownBlock<'a, const LIMIT: u64, A: Numbered, B: Numbered> {
    pairs: &'a [Pair<LIMIT>],
    of: PhantomData<(A, B)>,
    ghost firsts: { 2 ^ 64 ≤ A.limit * LIMIT },
    ghost seconds: { LIMIT ≤ B.limit },
}

impl<'a, const LIMIT: u64, A: Numbered + Debug, B: Numbered + Debug> Debug
    for ShownBlock<'a, LIMIT, A, B> {
    fn fmt<W: Write>(&self, f: &mut Formatter<W>) -> Result {
        let mut list = f.debug_list();
        for pair in self.pairs {
            let _next = list.entry(&(A::of_number(pair.first()), B::of_number(pair.second())));
        }
        list.finish()
    }
}
