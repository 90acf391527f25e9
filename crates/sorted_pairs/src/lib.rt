//! Pairs of numbers in ascending order, each once, in blocks of bounded size: a look-up is a search, and a change moves
//! the pairs of one block. The pairs of one first lie together.
#![tactic(auto)]

pub mod blocks;
pub mod key_range;
mod pair;
mod search;
mod sorted;

pub use pair::Pair;
pub use sorted::beginning_with;
