//! Rows of turns.

use frame_queues::{Turn, Turns};
use row_words::{OrNone, RowFault, Words, text_of};
use std::alloc::Global;
use std::fmt;
use std::fmt::Display;

/// `turns K`: room for so many blocks.
pub fn begin(alloc: Global, words: &mut Words<'_>) -> Result<Turns, RowFault> {
    Ok(Turns::new(alloc, usize::from(words.byte()?))?)
}

pub fn answer(alloc: Global, turns: &mut Turns, line: &str) -> Result<String, RowFault> {
    let mut words = Words::new(line);
    match words.word() {
        "add" => add(alloc, turns, &mut words),
        "next" => next(alloc, turns),
        _ => Err(RowFault::BadRow),
    }
}

/// `add BLOCK FRAMES`
fn add(alloc: Global, turns: &mut Turns, words: &mut Words<'_>) -> Result<String, RowFault> {
    let block = usize::from(words.narrow()?);
    turns.add(block, usize::from(words.narrow()?))?;
    text_of(alloc, &"ok")
}

/// `BLOCK FROM-TO`
#[derive(Clone, Copy)]
struct Shown(Turn);

impl Display for Shown {
    fn fmt<W: fmt::Write>(&self, f: &mut fmt::Formatter<W>) -> fmt::Result {
        let Turn { block, from, to } = self.0;
        write!(f, "{block} {from}-{to}")
    }
}

/// `next`: the next turn, or `none`.
fn next(alloc: Global, turns: &mut Turns) -> Result<String, RowFault> {
    text_of(alloc, &OrNone(turns.next().map(Shown)))
}
