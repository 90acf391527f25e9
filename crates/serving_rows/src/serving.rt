//! The layers of these rows: which one a file is about, and its value.

use crate::blocks::Block;
use crate::comes_first::First;
use crate::lines::Lines;
use crate::lock::Lock;
use crate::parked::Parked;
use crate::told::Told;
use crate::windows::Windows;
use crate::{alone, answers, blocks, comes_first, lines, lock, parked, told, turns, windows};
use frame_queues::Turns;
use role_node::Node;
use row_words::{RowFault, Words};
use std::alloc::Global;

/// A layer's value.
#[derive(Drop)]
pub enum Serving {
    /// `requests`
    Lines(Lines),
    /// `answers`
    Answers,
    /// `told`
    Told(Told),
    /// `alone`
    Alone(Node),
    /// `parked`
    Parked(Parked),
    /// `comes-first`
    First(First),
    /// `turns`
    Turns(Turns),
    /// `block`
    Block(Block),
    /// `windows`
    Windows(Windows),
    /// `locked`
    Lock(Lock),
}

/// Whether a row with this first word begins one of these layers.
pub fn has(layer: &str) -> bool {
    matches!(
        layer,
        "requests"
            | "answers"
            | "told"
            | "alone"
            | "parked"
            | "comes-first"
            | "turns"
            | "block"
            | "windows"
            | "locked"
    )
}

/// The value of the layer that the row begins.
///
/// # Errors
///
/// `BadRow`, or `Memory`.
pub fn begin(alloc: Global, line: &str) -> Result<Serving, RowFault> {
    let mut words = Words::new(line);
    match words.word() {
        "requests" => Ok(Serving::Lines(lines::begin(alloc, &mut words)?)),
        "answers" => Ok(Serving::Answers),
        "told" => Ok(Serving::Told(told::begin(alloc, &mut words)?)),
        "alone" => Ok(Serving::Alone(alone::begin(alloc, &mut words)?)),
        "parked" => Ok(Serving::Parked(parked::begin(alloc, &mut words)?)),
        "comes-first" => Ok(Serving::First(comes_first::begin(alloc, &mut words)?)),
        "turns" => Ok(Serving::Turns(turns::begin(alloc, &mut words)?)),
        "block" => Ok(Serving::Block(blocks::begin(alloc, &mut words)?)),
        "windows" => Ok(Serving::Windows(windows::begin(alloc, &mut words)?)),
        "locked" => Ok(Serving::Lock(lock::begin(alloc))),
        _ => Err(RowFault::BadRow),
    }
}

impl Serving {
    /// Makes the call that the row spells, and says what came.
    ///
    /// # Errors
    ///
    /// `BadRow`, or `Memory`, where nothing may have changed.
    pub fn answer(&mut self, alloc: Global, line: &str) -> Result<String, RowFault> {
        match self {
            Serving::Lines(lines) => lines::answer(alloc, lines, line),
            Serving::Answers => answers::answer(alloc, line),
            Serving::Told(told) => told::answer(alloc, told, line),
            Serving::Alone(node) => alone::answer(alloc, node, line),
            Serving::Parked(parked) => parked::answer(alloc, parked, line),
            Serving::First(first) => comes_first::answer(alloc, first, line),
            Serving::Turns(turns) => turns::answer(alloc, turns, line),
            Serving::Block(block) => blocks::answer(alloc, block, line),
            Serving::Windows(windows) => windows::answer(alloc, windows, line),
            Serving::Lock(lock) => lock::answer(alloc, lock, line),
        }
    }

    /// Some numbers that tell whether anything has changed, without memory.
    pub fn seen(&self) -> [u64; 3] {
        match self {
            Serving::Told(told) => told::seen(told),
            Serving::Alone(node) => alone::seen(node),
            Serving::Parked(parked) => parked::seen(parked),
            Serving::Windows(windows) => windows::seen(windows),
            Serving::Lock(lock) => lock::seen(lock),
            Serving::Lines(_)
            | Serving::Answers
            | Serving::First(_)
            | Serving::Turns(_)
            | Serving::Block(_) => [0; 3],
        }
    }
}
