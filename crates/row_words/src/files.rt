//! Rows of one file, which are about the layers of one library.

use crate::fault::RowFault;
use crate::text::text_of;
use crate::words::Words;
use std::io;

/// A library's layers: the value that the rows of a file are about.
pub trait Layers {
    /// Whether a row with this first word begins one of these layers.
    fn has(layer: &str) -> bool;

    /// The value that such a row begins.
    ///
    /// # Errors
    ///
    /// `BadRow`, or `Memory`.
    fn begin(rt: &HostRuntime, line: &str) -> Result<Self, RowFault>
    where
        Self: Sized;

    /// Makes the call that a row spells, and says what came.
    ///
    /// # Errors
    ///
    /// `BadRow`, or `Memory`, where nothing may have changed.
    fn answer(&mut self, rt: &HostRuntime, line: &str) -> Result<String, RowFault>;

    /// Some numbers that tell whether anything has changed, without memory.
    fn seen(&self) -> [u64; 3];
}

/// Makes the calls of the rows of a file, and writes a line for each: what came. Where memory is wanting for a call,
/// nothing may have changed, and the call is made once more. Whether each was a row.
///
/// # Errors
///
/// Where nothing can be written.
pub fn run<L: Layers + Drop>(rt: &HostRuntime, rows: &str) -> io::Result<bool> {
    let mut layer: Option<L> = None;
    write_answers(rt, &mut layer, rows)
}

fn write_answers<L: Layers + Drop>(
    rt: &HostRuntime,
    layer: &mut Option<L>,
    rows: &str,
) -> io::Result<bool> {
    for line in rows.lines() {
        if !write_answer(rt, layer, line)? {
            return Ok(false);
        }
    }
    Ok(true)
}

fn write_answer<L: Layers + Drop>(
    rt: &HostRuntime,
    layer: &mut Option<L>,
    line: &str,
) -> io::Result<bool> {
    match answer_twice(rt, layer, line) {
        Ok(text) => {
            println!(rt; "{text}")?;
            Ok(true)
        }
        Err(fault) => {
            eprintln!(rt; "row_lab: {fault:?}: {line}")?;
            Ok(false)
        }
    }
}

fn answer_twice<L: Layers + Drop>(
    rt: &HostRuntime,
    layer: &mut Option<L>,
    line: &str,
) -> Result<String, RowFault> {
    let before = seen(layer);
    match answer(rt, layer, line) {
        Err(RowFault::Memory) => answer_again(rt, layer, line, before),
        answer => answer,
    }
}

fn answer_again<L: Layers + Drop>(
    rt: &HostRuntime,
    layer: &mut Option<L>,
    line: &str,
    before: [u64; 3],
) -> Result<String, RowFault> {
    if seen(layer) != before {
        return Err(RowFault::Changed);
    }
    answer(rt, layer, line)
}

fn seen<L: Layers>(layer: &Option<L>) -> [u64; 3] {
    match layer {
        Some(layer) => layer.seen(),
        None => [0; 3],
    }
}

fn answer<L: Layers + Drop>(
    rt: &HostRuntime,
    layer: &mut Option<L>,
    line: &str,
) -> Result<String, RowFault> {
    if L::has(Words::new(line).word()) {
        *layer = Some(L::begin(rt, line)?);
        return text_of(rt.alloc(), &"ok");
    }
    match layer {
        Some(layer) => layer.answer(rt, line),
        None => Err(RowFault::BadRow),
    }
}
