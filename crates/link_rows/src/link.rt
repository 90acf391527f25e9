//! The layers of these rows: which one a file is about, and its value.

use crate::frames::Frames;
use crate::lines::Lines;
use crate::quorums::Quorums;
use crate::{commands, frames, lines, quorums, table};
use role_commands::RoleTable;
use row_words::{Layers, RowFault, Words};
use std::alloc::Global;

/// A layer's value.
#[derive(Drop)]
pub enum Link {
    /// `quorums`
    Quorums(Quorums),
    /// `commands`
    Commands,
    /// `table`
    Table(RoleTable),
    /// `frames`
    Frames(Frames),
    /// `lines`
    Lines(Lines),
}

impl Layers for Link {
    fn has(layer: &str) -> bool {
        matches!(layer, "quorums" | "commands" | "table" | "frames" | "lines")
    }

    fn begin(rt: &HostRuntime, line: &str) -> Result<Self, RowFault> {
        begin(rt.alloc(), line)
    }

    fn answer(&mut self, rt: &HostRuntime, line: &str) -> Result<String, RowFault> {
        answer(rt.alloc(), self, line)
    }

    fn seen(&self) -> [u64; 3] {
        [0; 3]
    }
}

fn begin(alloc: Global, line: &str) -> Result<Link, RowFault> {
    let mut words = Words::new(line);
    match words.word() {
        "quorums" => Ok(Link::Quorums(quorums::begin())),
        "commands" => Ok(Link::Commands),
        "table" => Ok(Link::Table(table::begin(alloc, &mut words)?)),
        "frames" => Ok(Link::Frames(frames::begin(alloc))),
        "lines" => Ok(Link::Lines(lines::begin(alloc)?)),
        _ => Err(RowFault::BadRow),
    }
}

fn answer(alloc: Global, link: &mut Link, line: &str) -> Result<String, RowFault> {
    match link {
        Link::Quorums(quorums) => quorums::answer(alloc, quorums, line),
        Link::Commands => commands::answer(alloc, line),
        Link::Table(table) => table::answer(alloc, table, line),
        Link::Frames(frames) => frames::answer(alloc, frames, line),
        Link::Lines(lines) => lines::answer(alloc, lines, line),
    }
}
