//! The layers of these rows: which one a file is about, and its value.

use crate::batches::BatchRows;
use crate::lives::LifeRows;
use crate::{batches, files, lives};
use row_words::{RowFault, Words};

/// A layer's value.
#[derive(Drop)]
pub enum Journal {
    /// `journal`
    Batches(BatchRows),
    /// `kept`
    Lives(LifeRows),
}

/// Whether a row with this first word begins one of these layers.
pub fn has(layer: &str) -> bool {
    matches!(layer, "journal" | "kept")
}

/// The value of the layer that the row begins, with a folder that holds nothing.
///
/// # Errors
///
/// `BadRow`, or `Memory`.
pub fn begin(rt: &HostRuntime, line: &str) -> Result<Journal, RowFault> {
    files::clear(rt)?;
    match Words::new(line).word() {
        "journal" => Ok(Journal::Batches(BatchRows::new(rt.alloc())?)),
        "kept" => Ok(Journal::Lives(LifeRows::new(rt.alloc()))),
        _ => Err(RowFault::BadRow),
    }
}

impl Journal {
    /// Makes the call that the row spells, and says what came.
    ///
    /// # Errors
    ///
    /// `BadRow`, or `Memory`.
    pub fn answer(&mut self, rt: &HostRuntime, line: &str) -> Result<String, RowFault> {
        match self {
            Journal::Batches(rows) => batches::answer(rt, rows, line),
            Journal::Lives(rows) => lives::answer(rt, rows, line),
        }
    }

    /// Nothing: a call that wants memory may leave on the disk what it had synced by then, and the same call goes on
    /// from there.
    pub fn seen(&self) -> [u64; 3] {
        [0; 3]
    }
}
