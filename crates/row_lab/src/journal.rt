//! The layers of a journal.

use row_words::{Layers, RowFault};

#[derive(Drop)]
pub struct Journal(journal_rows::Journal);

impl Layers for Journal {
    fn has(layer: &str) -> bool {
        journal_rows::has(layer)
    }

    fn begin(rt: &HostRuntime, line: &str) -> Result<Self, RowFault> {
        Ok(Journal(journal_rows::begin(rt, line)?))
    }

    fn answer(&mut self, rt: &HostRuntime, line: &str) -> Result<String, RowFault> {
        self.0.answer(rt, line)
    }

    fn seen(&self) -> [u64; 3] {
        self.0.seen()
    }
}
