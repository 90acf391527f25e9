//! The layers of a serving node.

use row_words::{Layers, RowFault};

#[derive(Drop)]
pub struct Serving(serving_rows::Serving);

impl Layers for Serving {
    fn has(layer: &str) -> bool {
        serving_rows::has(layer)
    }

    fn begin(rt: &HostRuntime, line: &str) -> Result<Self, RowFault> {
        Ok(Serving(serving_rows::begin(rt.alloc(), line)?))
    }

    fn answer(&mut self, rt: &HostRuntime, line: &str) -> Result<String, RowFault> {
        self.0.answer(rt.alloc(), line)
    }

    fn seen(&self) -> [u64; 3] {
        self.0.seen()
    }
}
