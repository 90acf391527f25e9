//! What all layers' rows have in common: how a file of them is run, a line's words, why a row has no
//! answer, and texts of answers.
#![tactic(auto)]

mod fault;
mod files;
mod said;
mod text;
mod words;

pub use fault::RowFault;
pub use files::{Layers, run};
pub use said::{Behind, OrNone, Pair, Spelled, kind_word};
pub use text::{hex_text, list_text, permissions_text, text_of, yes_or_no};
pub use words::Words;
