//! Rows of the layers of a journal: what a call of one of them answers. The file lies in a folder of its own.
#![tactic(auto)]

mod batches;
mod changes;
mod events;
mod files;
mod head;
mod life;
mod lives;
mod node;
mod rows;
mod runs;
mod said;
mod trials;

pub use rows::{Journal, begin, has};
