//! Rows of the layers of a serving node: what a call of one of them answers.
#![tactic(auto)]

mod alone;
mod answers;
mod blocks;
mod bytes;
mod calls;
mod closing;
mod comes_first;
mod lines;
mod lists;
mod lock;
mod packets;
mod parked;
mod request_texts;
mod serving;
mod table;
mod told;
mod turns;
mod windows;

pub use serving::{Serving, begin, has};
