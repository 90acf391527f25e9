//! A call that waits for a worker.

use crate::receipt::Call;

/// A call that waits for a worker, with a number by which its giver knows it.
#[derive(Clone, Copy, Debug, PartialEq, Eq)]
pub struct Job {
    pub number: u32,
    pub call: Call,
}
