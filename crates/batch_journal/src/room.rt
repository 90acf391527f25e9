//! The zeros behind the batches.

ghost use Rattle.std.specs.Prelude.{◌≡◌, ◌<◌, ◌≤◌, ◌^◌, replicate, IfOk};
ghost use Rattle.batch_journal.specs.Readings.{room_behind};

use std::alloc::{AllocError, Global};

/// Behind the last batch stand so many bytes at least in which no batch begins: a MiB.
pub const ROOM_BEHIND: usize = 1_048_576;

/// The same, without its value.
#[tactic(auto, unfolding(crate::specs::Readings::room_behind))]
pub(crate) fn room_behind() -> usize
    ensures value { result ≡ room_behind }
    ensures least { 1048576 ≤ result }
    ensures most { result ≤ 1048576 }
{
    ROOM_BEHIND
}

/// So many zeros.
pub(crate) fn zeros(alloc: Global, count: usize) -> Result<Vec<u8>, AllocError>
    ensures { IfOk result (λ bytes. bytes.items ≡ replicate count 0) }
{
    Vec::from_elem(alloc, 0u8, count)
}
