//! Keeping what was recorded, and how long that takes.

ghost use Rattle.std.specs.Prelude.{◌≡◌, ◌≤◌, IsOk, OnOk, OnErr};
ghost use Rattle.node_lock.specs.Holds.{end_of};

use served_node::{HeldNode, NotKept, SyncTally, micros};
use std::sync::{Mutex, Wait};
use std::time::Clock;

/// Keeps what was recorded. How long that takes is noted where it may be long, if there is anything to be kept.
///
/// # Errors
///
/// It could not be kept. Where all is kept already it never fails.
pub fn keep<N: HeldNode, R: Wait + Clock>(
    rt: &R,
    syncs: &Mutex<SyncTally>,
    node: &mut N,
) -> Result<(), NotKept>
    ensures kept { OnOk result
        ((u : N.Untold) → N.speaks_of u ≤ end_of (N.held node.new) → N.may_leave node.new u) }
    ensures all { OnOk result (N.is_kept node.new) }
    ensures err { OnErr result (N.has_failed node.new) }
    ensures nothing { N.is_kept node.old → IsOk result }
    ensures same { N.held node.new ≡ N.held node.old }
{
    if !N::may_sync_long() || node.kept().is_some() {
        return node.sync();
    }
    let began = micros(rt);
    let kept = node.sync();
    if let (Some(began), Some(ended)) = (began, micros(rt)) {
        let mut tally = syncs.lock(rt);
        tally.note(ended.saturating_sub(began));
    }
    kept
}
