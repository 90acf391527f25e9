//! The events of a journal, recorded once more.

ghost use Rattle.std.specs.Prelude.{◌≡◌, [], All, IfOk, IfErr, OnOk, OnErr};
ghost use Rattle.quorum_sizes.specs.Sizes.{AreSizes};
ghost use Rattle.role_node.specs.Answers.{is_recorded};
ghost use Rattle.role_node.specs.Nodes.{IsLegalNode, due_at};
ghost use Rattle.node_lock.specs.Holds.{end_of, Fits, held_after, seat_after};
ghost use Rattle.node_lock.specs.Receipts.{is_recorded_outcome};
ghost use Rattle.kept_node.specs.Events.{IsEventOf, digits_of_events};
ghost use Rattle.kept_node.specs.Restoring.{IsReplayFault};
ghost use Rattle.kept_node.specs.declared.replaying.ReplayFault.TheVariants as fault;

use crate::event_reading::read_event;
use node_lock::{Locked, Outcome, Seat, SharedNode, StepFault};
use quorum_sizes::NodeName;
use role_node::{Event, Reply};
use std::sync::ledger::Ledger;

/// The node has recorded events, or the seat is none of its.
#[derive(Clone, Copy, Debug, PartialEq, Eq)]
pub struct NotNew;

/// Why digits are not replayed.
#[derive(Clone, Copy, Debug, PartialEq, Eq)]
pub enum ReplayFault {
    /// Behind so many events stand digits that are none, or the node does not record it.
    Illegal { place: u64 },
    Memory,
}

/// A shared node that has recorded nothing, out of its lock, with one of its seats.
///
/// # Errors
///
/// It has recorded events, or the seat has.
pub fn new_locked<L: Ledger>(shared: SharedNode<L>, seat: &mut Seat<L>) -> Result<Locked<L>, NotNew>
    ensures new { IfOk result (λ locked. locked.node.history ≡ []) }
    ensures fits { IfOk result (λ locked. Fits locked seat.new) }
{
    let mut locked = shared.node.into_inner();
    let me = locked.me();
    match locked.hold(seat, None, me, 0) {
        Ok((_, view)) if view.at == 0 => Ok(locked),
        _ => Err(NotNew),
    }
}

/// Has the node record an event that it recorded once: whether it does.
///
/// # Errors
///
/// Only for want of memory.
fn replay_one<L: Ledger>(
    locked: &mut Locked<L>,
    seat: &mut Seat<L>,
    event: Event,
) -> Result<bool, ReplayFault>
    requires fits { Fits locked.old seat.old }
    ensures recorded { IfOk result (λ b. b ≡ is_recorded (due_at locked.old.node event)) }
    ensures held { OnOk result (locked.new ≡ held_after locked.old seat.old event) }
    ensures fits { Fits locked.new seat.new }
    ensures err { IfErr result (λ e. e ≡ fault.Memory) }
    ensures same { OnErr result (locked.new ≡ locked.old) }
    ensures legal { IsLegalNode locked.new.node }
{
    match locked.step(seat, event) {
        Ok(receipt) => Ok(has_recorded(&receipt.outcome)),
        Err(StepFault::Memory) => Err(ReplayFault::Memory),
        Err(_) => unreachable!(),
    }
}

/// Whether an outcome is of an event that was recorded.
fn has_recorded(outcome: &Outcome) -> bool
    ensures { result ≡ is_recorded_outcome outcome.now }
{
    match outcome {
        Outcome::Reply(reply) => !matches!(reply, Reply::Idle),
        Outcome::Answer(_) | Outcome::Refused(_) => false,
    }
}

/// Has a node that has recorded nothing record all events of these digits: how many they are.
///
/// # Errors
///
/// The digits behind some events are none, or the node does not record it; want of memory.
pub fn replay_events<L: Ledger>(
    locked: &mut Locked<L>,
    seat: &mut Seat<L>,
    digits: &[u8],
) -> Result<u64, ReplayFault>
    requires new { locked.old.node.history ≡ [] }
    requires fits { Fits locked.old seat.old }
    ensures node { locked.new.node ≡ record locked.old.node { history = locked.new.node.history } }
    ensures digits { OnOk result (digits.now ≡ digits_of_events locked.new.node.history) }
    ensures each { OnOk result (All (IsEventOf locked.new.node.config.roles.sizes locked.new.node.me)
        locked.new.node.history) }
    ensures count { IfOk result (λ n. n ≡ end_of locked.new) }
    ensures fits { Fits locked.new seat.new }
    ensures legal { IsLegalNode locked.new.node }
    ensures sizes { AreSizes locked.new.node.config.roles.sizes }
    ensures illegal { IfErr result (IsReplayFault locked.old.node.config locked.old.node.me digits.now) }
{
    let sizes = locked.config().roles().sizes();
    let me = locked.me();
    let _nodes = sizes.n();
    let mut at = 0;
    let mut place = 0u64;
    while at < digits.len() {
        let Some((event, count)) = read_event(sizes, me, &digits[at..]) else {
            return Err(ReplayFault::Illegal { place });
        };
        if !replay_one(locked, seat, event)? {
            return Err(ReplayFault::Illegal { place });
        }
        at += count;
        place += 1;
    }
    Ok(place)
}
