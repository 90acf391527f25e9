//! What a node has sent to all, read place by place under its lock.

ghost use Rattle.std.specs.Prelude.{◌≡◌, ◌+◌, ◌^◌, ◌<◌, ◌≤◌, ◌++◌, length, take};
ghost use Rattle.std.specs.Prelude.{ℕ, IfOk, IfErr, OnOk, OnErr, option_map};
ghost use Rattle.std.specs.Option.{option_to_list};
ghost use Rattle.role_commands.specs.declared.command.Command.{Command};
ghost use Rattle.role_node.specs.Windows.{messages_of};
ghost use Rattle.owner_streams.specs.Places.{window};
ghost use Rattle.node_lock.specs.Views.{node_count};
ghost use Rattle.peer_windows.specs.Sent.{sent_between, probe_of, tail_of, probe_at, tail_at};
ghost use Rattle.peer_windows.specs.Sent.{IsReadFault, IsSeatAfter, IsLookAt};

use crate::stream_look::StreamLook;
use link_frames::{Kind, Message, Place};
use node_lock::{Locked, Seat, StepFault};
use owner_streams::WINDOW;
use quorum_sizes::NodeName;
use role_commands::Command;
use role_node::NodeAgain;
use std::alloc::AllocError;
use std::sync::ledger::Ledger;

/// Puts what the node has sent to all, from a place of the owner's stream on and before another, behind the messages.
/// The owner must be a node of the sizes ([`has`](Locked::has)).
///
/// # Errors
///
/// The seat does not fit the node, and last want of memory. The messages stay as they were.
pub fn push_sent<L: Ledger>(
    locked: &mut Locked<L>,
    seat: &mut Seat<L>,
    owner: NodeName,
    from: Place,
    to: Place,
    messages: &mut Vec<Message>,
) -> Result<(), StepFault>
    requires { owner < node_count locked.old }
    ensures ok { OnOk result (messages.new.items ≡ messages.old.items ++ sent_between locked.old owner from to) }
    ensures err { OnErr result (messages.new.items ≡ messages.old.items) }
    ensures fault { IfErr result (IsReadFault locked.old seat.old) }
    ensures seat { IsSeatAfter locked.old seat.old seat.new }
    ensures same { locked.new ≡ locked.old }
{
    let count = messages.len();
    let pushed = push_places(locked, seat, owner, from, to, messages);
    if pushed.is_err() {
        messages.truncate(count);
    }
    pushed
}

/// The same, where some messages may be there after an error.
#[tactic(auto, using(crate::proofs::Reading::fault_before, crate::proofs::Reading::at_begin))]
fn push_places<L: Ledger>(
    locked: &mut Locked<L>,
    seat: &mut Seat<L>,
    owner: NodeName,
    from: Place,
    to: Place,
    messages: &mut Vec<Message>,
) -> Result<(), StepFault>
    requires { owner < node_count locked.old }
    ensures ok { OnOk result (messages.new.items ≡ messages.old.items ++ sent_between locked.old owner from to) }
    ensures begin { take (length messages.old.items) messages.new.items ≡ messages.old.items }
    ensures fault { IfErr result (IsReadFault locked.old seat.old) }
    ensures seat { IsSeatAfter locked.old seat.old seat.new }
    ensures same { locked.new ≡ locked.old }
{
    for place in from..to {
        let (_, view) = locked.hold(seat, None, owner, place)?;
        push_again(messages, owner, place, &view.again)?;
    }
    Ok(())
}

/// Puts what was sent at a place behind the messages.
///
/// # Errors
///
/// Only for want of memory. Some of it may be there.
pub fn push_again(
    messages: &mut Vec<Message>,
    owner: NodeName,
    place: Place,
    sent: &NodeAgain,
) -> Result<(), AllocError>
    ensures ok { OnOk result (messages.new.items ≡ messages.old.items ++ messages_of owner place sent.now) }
    ensures begin { take (length messages.old.items) messages.new.items ≡ messages.old.items }
{
    push_kind(messages, Kind::Send, owner, place, sent.send)?;
    push_kind(messages, Kind::Echo, owner, place, sent.echo)?;
    push_kind(messages, Kind::Ready, owner, place, sent.ready)
}

/// Puts the message of a kind behind the messages, if it was sent.
fn push_kind(
    messages: &mut Vec<Message>,
    kind: Kind,
    owner: NodeName,
    place: Place,
    sent: Option<Command>,
) -> Result<(), AllocError>
    ensures ok { OnOk result (messages.new.items ≡ messages.old.items ++ option_to_list (option_map
        (λ (command : Command). record { kind = kind; owner = owner; place = place; command = command }) sent)) }
    ensures err { OnErr result (messages.new.items ≡ messages.old.items) }
    ensures begin { take (length messages.old.items) messages.new.items ≡ messages.old.items }
{
    if let Some(command) = sent {
        messages.push(Message {
            kind,
            owner,
            place,
            command,
        })?;
    }
    Ok(())
}

/// Puts the READY at the last place that the owner's stream reaches beyond behind the messages, if there is one. The
/// owner must be a node of the sizes.
///
/// # Errors
///
/// The seat does not fit the node, and last want of memory. The messages stay as they were.
#[tactic(auto, using(crate::proofs::Seats::reading))]
pub fn push_probe<L: Ledger>(
    locked: &mut Locked<L>,
    seat: &mut Seat<L>,
    owner: NodeName,
    messages: &mut Vec<Message>,
) -> Result<(), StepFault>
    requires { owner < node_count locked.old }
    ensures ok { OnOk result (messages.new.items ≡ messages.old.items ++ probe_of locked.old owner) }
    ensures err { OnErr result (messages.new.items ≡ messages.old.items) }
    ensures fault { IfErr result (IsReadFault locked.old seat.old) }
    ensures seat { IsSeatAfter locked.old seat.old seat.new }
    ensures same { locked.new ≡ locked.old }
{
    let (_, view) = locked.hold(seat, None, owner, 0)?;
    push_last_ready(locked, seat, owner, view.reach, messages)
}

/// The READY at the last place that a stream of this reach goes beyond.
#[tactic(auto, using(crate::proofs::Seats::reading))]
fn push_last_ready<L: Ledger>(
    locked: &mut Locked<L>,
    seat: &mut Seat<L>,
    owner: NodeName,
    reach: u32,
    messages: &mut Vec<Message>,
) -> Result<(), StepFault>
    requires { owner < node_count locked.old }
    ensures ok { OnOk result (messages.new.items ≡ messages.old.items ++ probe_at locked.old owner reach) }
    ensures err { OnErr result (messages.new.items ≡ messages.old.items) }
    ensures fault { IfErr result (IsReadFault locked.old seat.old) }
    ensures seat { IsSeatAfter locked.old seat.old seat.new }
    ensures same { locked.new ≡ locked.old }
{
    if reach > 0 {
        let (_, view) = locked.hold(seat, None, owner, reach - 1)?;
        push_kind(messages, Kind::Ready, owner, reach - 1, view.again.ready)?;
    }
    Ok(())
}

/// Puts the tail of the owner's stream behind the messages: the READY at the last place that it reaches beyond, and
/// what was sent at its end. The owner must be a node of the sizes.
///
/// # Errors
///
/// The seat does not fit the node, and last want of memory. The messages stay as they were.
pub fn push_tail<L: Ledger>(
    locked: &mut Locked<L>,
    seat: &mut Seat<L>,
    owner: NodeName,
    messages: &mut Vec<Message>,
) -> Result<(), StepFault>
    requires { owner < node_count locked.old }
    ensures ok { OnOk result (messages.new.items ≡ messages.old.items ++ tail_of locked.old owner) }
    ensures err { OnErr result (messages.new.items ≡ messages.old.items) }
    ensures fault { IfErr result (IsReadFault locked.old seat.old) }
    ensures seat { IsSeatAfter locked.old seat.old seat.new }
    ensures same { locked.new ≡ locked.old }
{
    let count = messages.len();
    let pushed = push_tail_parts(locked, seat, owner, messages);
    if pushed.is_err() {
        messages.truncate(count);
    }
    pushed
}

/// The same, where some messages may be there after an error.
#[tactic(auto, using(crate::proofs::Seats::reading))]
fn push_tail_parts<L: Ledger>(
    locked: &mut Locked<L>,
    seat: &mut Seat<L>,
    owner: NodeName,
    messages: &mut Vec<Message>,
) -> Result<(), StepFault>
    requires { owner < node_count locked.old }
    ensures ok { OnOk result (messages.new.items ≡ messages.old.items ++ tail_of locked.old owner) }
    ensures begin { take (length messages.old.items) messages.new.items ≡ messages.old.items }
    ensures fault { IfErr result (IsReadFault locked.old seat.old) }
    ensures seat { IsSeatAfter locked.old seat.old seat.new }
    ensures same { locked.new ≡ locked.old }
{
    let (_, view) = locked.hold(seat, None, owner, 0)?;
    push_tail_at(locked, seat, owner, view.reach, messages)
}

/// The tail of a stream of this reach, where some messages may be there after an error.
#[tactic(auto, using(crate::proofs::Seats::reading))]
fn push_tail_at<L: Ledger>(
    locked: &mut Locked<L>,
    seat: &mut Seat<L>,
    owner: NodeName,
    reach: u32,
    messages: &mut Vec<Message>,
) -> Result<(), StepFault>
    requires { owner < node_count locked.old }
    ensures ok { OnOk result (messages.new.items ≡ messages.old.items ++ tail_at locked.old owner reach) }
    ensures begin { take (length messages.old.items) messages.new.items ≡ messages.old.items }
    ensures fault { IfErr result (IsReadFault locked.old seat.old) }
    ensures seat { IsSeatAfter locked.old seat.old seat.new }
    ensures same { locked.new ≡ locked.old }
{
    let (_, end) = locked.hold(seat, None, owner, reach)?;
    push_last_ready(locked, seat, owner, reach, messages)?;
    push_again(messages, owner, reach, &end.again)?;
    Ok(())
}

/// How the owner's stream stands. The owner must be a node of the sizes.
///
/// # Errors
///
/// The seat does not fit the node. Last want of memory, where the stream is longer than streams are.
#[tactic(auto, using(crate::proofs::Seats::reading))]
pub fn look_at<L: Ledger>(
    locked: &mut Locked<L>,
    seat: &mut Seat<L>,
    owner: NodeName,
) -> Result<StreamLook, StepFault>
    requires { owner < node_count locked.old }
    ensures look { IfOk result (IsLookAt locked.old owner) }
    ensures fault { IfErr result (IsReadFault locked.old seat.old) }
    ensures seat { IsSeatAfter locked.old seat.old seat.new }
    ensures same { locked.new ≡ locked.old }
{
    let (_, view) = locked.hold(seat, None, owner, 0)?;
    let reach = view.reach;
    if reach >= u32::MAX - WINDOW {
        return Err(StepFault::Memory);
    }
    let outstanding = count_open(locked, seat, owner, reach)?;
    Ok(StreamLook { reach, outstanding })
}

/// How many messages were sent at the places that are open where the stream reaches so far.
#[tactic(auto, using(crate::proofs::Seats::reading))]
fn count_open<L: Ledger>(
    locked: &mut Locked<L>,
    seat: &mut Seat<L>,
    owner: NodeName,
    reach: u32,
) -> Result<u32, StepFault>
    requires owner { owner < node_count locked.old }
    requires few { reach + window < 2 ^ 32 }
    ensures count { IfOk result (λ count. count ≡ length (sent_between locked.old owner reach (reach + window))) }
    ensures fault { IfErr result (IsReadFault locked.old seat.old) }
    ensures seat { IsSeatAfter locked.old seat.old seat.new }
    ensures same { locked.new ≡ locked.old }
{
    let mut count = 0u32;
    for place in reach..reach + WINDOW {
        let (_, view) = locked.hold(seat, None, owner, place)?;
        count += count_of(&view.again);
    }
    Ok(count)
}

/// How many messages were sent at a place.
fn count_of(sent: &NodeAgain) -> u32
    ensures value { (owner place : ℕ) → result ≡ length (messages_of owner place sent.now) }
    ensures most { result ≤ 3 }
{
    u32::from(sent.send.is_some())
        + u32::from(sent.echo.is_some())
        + u32::from(sent.ready.is_some())
}
