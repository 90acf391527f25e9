//! An event as digits of a journal.

ghost use Rattle.std.specs.Prelude.{◌≡◌, ◌+◌, ◌<◌, ◌≤◌, ◌++◌, IsOk, OnOk, vec_len};
ghost use Rattle.std.specs.Vec.{vec_capacity};
ghost use Rattle.role_commands.specs.Words.{IsCommand};
ghost use Rattle.link_frames.specs.frames.Packets.{IsPacket};
ghost use Rattle.batch_journal.specs.Digits.{digits_of};
ghost use Rattle.role_node.specs.declared.event.Event.TheVariants as event_is;
ghost use Rattle.kept_node.specs.Events as events;
ghost use Rattle.kept_node.specs.Events.{event_digits, command_digits, act_digits, behind_number, IsAct, IsEvent};

use batch_journal::push_digits;
use link_frames::{Kind, Packet};
use role_commands::Command;
use role_node::Event;
use role_sessions::ClientEvent;
use std::alloc::AllocError;

/// An event has so many digits at most.
pub const MOST_EVENT_DIGITS: usize = 19;

/// Appends the digits of an event, 19 at most.
///
/// # Errors
///
/// Memory, and then digits of it may have been appended.
#[tactic(auto, unfolding(crate::specs::Events::event_digits))]
pub fn push_event(bytes: &mut Vec<u8>, event: &Event) -> Result<(), AllocError>
    ensures digits { OnOk result (bytes.new.items ≡ bytes.old.items ++ event_digits event.now) }
    ensures few { OnOk result (vec_len bytes.new ≤ vec_len bytes.old + 19) }
    ensures capacity { vec_capacity bytes.old ≤ vec_capacity bytes.new }
    ensures enough { vec_len bytes.old + 19 ≤ vec_capacity bytes.old → IsOk result }
    ensures fits { OnOk result (IsEvent event.now) }
{
    push_digits(bytes, 1, event_number(event))?;
    match event {
        Event::Issue(command) => push_command(bytes, command),
        Event::Take(packet) => push_packet(bytes, packet),
        Event::Client(act) => push_act(bytes, act),
    }
}

/// Appends what stands behind the number of a packet.
fn push_packet(bytes: &mut Vec<u8>, packet: &Packet) -> Result<(), AllocError>
    ensures digits { OnOk result (bytes.new.items ≡ bytes.old.items ++ behind_number (event_is.Take packet.now)) }
    ensures few { OnOk result (vec_len bytes.new ≤ vec_len bytes.old + 18) }
    ensures capacity { vec_capacity bytes.old ≤ vec_capacity bytes.new }
    ensures enough { vec_len bytes.old + 18 ≤ vec_capacity bytes.old → IsOk result }
    ensures fits { OnOk result (IsPacket packet.now) }
{
    let message = packet.message();
    push_digits(bytes, 2, u64::from(packet.from().index()))?;
    push_digits(bytes, 2, u64::from(message.owner.index()))?;
    push_digits(bytes, 3, u64::from(message.place))?;
    push_command(bytes, &message.command)
}

/// Appends what stands behind the number of a command.
fn push_command(bytes: &mut Vec<u8>, command: &Command) -> Result<(), AllocError>
    ensures digits { OnOk result (bytes.new.items ≡ bytes.old.items ++ command_digits command.now) }
    ensures few { OnOk result (vec_len bytes.new ≤ vec_len bytes.old + 11) }
    ensures capacity { vec_capacity bytes.old ≤ vec_capacity bytes.new }
    ensures enough { vec_len bytes.old + 11 ≤ vec_capacity bytes.old → IsOk result }
    ensures fits { OnOk result (IsCommand command.now) }
{
    match *command {
        Command::Assign { user, role } | Command::Deassign { user, role } => {
            push_digits(bytes, 3, u64::from(role))?;
            push_digits(bytes, 5, u64::from(user))
        }
        Command::Grant {
            role,
            operation,
            object,
        }
        | Command::Revoke {
            role,
            operation,
            object,
        } => {
            push_digits(bytes, 3, u64::from(role))?;
            push_digits(bytes, 3, u64::from(operation))?;
            push_digits(bytes, 5, u64::from(object))
        }
        Command::Clear { role } => push_digits(bytes, 3, u64::from(role)),
    }
}

/// Appends what stands behind the number of what a client does.
fn push_act(bytes: &mut Vec<u8>, act: &ClientEvent) -> Result<(), AllocError>
    ensures digits { OnOk result (bytes.new.items ≡ bytes.old.items ++ act_digits act.now) }
    ensures few { OnOk result (vec_len bytes.new ≤ vec_len bytes.old + 18) }
    ensures capacity { vec_capacity bytes.old ≤ vec_capacity bytes.new }
    ensures enough { vec_len bytes.old + 18 ≤ vec_capacity bytes.old → IsOk result }
    ensures fits { OnOk result (IsAct act.now) }
{
    match *act {
        ClientEvent::Open { user } => push_digits(bytes, 5, u64::from(user)),
        ClientEvent::Activate {
            session,
            user,
            role,
        }
        | ClientEvent::DropRole {
            session,
            user,
            role,
        } => {
            push_digits(bytes, 10, session)?;
            push_digits(bytes, 5, u64::from(user))?;
            push_digits(bytes, 3, u64::from(role))
        }
        ClientEvent::Close { session, user } => {
            push_digits(bytes, 10, session)?;
            push_digits(bytes, 5, u64::from(user))
        }
    }
}

/// The number that stands first.
fn event_number(event: &Event) -> u64
    ensures { result ≡ events.event_number event.now }
{
    match event {
        Event::Issue(command) => command_number(command),
        Event::Take(packet) => kind_number(packet.kind()) + command_number(&packet.command()),
        Event::Client(act) => act_number(act),
    }
}

fn command_number(command: &Command) -> u64
    ensures value { result ≡ events.command_number command.now }
    ensures few { result < 5 }
{
    match command {
        Command::Assign { .. } => 0,
        Command::Deassign { .. } => 1,
        Command::Grant { .. } => 2,
        Command::Revoke { .. } => 3,
        Command::Clear { .. } => 4,
    }
}

fn kind_number(kind: Kind) -> u64
    ensures value { result ≡ events.kind_number kind }
    ensures few { result < 16 }
{
    match kind {
        Kind::Send => 5,
        Kind::Echo => 10,
        Kind::Ready => 15,
    }
}

fn act_number(act: &ClientEvent) -> u64
    ensures { result ≡ events.act_number act.now }
{
    match act {
        ClientEvent::Open { .. } => 20,
        ClientEvent::Activate { .. } => 21,
        ClientEvent::DropRole { .. } => 22,
        ClientEvent::Close { .. } => 23,
    }
}
