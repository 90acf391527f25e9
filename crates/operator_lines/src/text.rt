//! How an answer to an operator is written.

ghost use Rattle.std.specs.Prelude.{◌≡◌, ◌++◌, ℕ, List, codes, decimal, string_bytes, IfOk, OnOk};
ghost use Rattle.std.specs.List.{join_by};
ghost use Rattle.operator_lines.specs.AnswerTexts as texts;

use crate::answer::{JournalStanding, OperatorAnswer, PeerStanding, Status};
use crate::decision_text::{decision_text, decisions_text};
use crate::fault::{OperatorFault, ServingFault};
use crate::standing::NodeStanding;
use itoa::Buffer;
use owner_shares::ACTS_SHARE;
use role_commands::{Command, Items};
use std::alloc::{AllocError, Global};

/// The text of an answer, its line's end left out.
///
/// # Errors
///
/// Only for want of memory.
pub fn operator_text(alloc: Global, answer: &OperatorAnswer) -> Result<String, AllocError>
    ensures { IfOk result (λ text. string_bytes text ≡ texts.operator_text answer.now) }
{
    match answer {
        OperatorAnswer::Status(status) => status_text(alloc, status),
        OperatorAnswer::Command(command) => command_or_null(alloc, command),
        OperatorAnswer::Sessions { at, sessions } => {
            sessions_text(alloc, *at, sessions.as_slice())
        }
        OperatorAnswer::Decision { at, decision } => decision_text(alloc, *at, decision),
        OperatorAnswer::Decisions { at, decisions } => {
            decisions_text(alloc, *at, decisions.as_slice())
        }
        OperatorAnswer::BadLine(fault) => bad_line_text(alloc, fault),
    }
}

/// The text of a server's refusal of a client's line, its line's end left out.
///
/// # Errors
///
/// Only for want of memory.
pub fn refused_text(alloc: Global, fault: ServingFault) -> Result<String, AllocError>
    ensures { IfOk result (λ text. string_bytes text ≡ texts.refused_text fault) }
{
    format!(in alloc; "{{\"error\":\"{fault}\"}}")
}

fn status_text(alloc: Global, status: &Status) -> Result<String, AllocError>
    ensures { IfOk result (λ text. string_bytes text ≡ texts.status_text status.now) }
{
    let node = &status.node;
    let mut text = String::new(alloc);
    add_front(&mut text, node)?;
    text.push_str(",\"journal\":")?;
    status.journal.add_to(&mut text)?;
    add_number(&mut text, ",\"limit\":", u64::from(node.limit))?;
    text.push_str(",\"peers\":[")?;
    add_items(&mut text, status.peers.as_slice())?;
    text.push_str("]")?;
    add_streams(&mut text, node)?;
    add_number(&mut text, ",\"unopened\":", status.unopened)?;
    text.push_str("}")?;
    Ok(text)
}

/// Adds what clients have done, and may do.
fn add_acts(text: &mut String, node: &NodeStanding) -> Result<(), AllocError>
    ensures { OnOk result (string_bytes text.new ≡ string_bytes text.old ++ texts.acts_text node.now) }
{
    add_number(text, "{\"acts\":", u64::from(node.acts))?;
    text.push_str(",\"acts_share\":")?;
    add_acts_share(text, &node.shares)?;
    Ok(())
}

/// Adds how many acts clients may do, where there are shares.
fn add_acts_share(text: &mut String, places: &Option<Items<u32>>) -> Result<(), AllocError>
    ensures { OnOk result (string_bytes text.new
        ≡ string_bytes text.old ++ texts.or_null texts.acts_share_text places.now) }
{
    match places {
        Some(_) => text.push_str(Buffer::new().format(ACTS_SHARE)),
        None => text.push_str("null"),
    }
}

/// Adds a node's first members.
fn add_front(text: &mut String, node: &NodeStanding) -> Result<(), AllocError>
    ensures { OnOk result (string_bytes text.new ≡ string_bytes text.old ++ texts.front_text node.now) }
{
    add_acts(text, node)?;
    add_number(text, ",\"at\":", u64::from(node.at))?;
    add_flag(text, ",\"begun_twice\":", node.begun_twice)?;
    add_number(text, ",\"f\":", u64::from(node.liars))?;
    Ok(())
}

/// Adds how far streams have come, how many sessions are open, and how many places each node has.
fn add_streams(text: &mut String, node: &NodeStanding) -> Result<(), AllocError>
    ensures { OnOk result (string_bytes text.new ≡ string_bytes text.old ++ texts.streams_text node.now) }
{
    add_number(text, ",\"published\":", u64::from(node.published))?;
    text.push_str(",\"reaches\":[")?;
    add_items(text, node.reaches.as_slice())?;
    add_number(text, "],\"sessions\":", u64::from(node.sessions))?;
    text.push_str(",\"shares\":")?;
    node.shares.add_to(text)?;
    Ok(())
}

/// Adds how many places each node has.
fn add_places(text: &mut String, places: &[u32]) -> Result<(), AllocError>
    ensures { OnOk result (string_bytes text.new ≡ string_bytes text.old ++ texts.places_text places.now) }
{
    text.push_str("[")?;
    add_items(text, places)?;
    text.push_str("]")
}

/// Adds a journal's members.
fn add_journal(text: &mut String, journal: &JournalStanding) -> Result<(), AllocError>
    ensures { OnOk result (string_bytes text.new ≡ string_bytes text.old ++ texts.journal_text journal.now) }
{
    let times = &journal.times;
    add_number(text, "{\"last\":", times.last)?;
    add_number(text, ",\"mean\":", times.mean)?;
    add_flag(text, ",\"sound\":", journal.sound)?;
    add_number(text, ",\"syncs\":", times.syncs)?;
    add_number(text, ",\"worst\":", times.worst)?;
    text.push_str("}")?;
    Ok(())
}

/// Adds a peer's members.
fn add_peer(text: &mut String, peer: &PeerStanding) -> Result<(), AllocError>
    ensures { OnOk result (string_bytes text.new ≡ string_bytes text.old ++ texts.peer_text peer.now) }
{
    add_number(text, "{\"again\":", peer.again)?;
    add_flag(text, ",\"connected\":", peer.connected)?;
    add_flag(text, ",\"heard\":", peer.heard)?;
    add_number(text, ",\"lost\":", peer.lost)?;
    add_number(text, ",\"unopened\":", peer.unopened)?;
    add_number(text, ",\"waiting\":", u64::from(peer.waiting))?;
    text.push_str("}")?;
    Ok(())
}

fn command_or_null(alloc: Global, command: &Option<Command>) -> Result<String, AllocError>
    ensures { IfOk result (λ text. string_bytes text ≡ texts.operator_text (OperatorAnswer.Command command.now)) }
{
    match command {
        Some(command) => command_text(alloc, command),
        None => String::from_str(alloc, "{\"command\":null}"),
    }
}

fn command_text(alloc: Global, command: &Command) -> Result<String, AllocError>
    ensures { IfOk result (λ text. string_bytes text
        ≡ codes "{\"command\":" ++ texts.command_text command.now ++ codes "}") }
{
    match command {
        Command::Assign { user, role } => user_text(alloc, "assign", *user, *role),
        Command::Deassign { user, role } => user_text(alloc, "deassign", *user, *role),
        Command::Grant {
            role,
            operation,
            object,
        } => permission_text(alloc, "grant", *role, *operation, *object),
        Command::Revoke {
            role,
            operation,
            object,
        } => permission_text(alloc, "revoke", *role, *operation, *object),
        Command::Clear { role } => clear_text(alloc, *role),
    }
}

/// The text of a command about a user.
fn user_text(alloc: Global, op: &str, user: u32, role: u16) -> Result<String, AllocError>
    ensures { IfOk result (λ text. string_bytes text
        ≡ codes "{\"command\":" ++ texts.user_text op.now user role ++ codes "}") }
{
    let mut text = String::from_str(alloc, "{\"command\":{\"op\":\"")?;
    text.push_str(op)?;
    add_number(&mut text, "\",\"role\":", u64::from(role))?;
    add_number(&mut text, ",\"user\":", u64::from(user))?;
    text.push_str("}}")?;
    Ok(text)
}

/// The text of a command about a permission.
fn permission_text(
    alloc: Global,
    op: &str,
    role: u16,
    operation: u16,
    object: u32,
) -> Result<String, AllocError>
    ensures { IfOk result (λ text. string_bytes text
        ≡ codes "{\"command\":" ++ texts.permission_text op.now role operation object ++ codes "}") }
{
    let mut text = String::new(alloc);
    add_number(&mut text, "{\"command\":{\"object\":", u64::from(object))?;
    text.push_str(",\"op\":\"")?;
    text.push_str(op)?;
    add_number(&mut text, "\",\"operation\":", u64::from(operation))?;
    add_number(&mut text, ",\"role\":", u64::from(role))?;
    text.push_str("}}")?;
    Ok(text)
}

fn clear_text(alloc: Global, role: u16) -> Result<String, AllocError>
    ensures { IfOk result (λ text. string_bytes text
        ≡ codes "{\"command\":" ++ texts.clear_text role ++ codes "}") }
{
    let mut text = String::new(alloc);
    add_number(
        &mut text,
        "{\"command\":{\"op\":\"clear\",\"role\":",
        u64::from(role),
    )?;
    text.push_str("}}")?;
    Ok(text)
}

fn sessions_text(alloc: Global, at: u32, sessions: &[(u64, u32)]) -> Result<String, AllocError>
    ensures { IfOk result (λ text. string_bytes text ≡ texts.sessions_text at sessions.now) }
{
    let mut text = String::new(alloc);
    add_number(&mut text, "{\"at\":", u64::from(at))?;
    text.push_str(",\"sessions\":[")?;
    add_items(&mut text, sessions)?;
    text.push_str("]}")?;
    Ok(text)
}

fn bad_line_text(alloc: Global, fault: &OperatorFault) -> Result<String, AllocError>
    ensures { IfOk result (λ text. string_bytes text ≡ texts.operator_text (OperatorAnswer.BadLine fault.now)) }
{
    match fault.member() {
        Some(member) => format!(in alloc; "{{\"error\":\"{fault}\",\"name\":\"{member}\"}}"),
        None => format!(in alloc; "{{\"error\":\"{fault}\"}}"),
    }
}

/// What stands in an answer.
pub(crate) trait Item {
    ghost written: { Self → List ℕ };

    /// Adds its text.
    ///
    /// # Errors
    ///
    /// Only for want of memory.
    fn add_to(&self, text: &mut String) -> Result<(), AllocError>
        ensures { OnOk result (string_bytes text.new ≡ string_bytes text.old ++ written self.now) };
}

impl Item for u32 {
    ghost written = { decimal };

    fn add_to(&self, text: &mut String) -> Result<(), AllocError> {
        text.push_str(Buffer::new().format(*self))
    }
}

impl Item for (u64, u32) {
    ghost written = { texts.session_text };

    fn add_to(&self, text: &mut String) -> Result<(), AllocError> {
        add_number(text, "[", self.0)?;
        add_number(text, ",", u64::from(self.1))?;
        text.push_str("]")
    }
}

impl Item for Option<Items<u32>> {
    ghost written = { texts.or_null texts.places_text };

    fn add_to(&self, text: &mut String) -> Result<(), AllocError> {
        match self {
            Some(places) => add_places(text, places.as_slice()),
            None => text.push_str("null"),
        }
    }
}

impl Item for Option<JournalStanding> {
    ghost written = { texts.or_null texts.journal_text };

    fn add_to(&self, text: &mut String) -> Result<(), AllocError> {
        match self {
            Some(journal) => add_journal(text, journal),
            None => text.push_str("null"),
        }
    }
}

impl Item for Option<PeerStanding> {
    ghost written = { texts.or_null texts.peer_text };

    fn add_to(&self, text: &mut String) -> Result<(), AllocError> {
        match self {
            Some(peer) => add_peer(text, peer),
            None => text.push_str("null"),
        }
    }
}

/// Adds the items, with a comma between each two.
pub(crate) fn add_items<T: Item>(text: &mut String, items: &[T]) -> Result<(), AllocError>
    ensures { OnOk result (string_bytes text.new
        ≡ string_bytes text.old ++ join_by T.written (codes ",") items.now) }
{
    let Some((first, others)) = items.split_first() else {
        return Ok(());
    };
    first.add_to(text)?;
    for item in others {
        text.push_str(",")?;
        item.add_to(text)?;
    }
    Ok(())
}

/// Adds a text and a number behind it.
pub(crate) fn add_number(text: &mut String, front: &str, number: u64) -> Result<(), AllocError>
    ensures { OnOk result (string_bytes text.new ≡ string_bytes text.old ++ front.now ++ decimal number) }
{
    text.push_str(front)?;
    text.push_str(Buffer::new().format(number))
}

/// Adds a text and true or false behind it.
pub(crate) fn add_flag(text: &mut String, front: &str, flag: bool) -> Result<(), AllocError>
    ensures { OnOk result (string_bytes text.new ≡ string_bytes text.old ++ front.now ++ texts.flag_text flag) }
{
    text.push_str(front)?;
    text.push_str(if flag { "true" } else { "false" })
}
