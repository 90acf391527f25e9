//! What is written for a line of a cluster, its end left out.

ghost use Rattle.std.specs.Prelude.{◌≡◌, ◌++◌, ℕ, List, Some, codes, IfOk, string_bytes};
ghost use Rattle.std.specs.List.{flat_map};
ghost use Rattle.lab_scripts.specs.OrderTexts as texts;

use crate::texts::kind_word;
use byz_world::{StepReply, WorldFault};
use link_frames::Message;
use role_commands::{Command, TableFault};
use role_node::{Answer, Reply, Verdict};
use std::alloc::{AllocError, Global};
use std::fmt::{Display, Write};

/// What is written for a role: `ok`, or its fault.
///
/// # Errors
///
/// Only for want of memory, as of the others here.
pub fn role_text(alloc: Global, fault: Option<TableFault>) -> Result<String, AllocError>
    ensures { IfOk result (λ text. string_bytes text ≡ texts.role_text fault) }
{
    match fault {
        None => String::from_str(alloc, "ok"),
        Some(fault) => format!(in alloc; "{fault}"),
    }
}

/// What is written for a liar: `ok`, or that there is one too many.
pub fn liar_text(alloc: Global, too_many: bool) -> Result<String, AllocError>
    ensures { IfOk result (λ text. string_bytes text ≡ texts.liar_text too_many) }
{
    if too_many {
        format!(in alloc; "{}", WorldFault::TooManyLiars)
    } else {
        String::from_str(alloc, "ok")
    }
}

/// What is written for a step's answer.
pub fn step_reply_text(alloc: Global, answer: &StepReply) -> Result<String, AllocError>
    ensures { IfOk result (λ text. string_bytes text ≡ texts.step_reply_text answer.now) }
{
    match answer {
        StepReply::Absorbed => String::from_str(alloc, "absorbed"),
        StepReply::Node {
            reply,
            first,
            count,
        } => reply_text(alloc, reply, *first, *count),
    }
}

/// What is written for a node's reply, which sent so many packets from number `first` on.
fn reply_text(alloc: Global, reply: &Reply, first: u32, count: u8) -> Result<String, AllocError>
    ensures { IfOk result (λ text. string_bytes text ≡ texts.reply_text reply.now first count) }
{
    match reply {
        Reply::Idle => String::from_str(alloc, "idle"),
        Reply::Issued(message) => {
            let place = message.place;
            let range = range_text(alloc, first, count)?;
            format!(in alloc; "issued {place} sent {range}")
        }
        Reply::Counted {
            send,
            delivered,
            from,
            to,
        } => {
            let sent = sent_range_text(alloc, send, first, count)?;
            let growth = growth_text(alloc, *from, *to)?;
            counted_text(alloc, &sent, delivery_text(delivered), &growth)
        }
        Reply::Session(id) => format!(in alloc; "session {id}"),
        Reply::Done => String::from_str(alloc, "ok"),
    }
}

fn counted_text(
    alloc: Global,
    sent: &str,
    delivery: &str,
    growth: &str,
) -> Result<String, AllocError>
    ensures { IfOk result (λ text. string_bytes text ≡ codes "counted" ++ sent.now ++ delivery.now ++ growth.now) }
{
    format!(in alloc; "counted{sent}{delivery}{growth}")
}

/// The first and the last number of so many packets.
fn range_text(alloc: Global, first: u32, count: u8) -> Result<String, AllocError>
    ensures { IfOk result (λ text. string_bytes text ≡ texts.range_text first count) }
{
    let end = u64::from(first) + u64::from(count);
    between_text(alloc, first, end.saturating_sub(1))
}

fn between_text(alloc: Global, first: u32, last: u64) -> Result<String, AllocError>
    ensures { IfOk result (λ text. string_bytes text ≡ texts.between_text first last) }
{
    format!(in alloc; "{first}-{last}")
}

fn sent_range_text(
    alloc: Global,
    send: &Option<Message>,
    first: u32,
    count: u8,
) -> Result<String, AllocError>
    ensures { IfOk result (λ text. string_bytes text ≡ texts.sent_range_text send.now first count) }
{
    match send {
        None => Ok(String::new(alloc)),
        Some(message) => {
            let name = kind_word(message.kind);
            let range = range_text(alloc, first, count)?;
            format!(in alloc; " {name} {range}")
        }
    }
}

fn delivery_text(delivered: &Option<Command>) -> &'static str
    ensures { result.now ≡ texts.delivery_text delivered.now }
{
    match delivered {
        None => "",
        Some(_) => " delivered",
    }
}

fn growth_text(alloc: Global, from: u32, to: u32) -> Result<String, AllocError>
    ensures { IfOk result (λ text. string_bytes text ≡ texts.growth_text from to) }
{
    if from < to {
        format!(in alloc; " reach {to}")
    } else {
        Ok(String::new(alloc))
    }
}

/// What is written for how far a stream reaches.
pub fn reached_text(alloc: Global, reach: u32) -> Result<String, AllocError>
    ensures { IfOk result (λ text. string_bytes text ≡ texts.reached_text reach) }
{
    format!(in alloc; "reach {reach}")
}

/// What is written for how far two streams agree, if both nodes are correct.
pub fn agreed_text(alloc: Global, length: Option<u32>) -> Result<String, AllocError>
    ensures { IfOk result (λ text. string_bytes text ≡ texts.agreed_text length) }
{
    match length {
        None => format!(in alloc; "{}", WorldFault::NotCorrect),
        Some(length) => format!(in alloc; "agree {length}"),
    }
}

/// What is written for whether a cluster is at rest.
pub fn rest_text(alloc: Global, at_rest: bool) -> Result<String, AllocError>
    ensures { IfOk result (λ text. string_bytes text ≡ texts.rest_text at_rest) }
{
    String::from_str(alloc, if at_rest { "rest yes" } else { "rest no" })
}

/// What is written for an answer.
#[tactic(auto, unfolding(crate::specs::OrderTexts::numbers_text))]
pub fn answer_text(alloc: Global, answer: &Answer) -> Result<String, AllocError>
    ensures { IfOk result (λ text. string_bytes text ≡ texts.answer_text answer.now) }
{
    match answer {
        Answer::Verdict(verdict) => verdict_text(alloc, verdict),
        Answer::Users(users) => numbers_text(alloc, users.as_slice()),
        Answer::Roles(roles) => numbers_text(alloc, roles.as_slice()),
        Answer::Permissions(permissions) => permissions_text(alloc, permissions.as_slice()),
        Answer::Operations(operations) => numbers_text(alloc, operations.as_slice()),
    }
}

fn verdict_text(alloc: Global, verdict: &Verdict) -> Result<String, AllocError>
    ensures { IfOk result (λ text. string_bytes text ≡ texts.verdict_text verdict.now) }
{
    match verdict {
        Verdict::Allow(role) => format!(in alloc; "allow {role}"),
        Verdict::Deny(rule) => format!(in alloc; "deny {rule}"),
    }
}

fn numbers_text<T: Display>(alloc: Global, numbers: &[T]) -> Result<String, AllocError>
    ghost written: { T → List ℕ }
    requires { (number : T) → T.output number ≡ Some (written number) }
    ensures { IfOk result (λ text.
        string_bytes text ≡ codes "list" ++ flat_map (λ n. codes " " ++ written n) numbers.now) }
{
    let mut text = String::from_str(alloc, "list")?;
    for number in numbers {
        write!(text, " {number}")?;
    }
    Ok(text)
}

fn permissions_text(alloc: Global, permissions: &[(u16, u32)]) -> Result<String, AllocError>
    ensures { IfOk result (λ text. string_bytes text ≡ texts.permissions_text permissions.now) }
{
    let mut text = String::from_str(alloc, "list")?;
    for &(operation, object) in permissions {
        write!(text, " {operation}:{object}")?;
    }
    Ok(text)
}
