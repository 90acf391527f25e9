//! Rows of answers: how what a client hears is written.

ghost use Rattle.std.specs.Prelude.{IfOk};
ghost use Rattle.client_lines.specs.AnswerTexts.{IsWritten};

use crate::lists::{narrows_of, permissions_of, wides_of};
use client_lines::{ClientAnswer, LineFault, Member, answer_text};
use role_commands::Items;
use role_node::{NodeFault, Rule, Verdict};
use row_words::{RowFault, Words};
use std::alloc::Global;

pub fn answer(alloc: Global, line: &str) -> Result<String, RowFault> {
    let mut words = Words::new(line);
    match words.word() {
        "bad" => bad(alloc, &mut words),
        "refused" => refused(alloc, &mut words),
        "each" => each(alloc, &mut words),
        name => Ok(answer_text(alloc, &answer_of(alloc, name, &mut words)?)?),
    }
}

/// An answer as its name and what it says.
fn answer_of(alloc: Global, name: &str, words: &mut Words<'_>) -> Result<ClientAnswer, RowFault>
    ensures { IfOk result IsWritten }
{
    match name {
        "issued" => issued_of(words),
        "session" => Ok(ClientAnswer::Session(words.long()?)),
        "done" => Ok(ClientAnswer::Done),
        "reach" => Ok(ClientAnswer::Reach(words.wide()?)),
        "again" => Ok(ClientAnswer::Again(words.byte()?)),
        "stopped" => Ok(ClientAnswer::Stopped),
        "at" => answer_at(alloc, words),
        _ => Err(RowFault::BadRow),
    }
}

/// `issued PLACE REACH`
fn issued_of(words: &mut Words<'_>) -> Result<ClientAnswer, RowFault>
    ensures { IfOk result IsWritten }
{
    let place = words.wide()?;
    let reach = words.wide()?;
    Ok(ClientAnswer::Issued { place, reach })
}

/// `at AT ..`: what a node answers that has recorded so many events.
fn answer_at(alloc: Global, words: &mut Words<'_>) -> Result<ClientAnswer, RowFault>
    ensures { IfOk result IsWritten }
{
    let at = words.wide()?;
    match words.word() {
        "allow" => allow_of(at, words),
        "deny" => deny_of(at, words.word()),
        "users" => users_of(alloc, at, words),
        "roles" => roles_of(alloc, at, words),
        "permissions" => listing_of(alloc, at, words),
        "operations" => operations_of(alloc, at, words),
        _ => Err(RowFault::BadRow),
    }
}

fn allow_of(at: u32, words: &mut Words<'_>) -> Result<ClientAnswer, RowFault>
    ensures { IfOk result IsWritten }
{
    let verdict = Verdict::Allow(words.narrow()?);
    Ok(ClientAnswer::Verdict { at, verdict })
}

fn deny_of(at: u32, code: &str) -> Result<ClientAnswer, RowFault>
    ensures { IfOk result IsWritten }
{
    let verdict = Verdict::Deny(rule_of(code)?);
    Ok(ClientAnswer::Verdict { at, verdict })
}

fn rule_of(code: &str) -> Result<Rule, RowFault> {
    match code {
        "N1" => Ok(Rule::NoSession),
        "N2" => Ok(Rule::NotYours),
        "N3" => Ok(Rule::NoActiveRole),
        "N4" => Ok(Rule::NoneAssigned),
        "N5" => Ok(Rule::NotPermitted),
        _ => Err(RowFault::BadRow),
    }
}

fn users_of(alloc: Global, at: u32, words: &mut Words<'_>) -> Result<ClientAnswer, RowFault>
    ensures { IfOk result IsWritten }
{
    let users = Items::new(wides_of(alloc, words)?);
    Ok(ClientAnswer::Users { at, users })
}

fn roles_of(alloc: Global, at: u32, words: &mut Words<'_>) -> Result<ClientAnswer, RowFault>
    ensures { IfOk result IsWritten }
{
    let roles = Items::new(narrows_of(alloc, words)?);
    Ok(ClientAnswer::Roles { at, roles })
}

fn listing_of(alloc: Global, at: u32, words: &mut Words<'_>) -> Result<ClientAnswer, RowFault>
    ensures { IfOk result IsWritten }
{
    let permissions = Items::new(permissions_of(alloc, words)?);
    Ok(ClientAnswer::Permissions { at, permissions })
}

fn operations_of(alloc: Global, at: u32, words: &mut Words<'_>) -> Result<ClientAnswer, RowFault>
    ensures { IfOk result IsWritten }
{
    let operations = Items::new(narrows_of(alloc, words)?);
    Ok(ClientAnswer::Operations { at, operations })
}

/// `bad CODE MEMBER`: the line is no request.
fn bad(alloc: Global, words: &mut Words<'_>) -> Result<String, RowFault> {
    let fault = match words.word() {
        "J1" => LineFault::NotJson,
        "J2" => LineFault::NotObject,
        "J3" => LineFault::NoOp,
        "J4" => LineFault::UnknownOp,
        "J5" => LineFault::Missing(member_of(words.word())?),
        "J6" => LineFault::OutOfRange(member_of(words.word())?),
        _ => return Err(RowFault::BadRow),
    };
    Ok(answer_text(alloc, &ClientAnswer::BadLine(fault))?)
}

fn member_of(name: &str) -> Result<Member, RowFault> {
    match name {
        "user" => Ok(Member::User),
        "role" => Ok(Member::Role),
        "operation" => Ok(Member::Operation),
        "object" => Ok(Member::Object),
        "session" => Ok(Member::Session),
        "owner" => Ok(Member::Owner),
        "place" => Ok(Member::Place),
        _ => Err(RowFault::BadRow),
    }
}

/// `refused CODE`: the node refuses.
fn refused(alloc: Global, words: &mut Words<'_>) -> Result<String, RowFault> {
    let fault = match words.word() {
        "F1" => NodeFault::NotMine,
        "F2" => NodeFault::StreamFull,
        "F3" => NodeFault::Busy,
        "F4" => NodeFault::Full,
        _ => return Err(RowFault::BadRow),
    };
    Ok(answer_text(alloc, &ClientAnswer::Refused(fault))?)
}

/// `each AT OPERATION FIRST LAST`: the operation on each of these objects is listed. How long the text is, and its
/// ends.
fn each(alloc: Global, words: &mut Words<'_>) -> Result<String, RowFault> {
    let at = words.wide()?;
    let permissions = Items::new(each_object(alloc, words)?);
    let text = answer_text(alloc, &ClientAnswer::Permissions { at, permissions })?;
    ends_text(alloc, &text)
}

fn each_object(alloc: Global, words: &mut Words<'_>) -> Result<Vec<(u16, u32)>, RowFault> {
    let operation = words.narrow()?;
    let first = words.wide()?;
    let mut permissions = Vec::new(alloc);
    for object in first..=words.wide()? {
        permissions.push((operation, object))?;
    }
    Ok(permissions)
}

fn ends_text(alloc: Global, text: &str) -> Result<String, RowFault> {
    let (head, _) = text.split_once("],[").ok_or(RowFault::BadRow)?;
    let (_, tail) = text.rsplit_once("],[").ok_or(RowFault::BadRow)?;
    let length = text.len();
    Ok(format!(in alloc; "{length} bytes {head} .. {tail}")?)
}
