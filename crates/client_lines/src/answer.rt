//! What a node answers to a client's line, and how an answer is written.

ghost use Rattle.std.specs.Prelude.{◌≡◌, ◌+◌, ◌≤◌, ◌<◌, ◌++◌, length, drop, decimal, codes, string_bytes};
ghost use Rattle.std.specs.Prelude.{IfOk, OnOk, IsAscii};
ghost use Rattle.std.specs.List.{join_by};
ghost use Rattle.client_lines.specs.AnswerTexts as texts;
ghost use Rattle.client_lines.specs.AnswerTexts.{IsWritten};
ghost use Rattle.client_lines.specs.inside.Items.{behind_comma, behind_commas};

use crate::fault::LineFault;
use itoa::{Buffer, Integer, write_digits};
use link_frames::Place;
use role_commands::Items;
use role_node::{NodeFault, Verdict};
use std::alloc::{AllocError, Global};

/// So many permissions are written into a block before a text takes them.
const BLOCK_PERMISSIONS: usize = 16;

/// The bytes of a block: 19 for each permission, the comma before it counted.
const BLOCK_BYTES: usize = 304;

/// Room for a permission and a comma: twice what the shortest takes.
const PERMISSION_ROOM: usize = 12;

/// What a node answers to a client line. `at` is how many events the node had recorded then.
#[derive(Drop, Debug)]
pub enum ClientAnswer {
    /// The command has this place in the node's own stream, which reaches so far.
    Issued {
        place: Place,
        reach: u32,
    },
    /// The session of this id is open.
    Session(u64),
    /// The client's act is done.
    Done,
    /// A decision.
    Verdict {
        at: u32,
        verdict: Verdict,
    },
    /// A listing of users.
    Users {
        at: u32,
        users: Items<u32>,
    },
    /// A listing of roles.
    Roles {
        at: u32,
        roles: Items<u16>,
    },
    /// A listing of permissions, each an operation and an object.
    Permissions {
        at: u32,
        permissions: Items<(u16, u32)>,
    },
    /// A listing of operations.
    Operations {
        at: u32,
        operations: Items<u16>,
    },
    /// An owner's stream reaches so far.
    Reach(u32),
    /// So many messages were sent once more, 0 to 3.
    Again(u8),
    /// The node stops.
    Stopped,
    /// The node refuses.
    Refused(NodeFault),
    /// The line is no request.
    BadLine(LineFault),
}

/// The text of an answer, its line's end left out. The answer must not be want of memory.
///
/// # Errors
///
/// Only for want of memory.
pub fn answer_text(alloc: Global, answer: &ClientAnswer) -> Result<String, AllocError>
    requires { IsWritten answer.now }
    ensures { IfOk result (λ text. string_bytes text ≡ texts.answer_text answer.now) }
{
    match answer {
        ClientAnswer::Issued { place, reach } => issued_text(alloc, *place, *reach),
        ClientAnswer::Session(id) => number_text(alloc, "session", *id),
        ClientAnswer::Done => String::from_str(alloc, "{\"done\":true}"),
        ClientAnswer::Verdict { at, verdict } => verdict_text(alloc, *at, verdict),
        ClientAnswer::Users { at, users } => numbers_text(alloc, *at, "users", users.as_slice()),
        ClientAnswer::Roles { at, roles } => numbers_text(alloc, *at, "roles", roles.as_slice()),
        ClientAnswer::Permissions { at, permissions } => {
            permissions_text(alloc, *at, permissions.as_slice())
        }
        ClientAnswer::Operations { at, operations } => {
            numbers_text(alloc, *at, "operations", operations.as_slice())
        }
        ClientAnswer::Reach(reach) => number_text(alloc, "reach", u64::from(*reach)),
        ClientAnswer::Again(messages) => number_text(alloc, "again", u64::from(*messages)),
        ClientAnswer::Stopped => String::from_str(alloc, "{\"stopped\":true}"),
        ClientAnswer::Refused(fault) => refused_text(alloc, fault),
        ClientAnswer::BadLine(fault) => bad_line_text(alloc, fault),
    }
}

fn issued_text(alloc: Global, place: Place, reach: u32) -> Result<String, AllocError>
    ensures { IfOk result (λ text. string_bytes text ≡ texts.issued_text place reach) }
{
    let (mut first, mut second) = (Buffer::new(), Buffer::new());
    joined(
        alloc,
        "{\"issued\":",
        first.format(place),
        ",\"reach\":",
        second.format(reach),
        "}",
    )
}

fn number_text(alloc: Global, name: &str, number: u64) -> Result<String, AllocError>
    ensures { IfOk result (λ text. string_bytes text ≡ texts.number_text name.now number) }
{
    joined(alloc, "{\"", name, "\":", Buffer::new().format(number), "}")
}

fn verdict_text(alloc: Global, at: u32, verdict: &Verdict) -> Result<String, AllocError>
    ensures { IfOk result (λ text. string_bytes text ≡ texts.verdict_text at verdict.now) }
{
    match verdict {
        Verdict::Allow(role) => allow_text(alloc, at, *role),
        Verdict::Deny(rule) => deny_text(alloc, at, rule.code()),
    }
}

fn allow_text(alloc: Global, at: u32, role: u16) -> Result<String, AllocError>
    ensures { IfOk result (λ text. string_bytes text ≡ texts.allow_text at role) }
{
    let (mut first, mut second) = (Buffer::new(), Buffer::new());
    joined(
        alloc,
        "{\"allow\":true,\"at\":",
        first.format(at),
        ",\"role\":",
        second.format(role),
        "}",
    )
}

fn deny_text(alloc: Global, at: u32, code: &str) -> Result<String, AllocError>
    ensures { IfOk result (λ text. string_bytes text ≡ texts.deny_text at code.now) }
{
    joined(
        alloc,
        "{\"allow\":false,\"at\":",
        Buffer::new().format(at),
        ",\"rule\":\"",
        code,
        "\"}",
    )
}

/// The text of a listing of numbers.
fn numbers_text<T: Integer>(
    alloc: Global,
    at: u32,
    name: &str,
    numbers: &[T],
) -> Result<String, AllocError>
    ensures { IfOk result (λ text. string_bytes text
        ≡ texts.list_text at name.now (join_by T.text (codes ",") numbers.now)) }
{
    let mut text = list_front(alloc, at, name)?;
    add_numbers(&mut text, numbers)?;
    text.push_str("]}")?;
    Ok(text)
}

/// The text of a listing of permissions.
fn permissions_text(
    alloc: Global,
    at: u32,
    permissions: &[(u16, u32)],
) -> Result<String, AllocError>
    ensures { IfOk result (λ text. string_bytes text
        ≡ texts.list_text at (codes "permissions") (texts.permissions_text permissions.now)) }
{
    let mut text = list_front(alloc, at, "permissions")?;
    add_permissions(&mut text, permissions)?;
    text.push_str("]}")?;
    Ok(text)
}

/// The text of a listing up to its first item.
fn list_front(alloc: Global, at: u32, name: &str) -> Result<String, AllocError>
    ensures { IfOk result (λ text. string_bytes text
        ≡ codes "{\"at\":" ++ (decimal at ++ (codes ",\"" ++ (name.now ++ codes "\":[")))) }
{
    joined(
        alloc,
        "{\"at\":",
        Buffer::new().format(at),
        ",\"",
        name,
        "\":[",
    )
}

/// Adds the numbers, with a comma between each two.
fn add_numbers<T: Integer>(text: &mut String, numbers: &[T]) -> Result<(), AllocError>
    ensures { OnOk result (string_bytes text.new
        ≡ string_bytes text.old ++ join_by T.text (codes ",") numbers.now) }
{
    let Some((first, others)) = numbers.split_first() else {
        return Ok(());
    };
    let mut digits = Buffer::new();
    text.push_str(digits.format(*first))?;
    for number in others {
        text.push_str(",")?;
        text.push_str(digits.format(*number))?;
    }
    Ok(())
}

/// Adds the permissions, with a comma between each two.
fn add_permissions(text: &mut String, permissions: &[(u16, u32)]) -> Result<(), AllocError>
    ensures { OnOk result (string_bytes text.new
        ≡ string_bytes text.old ++ texts.permissions_text permissions.now) }
{
    let Some((&first, others)) = permissions.split_first() else {
        return Ok(());
    };
    text.reserve(permissions.len().saturating_mul(PERMISSION_ROOM))?;
    let mut block = [0; BLOCK_BYTES];
    let start = put_permission(&mut block, BLOCK_BYTES, first);
    add_ascii(text, &block[start + 1..])?;
    let mut rest = others;
    while !rest.is_empty() {
        let (part, more) = rest.split_at(rest.len().min(BLOCK_PERMISSIONS));
        let start = put_permissions(&mut block, part);
        add_ascii(text, &block[start..])?;
        rest = more;
    }
    Ok(())
}

/// Adds bytes that are ASCII.
#[inline(always)]
fn add_ascii(text: &mut String, ascii: &[u8]) -> Result<(), AllocError>
    requires { IsAscii ascii.now }
    ensures { OnOk result (string_bytes text.new ≡ string_bytes text.old ++ ascii.now) }
{
    match str::from_utf8(ascii) {
        Ok(ascii) => text.push_str(ascii),
        Err(_) => unreachable!(),
    }
}

/// Writes permissions, a comma before each, so that the last ends the block. Returns where they start.
fn put_permissions(block: &mut [u8; BLOCK_BYTES], permissions: &[(u16, u32)]) -> usize
    requires { length permissions.now ≤ 16 }
    ensures within { result ≤ 304 }
    ensures written { drop result block.new ≡ behind_commas permissions.now }
    ensures ascii { IsAscii (drop result block.new) }
{
    let mut left = permissions.len();
    let mut start = BLOCK_BYTES;
    while left > 0 {
        left -= 1;
        start = put_permission(block, start, permissions[left]);
    }
    start
}

/// Writes a comma and a permission that end where the rest of a block starts. Returns where the comma stands.
#[inline(always)]
fn put_permission(block: &mut [u8; BLOCK_BYTES], rest: usize, permission: (u16, u32)) -> usize
    requires { (19 ≤ rest) × (rest ≤ 304) }
    ensures within { (rest ≤ result + 19) × (result < rest) }
    ensures written { drop result block.new ≡ behind_comma permission ++ drop rest block.old }
    ensures ascii { IsAscii (drop rest block.old) → IsAscii (drop result block.new) }
{
    let (operation, object) = permission;
    block[rest - 1] = b']';
    let second = write_digits(u64::from(object), block, rest - 1);
    block[second - 1] = b',';
    let first = write_digits(u64::from(operation), block, second - 1);
    block[first - 1] = b'[';
    block[first - 2] = b',';
    first - 2
}

/// Two texts within three others, in memory that they just fill.
#[inline(always)]
fn joined(
    alloc: Global,
    front: &str,
    first: &str,
    between: &str,
    second: &str,
    end: &str,
) -> Result<String, AllocError>
    ensures { IfOk result (λ text. string_bytes text
        ≡ front.now ++ (first.now ++ (between.now ++ (second.now ++ end.now)))) }
{
    let inner = first
        .len()
        .saturating_add(between.len())
        .saturating_add(second.len());
    let mut text = String::with_capacity(
        alloc,
        front.len().saturating_add(inner).saturating_add(end.len()),
    )?;
    text.push_str(front)?;
    text.push_str(first)?;
    text.push_str(between)?;
    text.push_str(second)?;
    text.push_str(end)?;
    Ok(text)
}

fn refused_text(alloc: Global, fault: &NodeFault) -> Result<String, AllocError>
    ensures { IfOk result (λ text. string_bytes text ≡ texts.answer_text (ClientAnswer.Refused fault.now)) }
{
    match fault {
        NodeFault::Beyond { .. } => String::from_str(alloc, "{\"error\":\"S1 Beyond\"}"),
        fault => format!(in alloc; "{{\"error\":\"{fault}\"}}"),
    }
}

fn bad_line_text(alloc: Global, fault: &LineFault) -> Result<String, AllocError>
    ensures { IfOk result (λ text. string_bytes text ≡ texts.answer_text (ClientAnswer.BadLine fault.now)) }
{
    match fault.member() {
        Some(member) => format!(in alloc; "{{\"error\":\"{fault}\",\"name\":\"{member}\"}}"),
        None => format!(in alloc; "{{\"error\":\"{fault}\"}}"),
    }
}
