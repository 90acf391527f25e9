//! What an operator's line asks of a node.

ghost use Rattle.std.specs.Prelude.{◌≡◌, ◌⊎◌, ◌<◌, ◌≤◌, length, Err, IfOk, IfErr, IfSome};
ghost use Rattle.std.specs.Option.{option_transpose};
ghost use Rattle.serde_json.specs.View.{view};
ghost use Rattle.quorum_sizes.specs.Sizes.{Counts};
ghost use Rattle.client_lines.specs.Requests.{most_line_bytes};
ghost use Rattle.operator_lines.specs.Requests as lines;
ghost use Rattle.operator_lines.specs.Requests.{operator_due, NamesNode};

use crate::decide::{decide_all_of, decide_of};
use crate::decision::Access;
use crate::fault::OperatorFault;
use crate::member::OperatorMember;
use client_lines::{MOST_LINE_BYTES, Member, read_json};
use quorum_sizes::{NodeName, Sizes};
use role_commands::Items;
use serde_json::Value;
use std::alloc::Global;

/// The greatest number that a line may name as a place. Streams have places far below it.
pub const MOST_PLACE: u64 = 1 << 53;

/// So many accesses can be asked about in one line.
pub const MOST_ASKED: usize = 128;

/// What an operator's line asks of a node.
#[derive(Drop, Debug)]
pub enum OperatorRequest {
    /// How the node stands.
    Status,
    /// The command at a place of this owner's stream.
    Command { owner: NodeName, place: u64 },
    /// The open sessions of this id and of greater ones.
    Sessions { from: u64 },
    /// The decision on an access, by one owner's roles.
    Decide(Access),
    /// The decisions on several, by one history.
    DecideAll(Items<Access>),
}

/// What a line asks of a node of a cluster of these sizes, or `None` where it is no operator's.
///
/// # Errors
///
/// The first fault that holds; or want of memory to read the line, on any line of at most [`MOST_LINE_BYTES`].
#[tactic(auto, unfolding(crate::specs::Requests::operator_due))]
pub fn read_operator(
    alloc: Global,
    sizes: &Sizes,
    bytes: &[u8],
) -> Result<Option<OperatorRequest>, OperatorFault>
    ensures due { (result ≡ option_transpose (operator_due sizes.now bytes.now)) ⊎ (result ≡ Err OperatorFault.Memory) }
    ensures nodes { IfOk result (λ request. IfSome request (NamesNode sizes.now)) }
    ensures memory { IfErr result (λ e. e ≡ OperatorFault.Memory → length bytes.now ≤ most_line_bytes) }
{
    if bytes.len() > MOST_LINE_BYTES {
        return Ok(None);
    }
    match read_json(alloc, bytes)? {
        Some(line) => request_in(alloc, sizes, &line),
        None => Ok(None),
    }
}

/// What a line asks that is this value.
#[tactic(auto, unfolding(crate::specs::Requests::request_in))]
fn request_in(
    alloc: Global,
    sizes: &Sizes,
    line: &Value,
) -> Result<Option<OperatorRequest>, OperatorFault>
    ensures value { (result ≡ option_transpose (lines.request_in sizes.now (view line.now)))
        ⊎ (result ≡ Err OperatorFault.Memory) }
    ensures nodes { IfOk result (λ request. IfSome request (NamesNode sizes.now)) }
{
    let Some(name) = line.get(Member::Op.name()).and_then(Value::as_str) else {
        return Ok(None);
    };
    match name {
        "status" => Ok(Some(OperatorRequest::Status)),
        "command" => Ok(Some(command_of(sizes, line)?)),
        "sessions" => Ok(Some(sessions_of(line)?)),
        "decide" => Ok(Some(decide_of(sizes, line)?)),
        "decide_all" => Ok(Some(decide_all_of(alloc, sizes, line)?)),
        _ => Ok(None),
    }
}

#[tactic(auto, unfolding(crate::specs::Requests::command_of))]
fn command_of(sizes: &Sizes, line: &Value) -> Result<OperatorRequest, OperatorFault>
    ensures value { result ≡ lines.command_of sizes.now (view line.now) }
    ensures node { IfOk result (NamesNode sizes.now) }
{
    let owner = owner_of(sizes, line)?;
    let place = number(line, OperatorMember::Place, MOST_PLACE)?;
    Ok(OperatorRequest::Command { owner, place })
}

#[tactic(auto, unfolding(crate::specs::Requests::sessions_of))]
fn sessions_of(line: &Value) -> Result<OperatorRequest, OperatorFault>
    ensures value { result ≡ lines.sessions_of (view line.now) }
    ensures node { IfOk result (λ request. (s : Counts) → NamesNode s request) }
{
    let from = number(line, OperatorMember::From, u64::MAX)?;
    Ok(OperatorRequest::Sessions { from })
}

/// The node that the member names.
pub(crate) fn owner_of(sizes: &Sizes, line: &Value) -> Result<NodeName, OperatorFault>
    ensures value { result ≡ lines.owner_of sizes.now (view line.now) }
    ensures node { IfOk result (λ owner. owner < sizes.now.nodes) }
{
    let index = number(line, OperatorMember::Owner, u64::from(sizes.n() - 1))?;
    match sizes.name(index as u8) {
        Some(node) => Ok(node),
        None => unreachable!(),
    }
}

/// The whole number of the member, at most `most`.
#[tactic(auto, unfolding(crate::specs::Requests::number_of))]
pub(crate) fn number(line: &Value, member: OperatorMember, most: u64) -> Result<u64, OperatorFault>
    ensures value { result ≡ lines.number_of member most (view line.now) }
    ensures within { IfOk result (λ n. n ≤ most) }
{
    let Some(value) = line.get(member.name()) else {
        return Err(OperatorFault::Missing(member));
    };
    match value.as_u64() {
        Some(number) if number <= most => Ok(number),
        _ => Err(OperatorFault::OutOfRange(member)),
    }
}
