//! The lines by which decisions are asked for.

ghost use Rattle.std.specs.Prelude.{◌≡◌, ◌⊎◌, Err, IfOk};
ghost use Rattle.serde_json.specs.View.{view};
ghost use Rattle.operator_lines.specs.Requests as lines;
ghost use Rattle.operator_lines.specs.Requests.{NamesNode};

use crate::decision::Access;
use crate::fault::OperatorFault;
use crate::member::OperatorMember;
use crate::request::{OperatorRequest, number, owner_of};
use crate::rows::{all_asked, rows_of};
use quorum_sizes::Sizes;
use serde_json::Value;
use std::alloc::Global;

/// What `decide` asks.
#[tactic(auto, unfolding(crate::specs::Requests::decide_of))]
pub(crate) fn decide_of(sizes: &Sizes, line: &Value) -> Result<OperatorRequest, OperatorFault>
    ensures value { result ≡ lines.decide_of sizes.now (view line.now) }
    ensures node { IfOk result (NamesNode sizes.now) }
{
    let user = number(line, OperatorMember::User, u64::from(u32::MAX))?;
    let owner = owner_of(sizes, line)?;
    let operation = number(line, OperatorMember::Operation, u64::from(u16::MAX))?;
    let object = number(line, OperatorMember::Object, u64::from(u32::MAX))?;
    Ok(OperatorRequest::Decide(Access {
        user: user as u32,
        owner,
        operation: operation as u16,
        object: object as u32,
    }))
}

/// What `decide_all` asks.
#[tactic(auto, unfolding(crate::specs::Requests::decide_all_of))]
pub(crate) fn decide_all_of(
    alloc: Global,
    sizes: &Sizes,
    line: &Value,
) -> Result<OperatorRequest, OperatorFault>
    ensures value { (result ≡ lines.decide_all_of sizes.now (view line.now)) ⊎ (result ≡ Err OperatorFault.Memory) }
    ensures node { IfOk result (NamesNode sizes.now) }
{
    let Some(value) = line.get(OperatorMember::Asked.name()) else {
        return Err(OperatorFault::Missing(OperatorMember::Asked));
    };
    match rows_of(sizes, value) {
        Some(rows) => Ok(OperatorRequest::DecideAll(all_asked(alloc, sizes, rows)?)),
        None => Err(OperatorFault::OutOfRange(OperatorMember::Asked)),
    }
}
