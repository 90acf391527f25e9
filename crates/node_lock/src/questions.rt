//! The outcome of a question.

ghost use Rattle.std.specs.Prelude.{◌≡◌, IfOk, OnErr};
ghost use Rattle.node_lock.specs.Receipts.{outcome_due, MayWantMemory};
ghost use Rattle.node_lock.specs.declared.receipt.Call.TheVariants.{Ask};

use crate::receipt::Outcome;
use role_node::{AskFault, Node, NodeFault, Question};
use role_sessions::SessionFault;
use std::alloc::AllocError;

/// The outcome of a question, which is not recorded.
///
/// # Errors
///
/// Only for want of memory, and for a listing alone.
pub(crate) fn ask_outcome(node: &mut Node, question: Question) -> Result<Outcome, AllocError>
    ensures ok { IfOk result (λ outcome. outcome ≡ outcome_due node.old (Ask question)) }
    ensures err { OnErr result (MayWantMemory node.old (Ask question)) }
    ensures same { node.new ≡ node.old }
{
    match node.ask(question) {
        Ok(answer) => Ok(Outcome::Answer(answer)),
        Err(AskFault::NoSession) => Ok(Outcome::Refused(NodeFault::Session(
            SessionFault::NoSession,
        ))),
        Err(AskFault::Memory) => Err(AllocError),
    }
}
