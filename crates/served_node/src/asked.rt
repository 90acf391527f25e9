//! What a node answers to the lines beside the clients' table.

ghost use Rattle.std.specs.Prelude.{◌≡◌, IfSome};
ghost use Rattle.served_node.specs.Told.{IsAnswerOf};

use operator_lines::{
    OperatorAnswer, OperatorRequest, Status, command_at, decision_of, decisions_of, sessions_of,
    standing_of,
};
use owner_shares::Shares;
use role_commands::Items;
use role_node::Node;
use std::alloc::Global;

/// What a node answers to such a line, of which these shares are asked first, if any; of a status its links are left
/// out. Decisions go by the roles that the lists have of each owner. Nothing for want of memory, and where an owner is
/// no node of its sizes.
pub fn node_answer(
    alloc: Global,
    node: &Node,
    lists: &[Items<u16>],
    shares: Option<Shares>,
    request: OperatorRequest,
) -> Option<OperatorAnswer>
    ensures { IfSome result (IsAnswerOf node.now lists.now shares request) }
{
    match request {
        OperatorRequest::Status => Some(OperatorAnswer::Status(Status {
            node: standing_of(alloc, node, shares).ok()?,
            journal: None,
            peers: Items::new(Vec::new(alloc)),
            unopened: 0,
        })),
        OperatorRequest::Command { owner, place } => {
            if !node.config().roles().sizes().has(owner) {
                return None;
            }
            Some(OperatorAnswer::Command(command_at(node, owner, place)))
        }
        OperatorRequest::Sessions { from } => Some(OperatorAnswer::Sessions {
            at: node.events(),
            sessions: sessions_of(node, from).ok()?,
        }),
        OperatorRequest::Decide(asked) => {
            if !node.config().roles().sizes().has(asked.owner) {
                return None;
            }
            Some(OperatorAnswer::Decision {
                at: node.events(),
                decision: decision_of(node, lists, &asked),
            })
        }
        OperatorRequest::DecideAll(asked) => Some(OperatorAnswer::Decisions {
            at: node.events(),
            decisions: decisions_of(alloc, node, lists, asked.as_slice())?,
        }),
    }
}
