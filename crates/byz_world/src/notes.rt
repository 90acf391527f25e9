//! What the nodes of a world send, and the order in which they record.

ghost use Rattle.std.specs.Prelude.{◌≡◌, ◌<◌, ◌++◌, ◌∷◌, [], option_map};
ghost use Rattle.std.specs.Vec.{vec_len, vec_capacity};
ghost use Rattle.byz_world.specs.Pools.{listed};
ghost use Rattle.byz_world.specs.inside.Kept.{outcome_reply};

use crate::step::{StepOutcome, StepReply};
use link_frames::Message;
use quorum_sizes::NodeName;
use role_node::Reply;

/// What a step answers by what came of it, where so many packets were sent before it and there are so many nodes.
pub(crate) fn step_reply(outcome: &StepOutcome, first: u32, nodes: u8) -> StepReply
    ensures { result ≡ outcome_reply first nodes outcome.now }
{
    let reply = match outcome {
        StepOutcome::Absorbed => return StepReply::Absorbed,
        StepOutcome::Idle => Reply::Idle,
        StepOutcome::Recorded(entry) => entry.reply(),
    };
    let count = if reply.message().is_some() { nodes } else { 0 };
    StepReply::Node {
        reply,
        first,
        count,
    }
}

/// Adds a name where there is room.
#[inline(always)]
pub(crate) fn note_name(order: &mut Vec<NodeName>, name: NodeName)
    requires { vec_len order.old < vec_capacity order.old }
    ensures { order.new.items ≡ order.old.items ++ name ∷ [] }
{
    order.push_reserved(name);
}

/// Adds the message that a node sends, if any, where there is room.
#[inline(always)]
pub(crate) fn note_sent(
    sent: &mut Vec<(NodeName, Message)>,
    from: NodeName,
    message: Option<Message>,
)
    requires { vec_len sent.old < vec_capacity sent.old }
    ensures { sent.new.items ≡ sent.old.items ++ listed (option_map (λ m. (from, m)) message) }
{
    if let Some(message) = message {
        sent.push_reserved((from, message));
    }
}
