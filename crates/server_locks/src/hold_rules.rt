//! Which calls get no hold.

ghost use Rattle.std.specs.Prelude.{◌≡◌, None, IsSome, Some};
ghost use Rattle.node_lock.specs.Views.{held_after_hold};
ghost use Rattle.node_lock.specs.Seats.{Sitting};
ghost use Rattle.role_node.specs.Nodes.{IsLegalNode};
ghost use Rattle.server_locks.specs.HoldRules as rules;
ghost use Rattle.server_locks.specs.HoldRules.{IsWithin, no_hold_due, shows_begun_twice};

use crate::votes_ahead::VotesAhead;
use node_lock::Call;
use operator_lines::ServingFault;
use owner_shares::{ShareAnswer, Shares};
use role_node::{Event, NodeFault};
use served_node::HeldNode;

/// What becomes of a call that gets no hold by a rule of the server.
#[derive(Clone, Copy, Debug, PartialEq, Eq)]
pub enum NoHold {
    /// Its packet is lost.
    Lost,
    /// The server refuses it.
    Refused(ServingFault),
}

/// Which calls get no hold of the node: the server refuses them by itself, or loses their packets.
#[derive(Clone, Copy, Debug)]
pub struct HoldRules {
    /// Whether a node that was begun twice publishes nothing more.
    pub begun_twice: bool,
    /// The shares that are asked before the node, if any: those of its table of roles.
    pub shares: Option<Shares>,
}

impl HoldRules {
    /// Why a call gets no hold, if it gets none, where these have voted ahead. It takes no memory.
    pub fn no_hold<N: HeldNode>(&self, ahead: &VotesAhead, node: &N, call: &Call) -> Option<NoHold>
        ensures why { result ≡ no_hold_due self.now ahead.now (N.held node.now).node call.now }
        ensures within { (seat : Sitting) → result ≡ None → IsWithin self.now.shares (N.held node.now).node →
            IsWithin self.now.shares (held_after_hold (N.held node.now) seat (Some call.now)).node }
    {
        match call {
            Call::Step(Event::Issue(_)) if self.begun_twice && shows_begun_twice(ahead, node) => {
                Some(NoHold::Refused(ServingFault::BegunTwice))
            }
            Call::Step(event) => self.answer_of_shares(node, event),
            Call::Ask(_) => None,
        }
    }

    /// What the shares answer to an event, if there are any.
    fn answer_of_shares<N: HeldNode>(&self, node: &N, event: &Event) -> Option<NoHold>
        ensures answer { result ≡ rules.answer_due self.now.shares (N.held node.now).node event.now }
        ensures legal { IsSome self.now.shares → IsLegalNode (N.held node.now).node }
    {
        match &self.shares {
            Some(shares) => node
                .share_answer(shares, event)
                .map(|answer| no_hold_by(answer)),
            None => None,
        }
    }
}

/// What an answer of the shares makes of a call.
fn no_hold_by(answer: ShareAnswer) -> NoHold
    ensures { result ≡ rules.no_hold_by answer }
{
    match answer {
        ShareAnswer::Lost => NoHold::Lost,
        ShareAnswer::Refused(NodeFault::StreamFull) => NoHold::Refused(ServingFault::StreamFull),
        ShareAnswer::Refused(_) => NoHold::Refused(ServingFault::Full),
    }
}

/// Whether the node was begun twice, as its history shows or its peers do.
fn shows_begun_twice<N: HeldNode>(ahead: &VotesAhead, node: &N) -> bool
    ensures { result ≡ shows_begun_twice ahead.now (N.held node.now).node }
{
    node.is_begun_twice() || ahead.are_enough()
}
