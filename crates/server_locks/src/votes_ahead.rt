//! Peers that vote ahead of what this node has published.

ghost use Rattle.std.specs.Prelude.{◌≡◌, nat_lt};
ghost use Rattle.std.specs.FinSet as sets;
ghost use Rattle.server_locks.specs.VotesAhead.{nobody_ahead, with_vote, are_enough};

use node_lock::Call;
use quorum_sizes::{NodeName, NodeSet, Sizes};
use served_node::{HeldNode, taken_packet};

/// The peers that have sent a packet about a place of this node's own stream which it has not published. A peer that
/// follows the rules does so only where the node published that place in a life that it has forgotten.
#[derive(Clone, Copy, Debug)]
pub struct VotesAhead {
    me: NodeName,
    /// At most so many nodes lie.
    liars: u8,
    peers: NodeSet,
}

impl VotesAhead {
    /// Nobody has, at this node.
    pub fn new(sizes: &Sizes, me: NodeName) -> VotesAhead
        ensures { result ≡ nobody_ahead sizes.now me }
    {
        VotesAhead {
            me,
            liars: sizes.f(),
            peers: NodeSet::new(),
        }
    }

    /// Notes who sent the packet that a call has the node take, as the node stands before it. It takes no memory.
    pub fn note<N: HeldNode>(&mut self, node: &N, call: &Call)
        ensures { self.new ≡ with_vote (N.held node.now).node call.now self.old }
    {
        if let Some(packet) = taken_packet(call) {
            let (from, owner) = (packet.from(), packet.owner());
            if owner == self.me && from != self.me && packet.place() >= node.published() {
                self.peers.insert(from);
            }
        }
    }

    /// Whether these are more peers than may lie: then one that follows the rules is among them.
    pub fn are_enough(&self) -> bool
        ensures { result ≡ are_enough self.now }
    {
        self.peers.len() > usize::from(self.liars)
    }
}
