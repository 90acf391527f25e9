//! The steps of a world, and what they answer.

use link_frames::Packet;
use quorum_sizes::NodeName;
use role_commands::{Command, Items};
use role_node::{ClientEvent, Entry, Reply};

/// What may happen next to a cluster.
#[derive(Drop, Debug)]
pub enum Step {
    /// A node publishes a command.
    Issue { node: NodeName, command: Command },
    /// The network gives the packet of this number of the pool to its receiver, for the first time or again.
    Give { packet: u32 },
    /// A liar sends a packet in its own name, or the network repeats one that was sent.
    Lie { packet: Packet },
    /// Bytes arrive at a node, from whomever.
    Bytes { to: NodeName, bytes: Items<u8> },
    /// A client acts at a node.
    Client { node: NodeName, event: ClientEvent },
}

/// What a step answers.
#[derive(Clone, Copy, Debug, PartialEq, Eq)]
pub enum StepReply {
    /// The packet went to a liar.
    Absorbed,
    /// What the node replied.
    Node {
        /// The node's reply.
        reply: Reply,
        /// The number of the first packet that it sent now: how many there were before.
        first: u32,
        /// How many packets it sent: none, or one to each node.
        count: u8,
    },
}

/// What comes of a step that is not refused.
#[derive(Clone, Copy)]
pub(crate) enum StepOutcome {
    /// The packet went to a liar.
    Absorbed,
    /// The node has taken the packet before.
    Idle,
    /// The node has recorded this.
    Recorded(Entry),
}
