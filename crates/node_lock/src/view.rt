//! What a hold reads of a node.

use role_node::NodeAgain;

/// What a hold reads of a node, all after the same history.
#[derive(Clone, Copy, Debug, PartialEq, Eq)]
pub struct View {
    /// The length of the history.
    pub at: u32,
    /// How far the owner's stream reaches.
    pub reach: u32,
    /// What the node has sent to all at the place of the owner's stream.
    pub again: NodeAgain,
}
