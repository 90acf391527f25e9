//! What the shares answer to an event.

use role_node::NodeFault;

/// What the shares answer to an event in the node's place. The node does not hear of it, and records nothing.
#[derive(Clone, Copy, Debug, PartialEq, Eq)]
pub enum ShareAnswer {
    /// The packet is about a place at its owner's share or behind it, and is lost. Nothing is sent for it.
    Lost,
    /// The command or the act is refused: a share is used up.
    Refused(NodeFault),
}
