//! How an owner's stream stands at a node.

/// How far an owner's stream reaches here, and how much this node has sent beyond.
#[derive(Clone, Copy, Debug, PartialEq, Eq)]
pub struct StreamLook {
    pub reach: u32,
    /// How many messages this node has sent at the places that are open.
    pub outstanding: u32,
}
