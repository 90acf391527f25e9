//! How many nodes a cluster has, how many of them may lie, and the quorums that follow.
//!
//! `specs/Sizes.antt` has the limit on nodes and the three quorums.
#![tactic(auto)]

pub mod laws;
mod name;
mod node_set;
mod sizes;

pub use name::NodeName;
pub use node_set::{NodeSet, quorums_meet};
pub use sizes::{MOST_NODES, SizeFault, Sizes};
