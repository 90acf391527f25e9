//! What a cluster text says, and the file that has it: the node that it sets up, the keys that it shares with each
//! node, and the ports. Programs that run a node stand on this.
//!
//! `specs/Setups.antt` says what a cluster text sets up, `specs/Shapes.antt` what its members are, and
//! `specs/Files.antt` what reading a cluster file does.
#![tactic(auto)]

pub mod cluster;
pub mod cluster_file;
pub mod fault;
mod shape;

pub use shape::list_of;
