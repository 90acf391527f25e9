//! Rows of a cluster: what a step or a question answers.
#![tactic(auto)]

mod cluster;

pub use cluster::Cluster;
