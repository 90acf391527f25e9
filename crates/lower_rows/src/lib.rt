//! Rows of the layers from an instance to a node: what a call of one of them answers.
#![tactic(auto)]

mod instance;
mod lower;
mod many;
mod node;
pub mod packets;
mod policy;
pub mod roles;
pub mod said;
mod sessions;
mod streams;

pub use lower::Lower;
