//! Rows of the layers below the broadcast: what a call of one of them answers.
#![tactic(auto)]

mod commands;
mod devices;
mod frames;
mod lines;
mod link;
mod quorums;
mod table;

pub use link::Link;
