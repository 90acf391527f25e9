//! Scripts of one instance of the broadcast or of a cluster, and the line that is written for each line of one.
//!
//! `specs/Scripts.antt` says what a script means, and `specs/Runs.antt` what running it does.
#![tactic(auto)]

pub mod fault;
mod fields;
mod given;
mod grammar;
mod lab;
pub mod laws;
mod order_texts;
mod orders;
mod questions;
pub mod run;
mod stage;
mod texts;
