//! A node of one as a pipe: the first line is a cluster text, and each later one is a client's line, with one line of
//! answer.
//!
//! `cluster_text` says what a cluster text sets up, `specs/Answers.antt` what the node answers, `specs/Pipes.antt`
//! which text is due for an input, and `specs/Runs.antt` what running the pipe does.
#![tactic(auto)]

pub mod fault;
pub mod pipe;
