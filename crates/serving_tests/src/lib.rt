//! Tests of a node that threads share, of what needs threads or waits: the other tests of a serving node's libraries are
//! rows of `rows/`. They stand here, as a crate with tests is proved twice.
#![tactic(auto)]

#[cfg(test)]
mod node_lock_tests;
