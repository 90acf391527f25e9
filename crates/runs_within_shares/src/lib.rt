//! Clusters whose correct nodes are within their shares: laws alone.
//!
//! `specs/Laws.antt` has them.
#![tactic(auto)]

pub mod laws;
