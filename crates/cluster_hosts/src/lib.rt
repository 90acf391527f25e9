//! What a node with a journal takes of a cluster text, beside the setup that `cluster_text` reads: where the nodes are,
//! and nothing that is kept for later. By fingerprints two owners compare their texts.
//!
//! `specs/Givens.antt` says what is taken of a text, `specs/Hosts.antt` where the nodes then are, and
//! `specs/Fingerprints.antt` what is compared.
#![tactic(auto)]

mod fault;
mod fingerprint;
mod given;
mod hosts;
mod reserved;

pub use fault::GivenFault;
pub use fingerprint::{Fingerprint, of_common, of_key};
pub use given::read_given;
pub use hosts::{Given, hosts_in};
pub use reserved::{Reserved, has_reserved_role, reserved_in};
