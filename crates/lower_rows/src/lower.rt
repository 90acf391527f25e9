//! The layers of these rows: which one a file is about, and its value.

use crate::instance::Instances;
use crate::sessions::Bench;
use crate::streams::Owned;
use crate::{instance, node, policy, sessions, streams};
use link_frames::hmac_sha256;
use rbac_state::Policy;
use role_node::Node;
use row_words::{Layers, RowFault, Words, hex_text};
use std::alloc::Global;

/// A layer's value.
#[derive(Drop)]
pub enum Lower {
    /// `instance`
    Instance(Instances),
    /// `streams`
    Streams(Owned),
    /// `policy`
    Policy(Policy),
    /// `sessions`
    Sessions(Bench),
    /// `node`
    Node(Node),
}

impl Layers for Lower {
    fn has(layer: &str) -> bool {
        matches!(
            layer,
            "instance" | "streams" | "policy" | "sessions" | "node"
        )
    }

    fn begin(rt: &HostRuntime, line: &str) -> Result<Self, RowFault> {
        begin(rt.alloc(), line)
    }

    fn answer(&mut self, rt: &HostRuntime, line: &str) -> Result<String, RowFault> {
        answer(rt.alloc(), self, line)
    }

    fn seen(&self) -> [u64; 3] {
        match self {
            Lower::Instance(rows) => instance::seen(rows),
            Lower::Streams(rows) => streams::seen(rows),
            Lower::Policy(policy) => policy::seen(policy),
            Lower::Sessions(bench) => sessions::seen(bench),
            Lower::Node(node) => node::seen(node),
        }
    }
}

fn begin(alloc: Global, line: &str) -> Result<Lower, RowFault> {
    let mut words = Words::new(line);
    match words.word() {
        "instance" => Ok(Lower::Instance(instance::begin(alloc, &mut words)?)),
        "streams" => Ok(Lower::Streams(streams::begin(alloc, &mut words)?)),
        "policy" => Ok(Lower::Policy(policy::begin(alloc, &mut words)?)),
        "sessions" => Ok(Lower::Sessions(sessions::begin(alloc, &mut words)?)),
        "node" => Ok(Lower::Node(node::begin(alloc, &mut words)?)),
        _ => Err(RowFault::BadRow),
    }
}

/// What comes of a row: behind `digest` the HMAC of that text under `rows`.
fn answer(alloc: Global, lower: &mut Lower, line: &str) -> Result<String, RowFault> {
    match line.strip_prefix("digest ") {
        Some(line) => {
            let text = call(alloc, lower, line)?;
            digest(alloc, text.as_bytes())
        }
        None => call(alloc, lower, line),
    }
}

fn call(alloc: Global, lower: &mut Lower, line: &str) -> Result<String, RowFault> {
    match lower {
        Lower::Instance(rows) => instance::answer(alloc, rows, line),
        Lower::Streams(rows) => streams::answer(alloc, rows, line),
        Lower::Policy(policy) => policy::answer(alloc, policy, line),
        Lower::Sessions(bench) => sessions::answer(alloc, bench, line),
        Lower::Node(node) => node::answer(alloc, node, line),
    }
}

/// So many bytes have a digest here.
const MOST_BYTES: usize = 1_048_576;

fn digest(alloc: Global, text: &[u8]) -> Result<String, RowFault> {
    if text.len() > MOST_BYTES {
        return Err(RowFault::BadRow);
    }
    hex_text(alloc, &hmac_sha256(b"rows", text))
}
