//! What a client's line asks of a node.

ghost use Rattle.std.specs.Prelude.{◌≡◌, ◌⊎◌, ◌≤◌, length, Err, IfOk, IfErr, option_and_then};
ghost use Rattle.serde_json.specs.Data.{Data};
ghost use Rattle.serde_json.specs.Find.{as_str};
ghost use Rattle.client_lines.specs.Json.{json_of};
ghost use Rattle.client_lines.specs.Members.{member_of};
ghost use Rattle.client_lines.specs.declared.member.Member.TheVariants.{Op};
ghost use Rattle.client_lines.specs.inside.Says.{Says};
ghost use Rattle.client_lines.specs.Requests as lines;
ghost use Rattle.client_lines.specs.Requests.{request_due, most_line_bytes};

use crate::fault::LineFault;
use crate::flat::flat_line;
use crate::json_value::read_json;
use crate::line::Line;
use crate::operation::operation_named;
use crate::plain_line::plain_line;
use crate::rows::request_of;
use json::Scratch;
use link_frames::Place;
use quorum_sizes::{NodeName, Sizes};
use role_commands::Command;
use role_node::{ClientEvent, Question};
use std::alloc::Global;

/// The most bytes of a line, its end not counted.
pub const MOST_LINE_BYTES: usize = 4096;

/// What a client line asks of a node.
#[derive(Clone, Copy, Debug, PartialEq, Eq)]
pub enum Request {
    /// To publish a command.
    Issue(Command),
    /// What the client does.
    Client(ClientEvent),
    /// A decision or a review.
    Ask(Question),
    /// How far this owner's stream reaches.
    Reach(NodeName),
    /// To send what was sent at a place once more.
    Again { owner: NodeName, place: Place },
    /// To stop.
    Stop,
}

/// What a line asks of a node of a cluster of these sizes.
///
/// # Errors
///
/// The first fault that holds; or want of memory to read the line, on any line of at most [`MOST_LINE_BYTES`].
pub fn read_request(alloc: Global, sizes: &Sizes, bytes: &[u8]) -> Result<Request, LineFault>
    ensures due { (result ≡ request_due sizes.now bytes.now) ⊎ (result ≡ Err LineFault.Memory) }
    ensures nodes { IfOk result (lines.NamesNodes sizes.now) }
    ensures memory { IfErr result (λ e. e ≡ LineFault.Memory → length bytes.now ≤ most_line_bytes) }
{
    RequestReader::new(alloc).read(sizes, bytes)
}

/// Reads one line after another, and keeps the memory that it takes.
#[derive(Drop)]
pub struct RequestReader {
    alloc: Global,
    scratch: Scratch,
}

impl RequestReader {
    /// A reader that has read no line.
    pub fn new(alloc: Global) -> RequestReader {
        RequestReader {
            alloc,
            scratch: Scratch::new(alloc),
        }
    }

    /// What a line asks of a node of a cluster of these sizes.
    ///
    /// # Errors
    ///
    /// The first fault that holds; or want of memory to read the line, on any line of at most [`MOST_LINE_BYTES`].
    #[tactic(auto, unfolding(crate::specs::Requests::request_due))]
    pub fn read(&mut self, sizes: &Sizes, bytes: &[u8]) -> Result<Request, LineFault>
        ensures due { (result ≡ request_due sizes.now bytes.now) ⊎ (result ≡ Err LineFault.Memory) }
        ensures nodes { IfOk result (lines.NamesNodes sizes.now) }
        ensures memory { IfErr result (λ e. e ≡ LineFault.Memory → length bytes.now ≤ most_line_bytes) }
    {
        if bytes.len() > MOST_LINE_BYTES {
            return Err(LineFault::NotJson);
        }
        let Ok(text) = str::from_utf8(bytes) else {
            return Err(LineFault::NotJson);
        };
        if let Some(line) = plain_line(text) {
            return request_of_line(sizes, &line);
        }
        self.read_other(sizes, text)
    }

    /// What a line asks that is not written as most clients write theirs.
    #[inline(never)]
    fn read_other(&mut self, sizes: &Sizes, text: &str) -> Result<Request, LineFault>
        ensures due { (result ≡ lines.request_if_json sizes.now (json_of text.now)) ⊎ (result ≡ Err LineFault.Memory) }
        ensures nodes { IfOk result (lines.NamesNodes sizes.now) }
    {
        match flat_line(text, &mut self.scratch)? {
            Some(line) => request_of_line(sizes, &line),
            None => read_any(self.alloc, sizes, text.as_bytes()),
        }
    }
}

/// What a line asks that may hold any value.
#[tactic(auto, unfolding(crate::specs::Requests::request_of_value))]
fn read_any(alloc: Global, sizes: &Sizes, bytes: &[u8]) -> Result<Request, LineFault>
    ensures due { (result ≡ lines.request_if_json sizes.now (json_of bytes.now)) ⊎ (result ≡ Err LineFault.Memory) }
    ensures nodes { IfOk result (lines.NamesNodes sizes.now) }
{
    match read_json(alloc, bytes)? {
        Some(value) if value.is_object() => request_of_line(sizes, &Line::of(&value)),
        Some(_) => Err(LineFault::NotObject),
        None => Err(LineFault::NotJson),
    }
}

/// What a line asks that says this.
fn request_of_line(sizes: &Sizes, line: &Line<'_>) -> Result<Request, LineFault>
    ensures value { (d : Data) → Says line.now d
        → result ≡ lines.request_if_named sizes.now (option_and_then as_str (member_of Op d)) d }
    ensures nodes { IfOk result (lines.NamesNodes sizes.now) }
{
    let Some(name) = line.op else {
        return Err(LineFault::NoOp);
    };
    match operation_named(name) {
        Some(operation) => request_of(sizes, operation, line),
        None => Err(LineFault::UnknownOp),
    }
}
