//! The lines of a script of one instance.

ghost use Rattle.std.specs.Prelude.{◌≡◌, ◌<◌, IfSome, option_map};
ghost use Rattle.link_frames.specs.declared.frames.kind.Kind.TheVariants.{Send, Echo, Ready};
ghost use Rattle.lab_scripts.specs.Grammar as reading;
ghost use Rattle.lab_scripts.specs.Grammar.{IsFromNode};
ghost use Rattle.lab_scripts.specs.inside.Kept.{take_said};

use link_frames::Kind;
use quorum_sizes::{NodeName, Sizes};
use role_commands::numbers::{byte_number, split_word};
use role_commands::{Command, parse_command};

/// The node whose instance it is.
const OWNER: u8 = 0;

/// What a node says, as a line names it.
#[derive(Clone, Copy)]
pub struct LineMessage {
    /// The kind of the message.
    pub kind: Kind,
    /// The node that it is from.
    pub from: NodeName,
    /// What it is about.
    pub command: Command,
}

/// The sizes that a first line names, as `instance N F`.
#[tactic(auto, unfolding(crate::specs::Grammar::sizes_of_line))]
pub fn sizes_of_line(line: &str) -> Option<Sizes>
    ensures { result ≡ reading.sizes_of_line line.now }
{
    let (name, numbers) = split_word(line)?;
    if name == "instance" {
        sizes_of_numbers(numbers)
    } else {
        None
    }
}

#[tactic(auto, unfolding(crate::specs::Grammar::sizes_of_numbers))]
pub(crate) fn sizes_of_numbers(text: &str) -> Option<Sizes>
    ensures { result ≡ reading.sizes_of_numbers text.now }
{
    let (n, f) = split_word(text)?;
    let n = byte_number(n)?;
    let f = byte_number(f)?;
    Sizes::new(n, f).ok()
}

/// The message that a later line names, as `send C`, `echo I C` or `ready I C`.
#[tactic(auto, unfolding(crate::specs::Grammar::take_of_line))]
pub fn take_of_line(sizes: &Sizes, line: &str) -> Option<LineMessage>
    ensures value { option_map take_said result ≡ reading.take_of_line sizes.now line.now }
    ensures from { IfSome result (λ said. IsFromNode sizes.now (take_said said)) }
{
    let (name, text) = split_word(line)?;
    named_take(sizes, name, text)
}

#[tactic(auto, unfolding(crate::specs::Grammar::named_take))]
fn named_take(sizes: &Sizes, name: &str, text: &str) -> Option<LineMessage>
    ensures value { option_map take_said result ≡ reading.named_take sizes.now name.now text.now }
    ensures from { IfSome result (λ said. IsFromNode sizes.now (take_said said)) }
{
    match name {
        "send" => take_from(sizes, Kind::Send, OWNER, text),
        "echo" => vote_of(sizes, Kind::Echo, text),
        "ready" => vote_of(sizes, Kind::Ready, text),
        _ => None,
    }
}

#[tactic(auto, unfolding(crate::specs::Grammar::vote_of))]
fn vote_of(sizes: &Sizes, kind: Kind, text: &str) -> Option<LineMessage>
    ensures value { option_map take_said result ≡ reading.vote_of sizes.now kind text.now }
    ensures from { IfSome result (λ said. (said.kind ≡ kind) × (said.from < sizes.now.nodes)) }
{
    let (index, text) = split_word(text)?;
    let index = byte_number(index)?;
    take_from(sizes, kind, index, text)
}

#[tactic(auto, unfolding(crate::specs::Grammar::take_from))]
fn take_from(sizes: &Sizes, kind: Kind, index: u8, text: &str) -> Option<LineMessage>
    ensures value { option_map take_said result ≡ reading.take_from sizes.now kind index text.now }
    ensures from { IfSome result (λ said. (said.kind ≡ kind) × (said.from ≡ index) × (index < sizes.now.nodes)) }
{
    let from = sizes.name(index)?;
    let command = parse_command(text)?;
    Some(LineMessage {
        kind,
        from,
        command,
    })
}
