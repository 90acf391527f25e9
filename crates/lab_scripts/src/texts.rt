//! What is written for a line, its end left out.

ghost use Rattle.std.specs.Prelude.{◌≡◌, IfOk, string_bytes};
ghost use Rattle.lab_scripts.specs.Texts as texts;

use bracha_instance::{Effect, Taken};
use link_frames::Kind;
use quorum_sizes::Sizes;
use role_commands::{Command, print_command};
use std::alloc::{AllocError, Global};

/// The line for the first line: `sizes E A D`.
///
/// # Errors
///
/// Only for want of memory, as of the others here.
pub fn sizes_text(alloc: Global, sizes: &Sizes) -> Result<String, AllocError>
    ensures { IfOk result (λ text. string_bytes text ≡ texts.sizes_text sizes.now) }
{
    quorums_text(alloc, sizes.echo_quorum(), sizes.amplify(), sizes.deliver())
}

fn quorums_text(alloc: Global, e: u8, a: u8, d: u8) -> Result<String, AllocError>
    ensures { IfOk result (λ text. string_bytes text ≡ texts.quorums_text e a d) }
{
    format!(in alloc; "sizes {e} {a} {d}")
}

/// The line for a message: `idle`, or `counted` with what is sent and delivered.
pub fn outcome_text(alloc: Global, taken: &Taken) -> Result<String, AllocError>
    ensures { IfOk result
        (λ text. string_bytes text ≡ texts.outcome_of taken.now.effect taken.now.broadcast taken.now.delivered) }
{
    match taken.effect {
        Effect::Idle => String::from_str(alloc, "idle"),
        Effect::Counted => {
            let sent = sent_text(alloc, taken.broadcast)?;
            let delivered = delivered_text(alloc, taken.delivered)?;
            format!(in alloc; "counted{sent}{delivered}")
        }
    }
}

fn sent_text(alloc: Global, sent: Option<(Kind, Command)>) -> Result<String, AllocError>
    ensures { IfOk result (λ text. string_bytes text ≡ texts.sent_text sent) }
{
    match sent {
        None => Ok(String::new(alloc)),
        Some((kind, command)) => {
            let name = kind_word(kind);
            let command = print_command(alloc, &command)?;
            format!(in alloc; " {name} {command}")
        }
    }
}

fn delivered_text(alloc: Global, delivered: Option<Command>) -> Result<String, AllocError>
    ensures { IfOk result (λ text. string_bytes text ≡ texts.delivered_text delivered) }
{
    match delivered {
        None => Ok(String::new(alloc)),
        Some(command) => {
            let command = print_command(alloc, &command)?;
            format!(in alloc; " delivered {command}")
        }
    }
}

/// The name of a kind of message.
pub fn kind_word(kind: Kind) -> &'static str
    ensures { result.now ≡ texts.kind_word kind }
{
    match kind {
        Kind::Send => "send",
        Kind::Echo => "echo",
        Kind::Ready => "ready",
    }
}
