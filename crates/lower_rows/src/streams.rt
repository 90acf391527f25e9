//! Rows of the owners' streams.

ghost use Rattle.std.specs.Prelude.{◌≡◌, ◌<◌, IfOk};

use crate::said::Caused;
use link_frames::{Message, Packet};
use owner_streams::{StreamFault, StreamStep, Streams};
use quorum_sizes::Sizes;
use row_words::{Behind, OrNone, RowFault, Spelled, Words, text_of};
use std::alloc::Global;
use std::fmt;
use std::fmt::Display;

/// The streams of a node of these sizes.
#[derive(Drop)]
pub struct Owned {
    sizes: Sizes,
    streams: Streams,
    ghost same: { streams.sizes ≡ sizes },
}

/// `streams N F`: no packet was taken.
pub fn begin(alloc: Global, words: &mut Words<'_>) -> Result<Owned, RowFault> {
    let sizes = words.sizes()?;
    let streams = Streams::new(alloc, sizes)?;
    Ok(Owned { sizes, streams })
}

pub fn answer(alloc: Global, rows: &mut Owned, line: &str) -> Result<String, RowFault> {
    let mut words = Words::new(line);
    match words.word() {
        "take" => take(alloc, rows, &mut words),
        "look" => look(alloc, rows, &mut words),
        "reach" => {
            let owner = words.node(&rows.sizes)?;
            text_of(alloc, &rows.streams.reach(owner))
        }
        "command" => command(alloc, rows, &mut words),
        "again" => again(alloc, rows, &mut words),
        "last-vote" => last_vote(alloc, rows, &mut words),
        _ => Err(RowFault::BadRow),
    }
}

/// The packet to node 1 that `KIND FROM OWNER PLACE C` spells.
fn packet_of(words: &mut Words<'_>, sizes: &Sizes) -> Result<Packet, RowFault>
    ensures { IfOk result (λ p. (p.from < sizes.now.nodes) × (p.owner < sizes.now.nodes)) }
{
    let kind = words.kind()?;
    let from = words.node(sizes)?;
    let message = Message {
        kind,
        owner: words.node(sizes)?,
        place: words.wide()?,
        command: words.command()?,
    };
    match Packet::new(from, from, message) {
        Some(packet) => Ok(packet),
        None => Err(RowFault::BadRow),
    }
}

/// What a packet caused, and from which place to which the stream grew.
#[derive(Clone, Copy)]
struct Stepped(StreamStep);

impl Display for Stepped {
    fn fmt<W: fmt::Write>(&self, f: &mut fmt::Formatter<W>) -> fmt::Result {
        let caused = Caused {
            effect: self.0.effect,
            broadcast: self.0.broadcast,
            delivered: self.0.delivered,
        };
        write!(f, "{caused}, {} to {}", self.0.from, self.0.to)
    }
}

/// `take KIND FROM OWNER PLACE C`
fn take(alloc: Global, rows: &mut Owned, words: &mut Words<'_>) -> Result<String, RowFault> {
    let packet = packet_of(words, &rows.sizes)?;
    match rows.streams.take(&packet) {
        Ok(step) => text_of(alloc, &Stepped(step)),
        Err(StreamFault::Memory) => Err(RowFault::Memory),
        Err(fault) => text_of(alloc, &fault),
    }
}

/// `look KIND FROM OWNER PLACE C`: whether the packet would count.
fn look(alloc: Global, rows: &Owned, words: &mut Words<'_>) -> Result<String, RowFault> {
    let packet = packet_of(words, &rows.sizes)?;
    match rows.streams.look(&packet) {
        Ok(effect) => {
            let caused = Caused {
                effect,
                broadcast: None,
                delivered: None,
            };
            text_of(alloc, &caused)
        }
        Err(fault) => text_of(alloc, &fault),
    }
}

/// `command OWNER PLACE`
fn command(alloc: Global, rows: &Owned, words: &mut Words<'_>) -> Result<String, RowFault> {
    let owner = words.node(&rows.sizes)?;
    let command = rows.streams.command(owner, words.wide()?);
    text_of(alloc, &OrNone(command.map(Spelled)))
}

/// `again OWNER PLACE`: `sent`, then ` echo C` and ` ready C`.
fn again(alloc: Global, rows: &Owned, words: &mut Words<'_>) -> Result<String, RowFault> {
    let owner = words.node(&rows.sizes)?;
    let again = rows.streams.again(owner, words.wide()?);
    let echo = Behind("echo", again.echo.map(Spelled));
    let ready = Behind("ready", again.ready.map(Spelled));
    Ok(format!(in alloc; "sent{echo}{ready}")?)
}

/// `last-vote OWNER VOTER`: a place, or `none`.
fn last_vote(alloc: Global, rows: &Owned, words: &mut Words<'_>) -> Result<String, RowFault> {
    let owner = words.node(&rows.sizes)?;
    let voter = words.node(&rows.sizes)?;
    text_of(alloc, &OrNone(rows.streams.last_vote(owner, voter)))
}

/// What is seen of the first stream: its reach, and whether its first places have a command.
pub fn seen(rows: &Owned) -> [u64; 3] {
    match rows.sizes.name(0) {
        Some(owner) => [
            u64::from(rows.streams.reach(owner)),
            u64::from(rows.streams.again(owner, 0).ready.is_some()),
            u64::from(rows.streams.again(owner, 1).ready.is_some()),
        ],
        None => [0; 3],
    }
}
