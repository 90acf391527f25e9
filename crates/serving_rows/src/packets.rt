//! Packets, as a row spells them and as they are written.

use link_frames::{Message, Packet};
use quorum_sizes::Sizes;
use row_words::{OrNone, RowFault, Spelled, Words, kind_word, text_of};
use std::alloc::Global;
use std::fmt;
use std::fmt::Display;

/// The packet that all that is left spells, as `KIND FROM TO OWNER PLACE COMMAND`.
pub fn packet_of(words: &mut Words<'_>, sizes: &Sizes) -> Result<Packet, RowFault> {
    let kind = words.kind()?;
    let from = words.node(sizes)?;
    let to = words.node(sizes)?;
    let message = Message {
        kind,
        owner: words.node(sizes)?,
        place: words.wide()?,
        command: words.command()?,
    };
    Packet::new(from, to, message).ok_or(RowFault::BadRow)
}

/// A packet in words.
#[derive(Clone, Copy)]
struct Shown(Packet);

impl Display for Shown {
    fn fmt<W: fmt::Write>(&self, f: &mut fmt::Formatter<W>) -> fmt::Result {
        let kind = kind_word(self.0.kind());
        let (from, to) = (self.0.from().index(), self.0.to().index());
        let (owner, place) = (self.0.owner().index(), self.0.place());
        let command = Spelled(self.0.command());
        write!(f, "{kind} {from} {to} {owner} {place} {command}")
    }
}

/// `KIND FROM TO OWNER PLACE COMMAND`, or `none`.
pub fn packet_text(alloc: Global, packet: Option<Packet>) -> Result<String, RowFault> {
    text_of(alloc, &OrNone(packet.map(Shown)))
}
