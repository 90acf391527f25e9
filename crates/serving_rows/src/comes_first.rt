//! Rows of the packets that come before an inbox.

ghost use Rattle.std.specs.Prelude.{◌≡◌, None, IsTrue};

use crate::packets::{packet_of, packet_text};
use frame_queues::FirstPackets;
use link_frames::Packet;
use quorum_sizes::Sizes;
use row_words::{RowFault, Words, text_of};
use std::alloc::Global;

/// What comes first at a node of a cluster of these sizes.
#[derive(Drop)]
pub struct First {
    sizes: Sizes,
    packets: FirstPackets,
    /// There is surely no own packet.
    is_free: bool,
    ghost free: { IsTrue is_free → packets.own ≡ None },
}

/// `comes-first N F`
pub fn begin(alloc: Global, words: &mut Words<'_>) -> Result<First, RowFault> {
    let sizes = words.sizes()?;
    let packets = FirstPackets::new(alloc, sizes.n())?;
    Ok(First {
        sizes,
        packets,
        is_free: true,
    })
}

pub fn answer(alloc: Global, first: &mut First, line: &str) -> Result<String, RowFault> {
    let mut words = Words::new(line);
    match words.word() {
        "park" => park(alloc, first, &mut words),
        "own" => own(alloc, first, &mut words),
        "reached" => reached(alloc, first, &mut words),
        "next" => next(alloc, first),
        _ => Err(RowFault::BadRow),
    }
}

/// `park PACKET`
fn park(alloc: Global, first: &mut First, words: &mut Words<'_>) -> Result<String, RowFault> {
    let packet = packet_of(words, &first.sizes)?;
    first.packets.park(packet)?;
    text_of(alloc, &"ok")
}

/// `own PACKET`, where no own packet waits.
fn own(alloc: Global, first: &mut First, words: &mut Words<'_>) -> Result<String, RowFault> {
    let packet = packet_of(words, &first.sizes)?;
    first.put_own(packet)?;
    text_of(alloc, &"ok")
}

impl First {
    fn put_own(&mut self, packet: Packet) -> Result<(), RowFault> {
        if !self.is_free {
            return Err(RowFault::BadRow);
        }
        self.is_free = false;
        self.packets.put_own(packet);
        Ok(())
    }
}

/// `reached OWNER END`
fn reached(alloc: Global, first: &mut First, words: &mut Words<'_>) -> Result<String, RowFault> {
    let owner = words.node(&first.sizes)?;
    first.packets.reached(owner, words.wide()?);
    text_of(alloc, &"ok")
}

/// `next`: the packet that comes next.
fn next(alloc: Global, first: &mut First) -> Result<String, RowFault> {
    let packet = first.packets.next();
    first.is_free = true;
    packet_text(alloc, packet)
}
