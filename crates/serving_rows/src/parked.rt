//! Rows of packets that wait.

use crate::packets::{packet_of, packet_text};
use frame_queues::ParkedPackets;
use link_frames::{Packet, Place};
use quorum_sizes::{NodeName, Sizes};
use row_words::{RowFault, Words, text_of};
use std::alloc::Global;

/// Packets of one peer that wait at a node of a cluster of these sizes.
#[derive(Drop)]
pub struct Parked {
    sizes: Sizes,
    packets: ParkedPackets,
}

/// `parked N F`
pub fn begin(alloc: Global, words: &mut Words<'_>) -> Result<Parked, RowFault> {
    let sizes = words.sizes()?;
    let packets = ParkedPackets::new(alloc, sizes.n())?;
    Ok(Parked { sizes, packets })
}

pub fn answer(alloc: Global, parked: &mut Parked, line: &str) -> Result<String, RowFault> {
    let mut words = Words::new(line);
    match words.word() {
        "park" => park(alloc, parked, &mut words),
        "park-each" => park_each(alloc, parked, &mut words),
        "take" => take(alloc, parked, &mut words),
        "take-each" => take_each(alloc, parked, &mut words),
        "length" => length(alloc, parked),
        _ => Err(RowFault::BadRow),
    }
}

/// Some numbers that tell whether anything has changed.
pub fn seen(parked: &Parked) -> [u64; 3] {
    [parked.packets.len() as u64, 0, 0]
}

/// `length`: how many wait.
fn length(alloc: Global, parked: &Parked) -> Result<String, RowFault> {
    text_of(alloc, &parked.packets.len())
}

/// `park PACKET`: how many wait then.
fn park(alloc: Global, parked: &mut Parked, words: &mut Words<'_>) -> Result<String, RowFault> {
    let packet = packet_of(words, &parked.sizes)?;
    parked.packets.park(packet)?;
    length(alloc, parked)
}

/// `park-each COUNT PACKET`: the packet, and then such at the places behind its place. How many wait then.
fn park_each(
    alloc: Global,
    parked: &mut Parked,
    words: &mut Words<'_>,
) -> Result<String, RowFault> {
    let count = words.wide()?;
    let first = packet_of(words, &parked.sizes)?;
    for behind in 0..count {
        parked.packets.park(moved(&first, behind)?)?;
    }
    length(alloc, parked)
}

/// Such a packet so many places further.
fn moved(packet: &Packet, behind: u32) -> Result<Packet, RowFault> {
    let mut message = packet.message();
    message.place = message.place.checked_add(behind).ok_or(RowFault::BadRow)?;
    Packet::new(packet.from(), packet.to(), message).ok_or(RowFault::BadRow)
}

/// `take OWNER END`: the owner's first packet, if its place is below.
fn take(alloc: Global, parked: &mut Parked, words: &mut Words<'_>) -> Result<String, RowFault> {
    let owner = words.node(&parked.sizes)?;
    let packet = parked.packets.take(owner, words.wide()?);
    packet_text(alloc, packet)
}

/// `take-each COUNT OWNER END`: so many as `take` takes them. The last, if each but the first is such as the one before
/// it, at the place behind; else the first that is not.
fn take_each(
    alloc: Global,
    parked: &mut Parked,
    words: &mut Words<'_>,
) -> Result<String, RowFault> {
    let count = words.wide()?;
    let owner = words.node(&parked.sizes)?;
    let last = last_of(&mut parked.packets, owner, words.wide()?, count)?;
    packet_text(alloc, last)
}

fn last_of(
    packets: &mut ParkedPackets,
    owner: NodeName,
    end: Place,
    count: u32,
) -> Result<Option<Packet>, RowFault> {
    let mut last = packets.take(owner, end).ok_or(RowFault::BadRow)?;
    for _ in 1..count {
        let next = packets.take(owner, end);
        if next != Some(moved(&last, 1)?) {
            return Ok(next);
        }
        last = moved(&last, 1)?;
    }
    Ok(Some(last))
}
