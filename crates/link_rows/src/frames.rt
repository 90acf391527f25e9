//! Rows of keys and frames, over a frame that is held.

ghost use Rattle.std.specs.Prelude.{◌≡◌, ◌<◌};

use link_frames::{KeyFault, Message, Packet, PairKeys, frames_of, hmac_sha256, open_frame, seal};
use quorum_sizes::{NodeName, Sizes};
use row_words::{Pair, RowFault, Spelled, Words, hex_text, kind_word, text_of};
use std::alloc::Global;
use std::fmt;
use std::fmt::Display;

/// So many bytes have a tag here.
const MOST_BYTES: usize = 65_536;

/// The keys of a node.
#[derive(Drop)]
struct Ring {
    sizes: Sizes,
    me: NodeName,
    keys: PairKeys,
    ghost same: { keys.sizes ≡ sizes },
    ghost mine: { keys.me ≡ me },
}

/// `frames`: no keys, and no bytes.
#[derive(Drop)]
pub struct Frames {
    ring: Option<Ring>,
    frame: Vec<u8>,
}

pub fn begin(alloc: Global) -> Frames {
    Frames {
        ring: None,
        frame: Vec::new(alloc),
    }
}

pub fn answer(alloc: Global, frames: &mut Frames, line: &str) -> Result<String, RowFault> {
    let mut words = Words::new(line);
    match words.word() {
        "hmac" => hmac(alloc, &mut words),
        "keys" => keys(alloc, frames, &mut words),
        "frame" => {
            frames.frame = words.bytes(alloc)?.as_slice().to_vec(alloc)?;
            text_of(alloc, &"ok")
        }
        "cut" => cut(alloc, frames),
        name => match &frames.ring {
            Some(ring) => with_keys(alloc, ring, &frames.frame, name, &mut words),
            None => Err(RowFault::BadRow),
        },
    }
}

fn with_keys(
    alloc: Global,
    ring: &Ring,
    frame: &[u8],
    name: &str,
    words: &mut Words<'_>,
) -> Result<String, RowFault> {
    match name {
        "seal" => sealed(alloc, ring, words),
        "open" => opened(alloc, ring, words.wide()?, words.bytes(alloc)?.as_slice()),
        "front" => front(alloc, ring, frame, words),
        "flip" => flip(alloc, ring, frame, words),
        _ => Err(RowFault::BadRow),
    }
}

/// `hmac KEY TEXT`
fn hmac(alloc: Global, words: &mut Words<'_>) -> Result<String, RowFault> {
    let key = words.bytes(alloc)?;
    let text = words.bytes(alloc)?;
    let tag = tag_of(key.as_slice(), text.as_slice())?;
    hex_text(alloc, &tag)
}

fn tag_of(key: &[u8], text: &[u8]) -> Result<[u8; 32], RowFault> {
    if key.len().max(text.len()) > MOST_BYTES {
        return Err(RowFault::BadRow);
    }
    Ok(hmac_sha256(key, text))
}

/// `keys N F ME KEY ..`: the keys that node ME shares with each node, in their order.
fn keys(alloc: Global, frames: &mut Frames, words: &mut Words<'_>) -> Result<String, RowFault> {
    let sizes = words.sizes()?;
    let me = words.node(&sizes)?;
    let shared = shared_of(alloc, words)?;
    match PairKeys::new(alloc, &sizes, me, &shared) {
        Ok(keys) => {
            frames.ring = Some(Ring { sizes, me, keys });
            text_of(alloc, &"ok")
        }
        Err(KeyFault::Memory) => Err(RowFault::Memory),
        Err(fault) => text_of(alloc, &fault),
    }
}

fn shared_of(alloc: Global, words: &mut Words<'_>) -> Result<Vec<[u8; 32]>, RowFault> {
    let mut shared = Vec::new(alloc);
    for _ in 0..u8::MAX {
        if words.is_done() {
            return Ok(shared);
        }
        shared.push(key_of(alloc, words)?)?;
    }
    Err(RowFault::BadRow)
}

/// A key: its bytes, or its first ones, with zeros behind them.
fn key_of(alloc: Global, words: &mut Words<'_>) -> Result<[u8; 32], RowFault> {
    let bytes = words.bytes(alloc)?;
    let mut key = [0u8; 32];
    for (place, byte) in key.iter_mut().zip(bytes.as_slice()) {
        *place = *byte;
    }
    Ok(key)
}

/// `seal CLUSTER TO KIND OWNER PLACE C`: the frame of the packet, or `none` where there is no such packet.
fn sealed(alloc: Global, ring: &Ring, words: &mut Words<'_>) -> Result<String, RowFault> {
    let cluster = words.wide()?;
    let to = words.node(&ring.sizes)?;
    match Packet::new(ring.me, to, message(&ring.sizes, words)?) {
        Some(packet) => hex_text(alloc, &seal(&ring.keys, cluster, &packet)),
        None => text_of(alloc, &"none"),
    }
}

/// `KIND OWNER PLACE C`
fn message(sizes: &Sizes, words: &mut Words<'_>) -> Result<Message, RowFault> {
    Ok(Message {
        kind: words.kind()?,
        owner: words.node(sizes)?,
        place: words.wide()?,
        command: words.command()?,
    })
}

/// What comes of opening these bytes: `FROM TO KIND OWNER PLACE C`, or the fault.
fn opened(alloc: Global, ring: &Ring, cluster: u32, bytes: &[u8]) -> Result<String, RowFault> {
    match open_frame(&ring.keys, &ring.sizes, cluster, bytes) {
        Ok(packet) => text_of(alloc, &Shown(packet)),
        Err(fault) => text_of(alloc, &fault),
    }
}

/// A packet, as `FROM TO KIND OWNER PLACE C`.
#[derive(Clone, Copy)]
struct Shown(Packet);

impl Display for Shown {
    fn fmt<W: fmt::Write>(&self, f: &mut fmt::Formatter<W>) -> fmt::Result {
        let (from, to) = (self.0.from().index(), self.0.to().index());
        let (owner, place) = (self.0.owner().index(), self.0.place());
        let (kind, command) = (kind_word(self.0.kind()), Spelled(self.0.command()));
        write!(f, "{from} {to} {kind} {owner} {place} {command}")
    }
}

/// `front CLUSTER COUNT`: opens so many first bytes of the frame.
fn front(
    alloc: Global,
    ring: &Ring,
    frame: &[u8],
    words: &mut Words<'_>,
) -> Result<String, RowFault> {
    let cluster = words.wide()?;
    let count = usize::from(words.byte()?);
    let front = frame.get(..count).ok_or(RowFault::BadRow)?;
    opened(alloc, ring, cluster, front)
}

/// `flip CLUSTER BYTE BITS`: opens the frame with these bits of a byte flipped.
fn flip(
    alloc: Global,
    ring: &Ring,
    frame: &[u8],
    words: &mut Words<'_>,
) -> Result<String, RowFault> {
    let cluster = words.wide()?;
    let at = usize::from(words.byte()?);
    let bits = words.byte()?;
    let mut bytes = frame.to_vec(alloc)?;
    let byte = bytes.get_mut(at).ok_or(RowFault::BadRow)?;
    *byte ^= bits;
    opened(alloc, ring, cluster, &bytes)
}

/// `cut`: how many frames the bytes are, and what is left of them.
fn cut(alloc: Global, frames: &Frames) -> Result<String, RowFault> {
    let (whole, rest) = frames_of(&frames.frame);
    let rest = hex_text(alloc, rest)?;
    text_of(
        alloc,
        &Pair(whole.len(), Pair("frames, rest", rest.as_str())),
    )
}
