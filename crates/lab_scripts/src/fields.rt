//! The numbers, names and bytes of a line, one by one.

ghost use Rattle.std.specs.Prelude.{◌≡◌, IfOk, option_map};
ghost use Rattle.lab_scripts.specs.Orders as reading;
ghost use Rattle.role_commands.specs.Numbers as numbers;

use hex::FromHexError;
use link_frames::Kind;
use quorum_sizes::{NodeName, Sizes};
use role_commands::Items;
use role_commands::numbers::{byte_number, long_number, narrow_number, split_word, wide_number};
use std::alloc::{AllocError, Global};

/// A session, and what stands behind its space.
#[tactic(auto, unfolding(crate::specs::Orders::then_rest))]
pub fn session_then(text: &str) -> Option<(u64, &str)>
    ensures { option_map (λ p. (p.0, p.1.now)) result ≡ reading.then_rest numbers.long_number text.now }
{
    let (word, rest) = split_word(text)?;
    Some((long_number(word)?, rest))
}

/// A user, an object or a place, and what stands behind its space.
#[tactic(auto, unfolding(crate::specs::Orders::then_rest))]
pub fn wide_then(text: &str) -> Option<(u32, &str)>
    ensures { option_map (λ p. (p.0, p.1.now)) result ≡ reading.then_rest numbers.wide_number text.now }
{
    let (word, rest) = split_word(text)?;
    Some((wide_number(word)?, rest))
}

/// A role or an operation, and what stands behind its space.
#[tactic(auto, unfolding(crate::specs::Orders::then_rest))]
pub fn narrow_then(text: &str) -> Option<(u16, &str)>
    ensures { option_map (λ p. (p.0, p.1.now)) result ≡ reading.then_rest numbers.narrow_number text.now }
{
    let (word, rest) = split_word(text)?;
    Some((narrow_number(word)?, rest))
}

/// A node, and what stands behind its space.
#[tactic(auto, unfolding(crate::specs::Orders::then_rest))]
pub fn node_then<'a>(sizes: &Sizes, text: &'a str) -> Option<(NodeName, &'a str)>
    ensures { option_map (λ p. (p.0, p.1.now)) result ≡ reading.then_rest (reading.node_number sizes.now) text.now }
{
    let (word, rest) = split_word(text)?;
    Some((node_number(sizes, word)?, rest))
}

/// A kind of message, and what stands behind its space.
#[tactic(auto, unfolding(crate::specs::Orders::then_rest))]
pub fn kind_then(text: &str) -> Option<(Kind, &str)>
    ensures { option_map (λ p. (p.0, p.1.now)) result ≡ reading.then_rest reading.kind_of text.now }
{
    let (word, rest) = split_word(text)?;
    Some((kind_of(word)?, rest))
}

fn kind_of(word: &str) -> Option<Kind>
    ensures { result ≡ reading.kind_of word.now }
{
    match word {
        "send" => Some(Kind::Send),
        "echo" => Some(Kind::Echo),
        "ready" => Some(Kind::Ready),
        _ => None,
    }
}

/// The name of a node of these sizes.
pub fn node_number(sizes: &Sizes, word: &str) -> Option<NodeName>
    ensures { result ≡ reading.node_number sizes.now word.now }
{
    sizes.name(byte_number(word)?)
}

/// The bytes of a word: two hexadecimal digits of either case for each, or `-` for none.
///
/// # Errors
///
/// Only for want of memory.
#[tactic(auto, unfolding(crate::specs::Orders::bytes_of))]
pub fn bytes_of(alloc: Global, word: &str) -> Result<Option<Items<u8>>, AllocError>
    ensures { IfOk result (λ bytes. bytes ≡ reading.bytes_of word.now) }
{
    if word == "-" {
        return Ok(Some(Items::new(Vec::new(alloc))));
    }
    if word.is_empty() {
        return Ok(None);
    }
    match hex::decode(alloc, word) {
        Ok(bytes) => Ok(Some(Items::new(bytes))),
        Err(FromHexError::OutOfMemory) => Err(AllocError),
        Err(_) => Ok(None),
    }
}
