//! HMAC with SHA-256.

ghost use Rattle.std.specs.Prelude.{◌≡◌, ◌^◌, ◌<◌, List, ℕ, length};
ghost use Rattle.link_frames.specs.frames.Hmac.{padded_key, xor_each, hmac};
ghost use Rattle.link_frames.specs.frames.Pads.{AfterPads};
ghost use Rattle.link_frames.specs.frames.inside.MidStates.{MidStates};

use crate::frames::hmac_blocks::{block_words, digest_words, fields_words, hash_bytes};
use crate::frames::layout::TAG_AT;
use crate::frames::sha256::{INITIAL, compress};
use sha2::{Digest, Sha256};
use std::marker::Model;

/// The bytes of a block of SHA-256.
const BLOCK_LEN: usize = 64;

/// The key as one block: hashed where it is longer, with zero bytes behind it where it is shorter.
fn key_block(key: &[u8]) -> [u8; BLOCK_LEN]
    ensures { result ≡ padded_key key.now }
{
    let mut block = [0u8; BLOCK_LEN];
    if key.len() > BLOCK_LEN {
        block[..32].copy_from_slice(&Sha256::digest(key));
    } else {
        block[..key.len()].copy_from_slice(key);
    }
    block
}

fn padded_by(pad: u8, block: &[u8; BLOCK_LEN]) -> [u8; BLOCK_LEN]
    ensures { result ≡ xor_each pad block.now }
{
    let mut padded = *block;
    for byte in &mut padded {
        *byte ^= pad;
    }
    padded
}

/// SHA-256 after the key's inner pad, and after its outer pad.
fn after_pads(key: &[u8]) -> (Sha256, Sha256)
    ensures { AfterPads key.now result.0 result.1 }
{
    let block = key_block(key);
    let mut inner = Sha256::new();
    inner.update(&padded_by(0x36, &block));
    let mut outer = Sha256::new();
    outer.update(&padded_by(0x5c, &block));
    (inner, outer)
}

/// The HMAC of the text under the key whose pads were taken.
#[tactic(auto, unfolding(crate::specs::frames::Hmac::hmac))]
fn finished(mut inner: Sha256, mut outer: Sha256, text: &[u8]) -> [u8; 32]
    ensures { (key : List ℕ) → AfterPads key inner outer → result ≡ hmac key text.now }
{
    inner.update(text);
    outer.update(&inner.finalize());
    outer.finalize()
}

/// The HMAC of the text under the key, with SHA-256 (RFC 2104, FIPS 180-4). Key and text have fewer than 2^60 bytes
/// each. It takes no memory.
pub fn hmac_sha256(key: &[u8], text: &[u8]) -> [u8; 32]
    requires key { length key.now < 2 ^ 60 }
    requires text { length text.now < 2 ^ 60 }
    ensures { result ≡ hmac key.now text.now }
{
    let (inner, outer) = after_pads(key);
    finished(inner, outer, text)
}

/// A key, with the hash values of SHA-256 after each of its pads, so that its tags do not hash the pads anew.
#[derive(Drop)]
pub(crate) struct PreparedKey {
    key: [u8; 32],
    inner: [u32; 8],
    outer: [u32; 8],
}

impl Model for PreparedKey {
    ghost Value = { List ℕ };

    ghost view = { λ a. a.key };

    ghost invariant = { λ a. MidStates a.key a.inner a.outer };
}

impl PreparedKey {
    /// The key, prepared.
    pub(crate) fn new(key: &[u8; 32]) -> PreparedKey
        ensures { result ≡ key.now }
    {
        let block = key_block(key);
        PreparedKey {
            key: *key,
            inner: compress(INITIAL, block_words(&padded_by(0x36, &block))),
            outer: compress(INITIAL, block_words(&padded_by(0x5c, &block))),
        }
    }

    /// The HMAC of a frame's fields under the key, with SHA-256. It takes no memory.
    pub(crate) fn tag(&self, fields: &[u8; TAG_AT]) -> [u8; 32]
        ensures { result ≡ hmac self.now fields.now }
    {
        let inner = compress(self.inner, fields_words(fields));
        hash_bytes(compress(self.outer, digest_words(&inner)))
    }
}
