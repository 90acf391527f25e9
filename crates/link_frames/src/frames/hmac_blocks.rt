//! The blocks that HMAC hashes for a frame, as their words, and hash values as bytes (FIPS 180-4, 5.1 and 5.2).

ghost use Rattle.std.specs.Prelude.{◌≡◌, ◌+◌, ◌≤◌, ◌++◌, length};
ghost use Rattle.sha2.specs.Sha256.{digest_bytes, first_words, padding, word_at};

use crate::frames::layout::TAG_AT;

/// The bits of a block with a frame's fields behind it.
const FIELDS_BITS: u32 = 8 * (64 + 22);

/// The bits of a block with a hash value behind it.
const DIGEST_BITS: u32 = 8 * (64 + 32);

/// The four bytes from one on as a number, the first byte the highest.
#[inline(always)]
fn word_from(bytes: &[u8], first: usize) -> u32
    requires { first + 4 ≤ length bytes.now }
    ensures { result ≡ word_at bytes.now first }
{
    let mut four = [0; 4];
    four.copy_from_slice(&bytes[first..first + 4]);
    u32::from_be_bytes(four)
}

/// The words of a block.
pub(crate) fn block_words(block: &[u8; 64]) -> [u32; 16]
    ensures { result ≡ first_words block.now 16 }
{
    [
        word_from(block, 0),
        word_from(block, 4),
        word_from(block, 8),
        word_from(block, 12),
        word_from(block, 16),
        word_from(block, 20),
        word_from(block, 24),
        word_from(block, 28),
        word_from(block, 32),
        word_from(block, 36),
        word_from(block, 40),
        word_from(block, 44),
        word_from(block, 48),
        word_from(block, 52),
        word_from(block, 56),
        word_from(block, 60),
    ]
}

/// The words of a last block that has a frame's fields, where one block comes before it.
#[inline(always)]
pub(crate) fn fields_words(fields: &[u8; TAG_AT]) -> [u32; 16]
    ensures { result ≡ first_words (fields.now ++ padding 86) 16 }
{
    [
        word_from(fields, 0),
        word_from(fields, 4),
        word_from(fields, 8),
        word_from(fields, 12),
        word_from(fields, 16),
        u32::from_be_bytes([fields[20], fields[21], 0x80, 0]),
        0,
        0,
        0,
        0,
        0,
        0,
        0,
        0,
        0,
        FIELDS_BITS,
    ]
}

/// The words of a last block that has a hash value's bytes, where one block comes before it.
#[inline(always)]
pub(crate) fn digest_words(hash: &[u32; 8]) -> [u32; 16]
    ensures { result ≡ first_words (digest_bytes hash.now 8 ++ padding 96) 16 }
{
    let mut words = [0; 16];
    words[..8].copy_from_slice(hash);
    words[8] = 0x8000_0000;
    words[15] = DIGEST_BITS;
    words
}

/// The bytes of a hash value, each word's highest first.
#[inline(always)]
pub(crate) fn hash_bytes(hash: [u32; 8]) -> [u8; 32]
    ensures { result ≡ digest_bytes hash 8 }
{
    let [a, b, c, d, e, f, g, h] = hash;
    let words = [
        a.to_be_bytes(),
        b.to_be_bytes(),
        c.to_be_bytes(),
        d.to_be_bytes(),
        e.to_be_bytes(),
        f.to_be_bytes(),
        g.to_be_bytes(),
        h.to_be_bytes(),
    ];
    let mut bytes = [0; 32];
    bytes.copy_from_slice(words.as_flattened());
    bytes
}
