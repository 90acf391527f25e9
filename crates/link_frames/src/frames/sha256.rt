//! SHA-256's compression of one block (FIPS 180-4, 6.2.2), whose words are given.

ghost use Rattle.std.specs.Prelude.{◌≡◌, ◌+◌, ◌<◌, ◌≤◌, ◌∷◌, ◌++◌, ℕ, List, bit_xor, take};
ghost use Rattle.std.specs.Int.{rotate_right, w32};
ghost use Rattle.sha2.specs.Sha256.{add32, add_state, ch, maj};
ghost use Rattle.sha2.specs.Sha256.{compress, first_words, round, rounds, schedule};
ghost use Rattle.link_frames.specs.frames.inside.Schedules.{AreRoundSums, four_words};

use crate::frames::schedule::{next_four, set_round_sums};
use std::simd::u32x4;

/// The initial hash value, from which the first block of each message is hashed (FIPS 180-4, 5.3.3).
pub(crate) const INITIAL: [u32; 8] = [
    0x6a09_e667,
    0xbb67_ae85,
    0x3c6e_f372,
    0xa54f_f53a,
    0x510e_527f,
    0x9b05_688c,
    0x1f83_d9ab,
    0x5be0_cd19,
];

/// `Ch` (4.1.2): where `by` has a one it chooses the bit of `ones`, and where it has a zero that of `zeros`. So
/// where the two differ and `by` has a one, the bit of `zeros` is turned over, and elsewhere it stays.
#[inline(always)]
fn choice(by: u32, ones: u32, zeros: u32) -> u32
    ensures { result ≡ ch by ones zeros }
{
    let differing = ones ^ zeros;
    let turned_over = differing & by;
    turned_over ^ zeros
}

/// `Maj` (4.1.2): two of three bits are the majority. Where `x` and `y` are the same it is these, and where they differ
/// `z` sides with one of them. So what they differ in chooses between `z` and `y`; of two neighbours among `a`, `b` and
/// `c` each difference serves two rounds.
#[inline(always)]
fn majority(x: u32, y: u32, z: u32) -> u32
    ensures { result ≡ maj x y z }
{
    choice(x ^ y, z, y)
}

/// The exclusive or of three rotations: with 2, 13 and 22 the upper case sigma 0, with 6, 11 and 25 sigma 1 (4.1.2).
/// By bits, each place of the result gathers the bits at these three distances above it. To rotate a word that gathers
/// adds to all its distances, and to add the word itself brings in the distance none. So, as Horner's rule does with
/// powers, the furthest begins and each rotation goes the difference to the next.
#[inline(always)]
fn rotations(word: u32, least: u32, middle: u32, most: u32) -> u32
    requires some { 0 < least }
    requires further { least < middle }
    requires furthest { middle < most }
    requires within { most < 32 }
    ensures { result ≡ bit_xor (bit_xor (rotate_right w32 word least) (rotate_right w32 word middle))
        (rotate_right w32 word most) }
{
    let two = word.rotate_right(most - middle) ^ word;
    let three = two.rotate_right(middle - least) ^ word;
    three.rotate_right(least)
}

/// The next `a` and the next `e`, the two words that a round finds (6.2.2, step 3): each other variable takes the value
/// of the one before it. `sum` is the round's word and its constant, added.
#[inline(always)]
fn next_a_and_e(abcd: [u32; 4], efgh: [u32; 4], sum: u32) -> (u32, u32)
    ensures { (k w : ℕ) → sum ≡ add32 w k
        → round (abcd ++ efgh) k w ≡ (result.0 ∷ take 3 abcd) ++ (result.1 ∷ take 3 efgh) }
{
    let [a, b, c, d] = abcd;
    let [e, f, g, h] = efgh;
    let for_both = h
        .wrapping_add(sum)
        .wrapping_add(choice(e, f, g))
        .wrapping_add(rotations(e, 6, 11, 25));
    let for_a = rotations(a, 2, 13, 22).wrapping_add(majority(a, b, c));
    (for_both.wrapping_add(for_a), d.wrapping_add(for_both))
}

/// The variables after rounds `t` to `t + 3`: by then each is a word that one of these found.
#[inline(always)]
fn four_rounds(sums: &[u32; 64], v: [u32; 8], t: usize) -> [u32; 8]
    requires { t + 4 ≤ 64 }
    ensures { (b h : List ℕ) → AreRoundSums b sums.now (t + 4) → v ≡ rounds h (schedule b 48) t
        → result ≡ rounds h (schedule b 48) (t + 4) }
{
    let [a, b, c, d, e, f, g, h] = v;
    let (a1, e1) = next_a_and_e([a, b, c, d], [e, f, g, h], sums[t]);
    let (a2, e2) = next_a_and_e([a1, a, b, c], [e1, e, f, g], sums[t + 1]);
    let (a3, e3) = next_a_and_e([a2, a1, a, b], [e2, e1, e, f], sums[t + 2]);
    let (a4, e4) = next_a_and_e([a3, a2, a1, a], [e3, e2, e1, e], sums[t + 3]);
    [a4, a3, a2, a1, e4, e3, e2, e1]
}

/// The hash value behind a block, from the one before it and the variables after the last round (6.2.2, step 4).
#[inline(always)]
fn next_hash(hash: [u32; 8], v: [u32; 8]) -> [u32; 8]
    ensures { result ≡ add_state hash v }
{
    let [h0, h1, h2, h3, h4, h5, h6, h7] = hash;
    let [a, b, c, d, e, f, g, h] = v;
    [
        h0.wrapping_add(a),
        h1.wrapping_add(b),
        h2.wrapping_add(c),
        h3.wrapping_add(d),
        h4.wrapping_add(e),
        h5.wrapping_add(f),
        h6.wrapping_add(g),
        h7.wrapping_add(h),
    ]
}

/// Four of a block's words.
#[inline(always)]
fn four_from(words: &[u32; 16], at: usize) -> u32x4
    requires { at + 4 ≤ 16 }
    ensures { (b : List ℕ) → words.now ≡ first_words b 16 → result ≡ four_words b at }
{
    u32x4::from_array([words[at], words[at + 1], words[at + 2], words[at + 3]])
}

/// The hash value after one block more, whose sixteen words these are.
pub(crate) fn compress(state: [u32; 8], words: [u32; 16]) -> [u32; 8]
    ensures { (b : List ℕ) → words ≡ first_words b 16 → result ≡ compress state b }
{
    let mut w0 = four_from(&words, 0);
    let mut w4 = four_from(&words, 4);
    let mut w8 = four_from(&words, 8);
    let mut w12 = four_from(&words, 12);
    let mut sums = [0; 64];
    set_round_sums(&mut sums, 0, w0);
    set_round_sums(&mut sums, 4, w4);
    set_round_sums(&mut sums, 8, w8);
    set_round_sums(&mut sums, 12, w12);
    let mut v = state;
    for turn in 0..3 {
        let t = 16 * turn;
        let v4 = four_rounds(&sums, v, t);
        w0 = next_four(w0, w4, w8, w12);
        set_round_sums(&mut sums, t + 16, w0);
        let v8 = four_rounds(&sums, v4, t + 4);
        w4 = next_four(w4, w8, w12, w0);
        set_round_sums(&mut sums, t + 20, w4);
        let v12 = four_rounds(&sums, v8, t + 8);
        w8 = next_four(w8, w12, w0, w4);
        set_round_sums(&mut sums, t + 24, w8);
        let v16 = four_rounds(&sums, v12, t + 12);
        w12 = next_four(w12, w0, w4, w8);
        set_round_sums(&mut sums, t + 28, w12);
        v = v16;
    }
    let v52 = four_rounds(&sums, v, 48);
    let v56 = four_rounds(&sums, v52, 52);
    let v60 = four_rounds(&sums, v56, 56);
    next_hash(state, four_rounds(&sums, v60, 60))
}
