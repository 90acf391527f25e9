//! The words of a block that the rounds of SHA-256 take (FIPS 180-4, 6.2.2, step 1), four at a time.

ghost use Rattle.std.specs.Prelude.{◌≡◌, ◌+◌, ◌≤◌, ℕ, List, map};
ghost use Rattle.sha2.specs.Sha256.{small_sigma0, small_sigma1};
ghost use Rattle.link_frames.specs.frames.inside.Schedules.{four_words, AreRoundSums};

use std::simd::u32x4;

/// The constants of the rounds (FIPS 180-4, 4.2.2).
static ROUND_CONSTANTS: [u32; 64] = [
    0x428a_2f98,
    0x7137_4491,
    0xb5c0_fbcf,
    0xe9b5_dba5,
    0x3956_c25b,
    0x59f1_11f1,
    0x923f_82a4,
    0xab1c_5ed5,
    0xd807_aa98,
    0x1283_5b01,
    0x2431_85be,
    0x550c_7dc3,
    0x72be_5d74,
    0x80de_b1fe,
    0x9bdc_06a7,
    0xc19b_f174,
    0xe49b_69c1,
    0xefbe_4786,
    0x0fc1_9dc6,
    0x240c_a1cc,
    0x2de9_2c6f,
    0x4a74_84aa,
    0x5cb0_a9dc,
    0x76f9_88da,
    0x983e_5152,
    0xa831_c66d,
    0xb003_27c8,
    0xbf59_7fc7,
    0xc6e0_0bf3,
    0xd5a7_9147,
    0x06ca_6351,
    0x1429_2967,
    0x27b7_0a85,
    0x2e1b_2138,
    0x4d2c_6dfc,
    0x5338_0d13,
    0x650a_7354,
    0x766a_0abb,
    0x81c2_c92e,
    0x9272_2c85,
    0xa2bf_e8a1,
    0xa81a_664b,
    0xc24b_8b70,
    0xc76c_51a3,
    0xd192_e819,
    0xd699_0624,
    0xf40e_3585,
    0x106a_a070,
    0x19a4_c116,
    0x1e37_6c08,
    0x2748_774c,
    0x34b0_bcb5,
    0x391c_0cb3,
    0x4ed8_aa4a,
    0x5b9c_ca4f,
    0x682e_6ff3,
    0x748f_82ee,
    0x78a5_636f,
    0x84c8_7814,
    0x8cc7_0208,
    0x90be_fffa,
    0xa450_6ceb,
    0xbef9_a3f7,
    0xc671_78f2,
];

/// The lower case sigma 0 of each word.
#[inline(always)]
fn small_sigma0(words: u32x4) -> u32x4
    ensures { result ≡ map small_sigma0 words }
{
    let by_7 = (words >> u32x4::splat(7)) | (words << u32x4::splat(25));
    let by_18 = (words >> u32x4::splat(18)) | (words << u32x4::splat(14));
    by_7 ^ by_18 ^ (words >> u32x4::splat(3))
}

/// The lower case sigma 1 of each word.
#[inline(always)]
fn small_sigma1(words: u32x4) -> u32x4
    ensures { result ≡ map small_sigma1 words }
{
    let by_17 = (words >> u32x4::splat(17)) | (words << u32x4::splat(15));
    let by_19 = (words >> u32x4::splat(19)) | (words << u32x4::splat(13));
    by_17 ^ by_19 ^ (words >> u32x4::splat(10))
}

/// The four words behind sixteen. The last two of them follow from the first two.
#[inline(always)]
pub(crate) fn next_four(w0: u32x4, w4: u32x4, w8: u32x4, w12: u32x4) -> u32x4
    ensures { (b : List ℕ) (t : ℕ) → t + 20 ≤ 64
        → w0 ≡ four_words b t → w4 ≡ four_words b (t + 4)
        → w8 ≡ four_words b (t + 8) → w12 ≡ four_words b (t + 12)
        → result ≡ four_words b (t + 16) }
{
    let none = u32x4::splat(0);
    let w1 = w0.shuffle(w4, [1, 2, 3, 4]);
    let w9 = w8.shuffle(w12, [1, 2, 3, 4]);
    let known = w0 + small_sigma0(w1) + w9;
    let first_two = known + small_sigma1(w12.shuffle(none, [2, 3, 4, 4]));
    first_two + small_sigma1(first_two.shuffle(none, [4, 4, 0, 1]))
}

/// Four words, with the constants of their rounds added, at the place of round `t`.
#[inline(always)]
pub(crate) fn set_round_sums(sums: &mut [u32; 64], t: usize, words: u32x4)
    requires { t + 4 ≤ 64 }
    ensures { (b : List ℕ) → words ≡ four_words b t → AreRoundSums b sums.old t → AreRoundSums b sums.new (t + 4) }
{
    let constants = u32x4::from_array([
        ROUND_CONSTANTS[t],
        ROUND_CONSTANTS[t + 1],
        ROUND_CONSTANTS[t + 2],
        ROUND_CONSTANTS[t + 3],
    ]);
    let [d0, d1, d2, d3] = (words + constants).to_array();
    sums[t] = d0;
    sums[t + 1] = d1;
    sums[t + 2] = d2;
    sums[t + 3] = d3;
}
