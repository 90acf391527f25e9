//! What a file stands for, from its bytes.

ghost use Rattle.std.specs.Prelude.{◌≡◌, ◌≢◌, slice_index, ◌+◌, ◌-◌, ◌<◌, ◌≤◌, ◌^◌, ◌==◌, ℕ, List, length, take};
ghost use Rattle.std.specs.Prelude.{drop, IfOk, IfErr, Ok, Err};
ghost use Rattle.std.specs.List.{concat, list_any};
ghost use Rattle.batch_journal.specs.Batches.{batches_of, count_in, digits_in};
ghost use Rattle.batch_journal.specs.Faults.{IsOfBytes};
ghost use Rattle.batch_journal.specs.Heads.{IsHead};
ghost use Rattle.batch_journal.specs.Readings.{agreeing, used, is_batch, batches_in, is_cut_off, is_end, room_behind};
ghost use Rattle.batch_journal.specs.Readings.{behind_head, reading};
ghost use Rattle.batch_journal.specs.Found.{FoundBehind, IsFound};
ghost use Rattle.batch_journal.specs.declared.fault.JournalFault.TheVariants as fault;

use crate::digits::are_digits;
use crate::fault::JournalFault;
use crate::head::{Head, head_bytes, head_fault};
use crate::room::room_behind;
use crate::sealing::make_batch;
use link_frames::hmac_sha256;
use std::alloc::{AllocError, Global};

/// What was found in a file.
#[derive(Drop, Debug)]
pub struct Found {
    /// The digits of all batches, one after another.
    pub digits: Vec<u8>,
    /// How many batches there are.
    pub count: u64,
    /// Where they end, in bytes from the first of the head on.
    pub end: u64,
    /// How long the file is, in bytes.
    pub size: u64,
}

/// How many bytes are as wanted, up to the first that is not.
fn agreeing(wanted: &[u8], bytes: &[u8]) -> usize
    ensures value { result ≡ agreeing wanted.now bytes.now }
    ensures most { result ≤ length wanted.now }
    ensures within { result ≤ length bytes.now }
{
    let mut at = 0;
    while at < wanted.len() && at < bytes.len() {
        if wanted[at] != bytes[at] {
            return at;
        }
        at += 1;
    }
    at
}

/// The byte at this place, or 0.
fn byte_at(bytes: &[u8], at: usize) -> u8
    ensures { result ≡ slice_index bytes.now at }
{
    if at < bytes.len() { bytes[at] } else { 0 }
}

/// The value of the digit at this place, or 0.
fn digit_at(bytes: &[u8], at: usize) -> usize
    ensures value { result ≡ slice_index bytes.now at - 129 }
    ensures most { result < 127 }
{
    if at < bytes.len() {
        usize::from(bytes[at].saturating_sub(129))
    } else {
        0
    }
}

/// How many digits the batch says that it has.
fn count_in(bytes: &[u8]) -> usize
    ensures value { result ≡ count_in bytes.now }
    ensures most { result < 2 ^ 21 }
{
    digit_at(bytes, 5) + 120 * (digit_at(bytes, 6) + 120 * digit_at(bytes, 7))
}

/// Its digits, as far as they are there.
fn digits_in(bytes: &[u8]) -> &[u8]
    ensures { result.now ≡ digits_in bytes.now }
{
    if bytes.len() < 8 {
        return &bytes[bytes.len()..];
    }
    let behind = &bytes[8..];
    let count = count_in(bytes);
    if count < behind.len() {
        &behind[..count]
    } else {
        behind
    }
}

/// Whether the batch with this number stands there whole. The buffer then has it.
#[tactic(auto, unfolding(crate::specs::Readings::is_batch))]
fn is_batch(
    buffer: &mut Vec<u8>,
    key: &[u8; 32],
    number: u64,
    bytes: &[u8],
) -> Result<bool, AllocError>
    ensures value { IfOk result (λ is. is ≡ is_batch key.now number bytes.now) }
{
    let digits = digits_in(bytes);
    if !are_digits(digits) {
        return Ok(false);
    }
    make_batch(buffer, key, number, digits)?;
    Ok(agreeing(buffer, bytes) == buffer.len())
}

/// The bytes before the first 0.
fn used(bytes: &[u8]) -> &[u8]
    ensures { result.now ≡ used bytes.now }
{
    for (at, byte) in bytes.iter().enumerate() {
        if *byte == 0 {
            return &bytes[..at];
        }
    }
    bytes
}

/// Whether the bytes are none, or the front of a batch that was cut off.
#[tactic(auto, unfolding(crate::specs::Readings::is_cut_off))]
fn is_cut_off(bytes: &[u8]) -> bool
    ensures { result ≡ is_cut_off bytes.now }
{
    if bytes.is_empty() {
        return true;
    }
    bytes[0] == 250 && bytes.len() < 41 + count_in(bytes) && are_digits(digits_in(bytes))
}

/// Whether a batch begins in the bytes.
fn has_mark(bytes: &[u8]) -> bool
    ensures { result ≡ list_any (λ byte. byte == 250) bytes.now }
{
    for byte in bytes {
        if *byte == 250 {
            return true;
        }
    }
    false
}

/// Whether the bytes are the end of a journal.
#[tactic(auto, unfolding(crate::specs::Readings::is_end))]
fn is_end(bytes: &[u8]) -> bool
    ensures { result ≡ is_end bytes.now }
{
    let room = room_behind();
    if bytes.len() < room {
        return false;
    }
    is_cut_off(used(bytes)) && !has_mark(&bytes[1..room])
}

/// The batches at the front of bytes behind a head.
fn batches_in(alloc: Global, key: &[u8; 32], bytes: &[u8]) -> Result<Found, AllocError>
    ensures digits { IfOk result (λ f. f.digits.items ≡ concat (batches_in key.now 0 0 bytes.now)) }
    ensures count { IfOk result (λ f. f.count ≡ length (batches_in key.now 0 0 bytes.now)) }
    ensures end { IfOk result (λ f. f.end ≡ length (batches_of key.now 0 (batches_in key.now 0 0 bytes.now))) }
    ensures within { IfOk result (λ f. f.end ≤ length bytes.now) }
    ensures few { IfOk result (λ f. f.count ≤ f.end) }
{
    let mut buffer = Vec::new(alloc);
    let mut digits = Vec::new(alloc);
    let mut count = 0u64;
    let mut end = 0usize;
    loop {
        let rest = &bytes[end..];
        let is = is_batch(&mut buffer, key, count, rest)?;
        if !is {
            return Ok(Found {
                digits,
                count,
                end: end as u64,
                size: bytes.len() as u64,
            });
        }
        digits.extend_from_slice(digits_in(rest))?;
        end += 41 + count_in(rest);
        count += 1;
    }
}

/// The batches behind a head, where no damage shows.
fn behind_head(alloc: Global, key: &[u8; 32], bytes: &[u8]) -> Result<Found, JournalFault>
    ensures few { IfOk result (λ f. f.count ≤ f.end) }
    ensures within { IfOk result (λ f. f.end + room_behind ≤ length bytes.now) }
    ensures found { IfOk result (λ f. FoundBehind key.now bytes.now f) }
    ensures err { IfErr result (λ e. e ≢ fault.Memory → behind_head key.now bytes.now ≡ Err e) }
    ensures which { IfErr result IsOfBytes }
{
    let found = batches_in(alloc, key, bytes)?;
    if is_end(&bytes[found.end as usize..]) {
        Ok(found)
    } else {
        Err(JournalFault::Damaged { batch: found.count })
    }
}

/// What the bytes of a file stand for, under this key and with this head.
///
/// # Errors
///
/// Those of [`JournalFault`] that speak of the head; `Damaged` with the number of the first batch that is not as it
/// was written; `Memory`.
pub fn read_journal(
    alloc: Global,
    key: &[u8; 32],
    head: &Head,
    bytes: &[u8],
) -> Result<Found, JournalFault>
    requires { IsHead head.now }
    ensures within { IfOk result (λ f. (f.count ≤ f.end) × (f.end + room_behind ≤ f.size)) }
    ensures size { IfOk result (λ f. f.size ≡ length bytes.now) }
    ensures found { IfOk result (IsFound key.now head.now bytes.now) }
    ensures err { IfErr result (λ e. e ≢ fault.Memory → reading key.now head.now bytes.now ≡ Err e) }
    ensures which { IfErr result IsOfBytes }
{
    let front = head_bytes(alloc, key, head)?;
    let at = agreeing(&front, bytes);
    if at == front.len() {
        let batch_key = hmac_sha256(key, &front);
        let found = match behind_head(alloc, &batch_key, &bytes[at..]) {
            Ok(found) => found,
            Err(fault) => return Err(fault),
        };
        return Ok(Found {
            digits: found.digits,
            count: found.count,
            end: at as u64 + found.end,
            size: bytes.len() as u64,
        });
    }
    if byte_at(bytes, at) == 0 {
        return Err(JournalFault::NotAJournal);
    }
    Err(head_fault(head, at))
}
