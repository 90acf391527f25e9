//! Seals, and batches as they stand in a file.

ghost use Rattle.std.specs.Prelude.{◌≡◌, ◌+◌, ◌*◌, ◌<◌, ◌≤◌, ◌^◌, ◌++◌, ◌∷◌, length, take, IsOk, OnOk, vec_len};
ghost use Rattle.std.specs.List.{flat_map};
ghost use Rattle.std.specs.Vec.{vec_capacity};
ghost use Rattle.batch_journal.specs.Digits.{digits_of};
ghost use Rattle.batch_journal.specs.Batches.{seal_of, sealed, opened_batch, batch_of};

use crate::digits::push_digits;
use link_frames::hmac_sha256;
use std::alloc::AllocError;

/// Appends each byte as two digits.
fn push_bytes(bytes: &mut Vec<u8>, more: &[u8]) -> Result<(), AllocError>
    ensures digits { OnOk result (bytes.new.items ≡ bytes.old.items ++ flat_map (digits_of 2) more.now) }
    ensures len { OnOk result (vec_len bytes.new ≡ vec_len bytes.old + 2 * length more.now) }
    ensures capacity { vec_capacity bytes.old ≤ vec_capacity bytes.new }
    ensures enough { vec_len bytes.old + 2 * length more.now ≤ vec_capacity bytes.old → IsOk result }
{
    for byte in more {
        push_digits(bytes, 2, u64::from(*byte))?;
    }
    Ok(())
}

/// Appends a 251 and the seal of the bytes.
pub(crate) fn push_seal(bytes: &mut Vec<u8>, key: &[u8; 32]) -> Result<(), AllocError>
    requires { length bytes.old.items < 2 ^ 60 }
    ensures sealed { OnOk result (bytes.new.items ≡ sealed key.now bytes.old.items) }
    ensures len { OnOk result (vec_len bytes.new ≡ vec_len bytes.old + 33) }
    ensures capacity { vec_capacity bytes.old ≤ vec_capacity bytes.new }
    ensures enough { vec_len bytes.old + 33 ≤ vec_capacity bytes.old → IsOk result }
{
    let tag = hmac_sha256(key, bytes);
    bytes.push(251)?;
    push_bytes(bytes, &tag[..16])?;
    Ok(())
}

/// Makes the bytes a batch with this number.
///
/// # Errors
///
/// Memory, and then the bytes are of no use.
pub(crate) fn make_batch(
    bytes: &mut Vec<u8>,
    key: &[u8; 32],
    number: u64,
    digits: &[u8],
) -> Result<(), AllocError>
    requires { length digits.now < 2 ^ 59 }
    ensures batch { OnOk result (bytes.new.items ≡ batch_of key.now number digits.now) }
    ensures capacity { vec_capacity bytes.old ≤ vec_capacity bytes.new }
    ensures enough { 41 + length digits.now ≤ vec_capacity bytes.old → IsOk result }
{
    bytes.clear();
    bytes.push(250)?;
    push_digits(bytes, 4, number)?;
    push_digits(bytes, 3, digits.len() as u64)?;
    bytes.extend_from_slice(digits)?;
    push_seal(bytes, key)?;
    Ok(())
}
