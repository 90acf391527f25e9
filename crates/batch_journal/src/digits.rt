//! Numbers as digits.

ghost use Rattle.std.specs.Prelude.{◌≡◌, ◌+◌, ◌≤◌, ◌++◌, IsOk, OnOk, vec_len};
ghost use Rattle.std.specs.List.{list_all};
ghost use Rattle.std.specs.Vec.{vec_capacity};
ghost use Rattle.batch_journal.specs.Digits.{digits_of, is_digit};

use std::alloc::AllocError;

/// The byte of digit 0.
const FIRST_DIGIT: u8 = 129;

/// Appends so many digits of a number, the lowest first. Digits beyond these are lost.
///
/// # Errors
///
/// Memory, and then digits of it may have been appended.
pub fn push_digits(bytes: &mut Vec<u8>, count: usize, number: u64) -> Result<(), AllocError>
    ensures digits { OnOk result (bytes.new.items ≡ bytes.old.items ++ digits_of count number) }
    ensures len { OnOk result (vec_len bytes.new ≡ vec_len bytes.old + count) }
    ensures capacity { vec_capacity bytes.old ≤ vec_capacity bytes.new }
    ensures enough { vec_len bytes.old + count ≤ vec_capacity bytes.old → IsOk result }
{
    let mut left = number;
    for _ in 0..count {
        bytes.push(FIRST_DIGIT + (left % 120) as u8)?;
        left /= 120;
    }
    Ok(())
}

/// Whether each byte is a digit.
pub fn are_digits(bytes: &[u8]) -> bool
    ensures { result ≡ list_all is_digit bytes.now }
{
    for byte in bytes {
        if *byte < FIRST_DIGIT || *byte > 248 {
            return false;
        }
    }
    true
}
