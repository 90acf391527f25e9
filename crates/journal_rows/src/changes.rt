//! Bytes of a journal's file that are not as they were.

use row_words::RowFault;

/// A change of bytes.
#[derive(Clone, Copy)]
pub enum Change {
    /// They end before this place.
    Cut,
    /// This bit of the byte there is another.
    Flip(u32),
    /// The byte there is 0.
    Zero,
}

/// The byte that the change makes of this one.
fn changed(byte: u8, change: Change) -> u8 {
    match change {
        Change::Cut => byte,
        Change::Flip(bit) => byte ^ (1u8 << (bit % 8)),
        Change::Zero => 0,
    }
}

/// How many of the bytes are left where they change at a place.
pub fn length_after(length: usize, change: Change, at: usize) -> usize {
    match change {
        Change::Cut => length.min(at),
        _ => length,
    }
}

/// Changes the byte at a place. The byte that was there, to be put back.
pub fn change_at(bytes: &mut [u8], change: Change, at: usize) -> Result<u8, RowFault> {
    match bytes.get_mut(at) {
        Some(byte) => {
            let before = *byte;
            *byte = changed(before, change);
            Ok(before)
        }
        None => Err(RowFault::BadRow),
    }
}

/// Puts the byte back.
pub fn put_back(bytes: &mut [u8], at: usize, before: u8) {
    if let Some(byte) = bytes.get_mut(at) {
        *byte = before;
    }
}
