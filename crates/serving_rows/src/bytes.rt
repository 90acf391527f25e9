//! The bytes of a line that a row gives.

use role_commands::numbers::wide_number;
use row_words::RowFault;
use std::alloc::Global;

/// The bytes of a line. `%` and two hexadecimal digits of small letters are a byte, `%{K*PART}` is a part without `}`
/// that stands K times, and all else stands for itself.
pub fn bytes_of(alloc: Global, text: &str) -> Result<Vec<u8>, RowFault> {
    let mut bytes = Vec::new(alloc);
    let mut parts = text.split("%{");
    if let Some(first) = parts.next() {
        push_text(&mut bytes, first)?;
    }
    for part in parts {
        push_repeated(alloc, &mut bytes, part)?;
    }
    Ok(bytes)
}

/// Adds what stands behind a `%{`.
fn push_repeated(alloc: Global, bytes: &mut Vec<u8>, text: &str) -> Result<(), RowFault> {
    let (count, text) = text.split_once('*').ok_or(RowFault::BadRow)?;
    let (part, rest) = text.split_once('}').ok_or(RowFault::BadRow)?;
    let mut repeated = Vec::new(alloc);
    push_text(&mut repeated, part)?;
    for _time in 0..wide_number(count).ok_or(RowFault::BadRow)? {
        bytes.extend_from_slice(&repeated)?;
    }
    push_text(bytes, rest)
}

/// Adds a text in which nothing is repeated.
fn push_text(bytes: &mut Vec<u8>, text: &str) -> Result<(), RowFault> {
    let mut parts = text.split('%');
    if let Some(first) = parts.next() {
        bytes.extend_from_slice(first.as_bytes())?;
    }
    for part in parts {
        push_byte(bytes, part.as_bytes())?;
    }
    Ok(())
}

/// Adds what stands behind a `%`: a byte, and a text.
fn push_byte(bytes: &mut Vec<u8>, part: &[u8]) -> Result<(), RowFault> {
    let [high, low, rest @ ..] = part else {
        return Err(RowFault::BadRow);
    };
    bytes.push((digit(*high)? << 4) | digit(*low)?)?;
    Ok(bytes.extend_from_slice(rest)?)
}

fn digit(byte: u8) -> Result<u8, RowFault> {
    match byte {
        b'0'..=b'9' => Ok(byte - b'0'),
        b'a'..=b'f' => Ok(byte - b'a' + 10),
        _ => Err(RowFault::BadRow),
    }
}
