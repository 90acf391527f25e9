//! Lists of numbers: all the words of a row that are left.

use role_commands::numbers::{narrow_number, wide_number};
use row_words::{RowFault, Words};
use std::alloc::Global;

/// Numbers of 32 bits.
pub fn wides_of(alloc: Global, words: &mut Words<'_>) -> Result<Vec<u32>, RowFault> {
    let mut numbers = Vec::new(alloc);
    for _ in 0..u16::MAX {
        if words.is_done() {
            return Ok(numbers);
        }
        numbers.push(words.wide()?)?;
    }
    Err(RowFault::BadRow)
}

/// Numbers of 16 bits.
pub fn narrows_of(alloc: Global, words: &mut Words<'_>) -> Result<Vec<u16>, RowFault> {
    let mut numbers = Vec::new(alloc);
    for _ in 0..u16::MAX {
        if words.is_done() {
            return Ok(numbers);
        }
        numbers.push(words.narrow()?)?;
    }
    Err(RowFault::BadRow)
}

/// Permissions, each as `OPERATION:OBJECT`.
pub fn permissions_of(alloc: Global, words: &mut Words<'_>) -> Result<Vec<(u16, u32)>, RowFault> {
    let mut permissions = Vec::new(alloc);
    for _ in 0..u16::MAX {
        if words.is_done() {
            return Ok(permissions);
        }
        permissions.push(permission_of(words.word())?)?;
    }
    Err(RowFault::BadRow)
}

fn permission_of(word: &str) -> Result<(u16, u32), RowFault> {
    let (operation, object) = word.split_once(':').ok_or(RowFault::BadRow)?;
    let operation = narrow_number(operation).ok_or(RowFault::BadRow)?;
    let object = wide_number(object).ok_or(RowFault::BadRow)?;
    Ok((operation, object))
}
