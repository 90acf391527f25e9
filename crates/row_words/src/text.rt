//! Texts of answers. Where memory is wanting for one, it is made once more: the call has been made by then.

use crate::fault::RowFault;
use std::alloc::{AllocError, Global};
use std::fmt::{Display, Write};

/// What a value is written as.
///
/// # Errors
///
/// Only where memory is wanting twice, as of the others here.
pub fn text_of<T: Display>(alloc: Global, value: &T) -> Result<String, RowFault> {
    match format!(in alloc; "{value}") {
        Ok(text) => Ok(text),
        Err(_) => Ok(format!(in alloc; "{value}")?),
    }
}

/// `yes` or `no`.
pub fn yes_or_no(alloc: Global, holds: bool) -> Result<String, RowFault> {
    text_of(alloc, &if holds { "yes" } else { "no" })
}

/// `list`, and each item behind a space.
pub fn list_text<T: Display>(alloc: Global, items: &[T]) -> Result<String, RowFault> {
    match listed(alloc, items) {
        Ok(text) => Ok(text),
        Err(_) => Ok(listed(alloc, items)?),
    }
}

fn listed<T: Display>(alloc: Global, items: &[T]) -> Result<String, AllocError> {
    let mut text = String::new(alloc);
    text.push_str("list")?;
    for item in items {
        let item = format!(in alloc; " {item}")?;
        text.push_str(&item)?;
    }
    Ok(text)
}

/// `list`, and each permission as OPERATION:OBJECT behind a space.
pub fn permissions_text(alloc: Global, items: &[(u16, u32)]) -> Result<String, RowFault> {
    match listed_permissions(alloc, items) {
        Ok(text) => Ok(text),
        Err(_) => Ok(listed_permissions(alloc, items)?),
    }
}

fn listed_permissions(alloc: Global, items: &[(u16, u32)]) -> Result<String, AllocError> {
    let mut text = String::new(alloc);
    text.push_str("list")?;
    for (operation, object) in items {
        let item = format!(in alloc; " {operation}:{object}")?;
        text.push_str(&item)?;
    }
    Ok(text)
}

/// Two hexadecimal digits a byte, or `-` for none.
pub fn hex_text(alloc: Global, bytes: &[u8]) -> Result<String, RowFault> {
    match hexed(alloc, bytes) {
        Ok(text) => Ok(text),
        Err(_) => Ok(hexed(alloc, bytes)?),
    }
}

fn hexed(alloc: Global, bytes: &[u8]) -> Result<String, AllocError> {
    if bytes.is_empty() {
        return format!(in alloc; "-");
    }
    hex::encode(alloc, bytes)
}
