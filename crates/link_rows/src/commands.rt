//! Rows of commands in words and bytes, of numbers and of items.

use role_commands::numbers::{byte_number, long_number, narrow_number, wide_number};
use role_commands::{Command, Items, decode, encode, parse_command, print_command};
use row_words::{OrNone, RowFault, Words, hex_text, list_text, text_of};
use std::alloc::Global;

pub fn answer(alloc: Global, line: &str) -> Result<String, RowFault> {
    let mut words = Words::new(line);
    match words.word() {
        "parse" => parsed(alloc, words.rest()),
        "parse-bytes" => parse_bytes(alloc, &mut words),
        "encode" => hex_text(alloc, &encode(&words.command()?)),
        "decode" => decoded(alloc, &mut words),
        "items" => items(alloc, &mut words),
        kind => number(alloc, kind, words.rest()),
    }
}

/// `parse WORDS`: the command that the words spell, as it is written.
fn parsed(alloc: Global, text: &str) -> Result<String, RowFault> {
    printed(alloc, parse_command(text))
}

/// A command as it is written, or `none`.
fn printed(alloc: Global, command: Option<Command>) -> Result<String, RowFault> {
    match command {
        Some(command) => command_text(alloc, &command),
        None => text_of(alloc, &"none"),
    }
}

fn command_text(alloc: Global, command: &Command) -> Result<String, RowFault> {
    match print_command(alloc, command) {
        Ok(text) => Ok(text),
        Err(_) => Err(RowFault::Memory),
    }
}

/// `parse-bytes HEX`: the same of a text in hexadecimal.
fn parse_bytes(alloc: Global, words: &mut Words<'_>) -> Result<String, RowFault> {
    let bytes = words.bytes(alloc)?;
    match std::str::from_utf8(bytes.as_slice()) {
        Ok(text) => parsed(alloc, text),
        Err(_) => Err(RowFault::BadRow),
    }
}

/// `decode HEX`: the command of nine bytes.
fn decoded(alloc: Global, words: &mut Words<'_>) -> Result<String, RowFault> {
    let bytes = words.bytes(alloc)?;
    match bytes.as_slice().first_chunk::<9>() {
        Some(chunk) => printed(alloc, decode(chunk)),
        None => Err(RowFault::BadRow),
    }
}

/// `items NUMBER ..`: the numbers, kept as items.
fn items(alloc: Global, words: &mut Words<'_>) -> Result<String, RowFault> {
    let mut numbers = Vec::new(alloc);
    for _ in 0..u16::MAX {
        if words.is_done() {
            break;
        }
        numbers.push(words.wide()?)?;
    }
    list_text(alloc, Items::new(numbers).as_slice())
}

/// `byte WORD`, `narrow WORD`, `wide WORD`, `long WORD`: the number of 8, 16, 32 or 64 bits.
fn number(alloc: Global, kind: &str, word: &str) -> Result<String, RowFault> {
    match kind {
        "byte" => text_of(alloc, &OrNone(byte_number(word))),
        "narrow" => text_of(alloc, &OrNone(narrow_number(word))),
        "wide" => text_of(alloc, &OrNone(wide_number(word))),
        "long" => text_of(alloc, &OrNone(long_number(word))),
        _ => Err(RowFault::BadRow),
    }
}
