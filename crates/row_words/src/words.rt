//! The words of a line, one by one.

ghost use Rattle.std.specs.Prelude.{◌<◌, IfOk};

use crate::fault::RowFault;
use link_frames::Kind;
use quorum_sizes::{NodeName, Sizes};
use role_commands::numbers::{byte_number, long_number, narrow_number, split_word, wide_number};
use role_commands::{Command, Items, parse_command};
use std::alloc::Global;

/// The words of a line that were not yet taken.
#[derive(Clone, Copy)]
pub struct Words<'a> {
    rest: &'a str,
}

impl<'a> Words<'a> {
    /// The words of a line, with a space between two.
    pub fn new(line: &'a str) -> Self {
        Words { rest: line }
    }

    /// The next word; an empty one where there is none.
    pub fn word(&mut self) -> &'a str {
        match split_word(self.rest) {
            Some((word, rest)) => {
                self.rest = rest;
                word
            }
            None => self.rest(),
        }
    }

    /// All that is left.
    pub fn rest(&mut self) -> &'a str {
        let rest = self.rest;
        self.rest = "";
        rest
    }

    /// Whether nothing is left.
    pub fn is_done(&self) -> bool {
        self.rest.is_empty()
    }

    /// The next word, which must be a number of 8 bits.
    ///
    /// # Errors
    ///
    /// `BadRow`, as of all of these.
    pub fn byte(&mut self) -> Result<u8, RowFault> {
        byte_number(self.word()).ok_or(RowFault::BadRow)
    }

    /// A number of 16 bits.
    pub fn narrow(&mut self) -> Result<u16, RowFault> {
        narrow_number(self.word()).ok_or(RowFault::BadRow)
    }

    /// A number of 32 bits.
    pub fn wide(&mut self) -> Result<u32, RowFault> {
        wide_number(self.word()).ok_or(RowFault::BadRow)
    }

    /// A number of 64 bits.
    pub fn long(&mut self) -> Result<u64, RowFault> {
        long_number(self.word()).ok_or(RowFault::BadRow)
    }

    /// The sizes that the next two words spell, as `N F`.
    pub fn sizes(&mut self) -> Result<Sizes, RowFault> {
        let n = self.byte()?;
        let f = self.byte()?;
        Sizes::new(n, f).map_err(|_| RowFault::BadRow)
    }

    /// A node of these sizes.
    pub fn node(&mut self, sizes: &Sizes) -> Result<NodeName, RowFault>
        ensures { IfOk result (λ name. name < sizes.now.nodes) }
    {
        match sizes.name(self.byte()?) {
            Some(name) => Ok(name),
            None => Err(RowFault::BadRow),
        }
    }

    /// A kind of message.
    pub fn kind(&mut self) -> Result<Kind, RowFault> {
        match self.word() {
            "send" => Ok(Kind::Send),
            "echo" => Ok(Kind::Echo),
            "ready" => Ok(Kind::Ready),
            _ => Err(RowFault::BadRow),
        }
    }

    /// The command that all that is left spells.
    pub fn command(&mut self) -> Result<Command, RowFault> {
        parse_command(self.rest()).ok_or(RowFault::BadRow)
    }

    /// The bytes that the next word spells, two hexadecimal digits each, or `-` for none.
    ///
    /// # Errors
    ///
    /// `BadRow`, or `Memory`.
    pub fn bytes(&mut self, alloc: Global) -> Result<Items<u8>, RowFault> {
        let word = self.word();
        if word == "-" {
            return Ok(Items::new(Vec::new(alloc)));
        }
        match hex::decode(alloc, word) {
            Ok(bytes) => Ok(Items::new(bytes)),
            Err(hex::FromHexError::OutOfMemory) => Err(RowFault::Memory),
            Err(_) => Err(RowFault::BadRow),
        }
    }
}
