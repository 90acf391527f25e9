//! Lines as clients write them.

use itoa::Buffer;
use std::alloc::{AllocError, Global};

/// A line that is written member by member, in memory that is kept.
#[derive(Drop)]
pub struct Line {
    bytes: Vec<u8>,
}

impl Line {
    /// No line.
    pub fn new(alloc: Global) -> Line {
        Line {
            bytes: Vec::new(alloc),
        }
    }

    /// The line that asks for an operation with these members.
    ///
    /// # Errors
    ///
    /// Only for want of memory.
    pub fn write(&mut self, op: &str, members: &[(&str, u64)]) -> Result<&[u8], AllocError> {
        self.bytes.clear();
        self.bytes.extend_from_slice(b"{\"op\":\"")?;
        self.bytes.extend_from_slice(op.as_bytes())?;
        self.bytes.extend_from_slice(b"\"")?;
        for (name, number) in members {
            self.member(name, *number)?;
        }
        self.bytes.extend_from_slice(b"}")?;
        Ok(self.bytes.as_slice())
    }

    fn member(&mut self, name: &str, number: u64) -> Result<(), AllocError> {
        let mut buffer = Buffer::new();
        self.bytes.extend_from_slice(b",\"")?;
        self.bytes.extend_from_slice(name.as_bytes())?;
        self.bytes.extend_from_slice(b"\":")?;
        self.bytes
            .extend_from_slice(buffer.format(number).as_bytes())
    }
}
