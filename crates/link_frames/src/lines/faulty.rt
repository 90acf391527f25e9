//! Readers and writers that go wrong, for tests.

use std::io;
use std::io::{ErrorKind, Read, Write};

/// What a call does in place of what it should.
#[derive(Clone, Copy, Debug, PartialEq, Eq)]
pub enum Mishap {
    /// Answers that time ran out.
    Fail,
    /// Answers that it was interrupted.
    Interrupt,
    /// Reads or writes one byte at most.
    Short,
    /// Answers that it read or wrote nothing.
    Nothing,
}

/// A reader or writer of which a run of calls goes wrong, for tests. No contract rests on it.
///
/// It counts its reads and writes from 0. For several runs put one inside the other.
#[derive(Debug, Drop)]
pub struct Faulty<T> {
    inner: T,
    mishap: Mishap,
    first: u64,
    calls: u64,
    made: u64,
}

impl<T> Faulty<T> {
    /// The calls from number `first` on go wrong, as many as `calls`, and the others go to `inner`.
    pub fn new(inner: T, mishap: Mishap, first: u64, calls: u64) -> Self {
        Faulty {
            inner,
            mishap,
            first,
            calls,
            made: 0,
        }
    }

    /// How many reads and writes were made.
    pub fn made(&self) -> u64 {
        self.made
    }

    /// What it is over: a reader with the bytes that it has left, or a writer with those that it took.
    pub fn inner(&self) -> &T {
        &self.inner
    }

    /// What happens to the next call.
    fn next_mishap(&mut self) -> Option<Mishap> {
        let number = self.made;
        self.made = number.saturating_add(1);
        if number >= self.first && number - self.first < self.calls {
            Some(self.mishap)
        } else {
            None
        }
    }
}

impl<R: Read> Read for Faulty<R> {
    fn read(&mut self, buf: &mut [u8]) -> io::Result<usize> {
        match self.next_mishap() {
            Some(Mishap::Fail) => Err(io::Error::from(ErrorKind::TimedOut)),
            Some(Mishap::Interrupt) => Err(io::Error::from(ErrorKind::Interrupted)),
            Some(Mishap::Short) if buf.len() > 1 => self.inner.read(&mut buf[..1]),
            Some(Mishap::Nothing) => Ok(0),
            _ => self.inner.read(buf),
        }
    }
}

impl<W: Write> Write for Faulty<W> {
    fn write(&mut self, buf: &[u8]) -> io::Result<usize> {
        match self.next_mishap() {
            Some(Mishap::Fail) => Err(io::Error::from(ErrorKind::TimedOut)),
            Some(Mishap::Interrupt) => Err(io::Error::from(ErrorKind::Interrupted)),
            Some(Mishap::Short) if buf.len() > 1 => self.inner.write(&buf[..1]),
            Some(Mishap::Nothing) => Ok(0),
            _ => self.inner.write(buf),
        }
    }

    fn flush(&mut self) -> io::Result<()> {
        self.inner.flush()
    }
}
