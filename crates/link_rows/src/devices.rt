//! Readers and writers over bytes that go wrong as a row says.

use link_frames::{Faulty, Mishap};
use row_words::{RowFault, Words};
use std::io;
use std::io::{Cursor, ErrorKind, Read, Write};

/// A reader of bytes; an odd one fills the buffer, and answers that time ran out all the same.
#[derive(Drop)]
pub struct Source {
    bytes: Cursor<Vec<u8>>,
    is_odd: bool,
}

impl Read for Source {
    fn read(&mut self, buf: &mut [u8]) -> io::Result<usize> {
        if self.is_odd {
            buf.fill(7);
            return Err(io::Error::from(ErrorKind::TimedOut));
        }
        self.bytes.read(buf)
    }
}

/// A writer that keeps what it takes; the flush of an odd one answers that the pipe is broken.
#[derive(Drop)]
pub struct Sink {
    bytes: Vec<u8>,
    is_odd: bool,
}

impl Sink {
    pub fn bytes(&self) -> &[u8] {
        &self.bytes
    }
}

impl Write for Sink {
    fn write(&mut self, buf: &[u8]) -> io::Result<usize> {
        self.bytes.write(buf)
    }

    fn flush(&mut self) -> io::Result<()> {
        if self.is_odd {
            return Err(io::Error::from(ErrorKind::BrokenPipe));
        }
        Ok(())
    }
}

/// A run of calls that go wrong.
#[derive(Clone, Copy)]
struct Run {
    mishap: Mishap,
    first: u64,
    calls: u64,
}

/// `short`, `fail`, `interrupt` or `nothing`, and from which call on how many; none where no word is left.
fn run_of(words: &mut Words<'_>) -> Result<Run, RowFault> {
    if words.is_done() {
        return Ok(Run {
            mishap: Mishap::Short,
            first: 0,
            calls: 0,
        });
    }
    let mishap = match words.word() {
        "short" => Mishap::Short,
        "fail" => Mishap::Fail,
        "interrupt" => Mishap::Interrupt,
        "nothing" => Mishap::Nothing,
        _ => return Err(RowFault::BadRow),
    };
    Ok(Run {
        mishap,
        first: words.long()?,
        calls: words.long()?,
    })
}

/// What goes wrong in two ways, of which the second is asked first.
pub type Twice<T> = Faulty<Faulty<T>>;

fn twice<T: Drop>(inner: T, words: &mut Words<'_>) -> Result<Twice<T>, RowFault> {
    let Run {
        mishap,
        first,
        calls,
    } = run_of(words)?;
    let inner = Faulty::new(inner, mishap, first, calls);
    let Run {
        mishap,
        first,
        calls,
    } = run_of(words)?;
    Ok(Faulty::new(inner, mishap, first, calls))
}

/// A reader of these bytes.
pub fn reader(
    bytes: Vec<u8>,
    is_odd: bool,
    words: &mut Words<'_>,
) -> Result<Twice<Source>, RowFault> {
    let source = Source {
        bytes: Cursor::new(bytes),
        is_odd,
    };
    twice(source, words)
}

/// A writer behind these bytes.
pub fn writer(
    bytes: Vec<u8>,
    is_odd: bool,
    words: &mut Words<'_>,
) -> Result<Twice<Sink>, RowFault> {
    twice(Sink { bytes, is_odd }, words)
}
