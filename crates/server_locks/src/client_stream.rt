//! Reading a client's lines, and the last that is read of it and written to it.

ghost use Rattle.std.specs.Prelude.{◌≡◌, IfOk, IfSome};
ghost use Rattle.std.specs.Io.{ReadsAtMost};
ghost use Rattle.std.specs.Io.KnownBytes.{Keeps};
ghost use Rattle.link_frames.specs.lines.Aheads.{front_of, pending};
ghost use Rattle.link_frames.specs.lines.Blocks.{ReadAhead};
ghost use Rattle.link_frames.specs.lines.Watching.{watched_inner, watched_tally};
ghost use Rattle.server_locks.specs.Requests.{is_foreign, is_http, whole_next, HoldsOfAll};

use crate::stream::ClientStream;
use client_lines::MOST_LINE_BYTES;
use link_frames::{Ahead, AheadFault, Next, Watched};
use served_node::millis;
use std::io::{ErrorKind, Read, Write};
use std::time::{Clock, Duration};
use std::{io, thread};

/// How often the thread looks for bytes before it waits for them.
const MOST_LOOKS: u32 = 16;

/// Whether bytes begin as an HTTP request that a page in a browser can have sent to any port, and so are no client's
/// line.
fn is_http(bytes: &[u8]) -> bool
    ensures { result ≡ is_http bytes.now }
{
    bytes.starts_with(b"GET ")
        || bytes.starts_with(b"HEAD ")
        || bytes.starts_with(b"POST ")
        || bytes.starts_with(b"PUT ")
        || bytes.starts_with(b"OPTIONS ")
}

/// Whether the first bytes of a connection are no client's. Where operators' lines are answered, the first has to be
/// `{`, since any other protocol may carry a line: behind a method of a page's own, or in a TLS hello. Elsewhere they
/// are no client's where they begin as an HTTP request.
fn is_foreign(operators: bool, bytes: &[u8]) -> bool
    ensures { result ≡ is_foreign operators bytes.now }
{
    if operators {
        bytes.first().is_some_and(|first| *first != b'{')
    } else {
        is_http(bytes)
    }
}

/// Whether a connection is no client's, as its first bytes tell, which are read as far as that takes: where operators'
/// lines are answered one byte, elsewhere a line, or as many bytes as one may have. A connection that ends before is a
/// client's unless these tell otherwise. Nothing is used up.
///
/// # Errors
///
/// `Device` where the reader has failed, and `Memory`. Whose the connection is isn't known then.
pub fn hears_foreign<R: Read>(
    operators: bool,
    ahead: &mut Ahead,
    reader: &mut Watched<R>,
) -> Result<bool, AheadFault>
    ensures first { IfOk result (λ foreign. foreign ≡ is_foreign operators (front_of ahead.new)) }
    ensures all { IfOk result (HoldsOfAll operators (pending (R.remaining (watched_inner reader.old)) ahead.old)) }
    ensures keeps { Keeps (pending (R.remaining (watched_inner reader.old)) ahead.old)
        (pending (R.remaining (watched_inner reader.new)) ahead.new) }
    ensures counts { ReadAhead (watched_tally reader.old) (watched_tally reader.new) result }
{
    let most = if operators { 0 } else { MOST_LINE_BYTES };
    ahead.peek(reader, most)?;
    Ok(is_foreign(operators, ahead.front()))
}

/// What comes next of a connection, of which is known whether it has given way: half a line is nothing then.
pub fn whole_next(next: Next, gave_way: bool) -> Next
    ensures { result ≡ whole_next next gave_way }
{
    match next {
        Next::Last(_) if gave_way => Next::End,
        next => next,
    }
}

/// A client's stream, from which its lines are read.
#[derive(Drop)]
pub struct LineReader<'a> {
    stream: &'a ClientStream,
    looks_first: bool,
}

impl<'a> LineReader<'a> {
    /// A reader that looks for bytes a few times before it waits for them, or waits at once. Between two looks it gives
    /// way to the other threads.
    pub fn new(stream: &'a ClientStream, looks_first: bool) -> LineReader<'a>
        ensures { result.looks_first ≡ looks_first }
    {
        LineReader {
            stream,
            looks_first,
        }
    }

    /// What a read says that need not wait, at the first of the looks that finds anything.
    fn look(&self, buf: &mut [u8]) -> Option<io::Result<usize>>
        ensures { IfSome result (λ read. ReadsAtMost read buf.new) }
    {
        let mut stream = self.stream;
        for _ in 0..MOST_LOOKS {
            match stream.read(buf) {
                Err(error) if error.kind() == ErrorKind::WouldBlock => thread::yield_now(),
                read => return Some(read),
            }
        }
        None
    }
}

impl Read for LineReader<'_> {
    fn read(&mut self, buf: &mut [u8]) -> io::Result<usize> {
        if self.looks_first && self.stream.set_nonblocking(true).is_ok() {
            let found = self.look(buf);
            self.stream.set_nonblocking(false)?;
            if let Some(read) = found {
                return read;
            }
        }
        let mut stream = self.stream;
        stream.read(buf)
    }
}

/// A client's stream that is read and written up to some time, and no longer.
#[derive(Drop)]
pub struct Farewell<'a, R> {
    rt: &'a R,
    stream: &'a ClientStream,
    end: u64,
}

impl<'a, R: Clock> Farewell<'a, R> {
    /// So many milliseconds begin.
    pub fn new(rt: &'a R, stream: &'a ClientStream, time: u64) -> Farewell<'a, R> {
        let end = millis(rt).saturating_add(time);
        Farewell { rt, stream, end }
    }

    /// What is left of the time.
    ///
    /// # Errors
    ///
    /// `TimedOut` where nothing is left.
    fn left(&self) -> io::Result<Option<Duration>> {
        match self.end.saturating_sub(millis(self.rt)) {
            0 => Err(io::Error::from(ErrorKind::TimedOut)),
            left => Ok(Some(Duration::from_millis(left))),
        }
    }
}

impl<R: Clock> Read for Farewell<'_, R> {
    fn read(&mut self, buf: &mut [u8]) -> io::Result<usize> {
        self.stream.set_read_timeout(self.left()?)?;
        let mut stream = self.stream;
        stream.read(buf)
    }
}

impl<R: Clock> Write for Farewell<'_, R> {
    fn write(&mut self, buf: &[u8]) -> io::Result<usize> {
        self.stream.set_write_timeout(self.left()?)?;
        let mut stream = self.stream;
        stream.write(buf)
    }

    fn flush(&mut self) -> io::Result<()> {
        Ok(())
    }
}
