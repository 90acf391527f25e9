//! Readers and writers whose calls are counted.

ghost use Rattle.std.specs.Prelude.{◌≡◌, length};
ghost use Rattle.std.specs.Io.{ReadsAtMost, WritesAtMost};
ghost use Rattle.std.specs.Io.KnownBytes.{ReadConsumes, WriteAppends, Keeps};
ghost use Rattle.std.specs.IoError.{error_kind};
ghost use Rattle.link_frames.specs.lines.Watching.{watched_inner, watched_faults};
ghost use Rattle.link_frames.specs.lines.Watching.{watched_breaks, watched_reads, watched_tally};
ghost use Rattle.link_frames.specs.lines.Watching.{is_interruption, read_fails, read_breaks};
ghost use Rattle.link_frames.specs.lines.Watching.{write_fails, write_breaks, one_more, count_after};

use std::io;
use std::io::{ErrorKind, Read, Write};

/// A reader or writer whose reads and failed calls are counted. It answers what the one inside answers,
/// an interruption included. At the greatest `u64` a count stays.
#[derive(Debug, Drop)]
pub struct Watched<T> {
    inner: T,
    reads: u64,
    faults: u64,
    breaks: u64,
}

/// Whether the call was only interrupted, so that it may be made again.
pub(crate) fn is_interruption(error: &io::Error) -> bool
    ensures { result ≡ is_interruption (error_kind error.now) }
{
    matches!(error.kind(), ErrorKind::Interrupted)
}

impl<T> Watched<T> {
    /// Watches a reader or writer. Nothing was read and nothing has failed yet.
    pub fn new(inner: T) -> Self
        ensures inner { watched_inner result ≡ inner }
        ensures reads { watched_reads result ≡ 0 }
        ensures faults { watched_faults result ≡ 0 }
        ensures breaks { watched_breaks result ≡ 0 }
    {
        Watched {
            inner,
            reads: 0,
            faults: 0,
            breaks: 0,
        }
    }

    /// How many reads were made so far.
    pub fn reads(&self) -> u64
        ensures { result ≡ watched_reads self.now }
    {
        self.reads
    }

    /// How many reads and writes so far answered an error, or wrote none of the bytes offered.
    pub fn faults(&self) -> u64
        ensures { result ≡ watched_faults self.now }
    {
        self.faults
    }

    /// How many of the faults were no interruption.
    pub fn breaks(&self) -> u64
        ensures { result ≡ watched_breaks self.now }
    {
        self.breaks
    }

    fn count_read(&mut self)
        ensures inner { watched_inner self.new ≡ watched_inner self.old }
        ensures reads { watched_reads self.new ≡ one_more (watched_reads self.old) }
        ensures faults { watched_faults self.new ≡ watched_faults self.old }
        ensures breaks { watched_breaks self.new ≡ watched_breaks self.old }
    {
        self.reads = self.reads.saturating_add(1);
    }

    fn count_fault(&mut self, is_break: bool)
        ensures inner { watched_inner self.new ≡ watched_inner self.old }
        ensures reads { watched_reads self.new ≡ watched_reads self.old }
        ensures faults { watched_faults self.new ≡ one_more (watched_faults self.old) }
        ensures breaks { watched_breaks self.new ≡ count_after is_break (watched_breaks self.old) }
    {
        self.faults = self.faults.saturating_add(1);
        if is_break {
            self.breaks = self.breaks.saturating_add(1);
        }
    }
}

impl<R: Read> Read for Watched<R> {
    ghost remaining = { λ w. R.remaining (watched_inner w) };

    fn read(&mut self, buf: &mut [u8]) -> io::Result<usize>
        ensures bound { ReadsAtMost result buf.new }
        ensures bytes { ReadConsumes (R.remaining (watched_inner self.old)) (R.remaining (watched_inner self.new))
            result buf.new }
        ensures reads { watched_reads self.new ≡ one_more (watched_reads self.old) }
        ensures faults { watched_faults self.new ≡ count_after (read_fails result) (watched_faults self.old) }
        ensures breaks { watched_breaks self.new ≡ count_after (read_breaks result) (watched_breaks self.old) }
    {
        let result = self.inner.read(buf);
        self.count_read();
        if let Err(error) = &result {
            self.count_fault(!is_interruption(error));
        }
        result
    }
}

impl<W: Write> Write for Watched<W> {
    ghost contents = { λ w. W.contents (watched_inner w) };

    fn write(&mut self, buf: &[u8]) -> io::Result<usize>
        ensures bound { WritesAtMost result buf.now }
        ensures bytes { WriteAppends (W.contents (watched_inner self.old)) (W.contents (watched_inner self.new))
            result buf.now }
        ensures reads { watched_reads self.new ≡ watched_reads self.old }
        ensures faults { watched_faults self.new
            ≡ count_after (write_fails (length buf.now) result) (watched_faults self.old) }
        ensures breaks { watched_breaks self.new
            ≡ count_after (write_breaks (length buf.now) result) (watched_breaks self.old) }
    {
        let result = self.inner.write(buf);
        match &result {
            Ok(written) => {
                if *written == 0 && !buf.is_empty() {
                    self.count_fault(true);
                }
            }
            Err(error) => self.count_fault(!is_interruption(error)),
        }
        result
    }

    fn flush(&mut self) -> io::Result<()>
        ensures bytes { Keeps (W.contents (watched_inner self.old)) (W.contents (watched_inner self.new)) }
        ensures counts { watched_tally self.new ≡ watched_tally self.old }
    {
        self.inner.flush()
    }
}
