//! Readers and writers that are asked again when they were interrupted.

ghost use Rattle.std.specs.Prelude.{◌≡◌, ◌+◌, ◌*◌, ◌≤◌, ◌<◌, length, OnOk, OnErr, IfOk};
ghost use Rattle.std.specs.Io.{ReadsAtMost};
ghost use Rattle.std.specs.Io.KnownBytes.{ReadConsumes, WriteAppends, Appends};
ghost use Rattle.link_frames.specs.lines.Watching.{watched_inner, watched_faults, watched_reads, watched_tally};
ghost use Rattle.link_frames.specs.lines.Devices.{most_retries, WentOn, WasAsked, CallFailed, ReaderFailed};
ghost use Rattle.link_frames.specs.lines.Devices.{AppendsFront};

use crate::lines::watched::{Watched, is_interruption};
use std::error::Error;
use std::fmt;
use std::io::{Read, Write};

/// A call is made so many times in a row at most: once, and 1,024 times again where it was interrupted.
const MOST_TRIES: u32 = 1025;

/// The reader or the writer has failed: a call of it broke, or was interrupted 1,025 times in a row, or its
/// reads can be counted no further.
#[derive(Clone, Copy, Debug, PartialEq, Eq)]
pub struct DeviceFault;

impl fmt::Display for DeviceFault {
    ghost use Rattle.std.specs.Prelude.{Some, codes};

    ghost output = { λ _. Some (codes "device") };

    fn fmt<W: fmt::Write>(&self, f: &mut fmt::Formatter<W>) -> fmt::Result {
        f.write_str("device")
    }
}

impl Error for DeviceFault {}

/// Reads, again where the read was interrupted.
///
/// # Errors
///
/// A read failed and was not interrupted; 1,025 reads in a row were interrupted; the reader was asked
/// `u64::MAX` times before.
pub fn read_patiently<R: Read>(
    reader: &mut Watched<R>,
    buffer: &mut [u8],
) -> Result<usize, DeviceFault>
    ensures bound { ReadsAtMost result buffer.new }
    ensures bytes { ReadConsumes (R.remaining (watched_inner reader.old)) (R.remaining (watched_inner reader.new))
        result buffer.new }
    ensures ok { OnOk result (WentOn (watched_tally reader.old) (watched_tally reader.new)) }
    ensures asked { OnOk result (WasAsked (watched_tally reader.old) (watched_tally reader.new)) }
    ensures retries { OnOk result (watched_faults reader.new ≤ watched_faults reader.old + most_retries) }
    ensures err { OnErr result (ReaderFailed (watched_tally reader.old) (watched_tally reader.new)) }
{
    if reader.reads() == u64::MAX {
        return Err(DeviceFault);
    }
    for _tries in 0..MOST_TRIES {
        match reader.read(buffer) {
            Ok(count) => return Ok(count),
            Err(error) if is_interruption(&error) => {}
            Err(_) => return Err(DeviceFault),
        }
    }
    Err(DeviceFault)
}

/// Writes what the writer takes of the bytes, again where the write was interrupted.
fn write_patiently<W: Write>(writer: &mut Watched<W>, bytes: &[u8]) -> Result<usize, DeviceFault>
    requires { 0 < length bytes.now }
    ensures some { IfOk result (λ n. (0 < n) × (n ≤ length bytes.now)) }
    ensures bytes { WriteAppends (W.contents (watched_inner writer.old)) (W.contents (watched_inner writer.new))
        result bytes.now }
    ensures ok { OnOk result (WentOn (watched_tally writer.old) (watched_tally writer.new)) }
    ensures retries { OnOk result (watched_faults writer.new ≤ watched_faults writer.old + most_retries) }
    ensures err { OnErr result (CallFailed (watched_tally writer.old) (watched_tally writer.new)) }
    ensures reads { watched_reads writer.new ≡ watched_reads writer.old }
{
    for _tries in 0..MOST_TRIES {
        match writer.write(bytes) {
            Ok(0) => return Err(DeviceFault),
            Ok(count) => return Ok(count),
            Err(error) if is_interruption(&error) => {}
            Err(_) => return Err(DeviceFault),
        }
    }
    Err(DeviceFault)
}

/// Writes all of the bytes.
///
/// # Errors
///
/// A write failed and was not interrupted, or took no byte; 1,025 writes in a row were interrupted. A prefix
/// of the bytes was written then.
pub fn write_whole<W: Write>(writer: &mut Watched<W>, bytes: &[u8]) -> Result<(), DeviceFault>
    ensures written { OnOk result
        (Appends (W.contents (watched_inner writer.old)) (W.contents (watched_inner writer.new)) bytes.now) }
    ensures ok { OnOk result (WentOn (watched_tally writer.old) (watched_tally writer.new)) }
    ensures retries { OnOk result
        (watched_faults writer.new ≤ watched_faults writer.old + most_retries * length bytes.now) }
    ensures part { OnErr result
        (AppendsFront (W.contents (watched_inner writer.old)) (W.contents (watched_inner writer.new)) bytes.now) }
    ensures err { OnErr result (CallFailed (watched_tally writer.old) (watched_tally writer.new)) }
    ensures reads { watched_reads writer.new ≡ watched_reads writer.old }
{
    let mut sent = 0;
    while sent < bytes.len() {
        sent += write_patiently(writer, &bytes[sent..])?;
    }
    Ok(())
}
