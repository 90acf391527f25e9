//! Blocks of bytes that are read behind others.

ghost use Rattle.std.specs.Prelude.{◌≡◌, ◌≤◌, ◌+◌, length, OnOk, OnErr, IfOk};
ghost use Rattle.std.specs.Io.KnownBytes.{Keeps};
ghost use Rattle.link_frames.specs.lines.Watching.{watched_inner, watched_tally};
ghost use Rattle.link_frames.specs.lines.Devices.{WasAsked};
ghost use Rattle.link_frames.specs.lines.Blocks.{block_bytes, Onto, ReadAhead};

use crate::lines::device::{DeviceFault, read_patiently};
use crate::lines::watched::Watched;
use std::alloc::AllocError;
use std::error::Error;
use std::fmt;
use std::io::Read;

/// How many bytes are read at once.
pub(crate) const BLOCK_BYTES: usize = 8192;

/// Why no bytes were read ahead.
#[derive(Clone, Copy, Debug, PartialEq, Eq)]
pub enum AheadFault {
    /// The reader has failed.
    Device,
    /// Memory ran out.
    Memory,
}

impl fmt::Display for AheadFault {
    ghost use Rattle.std.specs.Prelude.{Some};
    ghost use Rattle.link_frames.specs.Texts.{ahead_fault_text};

    ghost output = { λ fault. Some (ahead_fault_text fault) };

    fn fmt<W: fmt::Write>(&self, f: &mut fmt::Formatter<W>) -> fmt::Result {
        f.write_str(match self {
            AheadFault::Device => "device",
            AheadFault::Memory => "out of memory",
        })
    }
}

impl Error for AheadFault {}

impl From<DeviceFault> for AheadFault {
    ghost use Rattle.link_frames.specs.declared.lines.blocks.AheadFault.TheVariants.{Device};

    ghost from_gives = { λ _ e. e ≡ Device };

    fn from(_: DeviceFault) -> Self {
        AheadFault::Device
    }
}

impl From<AllocError> for AheadFault {
    ghost use Rattle.link_frames.specs.declared.lines.blocks.AheadFault.TheVariants.{Memory};

    ghost from_gives = { λ _ e. e ≡ Memory };

    fn from(_: AllocError) -> Self {
        AheadFault::Memory
    }
}

/// Puts what one read gives behind the bytes, by way of a block whose bytes count for nothing. How many they are.
pub(crate) fn read_onto<R: Read>(
    bytes: &mut Vec<u8>,
    block: &mut [u8; BLOCK_BYTES],
    reader: &mut Watched<R>,
) -> Result<usize, AheadFault>
    ensures ok { IfOk result (Onto (R.remaining (watched_inner reader.old)) (R.remaining (watched_inner reader.new))
        bytes.old.items bytes.new.items) }
    ensures kept { OnErr result (bytes.new.items ≡ bytes.old.items) }
    ensures unread { OnErr result
        (Keeps (R.remaining (watched_inner reader.old)) (R.remaining (watched_inner reader.new))) }
    ensures held { length bytes.new.items ≤ length bytes.old.items + block_bytes }
    ensures asked { OnOk result (WasAsked (watched_tally reader.old) (watched_tally reader.new)) }
    ensures counts { ReadAhead (watched_tally reader.old) (watched_tally reader.new) result }
{
    bytes.try_reserve(BLOCK_BYTES)?;
    let count = read_patiently(reader, block)?;
    let Ok(()) = bytes.extend_from_slice(&block[..count]) else {
        unreachable!()
    };
    Ok(count)
}
