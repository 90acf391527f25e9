//! Frames that are read one by one.

ghost use Rattle.std.specs.Prelude.{◌≡◌};
ghost use Rattle.link_frames.specs.frames.FrameReads.{FrameRead};
ghost use Rattle.link_frames.specs.lines.Watching.{watched_inner, watched_tally};

use crate::frames::layout::FRAME_LEN;
use crate::lines::{Watched, is_interruption};
use std::error::Error;
use std::fmt;
use std::io::Read;

/// The most reads for one frame.
const MOST_READS: u16 = 1024;

/// Why no frame was read. Written as its code and its name.
#[derive(Clone, Copy, Debug, PartialEq, Eq)]
pub enum ReadFault {
    /// The reader ended after so many bytes of a frame.
    Truncated(u8),
    /// A read failed, and was not only interrupted.
    Device,
    /// The reads gave too little, or were interrupted, too often.
    TooManyTurns,
}

impl fmt::Display for ReadFault {
    ghost use Rattle.std.specs.Prelude.{Some};
    ghost use Rattle.link_frames.specs.Texts.{read_fault_text};

    ghost output = { λ fault. Some (read_fault_text fault) };

    fn fmt<W: fmt::Write>(&self, f: &mut fmt::Formatter<W>) -> fmt::Result {
        f.write_str(match self {
            ReadFault::Truncated(_) => "P1 Truncated",
            ReadFault::Device => "P2 Device",
            ReadFault::TooManyTurns => "P3 TooManyTurns",
        })
    }
}

impl Error for ReadFault {}

/// Reads the next frame's bytes, and no more. `None` is the end of the reader. A read that is
/// interrupted is tried again.
///
/// # Errors
///
/// The reader ends within the frame; a read fails; the frame is not whole after 1,024 reads.
pub fn read_frame<R: Read>(reader: &mut Watched<R>) -> Result<Option<[u8; FRAME_LEN]>, ReadFault>
    ensures { FrameRead (R.remaining (watched_inner reader.old)) (R.remaining (watched_inner reader.new))
        (watched_tally reader.old) (watched_tally reader.new) result }
{
    let mut frame = [0u8; FRAME_LEN];
    let mut have = 0;
    for _ in 0..MOST_READS {
        match reader.read(&mut frame[have..]) {
            Ok(0) if have == 0 => return Ok(None),
            Ok(0) => return Err(ReadFault::Truncated(have as u8)),
            Ok(n) => {
                have += n;
                if have == FRAME_LEN {
                    return Ok(Some(frame));
                }
            }
            Err(error) if is_interruption(&error) => {}
            Err(_) => return Err(ReadFault::Device),
        }
    }
    Err(ReadFault::TooManyTurns)
}
