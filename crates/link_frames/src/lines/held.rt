//! Lines that are due and not yet written.

ghost use Rattle.std.specs.Prelude.{◌≡◌, ◌++◌, [], List, ℕ, IfOk, IfSome, OnOk, OnErr};
ghost use Rattle.std.specs.Io.KnownBytes.{Appends, Keeps};
ghost use Rattle.link_frames.specs.lines.Aheads.{front_of, pending};
ghost use Rattle.link_frames.specs.lines.Blocks.{ReadAhead};
ghost use Rattle.link_frames.specs.lines.Devices.{WentOn, CallFailed, AppendsFront};
ghost use Rattle.link_frames.specs.lines.Holding.{IsNotDue};
ghost use Rattle.link_frames.specs.lines.LinePrograms.{Moved};
ghost use Rattle.link_frames.specs.lines.Lines.{ended};
ghost use Rattle.link_frames.specs.lines.Nexts.{Begins, EndsWith};
ghost use Rattle.link_frames.specs.lines.Watching.{watched_inner, watched_tally};
ghost use Rattle.link_frames.specs.declared.lines.next.Next.TheVariants.{Line};

use crate::lines::ahead::Ahead;
use crate::lines::blocks::AheadFault;
use crate::lines::device::{DeviceFault, write_whole};
use crate::lines::next::Next;
use crate::lines::watched::Watched;
use std::alloc::{AllocError, Global};
use std::io::{Read, Write};
use std::marker::Model;

/// So many bytes are not held back.
const MOST_HELD_BYTES: usize = 8192;

/// The text of lines that are due and not yet written. Contracts see it as its bytes.
#[derive(Drop)]
pub struct Held {
    bytes: Vec<u8>,
}

impl Model for Held {
    ghost Value = { List ℕ };

    ghost view = { λ a. a.bytes.items };
}

impl Held {
    /// No lines.
    pub fn new(alloc: Global) -> Held
        ensures { result ≡ [] }
    {
        Held {
            bytes: Vec::new(alloc),
        }
    }

    /// Holds a line of this text behind the others.
    ///
    /// # Errors
    ///
    /// Only for want of memory. What is held stays as it was.
    pub fn push_line(&mut self, text: &str) -> Result<(), AllocError>
        ensures ok { OnOk result (self.new ≡ self.old ++ ended text.now) }
        ensures same { OnErr result (self.new ≡ self.old) }
    {
        self.bytes.try_reserve(text.len() + 1)?;
        self.bytes.extend_from_slice(text.as_bytes())?;
        self.bytes.push(b'\n')?;
        Ok(())
    }

    /// Holds other lines behind the others.
    ///
    /// # Errors
    ///
    /// Only for want of memory. What is held stays as it was.
    pub fn push_lines(&mut self, lines: &Held) -> Result<(), AllocError>
        ensures ok { OnOk result (self.new ≡ self.old ++ lines.now) }
        ensures same { OnErr result (self.new ≡ self.old) }
    {
        self.bytes.extend_from_slice(&lines.bytes)
    }

    /// Writes what is held if it is much, or if no whole line of at most so many bytes is ahead, so that nothing that
    /// is due waits for what comes later.
    ///
    /// # Errors
    ///
    /// The writer has failed. A prefix of what is held was written then, and all of it stays held.
    pub fn write_when_due<W: Write>(
        &mut self,
        ahead: &Ahead,
        limit: usize,
        writer: &mut Watched<W>,
    ) -> Result<(), DeviceFault>
        ensures moved { OnOk result (Moved (W.contents (watched_inner writer.old))
            (W.contents (watched_inner writer.new)) self.old self.new) }
        ensures due { OnOk result (IsNotDue limit self.new (front_of ahead.now)) }
        ensures went_on { OnOk result (WentOn (watched_tally writer.old) (watched_tally writer.new)) }
        ensures part { OnErr result (AppendsFront (W.contents (watched_inner writer.old))
            (W.contents (watched_inner writer.new)) self.old) }
        ensures kept { OnErr result (self.new ≡ self.old) }
        ensures failed { OnErr result (CallFailed (watched_tally writer.old) (watched_tally writer.new)) }
    {
        if self.bytes.len() >= MOST_HELD_BYTES || line_ahead(ahead, limit).is_none() {
            self.write_all(writer)?;
        }
        Ok(())
    }

    /// Writes all that is held.
    ///
    /// # Errors
    ///
    /// The writer has failed. A prefix of what is held was written then, and all of it stays held.
    pub fn write_all<W: Write>(&mut self, writer: &mut Watched<W>) -> Result<(), DeviceFault>
        ensures written { OnOk result (Appends (W.contents (watched_inner writer.old))
            (W.contents (watched_inner writer.new)) self.old) }
        ensures empty { OnOk result (self.new ≡ []) }
        ensures went_on { OnOk result (WentOn (watched_tally writer.old) (watched_tally writer.new)) }
        ensures part { OnErr result (AppendsFront (W.contents (watched_inner writer.old))
            (W.contents (watched_inner writer.new)) self.old) }
        ensures kept { OnErr result (self.new ≡ self.old) }
        ensures failed { OnErr result (CallFailed (watched_tally writer.old) (watched_tally writer.new)) }
    {
        write_whole(writer, &self.bytes)?;
        self.bytes.clear();
        Ok(())
    }

    /// How the bytes ahead and those of the reader begin, as [`Ahead::peek`] tells it. The reader may wait here, so
    /// nothing is held back that is due.
    ///
    /// # Errors
    ///
    /// `Device` where the reader has failed, and `Memory`.
    pub fn peek<R: Read>(
        &self,
        ahead: &mut Ahead,
        limit: usize,
        reader: &mut Watched<R>,
    ) -> Result<Next, AheadFault>
        requires { IsNotDue limit self.now (front_of ahead.old) }
        ensures keeps { Keeps (pending (R.remaining (watched_inner reader.old)) ahead.old)
            (pending (R.remaining (watched_inner reader.new)) ahead.new) }
        ensures begins { IfOk result (λ next. Begins limit (front_of ahead.new) next
            × EndsWith (R.remaining (watched_inner reader.new)) next) }
        ensures counts { ReadAhead (watched_tally reader.old) (watched_tally reader.new) result }
    {
        ahead.peek(reader, limit)
    }
}

/// The bytes of the line that is ahead, where it is whole.
fn line_ahead(ahead: &Ahead, limit: usize) -> Option<usize>
    ensures { IfSome result (λ count. Begins limit (front_of ahead.now) (Line count)) }
{
    match ahead.begins(limit) {
        Some(Next::Line(count)) => Some(count),
        _ => None,
    }
}
