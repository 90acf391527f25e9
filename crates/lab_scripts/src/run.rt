//! A script, run line by line.

ghost use Rattle.std.specs.Prelude.{◌≡◌, ◌≢◌, ℕ, ◌≤◌, ◌⊎◌, List, Option, length, IfOk, IfErr, Err};
ghost use Rattle.link_frames.specs.lines.Aheads.{front_of};
ghost use Rattle.link_frames.specs.lines.Devices.{WentOn, CallFailed, ReaderFailed};
ghost use Rattle.link_frames.specs.lines.Blocks.{ReadAhead};
ghost use Rattle.link_frames.specs.lines.Holding.{IsNotDue};
ghost use Rattle.link_frames.specs.lines.LinesAt.{Lines, devices_at, lines_at};
ghost use Rattle.link_frames.specs.lines.Watching.{watched_tally};
ghost use Rattle.lab_scripts.specs.Scripts.{Script, most_line_bytes, next};
ghost use Rattle.lab_scripts.specs.Stages.{Follows};
ghost use Rattle.lab_scripts.specs.Runs.{ScriptRan, IsEndless};
ghost use Rattle.lab_scripts.specs.inside.Steps.{Holds, ScriptRuns, IsTaken};

use crate::fault::ScriptFault;
use crate::stage::{Stage, answer};
use link_frames::{Ahead, AheadFault, Held, Next, Watched};
use std::alloc::{AllocError, Global};
use std::io::{Read, Write};

/// The most bytes of a line, its end not counted.
const MOST_LINE_BYTES: usize = 4096;

/// What the next line was.
#[derive(Clone, Copy)]
pub enum Took {
    /// A good line.
    Line,
    /// A bad line.
    BadLine,
    /// None, or the last: there are no more.
    All,
}

/// Reads a script, and writes a line for each line of it.
///
/// All that is due is written before the reader is asked for more. A script of one instance takes memory that does not
/// grow with it; one of a cluster keeps the nodes' histories and the messages that they sent.
///
/// # Errors
///
/// `BadScript` at the first bad line, when what is due for the lines before it is written. `Device` where the reader or
/// the writer has failed, or where there is no number for another line, and `Memory`; a prefix of what is due is
/// written then. Any answer but `Device` comes only where no read or write broke.
pub fn run_script<R: Read, W: Write>(
    alloc: Global,
    reader: &mut Watched<R>,
    writer: &mut Watched<W>,
) -> Result<(), ScriptFault>
    ensures ran { ScriptRan (devices_at R.remaining W.contents reader.old writer.old)
        (devices_at R.remaining W.contents reader.new writer.new) result }
    ensures device { IfErr result (λ e. e ≡ ScriptFault.Device →
        ReaderFailed (watched_tally reader.old) (watched_tally reader.new)
        ⊎ (CallFailed (watched_tally writer.old) (watched_tally writer.new)
        ⊎ IsEndless (devices_at R.remaining W.contents reader.old writer.old)
        (devices_at R.remaining W.contents reader.new writer.new))) }
    ensures quiet { result ≢ Err ScriptFault.Device →
        WentOn (watched_tally reader.old) (watched_tally reader.new)
        × WentOn (watched_tally writer.old) (watched_tally writer.new) }
{
    let mut stage = Stage::Start;
    let mut ahead = Ahead::new(alloc);
    let mut held = Held::new(alloc);
    for number in 1..u64::MAX {
        held.write_when_due(&ahead, MOST_LINE_BYTES, writer)?;
        match take_next(alloc, &mut stage, &mut ahead, &mut held, reader)? {
            Took::Line => {}
            Took::BadLine => {
                held.write_all(writer)?;
                return Err(ScriptFault::BadScript { line: number });
            }
            Took::All => {
                held.write_all(writer)?;
                return Ok(());
            }
        }
    }
    held.write_all(writer)?;
    Err(ScriptFault::Device)
}

/// Takes the next line, and holds what is due for it behind the rest. Nothing may be held back where
/// the reader has to be asked for more.
fn take_next<R: Read>(
    alloc: Global,
    stage: &mut Stage,
    ahead: &mut Ahead,
    held: &mut Held,
    reader: &mut Watched<R>,
) -> Result<Took, AheadFault>
    requires due { IsNotDue most_line_bytes held.old (front_of ahead.old) }
    ensures taken { IfOk result
        (λ took. (first : Lines) (written : Option (List ℕ)) (script : Script) (number : ℕ) → Follows stage.old script →
        ScriptRuns first (lines_at R.remaining reader.old ahead.old written) held.old script number →
        IsTaken took first (lines_at R.remaining reader.new ahead.new written) held.new stage.new number) }
    ensures counts { ReadAhead (watched_tally reader.old) (watched_tally reader.new) result }
{
    match held.peek(ahead, MOST_LINE_BYTES, reader)? {
        Next::End => Ok(Took::All),
        Next::TooLong => Ok(Took::BadLine),
        Next::Line(count) => {
            let line = &ahead.front()[..count];
            if !take_line(alloc, stage, held, line)? {
                return Ok(Took::BadLine);
            }
            ahead.take(count + 1);
            Ok(Took::Line)
        }
        Next::Last(_) => {
            if !take_line(alloc, stage, held, ahead.front())? {
                return Ok(Took::BadLine);
            }
            Ok(Took::All)
        }
    }
}

/// Takes the next line. Whether it is good; then what is due for it is held behind the rest.
fn take_line(
    alloc: Global,
    stage: &mut Stage,
    held: &mut Held,
    line: &[u8],
) -> Result<bool, AllocError>
    requires { length line.now ≤ most_line_bytes }
    ensures { IfOk result
        (λ good. (script : Script) → Follows stage.old script →
        Holds (next script line.now) stage.new held.old held.new good) }
{
    let Some(text) = answer(alloc, stage, line)? else {
        return Ok(false);
    };
    held.push_line(&text)?;
    Ok(true)
}
