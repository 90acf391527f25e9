//! Frames that wait to be written over a connection.

ghost use Rattle.std.specs.Prelude.{◌≡◌, ◌+◌, ◌-◌, ◌*◌, ◌<◌, ◌≤◌, ◌==◌, [], ◌++◌, length, take, drop, IsTrue, IfOk};
ghost use Rattle.std.specs.Prelude.{OnOk, OnErr};
ghost use Rattle.std.specs.List.{concat};
ghost use Rattle.link_frames.specs.frames.Layout.{frame_len};
ghost use Rattle.frame_queues.specs.Unsent.{most_frames, unsent, after_written, restarted, IsWrite};

use link_frames::{FRAME_LEN, Frame};
use std::alloc::{AllocError, Global};
use std::collections::VecDeque;
use std::io;
use std::io::Write;
use std::marker::Model;

/// The most frames that wait.
pub const MOST_FRAMES: usize = 1_024;

/// The most frames that are handed to the writer at once.
const BATCH_FRAMES: usize = 128;

/// Frames that wait to be written over a connection, oldest first, 1,024 at most, and how many bytes of the oldest are
/// written. A frame waits until it is written whole; so whole frames go over a connection, in their order.
#[derive(Drop)]
pub struct UnsentFrames {
    frames: VecDeque<Frame>,
    /// How many bytes of the oldest frame are written.
    written: usize,
}

impl Model for UnsentFrames {
    ghost use Rattle.frame_queues.specs.Unsent.{UnsentValue};
    ghost use Rattle.frame_queues.specs.inside.Kept.{IsUnsent, unsent_code};

    ghost Value = { UnsentValue };

    ghost coded = { unsent_code };

    ghost view = { λ a. record { frames = a.frames.items; written = a.written } };

    ghost invariant = { λ a. IsUnsent a.frames.items a.written };
}

impl UnsentFrames {
    /// No frame waits. Takes no memory.
    pub fn new(alloc: Global) -> UnsentFrames
        ensures { result ≡ record { frames = []; written = 0 } }
    {
        UnsentFrames {
            frames: VecDeque::new(alloc),
            written: 0,
        }
    }

    /// Whether no frame waits. None is written in part then.
    pub fn is_empty(&self) -> bool
        ensures value { result ≡ (length self.now.frames == 0) }
        ensures whole { IsTrue result → self.now.written ≡ 0 }
    {
        self.frames.is_empty()
    }

    /// For how many more frames there is room.
    pub fn room(&self) -> usize
        ensures value { result ≡ most_frames - length self.now.frames }
        ensures most { length self.now.frames ≤ most_frames }
    {
        MOST_FRAMES - self.frames.len()
    }

    /// Puts frames behind the others, as many as there is room for. The rest of them don't wait.
    ///
    /// # Errors
    ///
    /// Only for want of memory. No frame is put there.
    pub fn push(&mut self, frames: &[Frame]) -> Result<(), AllocError>
        ensures ok { OnOk result
            (self.new ≡ record self.old { frames = take most_frames (self.old.frames ++ frames.now) }) }
        ensures bytes { OnOk result
            (unsent self.new ≡ unsent self.old ++ concat (take (most_frames - length self.old.frames) frames.now)) }
        ensures err { OnErr result (self.new ≡ self.old) }
    {
        let taken = frames.len().min(self.room());
        self.frames.try_reserve(taken)?;
        for frame in &frames[..taken] {
            self.frames.push_back_reserved(*frame);
        }
        Ok(())
    }

    /// Hands the oldest bytes that are not written to the writer, in one call, those of 128 frames at most. How many
    /// bytes it took. Frames that are written whole wait no more.
    ///
    /// # Errors
    ///
    /// As the writer answers. It took none.
    pub fn write<W: Write>(&mut self, writer: &mut W) -> io::Result<usize>
        ensures bytes { IsWrite (W.contents writer.old) (W.contents writer.new) self.old result }
        ensures ok { IfOk result (λ n. self.new ≡ after_written n self.old) }
        ensures rest { IfOk result (λ n. unsent self.new ≡ drop n (unsent self.old)) }
        ensures err { OnErr result (self.new ≡ self.old) }
    {
        let bytes = batch_of(&self.frames).as_flattened();
        let count = writer.write(&bytes[self.written..])?;
        self.forget(count);
        Ok(count)
    }

    /// So many bytes more are written.
    fn forget(&mut self, bytes: usize)
        requires { self.old.written + bytes ≤ length self.old.frames * frame_len }
        ensures { self.new ≡ after_written bytes self.old }
    {
        let written = self.written + bytes;
        for _ in 0..written / FRAME_LEN {
            let _ = self.frames.pop_front();
        }
        self.written = written % FRAME_LEN;
    }

    /// A new connection begins: of the oldest frame nothing is written there.
    pub fn restart(&mut self)
        ensures { self.new ≡ restarted self.old }
    {
        self.written = 0;
    }
}

/// The oldest frames that lie one behind another in memory, [`BATCH_FRAMES`] at most.
fn batch_of(frames: &VecDeque<Frame>) -> &[Frame]
    ensures front { result.now ≡ take (length result.now) frames.now.items }
    ensures some { 0 < length frames.now.items → 0 < length result.now }
{
    let (first, _) = frames.as_slices();
    &first[..first.len().min(BATCH_FRAMES)]
}
