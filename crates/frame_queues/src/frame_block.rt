//! Bytes of frames as they are read, a block at a time.

ghost use Rattle.std.specs.Prelude.{◌≡◌, ◌+◌, ◌≤◌, [], length, IfOk};
ghost use Rattle.link_frames.specs.frames.FrameStreams.{AreFramesOf, rest_of};
ghost use Rattle.frame_queues.specs.Blocks.{ReadsOn, Says, block_frames, block_end};
ghost use Rattle.frame_queues.specs.inside.Answers.{came_with, came_after};

use link_frames::{FRAME_LEN, Frame, frames_of};
use std::alloc::{AllocError, Global};
use std::io::{ErrorKind, Read};
use std::marker::Model;

/// The most frames of a block.
pub const BLOCK_FRAMES: usize = 160;

/// How often reads may be interrupted until one gives bytes.
const MOST_INTERRUPTIONS: u32 = 1_024;

/// What a read gave.
#[derive(Clone, Copy, Debug, PartialEq, Eq)]
pub enum Came {
    /// No bytes, since there are no more now.
    Nothing,
    /// What there was; what comes later is an event of its own, but for the end that had come with it.
    Some,
    /// A full block, or no bytes since the read was interrupted; there may be more.
    More,
    /// No bytes, since the reader has ended or failed.
    End,
}

/// Bytes that were read, 8,640 at most: whole frames and a part of the next. Contracts see them as a list.
#[derive(Drop)]
pub struct FrameBlock {
    bytes: Vec<u8>,
    have: usize,
    /// How often reads were interrupted since one gave bytes.
    interruptions: u32,
}

impl Model for FrameBlock {
    ghost use Rattle.std.specs.Prelude.{List, ℕ, take};
    ghost use Rattle.frame_queues.specs.inside.Kept.{IsBlock};

    ghost Value = { List ℕ };

    ghost view = { λ a. take a.have a.bytes.items };

    ghost invariant = { λ a. IsBlock a.have a.bytes.items };
}

impl FrameBlock {
    /// No bytes.
    ///
    /// # Errors
    ///
    /// Only for want of memory.
    pub fn new(alloc: Global) -> Result<FrameBlock, AllocError>
        ensures { IfOk result (λ made. made ≡ []) }
    {
        let bytes = Vec::from_elem(alloc, 0u8, BLOCK_FRAMES * FRAME_LEN)?;
        Ok(FrameBlock {
            bytes,
            have: 0,
            interruptions: 0,
        })
    }

    /// The whole frames. What is left of the bytes behind them is a part of the next.
    pub fn frames(&self) -> &[Frame]
        ensures frames { AreFramesOf self.now result.now }
        ensures few { length result.now ≤ block_frames }
    {
        frames_of(&self.bytes[..self.have]).0
    }

    /// Reads on behind the part of a frame that is left, in one call of the reader, up to so many frames with that: one
    /// at least, [`BLOCK_FRAMES`] at most. The frames that were whole before are let go.
    ///
    /// A reader that fails has given no bytes. Where it only has none now ([`ErrorKind::WouldBlock`]) there came
    /// nothing. Where it was interrupted there may be more, unless it was 1,024 times before since it gave bytes. Any
    /// other fault is an end, and so is a reader that gives none.
    pub fn read<R: Read>(&mut self, reader: &mut R, frames: usize) -> Came
        ensures bytes { ReadsOn (R.remaining reader.old) (R.remaining reader.new) self.old self.new }
        ensures came { Says (length (rest_of self.old)) (length self.new) (block_end frames) result }
    {
        self.keep_rest();
        let have = self.have;
        let end = frames.clamp(1, BLOCK_FRAMES) * FRAME_LEN;
        match reader.read(&mut self.bytes[have..end]) {
            Ok(count) => {
                self.have = have + count;
                self.interruptions = 0;
                given(count, end - have)
            }
            Err(error) => failed(error.kind(), &mut self.interruptions),
        }
    }

    /// Lets the whole frames go, so that the part of a frame that is left comes first.
    fn keep_rest(&mut self)
        ensures { self.new ≡ rest_of self.old }
    {
        let rest = self.have % FRAME_LEN;
        self.bytes.copy_within(self.have - rest..self.have, 0);
        self.have = rest;
    }
}

/// What a read gave that gave so many bytes, where there was room for so many.
fn given(count: usize, room: usize) -> Came
    ensures { result ≡ came_with count room }
{
    match count {
        0 => Came::End,
        _ if count < room => Came::Some,
        _ => Came::More,
    }
}

/// What a read gave that failed, with so many interruptions before. One that was interrupted may be made again,
/// [`MOST_INTERRUPTIONS`] times until one gives bytes.
fn failed(kind: ErrorKind, interruptions: &mut u32) -> Came
    ensures came { result ≡ came_after kind interruptions.old }
    ensures again { result ≡ Came.More → interruptions.new ≡ interruptions.old + 1 }
{
    match kind {
        ErrorKind::WouldBlock => Came::Nothing,
        ErrorKind::Interrupted if *interruptions < MOST_INTERRUPTIONS => {
            *interruptions += 1;
            Came::More
        }
        _ => Came::End,
    }
}
