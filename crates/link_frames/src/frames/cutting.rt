//! Bytes that are cut into frames.

ghost use Rattle.std.specs.Prelude.{◌≡◌, ◌/◌, length};
ghost use Rattle.link_frames.specs.frames.FrameStreams.{AreFramesOf, rest_of};
ghost use Rattle.link_frames.specs.frames.Layout.{frame_len};

use crate::frames::layout::{FRAME_LEN, Frame};

/// The whole frames with which the bytes begin, and what is left of the bytes behind them: a part of the next frame, or
/// nothing.
pub fn frames_of(bytes: &[u8]) -> (&[Frame], &[u8])
    ensures frames { AreFramesOf bytes.now result.0.now }
    ensures count { length result.0.now ≡ length bytes.now / frame_len }
    ensures rest { result.1.now ≡ rest_of bytes.now }
{
    bytes.as_chunks::<FRAME_LEN>()
}
