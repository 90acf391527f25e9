//! What is true of frames and of opening them.

ghost use Rattle.link_frames.specs.frames.FrameStreams.{FramesAreOne};
ghost use Rattle.link_frames.specs.Laws.{SealedIsOpened, OpenedIsSealed, OneFrame, FramesDiffer, FrameLength};

/// Sealing and opening undo each other.
pub fn links()
    ensures opened { SealedIsOpened }
    ensures sealed { OpenedIsSealed }
{}

/// A packet has one frame, and a frame one packet.
pub fn one_frame()
    ensures one { OneFrame }
    ensures differ { FramesDiffer }
    ensures len { FrameLength }
{}

/// Bytes are cut into frames in one way.
pub fn one_cut()
    ensures { FramesAreOne }
{}
