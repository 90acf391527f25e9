//! The turns in which the frames of several blocks are put.

ghost use Rattle.std.specs.Prelude.{◌≡◌, ◌+◌, ◌-◌, ◌<◌, [], ◌∷◌, ◌++◌, IfOk, OnOk, OnErr};
ghost use Rattle.frame_queues.specs.Turns.{turn_frames, IsNextTurn};

use std::alloc::{AllocError, Global};
use std::collections::VecDeque;
use std::marker::Model;

/// The most frames of a block in one turn.
pub const TURN_FRAMES: usize = 8;

/// Frames of a block from one on and before another: those that a turn takes, or those that are left.
#[derive(Clone, Copy, Debug, PartialEq, Eq)]
pub struct Turn {
    /// The number of the block.
    pub block: usize,
    pub from: usize,
    pub to: usize,
}

/// Blocks of which frames are left, in the order in which their turns come. Contracts see them as a list.
#[derive(Drop)]
pub struct Turns {
    blocks: VecDeque<Turn>,
}

impl Model for Turns {
    ghost use Rattle.std.specs.Prelude.{List};
    ghost use Rattle.frame_queues.specs.declared.turns.Turn.{Turn};

    ghost Value = { List Turn };

    ghost view = { λ a. a.blocks.items };
}

impl Turns {
    /// None, with room for so many blocks.
    ///
    /// # Errors
    ///
    /// Only for want of memory.
    pub fn new(alloc: Global, blocks: usize) -> Result<Turns, AllocError>
        ensures { IfOk result (λ made. made ≡ []) }
    {
        Ok(Turns {
            blocks: VecDeque::with_capacity(alloc, blocks)?,
        })
    }

    /// A block of so many frames comes behind the others.
    ///
    /// # Errors
    ///
    /// Only for want of memory, where there are as many blocks as there was room for.
    pub fn add(&mut self, block: usize, frames: usize) -> Result<(), AllocError>
        ensures ok { OnOk result (self.new ≡ self.old ++ record { block = block; from = 0; to = frames } ∷ []) }
        ensures err { OnErr result (self.new ≡ self.old) }
    {
        self.blocks.push_back(Turn {
            block,
            from: 0,
            to: frames,
        })?;
        Ok(())
    }

    /// The next turn: the first frames of the first block, [`TURN_FRAMES`] at most. What is left of the block comes
    /// behind the others.
    pub fn next(&mut self) -> Option<Turn>
        ensures { IsNextTurn self.old self.new result }
    {
        let Turn { block, from, to } = *self.blocks.front()?;
        if to.saturating_sub(from) <= TURN_FRAMES {
            return self.blocks.pop_front();
        }
        let next = turn_end(from, to);
        self.blocks[0] = Turn {
            block,
            from: next,
            to,
        };
        self.blocks.rotate_left(1);
        Some(Turn {
            block,
            from,
            to: next,
        })
    }
}

/// Where a turn ends that leaves frames of a block.
fn turn_end(from: usize, to: usize) -> usize
    requires { turn_frames < to - from }
    ensures { result ≡ from + turn_frames }
{
    from + TURN_FRAMES
}
