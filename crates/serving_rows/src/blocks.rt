//! Rows of blocks: how a connection's reads are told apart.

use frame_queues::{Came, FrameBlock};
use link_frames::{Faulty, Mishap};
use row_words::{RowFault, Words, text_of};
use std::alloc::Global;
use std::fmt::Display;
use std::io::{Cursor, Read};
use std::{fmt, io};

/// A reader that gives one byte at a time.
#[derive(Drop)]
struct Slow {
    bytes: Cursor<Vec<u8>>,
}

impl Read for Slow {
    fn read(&mut self, buf: &mut [u8]) -> io::Result<usize> {
        let most = buf.len().min(1);
        self.bytes.read(&mut buf[..most])
    }
}

/// A reader that is interrupted in two runs of its reads.
type Interrupted = Faulty<Faulty<Slow>>;

/// Bytes of frames, and a reader of them.
#[derive(Drop)]
pub struct Block {
    block: FrameBlock,
    reader: Interrupted,
}

/// `block HEX COUNT MORE`: a reader that is interrupted so often, gives a byte, is interrupted so often again, and then
/// gives the others, one by one.
pub fn begin(alloc: Global, words: &mut Words<'_>) -> Result<Block, RowFault> {
    let bytes = words.bytes(alloc)?.as_slice().to_vec(alloc)?;
    let (count, more) = (words.long()?, words.long()?);
    let slow = Slow {
        bytes: Cursor::new(bytes),
    };
    let inner = Faulty::new(slow, Mishap::Interrupt, 1, more);
    Ok(Block {
        block: FrameBlock::new(alloc)?,
        reader: Faulty::new(inner, Mishap::Interrupt, 0, count),
    })
}

pub fn answer(alloc: Global, block: &mut Block, line: &str) -> Result<String, RowFault> {
    let mut words = Words::new(line);
    match words.word() {
        "read" => read(alloc, block, &mut words),
        _ => Err(RowFault::BadRow),
    }
}

/// What a read gave, and how many reads were interrupted before it.
#[derive(Clone, Copy)]
struct Shown(u32, Came);

impl Display for Shown {
    fn fmt<W: fmt::Write>(&self, f: &mut fmt::Formatter<W>) -> fmt::Result {
        let came = match self.1 {
            Came::Nothing => "nothing",
            Came::Some => "some",
            Came::More => "more",
            Came::End => "end",
        };
        write!(f, "{} {came}", self.0)
    }
}

/// `read MOST`: reads until a read is not interrupted, so often at most.
fn read(alloc: Global, block: &mut Block, words: &mut Words<'_>) -> Result<String, RowFault> {
    let mut shown = Shown(0, Came::More);
    for count in 0..words.wide()? {
        shown = Shown(count, block.block.read(&mut block.reader, 1));
        if shown.1 != Came::More {
            break;
        }
    }
    text_of(alloc, &shown)
}
