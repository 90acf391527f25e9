//! The next line of a reader's bytes.

ghost use Rattle.std.specs.Prelude.{◌≡◌, ◌≤◌, ◌<◌, ◌+◌, ◌++◌, [], length, vec_len, drop, max, ℕ};
ghost use Rattle.std.specs.Prelude.{List, Option, OnOk, OnErr, IfOk, IfSome, IfNone, MatchBool};
ghost use Rattle.std.specs.Io.KnownBytes.{Keeps, IsAtEnd};
ghost use Rattle.link_frames.specs.lines.Watching.{watched_inner, watched_tally};
ghost use Rattle.link_frames.specs.lines.Devices.{WasAsked};
ghost use Rattle.link_frames.specs.lines.Lines.{ended, NoLineEnd};
ghost use Rattle.link_frames.specs.lines.Nexts.{Begins, EndsWith, PassedLine, PassedPart};
ghost use Rattle.link_frames.specs.lines.Blocks.{block_bytes, ReadAhead};

use crate::lines::blocks::{AheadFault, BLOCK_BYTES, read_onto};
use crate::lines::next::{Next, first_line_end, next_of};
use crate::lines::watched::Watched;
use std::alloc::Global;
use std::io::Read;

/// Bytes that were read, of which the first are used up.
#[derive(Drop)]
pub struct Ahead {
    bytes: Vec<u8>,
    used: usize,
    /// What is read comes here first, so that no room has to be blanked for it.
    block: [u8; BLOCK_BYTES],
    ghost within: { used ≤ vec_len bytes },
}

impl Ahead {
    ghost use Rattle.link_frames.specs.lines.Aheads.{front_of, held_bytes, pending};

    /// No bytes.
    pub fn new(alloc: Global) -> Self
        ensures front { front_of result ≡ [] }
        ensures held { held_bytes result ≡ 0 }
    {
        Ahead {
            bytes: Vec::new(alloc),
            used: 0,
            block: [0; BLOCK_BYTES],
        }
    }

    /// The bytes that are not used yet.
    pub fn front(&self) -> &[u8]
        ensures { result.now ≡ front_of self.now }
    {
        &self.bytes[self.used..]
    }

    /// Uses up the first bytes.
    pub fn take(&mut self, count: usize)
        requires { count ≤ length (front_of self.old) }
        ensures front { front_of self.new ≡ drop count (front_of self.old) }
        ensures held { held_bytes self.new ≡ held_bytes self.old }
    {
        self.used += count;
    }

    /// How the bytes begin, where that does not depend on what the reader has left: `Line` or `TooLong`, and
    /// `None` where they have no line end and are no more than `limit`.
    pub fn begins(&self, limit: usize) -> Option<Next>
        ensures begins { IfSome result (λ next. Begins limit (front_of self.now) next
            × ((known : Option (List ℕ)) → EndsWith known next)) }
        ensures open { IfNone result (NoLineEnd (front_of self.now) × (length (front_of self.now) ≤ limit)) }
    {
        next_of(self.front(), limit)
    }

    /// How the bytes ahead and those of the reader begin, where a line may have `limit` bytes, its end not
    /// counted. Blocks are read until that is known, and nothing is used up, whatever the answer.
    ///
    /// # Errors
    ///
    /// `Device` where the reader has failed, and `Memory`.
    pub fn peek<R: Read>(
        &mut self,
        reader: &mut Watched<R>,
        limit: usize,
    ) -> Result<Next, AheadFault>
        ensures keeps { Keeps (pending (R.remaining (watched_inner reader.old)) self.old)
            (pending (R.remaining (watched_inner reader.new)) self.new) }
        ensures begins { IfOk result (λ next. Begins limit (front_of self.new) next
            × EndsWith (R.remaining (watched_inner reader.new)) next) }
        ensures held { held_bytes self.new ≤ max (held_bytes self.old) (limit + block_bytes) }
        ensures counts { ReadAhead (watched_tally reader.old) (watched_tally reader.new) result }
    {
        loop {
            if let Some(next) = self.begins(limit) {
                return Ok(next);
            }
            if !self.read_block(reader)? {
                let left = self.front().len();
                return Ok(if left == 0 {
                    Next::End
                } else {
                    Next::Last(left)
                });
            }
        }
    }

    /// Uses up the next line with its end, however long it is, and keeps no more of it than one block. Whether
    /// it had an end; if not, the reader is at its end.
    ///
    /// # Errors
    ///
    /// `Device` where the reader has failed, and `Memory`. A part of the line is used up then.
    pub fn pass_line<R: Read>(&mut self, reader: &mut Watched<R>) -> Result<bool, AheadFault>
        ensures ok { IfOk result (PassedLine (front_of self.old)
            (pending (R.remaining (watched_inner reader.old)) self.old)
            (pending (R.remaining (watched_inner reader.new)) self.new)) }
        ensures err { OnErr result (PassedPart (pending (R.remaining (watched_inner reader.old)) self.old)
            (pending (R.remaining (watched_inner reader.new)) self.new)) }
        ensures held { held_bytes self.new ≤ max (held_bytes self.old) block_bytes }
        ensures counts { ReadAhead (watched_tally reader.old) (watched_tally reader.new) result }
    {
        loop {
            if self.use_line() {
                return Ok(true);
            }
            if !self.read_block(reader)? {
                return Ok(false);
            }
        }
    }

    /// Uses up the bytes up to the first line end and that, or all of them if there is none. Whether there is
    /// one.
    fn use_line(&mut self) -> bool
        ensures line { MatchBool result
            ((line : List ℕ) × NoLineEnd line × (front_of self.old ≡ ended line ++ front_of self.new))
            (NoLineEnd (front_of self.old) × (front_of self.new ≡ [])) }
        ensures held { held_bytes self.new ≡ held_bytes self.old }
    {
        match first_line_end(self.front()) {
            Some(end) => {
                self.take(end + 1);
                true
            }
            None => {
                self.used = self.bytes.len();
                false
            }
        }
    }

    /// Puts a block of the reader's bytes behind the others, and gives the room of the used ones back.
    /// Whether the reader had any.
    fn read_block<R: Read>(&mut self, reader: &mut Watched<R>) -> Result<bool, AheadFault>
        ensures keeps { Keeps (pending (R.remaining (watched_inner reader.old)) self.old)
            (pending (R.remaining (watched_inner reader.new)) self.new) }
        ensures more { IfOk result (λ some. MatchBool some (length (front_of self.old) < length (front_of self.new))
            ((front_of self.new ≡ front_of self.old) × IsAtEnd (R.remaining (watched_inner reader.new)))) }
        ensures held { held_bytes self.new ≤ length (front_of self.old) + block_bytes }
        ensures asked { OnOk result (WasAsked (watched_tally reader.old) (watched_tally reader.new)) }
        ensures counts { ReadAhead (watched_tally reader.old) (watched_tally reader.new) result }
    {
        self.drop_used();
        let count = read_onto(&mut self.bytes, &mut self.block, reader)?;
        Ok(count > 0)
    }

    fn drop_used(&mut self)
        ensures front { front_of self.new ≡ front_of self.old }
        ensures used { self.new.used ≡ 0 }
    {
        let used = self.used;
        self.used = 0;
        self.bytes.drain(..used);
    }
}
