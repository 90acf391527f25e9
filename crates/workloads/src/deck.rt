//! Numbers that are drawn without drawing one twice.

ghost use Rattle.std.specs.Prelude.{◌<◌};

use crate::sample::Sample;
use std::alloc::{AllocError, Global};

/// Numbers that are dealt in no order. A number comes again only after all have come, or the deck was begun anew.
#[derive(Drop)]
pub struct Deck {
    numbers: Vec<u32>,
    /// So many of them were dealt, and stand first.
    dealt: u32,
}

impl Deck {
    /// The numbers below this one.
    ///
    /// # Errors
    ///
    /// Only for want of memory.
    pub fn new(alloc: Global, end: u32) -> Result<Deck, AllocError> {
        let mut numbers = Vec::with_capacity(alloc, end as usize)?;
        for number in 0..end {
            numbers.push(number)?;
        }
        Ok(Deck { numbers, dealt: 0 })
    }

    /// Begins anew: all numbers may come next.
    pub fn begin(&mut self) {
        self.dealt = 0;
    }

    /// Begins anew where fewer than these many are left, so that these many that come next differ.
    pub fn ready(&mut self, count: u32) {
        if self.left() < count {
            self.begin();
        }
    }

    /// The next number, or 0 where there is none at all.
    pub fn deal(&mut self, sample: &mut Sample) -> u32 {
        self.ready(1);
        let drawn = sample.below(self.left()) as usize;
        let at = self.dealt as usize;
        let count = self.numbers.len();
        if at >= count || drawn >= count - at {
            return 0;
        }
        self.numbers.swap(at, at + drawn);
        self.dealt = self.dealt.saturating_add(1);
        self.numbers[at]
    }

    /// The next number as a role, of at most 65,536.
    pub fn role(&mut self, sample: &mut Sample) -> u16 {
        (self.deal(sample) % 65_536) as u16
    }

    /// How many numbers are left.
    fn left(&self) -> u32 {
        let count = u32::try_from(self.numbers.len()).unwrap_or(u32::MAX);
        count.saturating_sub(self.dealt)
    }
}
