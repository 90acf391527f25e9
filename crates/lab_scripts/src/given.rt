//! Which packets of the pool were given.

ghost use Rattle.std.specs.Prelude.{◌≡◌, ℕ, ◌<◌, ◌≤◌, ◌^◌, true, false, not, find, length, OnOk, OnErr, IfSome};
ghost use Rattle.std.specs.Prelude.{IsTrue, ◌+◌};
ghost use Rattle.std.specs.List.{range_with_len};
ghost use Rattle.lab_scripts.specs.inside.Flags.{flagged, AreSet, NoneFrom, with_many};
ghost use Rattle.lab_scripts.specs.Labs.{with_number, with_all_below};

use std::alloc::{AllocError, Global};

/// Flags are added so many at a time.
const PADDED: usize = 4096;

/// The numbers that were given: all below `least`, and a flag for each that was given out of turn; and one behind all
/// of these.
#[derive(Drop)]
pub struct Given {
    flags: Vec<bool>,
    least: usize,
    end: usize,
    ghost behind: { NoneFrom (flagged flags.items) end },
}

impl Given {
    ghost use Rattle.lab_scripts.specs.inside.Kept.{given_in};

    /// No number.
    pub fn new(alloc: Global) -> Self
        ensures { given_in result ≡ (λ k. false) }
    {
        Given {
            flags: Vec::new(alloc),
            least: 0,
            end: 0,
        }
    }

    /// Adds a number.
    ///
    /// # Errors
    ///
    /// Only for want of memory.
    pub fn mark(&mut self, number: u32) -> Result<(), AllocError>
        ensures { OnOk result (given_in self.new ≡ with_number (given_in self.old) number) }
    {
        self.mark_at(number as usize)
    }

    fn mark_at(&mut self, number: usize) -> Result<(), AllocError>
        requires { number < 2 ^ 33 }
        ensures { OnOk result (given_in self.new ≡ with_number (given_in self.old) number) }
    {
        if number == self.least {
            self.least += 1;
            return Ok(());
        }
        self.flag(number)
    }

    /// Sets the flag of a number.
    fn flag(&mut self, number: usize) -> Result<(), AllocError>
        requires { number < 2 ^ 33 }
        ensures { OnOk result (given_in self.new ≡ with_number (given_in self.old) number) }
    {
        set_flag(&mut self.flags, number)?;
        self.end = self.end.max(number + 1);
        Ok(())
    }

    /// Adds so many numbers from `first` on.
    ///
    /// # Errors
    ///
    /// Only for want of memory.
    pub fn mark_many(&mut self, first: u32, count: u32) -> Result<(), AllocError>
        ensures { OnOk result (given_in self.new ≡ with_many (given_in self.old) first count) }
    {
        if self.least == first as usize {
            self.least += count as usize;
            return Ok(());
        }
        for number in 0..count {
            self.mark_at(first as usize + number as usize)?;
        }
        Ok(())
    }

    /// Whether it is known that no number from this one on was given.
    pub fn is_none_from(&self, number: u32) -> bool
        ensures { IsTrue result → NoneFrom (given_in self.now) number }
    {
        self.end <= number as usize && self.least <= number as usize
    }

    /// Adds all numbers below `end`. It takes no memory.
    pub fn mark_below(&mut self, end: u32)
        ensures { given_in self.new ≡ with_all_below (given_in self.old) end }
    {
        self.least = self.least.max(end as usize);
    }

    /// The least number below `end` that was not given.
    pub fn next(&mut self, end: u32) -> Option<u32>
        ensures value { result ≡ find (λ k. not (given_in self.old k)) (range_with_len 0 end) }
        ensures below { IfSome result (λ number. number < end) }
        ensures same { given_in self.new ≡ given_in self.old }
    {
        let least = first_unset(&self.flags, self.least, end as usize);
        self.least = least;
        if least < end as usize {
            Some(least as u32)
        } else {
            None
        }
    }
}

/// Sets a flag, behind unset ones where there are too few.
fn set_flag(flags: &mut Vec<bool>, number: usize) -> Result<(), AllocError>
    requires { number < 2 ^ 33 }
    ensures set { OnOk result (flagged flags.new.items ≡ with_number (flagged flags.old.items) number) }
    ensures err { OnErr result (flagged flags.new.items ≡ flagged flags.old.items) }
{
    pad(flags, number + 1)?;
    flags[number] = true;
    Ok(())
}

/// Adds unset flags until there are so many, some thousands at a time.
fn pad(flags: &mut Vec<bool>, count: usize) -> Result<(), AllocError>
    requires { count ≤ 2 ^ 33 }
    ensures same { flagged flags.new.items ≡ flagged flags.old.items }
    ensures many { OnOk result (count ≤ length flags.new.items) }
{
    if count > flags.len() {
        flags.resize((count / PADDED + 1) * PADDED, false)?;
    }
    Ok(())
}

/// The least number from `from` to `end` whose flag is not set; `end` at the earliest if there is none.
fn first_unset(flags: &[bool], from: usize, end: usize) -> usize
    ensures from { from ≤ result }
    ensures set { AreSet (flagged flags.now) from result }
    ensures unset { result < end → flagged flags.now result ≡ false }
{
    for number in from..end {
        if number >= flags.len() || !flags[number] {
            return number;
        }
    }
    end.max(from)
}
