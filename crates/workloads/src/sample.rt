//! What is drawn from a seed.

ghost use Rattle.std.specs.Prelude.{◌<◌, ◌≤◌};

use rand_core::{Rng, SeedableRng};
use rand_xoshiro::SplitMix64;
use role_commands::Command;

/// The sizes of an input, or less where only a part of it is asked for.
pub fn part(size: u32, share: u32) -> u32
    ensures some { 0 < result }
    ensures most { 0 < size → result ≤ size }
{
    if share == 0 {
        size.max(1)
    } else {
        (size / share).max(1)
    }
}

/// What is drawn from a seed, one number after another.
#[derive(Drop)]
pub struct Sample {
    source: SplitMix64,
}

impl Sample {
    /// What a job draws from a seed.
    pub fn new(seed: u32, job: u32) -> Sample {
        Sample {
            source: SplitMix64::seed_from_u64(u64::from(seed) << 8 | u64::from(job)),
        }
    }

    /// A number below this one, or 0 where there is none.
    pub fn below(&mut self, end: u32) -> u32
        ensures below { 0 < end → result < end }
        ensures most { result ≤ end }
    {
        let number = self.source.next_u32();
        if end == 0 { 0 } else { number % end }
    }

    /// One of so many roles, of at most 65,536.
    pub fn role(&mut self, roles: u16) -> u16 {
        self.below(u32::from(roles)) as u16
    }

    /// Puts items into no order.
    pub fn shuffle<T>(&mut self, items: &mut [T]) {
        let Ok(count) = u32::try_from(items.len()) else {
            return;
        };
        for index in 0..count {
            let other = self.below(count);
            items.swap(index as usize, other as usize);
        }
    }

    /// That one of these many users has one of the roles.
    pub fn assign(&mut self, users: u32, roles: u16) -> Command {
        Command::Assign {
            user: self.below(users),
            role: self.role(roles),
        }
    }
}
