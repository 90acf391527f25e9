//! Pauses that double.

ghost use Rattle.std.specs.Prelude.{◌≡◌, ◌≤◌, ◌↔◌, IsTrue};
ghost use Rattle.peer_windows.specs.Pauses.{most_pause, most_time, new_pause, begun, renewed, eased};
ghost use Rattle.peer_windows.specs.Pauses.{ended_by, lasting_to, asleep};

use std::marker::Model;

/// The first pause, in milliseconds.
pub const FIRST_PAUSE: u32 = 50;

/// No time that is handed in is later, in milliseconds.
pub const MOST_TIME: u64 = 1 << 62;

/// A time that never comes.
pub const NEVER: u64 = u64::MAX;

/// A pause after each time that something was done, each twice as long as the one before. Contracts see how long the
/// next one is and when the last one is over, in milliseconds.
#[derive(Clone, Copy, Debug, PartialEq, Eq)]
pub(crate) struct Pause {
    length: u32,
    until: u64,
}

impl Model for Pause {
    ghost use Rattle.std.specs.Prelude.{◌≤◌};
    ghost use Rattle.peer_windows.specs.Pauses.{PauseValue, most_pause};

    ghost Value = { PauseValue };

    ghost view = { λ a. record { length = a.length; until = a.until } };

    ghost invariant = { λ a. a.length ≤ most_pause };

    ghost inverse = { λ p. record { length = p.length; until = p.until } };
}

impl Pause {
    /// There was none yet.
    pub(crate) fn new() -> Pause
        ensures { result ≡ new_pause }
    {
        Pause {
            length: FIRST_PAUSE,
            until: 0,
        }
    }

    /// How long the next one is.
    pub(crate) fn length(&self) -> u32
        ensures value { result ≡ self.now.length }
        ensures most { result ≤ most_pause }
    {
        self.length
    }

    /// When the last one is over.
    pub(crate) fn until(&self) -> u64
        ensures { result ≡ self.now.until }
    {
        self.until
    }

    /// Whether the last one is over.
    pub(crate) fn is_over(&self, now: u64) -> bool
        ensures { IsTrue result ↔ (self.now.until ≤ now) }
    {
        self.until <= now
    }

    /// The next pause begins. The one after it is twice as long, up to the longest.
    pub(crate) fn begin(&mut self, now: u64, longest: u32)
        requires time { now ≤ most_time }
        requires longest { longest ≤ most_pause }
        ensures { self.new ≡ begun now longest self.old }
    {
        self.until = now + u64::from(self.length);
        self.length = (2 * self.length).min(longest);
    }

    /// The next pause is the first again.
    pub(crate) fn renew(&mut self)
        ensures { self.new ≡ renewed self.old }
    {
        self.length = FIRST_PAUSE;
    }

    /// The next pause is the second again.
    pub(crate) fn ease(&mut self)
        ensures { self.new ≡ eased self.old }
    {
        self.length = 2 * FIRST_PAUSE;
    }

    /// The last one is over by this time at the latest.
    pub(crate) fn end_by(&mut self, time: u64)
        ensures { self.new ≡ ended_by time self.old }
    {
        self.until = self.until.min(time);
    }

    /// The last one is not over before this time.
    pub(crate) fn last_to(&mut self, time: u64)
        ensures { self.new ≡ lasting_to time self.old }
    {
        self.until = self.until.max(time);
    }

    /// It never ends, and the next one is the first.
    pub(crate) fn sleep(&mut self)
        ensures { self.new ≡ asleep }
    {
        self.length = FIRST_PAUSE;
        self.until = NEVER;
    }
}
