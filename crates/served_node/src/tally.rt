//! The time, and how long it took to keep what was recorded.

ghost use Rattle.std.specs.Prelude.{◌≡◌, ◌≤◌};
ghost use Rattle.peer_windows.specs.Pauses.{most_time};
ghost use Rattle.served_node.specs.Counts.{tallied, times_of, new_tally, are_long};

use operator_lines::SyncTimes;
use peer_windows::MOST_TIME;
use std::time::Clock;

/// From so many microseconds on a sync takes long.
const LONG_SYNC: u64 = 1_000;

/// How many syncs there were, and how long they took, in microseconds.
#[derive(Clone, Copy, Debug, PartialEq, Eq)]
pub struct SyncTally {
    pub syncs: u64,
    pub total: u64,
    pub last: u64,
    pub worst: u64,
}

impl SyncTally {
    /// No sync yet.
    pub fn new() -> SyncTally
        ensures { result ≡ new_tally }
    {
        SyncTally {
            syncs: 0,
            total: 0,
            last: 0,
            worst: 0,
        }
    }

    /// A sync took so long.
    pub fn note(&mut self, micros: u64)
        ensures { self.new ≡ tallied self.old micros }
    {
        self.syncs = self.syncs.saturating_add(1);
        self.total = self.total.saturating_add(micros);
        self.last = micros;
        self.worst = self.worst.max(micros);
    }

    /// Whether syncs take long, as far as the last one tells.
    pub fn are_long(&self) -> bool
        ensures { result ≡ are_long self.now }
    {
        self.last >= LONG_SYNC
    }

    /// What an operator hears of it.
    pub fn times(&self) -> SyncTimes
        ensures { result ≡ times_of self.now }
    {
        SyncTimes {
            syncs: self.syncs,
            last: self.last,
            mean: self.total.checked_div(self.syncs).unwrap_or(0),
            worst: self.worst,
        }
    }
}

/// The time in microseconds, from some start on, unless the clock fails.
pub fn micros<R: Clock>(rt: &R) -> Option<u64> {
    let time = rt.monotonic().ok()?;
    u64::try_from(time.as_micros()).ok()
}

/// The time, in milliseconds from some start on, and one, so that it is past. It stands still while the clock fails.
pub fn millis<R: Clock>(rt: &R) -> u64
    ensures { result ≤ most_time }
{
    match rt.monotonic() {
        Ok(time) => {
            let millis = time.as_secs().saturating_mul(1_000);
            millis
                .saturating_add(u64::from(time.subsec_millis()) + 1)
                .min(MOST_TIME)
        }
        Err(_) => 0,
    }
}
