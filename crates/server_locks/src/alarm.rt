//! When the thread of the ports wakes by itself.

ghost use Rattle.std.specs.Prelude.{◌≡◌, ◌-◌, min, nat_le, nat_lt, if◌then◌else◌};
ghost use Rattle.peer_windows.specs.Pauses.{never};

use peer_windows::NEVER;
use std::marker::Model;

/// When something is due for which nobody wakes a worker, and when the thread of the ports wakes by itself, in
/// milliseconds. It never sleeps past what is due, if it is woken where [`set`](Self::set) says so.
#[derive(Drop)]
pub struct Alarm {
    due: u64,
    wakes: u64,
}

impl Model for Alarm {
    ghost use Rattle.std.specs.Prelude.{◌≤◌};
    ghost use Rattle.server_locks.specs.Alarms.{AlarmValue};

    ghost Value = { AlarmValue };

    ghost view = { λ a. record { due = a.due; wakes = a.wakes } };

    ghost invariant = { λ a. a.wakes ≤ a.due };
}

impl Alarm {
    /// It is due at once.
    pub fn new() -> Alarm
        ensures { result ≡ record { due = 0; wakes = 0 } }
    {
        Alarm { due: 0, wakes: 0 }
    }

    /// Something is due at this time, and nothing before. Whether the thread has to be woken, as it wakes later.
    pub fn set(&mut self, due: u64) -> bool
        ensures due { self.new ≡ record { due = due; wakes = min self.old.wakes due } }
        ensures wake { result ≡ nat_lt due self.old.wakes }
    {
        let is_late = due < self.wakes;
        let wakes = self.wakes.min(due);
        *self = Alarm { due, wakes };
        is_late
    }

    /// For how many milliseconds the thread may wait now, until this time at most.
    pub fn wait(&mut self, now: u64, most: u64) -> u64
        ensures wait { result ≡ min most self.old.due - now }
        ensures wakes { self.new ≡ record self.old { wakes = min most self.old.due } }
    {
        self.wakes = most.min(self.due);
        self.wakes.saturating_sub(now)
    }

    /// The thread is awake. Whether something is due now; then nothing is until this is set again.
    pub fn is_due(&mut self, now: u64) -> bool
        ensures due { result ≡ nat_le self.old.due now }
        ensures awake { self.new
            ≡ record { due = if nat_le self.old.due now then never else self.old.due; wakes = now } }
    {
        let is_due = self.due <= now;
        let due = if is_due { NEVER } else { self.due };
        *self = Alarm { due, wakes: now };
        is_due
    }
}
