//! What a frame of the peer brings, and what is known of a window that was sent.

ghost use Rattle.std.specs.Prelude.{◌≡◌, ◌≤◌};
ghost use Rattle.peer_windows.specs.Pauses.{most_time};
ghost use Rattle.peer_windows.specs.Answers.{heard, heard_behind, is_lone, moved_on, passed, owing_tail, served};
ghost use Rattle.peer_windows.specs.Answers.{voted_on};

use crate::pair::{Pair, Served};
use crate::pause::FIRST_PAUSE;
use crate::seen::{Level, Step};
use link_frames::Place;

/// The longest pause between windows as answers, in milliseconds.
const LONGEST_ANSWER: u32 = 2_000;

/// The milliseconds within which a second probe is none.
const PROBE_SPAN: u64 = 50_000;

/// The longest pause between tails to a peer that is further, in milliseconds.
const LONGEST_BEYOND: u32 = 2_000;

/// A peer that catches up gets its next window when it has voted so much further.
const CATCH_UP: u32 = 32;

/// A packet of the peer that changed nothing.
#[derive(Clone, Copy, Debug, PartialEq, Eq)]
pub struct Repeat {
    pub place: Place,
    /// It is a READY.
    pub is_ready: bool,
}

impl Pair {
    /// The peer has sent again what changes nothing, so it is not settled. It is owed its window, once in a pause,
    /// which grows while it doesn't vote further; but nothing for a probe, and nothing while it gets on by itself.
    pub(crate) fn hear(&mut self, now: u64, level: Level, repeat: Repeat)
        requires { now ≤ most_time }
        ensures { self.new ≡ heard now level repeat self.old }
    {
        if self.is_lone(now, level, repeat) {
            self.probe_level = level;
            self.probe_until = now + PROBE_SPAN;
        } else if now >= self.moving_until {
            self.answer_behind(now, level.voted);
        }
    }

    /// Whether what was sent again is taken for a probe: the READY at the last place, and the first such for a while.
    fn is_lone(&self, now: u64, level: Level, repeat: Repeat) -> bool
        ensures { result ≡ is_lone now level repeat self.now }
    {
        let is_last = repeat.is_ready && repeat.place.checked_add(1) == Some(level.reach);
        is_last && !(self.probe_level == level && now < self.probe_until)
    }

    /// A vote of the peer has counted.
    pub(crate) fn move_on(&mut self, now: u64)
        requires { now ≤ most_time }
        ensures { self.new ≡ moved_on now self.old }
    {
        self.moving_until = now + u64::from(FIRST_PAUSE);
    }

    /// The peer is behind.
    fn answer_behind(&mut self, now: u64, voted: u32)
        requires { now ≤ most_time }
        ensures { self.new ≡ heard_behind now voted self.old }
    {
        if voted > self.answered {
            self.answered = voted;
            self.answer.renew();
            self.answer.end_by(self.served_until);
        }
        if self.answer.is_over(now) {
            self.answer.begin(now, LONGEST_ANSWER);
            self.owed = Step::Window;
        }
    }

    /// The peer has sent something beyond the window, so this node is behind: the peer is owed the tail, once in a
    /// pause that grows while nothing else does.
    pub(crate) fn pass(&mut self, now: u64, level: Level)
        requires { now ≤ most_time }
        ensures { self.new ≡ passed now level self.old }
    {
        if level != self.beyond_level {
            self.beyond_level = level;
            self.beyond.renew();
            self.beyond.end_by(now);
        }
        if self.beyond.is_over(now) {
            self.beyond.begin(now, LONGEST_BEYOND);
            self.owe_tail();
        }
    }

    /// The tail is owed, unless more is.
    fn owe_tail(&mut self)
        ensures { self.new ≡ owing_tail self.old }
    {
        if self.owed == Step::Nothing {
            self.owed = Step::Tail;
        }
    }

    /// A window was sent to the peer, which has voted so far.
    pub(crate) fn serve(&mut self, now: u64, voted: u32, end: Place)
        requires { now ≤ most_time }
        ensures { self.new ≡ served now voted end self.old }
    {
        self.served = Some(Served { voted, end });
        self.served_until = now + u64::from(FIRST_PAUSE);
    }

    /// The peer has voted. Where it catches up, and has come far enough since its last window, it is owed what is
    /// behind that one.
    pub(crate) fn vote(&mut self, now: u64, level: Level)
        requires { now ≤ most_time }
        ensures { self.new ≡ voted_on now level self.old }
    {
        let Some(last) = self.served else {
            return;
        };
        if level.voted >= level.reach {
            self.served = None;
        } else if level.voted >= last.voted.saturating_add(CATCH_UP) && self.owed == Step::Nothing {
            self.owed = Step::Rest(last.end);
            self.hold_answers(now);
        }
    }
}
