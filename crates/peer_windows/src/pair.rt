//! A pair of an owner and a peer: what was seen of it, and when it is looked at next.

ghost use Rattle.std.specs.Prelude.{◌≡◌, ◌≤◌};
ghost use Rattle.peer_windows.specs.Pauses.{most_pause, most_time};
ghost use Rattle.peer_windows.specs.Pairs.{new_pair, anew, joined, is_due, attended, attended_step, looked};
ghost use Rattle.peer_windows.specs.Pairs.{step_due, insisted, insisting, owing, holding_answers};

use crate::pause::{FIRST_PAUSE, NEVER, Pause};
use crate::seen::{Level, Seen, Step};
use link_frames::Place;

/// The last window that went to a peer which was behind then.
#[derive(Clone, Copy, Debug, PartialEq, Eq)]
pub(crate) struct Served {
    /// How far the peer had voted.
    pub voted: u32,
    /// The end of that window.
    pub end: Place,
}

/// What a node keeps of a pair of an owner and a peer.
#[derive(Clone, Copy, Debug, PartialEq, Eq)]
pub(crate) struct Pair {
    /// What was seen at the last look.
    pub seen: Seen,
    /// The pause before the next look.
    pub look: Pause,
    /// The tail was sent at a look, so the window is next.
    pub tailed: bool,
    /// The connection is new: the pair hasn't been looked at over it.
    pub over_new: bool,
    /// The peer was behind at the last look, and had not voted since the one before.
    pub silent: bool,
    /// The last window that was sent, while the peer was behind.
    pub served: Option<Served>,
    /// When the first pause after the last window is over.
    pub served_until: u64,
    /// The pause between windows as answers, and how far the peer had voted at the first of these.
    pub answer: Pause,
    pub answered: u32,
    /// When the first pause after the last vote of the peer that counted is over.
    pub moving_until: u64,
    /// What was seen at the last probe, and until when another one at the same is none.
    pub probe_level: Level,
    pub probe_until: u64,
    /// The pause between tails to a peer that is further, and what was seen at the first of these.
    pub beyond: Pause,
    pub beyond_level: Level,
    /// What is sent at the next look, whatever is seen then.
    pub owed: Step,
}

impl Pair {
    /// Nothing was seen yet, and nothing is looked at.
    pub(crate) fn new() -> Pair
        ensures { result ≡ new_pair }
    {
        let level = Level { reach: 0, voted: 0 };
        let mut look = Pause::new();
        look.sleep();
        Pair {
            seen: Seen {
                reach: 0,
                voted: 0,
                outstanding: 0,
            },
            look,
            tailed: false,
            over_new: false,
            silent: false,
            served: None,
            served_until: 0,
            answer: Pause::new(),
            answered: 0,
            moving_until: 0,
            probe_level: level,
            probe_until: 0,
            beyond: Pause::new(),
            beyond_level: level,
            owed: Step::Nothing,
        }
    }

    /// It begins anew: it is looked at after the first pause, and the tail is sent first.
    pub(crate) fn begin_anew(&mut self, now: u64, longest: u32)
        requires time { now ≤ most_time }
        requires longest { longest ≤ most_pause }
        ensures { self.new ≡ anew now longest self.old }
    {
        self.look.renew();
        self.look.begin(now, longest);
        self.tailed = false;
    }

    /// There is a new connection to the peer: it begins anew, and is looked at now. Where it is not settled the tail is
    /// sent then, though something has grown: what went over the last connection may be lost.
    pub(crate) fn join(&mut self, now: u64, longest: u32)
        requires time { now ≤ most_time }
        requires longest { longest ≤ most_pause }
        ensures { self.new ≡ joined now longest self.old }
    {
        self.begin_anew(now, longest);
        self.look.end_by(now);
        self.over_new = true;
    }

    /// Whether something is owed, or it is time for a look.
    pub(crate) fn is_due(&self, now: u64) -> bool
        ensures { result ≡ is_due now self.now }
    {
        self.owed != Step::Nothing || self.look.is_over(now)
    }

    /// What is to be sent now that this is seen. What is owed comes first. Else there is a look where it is time for
    /// one, and at once where there was none to come; what has changed brings the next one forward, unless the peer is
    /// silent.
    pub(crate) fn attend(&mut self, now: u64, longest: u32, seen: Seen) -> Step
        requires time { now ≤ most_time }
        requires longest { longest ≤ most_pause }
        ensures step { result ≡ attended_step now seen self.old }
        ensures pair { self.new ≡ attended now longest seen self.old }
    {
        if self.owed != Step::Nothing {
            let owed = self.owed;
            self.owed = Step::Nothing;
            return owed;
        }
        if self.look.is_over(now) || (self.look.until() == NEVER && seen != self.seen) {
            return self.look(now, longest, seen);
        }
        if seen.voted > self.seen.voted || (seen != self.seen && !self.silent) {
            self.look.end_by(now + u64::from(FIRST_PAUSE));
        }
        Step::Nothing
    }

    /// What a look brings: nothing while the pair goes on by itself, and where it is settled; else first the tail and
    /// then the window, at pauses that grow.
    fn look(&mut self, now: u64, longest: u32, seen: Seen) -> Step
        requires time { now ≤ most_time }
        requires longest { longest ≤ most_pause }
        ensures step { result ≡ step_due seen self.old }
        ensures pair { self.new ≡ looked now longest seen self.old }
    {
        let old = self.seen;
        let silent = old.voted == seen.voted && seen.voted < old.reach;
        let held_up = old.outstanding > 0 && seen.outstanding > 0 && old.reach == seen.reach;
        self.seen = seen;
        if !silent && !held_up && old != seen && !self.over_new {
            self.silent = false;
            self.begin_anew(now, longest);
            return Step::Nothing;
        }
        self.over_new = false;
        if seen.is_settled() {
            self.silent = false;
            self.tailed = false;
            self.look.sleep();
            return Step::Nothing;
        }
        self.silent = silent;
        self.insist(now, longest, seen.voted > old.voted)
    }

    /// The tail is sent, or the window where it was sent before, and the next pause begins: the second one again
    /// where the peer has voted.
    fn insist(&mut self, now: u64, longest: u32, has_voted: bool) -> Step
        requires time { now ≤ most_time }
        requires longest { longest ≤ most_pause }
        ensures step { result ≡ insisting self.old }
        ensures pair { self.new ≡ insisted now longest has_voted self.old }
    {
        if has_voted {
            self.look.ease();
        }
        self.look.begin(now, longest);
        if self.tailed {
            self.hold_answers(now);
            Step::Window
        } else {
            self.tailed = true;
            Step::Tail
        }
    }

    /// This is sent at the next look, whatever is seen then.
    pub(crate) fn owe(&mut self, step: Step)
        ensures { self.new ≡ owing step self.old }
    {
        self.owed = step;
    }

    /// No window goes as an answer for a pause from now on.
    pub(crate) fn hold_answers(&mut self, now: u64)
        requires { now ≤ most_time }
        ensures { self.new ≡ holding_answers now self.old }
    {
        self.answer.last_to(now + u64::from(self.answer.length()));
    }
}
