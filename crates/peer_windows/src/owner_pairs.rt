//! The pairs of one owner.

ghost use Rattle.std.specs.Prelude.{◌≡◌, ◌≤◌, replicate, IfOk, IsSome, slice_get};
ghost use Rattle.peer_windows.specs.Pauses.{most_pause, most_time};
ghost use Rattle.peer_windows.specs.Pairs.{new_pair, anew, joined, attended, attended_step, owing};
ghost use Rattle.peer_windows.specs.Answers.{heard, moved_on, passed, voted_on, served};
ghost use Rattle.peer_windows.specs.Owners.{pair_in, with_pair, is_served, owes};

use crate::answers::Repeat;
use crate::pair::Pair;
use crate::pause::NEVER;
use crate::seen::{Level, Seen, Step};
use link_frames::Place;
use std::alloc::{AllocError, Global};
use std::marker::Model;

/// The pairs of one owner, one for each peer. Contracts see them as a list.
#[derive(Drop)]
pub(crate) struct OwnerPairs {
    pairs: Vec<Pair>,
}

impl Model for OwnerPairs {
    ghost use Rattle.std.specs.Prelude.{List};
    ghost use Rattle.peer_windows.specs.declared.pair.Pair.{Pair};

    ghost Value = { List Pair };

    ghost view = { λ a. a.pairs.items };
}

impl OwnerPairs {
    /// A new pair for each of so many peers.
    ///
    /// # Errors
    ///
    /// Only for want of memory.
    pub(crate) fn new(alloc: Global, peers: u8) -> Result<OwnerPairs, AllocError>
        ensures { IfOk result (λ made. made ≡ replicate peers new_pair) }
    {
        let mut pairs = Vec::with_capacity(alloc, usize::from(peers))?;
        for _peer in 0..peers {
            pairs.push(Pair::new())?;
        }
        Ok(OwnerPairs { pairs })
    }

    /// The pair of the peer begins anew.
    pub(crate) fn begin_anew(&mut self, peer: usize, now: u64, longest: u32)
        requires time { now ≤ most_time }
        requires longest { longest ≤ most_pause }
        ensures { self.new ≡ with_pair self.old peer (anew now longest (pair_in self.old peer)) }
    {
        if peer < self.pairs.len() {
            self.pairs[peer].begin_anew(now, longest);
        }
    }

    /// There is a new connection to the peer.
    pub(crate) fn join(&mut self, peer: usize, now: u64, longest: u32)
        requires time { now ≤ most_time }
        requires longest { longest ≤ most_pause }
        ensures { self.new ≡ with_pair self.old peer (joined now longest (pair_in self.old peer)) }
    {
        if peer < self.pairs.len() {
            self.pairs[peer].join(now, longest);
        }
    }

    /// What is to be sent to the peer now that this is seen.
    pub(crate) fn attend(&mut self, peer: usize, now: u64, longest: u32, seen: Seen) -> Step
        requires time { now ≤ most_time }
        requires longest { longest ≤ most_pause }
        ensures step { IsSome (slice_get self.old peer) → result ≡ attended_step now seen (pair_in self.old peer) }
        ensures pair { self.new ≡ with_pair self.old peer (attended now longest seen (pair_in self.old peer)) }
    {
        if peer < self.pairs.len() {
            self.pairs[peer].attend(now, longest, seen)
        } else {
            Step::Nothing
        }
    }

    /// This is sent to the peer at the next look.
    pub(crate) fn owe(&mut self, peer: usize, step: Step)
        ensures { self.new ≡ with_pair self.old peer (owing step (pair_in self.old peer)) }
    {
        if peer < self.pairs.len() {
            self.pairs[peer].owe(step);
        }
    }

    /// A window was sent to the peer.
    pub(crate) fn serve(&mut self, peer: usize, now: u64, voted: u32, end: Place)
        requires { now ≤ most_time }
        ensures { self.new ≡ with_pair self.old peer (served now voted end (pair_in self.old peer)) }
    {
        if peer < self.pairs.len() {
            self.pairs[peer].serve(now, voted, end);
        }
    }

    /// The peer has sent again what changes nothing.
    pub(crate) fn hear(&mut self, peer: usize, now: u64, level: Level, repeat: Repeat)
        requires { now ≤ most_time }
        ensures { self.new ≡ with_pair self.old peer (heard now level repeat (pair_in self.old peer)) }
    {
        if peer < self.pairs.len() {
            self.pairs[peer].hear(now, level, repeat);
        }
    }

    /// A vote of the peer has counted.
    pub(crate) fn move_on(&mut self, peer: usize, now: u64)
        requires { now ≤ most_time }
        ensures { self.new ≡ with_pair self.old peer (moved_on now (pair_in self.old peer)) }
    {
        if peer < self.pairs.len() {
            self.pairs[peer].move_on(now);
        }
    }

    /// The peer has sent something beyond the window.
    pub(crate) fn pass(&mut self, peer: usize, now: u64, level: Level)
        requires { now ≤ most_time }
        ensures { self.new ≡ with_pair self.old peer (passed now level (pair_in self.old peer)) }
    {
        if peer < self.pairs.len() {
            self.pairs[peer].pass(now, level);
        }
    }

    /// The peer has voted.
    pub(crate) fn vote(&mut self, peer: usize, now: u64, level: Level)
        requires { now ≤ most_time }
        ensures { self.new ≡ with_pair self.old peer (voted_on now level (pair_in self.old peer)) }
    {
        if peer < self.pairs.len() {
            self.pairs[peer].vote(now, level);
        }
    }

    /// Whether a window went to the peer since it was last as far.
    pub(crate) fn is_served(&self, peer: usize) -> bool
        ensures { result ≡ is_served (pair_in self.now peer) }
    {
        peer < self.pairs.len() && self.pairs[peer].served.is_some()
    }

    /// Whether something is owed to the peer.
    pub(crate) fn owes(&self, peer: usize) -> bool
        ensures { result ≡ owes (pair_in self.now peer) }
    {
        peer < self.pairs.len() && self.pairs[peer].owed != Step::Nothing
    }

    /// When the pair of the peer is looked at next.
    pub(crate) fn until(&self, peer: usize) -> u64
        ensures { result ≡ (pair_in self.now peer).look.until }
    {
        if peer < self.pairs.len() {
            self.pairs[peer].look.until()
        } else {
            NEVER
        }
    }
}
