//! The pairs of all owners and peers: what changes them, and when something is due.

ghost use Rattle.std.specs.Prelude.{◌≡◌, ◌<◌, ◌≤◌, true, false, IfOk, length, map};
ghost use Rattle.std.specs.List.{range_with_len};
ghost use Rattle.quorum_sizes.specs.Sizes.{most_nodes};
ghost use Rattle.peer_windows.specs.Pauses.{most_time, most_pause, longest_look as longest_look_of};
ghost use Rattle.peer_windows.specs.Answers.{heard, moved_on, passed, served, voted_on};
ghost use Rattle.peer_windows.specs.Pairs.{attended, attended_step, owing};
ghost use Rattle.peer_windows.specs.Owners.{with_pair_at, pair_at, begun_at, joined_at, grown, due_by, owed_now};
ghost use Rattle.peer_windows.specs.Owners.{next_due, least as least_of, is_served, is_still, probed_soon, connected};
ghost use Rattle.peer_windows.specs.Owners.{first_probe, pairs_at_first, pairs_of};
ghost use Rattle.peer_windows.specs.Looks.{due_at};
ghost use Rattle.peer_windows.specs.inside.PairLooks.{turned, with_due};

use crate::answers::Repeat;
use crate::owner_pairs::OwnerPairs;
use crate::pause::{FIRST_PAUSE, NEVER};
use crate::seen::{Level, Seen, Step};
use link_frames::Place;
use quorum_sizes::{NodeName, Sizes};
use std::alloc::{AllocError, Global};
use std::marker::Model;

/// How often a peer is probed, in milliseconds.
pub(crate) const PROBE_INTERVAL: u64 = 60_000;

/// The milliseconds until the first probe over a new connection, and from the last probe to that at least.
const FIRST_PROBE: u64 = 500;

const PROBE_PAUSE: u64 = 10_000;

/// The pairs of all owners and peers of a node, and when something is due.
#[derive(Drop)]
pub struct Pairs {
    pub(crate) me: NodeName,
    /// The longest pause between looks, in milliseconds.
    pub(crate) longest: u32,
    pub(crate) pairs: Vec<OwnerPairs>,
    /// When the pairs of each owner are looked at next.
    pub(crate) dues: Vec<u64>,
    /// When something of each owner's stream last grew here.
    pub(crate) moved: Vec<u64>,
    /// When each peer is probed next.
    pub(crate) probes: Vec<u64>,
    /// The owner whose pairs are looked at first.
    pub(crate) turn: usize,
}

impl Model for Pairs {
    ghost use Rattle.std.specs.Prelude.{◌≡◌, ◌<◌, ◌≤◌, length};
    ghost use Rattle.peer_windows.specs.Pauses.{most_pause};
    ghost use Rattle.peer_windows.specs.Owners.{PairsValue};

    ghost Value = { PairsValue };

    ghost view = { λ a. record {
      me = a.me;
      longest = a.longest;
      pairs = a.pairs.items;
      dues = a.dues.items;
      moved = a.moved.items;
      probes = a.probes.items;
      turn = a.turn;
    } };

    ghost invariant = { λ a. (a.longest ≤ most_pause) × (length a.dues.items ≡ length a.pairs.items)
        × (a.turn < length a.dues.items) };
}

impl Pairs {
    /// All pairs of a node of these sizes, which begin when there is a connection to their peer. Those of the node with
    /// itself begin now.
    ///
    /// # Errors
    ///
    /// Only for want of memory.
    pub fn new(alloc: Global, sizes: Sizes, me: NodeName, now: u64) -> Result<Pairs, AllocError>
        requires { now ≤ most_time }
        ensures { IfOk result (λ pairs. pairs ≡ pairs_at_first now sizes.nodes me) }
    {
        let nodes = sizes.n();
        let mut pairs = Vec::with_capacity(alloc, usize::from(nodes))?;
        for _owner in 0..nodes {
            pairs.push(OwnerPairs::new(alloc, nodes)?)?;
        }
        let mut made = Pairs {
            me,
            longest: longest_look(nodes),
            pairs,
            dues: Vec::from_elem(alloc, NEVER, usize::from(nodes))?,
            moved: Vec::from_elem(alloc, 0, usize::from(nodes))?,
            probes: first_probes(alloc, nodes, me, now)?,
            turn: 0,
        };
        for owner in 0..made.pairs.len() {
            made.begin(owner, usize::from(me.index()), now);
        }
        Ok(made)
    }

    /// When something is due next, in milliseconds.
    #[tactic(auto, using(crate::proofs::Times::least_append))]
    pub fn next_due(&self) -> u64
        ensures { result ≡ next_due self.now }
    {
        least(&self.dues).min(least(&self.probes))
    }

    /// There is a new connection to the peer: all its pairs begin anew and are looked at now, and it is probed soon, so
    /// that it hears of this node though it may lack nothing.
    pub fn connected(&mut self, now: u64, peer: NodeName)
        requires { now ≤ most_time }
        ensures { self.new ≡ connected now peer self.old }
    {
        let peer = usize::from(peer.index());
        for owner in 0..self.pairs.len() {
            self.join(owner, peer, now);
        }
        self.probe_soon(peer, now);
    }

    /// The peer is probed once its settled pairs sleep, but not at once after the last probe.
    fn probe_soon(&mut self, peer: usize, now: u64)
        requires { now ≤ most_time }
        ensures { self.new ≡ probed_soon now peer self.old }
    {
        if peer < self.probes.len() {
            let due = self.probes[peer];
            let soonest = due.saturating_sub(PROBE_INTERVAL - PROBE_PAUSE);
            self.probes[peer] = due.min(soonest.max(now + FIRST_PROBE));
        }
    }

    /// The pair of an owner and a peer begins anew.
    fn begin(&mut self, owner: usize, peer: usize, now: u64)
        requires { now ≤ most_time }
        ensures { self.new ≡ begun_at now owner peer self.old }
    {
        if owner < self.pairs.len() {
            self.pairs[owner].begin_anew(peer, now, self.longest);
        }
        self.look_by(owner, now + u64::from(FIRST_PAUSE));
    }

    /// There is a new connection, so the pair of an owner and a peer begins anew, and is looked at now.
    fn join(&mut self, owner: usize, peer: usize, now: u64)
        requires { now ≤ most_time }
        ensures { self.new ≡ joined_at now owner peer self.old }
    {
        if owner < self.pairs.len() {
            self.pairs[owner].join(peer, now, self.longest);
        }
        self.look_by(owner, now);
    }

    /// Something of the owner's stream has grown: its reach, what this node has sent in it, or how far a peer has
    /// voted.
    pub fn grow(&mut self, now: u64, owner: NodeName)
        requires { now ≤ most_time }
        ensures { self.new ≡ grown self.old owner now }
    {
        let owner = usize::from(owner.index());
        if owner < self.moved.len() {
            self.moved[owner] = now;
        }
        self.look_by(owner, now + u64::from(FIRST_PAUSE));
    }

    /// The owner whose turn it is. Then it is the next one's.
    pub(crate) fn take_turn(&mut self) -> usize
        ensures owner { result ≡ self.old.turn }
        ensures within { self.old.turn < length self.old.dues }
        ensures next { self.new ≡ turned self.old }
    {
        let owner = self.turn;
        let behind = owner.saturating_add(1);
        self.turn = if behind < self.dues.len() { behind } else { 0 };
        owner
    }

    /// When the owner's pairs are looked at next.
    pub(crate) fn due(&self, owner: usize) -> u64
        ensures { result ≡ due_at self.now owner }
    {
        match self.dues.get(owner) {
            Some(due) => *due,
            None => NEVER,
        }
    }

    /// The owner's pairs are looked at next at this time.
    pub(crate) fn set_due(&mut self, owner: usize, time: u64)
        ensures { self.new ≡ with_due self.old owner time }
    {
        if owner < self.dues.len() {
            self.dues[owner] = time;
        }
    }

    /// The owner's pairs are looked at by this time at the latest.
    fn look_by(&mut self, owner: usize, time: u64)
        ensures { self.new ≡ due_by self.old owner time }
    {
        if owner < self.dues.len() && time < self.dues[owner] {
            self.dues[owner] = time;
        }
    }

    /// Whether the peer catches up in the owner's stream: a window went to it since it was last as far.
    pub fn is_served(&self, owner: NodeName, peer: NodeName) -> bool
        ensures { result ≡ is_served (pair_at self.now owner peer) }
    {
        let owner = usize::from(owner.index());
        owner < self.pairs.len() && self.pairs[owner].is_served(usize::from(peer.index()))
    }

    /// What is to be sent to the peer now that this is seen, as [`Pair::attend`] says.
    pub(crate) fn attend(&mut self, owner: NodeName, peer: NodeName, now: u64, seen: Seen) -> Step
        requires { now ≤ most_time }
        ensures step { peer < length (pairs_of self.old owner) →
            result ≡ attended_step now seen (pair_at self.old owner peer) }
        ensures pair { self.new ≡ with_pair_at self.old owner peer
            (attended now self.old.longest seen (pair_at self.old owner peer)) }
    {
        let owner = usize::from(owner.index());
        if owner < self.pairs.len() {
            self.pairs[owner].attend(usize::from(peer.index()), now, self.longest, seen)
        } else {
            Step::Nothing
        }
    }

    /// This is sent to the peer at the next look.
    pub(crate) fn owe(&mut self, owner: NodeName, peer: NodeName, step: Step)
        ensures { self.new ≡ with_pair_at self.old owner peer (owing step (pair_at self.old owner peer)) }
    {
        let owner = usize::from(owner.index());
        if owner < self.pairs.len() {
            self.pairs[owner].owe(usize::from(peer.index()), step);
        }
    }

    /// A window was sent to the peer, which had voted so far.
    pub(crate) fn serve(
        &mut self,
        owner: NodeName,
        peer: NodeName,
        now: u64,
        voted: u32,
        end: Place,
    )
        requires { now ≤ most_time }
        ensures { self.new ≡ with_pair_at self.old owner peer (served now voted end (pair_at self.old owner peer)) }
    {
        let owner = usize::from(owner.index());
        if owner < self.pairs.len() {
            self.pairs[owner].serve(usize::from(peer.index()), now, voted, end);
        }
    }

    /// When the pair of the peer is looked at next.
    pub(crate) fn until(&self, owner: NodeName, peer: NodeName) -> u64
        ensures { result ≡ (pair_at self.now owner peer).look.until }
    {
        match self.pairs.get(usize::from(owner.index())) {
            Some(pairs) => pairs.until(usize::from(peer.index())),
            None => NEVER,
        }
    }

    /// A vote of the peer has counted, after which the pair stands so.
    pub fn vote(&mut self, now: u64, owner: NodeName, peer: NodeName, level: Level)
        requires { now ≤ most_time }
        ensures { self.new ≡ owed_now now owner peer
            (with_pair_at self.old owner peer (voted_on now level (pair_at self.old owner peer))) }
    {
        let owner = usize::from(owner.index());
        let peer = usize::from(peer.index());
        if owner < self.pairs.len() {
            self.pairs[owner].vote(peer, now, level);
            self.look_if_owed(now, owner, peer);
        }
    }

    /// A vote of the peer has counted, which gets on by itself.
    pub fn move_on(&mut self, now: u64, owner: NodeName, peer: NodeName)
        requires { now ≤ most_time }
        ensures { self.new ≡ with_pair_at self.old owner peer (moved_on now (pair_at self.old owner peer)) }
    {
        let owner = usize::from(owner.index());
        if owner < self.pairs.len() {
            self.pairs[owner].move_on(usize::from(peer.index()), now);
        }
    }

    /// A packet of the peer has changed nothing.
    pub fn hear(&mut self, now: u64, owner: NodeName, peer: NodeName, level: Level, repeat: Repeat)
        requires { now ≤ most_time }
        ensures { self.new ≡ owed_now now owner peer
            (with_pair_at self.old owner peer (heard now level repeat (pair_at self.old owner peer))) }
    {
        let owner = usize::from(owner.index());
        let peer = usize::from(peer.index());
        if owner < self.pairs.len() {
            self.pairs[owner].hear(peer, now, level, repeat);
            self.look_if_owed(now, owner, peer);
        }
    }

    /// A packet of the peer was beyond the window. It says something where nothing of the owner's stream has grown here
    /// for a while.
    pub fn pass(&mut self, now: u64, owner: NodeName, peer: NodeName, level: Level)
        requires { now ≤ most_time }
        ensures moving { is_still now owner self.old ≡ false → self.new ≡ self.old }
        ensures still { is_still now owner self.old ≡ true → self.new ≡ owed_now now owner peer
            (with_pair_at self.old owner peer (passed now level (pair_at self.old owner peer))) }
    {
        let owner = usize::from(owner.index());
        let peer = usize::from(peer.index());
        if owner < self.pairs.len() && self.is_still(now, owner) {
            self.pairs[owner].pass(peer, now, level);
            self.look_if_owed(now, owner, peer);
        }
    }

    /// Whether nothing of the owner's stream has grown here for the first pause.
    fn is_still(&self, now: u64, owner: usize) -> bool
        requires { now ≤ most_time }
        ensures { result ≡ is_still now owner self.now }
    {
        owner < self.moved.len() && self.moved[owner].saturating_add(u64::from(FIRST_PAUSE)) <= now
    }

    /// Where something is owed to the peer, the owner's pairs are looked at now.
    fn look_if_owed(&mut self, now: u64, owner: usize, peer: usize)
        ensures { self.new ≡ owed_now now owner peer self.old }
    {
        if owner < self.pairs.len() && self.pairs[owner].owes(peer) {
            self.look_by(owner, now);
        }
    }
}

/// The longest pause between looks in a cluster of so many nodes, in milliseconds.
fn longest_look(nodes: u8) -> u32
    requires { nodes ≤ most_nodes }
    ensures value { result ≡ longest_look_of nodes }
    ensures most { result ≤ most_pause }
{
    if nodes <= 16 {
        5_000
    } else {
        u32::from(nodes) * 1_000 / 3
    }
}

/// When each peer is probed first: one after another, in turns that begin elsewhere at each node.
fn first_probes(alloc: Global, nodes: u8, me: NodeName, now: u64) -> Result<Vec<u64>, AllocError>
    requires now { now ≤ most_time }
    requires nodes { 0 < nodes }
    ensures { IfOk result (λ probes. probes.items ≡ map (first_probe now nodes me) (range_with_len 0 nodes)) }
{
    let mut probes = Vec::with_capacity(alloc, usize::from(nodes))?;
    for peer in 0..nodes {
        let turn = (256 + u64::from(peer) - u64::from(me.index())) % u64::from(nodes);
        probes.push(now + (turn + 1) * PROBE_INTERVAL / (u64::from(nodes) + 1))?;
    }
    Ok(probes)
}

/// The least of times.
fn least(times: &[u64]) -> u64
    ensures { result ≡ least_of times.now }
{
    let mut least = NEVER;
    for time in times {
        least = least.min(*time);
    }
    least
}
