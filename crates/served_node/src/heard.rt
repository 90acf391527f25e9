//! What is heard of each peer.

ghost use Rattle.std.specs.Prelude.{◌≡◌, ◌≤◌, ◌==◌, if◌then◌else◌, length, replicate, position, IfOk};
ghost use Rattle.served_node.specs.Heard as heard;
ghost use Rattle.served_node.specs.Heard.{is_heard, with_heard, is_news, nothing, opened_now, one_unopened};
ghost use Rattle.served_node.specs.Heard.{StandsAt, IsAdded};

use frame_queues::{PeerName, Place, Standing};
use operator_lines::PeerStanding;
use std::alloc::{AllocError, Global};
use std::marker::Model;

/// After so many milliseconds it is told anew when a frame of a peer has opened.
const NEWS: u64 = 10_000;

/// In so many milliseconds a peer that is connected sends a frame, if anything is published: a probe a minute at least.
const LONGEST_SILENCE: u64 = 150_000;

/// What is heard of a peer.
#[derive(Clone, Copy, Debug, PartialEq, Eq)]
pub struct PeerHeard {
    /// A connection stands on which a frame of it has opened.
    pub stands: bool,
    /// When one opened last, in milliseconds, to ten seconds.
    pub opened: u64,
    /// How many frames did not open on such connections.
    pub unopened: u64,
}

impl PeerHeard {
    /// Whether the peer is heard.
    fn is_heard(&self, now: u64) -> bool
        ensures { result ≡ is_heard self.now now }
    {
        self.stands && now.saturating_sub(self.opened) < LONGEST_SILENCE
    }

    /// A peer's standing, with what is heard of it.
    fn added_to(&self, peer: Option<PeerStanding>, now: u64) -> Option<PeerStanding>
        ensures { result ≡ with_heard self.now now peer }
    {
        let peer = peer?;
        Some(PeerStanding {
            heard: self.is_heard(now),
            unopened: self.unopened,
            ..peer
        })
    }
}

/// What is heard of each peer, by its index.
#[derive(Drop)]
pub struct Heard {
    peers: Vec<PeerHeard>,
    /// How many frames did not open on connections on which none has.
    pub unopened: u64,
}

impl Model for Heard {
    ghost use Rattle.served_node.specs.Heard.{HeardValue};

    ghost Value = { HeardValue };

    ghost view = { λ a. record { peers = a.peers.items; unopened = a.unopened } };
}

impl Heard {
    /// Nothing, of so many nodes.
    ///
    /// # Errors
    ///
    /// Only for want of memory.
    pub fn new(alloc: Global, nodes: u8) -> Result<Heard, AllocError>
        ensures { IfOk result (λ made. made ≡ record { peers = replicate nodes nothing; unopened = 0 }) }
    {
        let nothing = PeerHeard {
            stands: false,
            opened: 0,
            unopened: 0,
        };
        Ok(Heard {
            peers: Vec::from_elem(alloc, nothing, usize::from(nodes))?,
            unopened: 0,
        })
    }

    /// A frame did not open on a connection of this peer, or on one on which none has.
    pub fn note_unopened(&mut self, name: Option<PeerName>)
        ensures { self.new ≡ one_unopened self.old name }
    {
        let Some(name) = name else {
            self.unopened = self.unopened.saturating_add(1);
            return;
        };
        let index = usize::from(name.index);
        if index < self.peers.len() {
            let mut peer = self.peers[index];
            peer.unopened = peer.unopened.saturating_add(1);
            self.peers[index] = peer;
        }
    }

    /// A frame of the peer of this index has opened. Whether that is news.
    pub fn note_opened(&mut self, index: u8, now: u64) -> bool
        ensures news { result ≡ is_news self.old index now }
        ensures opened { self.new ≡ (if is_news self.old index now then opened_now self.old index now else self.old) }
    {
        let index = usize::from(index);
        if index >= self.peers.len() {
            return false;
        }
        let mut peer = self.peers[index];
        if now.saturating_sub(peer.opened) < NEWS {
            return false;
        }
        peer.opened = now;
        self.peers[index] = peer;
        true
    }

    /// The connections at these places stand now.
    pub fn note_places(&mut self, places: &[Place])
        ensures peers { StandsAt places.now self.old.peers self.new.peers }
        ensures unopened { self.new.unopened ≡ self.old.unopened }
    {
        for index in 0..self.peers.len() {
            let mut peer = self.peers[index];
            peer.stands = first_of(places, index).is_some();
            self.peers[index] = peer;
        }
    }

    /// Takes over what another has, of as many nodes.
    pub fn take_over(&mut self, other: &Heard)
        ensures { self.new ≡ (if length self.old.peers == length other.now.peers then other.now else self.old) }
    {
        if self.peers.len() == other.peers.len() {
            self.peers.copy_from_slice(&other.peers);
            self.unopened = other.unopened;
        }
    }

    /// Adds what is heard of the peers to what else is known of them, by their indices.
    pub fn add_to(&self, peers: &mut [Option<PeerStanding>], now: u64)
        ensures { IsAdded self.now.peers now peers.old peers.new }
    {
        for index in 0..self.peers.len().min(peers.len()) {
            peers[index] = self.peers[index].added_to(peers[index], now);
        }
    }
}

/// The first place of a connection on which a frame of the peer of this index has opened.
fn first_of(places: &[Place], index: usize) -> Option<usize>
    ensures { result ≡ position (heard.is_of_index index) places.now }
{
    places.iter().position(|place| is_of_index(place, index))
}

fn is_of_index(place: &Place, index: usize) -> bool
    ensures { result ≡ heard.is_of_index index place.now }
{
    match place.held {
        Some(connected) => has_index(connected.standing, index),
        None => false,
    }
}

/// Whether who speaks there is the peer of this index.
fn has_index(standing: Standing, index: usize) -> bool
    ensures { result ≡ heard.has_index index standing }
{
    match standing {
        Standing::Unnamed => false,
        Standing::Named(peer) | Standing::Slot(peer) => usize::from(peer) == index,
    }
}
