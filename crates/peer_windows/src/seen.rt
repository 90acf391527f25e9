//! What is seen of an owner's stream and of a peer in it, and what is sent to the peer then.

ghost use Rattle.std.specs.Prelude.{◌≡◌};
ghost use Rattle.peer_windows.specs.Pairs.{seems_settled};

use link_frames::Place;

/// How far an owner's stream reaches here, and how far a peer has voted in it.
#[derive(Clone, Copy, Debug, PartialEq, Eq)]
pub struct Level {
    pub reach: u32,
    /// The place of the peer's last vote, and one.
    pub voted: u32,
}

/// What is seen of an owner's stream and of a peer in it.
#[derive(Clone, Copy, Debug, PartialEq, Eq)]
pub struct Seen {
    pub reach: u32,
    /// The place of the peer's last vote, and one.
    pub voted: u32,
    /// How many messages this node has sent at the places that are open.
    pub outstanding: u32,
}

impl Seen {
    /// Whether the pair is settled: the peer has voted as far as the stream reaches, and nothing was sent from there
    /// on.
    pub fn is_settled(&self) -> bool
        ensures { result ≡ seems_settled self.now }
    {
        self.reach <= self.voted && self.outstanding == 0
    }
}

/// What is to be sent to a peer about an owner's stream.
#[derive(Clone, Copy, Debug, PartialEq, Eq)]
pub enum Step {
    Nothing,
    /// The READY at the last place that the stream reaches beyond.
    Probe,
    /// That, and what was sent at the end of the stream.
    Tail,
    /// What was sent in the peer's window.
    Window,
    /// What was sent there from this place on.
    Rest(Place),
}
