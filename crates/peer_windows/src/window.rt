//! The window of a peer: the places of an owner's stream at which it may lack something.

ghost use Rattle.std.specs.Prelude.{◌≡◌, ◌+◌, ◌^◌, ◌<◌};
ghost use Rattle.owner_streams.specs.Places.{window};
ghost use Rattle.role_node.specs.Windows.{voted_to, window_from, window_to};

use link_frames::Place;
use owner_streams::WINDOW;

/// Places of an owner's stream, from one on and before another: those around a peer's last vote there.
#[derive(Clone, Copy, Debug, PartialEq, Eq)]
pub struct PeerWindow {
    pub from: Place,
    pub to: Place,
}

impl PeerWindow {
    /// The window around a last vote: as many places on each side of it as a stream has open.
    pub fn around(last: Option<Place>) -> PeerWindow
        requires { window_to last < 2 ^ 32 }
        ensures from { result.from ≡ window_from last }
        ensures to { result.to ≡ window_to last }
    {
        let voted = vote_end(last);
        PeerWindow {
            from: voted.saturating_sub(WINDOW + 1),
            to: voted + WINDOW,
        }
    }
}

/// How many places there are up to a last vote.
pub fn vote_end(last: Option<Place>) -> u32
    requires { voted_to last < 2 ^ 32 }
    ensures { result ≡ voted_to last }
{
    match last {
        Some(place) => place + 1,
        None => 0,
    }
}
