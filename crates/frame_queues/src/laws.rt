//! What is true of frames that wait to be written, of slots, and of the limits that callers name.

ghost use Rattle.std.specs.Prelude.{◌≡◌};
ghost use Rattle.frame_queues.specs.Blocks.{block_frames};
ghost use Rattle.frame_queues.specs.Moments.{NobodyTakesAnothers, SlotsEndRightly, WhoBringsNewGetsIn};
ghost use Rattle.frame_queues.specs.Parking.{most_parked};
ghost use Rattle.frame_queues.specs.Turns.{turn_frames};
ghost use Rattle.frame_queues.specs.Unsent.{GoesOn, most_frames};

use crate::frame_block::BLOCK_FRAMES;
use crate::parked_packets::MOST_PARKED;
use crate::turns::TURN_FRAMES;
use crate::unsent_frames::MOST_FRAMES;

/// What goes over one connection is whole frames, in their order.
pub fn unsent_goes_on()
    ensures { GoesOn }
{}

/// Whatever strangers and the connections of other peers do: a peer has the slots that it had, and no other.
pub fn nobody_takes_anothers()
    ensures { NobodyTakesAnothers }
{}

/// A connection in a slot ends by itself; where it was silent, and a frame of its peer opens; or where a packet of a
/// newcomer of its peer counts. It ends for nothing else.
pub fn slots_end_rightly()
    ensures { SlotsEndRightly }
{}

/// A newcomer of a peer of which a packet counts has a slot of that peer.
pub fn who_brings_new_gets_in()
    ensures { WhoBringsNewGetsIn }
{}

/// The limits that callers name are those of the definitions.
pub fn limits_are_defined()
    ensures unsent { MOST_FRAMES ≡ most_frames }
    ensures block { BLOCK_FRAMES ≡ block_frames }
    ensures turn { TURN_FRAMES ≡ turn_frames }
    ensures parked { MOST_PARKED ≡ most_parked }
{}
