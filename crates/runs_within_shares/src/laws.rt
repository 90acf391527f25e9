//! What holds of each run whose correct nodes are within their shares, whatever liars and clients do.
//!
//! Each function's contract is its law, and its body calls the laws that it follows from.

ghost use Rattle.runs_within_shares.specs.Laws.{OwnersGoOn, SharesGoOn};

use byz_world::laws::pool_is_sound;

/// What is wanted about a place below its owner's share is recorded when it is given, and leaves all nodes within their
/// shares. No history has to have room for that.
pub fn shares_go_on()
    ensures { SharesGoOn }
{
    pool_is_sound();
}

/// The places of an owner's share are one list at all correct nodes, or a packet about them is wanted, and is recorded
/// when it is given.
pub fn owners_go_on()
    ensures { OwnersGoOn }
{
    shares_go_on();
}
