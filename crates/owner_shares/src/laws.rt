//! What shares are good for, of every legal history, whatever liars and clients do.
//!
//! Each function's contract is its law.

ghost use Rattle.owner_shares.specs.Laws.{NeverFull, OwnerIsBounded, SharesAreKept, SharesHold};

/// A node that asks the shares first begins within them and stays there.
pub fn shares_are_kept()
    ensures { SharesAreKept }
{}

/// About the first P places of an owner's stream at most P(2n + 1) packets are taken, also where the owner lies.
pub fn owner_is_bounded()
    ensures { OwnerIsBounded }
{}

/// Within its shares a history is at most 3 * 2^20 and the clients' acts long, so 2^22 less the open sessions.
pub fn shares_hold()
    ensures { SharesHold }
{}

/// Within its shares a node has room for each event that has a share: no packet below its owner's, no command below the
/// node's own, no close of a session is refused as F4.
pub fn never_full()
    ensures { NeverFull }
{}
