//! What is true of the relations and of listings, whoever keeps them.

ghost use Rattle.std.specs.Ordering.{nat_cmp};
ghost use Rattle.rbac_state.specs.Policies.{permission_cmp};
ghost use Rattle.rbac_state.specs.Listings.{HasOneListing};
ghost use Rattle.rbac_state.specs.Laws.{OneMoreUser, OneMorePermission, BlankIsOfNoCommands};
ghost use Rattle.rbac_state.specs.Laws.{AppliedIsOfOneMore, SameIsOfTheSame};

/// One more command of a node's stream changes the two relations as that command says, and in
/// nothing else.
pub fn law_one_more()
    ensures user { OneMoreUser }
    ensures permission { OneMorePermission }
{}

/// A policy that is blank at first, and to which each next command of a node's stream is applied,
/// is that of the streams.
pub fn policy_of_streams()
    ensures blank { BlankIsOfNoCommands }
    ensures applied { AppliedIsOfOneMore }
    ensures same { SameIsOfTheSame }
{}

/// A set has one listing: with the same members, two listings are the same list.
pub fn one_listing()
    ensures numbers { HasOneListing nat_cmp }
    ensures permissions { HasOneListing permission_cmp }
{}
