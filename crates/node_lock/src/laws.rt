//! What is true of the passes of every inbox, and of the limits.

ghost use Rattle.std.specs.Prelude.{◌≡◌};
ghost use Rattle.node_lock.specs.Inboxes.{inbox_capacity, most_passes};
ghost use Rattle.node_lock.specs.Laws.{PartsStay, NoneCanBeAbsent};
ghost use Rattle.node_lock.specs.Pools.{most_calls};
ghost use Rattle.node_lock.specs.Seats.{most_seats};

use crate::inbox::{INBOX_CAPACITY, MOST_PASSES};
use crate::pool::MOST_CALLS;
use crate::seat::MOST_SEATS;

/// Passes that hold a part each, as those of a new inbox do, are not all where one is absent, whatever they put and
/// took.
pub fn passes_are_all_or_not()
    ensures stay { PartsStay }
    ensures absent { NoneCanBeAbsent }
{}

/// The limits that callers name are those of the definitions.
pub fn limits_are_defined()
    ensures capacity { INBOX_CAPACITY ≡ inbox_capacity }
    ensures passes { MOST_PASSES ≡ most_passes }
    ensures seats { MOST_SEATS ≡ most_seats }
    ensures calls { MOST_CALLS ≡ most_calls }
{}
