//! Laws of digits of events and of crashes. Each function's contract is its law, and its body is empty.
ghost use Rattle.kept_node.specs.Laws.{DigitsTellEvents, ACrashLosesNothingSynced};

/// No two histories of a node have the same digits.
pub fn digits_tell_events()
    ensures { DigitsTellEvents }
{}

/// What a crash leaves of a kept node is restored as a prefix of its history that has all that was synced.
pub fn a_crash_loses_nothing_synced()
    ensures { ACrashLosesNothingSynced }
{}
