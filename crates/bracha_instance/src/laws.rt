//! The rules of the protocol, as laws about every list of messages that a node took.
//!
//! Each function's contract is its law, and its body is empty. `specs/Laws.antt` spells the laws out.
ghost use Rattle.bracha_instance.specs.Laws.{ReadiesItsOwn, DeliversItsOwn, EchoStays, ReadyStays};
ghost use Rattle.bracha_instance.specs.Laws.{DeliveryStays, ReadyWasFirst, DeliveryWasFirst};
ghost use Rattle.bracha_instance.specs.Laws.{ReadyComes, DeliveryComes, RepeatChangesNothing};

/// One more message makes its own command ready, or none.
pub fn readies_its_own()
    ensures { ReadiesItsOwn }
{}

/// One more message delivers its own command, or none.
pub fn delivers_its_own()
    ensures { DeliversItsOwn }
{}

/// A node never takes an ECHO back, nor sends a second.
pub fn echo_stays()
    ensures { EchoStays }
{}

/// A node never takes a READY back, nor sends a second.
pub fn ready_stays()
    ensures { ReadyStays }
{}

/// A node never takes a delivery back, nor delivers a second command.
pub fn delivery_stays()
    ensures { DeliveryStays }
{}

/// A node is ready for a command that had its quorum when no command had one before.
pub fn ready_was_first()
    ensures { ReadyWasFirst }
{}

/// A node delivers a command that had its quorum when no command had one before.
pub fn delivery_was_first()
    ensures { DeliveryWasFirst }
{}

/// Where a command has its quorum of ECHOs or READYs at some moment, the node becomes ready.
pub fn ready_comes()
    ensures { ReadyComes }
{}

/// Where a command has its quorum of READYs at some moment, the node delivers.
pub fn delivery_comes()
    ensures { DeliveryComes }
{}

/// A node's second message of a kind changes no vote, no supporter, and nothing of the state.
pub fn repeat_changes_nothing()
    ensures { RepeatChangesNothing }
{}
