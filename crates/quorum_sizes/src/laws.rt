//! Laws of the sizes. The function's contract is its law, and its body is empty. `specs/Laws.antt` spells it out.
ghost use Rattle.quorum_sizes.specs.Laws.{CorrectAreEnough};

/// The nodes of which none lies are a quorum of echoes, and enough to deliver.
pub fn correct_are_enough()
    ensures { CorrectAreEnough }
{}
