//! What holds of every life of a node.
//!
//! Each function's contract is its law, and its body is empty.
ghost use Rattle.part_lives.specs.Laws.{HeldIsSaid, StateIsEnough, StateGoesOn};

/// What holds is what `rbac_state` says of the pairs that an owner began with, as commands, and of its commands that have
/// an effect.
pub fn held_is_said()
    ensures { HeldIsSaid }
{}

/// Of a node's life its state is enough: what it may do next, its histories in the parts that it keeps, the relations
/// and the next state follow from it, with no more of what lies before.
pub fn state_is_enough()
    ensures { StateIsEnough }
{}

/// The state after more acts follows from the state before them.
pub fn state_goes_on()
    ensures { StateGoesOn }
{}
