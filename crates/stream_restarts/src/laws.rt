//! What holds of every life of a cluster that takes parts, whatever its correct nodes do, sync and lose in crashes.
//!
//! Each function's contract is its law, and its body is empty, or calls the laws that it follows from.
ghost use Rattle.stream_restarts.specs.Example.{AnExample};
ghost use Rattle.stream_restarts.specs.Laws.{LongLivesAreRuns, NobodyIsToldTwoStories, NothingIsTakenBack};

use byz_world::laws::an_example as example_of_world;
use restarts::{law_nobody_is_told_two_stories, law_restarts_are_runs};

/// What stands at any moment of a life is a long run, so that every law of one speaks of it.
pub fn long_lives_are_runs()
    ensures { LongLivesAreRuns }
{
    law_restarts_are_runs();
}

/// What a node had synced at a moment of a life is what it did first at each later one, in all parts.
pub fn nothing_is_taken_back()
    ensures { NothingIsTakenBack }
{}

/// At no two moments of a life, across any crashes, have two different messages of one kind about one place of a part
/// left a correct node.
pub fn nobody_is_told_two_stories()
    ensures { NobodyIsToldTwoStories }
{
    law_nobody_is_told_two_stories();
}

/// There is a life in which a node adopts, loses that in a crash and adopts again.
pub fn an_example()
    ensures { AnExample }
{
    example_of_world();
}
