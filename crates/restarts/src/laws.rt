//! What holds of every life of a cluster, whatever its correct nodes record, sync and lose in crashes.
//!
//! Each function's contract is its law, and its body is empty, or calls the laws that it follows from.
ghost use Rattle.restarts.specs.Example.{AnExample};
ghost use Rattle.restarts.specs.Laws.{RestartsAreRuns, RunsAreLives, NothingIsTakenBack};
ghost use Rattle.restarts.specs.Laws.{RestartsKeepThePromise, RestartsBeginOnce};
ghost use Rattle.restarts.specs.Laws.{NothingLeftIsAhead, FewVoteAhead, NobodyIsToldTwoStories};

use byz_world::law_headline;

/// What stands at any moment of a life is a run of a cluster, so that every law of a cluster speaks of it.
pub fn law_restarts_are_runs()
    ensures { RestartsAreRuns }
{}

/// Each run of a cluster stands after a life, that in which each event is synced once it is recorded.
pub fn runs_are_lives()
    ensures { RunsAreLives }
{}

/// What a node had synced at some moment is a prefix of its history at each later one.
pub fn law_nothing_is_taken_back()
    ensures { NothingIsTakenBack }
{}

/// What stands at any moment of a life keeps the promise of the cluster.
pub fn law_restarts_keep_the_promise()
    ensures { RestartsKeepThePromise }
{
    law_restarts_are_runs();
    law_headline();
}

/// No correct node is begun twice at any moment of a life, whatever it lost in crashes: so none is refused for it.
pub fn law_begun_once()
    ensures { RestartsBeginOnce }
{
    law_restarts_are_runs();
    byz_world::law_begun_once();
}

/// What had left a correct node about a correct owner's stream is about a place that the owner has published, then and
/// at each later moment, whatever the owner lost in crashes. So in the names of at most `f` nodes a correct owner is
/// ever given anything about its own stream at a place that it hasn't published by then.
pub fn nothing_left_is_ahead()
    ensures left { NothingLeftIsAhead }
    ensures few { FewVoteAhead }
{
    law_restarts_are_runs();
    byz_world::laws::nobody_votes_ahead();
}

/// At no two moments of a life, across any crashes, have two different messages of one kind about one place left a
/// correct node.
pub fn law_nobody_is_told_two_stories()
    ensures { NobodyIsToldTwoStories }
{}

/// There is a life in which a node publishes a command, loses it in a crash and publishes another, which it keeps in
/// the next crash and which is delivered.
pub fn an_example()
    ensures { AnExample }
{
    byz_world::laws::an_example();
}
