//! The promises of the cluster, about every run of it.
//!
//! Each function's contract is its law, and its body is empty. `specs/Laws.antt` spells the laws out.
ghost use Rattle.byz_world.specs.AfterSteps.{HeadlineOfSteps};
ghost use Rattle.byz_world.specs.Begun.{BegunOnce, NobodyVotesAhead, FewVoteAhead};
ghost use Rattle.byz_world.specs.Example.{AnExample};
ghost use Rattle.byz_world.specs.Headline.{Headline};
ghost use Rattle.byz_world.specs.Laws.{FrontsAreRuns, PoolIsWhatWasSent, PoolIsSound, Consistency, Integrity};
ghost use Rattle.byz_world.specs.Laws.{SamePolicy, SameReachDecidesAlike, SameReachWheneverAsked, ReadyByAll};
ghost use Rattle.byz_world.specs.Laws.{DeliveredByAll, IssuedReachesAll, AtRest};
ghost use Rattle.byz_world.specs.Limits.{LimitsMayDiffer};
ghost use Rattle.byz_world.specs.Progress.{QuietIsComplete, EachOwnerGoesOn, WantedIsRecorded, HistoryIsBounded};
ghost use Rattle.byz_world.specs.Progress.{WorkIsBounded};
ghost use Rattle.byz_world.specs.Giving.{GivenOutIsAtRest, GivingComesToRest};
ghost use Rattle.byz_world.specs.Windows.{VoteShowsReach, WindowsSuffice, IsCompleteOrLacked, WindowsHeal};

/// A run whose correct nodes keep to different limits is one of a cluster whose limit is at least the largest of them,
/// so that all that is said here holds of it.
pub fn limits_may_differ()
    ensures { LimitsMayDiffer }
{}

/// The first events of a run of a cluster, however many, are one, so that all that is said here held at each moment.
pub fn fronts_are_runs()
    ensures { FrontsAreRuns }
{}

/// The packets that stand in the pool are those of the messages that correct nodes have sent, one to each node.
pub fn pool_is_what_was_sent()
    ensures { PoolIsWhatWasSent }
{}

/// Each packet of the pool is sound: a SEND is its owner's, and the place is one of a stream.
pub fn pool_is_sound()
    ensures { PoolIsSound }
{}

/// Correct nodes are ready for one command at a place of an owner's stream and deliver one there, and their streams
/// of an owner agree as far as both reach.
pub fn law_consistency()
    ensures { Consistency }
{}

/// A correct owner's stream is, at each correct node, a prefix of what the owner issued.
pub fn law_integrity()
    ensures { Integrity }
{}

/// No correct node is begun twice, so none that follows the rules is ever refused for it: at each moment of a run, what
/// a correct node delivers of its own stream is the beginning of what it had published.
pub fn law_begun_once()
    ensures { BegunOnce }
{}

/// What a correct node sends about a correct owner's stream is about a place that the owner has published. So in the
/// names of at most `f` nodes a correct owner is ever given anything about its own stream at a place that it hasn't
/// published by then.
pub fn nobody_votes_ahead()
    ensures sent { NobodyVotesAhead }
    ensures few { FewVoteAhead }
{}

/// Correct nodes whose streams reach equally far have the same relations.
pub fn law_same_policy()
    ensures { SamePolicy }
{}

/// Correct nodes at which an owner's stream reaches equally far decide alike by that owner's word, in all its roles: at
/// the end of a run, and at any two moments of it.
pub fn same_reach_decides_alike()
    ensures alike { SameReachDecidesAlike }
    ensures whenever { SameReachWheneverAsked }
{
    role_node::laws::one_owners_word();
}

/// Of a cluster at rest: a command for which so many correct nodes are ready as amplify asks, each correct node is
/// ready for.
pub fn ready_by_all()
    ensures { ReadyByAll }
{}

/// Of a cluster at rest: what one correct node delivered, each did.
pub fn delivered_by_all()
    ensures { DeliveredByAll }
{}

/// Of a cluster at rest: each correct node has echoed, readied and delivered a correct owner's commands.
pub fn issued_reaches_all()
    ensures { IssuedReachesAll }
{}

/// Of a cluster at rest: a correct owner's stream is, at each correct node, what the owner issued, and what one correct
/// node delivered, each did.
pub fn law_at_rest()
    ensures { AtRest }
{}

/// Where nothing about an owner's first places is wanted, these are complete, whatever is under way of others. And of a
/// cluster in which no correct node's history is full: where no packet of the pool would be recorded by its correct
/// receiver if it were given once more, the cluster is at rest, and only there.
pub fn law_nothing_is_stuck()
    ensures quiet { QuietIsComplete }
    ensures given_out { GivenOutIsAtRest }
{}

/// About one place a node records a SEND of its owner, an ECHO and a READY of each node at most, and nothing beyond its
/// window; so a history is bounded by what its node issued, what its clients did, and the places that packets are
/// about.
pub fn law_work_is_bounded()
    ensures work { WorkIsBounded }
    ensures history { HistoryIsBounded }
{}

/// Each owner's stream goes on, whatever else does: it is complete up to a place, or something about it is wanted,
/// which its receiver records when it is given, where that node is below its own limit; and only so much can be. And
/// where nothing happens but that packets of the pool are given, each recorded, this ends, and where none counts any
/// more and no history is full, the cluster is at rest, and all is delivered.
pub fn law_fair_schedules_settle()
    ensures goes_on { EachOwnerGoesOn }
    ensures recorded { WantedIsRecorded }
    ensures given { GivingComesToRest }
{}

/// A vote of a correct node, an ECHO or a READY, wherever it was taken at a place of an owner's stream, shows that its
/// sender's stream of that owner reaches above that place less 64: a node takes nothing further ahead, and votes only
/// where it took something.
pub fn vote_shows_reach()
    ensures { VoteShowsReach }
{}

/// The window of a peer at a node is the 64 places on each side of the last vote that the node took of it. Where no
/// correct node lacks a packet that stands in a correct node's window of it and is about an owner's first places, these
/// are one list at all correct nodes, and of a correct owner what it issued. And these places are so, or some packet of
/// a window about them is lacked: its receiver would record it if it were given now, room in its history apart.
pub fn law_windows_suffice()
    ensures suffice { WindowsSuffice }
    ensures or_lacked { IsCompleteOrLacked }
{}

/// Giving packets of windows heals the cluster, whatever liars, clients and other owners do meanwhile. Take moments
/// of a run, one after another, between each of which and the next a packet about an owner's first P places is
/// recorded that was lacked in a window at the first of the two, if any was. Then these places are complete at one of
/// the moments, and no more than `n * P * (2n + 1)` come before it.
pub fn law_windows_heal()
    ensures { WindowsHeal }
{}

/// There is a run of a cluster in which a node lies and two correct nodes deliver a command; it can be prolonged before
/// its end, and there something is wanted.
pub fn an_example()
    ensures { AnExample }
{}

/// Of every run of a cluster: correct nodes decide as Core RBAC does over the streams that they delivered, these agree
/// as far as they reach, and nothing in them is forged.
pub fn law_headline()
    ensures { Headline }
{}

/// The run after any list of steps, any bytes included, with no more liars than may lie, is one of a cluster, and keeps
/// this promise.
pub fn headline_of_steps()
    ensures { HeadlineOfSteps }
{}
