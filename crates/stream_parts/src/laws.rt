//! What holds of every long run of a cluster, whatever its liars and the network do.
//!
//! Each function's contract is its law, and its body is empty, or calls the laws that it follows from.
ghost use Rattle.stream_parts.specs.Example.{AnExample};
ghost use Rattle.stream_parts.specs.Laws.{PartsAreRuns, TotalsAgree, TotalsAgreeWhenever, TotalIntegrity};
ghost use Rattle.stream_parts.specs.Laws.{PastIsComplete, SameRelations, HeadlineOverParts, DecidesAlike};
ghost use Rattle.stream_parts.specs.Laws.{IssuedHasRoom, NoPartIsFull, SummaryIsTrue};

use byz_world::laws::an_example as example_of_world;
use owner_shares::laws::owner_is_bounded;

/// What happens in a part is a run of the part's cluster, so that every law of a cluster speaks of it.
pub fn parts_are_runs()
    ensures { PartsAreRuns }
{}

/// Of two correct nodes' totals of an owner one is a prefix of the other.
pub fn totals_agree()
    ensures { TotalsAgree }
{
    parts_are_runs();
}

/// So it is of their totals at whichever moments of a run.
pub fn totals_agree_whenever()
    ensures { TotalsAgreeWhenever }
{
    parts_are_runs();
}

/// A correct owner's total is, at each correct node, a prefix of what the owner issued, in the order in which it did.
pub fn total_integrity()
    ensures { TotalIntegrity }
{
    parts_are_runs();
}

/// Who has anything of a part has delivered all of each part before it, or adopted it.
pub fn past_is_complete()
    ensures { PastIsComplete }
{}

/// Correct nodes whose totals are equally long have the same relations, also where room is full.
pub fn same_relations()
    ensures { SameRelations }
{
    parts_are_runs();
    totals_agree();
}

/// Of every long run: correct nodes decide as Core RBAC does over what holds by the totals that they have, these agree as
/// far as they reach, and nothing in them is forged.
pub fn keeps_the_promise()
    ensures { HeadlineOverParts }
{
    totals_agree();
    total_integrity();
}

/// Correct nodes at which an owner's total is equally long decide alike by its word, at whichever moments.
pub fn decides_alike()
    ensures { DecidesAlike }
{
    totals_agree_whenever();
}

/// What a correct owner issued has its effect wherever it is delivered: no room is missing then.
pub fn issued_has_room()
    ensures { IssuedHasRoom }
{
    total_integrity();
}

/// A history in a part is shorter than the part's limit, so that F4 is due in no part.
pub fn no_part_is_full()
    ensures { NoPartIsFull }
{
    owner_is_bounded();
}

/// A summary that more nodes tell than can lie is one of what a correct node has, and that of each correct node that has
/// those parts.
pub fn summary_is_true()
    ensures { SummaryIsTrue }
{
    totals_agree();
}

/// There is a long run of four nodes, one of which lies, that comes into a second part.
pub fn an_example()
    ensures { AnExample }
{
    example_of_world();
}
