//! What the decision and the sessions mean.

ghost use Rattle.role_sessions.specs.Laws.{AllowedInARole, DeniedForWantOfARole, CountedAreAssigned};
ghost use Rattle.role_sessions.specs.Laws.{DeassignedCountsNoMore, ReassignedCountsAgain, RelationsStay};
ghost use Rattle.role_sessions.specs.Laws.{StateHasTheOpen, StateCountsTheOpened, IdsAreGivenInOrder, ClosedStayClosed};

/// An access is allowed exactly where some role that is active in the user's open session is assigned
/// to the user and has the permission.
pub fn access_needs_a_role()
    ensures allowed { AllowedInARole }
    ensures denied { DeniedForWantOfARole }
{}

/// A role counts only while the user is assigned to it. A deassign and a later assign leave it active.
pub fn counting_follows_assignment()
    ensures counted { CountedAreAssigned }
    ensures deassigned { DeassignedCountsNoMore }
    ensures reassigned { ReassignedCountsAgain }
{}

/// Room that is made in a policy changes no relation, so no answer.
pub fn relations_stay()
    ensures { RelationsStay }
{}

/// The open sessions are those that the events tell, with ids from 1 on, and no id is used again.
pub fn ids_are_never_used_again()
    ensures state { StateHasTheOpen }
    ensures count { StateCountsTheOpened }
    ensures order { IdsAreGivenInOrder }
    ensures closed { ClosedStayClosed }
{}
