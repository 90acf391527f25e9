//! What stays of an instance that has delivered.

ghost use Rattle.std.specs.Prelude.{◌≡◌, List, [], ◌∷◌, ◌++◌, ℕ, false, is_some};
ghost use Rattle.quorum_sizes.specs.Sizes.{Counts};
ghost use Rattle.bracha_instance.specs.Broadcast.{Take, vote};
ghost use Rattle.bracha_instance.specs.States.{state};
ghost use Rattle.bracha_instance.specs.NewTakes.{taken_for};
ghost use Rattle.bracha_instance.specs.Taking.{SendsAreFrom, has_voted, newly_sent, newly_delivered};
ghost use Rattle.bracha_instance.specs.inside.Instances.{record_state};
ghost use Rattle.bracha_instance.specs.inside.Next.{after_kind};

use crate::first_votes::FirstVotes;
use crate::instance::{Caused, is_new, kind_for};
use link_frames::Kind;
use quorum_sizes::NodeName;
use role_commands::Command;
use std::marker::Model;

/// What stays of an instance that has delivered: who has voted, and what was echoed, readied and delivered. It
/// takes further messages, none of which can make it readier or deliver again, and never takes memory.
///
/// Contracts see it as its `State`, in which something is delivered.
#[derive(Drop)]
pub struct Record {
    first_votes: FirstVotes,
    readied: Option<Command>,
    delivered: Command,
}

impl Model for Record {
    ghost use Rattle.bracha_instance.specs.States.{State};
    ghost use Rattle.bracha_instance.specs.inside.Kept.{state_code};

    ghost Value = { State };

    ghost coded = { state_code };

    ghost use Rattle.bracha_instance.specs.inside.Instances.{record_state};

    ghost view = { record_state };
}

impl Record {
    pub(crate) fn new(first_votes: FirstVotes, readied: Option<Command>, delivered: Command) -> Self
        ensures { result ≡ record_state (record {
          first_votes = first_votes;
          readied = readied;
          delivered = delivered;
        }) }
    {
        Record {
            first_votes,
            readied,
            delivered,
        }
    }

    /// Takes a message, as [`Instance::take_new`](crate::Instance::take_new) does, where that node's of that kind was
    /// not taken before.
    #[inline(always)]
    pub fn take_new(&mut self, kind: Kind, from: NodeName, command: Command) -> Caused
        requires { has_voted self.old kind from ≡ false }
        ensures state { let t : Take = record { kind = kind; from = from; command = command } in
            (s : Counts) (takes : List Take) →
            self.old ≡ state s takes → self.new ≡ state s (takes ++ t ∷ []) }
        ensures broadcast { let t : Take = record { kind = kind; from = from; command = command } in
            (s : Counts) (takes : List Take) → self.old ≡ state s takes →
            (taken_for command result).broadcast ≡ newly_sent s takes (takes ++ t ∷ []) }
        ensures delivered { let t : Take = record { kind = kind; from = from; command = command } in
            (s : Counts) (takes : List Take) → self.old ≡ state s takes →
            (taken_for command result).delivered ≡ newly_delivered s takes (takes ++ t ∷ []) }
    {
        let echoed = self.echoed();
        self.count(kind, from, command);
        Caused {
            send: kind_for(is_new(echoed, self.echoed()), false),
            delivers: false,
        }
    }

    fn count(&mut self, kind: Kind, from: NodeName, command: Command)
        ensures state { (s : Counts) → self.new ≡ after_kind s self.old kind from command }
        ensures readied { self.new.readied ≡ self.old.readied }
        ensures delivered { self.new.delivered ≡ self.old.delivered }
    {
        self.first_votes.note(kind, from, command);
    }

    /// Whether that node's message of that kind was taken, so that another is idle.
    #[inline(always)]
    pub fn voted(&self, kind: Kind, from: NodeName) -> bool
        ensures seen { result ≡ has_voted self.now kind from }
        ensures vote { (s : Counts) (takes : List Take) (owner : ℕ) (command : Command) →
            let t : Take = record { kind = kind; from = from; command = command } in
            self.now ≡ state s takes → SendsAreFrom owner (takes ++ t ∷ []) → result ≡ is_some (vote kind from takes) }
    {
        self.first_votes.voted(kind, from)
    }

    /// The command for which this node sent ECHO.
    pub fn echoed(&self) -> Option<Command>
        ensures { result ≡ self.now.echoed }
    {
        self.first_votes.echoed
    }

    /// The command for which this node sent READY.
    pub fn readied(&self) -> Option<Command>
        ensures { result ≡ self.now.readied }
    {
        self.readied
    }

    /// The command that this node delivered.
    pub fn delivered(&self) -> Command
        ensures { Some result ≡ self.now.delivered }
    {
        self.delivered
    }
}
