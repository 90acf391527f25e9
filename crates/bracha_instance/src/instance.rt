//! An instance of the broadcast while it may still deliver.

ghost use Rattle.std.specs.Prelude.{◌≡◌, ℕ, ◌<◌, ◌≤◌, ◌*◌, ◌||◌, nat_le, List, [], ◌∷◌, ◌++◌};
ghost use Rattle.std.specs.Prelude.{All, false, is_some, IfOk, IfSome, IsSome, OnOk, OnErr, None};
ghost use Rattle.std.specs.Option.{option_or};
ghost use Rattle.quorum_sizes.specs.Sizes.{Counts, echo_quorum_of, amplify_of, deliver_of};
ghost use Rattle.role_commands.specs.declared.command.Command.{Command};
ghost use Rattle.bracha_instance.specs.Broadcast.{Take, vote};
ghost use Rattle.bracha_instance.specs.States.{state};
ghost use Rattle.bracha_instance.specs.NewTakes.{kind_due, taken_for};
ghost use Rattle.bracha_instance.specs.Taking.{SendsAreFrom, has_voted, effect_of, newly};
ghost use Rattle.bracha_instance.specs.Taking.{newly_sent, newly_delivered};
ghost use Rattle.bracha_instance.specs.inside.Next.{only_if, by_vote, kind_of, after_vote, after_kind};
ghost use Rattle.bracha_instance.specs.Supported.{CountsSupported};

use crate::first_votes::FirstVotes;
use crate::record::Record;
use crate::tallies::{Support, Tallies, Vote};
use link_frames::Kind;
use quorum_sizes::{NodeName, Sizes};
use role_commands::Command;
use std::alloc::{AllocError, Global};
use std::marker::Model;

/// Whether a message counted.
#[derive(Clone, Copy, Debug, PartialEq, Eq)]
pub enum Effect {
    /// That node's message of that kind was taken before, and this one changes nothing.
    Idle,
    /// It is that node's vote of that kind.
    Counted,
}

/// What a message caused.
#[derive(Clone, Copy, Debug, PartialEq, Eq)]
pub struct Taken {
    /// Whether it counted.
    pub effect: Effect,
    /// What the node sends to all nodes now: an ECHO or a READY.
    pub broadcast: Option<(Kind, Command)>,
    /// What the node delivers now.
    pub delivered: Option<Command>,
}

/// What a message that counts caused. It is for the message's own command, which is not said again.
#[derive(Clone, Copy, Debug, PartialEq, Eq)]
pub struct Caused {
    /// The kind of the message that the node sends to all nodes now: an ECHO or a READY.
    pub send: Option<Kind>,
    /// Whether the node delivers the command now.
    pub delivers: bool,
}

impl Caused {
    /// What was caused, with the message's command.
    #[inline(always)]
    pub fn taken(self, command: Command) -> Taken
        ensures { result ≡ taken_for command self }
    {
        let broadcast = self.send.map(|kind| (kind, command));
        let delivered = if self.delivers { Some(command) } else { None };
        Taken {
            effect: Effect::Counted,
            broadcast,
            delivered,
        }
    }
}

/// One instance of authenticated double-echo broadcast (Bracha 1987): what was echoed, readied and
/// delivered, who has voted, and until something is delivered the votes.
///
/// Contracts see it as its `State`, whatever keeps the votes.
#[derive(Drop)]
pub struct Instance {
    first_votes: FirstVotes,
    readied: Option<Command>,
    delivered: Option<Command>,
    votes: Tallies,
}

impl Model for Instance {
    ghost use Rattle.bracha_instance.specs.States.{State};
    ghost use Rattle.bracha_instance.specs.inside.Kept.{state_code};

    ghost Value = { State };

    ghost coded = { state_code };

    ghost use Rattle.bracha_instance.specs.inside.Instances.{instance_state, IsInstance};

    ghost view = { instance_state };

    ghost invariant = { IsInstance };
}

/// Keeps this command where it is due now and none is kept.
#[inline(always)]
pub(crate) fn keep_first(kept: &mut Option<Command>, due: bool, command: Command)
    ensures { kept.new ≡ option_or kept.old (only_if due command) }
{
    if kept.is_none() && due {
        *kept = Some(command);
    }
}

/// Whether there is one now and was none before.
#[inline(always)]
pub(crate) fn is_new(before: Option<Command>, now: Option<Command>) -> bool
    ensures { result ≡ is_some (newly before now) }
{
    before.is_none() && now.is_some()
}

/// The kind of the message for what was newly echoed or readied.
#[inline(always)]
pub(crate) fn kind_for(echoes: bool, readies: bool) -> Option<Kind>
    ensures { result ≡ kind_due echoes readies }
{
    if echoes {
        Some(Kind::Echo)
    } else if readies {
        Some(Kind::Ready)
    } else {
        None
    }
}

/// Whether a command with this support may be readied.
fn may_ready(sizes: &Sizes, support: Support) -> bool
    ensures { result ≡ (nat_le (echo_quorum_of sizes.now) support.echoes
        || nat_le (amplify_of sizes.now) support.readies) }
{
    usize::from(sizes.echo_quorum()) <= support.echoes
        || usize::from(sizes.amplify()) <= support.readies
}

/// Whether a command with this support may be delivered by this vote. An ECHO gives it no READY more.
#[inline(always)]
fn may_deliver(sizes: &Sizes, vote: Vote, support: Support) -> bool
    ensures { result ≡ by_vote vote false (nat_le (deliver_of sizes.now) support.readies) }
{
    match vote {
        Vote::Echo => false,
        Vote::Ready => usize::from(sizes.deliver()) <= support.readies,
    }
}

impl Instance {
    /// An instance in which nothing was taken. Takes no memory.
    pub fn new(alloc: Global) -> Self
        ensures { (s : Counts) → result ≡ state s [] }
    {
        Instance {
            first_votes: FirstVotes::new(),
            readied: None,
            delivered: None,
            votes: Tallies::new(alloc),
        }
    }

    /// Takes a message, whose node must be one of these sizes.
    ///
    /// The clauses speak of every list of messages of which this is the state under these sizes. That a SEND
    /// is idle exactly where that node's was taken needs that all SENDs are from one node, the owner.
    ///
    /// # Errors
    ///
    /// `AllocError`, where there is no memory for one more vote. It changes nothing.
    #[inline(always)]
    pub fn take(
        &mut self,
        sizes: &Sizes,
        kind: Kind,
        from: NodeName,
        command: Command,
    ) -> Result<Taken, AllocError>
        requires { from < sizes.now.nodes }
        ensures state { let t : Take = record { kind = kind; from = from; command = command } in
            OnOk result ((takes : List Take) →
            self.old ≡ state sizes.now takes → self.new ≡ state sizes.now (takes ++ t ∷ [])) }
        ensures effect { let t : Take = record { kind = kind; from = from; command = command } in
            IfOk result (λ taken. (takes : List Take) (owner : ℕ) →
            self.old ≡ state sizes.now takes → SendsAreFrom owner (takes ++ t ∷ []) →
            taken.effect ≡ effect_of takes t) }
        ensures broadcast { let t : Take = record { kind = kind; from = from; command = command } in
            IfOk result (λ taken. (takes : List Take) →
            self.old ≡ state sizes.now takes → taken.broadcast ≡ newly_sent sizes.now takes (takes ++ t ∷ [])) }
        ensures delivered { let t : Take = record { kind = kind; from = from; command = command } in
            IfOk result (λ taken. (takes : List Take) →
            self.old ≡ state sizes.now takes → taken.delivered ≡ newly_delivered sizes.now takes (takes ++ t ∷ [])) }
        ensures idle { IfOk result (λ taken. taken.effect ≡ Effect.Idle → self.new ≡ self.old) }
        ensures memory { let t : Take = record { kind = kind; from = from; command = command } in
            OnErr result ((takes : List Take) (owner : ℕ) →
            self.old ≡ state sizes.now takes → SendsAreFrom owner (takes ++ t ∷ []) →
            effect_of takes t ≡ Effect.Counted) }
        ensures err { OnErr result (self.new ≡ self.old) }
    {
        if self.voted(kind, from) {
            return Ok(Taken {
                effect: Effect::Idle,
                broadcast: None,
                delivered: None,
            });
        }
        let caused = self.take_new(sizes, kind, from, command)?;
        Ok(caused.taken(command))
    }

    /// Takes a message as [`take`](Self::take) does, where that node's of that kind was not taken before.
    ///
    /// # Errors
    ///
    /// `AllocError`, where there is no memory for one more vote. It changes nothing.
    #[inline(always)]
    pub fn take_new(
        &mut self,
        sizes: &Sizes,
        kind: Kind,
        from: NodeName,
        command: Command,
    ) -> Result<Caused, AllocError>
        requires { has_voted self.old kind from ≡ false }
        ensures state { let t : Take = record { kind = kind; from = from; command = command } in
            OnOk result ((takes : List Take) →
            self.old ≡ state sizes.now takes → self.new ≡ state sizes.now (takes ++ t ∷ [])) }
        ensures broadcast { let t : Take = record { kind = kind; from = from; command = command } in
            IfOk result (λ caused. (takes : List Take) → self.old ≡ state sizes.now takes →
            (taken_for command caused).broadcast ≡ newly_sent sizes.now takes (takes ++ t ∷ [])) }
        ensures delivered { let t : Take = record { kind = kind; from = from; command = command } in
            IfOk result (λ caused. (takes : List Take) → self.old ≡ state sizes.now takes →
            (taken_for command caused).delivered ≡ newly_delivered sizes.now takes (takes ++ t ∷ [])) }
        ensures err { OnErr result (self.new ≡ self.old) }
    {
        let echoed = self.echoed();
        let readied = self.readied();
        let delivered = self.delivered();
        self.count(sizes, kind, from, command)?;
        let echoes = is_new(echoed, self.echoed());
        let readies = is_new(readied, self.readied());
        Ok(Caused {
            send: kind_for(echoes, readies),
            delivers: is_new(delivered, self.delivered()),
        })
    }

    #[inline(always)]
    fn count(
        &mut self,
        sizes: &Sizes,
        kind: Kind,
        from: NodeName,
        command: Command,
    ) -> Result<(), AllocError>
        requires { has_voted self.old kind from ≡ false }
        ensures ok { OnOk result (self.new ≡ after_kind sizes.now self.old kind from command) }
        ensures err { OnErr result (self.new ≡ self.old) }
    {
        match kind {
            Kind::Send => {
                self.first_votes.note(Kind::Send, from, command);
                Ok(())
            }
            Kind::Echo => self.count_vote(sizes, Vote::Echo, from, command),
            Kind::Ready => self.count_vote(sizes, Vote::Ready, from, command),
        }
    }

    /// Counts a node's first ECHO or READY. After a delivery it can cause nothing.
    #[inline(always)]
    fn count_vote(
        &mut self,
        sizes: &Sizes,
        vote: Vote,
        from: NodeName,
        command: Command,
    ) -> Result<(), AllocError>
        requires { has_voted self.old (kind_of vote) from ≡ false }
        ensures ok { OnOk result (self.new ≡ after_vote sizes.now self.old vote from command self.old.delivered) }
        ensures err { OnErr result (self.new ≡ self.old) }
    {
        let kind = vote.kind();
        if self.delivered.is_some() {
            self.first_votes.note(kind, from, command);
            return Ok(());
        }
        let support = self.votes.count(vote, from, command)?;
        self.first_votes.note(kind, from, command);
        keep_first(&mut self.readied, may_ready(sizes, support), command);
        if may_deliver(sizes, vote, support) {
            self.delivered = Some(command);
            self.votes.forget();
            return Ok(());
        }
        Ok(())
    }

    /// Whether that node's message of that kind was taken: [`take`](Self::take) would answer that it is idle.
    ///
    /// Takes no memory.
    #[inline(always)]
    pub fn voted(&self, kind: Kind, from: NodeName) -> bool
        ensures seen { result ≡ has_voted self.now kind from }
        ensures vote { (s : Counts) (takes : List Take) (owner : ℕ) (command : Command) →
            let t : Take = record { kind = kind; from = from; command = command } in
            self.now ≡ state s takes → SendsAreFrom owner (takes ++ t ∷ []) → result ≡ is_some (vote kind from takes) }
    {
        self.first_votes.voted(kind, from)
    }

    /// The command for which this node sent ECHO.
    pub fn echoed(&self) -> Option<Command>
        ensures { result ≡ self.now.echoed }
    {
        self.first_votes.echoed
    }

    /// The command for which this node sent READY.
    pub fn readied(&self) -> Option<Command>
        ensures { result ≡ self.now.readied }
    {
        self.readied
    }

    /// The command that this node delivered.
    pub fn delivered(&self) -> Option<Command>
        ensures { result ≡ self.now.delivered }
    {
        self.delivered
    }

    /// For how many commands votes are kept: until something is delivered those that have a supporter, and then
    /// none.
    pub fn kept(&self) -> u16
        ensures supported { (s : Counts) (takes : List Take) →
            self.now ≡ state s takes → self.now.delivered ≡ None → CountsSupported takes result }
        ensures forgotten { IsSome self.now.delivered → result ≡ 0 }
        ensures most { (s : Counts) (takes : List Take) →
            self.now ≡ state s takes → All (λ (t : Take). t.from < s.nodes) takes → result ≤ 2 * s.nodes }
    {
        self.votes.len() as u16
    }

    /// What stays of it once something is delivered.
    pub fn record(&self) -> Option<Record>
        ensures delivered { is_some result ≡ is_some self.now.delivered }
        ensures record { IfSome result (λ kept. kept ≡ self.now) }
    {
        let delivered = self.delivered?;
        Some(Record::new(self.first_votes, self.readied, delivered))
    }
}
