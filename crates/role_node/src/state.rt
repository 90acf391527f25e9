//! What a node keeps beside its history, and how an event changes it.

ghost use Rattle.std.specs.Prelude.{◌≡◌, ℕ, ◌<◌, ◌≤◌, ◌+◌, List, [], IfOk, OnOk, OnErr, vec_len};
ghost use Rattle.role_commands.specs.Tables.{Table};
ghost use Rattle.link_frames.specs.frames.Packets.{PacketValue};
ghost use Rattle.owner_streams.specs.Places.{place_count};
ghost use Rattle.owner_streams.specs.Values.{IsStateOf, WouldCount};
ghost use Rattle.rbac_state.specs.Policies.{IsPolicyOf};
ghost use Rattle.role_sessions.specs.Decisions.{Relations, relations_of};
ghost use Rattle.role_sessions.specs.Refusals.{AnswersExactly};
ghost use Rattle.role_sessions.specs.Kept.{KeptAreRight};
ghost use Rattle.role_node.specs.Access.{verdict_at, decided_at, sent_at};
ghost use Rattle.role_node.specs.Answers.{issue_fault, take_outlook, act_fault, or_counted, outlook_with_room};
ghost use Rattle.role_node.specs.Questions.{ask_due, IsAsked, IsAnswerUnder, of_listing_fault};
ghost use Rattle.role_node.specs.Configs.{most_events};
ghost use Rattle.role_node.specs.inside.Kept.{obeyed, IsStateAfter, Follows, Stays, IsReached};
ghost use Rattle.role_node.specs.inside.Kept.{IsEntryFor, FailsForMemory, IsInRange, MayRecord};
ghost use Rattle.role_node.specs.declared.event.Event.{Event};
ghost use Rattle.role_node.specs.declared.event.Event.TheVariants.{Issue, Take, Client};
ghost use Rattle.role_node.specs.declared.question.Question.TheVariants.{SessionRoles, SessionPermissions};

use crate::entry::Entry;
use crate::event::{Event, NodeAgain};
use crate::faults::{AskFault, NodeFault};
use crate::question::{Answer, Question};
use bracha_instance::Effect;
use link_frames::{Kind, Message, Packet, Place};
use owner_streams::{PLACES, Streams, WINDOW};
use quorum_sizes::NodeName;
use rbac_state::Policy;
use role_commands::{Command, Items, RoleTable};
use role_sessions::{ClientEvent, SessionFault, Sessions, Verdict, decide};
use std::alloc::{AllocError, Global};

/// What a node keeps beside its history, to answer by.
#[derive(Drop)]
pub(crate) struct State {
    pub(crate) issued: Vec<Command>,
    pub(crate) streams: Streams,
    pub(crate) policy: Policy,
    pub(crate) sessions: Sessions,
}

impl State {
    /// The state before the first event.
    pub(crate) fn new(alloc: Global, roles: RoleTable) -> Result<State, AllocError>
        ensures { IfOk result (λ state. IsStateAfter roles [] state) }
    {
        let streams = Streams::new(alloc, roles.sizes())?;
        Ok(State {
            issued: Vec::new(alloc),
            streams,
            policy: Policy::new(alloc, roles),
            sessions: Sessions::new(alloc),
        })
    }

    /// The first refusal of the event, room in the history apart, or whether it counts. It takes no memory.
    #[inline(always)]
    pub(crate) fn look(&self, me: NodeName, event: &Event) -> Result<Effect, NodeFault>
        requires sizes { self.now.streams.sizes ≡ self.now.policy.table.sizes }
        requires me { me < self.now.streams.sizes.nodes }
        ensures { (roles : Table) (history : List Event) → IsStateAfter roles history self.now →
            result ≡ outlook_with_room roles me history event.now }
    {
        match event {
            Event::Issue(command) => self.may_issue(me, *command),
            Event::Take(packet) => self.may_take(me, packet),
            Event::Client(act) => self.may_act(*act),
        }
    }

    fn may_issue(&self, me: NodeName, command: Command) -> Result<Effect, NodeFault>
        requires { me < self.now.streams.sizes.nodes }
        ensures { (roles : Table) (history : List Event) → IsStateAfter roles history self.now →
            result ≡ or_counted (issue_fault roles me history command) }
    {
        if !self.policy.roles().is_owned_by(command.role(), me) {
            return Err(NodeFault::NotMine);
        }
        let issued = self.issued.len();
        if issued >= PLACES as usize {
            return Err(NodeFault::StreamFull);
        }
        if issued >= (self.streams.reach(me) + WINDOW) as usize {
            return Err(NodeFault::Busy);
        }
        Ok(Effect::Counted)
    }

    #[inline(always)]
    fn may_take(&self, me: NodeName, packet: &Packet) -> Result<Effect, NodeFault>
        requires { self.now.streams.sizes ≡ self.now.policy.table.sizes }
        ensures { (roles : Table) (history : List Event) → IsStateAfter roles history self.now →
            result ≡ take_outlook roles me history packet.now }
    {
        let sizes = self.policy.roles().sizes();
        if packet.to() != me || !sizes.has(packet.from()) || !sizes.has(packet.owner()) {
            return Err(NodeFault::Misrouted);
        }
        Ok(self.streams.look(packet)?)
    }

    fn may_act(&self, act: ClientEvent) -> Result<Effect, NodeFault>
        ensures { let relations = relations_of self.now.policy in
            result ≡ or_counted (act_fault self.now.policy.table relations self.now.sessions.state act) }
    {
        match act {
            ClientEvent::Open { .. } => self.sessions.may_open()?,
            ClientEvent::Activate {
                session,
                user,
                role,
            } => self
                .sessions
                .may_activate(&self.policy, session, user, role)?,
            ClientEvent::DropRole {
                session,
                user,
                role,
            } => self.sessions.may_drop(session, user, role)?,
            ClientEvent::Close { session, user } => self.sessions.may_close(session, user)?,
        }
        Ok(Effect::Counted)
    }

    /// Changes the state as an event that counts does, and gives its entry. All room is made before the first
    /// change that is seen.
    #[inline(always)]
    pub(crate) fn answer(&mut self, me: NodeName, event: &Event) -> Result<Entry, AllocError>
        requires range { IsInRange self.old event.now }
        requires counts { MayRecord me event.now self.old }
        ensures entry { IfOk result (IsEntryFor me event.now self.old) }
        ensures ok { OnOk result (Follows event.now self.old self.new) }
        ensures err { OnErr result (Stays self.old self.new) }
    {
        match event {
            Event::Issue(command) => self.issue(me, *command),
            Event::Take(packet) => self.take(packet),
            Event::Client(act) => match self.act(*act) {
                Ok(entry) => Ok(entry),
                Err(fault) => Err(want_of_memory(fault)),
            },
        }
    }

    fn issue(&mut self, me: NodeName, command: Command) -> Result<Entry, AllocError>
        requires { vec_len self.old.issued < place_count }
        ensures entry { IfOk result (IsEntryFor me (Issue command) self.old) }
        ensures ok { OnOk result (Follows (Issue command) self.old self.new) }
        ensures err { OnErr result (Stays self.old self.new) }
    {
        self.issued.try_reserve(1)?;
        let place = self.issued.len() as Place;
        self.issued.push_reserved(command);
        Ok(Entry::issued(Message {
            kind: Kind::Send,
            owner: me,
            place,
            command,
        }))
    }

    #[inline(always)]
    fn take(&mut self, packet: &Packet) -> Result<Entry, AllocError>
        requires from { packet.now.from < self.old.streams.sizes.nodes }
        requires owner { packet.now.owner < self.old.streams.sizes.nodes }
        requires counts { WouldCount self.old.streams packet.now }
        requires reached { IsReached self.old }
        ensures entry { IfOk result (λ entry. (me : ℕ) → IsEntryFor me (Take packet.now) self.old entry) }
        ensures ok { OnOk result (Follows (Take packet.now) self.old self.new) }
        ensures err { OnErr result (Stays self.old self.new) }
    {
        let message = packet.message();
        self.policy.make_room()?;
        let step = self.streams.take_new(packet)?;
        if step.from < step.to {
            obey(
                &mut self.policy,
                &self.streams,
                message.owner,
                step.from,
                step.to,
            );
            forget_answers(&mut self.sessions);
        }
        Ok(Entry::taken(packet, &step))
    }

    fn act(&mut self, act: ClientEvent) -> Result<Entry, NodeFault>
        requires { self.old.sessions.state.opened ≤ most_events }
        ensures entry { IfOk result (λ entry. (me : ℕ) → IsEntryFor me (Client act) self.old entry) }
        ensures ok { OnOk result (Follows (Client act) self.old self.new) }
        ensures err { OnErr result (Stays self.old self.new) }
        ensures memory { (me : ℕ) → FailsForMemory me (Client act) self.old result }
    {
        match act {
            ClientEvent::Open { user } => Ok(Entry::opened(user, self.sessions.open(user)?)),
            ClientEvent::Activate {
                session,
                user,
                role,
            } => {
                self.sessions.activate(&self.policy, session, user, role)?;
                Ok(Entry::activated(session, user, role))
            }
            ClientEvent::DropRole {
                session,
                user,
                role,
            } => {
                self.sessions.drop_role(session, user, role)?;
                Ok(Entry::dropped(session, user, role))
            }
            ClientEvent::Close { session, user } => {
                self.sessions.close(session, user)?;
                Ok(Entry::closed(session, user))
            }
        }
    }

    /// The decision on an access. It takes no memory.
    pub(crate) fn check(&mut self, session: u64, user: u32, operation: u16, object: u32) -> Verdict
        requires { KeptAreRight (relations_of self.old.policy) self.old.sessions }
        ensures verdict { (roles : Table) (history : List Event) → IsStateAfter roles history self.old →
            result ≡ verdict_at roles history session user operation object }
        ensures stays { Stays self.old self.new }
    {
        self.sessions
            .check(&self.policy, session, user, operation, object)
    }

    /// The decision on an access in which just these roles would be active. It takes no memory.
    pub(crate) fn decide(&self, user: u32, active: &[u16], operation: u16, object: u32) -> Verdict
        ensures { (roles : Table) (history : List Event) → IsStateAfter roles history self.now →
            result ≡ decided_at roles history active.now user operation object }
    {
        decide(&self.policy, user, active, operation, object)
    }

    /// The answer to a question.
    pub(crate) fn ask(&mut self, question: Question) -> Result<Answer, AskFault>
        requires { KeptAreRight (relations_of self.old.policy) self.old.sessions }
        ensures due { IsAsked (ask_due self.old.sessions.state question) question result }
        ensures answer { IfOk result (IsAnswerUnder (relations_of self.old.policy) self.old.sessions.state question) }
        ensures stays { Stays self.old self.new }
    {
        match question {
            Question::Check {
                session,
                user,
                operation,
                object,
            } => Ok(Answer::Verdict(
                self.sessions
                    .check(&self.policy, session, user, operation, object),
            )),
            Question::AssignedUsers(role) => {
                Ok(Answer::Users(Items::new(self.policy.assigned_users(role)?)))
            }
            Question::AssignedRoles(user) => {
                Ok(Answer::Roles(Items::new(self.policy.assigned_roles(user)?)))
            }
            Question::RolePermissions(role) => Ok(Answer::Permissions(Items::new(
                self.policy.role_permissions(role)?,
            ))),
            Question::UserPermissions(user) => Ok(Answer::Permissions(Items::new(
                self.policy.user_permissions(user)?,
            ))),
            Question::RoleOperations { role, object } => Ok(Answer::Operations(Items::new(
                self.policy.role_operations(role, object)?,
            ))),
            Question::UserOperations { user, object } => Ok(Answer::Operations(Items::new(
                self.policy.user_operations(user, object)?,
            ))),
            Question::SessionRoles(session) => self.session_roles(session),
            Question::SessionPermissions(session) => self.session_permissions(session),
        }
    }

    /// The answer to the question which roles count in the session.
    fn session_roles(&self, session: u64) -> Result<Answer, AskFault>
        ensures due { let question = SessionRoles session in
            IsAsked (ask_due self.now.sessions.state question) question result }
        ensures answer { IfOk result
            (IsAnswerUnder (relations_of self.now.policy) self.now.sessions.state (SessionRoles session)) }
    {
        match self.sessions.session_roles(&self.policy, session) {
            Ok(roles) => Ok(Answer::Roles(Items::new(roles))),
            Err(fault) => Err(listing_fault(fault)),
        }
    }

    /// The answer to the question what some role may do that counts in the session.
    fn session_permissions(&self, session: u64) -> Result<Answer, AskFault>
        ensures due { let question = SessionPermissions session in
            IsAsked (ask_due self.now.sessions.state question) question result }
        ensures answer { IfOk result
            (IsAnswerUnder (relations_of self.now.policy) self.now.sessions.state (SessionPermissions session)) }
    {
        match self.sessions.session_permissions(&self.policy, session) {
            Ok(permissions) => Ok(Answer::Permissions(Items::new(permissions))),
            Err(fault) => Err(listing_fault(fault)),
        }
    }

    /// What was sent to all at a place of the owner's stream.
    pub(crate) fn again(&self, me: NodeName, owner: NodeName, place: Place) -> NodeAgain
        requires { owner < self.now.streams.sizes.nodes }
        ensures { (roles : Table) (history : List Event) → IsStateAfter roles history self.now →
            result ≡ sent_at roles.sizes me history owner place }
    {
        let again = self.streams.again(owner, place);
        let send = if owner == me {
            self.issued.get(place as usize).copied()
        } else {
            None
        };
        NodeAgain {
            send,
            echo: again.echo,
            ready: again.ready,
        }
    }
}

/// The fault of an act that counts, which is want of memory.
fn want_of_memory(_fault: NodeFault) -> AllocError
    requires { _fault ≡ NodeFault.Memory }
{
    AllocError
}

/// The fault of a listing: that its session is not open, or else want of memory.
fn listing_fault(fault: SessionFault) -> AskFault
    ensures { result ≡ of_listing_fault fault }
{
    match fault {
        SessionFault::NoSession => AskFault::NoSession,
        _ => AskFault::Memory,
    }
}

/// Applies the commands of the owner's stream from the place `from` up to, not including, `to`.
fn obey(policy: &mut Policy, streams: &Streams, owner: NodeName, from: u32, to: u32)
    requires owner { owner < streams.now.sizes.nodes }
    requires onward { from ≤ to }
    requires bound { to ≤ place_count }
    requires room { to ≤ from + policy.old.room }
    ensures policy { (taken : List PacketValue) → IsStateOf streams.now taken →
        IsPolicyOf (obeyed streams.now.sizes taken owner from) policy.old →
        IsPolicyOf (obeyed streams.now.sizes taken owner to) policy.new }
    ensures table { policy.new.table ≡ policy.old.table }
{
    for place in from..to {
        if let Some(command) = streams.command(owner, place) {
            policy.apply(owner, command);
        }
    }
}

/// Has the sessions forget the answers that they remember: whatever the relations are now, none of them is wrong.
fn forget_answers(sessions: &mut Sessions)
    ensures state { sessions.new.state ≡ sessions.old.state }
    ensures kept { (relations : Relations) → KeptAreRight relations sessions.new }
{
    sessions.forget();
}
