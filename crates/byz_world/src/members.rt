//! The correct nodes of a world.

ghost use Rattle.std.specs.Prelude.{◌≡◌, ◌<◌, ℕ, Some, Ok, Err, OnErr, IfOk};
ghost use Rattle.std.specs.Prelude.{IsSome, OnOk, map, slice_set, if◌then◌else◌};
ghost use Rattle.std.specs.Option.{option_copied};
ghost use Rattle.std.specs.List.{range_with_len};
ghost use Rattle.bracha_instance.specs.Broadcast.{is_for};
ghost use Rattle.bracha_instance.specs.declared.instance.Effect.TheVariants.{Counted};
ghost use Rattle.role_node.specs.Access.{sent_at, sessions_at, verdict_at};
ghost use Rattle.role_node.specs.Listed.{IsWithin};
ghost use Rattle.role_node.specs.Questions.{ask_due, IsAsked, IsAnswerTo};
ghost use Rattle.role_node.specs.Answers.{outlook, reply_to};
ghost use Rattle.role_node.specs.Nodes.{NodeValue, with_event};
ghost use Rattle.byz_world.specs.Runs.{of_kind};
ghost use Rattle.byz_world.specs.inside.Kept.{member_in, has_taken, has_taken_all};
ghost use Rattle.byz_world.specs.Worlds.{new_world, node_due};

use bracha_instance::Effect;
use link_frames::{Kind, Message, Packet};
use quorum_sizes::{NodeName, NodeSet};
use role_node::{Answer, AskFault, Config, Entry, Event, Node, Question};
use role_sessions::Verdict;
use std::alloc::{AllocError, Global};

/// The nodes of a cluster by their names, none for a liar, before anything happens.
pub(crate) fn new_members(
    alloc: Global,
    config: &Config,
    liars: &NodeSet,
) -> Result<Vec<Option<Node>>, AllocError>
    ensures { IfOk result (λ members. members.items ≡
        map (node_due (new_world config.now liars.now)) (range_with_len 0 config.now.roles.sizes.nodes)) }
{
    let sizes = config.roles().sizes();
    let mut members = Vec::new(alloc);
    for index in 0..sizes.n() {
        let name = sizes.name(index).unwrap();
        members.push(new_member(alloc, config, liars, name)?)?;
    }
    Ok(members)
}

fn new_member(
    alloc: Global,
    config: &Config,
    liars: &NodeSet,
    name: NodeName,
) -> Result<Option<Node>, AllocError>
    requires { name < config.now.roles.sizes.nodes }
    ensures { IfOk result (λ member. member ≡ node_due (new_world config.now liars.now) name) }
{
    if liars.contains(name) {
        return Ok(None);
    }
    Ok(Some(Node::new(alloc, config.copy(alloc)?, name)?))
}

/// The node of this name, if it does not lie.
#[inline(always)]
pub(crate) fn member(members: &[Option<Node>], name: NodeName) -> Option<&Node>
    ensures { option_copied result ≡ member_in members.now name }
{
    match members.get(usize::from(name.index())) {
        Some(Some(node)) => Some(node),
        Some(None) | None => None,
    }
}

/// Has a node record an event that counts there.
#[inline(always)]
pub(crate) fn record_at(
    members: &mut Vec<Option<Node>>,
    name: NodeName,
    event: &Event,
) -> Result<Entry, AllocError>
    requires member { IsSome (member_in members.old.items name) }
    requires counts { (node : NodeValue) → member_in members.old.items name ≡ Some node →
        outlook node.config node.me node.history event.now ≡ Ok Counted }
    ensures reply { (node : NodeValue) → member_in members.old.items name ≡ Some node →
        IfOk result (λ entry. entry.reply ≡ reply_to node.config.roles node.me node.history event.now) }
    ensures ok { (node : NodeValue) → member_in members.old.items name ≡ Some node →
        OnOk result (members.new.items ≡
        slice_set members.old.items name (Some (with_event node event.now))) }
    ensures err { OnErr result (members.new.items ≡ members.old.items) }
{
    match &mut members[usize::from(name.index())] {
        Some(node) => node.record(event),
        None => unreachable!(),
    }
}

/// The answer of a node to a question.
pub(crate) fn ask_at(
    members: &mut [Option<Node>],
    name: NodeName,
    question: Question,
) -> Result<Answer, AskFault>
    requires { IsSome (member_in members.old name) }
    ensures due { (node : NodeValue) → member_in members.old name ≡ Some node →
        IsAsked (ask_due (sessions_at node.history) question) question result }
    ensures answer { (node : NodeValue) → member_in members.old name ≡ Some node →
        IfOk result (IsAnswerTo node.config.roles node.history question) }
    ensures within { IfOk result IsWithin }
    ensures same { members.new ≡ members.old }
{
    match &mut members[usize::from(name.index())] {
        Some(node) => node.ask(question),
        None => unreachable!(),
    }
}

/// The decision of a node on an access.
pub(crate) fn check_at(
    members: &mut [Option<Node>],
    name: NodeName,
    session: u64,
    user: u32,
    operation: u16,
    object: u32,
) -> Verdict
    requires { IsSome (member_in members.old name) }
    ensures verdict { (node : NodeValue) → member_in members.old name ≡ Some node →
        result ≡ verdict_at node.config.roles node.history session user operation object }
    ensures same { members.new ≡ members.old }
{
    match &mut members[usize::from(name.index())] {
        Some(node) => node.check(session, user, operation, object),
        None => unreachable!(),
    }
}

/// Whether the node has taken all that was sent to it, the last message first: where it lacks something it mostly lacks
/// that. A liar need not.
pub(crate) fn has_taken_all(member: &Option<Node>, sent: &[(NodeName, Message)]) -> bool
    ensures { result ≡ has_taken_all sent.now member.now }
{
    let Some(node) = member else {
        return true;
    };
    match sent.split_last() {
        Some((last, others)) => {
            has_taken(node, last) && others.iter().all(|one| has_taken(node, one))
        }
        None => true,
    }
}

/// Whether the node has taken a message to all: its packet changes nothing there.
#[inline(always)]
fn has_taken(node: &Node, sent: &(NodeName, Message)) -> bool
    ensures { result ≡ has_taken node.now sent.now }
{
    let (from, message) = sent;
    match Packet::new(*from, node.me(), *message) {
        Some(packet) => matches!(node.look(&Event::Take(packet)), Ok(Effect::Idle)),
        None => false,
    }
}

/// Whether the node has sent this message to all. Its owner must be of the node's sizes.
pub(crate) fn has_sent(node: &Node, message: &Message) -> bool
    requires { message.now.owner < node.now.config.roles.sizes.nodes }
    ensures { result ≡ is_for message.now.command (of_kind message.now.kind
        (sent_at node.now.config.roles.sizes node.now.me node.now.history message.now.owner message.now.place)) }
{
    let again = node.again(message.owner, message.place);
    let said = match message.kind {
        Kind::Send => again.send,
        Kind::Echo => again.echo,
        Kind::Ready => again.ready,
    };
    match said {
        Some(command) => message.command.is_same(&command),
        None => false,
    }
}
