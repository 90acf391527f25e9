//! Messages of the pool, given node by node: each node takes many while it is at hand, and what came of them is put
//! into the order of the packets afterwards.

ghost use Rattle.std.specs.Prelude.{◌≡◌, ◌+◌, ◌*◌, ◌<◌, ◌≤◌, [], ◌++◌, length, drop, slice_get};
ghost use Rattle.std.specs.Prelude.{IfOk, IsTrue, OnOk, OnErr, Some, None};
ghost use Rattle.std.specs.Vec.{vec_len, vec_capacity};
ghost use Rattle.byz_world.specs.inside.Blocks.{kind_of, mark_due, mark_of, after_take, taken, TookSome};
ghost use Rattle.byz_world.specs.inside.Blocks.{GaveSome, AreGiven, counts_at, wants, MayWant, SomeMayWant};
ghost use Rattle.byz_world.specs.inside.Kept.{member_in};
ghost use Rattle.byz_world.specs.inside.Blocks.{noted_names, noted_messages, mark_of_row, row_names, row_messages};
ghost use Rattle.byz_world.specs.inside.Blocks.{block_most, block_names, block_messages};
ghost use Rattle.byz_world.specs.declared.block.Mark.TheVariants.{Counted};

use bracha_instance::Effect;
use link_frames::{Kind, Message, Packet};
use quorum_sizes::{NodeName, Sizes};
use role_node::{Event, Node};
use std::alloc::AllocError;

/// What came of a message at a node.
#[derive(Clone, Copy)]
pub(crate) enum Mark {
    /// It did not count.
    Passed,
    /// It counted, and the node sends a message of this kind, if any.
    Counted(Option<Kind>),
}

/// The kind of a message, if there is one.
#[inline(always)]
fn kind_of(message: Option<Message>) -> Option<Kind>
    ensures { result ≡ kind_of message }
{
    match message {
        Some(message) => Some(message.kind),
        None => None,
    }
}

/// Has a node take a packet, if it counts there.
#[inline(always)]
fn take_packet(node: &mut Node, packet: Packet) -> Result<Mark, AllocError>
    ensures node { OnOk result (node.new ≡ taken node.old (Some packet)) }
    ensures mark { IfOk result (λ mark. mark ≡ mark_of node.old (Some packet)) }
    ensures err { OnErr result (node.new ≡ node.old) }
    ensures memory { OnErr result (IsTrue (counts_at node.old packet)) }
{
    let event = Event::Take(packet);
    match node.look(&event) {
        Ok(Effect::Counted) => {
            let entry = node.record(&event)?;
            Ok(Mark::Counted(kind_of(entry.reply().message())))
        }
        Ok(Effect::Idle) | Err(_) => Ok(Mark::Passed),
    }
}

/// Has a node take a message, if it counts there.
#[inline(always)]
fn take_message(node: &mut Node, sent: &(NodeName, Message)) -> Result<Mark, AllocError>
    ensures node { OnOk result (node.new ≡ after_take node.old sent.now) }
    ensures mark { IfOk result (λ mark. mark ≡ mark_due node.old sent.now) }
    ensures err { OnErr result (node.new ≡ node.old) }
    ensures memory { OnErr result (IsTrue (wants node.old sent.now)) }
{
    match Packet::new(sent.0, node.me(), sent.1) {
        Some(packet) => take_packet(node, packet),
        None => Ok(Mark::Passed),
    }
}

/// Has a node take messages, one after another, and marks what came of each, where there is room.
#[inline(never)]
fn take_messages(
    node: &mut Node,
    sent: &[(NodeName, Message)],
    marks: &mut Vec<Mark>,
) -> Result<(), AllocError>
    requires { vec_len marks.old + length sent.now ≤ vec_capacity marks.old }
    ensures some { TookSome (Some node.old) (Some node.new) sent.now marks.old.items marks.new.items }
    ensures all { OnOk result (length marks.new.items ≡ length marks.old.items + length sent.now) }
    ensures memory { OnErr result (MayWant (Some node.new) sent.now) }
    ensures room { vec_capacity marks.new ≡ vec_capacity marks.old }
{
    for one in sent {
        let mark = take_message(node, one)?;
        marks.push_reserved(mark);
    }
    Ok(())
}

/// Marks that messages went to a liar, where there is room.
fn pass_messages(sent: &[(NodeName, Message)], marks: &mut Vec<Mark>)
    requires { vec_len marks.old + length sent.now ≤ vec_capacity marks.old }
    ensures some { TookSome None None sent.now marks.old.items marks.new.items }
    ensures all { length marks.new.items ≡ length marks.old.items + length sent.now }
    ensures room { vec_capacity marks.new ≡ vec_capacity marks.old }
{
    for one in sent {
        let _sent = one;
        marks.push_reserved(Mark::Passed);
    }
}

/// Gives messages to the member of this name, where there is room for the marks.
fn give_to(
    members: &mut Vec<Option<Node>>,
    name: usize,
    sent: &[(NodeName, Message)],
    marks: &mut Vec<Mark>,
) -> Result<(), AllocError>
    requires name { name < length members.old.items }
    requires room { vec_len marks.old + length sent.now ≤ vec_capacity marks.old }
    ensures some { GaveSome members.old.items members.new.items name sent.now marks.old.items marks.new.items }
    ensures all { OnOk result (length marks.new.items ≡ length marks.old.items + length sent.now) }
    ensures memory { OnErr result (MayWant (member_in members.new.items name) sent.now) }
    ensures room { vec_capacity marks.new ≡ vec_capacity marks.old }
{
    match &mut members[name] {
        Some(node) => take_messages(node, sent, marks),
        None => {
            pass_messages(sent, marks);
            Ok(())
        }
    }
}

/// Makes room for what so many packets may cause, and for their marks, if there is memory for it.
pub(crate) fn make_room(
    order: &mut Vec<NodeName>,
    sent: &mut Vec<(NodeName, Message)>,
    marks: &mut Vec<Mark>,
    packets: usize,
) -> Result<(), AllocError>
    ensures order { order.new.items ≡ order.old.items }
    ensures sent { sent.new.items ≡ sent.old.items }
    ensures marks { marks.new.items ≡ marks.old.items }
    ensures order_room { OnOk result (vec_len order.new + packets ≤ vec_capacity order.new) }
    ensures sent_room { OnOk result (vec_len sent.new + packets ≤ vec_capacity sent.new) }
    ensures marks_room { OnOk result (vec_len marks.new + packets ≤ vec_capacity marks.new) }
{
    order.try_reserve(packets)?;
    sent.try_reserve(packets)?;
    marks.try_reserve(packets)
}

/// Gives messages to each member, and marks what came of them, where there is room.
///
/// # Errors
///
/// Only for want of memory, where a member would record one of them.
pub(crate) fn give_to_each(
    members: &mut Vec<Option<Node>>,
    sent: &[(NodeName, Message)],
    marks: &mut Vec<Mark>,
) -> Result<(), AllocError>
    requires none { marks.old.items ≡ [] }
    requires room { length members.old.items * length sent.now ≤ vec_capacity marks.old }
    ensures given { AreGiven members.old.items members.new.items sent.now marks.new.items }
    ensures all { OnOk result (length marks.new.items ≡ length members.old.items * length sent.now) }
    ensures memory { OnErr result (SomeMayWant members.new.items sent.now) }
{
    for name in 0..members.len() {
        give_to(members, name, sent, marks)?;
    }
    Ok(())
}

/// Notes who recorded a message, and what it sends then, where there is room.
#[inline(always)]
pub(crate) fn note_mark(
    order: &mut Vec<NodeName>,
    sent: &mut Vec<(NodeName, Message)>,
    name: NodeName,
    message: &Message,
    mark: Option<Mark>,
)
    requires order { vec_len order.old < vec_capacity order.old }
    requires sent { vec_len sent.old < vec_capacity sent.old }
    ensures order { order.new.items ≡ order.old.items ++ noted_names name mark }
    ensures sent { sent.new.items ≡ sent.old.items ++ noted_messages name message.now mark }
    ensures order_room { vec_capacity order.new ≡ vec_capacity order.old }
    ensures sent_room { vec_capacity sent.new ≡ vec_capacity sent.old }
{
    if let Some(Mark::Counted(kind)) = mark {
        order.push_reserved(name);
        note_kind(sent, name, message, kind);
    }
}

/// Notes the message of this kind that a node sends, if any, where there is room.
#[inline(always)]
fn note_kind(
    sent: &mut Vec<(NodeName, Message)>,
    name: NodeName,
    message: &Message,
    kind: Option<Kind>,
)
    requires { vec_len sent.old < vec_capacity sent.old }
    ensures sent { sent.new.items ≡ sent.old.items ++ noted_messages name message.now (Some (Counted kind)) }
    ensures room { vec_capacity sent.new ≡ vec_capacity sent.old }
{
    if let Some(kind) = kind {
        sent.push_reserved((
            name,
            Message {
                kind,
                owner: message.owner,
                place: message.place,
                command: message.command,
            },
        ));
    }
}

/// The mark at this place, if there is one.
#[inline(always)]
fn mark_at(marks: &[Mark], at: usize) -> Option<Mark>
    ensures { result ≡ slice_get marks.now at }
{
    marks.get(at).copied()
}

/// Notes what came of message `number` of a block at each node, in the order of their names, where there is room.
fn note_message(
    order: &mut Vec<NodeName>,
    sent: &mut Vec<(NodeName, Message)>,
    sizes: &Sizes,
    message: &Message,
    marks: &[Mark],
    block: (usize, usize),
)
    requires small { block.0 ≤ block_most }
    requires number { block.1 < block.0 }
    requires order { vec_len order.old + sizes.now.nodes ≤ vec_capacity order.old }
    requires sent { vec_len sent.old + sizes.now.nodes ≤ vec_capacity sent.old }
    ensures order { order.new.items ≡ order.old.items
        ++ row_names (mark_of_row marks.now block.0 block.1) sizes.now.nodes }
    ensures sent { sent.new.items ≡ sent.old.items
        ++ row_messages (mark_of_row marks.now block.0 block.1) message.now sizes.now.nodes }
    ensures order_room { vec_capacity order.new ≡ vec_capacity order.old }
    ensures sent_room { vec_capacity sent.new ≡ vec_capacity sent.old }
{
    let (count, number) = block;
    for index in 0..sizes.n() {
        let name = sizes.name(index).unwrap();
        let mark = mark_at(marks, usize::from(index) * count + number);
        note_mark(order, sent, name, message, mark);
    }
}

/// Notes what came of a block of messages, message by message, where there is room.
pub(crate) fn note_block(
    order: &mut Vec<NodeName>,
    sent: &mut Vec<(NodeName, Message)>,
    sizes: &Sizes,
    first: usize,
    count: usize,
    marks: &[Mark],
)
    requires small { count ≤ block_most }
    requires within { first + count ≤ length sent.old.items }
    requires order { vec_len order.old + count * sizes.now.nodes ≤ vec_capacity order.old }
    requires sent { vec_len sent.old + count * sizes.now.nodes ≤ vec_capacity sent.old }
    ensures order { order.new.items ≡ order.old.items ++ block_names marks.now count sizes.now.nodes count }
    ensures sent { sent.new.items ≡ sent.old.items
        ++ block_messages marks.now (drop first sent.old.items) count sizes.now.nodes count }
{
    for number in 0..count {
        let (_, message) = sent[first + number];
        note_message(order, sent, sizes, &message, marks, (count, number));
    }
}
