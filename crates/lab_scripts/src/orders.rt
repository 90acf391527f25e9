//! The lines of a script of a cluster.

ghost use Rattle.std.specs.Prelude.{◌≡◌, ◌<◌, IfOk, IfSome, OnErr};
ghost use Rattle.byz_world.specs.declared.step.Step.TheVariants.{Client};
ghost use Rattle.lab_scripts.specs.Orders as reading;
ghost use Rattle.lab_scripts.specs.inside.Kept.{IsWithinSizes, NamesBytes, packet_given};
ghost use Rattle.lab_scripts.specs.inside.Kept as inside;

use crate::fields::{
    bytes_of, kind_then, narrow_then, node_number, node_then, session_then, wide_then,
};
use crate::grammar::sizes_of_numbers;
use crate::questions::{access_of, listing_of};
use byz_world::Step;
use link_frames::{Message, Packet};
use quorum_sizes::{NodeName, Sizes};
use role_commands::numbers::{byte_number, narrow_number, split_word, wide_number};
use role_commands::parse_command;
use role_node::{ClientEvent, Question};
use std::alloc::{AllocError, Global};

/// What a line says of a cluster before anything happens in it.
#[derive(Clone, Copy)]
pub enum SetupLine {
    /// A role, and its owner, which need not be a node.
    Owned { role: u16, owner: u8 },
    /// A node that lies.
    Liar(NodeName),
}

/// What a later line asks.
#[derive(Drop)]
pub enum ScriptLine {
    /// That this happens to the cluster.
    Do(Step),
    /// That all packets that wait are given.
    Flush,
    /// That packets are given, pass after pass, until a pass records nothing.
    Settle,
    /// Whether the cluster is at rest.
    Rest,
    /// A decision or a review of a node.
    Ask {
        node: NodeName,
        question: Question,
    },
    /// How far this owner's stream reaches at a node.
    Reach {
        node: NodeName,
        owner: NodeName,
    },
    /// How far this owner's streams at two nodes agree.
    Agree {
        one: NodeName,
        other: NodeName,
        owner: NodeName,
    },
}

/// The number of the packet that a step gives.
pub fn packet_of(step: &Step) -> Option<u32>
    ensures { result ≡ packet_given step.now }
{
    match step {
        Step::Give { packet } => Some(*packet),
        Step::Issue { .. } | Step::Lie { .. } | Step::Bytes { .. } | Step::Client { .. } => None,
    }
}

/// The sizes that a first line names, as `cluster N F`.
#[tactic(auto, unfolding(crate::specs::Orders::cluster_of_line))]
pub fn cluster_of_line(line: &str) -> Option<Sizes>
    ensures { result ≡ reading.cluster_of_line line.now }
{
    let (name, numbers) = split_word(line)?;
    if name == "cluster" {
        sizes_of_numbers(numbers)
    } else {
        None
    }
}

/// What a line says before anything happens, as `role R OWNER` or `liar I`.
#[tactic(auto, unfolding(crate::specs::Orders::setup_of_line))]
pub fn setup_of_line(sizes: &Sizes, line: &str) -> Option<SetupLine>
    ensures { result ≡ reading.setup_of_line sizes.now line.now }
{
    let (name, text) = split_word(line)?;
    named_setup(sizes, name, text)
}

#[tactic(auto, unfolding(crate::specs::Orders::named_setup))]
fn named_setup(sizes: &Sizes, name: &str, text: &str) -> Option<SetupLine>
    ensures { result ≡ reading.named_setup sizes.now name.now text.now }
{
    match name {
        "role" => role_and_owner(text),
        "liar" => Some(SetupLine::Liar(node_number(sizes, text)?)),
        _ => None,
    }
}

#[tactic(auto, unfolding(crate::specs::Orders::role_and_owner))]
fn role_and_owner(text: &str) -> Option<SetupLine>
    ensures { result ≡ reading.role_and_owner text.now }
{
    let (role, text) = narrow_then(text)?;
    let owner = byte_number(text)?;
    Some(SetupLine::Owned { role, owner })
}

/// What a later line asks.
///
/// # Errors
///
/// Only for want of memory, at a line with bytes.
#[tactic(auto, unfolding(crate::specs::Orders::order_of_line))]
pub fn order_of_line(
    alloc: Global,
    sizes: &Sizes,
    line: &str,
) -> Result<Option<ScriptLine>, AllocError>
    ensures value { IfOk result (λ order. order ≡ reading.order_of_line sizes.now line.now) }
    ensures within { IfOk result (λ order. IfSome order (IsWithinSizes sizes.now)) }
    ensures memory { OnErr result (NamesBytes line.now) }
{
    if line == "flush" {
        return Ok(Some(ScriptLine::Flush));
    }
    if line == "settle" {
        return Ok(Some(ScriptLine::Settle));
    }
    if line == "rest" {
        return Ok(Some(ScriptLine::Rest));
    }
    let Some((name, text)) = split_word(line) else {
        return Ok(None);
    };
    if name == "bytes" {
        bytes_order(alloc, sizes, text)
    } else {
        Ok(named_order(sizes, name, text))
    }
}

#[tactic(auto, unfolding(crate::specs::Orders::bytes_order))]
fn bytes_order(alloc: Global, sizes: &Sizes, text: &str) -> Result<Option<ScriptLine>, AllocError>
    ensures value { IfOk result (λ order. order ≡ reading.bytes_order sizes.now text.now) }
    ensures within { IfOk result (λ order. IfSome order (IsWithinSizes sizes.now)) }
{
    let Some((to, word)) = node_then(sizes, text) else {
        return Ok(None);
    };
    let Some(bytes) = bytes_of(alloc, word)? else {
        return Ok(None);
    };
    Ok(Some(ScriptLine::Do(Step::Bytes { to, bytes })))
}

#[tactic(auto, unfolding(crate::specs::Orders::named_order))]
fn named_order(sizes: &Sizes, name: &str, text: &str) -> Option<ScriptLine>
    ensures value { result ≡ reading.named_order sizes.now name.now text.now }
    ensures within { IfSome result (IsWithinSizes sizes.now) }
{
    match name {
        "give" => {
            let packet = wide_number(text)?;
            Some(ScriptLine::Do(Step::Give { packet }))
        }
        "lie" => {
            let packet = lie_of(sizes, text)?;
            Some(ScriptLine::Do(Step::Lie { packet }))
        }
        _ => order_of_node(sizes, name, text),
    }
}

#[tactic(auto, unfolding(crate::specs::Orders::order_of_node, crate::specs::Orders::then_rest))]
fn order_of_node(sizes: &Sizes, name: &str, text: &str) -> Option<ScriptLine>
    ensures value { result ≡ reading.order_of_node sizes.now name.now text.now }
    ensures within { IfSome result (IsWithinSizes sizes.now) }
{
    let (word, text) = split_word(text)?;
    let node = node_number(sizes, word)?;
    order_at_node(sizes, name, node, text)
}

#[tactic(auto, unfolding(crate::specs::Orders::order_at_node, crate::specs::inside::Kept::question_at_node))]
fn order_at_node(sizes: &Sizes, name: &str, node: NodeName, text: &str) -> Option<ScriptLine>
    ensures value { result ≡ reading.order_at_node sizes.now name.now node text.now }
    ensures within { IfSome result (IsWithinSizes sizes.now) }
{
    match name {
        "issue" => {
            let command = parse_command(text)?;
            Some(ScriptLine::Do(Step::Issue { node, command }))
        }
        "open" => {
            let user = wide_number(text)?;
            Some(acted(node, ClientEvent::Open { user }))
        }
        "activate" => {
            let (session, user, role) = session_user_and_role(text)?;
            Some(acted(
                node,
                ClientEvent::Activate {
                    session,
                    user,
                    role,
                },
            ))
        }
        "drop" => {
            let (session, user, role) = session_user_and_role(text)?;
            Some(acted(
                node,
                ClientEvent::DropRole {
                    session,
                    user,
                    role,
                },
            ))
        }
        "close" => {
            let (session, user) = session_and_user(text)?;
            Some(acted(node, ClientEvent::Close { session, user }))
        }
        _ => question_at_node(sizes, name, node, text),
    }
}

/// What is asked at a node.
#[tactic(auto, unfolding(crate::specs::inside::Kept::question_at_node))]
fn question_at_node(sizes: &Sizes, name: &str, node: NodeName, text: &str) -> Option<ScriptLine>
    ensures value { result ≡ inside.question_at_node sizes.now name.now node text.now }
    ensures within { IfSome result (IsWithinSizes sizes.now) }
{
    match name {
        "check" => {
            let question = access_of(text)?;
            Some(ScriptLine::Ask { node, question })
        }
        "list" => {
            let question = listing_of(text)?;
            Some(ScriptLine::Ask { node, question })
        }
        "reach" => {
            let owner = node_number(sizes, text)?;
            Some(ScriptLine::Reach { node, owner })
        }
        "agree" => agreement_of(sizes, node, text),
        _ => None,
    }
}

/// What a client does at a node.
fn acted(node: NodeName, event: ClientEvent) -> ScriptLine
    ensures { result ≡ ScriptLine.Do (Client node event) }
{
    ScriptLine::Do(Step::Client { node, event })
}

#[tactic(auto, unfolding(crate::specs::Orders::agreement_of, crate::specs::Orders::then_rest))]
fn agreement_of(sizes: &Sizes, one: NodeName, text: &str) -> Option<ScriptLine>
    ensures value { result ≡ reading.agreement_of sizes.now one text.now }
    ensures within { IfSome result (IsWithinSizes sizes.now) }
{
    let (word, text) = split_word(text)?;
    let other = node_number(sizes, word)?;
    let owner = node_number(sizes, text)?;
    Some(ScriptLine::Agree { one, other, owner })
}

#[tactic(auto, unfolding(crate::specs::Orders::lie_of, crate::specs::Orders::then_rest))]
fn lie_of(sizes: &Sizes, text: &str) -> Option<Packet>
    ensures { result ≡ reading.lie_of sizes.now text.now }
{
    let (kind, text) = kind_then(text)?;
    let (word, text) = split_word(text)?;
    let from = node_number(sizes, word)?;
    let (word, text) = split_word(text)?;
    let to = node_number(sizes, word)?;
    let (word, text) = split_word(text)?;
    let owner = node_number(sizes, word)?;
    let (place, text) = wide_then(text)?;
    let command = parse_command(text)?;
    let message = Message {
        kind,
        owner,
        place,
        command,
    };
    Packet::new(from, to, message)
}

#[tactic(auto, unfolding(crate::specs::Orders::session_and_user))]
fn session_and_user(text: &str) -> Option<(u64, u32)>
    ensures { result ≡ reading.session_and_user text.now }
{
    let (session, text) = session_then(text)?;
    let user = wide_number(text)?;
    Some((session, user))
}

#[tactic(auto, unfolding(crate::specs::Orders::session_user_and_role))]
fn session_user_and_role(text: &str) -> Option<(u64, u32, u16)>
    ensures { result ≡ reading.session_user_and_role text.now }
{
    let (session, text) = session_then(text)?;
    let (user, text) = wide_then(text)?;
    let role = narrow_number(text)?;
    Some((session, user, role))
}
