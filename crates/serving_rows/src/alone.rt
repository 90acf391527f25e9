//! Rows of what an operator asks of a node that is alone.

ghost use Rattle.std.specs.Prelude.{◌≡◌, [], IfOk};

use link_frames::{Message, Packet};
use operator_lines::{
    Access, Decision, command_at, decision_of, role_lists, sessions_of, standing_of,
};
use owner_shares::Shares;
use quorum_sizes::{NodeName, Sizes};
use role_commands::{RoleTable, TableFault};
use role_node::{ClientEvent, Config, Event, Node, NodeFault};
use role_sessions::Verdict;
use row_words::{OrNone, RowFault, Spelled, Words, list_text, text_of};
use std::alloc::Global;
use std::fmt;
use std::fmt::Display;

/// `alone LIMIT ROLE`: the only node of its cluster, which records so many events and owns this role.
pub fn begin(alloc: Global, words: &mut Words<'_>) -> Result<Node, RowFault> {
    let limit = words.wide()?;
    node_of(alloc, limit, words.narrow()?)
}

/// A node that has recorded nothing.
pub fn node_of(alloc: Global, limit: u32, role: u16) -> Result<Node, RowFault>
    ensures { IfOk result (λ node. node.history ≡ []) }
{
    let config = config_of(alloc, limit, role)?;
    let me = config.roles().sizes().name(0).ok_or(RowFault::BadRow)?;
    if !config.roles().sizes().has(me) {
        return Err(RowFault::BadRow);
    }
    Ok(Node::new(alloc, config, me)?)
}

fn config_of(alloc: Global, limit: u32, role: u16) -> Result<Config, RowFault> {
    let sizes = Sizes::new(1, 0).map_err(|_| RowFault::BadRow)?;
    let mut table = RoleTable::new(alloc, sizes);
    match table.add(role, 0) {
        Ok(()) => Config::new(1, table, limit).ok_or(RowFault::BadRow),
        Err(TableFault::Memory) => Err(RowFault::Memory),
        Err(_) => Err(RowFault::BadRow),
    }
}

pub fn answer(alloc: Global, node: &mut Node, line: &str) -> Result<String, RowFault> {
    let mut words = Words::new(line);
    match words.word() {
        "issue" => apply(alloc, node, Event::Issue(words.command()?)),
        "take" => take(alloc, node, &mut words),
        "open-each" => open_each(alloc, node, &mut words),
        "standing" => standing(alloc, node),
        "shares" => shares(alloc, node),
        "open-sessions" => sessions(alloc, node, &mut words),
        "command" => command(alloc, node, &mut words),
        "decide" => decide(alloc, node, &mut words),
        _ => Err(RowFault::BadRow),
    }
}

/// Some numbers that tell whether anything has changed.
pub fn seen(node: &Node) -> [u64; 3] {
    [u64::from(node.events()), 0, 0]
}

/// `issue COMMAND`, and what else the node records: `ok`, or the refusal.
fn apply(alloc: Global, node: &mut Node, event: Event) -> Result<String, RowFault> {
    match node.apply(event) {
        Ok(_) => text_of(alloc, &"ok"),
        Err(NodeFault::Memory) => Err(RowFault::Memory),
        Err(fault) => text_of(alloc, &fault),
    }
}

/// `take KIND PLACE COMMAND`: the node's own message.
fn take(alloc: Global, node: &mut Node, words: &mut Words<'_>) -> Result<String, RowFault> {
    let packet = own_packet(node.me(), words)?;
    apply(alloc, node, Event::Take(packet))
}

/// The packet of a node to itself that all that is left spells, as `KIND PLACE COMMAND`.
pub fn own_packet(me: NodeName, words: &mut Words<'_>) -> Result<Packet, RowFault> {
    let message = Message {
        kind: words.kind()?,
        owner: me,
        place: words.wide()?,
        command: words.command()?,
    };
    Packet::new(me, me, message).ok_or(RowFault::BadRow)
}

/// `open-each FIRST END`: a session of each user from the first on and before another.
fn open_each(alloc: Global, node: &mut Node, words: &mut Words<'_>) -> Result<String, RowFault> {
    let first = words.wide()?;
    for user in first..words.wide()? {
        apply(alloc, node, Event::Client(ClientEvent::Open { user }))?;
    }
    text_of(alloc, &"ok")
}

/// `standing`: how the node stands.
fn standing(alloc: Global, node: &Node) -> Result<String, RowFault> {
    let standing = standing_of(alloc, node, None)?;
    let reaches = list_text(alloc, standing.reaches.as_slice())?;
    let (at, limit) = (standing.at, standing.limit);
    let (published, sessions) = (standing.published, standing.sessions);
    Ok(format!(in alloc;
        "at {at} of {limit} published {published} sessions {sessions} reaches {reaches}"
    )?)
}

/// `shares`: what its clients have done, and how many places each node has by the shares of its table.
fn shares(alloc: Global, node: &Node) -> Result<String, RowFault> {
    let shares = Shares::of(node.config().roles());
    let standing = standing_of(alloc, node, Some(shares))?;
    let acts = standing.acts;
    match &standing.shares {
        Some(places) => {
            let places = list_text(alloc, places.as_slice())?;
            Ok(format!(in alloc; "acts {acts} places {places}")?)
        }
        None => Err(RowFault::BadRow),
    }
}

/// `open-sessions FROM`: the open sessions from this id on.
fn sessions(alloc: Global, node: &Node, words: &mut Words<'_>) -> Result<String, RowFault> {
    let sessions = sessions_of(node, words.long()?)?;
    let mut text = String::from_str(alloc, "list")?;
    for (session, user) in sessions.as_slice() {
        let session = format!(in alloc; " {session}:{user}")?;
        text.push_str(&session)?;
    }
    Ok(text)
}

/// `command PLACE`: the command at the place of the node's own stream, if it reaches so far.
fn command(alloc: Global, node: &Node, words: &mut Words<'_>) -> Result<String, RowFault> {
    let place = words.long()?;
    let owner = node.me();
    if !node.config().roles().sizes().has(owner) {
        return Err(RowFault::BadRow);
    }
    let command = command_at(node, owner, place).map(Spelled);
    text_of(alloc, &OrNone(command))
}

/// `decide USER OPERATION OBJECT`: by the roles of the node itself, and how far its stream reaches.
fn decide(alloc: Global, node: &Node, words: &mut Words<'_>) -> Result<String, RowFault> {
    let lists = role_lists(alloc, node.config().roles())?;
    let access = Access {
        owner: node.me(),
        user: words.wide()?,
        operation: words.narrow()?,
        object: words.wide()?,
    };
    if !node.config().roles().sizes().has(access.owner) {
        return Err(RowFault::BadRow);
    }
    let decision = decision_of(node, &lists, &access);
    text_of(alloc, &Decided(decision))
}

/// A decision, in words.
#[derive(Clone, Copy)]
struct Decided(Decision);

impl Display for Decided {
    fn fmt<W: fmt::Write>(&self, f: &mut fmt::Formatter<W>) -> fmt::Result {
        match self.0.verdict {
            Verdict::Allow(role) => write!(f, "allowed {role} reach {}", self.0.reach),
            Verdict::Deny(rule) => write!(f, "denied {rule} reach {}", self.0.reach),
        }
    }
}
