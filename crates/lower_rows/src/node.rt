//! Rows of a whole node.

ghost use Rattle.std.specs.Prelude.{◌<◌, IfOk};

use crate::packets::{act_of, answer_text, packet_of, question_of};
use crate::roles::table_of;
use crate::said::{Decided, Replied};
use crate::sessions::pairs_text;
use quorum_sizes::NodeName;
use role_node::{AskFault, Config, Event, Node, NodeFault};
use row_words::{Behind, OrNone, RowFault, Spelled, Words, text_of, yes_or_no};
use std::alloc::Global;

/// `node N F ME LIMIT ROLE:OWNER ..`: nothing was recorded in cluster 1.
pub fn begin(alloc: Global, words: &mut Words<'_>) -> Result<Node, RowFault> {
    let sizes = words.sizes()?;
    let me = words.byte()?;
    let limit = words.wide()?;
    let table = table_of(alloc, words, sizes)?;
    let config = Config::new(1, table, limit).ok_or(RowFault::BadRow)?;
    new_node(alloc, &config, me)
}

/// The node of a copy of the configuration.
fn new_node(alloc: Global, config: &Config, me: u8) -> Result<Node, RowFault> {
    let config = config.copy(alloc)?;
    match config.roles().sizes().name(me) {
        Some(me) => Ok(Node::new(alloc, config, me)?),
        None => Err(RowFault::BadRow),
    }
}

pub fn answer(alloc: Global, node: &mut Node, line: &str) -> Result<String, RowFault> {
    let mut words = Words::new(line);
    match words.word() {
        "issue" => apply(alloc, node, Event::Issue(words.command()?)),
        "records-issue" => {
            let event = Event::Issue(words.command()?);
            yes_or_no(alloc, node.records(&event))
        }
        "take" => take(alloc, node, &mut words),
        "check" => check(alloc, node, &mut words),
        name => act_or_look(alloc, node, name, &mut words),
    }
}

fn apply(alloc: Global, node: &mut Node, event: Event) -> Result<String, RowFault> {
    match node.apply(event) {
        Ok(reply) => text_of(alloc, &Replied(reply)),
        Err(NodeFault::Memory) => Err(RowFault::Memory),
        Err(fault) => text_of(alloc, &fault),
    }
}

/// `take KIND FROM TO OWNER PLACE C`
fn take(alloc: Global, node: &mut Node, words: &mut Words<'_>) -> Result<String, RowFault> {
    let packet = packet_of(words, &node.config().roles().sizes())?;
    apply(alloc, node, Event::Take(packet))
}

/// `check S USER OPERATION OBJECT`
fn check(alloc: Global, node: &mut Node, words: &mut Words<'_>) -> Result<String, RowFault> {
    let (session, user) = (words.long()?, words.wide()?);
    let (operation, object) = (words.narrow()?, words.wide()?);
    let verdict = node.check(session, user, operation, object);
    text_of(alloc, &Decided(verdict))
}

fn act_or_look(
    alloc: Global,
    node: &mut Node,
    name: &str,
    words: &mut Words<'_>,
) -> Result<String, RowFault> {
    match name {
        "open" | "activate" | "drop" | "close" => {
            apply(alloc, node, Event::Client(act_of(name, words)?))
        }
        "reach" | "command" | "again" | "last-vote" => of_stream(alloc, node, name, words),
        "events" => text_of(alloc, &node.events()),
        "recorded" => text_of(alloc, &node.history().len()),
        "published" => text_of(alloc, &node.published()),
        "open-count" => text_of(alloc, &node.open_count()),
        "open-from" => open_from(alloc, node, words),
        _ => ask(alloc, node, name, words),
    }
}

fn ask(
    alloc: Global,
    node: &mut Node,
    name: &str,
    words: &mut Words<'_>,
) -> Result<String, RowFault> {
    match node.ask(question_of(name, words)?) {
        Ok(answer) => answer_text(alloc, &answer),
        Err(AskFault::Memory) => Err(RowFault::Memory),
        Err(fault) => text_of(alloc, &fault),
    }
}

/// `open-from S MOST`: the open sessions from this one on, each as `S:USER`.
fn open_from(alloc: Global, node: &Node, words: &mut Words<'_>) -> Result<String, RowFault> {
    let from = words.long()?;
    let open = node.open_sessions(from, usize::from(words.byte()?))?;
    pairs_text(alloc, &open)
}

/// A node of the cluster.
fn name_of(node: &Node, words: &mut Words<'_>) -> Result<NodeName, RowFault>
    ensures { IfOk result (λ name. name < node.now.config.roles.sizes.nodes) }
{
    match node.config().roles().sizes().name(words.byte()?) {
        Some(name) => Ok(name),
        None => Err(RowFault::BadRow),
    }
}

/// `reach OWNER`, `command OWNER PLACE`, `again OWNER PLACE`, `last-vote OWNER PEER`
fn of_stream(
    alloc: Global,
    node: &Node,
    name: &str,
    words: &mut Words<'_>,
) -> Result<String, RowFault> {
    let owner = name_of(node, words)?;
    match name {
        "reach" => text_of(alloc, &node.reach(owner)),
        "command" => {
            let command = node.command(owner, words.wide()?);
            text_of(alloc, &OrNone(command.map(Spelled)))
        }
        "last-vote" => {
            let peer = name_of(node, words)?;
            text_of(alloc, &OrNone(node.last_vote(owner, peer)))
        }
        _ => {
            let again = node.again(owner, words.wide()?);
            let send = Behind("send", again.send.map(Spelled));
            let echo = Behind("echo", again.echo.map(Spelled));
            let ready = Behind("ready", again.ready.map(Spelled));
            Ok(format!(in alloc; "sent{send}{echo}{ready}")?)
        }
    }
}

/// How much was recorded and published, and how many sessions are open.
pub fn seen(node: &Node) -> [u64; 3] {
    [
        u64::from(node.events()),
        u64::from(node.published()),
        u64::from(node.open_count()),
    ]
}
