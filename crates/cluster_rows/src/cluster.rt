//! Rows of a cluster, step by step.

use byz_world::{Step, StepReply, World, WorldFault};
use link_frames::{Kind, Message, Packet, Place};
use lower_rows::packets::{act_of, answer_text, packet_of, question_of};
use lower_rows::roles::table_of;
use lower_rows::said::{Decided, Replied};
use quorum_sizes::{NodeName, NodeSet, Sizes};
use role_commands::Command;
use role_node::Config;
use row_words::{Layers, OrNone, RowFault, Words, text_of, yes_or_no};
use std::alloc::Global;
use std::fmt;
use std::fmt::Display;

/// As many places as a stream has open.
const WINDOW: u32 = 64;

/// `cluster`: none yet.
#[derive(Drop)]
pub struct Cluster {
    world: Option<World>,
}

impl Layers for Cluster {
    fn has(layer: &str) -> bool {
        layer == "cluster"
    }

    fn begin(_rt: &HostRuntime, _line: &str) -> Result<Self, RowFault> {
        Ok(Cluster { world: None })
    }

    fn answer(&mut self, rt: &HostRuntime, line: &str) -> Result<String, RowFault> {
        answer(rt.alloc(), self, line)
    }

    /// How much was sent and recorded.
    fn seen(&self) -> [u64; 3] {
        match &self.world {
            Some(world) => [u64::from(world.sent_len()), world.run_len(), 1],
            None => [0; 3],
        }
    }
}

fn answer(alloc: Global, cluster: &mut Cluster, line: &str) -> Result<String, RowFault> {
    let mut words = Words::new(line);
    match words.word() {
        "world" => new_world(alloc, cluster, &mut words),
        "run" => run(alloc, cluster, &mut words),
        name => match &mut cluster.world {
            Some(world) => of_world(alloc, world, name, &mut words),
            None => Err(RowFault::BadRow),
        },
    }
}

/// Nodes as `1,3`, or `-` for none.
fn liars_of(text: &str, sizes: &Sizes) -> Result<NodeSet, RowFault> {
    let mut liars = NodeSet::new();
    if text == "-" {
        return Ok(liars);
    }
    for word in text.split(',') {
        let mut word = Words::new(word);
        if !liars.insert(word.node(sizes)?) {
            return Err(RowFault::BadRow);
        }
    }
    Ok(liars)
}

/// `N F LIMIT LIARS ROLE:OWNER ..`
fn config_of(alloc: Global, words: &mut Words<'_>) -> Result<(Config, NodeSet), RowFault> {
    let sizes = words.sizes()?;
    let limit = words.wide()?;
    let liars = liars_of(words.word(), &sizes)?;
    let table = table_of(alloc, words, sizes)?;
    let config = Config::new(1, table, limit).ok_or(RowFault::BadRow)?;
    Ok((config, liars))
}

fn made(
    alloc: Global,
    cluster: &mut Cluster,
    came: Result<World, WorldFault>,
) -> Result<String, RowFault> {
    match came {
        Ok(world) => {
            cluster.world = Some(world);
            text_of(alloc, &"ok")
        }
        Err(WorldFault::Memory) => Err(RowFault::Memory),
        Err(fault) => text_of(alloc, &fault),
    }
}

/// `world N F LIMIT LIARS ROLE:OWNER ..`: before anything happens.
fn new_world(
    alloc: Global,
    cluster: &mut Cluster,
    words: &mut Words<'_>,
) -> Result<String, RowFault> {
    let (config, liars) = config_of(alloc, words)?;
    made(alloc, cluster, World::new(alloc, config, liars))
}

/// `run PACKETS N F LIMIT LIARS ROLE:OWNER ..`: node 0 issues `assign 7 2`, and so many packets are given.
fn run(alloc: Global, cluster: &mut Cluster, words: &mut Words<'_>) -> Result<String, RowFault> {
    let steps = steps_of(alloc, words.wide()?)?;
    let (config, liars) = config_of(alloc, words)?;
    made(alloc, cluster, World::run(alloc, config, liars, &steps))
}

fn steps_of(alloc: Global, packets: u32) -> Result<Vec<Step>, RowFault> {
    let sizes = Sizes::new(4, 1).map_err(|_| RowFault::BadRow)?;
    let mut steps = Vec::new(alloc);
    steps.push(Step::Issue {
        node: sizes.name(0).ok_or(RowFault::BadRow)?,
        command: Command::Assign { user: 7, role: 2 },
    })?;
    for packet in 0..packets {
        steps.push(Step::Give { packet })?;
    }
    Ok(steps)
}

fn of_world(
    alloc: Global,
    world: &mut World,
    name: &str,
    words: &mut Words<'_>,
) -> Result<String, RowFault> {
    match name {
        "issue" | "give" | "lie" | "bytes" | "open" | "activate" | "drop" | "close" => {
            let step = step_of(alloc, &world.sizes(), name, words)?;
            step_text(alloc, world.step(step))
        }
        "pass" => {
            let name = words.word();
            let step = step_of(alloc, &world.sizes(), name, words)?;
            world.pass(&step)?;
            text_of(alloc, &"ok")
        }
        "settle" => text_of(alloc, &world.settle()?),
        "give-some" => give_some(alloc, world, words),
        "arrive" => arrive(alloc, world, words),
        "again" => again(alloc, world, words),
        _ => look(alloc, world, name, words),
    }
}

/// `issue I C`, `give PACKET`, `lie KIND FROM TO OWNER PLACE C`, `bytes TO HEX`, `open I USER`, ..
fn step_of(
    alloc: Global,
    sizes: &Sizes,
    name: &str,
    words: &mut Words<'_>,
) -> Result<Step, RowFault> {
    match name {
        "give" => Ok(Step::Give {
            packet: words.wide()?,
        }),
        "lie" => Ok(Step::Lie {
            packet: packet_of(words, sizes)?,
        }),
        "issue" => Ok(Step::Issue {
            node: words.node(sizes)?,
            command: words.command()?,
        }),
        "bytes" => Ok(Step::Bytes {
            to: words.node(sizes)?,
            bytes: words.bytes(alloc)?,
        }),
        _ => Ok(Step::Client {
            node: words.node(sizes)?,
            event: act_of(name, words)?,
        }),
    }
}

/// `absorbed`, or the reply, and behind `packets` the first one that was sent and how many were.
#[derive(Clone, Copy)]
struct Stepped(StepReply);

impl Display for Stepped {
    fn fmt<W: fmt::Write>(&self, f: &mut fmt::Formatter<W>) -> fmt::Result {
        match self.0 {
            StepReply::Absorbed => f.write_str("absorbed"),
            StepReply::Node {
                reply,
                first,
                count,
            } => write!(f, "{}, packets {first} {count}", Replied(reply)),
        }
    }
}

fn step_text(alloc: Global, came: Result<StepReply, WorldFault>) -> Result<String, RowFault> {
    match came {
        Ok(reply) => text_of(alloc, &Stepped(reply)),
        Err(WorldFault::Memory) => Err(RowFault::Memory),
        Err(fault) => text_of(alloc, &fault),
    }
}

/// `give-some FIRST MOST`: how many packets of the pool were given at once.
fn give_some(alloc: Global, world: &mut World, words: &mut Words<'_>) -> Result<String, RowFault> {
    let (first, most) = (words.wide()?, words.wide()?);
    if first >= world.sent_len() || most == 0 {
        return Err(RowFault::BadRow);
    }
    text_of(alloc, &world.give_some(first, most)?)
}

/// `arrive KIND FROM TO FIRST END`: of each of these places of node 0's stream, at which it assigns the user of that
/// number to role 2, the message of this kind arrives, if it was sent.
fn arrive(alloc: Global, world: &mut World, words: &mut Words<'_>) -> Result<String, RowFault> {
    let sizes = world.sizes();
    let kind = words.kind()?;
    let (from, to) = (words.node(&sizes)?, words.node(&sizes)?);
    let first = words.wide()?;
    for place in first..words.wide()? {
        arrive_at(world, kind, from, to, place)?;
    }
    text_of(alloc, &"ok")
}

fn arrive_at(
    world: &mut World,
    kind: Kind,
    from: NodeName,
    to: NodeName,
    place: Place,
) -> Result<(), RowFault> {
    let message = Message {
        kind,
        owner: world.sizes().name(0).ok_or(RowFault::BadRow)?,
        place,
        command: Command::Assign {
            user: place,
            role: 2,
        },
    };
    if let Some(packet) = Packet::new(from, to, message) {
        world.pass(&Step::Lie { packet })?;
    }
    Ok(())
}

/// `again FROM TO BELOW`: a node sends again to a peer what it has sent around the last vote that it took of it, from so
/// many places below.
fn again(alloc: Global, world: &mut World, words: &mut Words<'_>) -> Result<String, RowFault> {
    let sizes = world.sizes();
    let (from, to) = (words.node(&sizes)?, words.node(&sizes)?);
    let below = words.wide()?;
    let voted_to = voted_to(world, from, to)?;
    let first = voted_to.saturating_sub(below.saturating_add(1));
    for place in first..voted_to.saturating_add(WINDOW) {
        for kind in [Kind::Send, Kind::Echo, Kind::Ready] {
            arrive_at(world, kind, from, to, place)?;
        }
    }
    text_of(alloc, &"ok")
}

/// The place behind the last vote of node 0's stream that a node took of a peer.
fn voted_to(world: &World, from: NodeName, to: NodeName) -> Result<u32, RowFault> {
    let node = world.node(from).ok_or(RowFault::BadRow)?;
    let sizes = node.config().roles().sizes();
    let owner = sizes.name(0).ok_or(RowFault::BadRow)?;
    let peer = sizes.name(to.index()).ok_or(RowFault::BadRow)?;
    Ok(match node.last_vote(owner, peer) {
        Some(place) => place.saturating_add(1),
        None => 0,
    })
}

fn look(
    alloc: Global,
    world: &mut World,
    name: &str,
    words: &mut Words<'_>,
) -> Result<String, RowFault> {
    match name {
        "rest" => yes_or_no(alloc, world.at_rest()),
        "sent-len" => text_of(alloc, &world.sent_len()),
        "sent" => yes_or_no(alloc, world.sent(words.wide()?).is_some()),
        "run-len" => text_of(alloc, &world.run_len()),
        "correct" => {
            let node = words.node(&world.sizes())?;
            yes_or_no(alloc, world.node(node).is_some())
        }
        "agree" => agree(alloc, world, words),
        "check" => check(alloc, world, words),
        _ => ask(alloc, world, name, words),
    }
}

/// `agree I J OWNER`
fn agree(alloc: Global, world: &World, words: &mut Words<'_>) -> Result<String, RowFault> {
    let sizes = world.sizes();
    let (one, other) = (words.node(&sizes)?, words.node(&sizes)?);
    let length = world.agree(one, other, words.node(&sizes)?);
    text_of(alloc, &OrNone(length))
}

/// `check I S USER OPERATION OBJECT`
fn check(alloc: Global, world: &mut World, words: &mut Words<'_>) -> Result<String, RowFault> {
    let node = words.node(&world.sizes())?;
    let (session, user) = (words.long()?, words.wide()?);
    let (operation, object) = (words.narrow()?, words.wide()?);
    let verdict = world.check(node, session, user, operation, object);
    text_of(alloc, &OrNone(verdict.map(Decided)))
}

/// A question, and behind its word the node that is asked.
fn ask(
    alloc: Global,
    world: &mut World,
    name: &str,
    words: &mut Words<'_>,
) -> Result<String, RowFault> {
    let node = words.node(&world.sizes())?;
    match world.ask(node, question_of(name, words)?) {
        Ok(answer) => answer_text(alloc, &answer),
        Err(WorldFault::Memory) => Err(RowFault::Memory),
        Err(fault) => text_of(alloc, &fault),
    }
}
