//! Clusters in a laboratory: 16 nodes with five liars that name another command at each node and place, packets given
//! in no order; and 64 and 128 nodes with silent liars and with none, packets given as they were sent.

ghost use Rattle.std.specs.Prelude.{◌≡◌};

use crate::digest::Digest;
use crate::registry::config;
use crate::sample::{Sample, part};
use anyhow::{Context, Result};
use byz_world::{Step, StepReply, World, WorldFault};
use link_frames::{Kind, Message, Packet};
use quorum_sizes::{NodeName, NodeSet, Sizes};
use role_commands::Command;
use std::alloc::Global;

const OWNERS: u8 = 4;

const ROLES: u16 = 40;

const USERS: u32 = 100_000;

/// So many commands of each owner are on their way at once.
const FLIGHT: u32 = 5;

/// So many batches of commands come among liars that speak.
const BATCHES: u32 = 70;

/// Clusters whose liars are silent: of so many nodes and liars, in which each owner publishes so many commands.
static QUIET: [(u8, u8, u32); 4] = [(64, 21, 170), (64, 0, 100), (128, 42, 30), (128, 0, 20)];

/// A cluster, and what is drawn for it.
#[derive(Drop)]
struct Lab {
    alloc: Global,
    world: World,
    sizes: Sizes,
    /// The first of the liars, which are the last nodes.
    first_liar: u8,
    /// Packets below this one were given.
    given: u32,
    place: u32,
}

impl Lab {
    fn new(alloc: Global, n: u8, f: u8) -> Result<Lab> {
        let sizes = Sizes::new(n, f)?;
        let first_liar = n.saturating_sub(f);
        let liars = nodes_from(&sizes, first_liar)?;
        let config = config(alloc, n, f, OWNERS, ROLES)?;
        Ok(Lab {
            alloc,
            world: World::new(alloc, config, liars)?,
            sizes,
            first_liar,
            given: 0,
            place: 0,
        })
    }

    fn name(&self, index: u8) -> Result<NodeName> {
        self.sizes.name(index).context("no node")
    }

    /// So many batches of commands among liars that speak.
    fn run_among_liars(
        &mut self,
        batches: u32,
        sample: &mut Sample,
        digest: &mut Digest,
    ) -> Result<()> {
        for _ in 0..batches {
            for _ in 0..FLIGHT {
                self.lie(sample, digest)?;
                self.issue(sample, digest)?;
            }
            self.give_in_no_order(digest)?;
        }
        self.review(digest)
    }

    /// So many commands of each owner, each of which all nodes have before the next.
    fn run_in_order(
        &mut self,
        commands: u32,
        sample: &mut Sample,
        digest: &mut Digest,
    ) -> Result<()> {
        for _ in 0..commands {
            self.issue(sample, digest)?;
            self.flush()?;
        }
        self.review(digest)
    }

    /// Does a step, and adds its answer to the digest.
    fn step(&mut self, step: Step, digest: &mut Digest) -> Result<()> {
        match self.world.step(step) {
            Ok(StepReply::Absorbed) => digest.number(0),
            Ok(
                StepReply::Node {
                    reply,
                    first,
                    count,
                },
            ) => {
                digest.number(u64::from(first) << 8 | u64::from(count));
                digest.reply(&reply);
            }
            Err(WorldFault::Memory) => anyhow::bail!("out of memory"),
            Err(fault) => digest.refusal(self.alloc, &fault)?,
        }
        Ok(())
    }

    /// Each owner publishes a command of its own.
    fn issue(&mut self, sample: &mut Sample, digest: &mut Digest) -> Result<()> {
        for owner in 0..OWNERS {
            let node = self.name(owner)?;
            let command = command_of(owner, sample);
            self.step(Step::Issue { node, command }, digest)?;
        }
        self.place = self.place.wrapping_add(1);
        Ok(())
    }

    /// Each liar sends each correct node an echo and a vote for a command that it names to no other.
    fn lie(&mut self, sample: &mut Sample, digest: &mut Digest) -> Result<()> {
        for owner in 0..OWNERS {
            for liar in self.first_liar..self.sizes.n() {
                for to in 0..self.first_liar {
                    let command = command_of(owner, sample);
                    self.send(Kind::Echo, (liar, to), owner, command, digest)?;
                    self.send(Kind::Ready, (liar, to), owner, command, digest)?;
                }
            }
        }
        Ok(())
    }

    fn send(
        &mut self,
        kind: Kind,
        link: (u8, u8),
        owner: u8,
        command: Command,
        digest: &mut Digest,
    ) -> Result<()> {
        let message = Message {
            kind,
            owner: self.name(owner)?,
            place: self.place,
            command,
        };
        let packet = self.packet(link, message)?;
        self.step(Step::Lie { packet }, digest)
    }

    fn packet(&self, link: (u8, u8), message: Message) -> Result<Packet> {
        let (from, to) = (self.name(link.0)?, self.name(link.1)?);
        Packet::new(from, to, message).context("no packet")
    }

    /// Gives the packets that were not given yet, and those that they cause, each wave of them in no order.
    fn give_in_no_order(&mut self, digest: &mut Digest) -> Result<()> {
        for _ in 0..u32::MAX {
            let first = self.given;
            let count = self.world.sent_len().saturating_sub(first);
            if count == 0 {
                break;
            }
            for number in 0..count {
                let other = u64::from(number).wrapping_mul(7_919) % u64::from(count);
                let packet = first.wrapping_add(other as u32);
                self.step(Step::Give { packet }, digest)?;
            }
            self.given = first.wrapping_add(count);
        }
        Ok(())
    }

    /// Gives the packets in the order in which they were sent.
    fn flush(&mut self) -> Result<()> {
        for _ in 0..u32::MAX {
            let first = self.given;
            if first >= self.world.sent_len() {
                break;
            }
            let count = self.world.give_some(first, u32::MAX)?;
            self.given = first.wrapping_add(count);
        }
        Ok(())
    }

    /// Brings the cluster to rest, and adds how far its nodes came, what they sent, and their streams.
    fn review(&mut self, digest: &mut Digest) -> Result<()> {
        digest.number(self.world.settle()?);
        digest.number(u64::from(self.world.at_rest()));
        digest.number(self.world.run_len());
        digest.number(u64::from(self.world.sent_len()));
        for owner in 0..OWNERS {
            for other in 0..self.first_liar {
                digest.number(u64::from(self.agreed(owner, other)?));
            }
        }
        self.review_streams(digest)?;
        self.review_sent(digest);
        Ok(())
    }

    /// How much of an owner's stream the first node and another one have in common.
    fn agreed(&self, owner: u8, other: u8) -> Result<u32> {
        let (a, b, owner) = (self.name(0)?, self.name(other)?, self.name(owner)?);
        self.world.agree(a, b, owner).context("no correct node")
    }

    /// Adds the commands that were delivered to each node that does not lie.
    fn review_streams(&self, digest: &mut Digest) -> Result<()> {
        for index in 0..self.first_liar {
            let node = self
                .world
                .node(self.name(index)?)
                .context("no correct node")?;
            digest.number(u64::from(node.events()));
            for owner in 0..OWNERS {
                digest.stream(node, self.name(owner)?);
            }
        }
        Ok(())
    }

    /// Adds what was sent: of each message to all nodes one packet, of one message after another to another node.
    fn review_sent(&self, digest: &mut Digest) {
        let nodes = u32::from(self.sizes.n()).max(1);
        for message in 0..self.world.sent_len() / nodes {
            let number = message.wrapping_mul(nodes).wrapping_add(message % nodes);
            if let Some(packet) = self.world.sent(number) {
                digest.number(
                    u64::from(packet.from().index()) << 8 | u64::from(packet.to().index()),
                );
                digest.message(&packet.message());
            }
        }
    }
}

/// The nodes from an index on.
fn nodes_from(sizes: &Sizes, first: u8) -> Result<NodeSet> {
    let mut nodes = NodeSet::new();
    for index in first..sizes.n() {
        nodes.insert(sizes.name(index).context("no node")?);
    }
    Ok(nodes)
}

/// A command about a role of this owner.
fn command_of(owner: u8, sample: &mut Sample) -> Command {
    Command::Assign {
        user: sample.below(USERS),
        role: sample
            .role(ROLES / 4)
            .wrapping_mul(4)
            .wrapping_add(u16::from(owner)),
    }
}

/// Does the job on the input of a seed.
pub fn run(alloc: Global, seed: u32, share: u32) -> Result<Digest> {
    let mut digest = Digest::new();
    run_all(alloc, share, &mut Sample::new(seed, 6), &mut digest)?;
    Ok(digest)
}

fn run_all(alloc: Global, share: u32, sample: &mut Sample, digest: &mut Digest) -> Result<()> {
    run_speaking(alloc, part(BATCHES, share), sample, digest)?;
    for cluster in &QUIET {
        run_quiet(alloc, cluster, share, sample, digest)?;
    }
    Ok(())
}

/// A cluster whose liars speak, for so many batches of commands.
fn run_speaking(
    alloc: Global,
    batches: u32,
    sample: &mut Sample,
    digest: &mut Digest,
) -> Result<()> {
    let mut lab = Lab::new(alloc, 16, 5)?;
    lab.run_among_liars(batches, sample, digest)
}

/// A cluster whose liars are silent, on a part of its commands.
fn run_quiet(
    alloc: Global,
    cluster: &(u8, u8, u32),
    share: u32,
    sample: &mut Sample,
    digest: &mut Digest,
) -> Result<()> {
    let (n, f, commands) = *cluster;
    let mut lab = Lab::new(alloc, n, f)?;
    lab.run_in_order(part(commands, share), sample, digest)
}
