//! Commands of four owners on their way to seven nodes as sealed frames, among which come repeats, old frames and
//! forged tags.

ghost use Rattle.std.specs.Prelude.{◌≡◌, ◌<◌, IfOk};

use crate::digest::Digest;
use crate::registry::{config, node};
use crate::sample::{Sample, part};
use anyhow::{Context, Result, bail};
use link_frames::{FRAME_LEN, Frame, Message, Packet, PairKeys, open_frame, seal};
use quorum_sizes::{NodeName, Sizes};
use role_commands::Command;
use role_node::{Event, Node, NodeFault};
use std::alloc::{AllocError, Global};
use std::collections::VecDeque;

const NODES: u8 = 7;

const LIARS: u8 = 2;

const OWNERS: u8 = 4;

const ROLES: u16 = 40;

const CLUSTER: u32 = 1;

/// So many commands of each owner.
const COMMANDS: u32 = 3_000;

/// So many of an owner are on their way at once.
const FLIGHT: u32 = 8;

/// The byte of a frame that names its receiver.
const TO_AT: usize = 6;

/// A node with its keys.
#[derive(Drop)]
struct Member {
    alloc: Global,
    node: Node,
    keys: PairKeys,
    sizes: Sizes,
    me: NodeName,
    ghost sized: { keys.sizes ≡ sizes },
    ghost own: { keys.me ≡ me },
}

impl Member {
    fn new(alloc: Global, index: u8, secret: u32) -> Result<Member> {
        let sizes = Sizes::new(NODES, LIARS)?;
        let me = sizes.name(index).context("no node")?;
        if !sizes.has(me) {
            bail!("no node");
        }
        let keys = pair_keys(alloc, &sizes, me, secret)?;
        Ok(Member {
            alloc,
            node: node(alloc, config(alloc, NODES, LIARS, OWNERS, ROLES)?, index)?,
            keys,
            sizes,
            me,
        })
    }

    /// Takes a frame. What the node sends then to all.
    fn take(&mut self, frame: &Frame, digest: &mut Digest) -> Result<Option<Message>> {
        let packet = match open_frame(&self.keys, &self.sizes, CLUSTER, frame) {
            Ok(packet) => packet,
            Err(fault) => {
                digest.refusal(self.alloc, &fault)?;
                return Ok(None);
            }
        };
        match self.node.apply(Event::Take(packet)) {
            Ok(reply) => {
                digest.reply(&reply);
                Ok(reply.message())
            }
            Err(NodeFault::Memory) => bail!("out of memory"),
            Err(fault) => {
                digest.refusal(self.alloc, &fault)?;
                Ok(None)
            }
        }
    }

    /// Adds the streams of the owners, as the node has them, to the digest.
    fn review(&self, digest: &mut Digest) -> Result<()> {
        digest.number(u64::from(self.node.events()));
        for owner in 0..OWNERS {
            let owner = self.sizes.name(owner).context("no node")?;
            digest.stream(&self.node, owner);
        }
        Ok(())
    }

    /// The frame of a message to a node. Adds its bytes to the digest.
    fn frame(&self, to: u8, message: Message, digest: &mut Digest) -> Result<Frame> {
        let to = self.sizes.name(to).context("no node")?;
        let packet = Packet::new(self.me, to, message).context("no packet")?;
        if !self.sizes.has(to) {
            bail!("no node");
        }
        let frame = seal(&self.keys, CLUSTER, &packet);
        digest.bytes(&frame);
        Ok(frame)
    }
}

/// The keys that a node shares with each node.
fn pair_keys(alloc: Global, sizes: &Sizes, me: NodeName, secret: u32) -> Result<PairKeys>
    requires { me < sizes.now.nodes }
    ensures sized { IfOk result (λ keys. keys.sizes ≡ sizes.now) }
    ensures own { IfOk result (λ keys. keys.me ≡ me) }
{
    let keys = secret_keys(alloc, me, secret)?;
    Ok(PairKeys::new(alloc, sizes, me, &keys)?)
}

fn secret_keys(alloc: Global, me: NodeName, secret: u32) -> Result<Vec<[u8; 32]>, AllocError> {
    let mut keys = Vec::new(alloc);
    for other in 0..NODES {
        keys.push(key(me.index(), other, secret))?;
    }
    Ok(keys)
}

/// The key that two nodes share.
fn key(one: u8, other: u8, secret: u32) -> [u8; 32] {
    let mut key = [0; 32];
    let [a, b, c, d] = secret.to_be_bytes();
    key[0] = one.min(other);
    key[1] = one.max(other);
    key[2] = a;
    key[3] = b;
    key[4] = c;
    key[5] = d;
    key
}

/// The nodes, and the frames on their way.
#[derive(Drop)]
struct Net {
    members: Vec<Member>,
    frames: VecDeque<Frame>,
    /// A frame that came some time ago.
    old: Frame,
    taken: u32,
}

impl Net {
    fn new(alloc: Global, secret: u32) -> Result<Net> {
        Ok(Net {
            members: members(alloc, secret)?,
            frames: VecDeque::new(alloc),
            old: [0; FRAME_LEN],
            taken: 0,
        })
    }

    /// Puts the frames of a message of this node on their way.
    fn send(&mut self, from: usize, message: Message, digest: &mut Digest) -> Result<()> {
        let member = self.members.get(from).context("no node")?;
        for to in 0..NODES {
            self.frames.push_back(member.frame(to, message, digest)?)?;
        }
        Ok(())
    }

    /// Gives a frame to its receiver.
    fn give(&mut self, frame: &Frame, digest: &mut Digest) -> Result<()> {
        let to = usize::from(frame[TO_AT]);
        let member = self.members.get_mut(to).context("no node")?;
        match member.take(frame, digest)? {
            Some(message) => self.send(to, message, digest),
            None => Ok(()),
        }
    }

    /// Gives all frames that are on their way, and each twentieth once more, an old one, or one with another tag.
    fn give_all(&mut self, digest: &mut Digest) -> Result<()> {
        for _ in 0..u64::MAX {
            let Some(frame) = self.frames.pop_front() else {
                break;
            };
            self.give(&frame, digest)?;
            self.taken = self.taken.wrapping_add(1);
            self.give_besides(&frame, digest)?;
            if self.taken % 1_021 == 0 {
                self.old = frame;
            }
        }
        Ok(())
    }

    /// Behind a frame that was given, now and then the same once more, one with another tag, or an old one.
    fn give_besides(&mut self, frame: &Frame, digest: &mut Digest) -> Result<()> {
        match self.taken % 60 {
            19 => self.give(frame, digest),
            39 => self.give(&forged(frame), digest),
            59 => self.give_old(digest),
            _ => Ok(()),
        }
    }

    fn give_old(&mut self, digest: &mut Digest) -> Result<()> {
        let old = self.old;
        if old[0] == 0 {
            return Ok(());
        }
        self.give(&old, digest)
    }

    /// Has each owner publish as many commands as are on their way at once.
    fn publish(&mut self, sample: &mut Sample, digest: &mut Digest) -> Result<()> {
        for _ in 0..FLIGHT {
            for owner in 0..OWNERS {
                self.issue(owner, sample, digest)?;
            }
        }
        Ok(())
    }

    /// So many batches of commands, from their publishing to all nodes. Adds what the nodes then have to the digest.
    fn deliver_all(
        &mut self,
        batches: u32,
        sample: &mut Sample,
        digest: &mut Digest,
    ) -> Result<()> {
        for _ in 0..batches {
            self.publish(sample, digest)?;
            self.give_all(digest)?;
        }
        self.review(digest)
    }

    fn review(&self, digest: &mut Digest) -> Result<()> {
        for member in self.members.iter() {
            member.review(digest)?;
        }
        Ok(())
    }

    /// Has an owner publish a command.
    fn issue(&mut self, owner: u8, sample: &mut Sample, digest: &mut Digest) -> Result<()> {
        let index = usize::from(owner);
        let member = self.members.get_mut(index).context("no node")?;
        let reply = member.node.apply(Event::Issue(command_of(owner, sample)))?;
        digest.reply(&reply);
        let message = reply.message().context("no message")?;
        self.send(index, message, digest)
    }
}

/// All nodes.
fn members(alloc: Global, secret: u32) -> Result<Vec<Member>> {
    let mut members = Vec::new(alloc);
    for index in 0..NODES {
        members.push(Member::new(alloc, index, secret)?)?;
    }
    Ok(members)
}

/// The frame with another tag.
fn forged(frame: &Frame) -> Frame {
    let mut forged = *frame;
    forged[FRAME_LEN - 1] ^= 1;
    forged
}

/// A command about a role of this owner.
fn command_of(owner: u8, sample: &mut Sample) -> Command {
    let role = sample
        .role(ROLES / 4)
        .wrapping_mul(4)
        .wrapping_add(u16::from(owner));
    if sample.below(8) == 0 {
        return Command::Grant {
            role,
            operation: sample.role(16),
            object: sample.below(100_000),
        };
    }
    Command::Assign {
        user: sample.below(1_000_000),
        role,
    }
}

/// Does the job on the input of a seed.
pub fn run(alloc: Global, seed: u32, share: u32) -> Result<Digest> {
    let mut sample = Sample::new(seed, 2);
    let mut digest = Digest::new();
    let mut net = Net::new(alloc, sample.below(u32::MAX))?;
    net.deliver_all(part(COMMANDS / FLIGHT, share), &mut sample, &mut digest)?;
    Ok(digest)
}
