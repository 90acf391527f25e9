//! A node of four with a long history, and the receipts of four seats for it.

use crate::deck::Deck;
use crate::digest::Digest;
use crate::registry::{config, node};
use crate::sample::Sample;
use anyhow::{Context, Result, bail};
use link_frames::{Kind, Message, Packet};
use node_lock::{Call, Outcome, Receipt};
use quorum_sizes::NodeName;
use role_node::{Event, Node, Question, Reply};
use std::alloc::{AllocError, Global};

const NODES: u8 = 4;

const ROLES: u16 = 50;

const USERS: u32 = 100_000;

const SEATS: u8 = 4;

/// A node, and for each seat its receipts in the order in which it got them.
#[derive(Drop)]
pub struct History {
    pub node: Node,
    /// The users that were not asked about yet.
    users: Deck,
    seats: Vec<Vec<Receipt>>,
}

impl History {
    /// The history in which node 0 publishes so many commands, and a client asks now and then. Adds what the node says
    /// to the digest.
    pub fn new(
        alloc: Global,
        sample: &mut Sample,
        commands: u32,
        digest: &mut Digest,
    ) -> Result<History> {
        let mut history = History::empty(alloc)?;
        history.deliver_all(sample, commands, digest)?;
        Ok(history)
    }

    fn empty(alloc: Global) -> Result<History> {
        let users = Deck::new(alloc, USERS)?;
        let seats = seats_without_receipts(alloc)?;
        Ok(History {
            node: node(alloc, config(alloc, NODES, 1, 1, ROLES)?, 1)?,
            users,
            seats,
        })
    }

    fn deliver_all(
        &mut self,
        sample: &mut Sample,
        commands: u32,
        digest: &mut Digest,
    ) -> Result<()> {
        for place in 0..commands {
            self.deliver(sample, place, digest)?;
        }
        Ok(())
    }

    /// The packets of one command at their receiver. For each third command the first of them comes once more, and for
    /// each sixteenth a client asks.
    fn deliver(&mut self, sample: &mut Sample, place: u32, digest: &mut Digest) -> Result<()> {
        let send = Message {
            kind: Kind::Send,
            owner: self.name(0)?,
            place,
            command: sample.assign(USERS, ROLES),
        };
        self.take(sample, 0, send, digest)?;
        self.take_votes(sample, Kind::Echo, &send, digest)?;
        self.take_votes(sample, Kind::Ready, &send, digest)?;
        if place % 3 == 0 {
            self.take(sample, 0, send, digest)?;
        }
        if place % 16 == 5 {
            let user = self.users.deal(sample);
            self.ask(sample, Question::AssignedRoles(user), digest)?;
        }
        Ok(())
    }

    fn name(&self, index: u8) -> Result<NodeName> {
        let sizes = self.node.config().roles().sizes();
        sizes.name(index).context("no node")
    }

    /// Each node's vote of a kind for what was sent.
    fn take_votes(
        &mut self,
        sample: &mut Sample,
        kind: Kind,
        sent: &Message,
        digest: &mut Digest,
    ) -> Result<()> {
        for index in 0..NODES {
            self.take(sample, index, Message { kind, ..*sent }, digest)?;
        }
        Ok(())
    }

    fn take(
        &mut self,
        sample: &mut Sample,
        from: u8,
        message: Message,
        digest: &mut Digest,
    ) -> Result<()> {
        let from = self.name(from)?;
        let packet = Packet::new(from, self.node.me(), message).context("no packet")?;
        self.step(sample, Event::Take(packet), digest)
    }

    /// A seat applies an event, and keeps its receipt.
    fn step(&mut self, sample: &mut Sample, event: Event, digest: &mut Digest) -> Result<()> {
        let place = self.node.events();
        let call = call_of(&event);
        let outcome = match self.node.apply(event) {
            Ok(reply) => {
                digest.reply(&reply);
                Outcome::Reply(reply)
            }
            Err(fault) => bail!("{fault}"),
        };
        self.keep(sample, place, call, outcome)
    }

    /// A seat asks, and keeps its receipt.
    fn ask(&mut self, sample: &mut Sample, question: Question, digest: &mut Digest) -> Result<()> {
        let place = self.node.events();
        let answer = self.node.ask(question)?;
        digest.answer(&answer);
        self.keep(sample, place, Call::Ask(question), Outcome::Answer(answer))
    }

    fn keep(
        &mut self,
        sample: &mut Sample,
        place: u32,
        call: Call,
        outcome: Outcome,
    ) -> Result<()> {
        let number = sample.below(u32::from(SEATS)) as u8;
        let seat = self.seats.get_mut(usize::from(number)).context("no seat")?;
        seat.push(Receipt {
            seat: number,
            place,
            call,
            outcome,
        })?;
        Ok(())
    }

    /// The receipts of one seat after another's.
    ///
    /// # Errors
    ///
    /// Only for want of memory.
    pub fn receipts(&mut self, alloc: Global) -> Result<Vec<Receipt>, AllocError> {
        let mut all = Vec::new(alloc);
        for _ in 0..SEATS {
            let Some(seat) = self.seats.pop() else {
                break;
            };
            put_behind(&mut all, seat)?;
        }
        Ok(all)
    }
}

fn put_behind(all: &mut Vec<Receipt>, receipts: Vec<Receipt>) -> Result<(), AllocError> {
    for receipt in receipts {
        all.push(receipt)?;
    }
    Ok(())
}

fn seats_without_receipts(alloc: Global) -> Result<Vec<Vec<Receipt>>, AllocError> {
    let mut seats = Vec::new(alloc);
    for _ in 0..SEATS {
        seats.push(Vec::new(alloc))?;
    }
    Ok(seats)
}

fn call_of(event: &Event) -> Call {
    Call::Step(*event)
}
