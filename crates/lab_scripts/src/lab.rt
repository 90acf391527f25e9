//! A cluster as a script runs it: the world, and which packets of its pool were given.

ghost use Rattle.std.specs.Prelude.{◌≡◌, ◌<◌, ◌≤◌, true, false, Some, IfOk, IfSome, IfNone, OnOk, OnErr, string_bytes};
ghost use Rattle.byz_world.specs.Steps.{step_due, after_step};
ghost use Rattle.byz_world.specs.declared.step.Step.TheVariants.{Give};
ghost use Rattle.byz_world.specs.Worlds.{too_many_lie};
ghost use Rattle.lab_scripts.specs.Labs.{lab_sizes, pool_length, new_lab, given_after, after_doing, flush, after_order};
ghost use Rattle.lab_scripts.specs.Labs.{settling_adds, after_settling, next_number};
ghost use Rattle.lab_scripts.specs.inside.Flags.{GivesOn};
ghost use Rattle.lab_scripts.specs.Rests.{rests};
ghost use Rattle.lab_scripts.specs.inside.Kept.{IsWithinSizes, is_want_of_memory};
ghost use Rattle.lab_scripts.specs.OrderTexts as texts;

use crate::given::Given;
use crate::order_texts::{agreed_text, answer_text, reached_text, rest_text, step_reply_text};
use crate::orders::{ScriptLine, packet_of};
use byz_world::{Step, World, WorldFault};
use quorum_sizes::{NodeName, NodeSet, Sizes};
use role_commands::RoleTable;
use role_node::{Config, MOST_EVENTS, Question};
use std::alloc::{AllocError, Global};

/// The number of the cluster that a script makes.
const CLUSTER: u32 = 1;

/// A cluster, and the packets of its pool that were given.
#[derive(Drop)]
pub struct Lab {
    world: World,
    given: Given,
}

impl Lab {
    ghost use Rattle.lab_scripts.specs.inside.Kept.{lab_in, given_in};

    /// The cluster of these roles and liars, before anything happens; `None` where too many lie.
    ///
    /// # Errors
    ///
    /// Only for want of memory, as of the others here.
    pub fn new(alloc: Global, roles: RoleTable, liars: NodeSet) -> Result<Option<Lab>, AllocError>
        ensures some { IfOk result (λ made. IfSome made (λ lab. lab_in lab ≡ new_lab roles liars)) }
        ensures few { IfOk result (λ made. IfSome made (λ _. too_many_lie roles.sizes liars ≡ false)) }
        ensures none { IfOk result (λ made. IfNone made (too_many_lie roles.sizes liars ≡ true)) }
        ensures memory { OnErr result (too_many_lie roles.sizes liars ≡ false) }
    {
        let config = Config::new(CLUSTER, roles, MOST_EVENTS).unwrap();
        match World::new(alloc, config, liars) {
            Ok(world) => Ok(Some(Lab {
                world,
                given: Given::new(alloc),
            })),
            Err(WorldFault::TooManyLiars) => Ok(None),
            Err(WorldFault::Memory) => Err(AllocError),
            Err(
                WorldFault::NotCorrect
                | WorldFault::NoSuchPacket
                | WorldFault::NotSent
                | WorldFault::PoolFull
                | WorldFault::Link(_)
                | WorldFault::Node(_)
                | WorldFault::NoSession,
            ) => unreachable!(),
        }
    }

    /// How many nodes it has, and how many of them may lie.
    pub fn sizes(&self) -> Sizes
        ensures { result ≡ lab_sizes (lab_in self.now) }
    {
        self.world.sizes()
    }

    /// Does what a line asks. The text is what is due for the line.
    #[tactic(auto, unfolding(crate::specs::OrderTexts::order_text))]
    pub fn answer(&mut self, alloc: Global, order: ScriptLine) -> Result<String, AllocError>
        requires { IsWithinSizes (lab_sizes (lab_in self.old)) order }
        ensures text { IfOk result (λ text. string_bytes text ≡ texts.order_text (lab_in self.old) order) }
        ensures after { OnOk result (lab_in self.new ≡ after_order (lab_in self.old) order) }
    {
        match order {
            ScriptLine::Do(step) => self.step_text(alloc, step),
            ScriptLine::Flush => {
                let count = self.flush()?;
                format!(in alloc; "flushed {count}")
            }
            ScriptLine::Settle => {
                let count = self.settle()?;
                format!(in alloc; "settled {count}")
            }
            ScriptLine::Rest => rest_text(alloc, self.rests()),
            ScriptLine::Ask { node, question } => asked_text(
                alloc,
                &mut self.world,
                node,
                question,
            ),
            ScriptLine::Reach { node, owner } => self.reach_text(alloc, node, owner),
            ScriptLine::Agree { one, other, owner } => {
                agreed_text(alloc, self.world.agree(one, other, owner))
            }
        }
    }

    fn step_text(&mut self, alloc: Global, step: Step) -> Result<String, AllocError>
        ensures text { IfOk result (λ text. string_bytes text ≡ texts.step_text (step_due self.old.world step)) }
        ensures after { OnOk result (lab_in self.new ≡ after_doing (lab_in self.old) step) }
    {
        self.mark_found(&step)?;
        taken_text(alloc, &mut self.world, step)
    }

    /// Marks the packet that a step finds in the pool.
    fn mark_found(&mut self, step: &Step) -> Result<(), AllocError>
        ensures given { OnOk result (given_in self.new.given ≡ given_after (lab_in self.old) step.now) }
        ensures same { self.new.world ≡ self.old.world }
    {
        match packet_of(step) {
            Some(number) if number < self.world.sent_len() => self.given.mark(number),
            _ => Ok(()),
        }
    }

    /// Gives all packets that wait, those included that this sends. How many there were.
    fn flush(&mut self) -> Result<u32, AllocError>
        ensures count { IfOk result (λ count. count ≡ (flush (lab_in self.old)).count) }
        ensures after { OnOk result (lab_in self.new ≡ (flush (lab_in self.old)).lab) }
    {
        let limit = self.world.config().limit();
        let mut count = 0;
        while count < limit {
            let Some(packet) = self.given.next(self.world.sent_len()) else {
                return Ok(count);
            };
            count += self.give_on(packet, limit - count)?;
        }
        Ok(limit)
    }

    /// Gives packets of the pool from this one on, whatever the answers are: as many as the world gives at once, where
    /// none of them was given, and else this one. How many, at most `most`.
    fn give_on(&mut self, packet: u32, most: u32) -> Result<u32, AllocError>
        requires packet { packet < pool_length self.old.world }
        requires most { 0 < most }
        requires next { next_number (lab_in self.old) ≡ Some packet }
        ensures some { IfOk result (λ count. 0 < count) }
        ensures most { IfOk result (λ count. count ≤ most) }
        ensures after { IfOk result (λ count. GivesOn (lab_in self.old) count (lab_in self.new)) }
    {
        if !self.given.is_none_from(packet) {
            self.give(packet)?;
            return Ok(1);
        }
        let count = self.world.give_some(packet, most)?;
        self.given.mark_many(packet, count)?;
        Ok(count)
    }

    /// Gives the packets of the pool until a pass records nothing. How many events were recorded.
    fn settle(&mut self) -> Result<u64, AllocError>
        ensures count { IfOk result (λ count. count ≡ settling_adds (lab_in self.old)) }
        ensures after { OnOk result (lab_in self.new ≡ after_settling (lab_in self.old)) }
    {
        let count = self.world.settle()?;
        self.given.mark_below(self.world.sent_len());
        Ok(count)
    }

    /// Gives a packet of the pool, whatever the answer is.
    fn give(&mut self, packet: u32) -> Result<(), AllocError>
        requires { packet < pool_length self.old.world }
        ensures { OnOk result (lab_in self.new ≡ after_doing (lab_in self.old) (Give packet)) }
    {
        self.given.mark(packet)?;
        self.world.pass(&Step::Give { packet })
    }

    fn rests(&self) -> bool
        ensures { result ≡ rests self.now.world }
    {
        self.world.at_rest()
    }

    fn reach_text(
        &self,
        alloc: Global,
        node: NodeName,
        owner: NodeName,
    ) -> Result<String, AllocError>
        requires { IsWithinSizes (lab_sizes (lab_in self.now)) (ScriptLine.Reach node owner) }
        ensures { IfOk result (λ text. string_bytes text ≡ texts.reach_text self.now.world node owner) }
    {
        match self.world.node(node) {
            Some(node) => reached_text(alloc, node.reach(owner)),
            None => format!(in alloc; "{}", WorldFault::NotCorrect),
        }
    }
}

/// Does a step. The text is what is due for its answer.
fn taken_text(alloc: Global, world: &mut World, step: Step) -> Result<String, AllocError>
    ensures text { IfOk result (λ text. string_bytes text ≡ texts.step_text (step_due world.old step)) }
    ensures after { OnOk result (world.new ≡ after_step world.old step) }
{
    match world.step(step) {
        Ok(reply) => step_reply_text(alloc, &reply),
        Err(fault) => {
            unless_memory(fault)?;
            format!(in alloc; "{fault}")
        }
    }
}

/// Want of memory ends the script; every other fault is an answer.
fn unless_memory(fault: WorldFault) -> Result<(), AllocError>
    ensures other { OnOk result (is_want_of_memory fault ≡ false) }
    ensures memory { OnErr result (is_want_of_memory fault ≡ true) }
{
    match fault {
        WorldFault::Memory => Err(AllocError),
        WorldFault::TooManyLiars
        | WorldFault::NotCorrect
        | WorldFault::NoSuchPacket
        | WorldFault::NotSent
        | WorldFault::PoolFull
        | WorldFault::Link(_)
        | WorldFault::Node(_)
        | WorldFault::NoSession => Ok(()),
    }
}

/// Asks a node. The text is what is due for its answer.
fn asked_text(
    alloc: Global,
    world: &mut World,
    node: NodeName,
    question: Question,
) -> Result<String, AllocError>
    ensures text { IfOk result (λ text. string_bytes text ≡ texts.asked_text world.old node question) }
    ensures same { world.new ≡ world.old }
{
    match world.ask(node, question) {
        Ok(answer) => answer_text(alloc, &answer),
        Err(WorldFault::Memory) => Err(AllocError),
        Err(fault) => format!(in alloc; "{fault}"),
    }
}
