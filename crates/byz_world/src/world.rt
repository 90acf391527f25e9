//! A cluster of which some nodes lie.

ghost use Rattle.std.specs.Prelude.{◌≡◌, ℕ, ◌<◌, ◌≤◌, ◌+◌, ◌*◌, ◌++◌, ◌∷◌, [], List, length, not, nat_lt, ◌&&◌};
ghost use Rattle.std.specs.Prelude.{slice_get, min, IfOk, IfSome, OnOk, OnErr, Ok, Some, IsTrue, ◌↔◌, if◌then◌else◌};
ghost use Rattle.std.specs.Option.{option_copied};
ghost use Rattle.std.specs.Vec.{vec_len, vec_capacity};
ghost use Rattle.quorum_sizes.specs.Sizes.{AreSizes};
ghost use Rattle.link_frames.specs.frames.Packets.{IsPacket, message_of};
ghost use Rattle.role_node.specs.Access.{verdict_at};
ghost use Rattle.role_node.specs.Answers.{outlook, reply_to};
ghost use Rattle.role_node.specs.Listed.{IsWithin};
ghost use Rattle.role_node.specs.Questions.{IsAnswerTo};
ghost use Rattle.role_node.specs.Nodes.{NodeValue};
ghost use Rattle.bracha_instance.specs.declared.instance.Effect.TheVariants.{Counted};
ghost use Rattle.byz_world.specs.Runs.{history_of, has_sent};
ghost use Rattle.byz_world.specs.LabKeys.{ring_due};
ghost use Rattle.byz_world.specs.Pools.{pool};
ghost use Rattle.byz_world.specs.Worlds.{new_world, is_correct_in, node_due};
ghost use Rattle.byz_world.specs.Steps.{arrival, opened_at, unless_forged, arrives, is_forged, is_pool_full};
ghost use Rattle.byz_world.specs.Steps.{with_run, adds, after_step, after_steps, IsStepAnswer};
ghost use Rattle.byz_world.specs.Settled.{after_gives};
ghost use Rattle.byz_world.specs.Settled.{IsProlonged, MayAdd};
ghost use Rattle.byz_world.specs.inside.Blocks.{IsBlock, StartsBlock};
ghost use Rattle.byz_world.specs.Agreement.{agree_due};
ghost use Rattle.byz_world.specs.Runs.{reach_of};
ghost use Rattle.byz_world.specs.Resting.{IsAtRest};
ghost use Rattle.byz_world.specs.Asking.{IsMade, IsQuestionAnswer};
ghost use Rattle.byz_world.specs.Checks.{decision_due};
ghost use Rattle.byz_world.specs.inside.Kept.{MayHappen, MayArrive, result_reply};
ghost use Rattle.byz_world.specs.Worlds.{IsClusterRunOf};
ghost use Rattle.byz_world.specs.declared.step.Step.{Step};
ghost use Rattle.byz_world.specs.declared.step.Step.TheVariants.{Issue, Give, Lie, Bytes, Client};

use crate::block::{give_to_each, make_room, note_block};
use crate::cursor::PacketCursor;
use crate::faults::WorldFault;
use crate::keys::{keys_of, new_keys};
use crate::members::{ask_at, check_at, has_sent, has_taken_all, member, new_members, record_at};
use crate::notes::{note_name, note_sent, step_reply};
use crate::step::{Step, StepOutcome, StepReply};
use bracha_instance::Effect;
use link_frames::{LinkFault, Message, Packet, PairKeys, open_frame};
use quorum_sizes::{NodeName, NodeSet, Sizes};
use role_commands::Command;
use role_node::{Answer, ClientEvent, Config, Entry, Event, Node, NodeFault, Question};
use role_sessions::Verdict;
use std::alloc::{AllocError, Global};
use std::marker::Model;

/// So many messages are given at once at most, and not fewer packets than these.
const BLOCK_MOST: u32 = 64;

const BLOCK_LEAST: u32 = 64;

/// A cluster of which some nodes lie: the correct nodes, and what happened at them.
///
/// Contracts see the configuration of the nodes, who lies, and the run: who recorded what, in the order in which it
/// happened. All else follows from these.
#[derive(Drop)]
pub struct World {
    config: Config,
    liars: NodeSet,
    members: Vec<Option<Node>>,
    keys: Vec<Option<PairKeys>>,
    order: Vec<NodeName>,
    sent: Vec<(NodeName, Message)>,
    cursor: PacketCursor,
}

impl Model for World {
    ghost use Rattle.byz_world.specs.Worlds.{WorldValue, world_code};

    ghost Value = { WorldValue };

    ghost coded = { world_code };

    ghost use Rattle.byz_world.specs.inside.Fields.{world_value, IsWorld};

    ghost view = { world_value };

    ghost invariant = { IsWorld };
}

impl World {
    /// A world in which nothing has happened, whose correct nodes have laboratory keys. Names among the liars that are
    /// no nodes are passed over.
    ///
    /// # Errors
    ///
    /// [`WorldFault::TooManyLiars`] exactly where more nodes lie than may; then [`WorldFault::Memory`].
    pub fn new(alloc: Global, config: Config, liars: NodeSet) -> Result<World, WorldFault>
        ensures due { IsMade config liars result }
        ensures ok { IfOk result (λ world. world ≡ new_world config liars) }
        ensures run { IfOk result IsClusterRunOf }
    {
        let sizes = config.roles().sizes();
        if liars.count_among(&sizes) > usize::from(sizes.f()) {
            return Err(WorldFault::TooManyLiars);
        }
        let members = new_members(alloc, &config, &liars)?;
        let keys = new_keys(alloc, sizes, &liars)?;
        Ok(World {
            config,
            liars,
            members,
            keys,
            order: Vec::new(alloc),
            sent: Vec::new(alloc),
            cursor: PacketCursor::new(sizes.n()),
        })
    }

    /// The world after these steps. A step that is refused is passed over.
    ///
    /// # Errors
    ///
    /// As [`new`](Self::new); also where a step wants memory.
    pub fn run(
        alloc: Global,
        config: Config,
        liars: NodeSet,
        steps: &[Step],
    ) -> Result<World, WorldFault>
        ensures due { IsMade config liars result }
        ensures ok { IfOk result (λ world. world ≡ after_steps (new_world config liars) steps.now) }
        ensures run { IfOk result IsClusterRunOf }
    {
        let mut world = World::new(alloc, config, liars)?;
        for step in steps {
            world.pass(step)?;
        }
        Ok(world)
    }

    /// Does a step whose answer nobody asks for. Where it is refused it is passed over.
    ///
    /// # Errors
    ///
    /// Only for want of memory, where the step would add to the run. The world stays as it was.
    pub fn pass(&mut self, step: &Step) -> Result<(), AllocError>
        ensures after { OnOk result (self.new ≡ after_step self.old step.now) }
        ensures err { OnErr result (self.new ≡ self.old) }
        ensures memory { OnErr result (IsTrue (adds self.old step.now)) }
        ensures run { IsClusterRunOf self.new }
    {
        if let Step::Give { packet } = step {
            return self.pass_packet(*packet);
        }
        let Err(fault) = self.answer(step) else {
            return Ok(());
        };
        match fault {
            WorldFault::Memory => Err(AllocError),
            _ => Ok(()),
        }
    }

    /// Gives packets of the pool, one after another from this number on, whatever comes of each: as many as may be
    /// given at once, at least one, and at most `most`. How many they were.
    ///
    /// # Errors
    ///
    /// Only for want of memory, where some packet of the pool would still be recorded. What was given until then stays
    /// so.
    pub fn give_some(&mut self, first: u32, most: u32) -> Result<u32, AllocError>
        requires first { first < length (pool self.old.config self.old.run) }
        requires most { 0 < most }
        ensures some { IfOk result (λ count. 0 < count) }
        ensures most { IfOk result (λ count. count ≤ most) }
        ensures pooled { IfOk result (λ count. first + count ≤ length (pool self.old.config self.old.run)) }
        ensures after { IfOk result (λ count. self.new ≡ after_gives self.old first count) }
        ensures prolonged { IsProlonged self.old self.new }
        ensures memory { OnErr result (MayAdd self.new) }
        ensures run { IsClusterRunOf self.new }
    {
        let count = self.block_at(first, most);
        if count == 0 {
            return self.give_one(first);
        }
        let nodes = u32::from(self.sizes().n());
        let given = self.give_block((first / nodes) as usize, count as usize)?;
        if given {
            return Ok(count * nodes);
        }
        self.give_one(first)
    }

    /// Gives one packet, whatever comes of it. How many it was.
    fn give_one(&mut self, packet: u32) -> Result<u32, AllocError>
        ensures one { IfOk result (λ count. count ≡ 1) }
        ensures after { IfOk result (λ count. self.new ≡ after_gives self.old packet count) }
        ensures prolonged { IsProlonged self.old self.new }
        ensures memory { OnErr result (MayAdd self.new) }
        ensures run { IsClusterRunOf self.new }
    {
        self.pass_packet(packet)?;
        Ok(1)
    }

    /// How many messages may be given at once from this packet on: none where it is not the first of a message, or
    /// where they are too few packets to be worth it.
    fn block_at(&self, packet: u32, most: u32) -> u32
        requires { packet < length (pool self.now.config self.now.run) }
        ensures block { 0 < result → StartsBlock self.now packet most result }
        ensures run { IsClusterRunOf self.now }
    {
        let nodes = u32::from(self.sizes().n());
        let pooled = self.sent_len();
        let count = ((pooled - packet).min(most) / nodes).min(BLOCK_MOST);
        if packet % nodes != 0 || count * nodes < BLOCK_LEAST {
            return 0;
        }
        if self.config.limit() < pooled + (count * nodes + 1) * nodes {
            return 0;
        }
        count
    }

    /// Gives so many messages of the pool from this one on, to one node after another, where there is memory for what
    /// they may cause. Whether there was.
    fn give_block(&mut self, first: usize, count: usize) -> Result<bool, AllocError>
        requires { IsBlock self.old first count }
        ensures after { let n = self.old.config.roles.sizes.nodes in IfOk result (λ given.
            self.new ≡ (if given then after_gives self.old (first * n) (count * n) else self.old)) }
        ensures prolonged { IsProlonged self.old self.new }
        ensures memory { OnErr result (MayAdd self.new) }
        ensures run { IsClusterRunOf self.new }
    {
        let sizes = self.sizes();
        let packets = count * usize::from(sizes.n());
        let mut marks = Vec::new(*self.order.allocator());
        let room = make_room(&mut self.order, &mut self.sent, &mut marks, packets);
        if room.is_err() {
            return Ok(false);
        }
        let given = give_to_each(
            &mut self.members,
            &self.sent[first..first + count],
            &mut marks,
        );
        note_block(
            &mut self.order,
            &mut self.sent,
            &sizes,
            first,
            count,
            &marks,
        );
        given?;
        Ok(true)
    }

    /// As `pass`. Packets of the pool come by the million: this hands on no answer.
    #[inline(never)]
    fn pass_packet(&mut self, number: u32) -> Result<(), AllocError>
        ensures after { OnOk result (self.new ≡ after_step self.old (Give number)) }
        ensures err { OnErr result (self.new ≡ self.old) }
        ensures memory { OnErr result (IsTrue (adds self.old (Give number))) }
        ensures run { IsClusterRunOf self.new }
    {
        match self.seek(number) {
            Some(packet) => self.pass_on(packet),
            None => Ok(()),
        }
    }

    /// A packet that may be taken comes to its receiver, and nobody asks what comes of it.
    #[inline(always)]
    fn pass_on(&mut self, packet: Packet) -> Result<(), AllocError>
        requires { MayArrive self.old (arrives self.old packet) }
        ensures after { (step : Step) → arrival self.old step ≡ arrives self.old packet →
            OnOk result (self.new ≡ after_step self.old step) }
        ensures err { OnErr result (self.new ≡ self.old) }
        ensures memory { (step : Step) → arrival self.old step ≡ arrives self.old packet →
            OnErr result (IsTrue (adds self.old step)) }
        ensures run { IsClusterRunOf self.new }
    {
        let to = packet.to();
        if !self.is_correct(to) {
            return Ok(());
        }
        if self.is_full() {
            return Ok(());
        }
        let Err(fault) = self.answer_event(to, &Event::Take(packet)) else {
            return Ok(());
        };
        match fault {
            WorldFault::Memory => Err(AllocError),
            _ => Ok(()),
        }
    }

    /// Does a step: an event that its node records is one more of the run, and what the node sends to all is in the
    /// pool.
    ///
    /// # Errors
    ///
    /// The first that holds of those of its kind, with the node's own; then want of memory, only where the node would
    /// record. The world stays as it was.
    pub fn step(&mut self, step: Step) -> Result<StepReply, WorldFault>
        ensures due { IsStepAnswer self.old step result }
        ensures ok { OnOk result (self.new ≡ after_step self.old step) }
        ensures err { OnErr result (self.new ≡ self.old) }
        ensures run { IsClusterRunOf self.new }
    {
        let first = self.sent_len();
        let nodes = self.sizes().n();
        let outcome = self.answer(&step)?;
        Ok(step_reply(&outcome, first, nodes))
    }

    fn answer(&mut self, step: &Step) -> Result<StepOutcome, WorldFault>
        ensures due { IsStepAnswer self.old step.now (result_reply self.old result) }
        ensures ok { OnOk result (self.new ≡ after_step self.old step.now) }
        ensures err { OnErr result (self.new ≡ self.old) }
        ensures run { IsClusterRunOf self.new }
    {
        match step {
            Step::Issue { node, command } => self.issue(*node, *command),
            Step::Give { packet } => self.give(*packet),
            Step::Lie { packet } => self.lie(packet),
            Step::Bytes { to, bytes } => self.receive(*to, bytes.as_slice()),
            Step::Client { node, event } => self.act(*node, *event),
        }
    }

    /// A correct node publishes a command.
    fn issue(&mut self, name: NodeName, command: Command) -> Result<StepOutcome, WorldFault>
        ensures due { IsStepAnswer self.old (Issue name command) (result_reply self.old result) }
        ensures ok { OnOk result (self.new ≡ after_step self.old (Issue name command)) }
        ensures err { OnErr result (self.new ≡ self.old) }
        ensures run { IsClusterRunOf self.new }
    {
        if !self.is_correct(name) {
            return Err(WorldFault::NotCorrect);
        }
        if self.is_full() {
            return Err(WorldFault::PoolFull);
        }
        self.answer_event(name, &Event::Issue(command))
    }

    /// The packet of this number comes to its receiver.
    fn give(&mut self, number: u32) -> Result<StepOutcome, WorldFault>
        ensures due { IsStepAnswer self.old (Give number) (result_reply self.old result) }
        ensures ok { OnOk result (self.new ≡ after_step self.old (Give number)) }
        ensures err { OnErr result (self.new ≡ self.old) }
        ensures run { IsClusterRunOf self.new }
    {
        match self.sent(number) {
            Some(packet) => self.arrive(packet),
            None => Err(WorldFault::NoSuchPacket),
        }
    }

    /// A packet comes to its receiver that anybody may have sent.
    fn lie(&mut self, packet: &Packet) -> Result<StepOutcome, WorldFault>
        ensures due { IsStepAnswer self.old (Lie packet.now) (result_reply self.old result) }
        ensures ok { OnOk result (self.new ≡ after_step self.old (Lie packet.now)) }
        ensures err { OnErr result (self.new ≡ self.old) }
        ensures run { IsClusterRunOf self.new }
    {
        if !self.is_between_nodes(packet) {
            return Err(WorldFault::NotCorrect);
        }
        self.unless_forged(*packet)
    }

    /// Bytes come to a correct node.
    fn receive(&mut self, to: NodeName, bytes: &[u8]) -> Result<StepOutcome, WorldFault>
        ensures due { IsStepAnswer self.old (Bytes to bytes.now) (result_reply self.old result) }
        ensures ok { OnOk result (self.new ≡ after_step self.old (Bytes to bytes.now)) }
        ensures err { OnErr result (self.new ≡ self.old) }
        ensures run { IsClusterRunOf self.new }
    {
        match self.opened_at(to, bytes) {
            Some(opened) => self.unless_forged(opened?),
            None => Err(WorldFault::NotCorrect),
        }
    }

    /// A client acts at a correct node.
    fn act(&mut self, name: NodeName, act: ClientEvent) -> Result<StepOutcome, WorldFault>
        ensures due { IsStepAnswer self.old (Client name act) (result_reply self.old result) }
        ensures ok { OnOk result (self.new ≡ after_step self.old (Client name act)) }
        ensures err { OnErr result (self.new ≡ self.old) }
        ensures run { IsClusterRunOf self.new }
    {
        if !self.is_correct(name) {
            return Err(WorldFault::NotCorrect);
        }
        self.answer_event(name, &Event::Client(act))
    }

    /// A packet comes to its receiver, unless it is forged.
    fn unless_forged(&mut self, packet: Packet) -> Result<StepOutcome, WorldFault>
        ensures due { (step : Step) → arrival self.old step ≡ unless_forged self.old packet →
            IsStepAnswer self.old step (result_reply self.old result) }
        ensures ok { (step : Step) → arrival self.old step ≡ unless_forged self.old packet →
            OnOk result (self.new ≡ after_step self.old step) }
        ensures err { OnErr result (self.new ≡ self.old) }
        ensures run { IsClusterRunOf self.new }
    {
        if self.is_forged(&packet) {
            return Err(WorldFault::NotSent);
        }
        self.arrive(packet)
    }

    /// A packet that may be taken comes to its receiver. A liar absorbs it.
    fn arrive(&mut self, packet: Packet) -> Result<StepOutcome, WorldFault>
        requires { MayArrive self.old (arrives self.old packet) }
        ensures due { (step : Step) → arrival self.old step ≡ arrives self.old packet →
            IsStepAnswer self.old step (result_reply self.old result) }
        ensures ok { (step : Step) → arrival self.old step ≡ arrives self.old packet →
            OnOk result (self.new ≡ after_step self.old step) }
        ensures err { OnErr result (self.new ≡ self.old) }
        ensures run { IsClusterRunOf self.new }
    {
        let to = packet.to();
        if !self.is_correct(to) {
            return Ok(StepOutcome::Absorbed);
        }
        if self.is_full() {
            return Err(WorldFault::PoolFull);
        }
        self.answer_event(to, &Event::Take(packet))
    }

    /// Whether the packet is from a node to a node.
    fn is_between_nodes(&self, packet: &Packet) -> bool
        ensures value { let nodes = self.now.config.roles.sizes.nodes in
            result ≡ (nat_lt packet.now.from nodes && nat_lt packet.now.to nodes) }
        ensures run { IsClusterRunOf self.now }
    {
        let sizes = self.sizes();
        sizes.has(packet.from()) && sizes.has(packet.to())
    }

    /// Whether the pool has no room for what a node may send.
    #[inline(always)]
    fn is_full(&self) -> bool
        ensures { result ≡ is_pool_full self.now }
    {
        self.config.limit() < self.sent_len() + u32::from(self.sizes().n())
    }

    /// What comes of bytes that arrive at a correct node.
    fn opened_at(&self, to: NodeName, bytes: &[u8]) -> Option<Result<Packet, LinkFault>>
        ensures opened { result ≡ opened_at self.now to bytes.now }
        ensures run { IsClusterRunOf self.now }
    {
        Some(open_frame(self.keys(to)?, &self.sizes(), self.config.cluster(), bytes))
    }

    /// The keys of the correct node of this name.
    fn keys(&self, name: NodeName) -> Option<&PairKeys>
        ensures value { option_copied result ≡ ring_due self.now.config.roles.sizes self.now.liars name }
        ensures run { IsClusterRunOf self.now }
    {
        keys_of(&self.keys, name)
    }

    /// Whether the packet is in the name of a correct node that has not sent it.
    fn is_forged(&self, packet: &Packet) -> bool
        ensures forged { result ≡ is_forged self.now packet.now }
        ensures kept { IsPacket packet.now }
        ensures run { IsClusterRunOf self.now }
    {
        let message = packet.message();
        match self.node(packet.from()) {
            Some(node) => !self.sizes().has(message.owner) || !has_sent(node, &message),
            None => false,
        }
    }

    /// Has a node answer an event.
    #[inline(always)]
    fn answer_event(&mut self, name: NodeName, event: &Event) -> Result<StepOutcome, WorldFault>
        requires { MayHappen self.old name event.now }
        ensures due { (step : Step) → arrival self.old step ≡ Ok (Some (name, event.now)) →
            IsStepAnswer self.old step (result_reply self.old result) }
        ensures ok { (step : Step) → arrival self.old step ≡ Ok (Some (name, event.now)) →
            OnOk result (self.new ≡ after_step self.old step) }
        ensures err { OnErr result (self.new ≡ self.old) }
        ensures run { IsClusterRunOf self.new }
    {
        match self.look(name, event)? {
            Effect::Counted => Ok(StepOutcome::Recorded(self.record(name, event)?)),
            Effect::Idle => Ok(StepOutcome::Idle),
        }
    }

    /// The first refusal of a node, or whether the event counts there.
    #[inline(always)]
    fn look(&self, name: NodeName, event: &Event) -> Result<Effect, NodeFault>
        requires { IsTrue (is_correct_in self.now name) }
        ensures due { result ≡ outlook self.now.config name (history_of name self.now.run) event.now }
        ensures run { IsClusterRunOf self.now }
    {
        match self.node(name) {
            Some(node) => node.look(event),
            None => unreachable!(),
        }
    }

    /// Has a node record an event that counts, and keeps what it sends. Room is made before.
    #[inline(always)]
    fn record(&mut self, name: NodeName, event: &Event) -> Result<Entry, AllocError>
        requires may { MayHappen self.old name event.now }
        requires counts { outlook self.old.config name (history_of name self.old.run) event.now ≡ Ok Counted }
        ensures reply { IfOk result (λ entry.
            entry.reply ≡ reply_to self.old.config.roles name (history_of name self.old.run) event.now) }
        ensures ok { OnOk result (self.new ≡ with_run self.old (self.old.run ++ (name, event.now) ∷ [])) }
        ensures err { OnErr result (self.new ≡ self.old) }
        ensures run { IsClusterRunOf self.new }
    {
        self.order.try_reserve(1)?;
        self.sent.try_reserve(1)?;
        let entry = record_at(&mut self.members, name, event)?;
        note_name(&mut self.order, name);
        note_sent(&mut self.sent, name, entry.reply().message());
        Ok(entry)
    }

    /// The answer to a question at a correct node. Nothing is recorded.
    ///
    /// # Errors
    ///
    /// [`WorldFault::NotCorrect`] where it is no correct node, [`WorldFault::NoSession`] where a session is to be
    /// listed that is not open there; then, for a listing alone, want of memory.
    pub fn ask(&mut self, name: NodeName, question: Question) -> Result<Answer, WorldFault>
        ensures due { IsQuestionAnswer self.old name question result }
        ensures answer { IfOk result (IsAnswerTo self.old.config.roles (history_of name self.old.run) question) }
        ensures within { IfOk result IsWithin }
        ensures same { self.new ≡ self.old }
        ensures run { IsClusterRunOf self.new }
    {
        if !self.is_correct(name) {
            return Err(WorldFault::NotCorrect);
        }
        Ok(ask_at(&mut self.members, name, question)?)
    }

    /// The decision on an access at a correct node; `None` where it is none. It takes no memory and records nothing.
    pub fn check(
        &mut self,
        name: NodeName,
        session: u64,
        user: u32,
        operation: u16,
        object: u32,
    ) -> Option<Verdict>
        ensures decision { let w = self.old in
            result ≡ decision_due w.config w.liars w.run name session user operation object }
        ensures same { self.new ≡ self.old }
        ensures run { IsClusterRunOf self.new }
    {
        if !self.is_correct(name) {
            return None;
        }
        Some(check_at(&mut self.members, name, session, user, operation, object))
    }

    /// What the correct nodes were told at their start.
    pub fn config(&self) -> &Config
        ensures value { result.now ≡ self.now.config }
        ensures run { IsClusterRunOf self.now }
    {
        &self.config
    }

    /// How many nodes there are, and how many of them may lie.
    pub fn sizes(&self) -> Sizes
        ensures value { result ≡ self.now.config.roles.sizes }
        ensures run { IsClusterRunOf self.now }
    {
        self.config.roles().sizes()
    }

    /// The correct node of this name.
    pub fn node(&self, name: NodeName) -> Option<&Node>
        ensures value { option_copied result ≡ node_due self.now name }
        ensures run { IsClusterRunOf self.now }
    {
        member(&self.members, name)
    }

    #[inline(always)]
    fn is_correct(&self, name: NodeName) -> bool
        ensures value { result ≡ is_correct_in self.now name }
        ensures run { IsClusterRunOf self.now }
    {
        self.node(name).is_some()
    }

    /// The packet of this number that a correct node has sent.
    #[inline(always)]
    pub fn sent(&self, number: u32) -> Option<Packet>
        ensures value { result ≡ slice_get (pool self.now.config self.now.run) number }
        ensures run { IsClusterRunOf self.now }
    {
        let nodes = u32::from(self.sizes().n());
        let to = self.sizes().name((number % nodes) as u8).unwrap();
        match self.sent.get((number / nodes) as usize) {
            Some((from, message)) => Packet::new(*from, to, *message),
            None => None,
        }
    }

    /// As `sent`, and by a few instructions where the packet is the next after the one that was looked up last.
    #[inline(always)]
    fn seek(&mut self, number: u32) -> Option<Packet>
        ensures value { result ≡ slice_get (pool self.old.config self.old.run) number }
        ensures same { self.new ≡ self.old }
        ensures run { IsClusterRunOf self.new }
    {
        let (message, to) = self.cursor.seek(number);
        let to = self.sizes().name(to).unwrap();
        match self.sent.get(message as usize) {
            Some(sent) => Packet::new(sent.0, to, sent.1),
            None => None,
        }
    }

    /// How many packets the correct nodes have sent.
    #[inline(always)]
    pub fn sent_len(&self) -> u32
        ensures value { result ≡ length (pool self.now.config self.now.run) }
        ensures limit { result ≤ self.now.config.limit }
        ensures run { IsClusterRunOf self.now }
    {
        self.sent.len() as u32 * u32::from(self.sizes().n())
    }

    /// How many events the correct nodes have recorded.
    pub fn run_len(&self) -> u64
        ensures value { result ≡ length self.now.run }
        ensures run { IsClusterRunOf self.now }
    {
        self.order.len() as u64
    }

    /// How far two correct nodes' streams of an owner agree: the length of the longest list that both begin with.
    /// `None` where one is no correct node or the owner is no node.
    pub fn agree(&self, i: NodeName, j: NodeName, owner: NodeName) -> Option<u32>
        ensures due { result ≡ agree_due self.now i j owner }
        ensures least { IfSome result (λ length. let w = self.now in
            length ≡ min (reach_of w.config w.run i owner) (reach_of w.config w.run j owner)) }
        ensures run { IsClusterRunOf self.now }
    {
        let (Some(a), Some(b)) = (self.node(i), self.node(j)) else {
            return None;
        };
        if !self.sizes().has(owner) {
            return None;
        }
        Some(a.reach(owner).min(b.reach(owner)))
    }

    /// Whether each packet that a correct node has sent to a correct node was taken there.
    pub fn at_rest(&self) -> bool
        ensures value { IsTrue result ↔ IsAtRest self.now.config self.now.liars self.now.run }
        ensures run { IsClusterRunOf self.now }
    {
        self.members
            .iter()
            .all(|member| has_taken_all(member, &self.sent))
    }
}
