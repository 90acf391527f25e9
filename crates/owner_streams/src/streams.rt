//! The streams of all owners, as one node delivers them.

ghost use Rattle.std.specs.Prelude.{◌≡◌, ◌≢◌, ℕ, ◌+◌, ◌<◌, ◌≤◌, List, [], ◌∷◌, ◌++◌, Ok, IfOk, OnOk, OnErr};
ghost use Rattle.std.specs.Prelude.{slice_get, IfSome};
ghost use Rattle.link_frames.specs.frames.Packets.{PacketValue};
ghost use Rattle.bracha_instance.specs.declared.instance.Effect.TheVariants.{Idle, Counted};
ghost use Rattle.owner_streams.specs.Places.{place_count, window, stream, reach as reach_of};
ghost use Rattle.owner_streams.specs.LastVotes.{last_vote as last_vote_of};
ghost use Rattle.owner_streams.specs.Steps.{SendsAreOwners, step_due, IsAnswer, effect_due, again_due};
ghost use Rattle.owner_streams.specs.Values.{IsStateOf, WouldCount};
ghost use Rattle.owner_streams.specs.inside.Kept.{AreOwnerStreams};

use crate::owner_stream::OwnerStream;
use crate::steps::{Again, StreamFault, StreamStep};
use crate::vote_ends::VoteEnds;
use bracha_instance::Effect;
use link_frames::{Packet, Place};
use quorum_sizes::{NodeName, Sizes};
use role_commands::Command;
use std::alloc::{AllocError, Global};
use std::marker::Model;

/// The streams of all owners, as one node delivers them: one instance of authenticated double-echo broadcast
/// (Bracha 1987) for each owner and place.
///
/// Contracts see for each owner and place the state of that instance, whatever keeps it.
#[derive(Drop)]
pub struct Streams {
    sizes: Sizes,
    owners: Vec<OwnerStream>,
    ends: VoteEnds,
}

impl Model for Streams {
    ghost use Rattle.owner_streams.specs.Values.{StreamsValue, streams_code};

    ghost Value = { StreamsValue };

    ghost coded = { streams_code };

    ghost use Rattle.owner_streams.specs.inside.Kept.{streams_value, AreOwnerStreams};

    ghost view = { streams_value };

    ghost invariant = { AreOwnerStreams };
}

impl Streams {
    /// The streams of a cluster of these sizes, of which nothing was taken.
    ///
    /// # Errors
    ///
    /// Memory runs out.
    pub fn new(alloc: Global, sizes: Sizes) -> Result<Streams, AllocError>
        ensures sizes { IfOk result (λ streams. streams.sizes ≡ sizes) }
        ensures state { IfOk result (λ streams. IsStateOf streams []) }
    {
        let mut owners = Vec::new(alloc);
        for _name in 0..sizes.n() {
            owners.push(OwnerStream::new(alloc))?;
        }
        let ends = VoteEnds::new(alloc, &sizes)?;
        Ok(Streams {
            sizes,
            owners,
            ends,
        })
    }

    /// Takes a packet, whose owner and sender must be of these sizes.
    ///
    /// The clauses speak of every list of packets of which this is the state. A message counts exactly where
    /// none of that kind from that node was among them at that owner and place. An instance is made when its
    /// first message is counted. When the stream has grown beyond its place, a compact record stands for it, for
    /// good.
    ///
    /// # Errors
    ///
    /// [`StreamFault::Beyond`], exactly where the place is not below the owner's reach and [`WINDOW`](crate::WINDOW);
    /// else [`StreamFault::Memory`], only where the message would count. Each changes nothing.
    #[inline(always)]
    pub fn take(&mut self, packet: &Packet) -> Result<StreamStep, StreamFault>
        requires from { packet.now.from < self.old.sizes.nodes }
        requires owner { packet.now.owner < self.old.sizes.nodes }
        ensures sizes { self.new.sizes ≡ self.old.sizes }
        ensures due { (packets : List PacketValue) →
            IsStateOf self.old packets → SendsAreOwners packets →
            IsAnswer (step_due self.old.sizes packets packet.now) result }
        ensures state { OnOk result ((packets : List PacketValue) → IsStateOf self.old packets →
            IsStateOf self.new (packets ++ packet.now ∷ [])) }
        ensures onward { IfOk result (λ step. step.from ≤ step.to) }
        ensures few { IfOk result (λ step. step.to ≤ step.from + window) }
        ensures bound { IfOk result (λ step. step.to ≤ place_count) }
        ensures idle { IfOk result (λ step. step.effect ≡ Idle → self.new ≡ self.old) }
        ensures err { OnErr result (self.new ≡ self.old) }
    {
        let owner = usize::from(packet.owner().index());
        let step = self.owners[owner].take(&self.sizes, packet)?;
        self.ends.count(&self.sizes, packet);
        Ok(step)
    }

    /// Takes a packet that counts, as [`take`](Self::take) does: these are the streams of some packets after which it
    /// does.
    ///
    /// # Errors
    ///
    /// Only for want of memory, which changes nothing.
    #[inline(always)]
    pub fn take_new(&mut self, packet: &Packet) -> Result<StreamStep, AllocError>
        requires from { packet.now.from < self.old.sizes.nodes }
        requires owner { packet.now.owner < self.old.sizes.nodes }
        requires counts { WouldCount self.old packet.now }
        ensures sizes { self.new.sizes ≡ self.old.sizes }
        ensures due { IfOk result (λ step. (packets : List PacketValue) →
            IsStateOf self.old packets → SendsAreOwners packets →
            step_due self.old.sizes packets packet.now ≡ Ok step) }
        ensures state { OnOk result ((packets : List PacketValue) → IsStateOf self.old packets →
            IsStateOf self.new (packets ++ packet.now ∷ [])) }
        ensures onward { IfOk result (λ step. step.from ≤ step.to) }
        ensures few { IfOk result (λ step. step.to ≤ step.from + window) }
        ensures bound { IfOk result (λ step. step.to ≤ place_count) }
        ensures counted { IfOk result (λ step. step.effect ≡ Counted) }
        ensures err { OnErr result (self.new ≡ self.old) }
    {
        let message = packet.message();
        let step = self.owners[usize::from(message.owner.index())].take_new(&self.sizes, packet)?;
        self.ends.count(&self.sizes, packet);
        Ok(step)
    }

    /// The effect that [`take`](Self::take) would answer, or its refusal. Its conditions are those of `take`.
    /// Takes no memory.
    ///
    /// # Errors
    ///
    /// [`StreamFault::Beyond`], as `take`.
    #[inline(always)]
    pub fn look(&self, packet: &Packet) -> Result<Effect, StreamFault>
        requires from { packet.now.from < self.now.sizes.nodes }
        requires owner { packet.now.owner < self.now.sizes.nodes }
        ensures due { (packets : List PacketValue) →
            IsStateOf self.now packets → SendsAreOwners packets →
            result ≡ effect_due (step_due self.now.sizes packets packet.now) }
        ensures memory { result ≢ Err StreamFault.Memory }
    {
        self.owners[usize::from(packet.owner().index())].look(packet)
    }

    /// How far the owner's stream reaches: so many of its first places are delivered without a gap. The owner
    /// must be of these sizes.
    pub fn reach(&self, owner: NodeName) -> u32
        requires { owner < self.now.sizes.nodes }
        ensures due { (packets : List PacketValue) → IsStateOf self.now packets →
            result ≡ reach_of self.now.sizes owner packets }
        ensures bound { result ≤ place_count }
    {
        self.owners[usize::from(owner.index())].reach()
    }

    /// The command at a place of the owner's stream, if the stream reaches beyond it. The owner must be of
    /// these sizes.
    pub fn command(&self, owner: NodeName, place: Place) -> Option<Command>
        requires { owner < self.now.sizes.nodes }
        ensures { (packets : List PacketValue) → IsStateOf self.now packets →
            result ≡ slice_get (stream self.now.sizes owner packets) place }
    {
        self.owners[usize::from(owner.index())].command(place)
    }

    /// What this node has sent to all at a place of the owner's stream. The owner must be of these sizes.
    pub fn again(&self, owner: NodeName, place: Place) -> Again
        requires { owner < self.now.sizes.nodes }
        ensures { (packets : List PacketValue) → IsStateOf self.now packets →
            result ≡ again_due self.now.sizes owner place packets }
    {
        self.owners[usize::from(owner.index())].again(place)
    }

    /// The greatest place of the owner's stream at which a vote, an ECHO or a READY, of this node was counted. Both
    /// must be of these sizes. Takes no memory.
    pub fn last_vote(&self, owner: NodeName, voter: NodeName) -> Option<Place>
        requires owner { owner < self.now.sizes.nodes }
        requires voter { voter < self.now.sizes.nodes }
        ensures due { (packets : List PacketValue) → IsStateOf self.now packets →
            result ≡ last_vote_of owner voter packets }
        ensures bound { IfSome result (λ place. place < place_count) }
    {
        self.ends.last_vote(&self.sizes, owner, voter)
    }
}
