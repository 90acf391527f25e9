//! One owner's stream: records of what it reaches beyond, and the instances of its window.

ghost use Rattle.std.specs.Prelude.{◌≡◌, ◌≢◌, ℕ, ◌+◌, ◌<◌, ◌≤◌, false, List, [], ◌∷◌, ◌++◌};
ghost use Rattle.std.specs.Prelude.{length, max, IsSome, IfOk, OnOk, OnErr, is_some, slice_get};
ghost use Rattle.std.specs.Prelude.{slice_set, vec_len, vec_capacity, Some, None, IfSome, Ok};
ghost use Rattle.std.specs.Option.{option_copied};
ghost use Rattle.quorum_sizes.specs.Sizes.{Counts};
ghost use Rattle.link_frames.specs.frames.Packets.{PacketValue};
ghost use Rattle.bracha_instance.specs.Broadcast.{Take, vote};
ghost use Rattle.bracha_instance.specs.Taking.{SendsAreFrom};
ghost use Rattle.bracha_instance.specs.States.{state};
ghost use Rattle.bracha_instance.specs.declared.instance.Effect.TheVariants.{Idle, Counted};
ghost use Rattle.owner_streams.specs.Places.{place_count, window, take_of, stream, reach as reach_of};
ghost use Rattle.owner_streams.specs.Steps.{SendsAreOwners, step_due, IsAnswer, effect_due};
ghost use Rattle.owner_streams.specs.inside.Slots.{slot_at, state_in, delivered_in, again_in, voted_in, GoesOn};
ghost use Rattle.owner_streams.specs.inside.Slots.{IsAnswerAt};
ghost use Rattle.owner_streams.specs.inside.Kept.{reach_in, held, IsOwnerStream, AreStatesOf, SamePlaces};
ghost use Rattle.owner_streams.specs.inside.Kept.{command_in, look_in};

use crate::steps::{Again, StreamFault, StreamStep};
use bracha_instance::{Caused, Effect, Instance, Record};
use link_frames::{Kind, Packet, Place};
use quorum_sizes::{NodeName, Sizes};
use role_commands::Command;
use std::alloc::{AllocError, Global};

/// So many places from the reach of a stream on are taken. A packet further away is refused.
pub const WINDOW: u32 = 64;

/// An owner's stream: of the places that it reaches beyond a compact record each, and of the others the instances,
/// each made when its first message is counted.
///
/// The instances stand in a ring: the window is as long as the ring, so each of its places has the slot of its
/// remainder. When the stream grows, what it grows by moves to the records and frees its slot.
#[derive(Drop)]
pub(crate) struct OwnerStream {
    below: Vec<Record>,
    ring: Vec<Option<Instance>>,
}

impl OwnerStream {
    /// A stream of which nothing was taken. Takes no memory.
    pub(crate) fn new(alloc: Global) -> Self
        ensures below { result.below.items ≡ [] }
        ensures ring { result.ring.items ≡ [] }
    {
        OwnerStream {
            below: Vec::new(alloc),
            ring: Vec::new(alloc),
        }
    }

    /// Takes a packet of this owner. An `Err` changes nothing that the places hold.
    #[inline(always)]
    pub(crate) fn take(&mut self, sizes: &Sizes, packet: &Packet) -> Result<StreamStep, StreamFault>
        requires from { packet.now.from < sizes.now.nodes }
        requires kept { IsOwnerStream sizes.now self.old }
        ensures kept { IsOwnerStream sizes.now self.new }
        ensures due { (packets : List PacketValue) →
            AreStatesOf sizes.now packet.now.owner self.old packets → SendsAreOwners packets →
            IsAnswer (step_due sizes.now packets packet.now) result }
        ensures state { OnOk result ((packets : List PacketValue) →
            AreStatesOf sizes.now packet.now.owner self.old packets →
            AreStatesOf sizes.now packet.now.owner self.new (packets ++ packet.now ∷ [])) }
        ensures onward { IfOk result (λ step. step.from ≤ step.to) }
        ensures few { IfOk result (λ step. step.to ≤ step.from + window) }
        ensures bound { IfOk result (λ step. step.to ≤ place_count) }
        ensures idle { IfOk result (λ step. step.effect ≡ Idle → SamePlaces self.old self.new) }
        ensures err { OnErr result (SamePlaces self.old self.new) }
    {
        let from = self.reach();
        if let Effect::Idle = self.look(packet)? {
            return Ok(StreamStep {
                effect: Effect::Idle,
                broadcast: None,
                delivered: None,
                from,
                to: from,
            });
        }
        Ok(self.take_new(sizes, packet)?)
    }

    /// Takes a packet of this owner that counts. An `Err` changes nothing that the places hold.
    #[inline(always)]
    pub(crate) fn take_new(
        &mut self,
        sizes: &Sizes,
        packet: &Packet,
    ) -> Result<StreamStep, AllocError>
        requires from { packet.now.from < sizes.now.nodes }
        requires kept { IsOwnerStream sizes.now self.old }
        requires counts { look_in self.old packet.now ≡ Ok Counted }
        requires due { (packets : List PacketValue) →
            AreStatesOf sizes.now packet.now.owner self.old packets → SendsAreOwners packets →
            effect_due (step_due sizes.now packets packet.now) ≡ Ok Counted }
        ensures kept { IsOwnerStream sizes.now self.new }
        ensures due { IfOk result (λ step. (packets : List PacketValue) →
            AreStatesOf sizes.now packet.now.owner self.old packets → SendsAreOwners packets →
            step_due sizes.now packets packet.now ≡ Ok step) }
        ensures state { OnOk result ((packets : List PacketValue) →
            AreStatesOf sizes.now packet.now.owner self.old packets →
            AreStatesOf sizes.now packet.now.owner self.new (packets ++ packet.now ∷ [])) }
        ensures onward { IfOk result (λ step. step.from ≤ step.to) }
        ensures few { IfOk result (λ step. step.to ≤ step.from + window) }
        ensures bound { IfOk result (λ step. step.to ≤ place_count) }
        ensures counted { IfOk result (λ step. step.effect ≡ Counted) }
        ensures err { OnErr result (SamePlaces self.old self.new) }
    {
        let from = self.reach();
        let caused = self.take_at(sizes, packet)?;
        self.advance_if(caused.delivers);
        let taken = caused.taken(packet.command());
        Ok(StreamStep {
            effect: Effect::Counted,
            broadcast: taken.broadcast,
            delivered: taken.delivered,
            from,
            to: self.reach(),
        })
    }

    /// Takes a packet at its place. No other place is changed, and there is room for a whole window of records.
    #[inline(always)]
    fn take_at(&mut self, sizes: &Sizes, packet: &Packet) -> Result<Caused, AllocError>
        requires from { packet.now.from < sizes.now.nodes }
        requires window { packet.now.place < reach_in self.old + window }
        requires new { voted_in (held self.old packet.now.place) packet.now.kind packet.now.from ≡ false }
        ensures reach { reach_in self.new ≡ reach_in self.old }
        ensures room { OnOk result (reach_in self.new + window ≤ vec_capacity self.new.below) }
        ensures others { (place : ℕ) → place ≢ packet.now.place → held self.new place ≡ held self.old place }
        ensures in_range { packet.now.place < place_count }
        ensures state { let here = packet.now.place in OnOk result
            (GoesOn sizes.now (held self.old here) (held self.new here) (take_of packet.now)) }
        ensures caused { let here = packet.now.place in IfOk result
            (λ caused. IsAnswerAt sizes.now (held self.old here) (take_of packet.now) caused) }
        ensures err { let here = packet.now.place in OnErr result (held self.new here ≡ held self.old here) }
    {
        let place = packet.place() as usize;
        self.below.reserve(WINDOW as usize)?;
        if place < self.below.len() {
            return Ok(take_record(&mut self.below, place, packet));
        }
        take_slot(&mut self.ring, place % WINDOW as usize, sizes, packet)
    }

    /// Moves what is delivered at the front of the window to the records, where something was delivered. Only then
    /// can there be any.
    #[inline(always)]
    fn advance_if(&mut self, is_delivered: bool)
        requires room { reach_in self.old + window ≤ vec_capacity self.old.below }
        requires run { (place : ℕ) → place < reach_in self.old → IsSome (delivered_in (held self.old place)) }
        requires run_ends { is_delivered ≡ false → delivered_in (held self.old (reach_in self.old)) ≡ None }
        ensures run { (place : ℕ) → place < reach_in self.new → IsSome (delivered_in (held self.new place)) }
        ensures same { SamePlaces self.old self.new }
        ensures run_ends { delivered_in (held self.new (reach_in self.new)) ≡ None }
        ensures onward { reach_in self.old ≤ reach_in self.new }
        ensures few { reach_in self.new ≤ reach_in self.old + window }
    {
        if is_delivered {
            self.advance();
        }
    }

    /// Moves what is delivered at the front of the window to the records, until something is not delivered there.
    fn advance(&mut self)
        requires room { reach_in self.old + window ≤ vec_capacity self.old.below }
        requires run { (place : ℕ) → place < reach_in self.old → IsSome (delivered_in (held self.old place)) }
        ensures run { (place : ℕ) → place < reach_in self.new → IsSome (delivered_in (held self.new place)) }
        ensures same { SamePlaces self.old self.new }
        ensures run_ends { delivered_in (held self.new (reach_in self.new)) ≡ None }
        ensures onward { reach_in self.old ≤ reach_in self.new }
        ensures few { reach_in self.new ≤ reach_in self.old + window }
    {
        while let Some(settled) = self.front() {
            self.retire_front(settled);
        }
    }

    /// Keeps the front of the window as this record, and frees its slot.
    fn retire_front(&mut self, settled: Record)
        requires room { reach_in self.old < vec_capacity self.old.below }
        requires front { held self.old (reach_in self.old) ≡ Some settled }
        ensures same { SamePlaces self.old self.new }
        ensures reach { reach_in self.new ≡ reach_in self.old + 1 }
        ensures capacity { vec_capacity self.old.below ≤ vec_capacity self.new.below }
    {
        let slot = self.below.len() % WINDOW as usize;
        push_record(&mut self.below, settled);
        free_slot(&mut self.ring, slot);
    }

    /// The record of the first place of the window, if it is delivered.
    fn front(&self) -> Option<Record>
        ensures delivered { is_some result ≡ is_some (delivered_in (held self.now (reach_in self.now))) }
        ensures record { IfSome result (λ kept. held self.now (reach_in self.now) ≡ Some kept) }
    {
        match self.instance_at(self.below.len()) {
            Some(instance) => instance.record(),
            None => None,
        }
    }

    /// The effect that a packet of this owner would have, or its refusal.
    #[inline(always)]
    pub(crate) fn look(&self, packet: &Packet) -> Result<Effect, StreamFault>
        requires { reach_in self.now ≤ place_count }
        ensures seen { result ≡ look_in self.now packet.now }
        ensures due { (s : Counts) (packets : List PacketValue) → IsOwnerStream s self.now →
            AreStatesOf s packet.now.owner self.now packets → SendsAreOwners packets →
            result ≡ effect_due (step_due s packets packet.now) }
    {
        let place = packet.message().place;
        let end = self.reach() + WINDOW;
        if place >= end {
            return Err(StreamFault::Beyond { place, end });
        }
        if self.voted(packet) {
            Ok(Effect::Idle)
        } else {
            Ok(Effect::Counted)
        }
    }

    /// Whether a packet changes nothing at its place.
    #[inline(always)]
    fn voted(&self, packet: &Packet) -> bool
        ensures seen { result ≡ voted_in (held self.now packet.now.place) packet.now.kind packet.now.from }
        ensures vote { (s : Counts) (takes : List Take) (owner : ℕ) →
            state_in s (held self.now packet.now.place) ≡ state s takes →
            SendsAreFrom owner (takes ++ take_of packet.now ∷ []) →
            result ≡ is_some (vote packet.now.kind packet.now.from takes) }
    {
        let place = packet.place() as usize;
        let kind = packet.kind();
        let from = packet.from();
        if place < self.below.len() {
            return self.record_at(place).voted(kind, from);
        }
        match self.instance_at(place) {
            Some(instance) => instance.voted(kind, from),
            None => false,
        }
    }

    /// How far the stream reaches.
    #[inline(always)]
    pub(crate) fn reach(&self) -> u32
        requires { reach_in self.now ≤ place_count }
        ensures { result ≡ reach_in self.now }
    {
        self.below.len() as u32
    }

    /// The command at a place before the reach.
    pub(crate) fn command(&self, place: Place) -> Option<Command>
        ensures { result ≡ command_in self.now place }
    {
        let place = place as usize;
        if place < self.below.len() {
            Some(self.record_at(place).delivered())
        } else {
            None
        }
    }

    /// What was sent to all at a place.
    pub(crate) fn again(&self, place: Place) -> Again
        ensures { result ≡ again_in (held self.now place) }
    {
        let place = place as usize;
        if place < self.below.len() {
            let record = self.record_at(place);
            return Again {
                echo: record.echoed(),
                ready: record.readied(),
            };
        }
        match self.instance_at(place) {
            Some(instance) => Again {
                echo: instance.echoed(),
                ready: instance.readied(),
            },
            None => Again {
                echo: None,
                ready: None,
            },
        }
    }

    /// The instance at a place that the stream doesn't reach beyond.
    #[inline(always)]
    fn instance_at(&self, place: usize) -> Option<&Instance>
        requires { reach_in self.now ≤ place }
        ensures { option_copied result ≡ held self.now place }
    {
        if place - self.below.len() >= WINDOW as usize {
            return None;
        }
        instance_in(&self.ring, place % WINDOW as usize)
    }

    /// The record of a place that the stream reaches beyond.
    #[inline(always)]
    fn record_at(&self, place: usize) -> &Record
        requires { place < reach_in self.now }
        ensures { held self.now place ≡ Some result.now }
    {
        &self.below[place]
    }
}

/// The instance in a slot.
#[inline(always)]
fn instance_in(ring: &[Option<Instance>], slot: usize) -> Option<&Instance>
    ensures { option_copied result ≡ slot_at ring.now slot }
{
    ring.get(slot)?.as_ref()
}

/// Puts a record at the end, where there must be room for it. It takes no memory.
fn push_record(records: &mut Vec<Record>, settled: Record)
    requires { vec_len records.old < vec_capacity records.old }
    ensures items { records.new.items ≡ records.old.items ++ settled ∷ [] }
    ensures capacity { vec_capacity records.old ≤ vec_capacity records.new }
{
    records.push_reserved(settled);
}

/// Frees a slot.
fn free_slot(ring: &mut Vec<Option<Instance>>, slot: usize)
    requires { slot < length ring.old.items }
    ensures { ring.new.items ≡ slice_set ring.old.items slot None }
{
    ring[slot] = None;
}

/// Takes a packet in its record. No other record is changed.
#[inline(always)]
fn take_record(records: &mut Vec<Record>, place: usize, packet: &Packet) -> Caused
    requires place { place < length records.old.items }
    requires new { voted_in (slice_get records.old.items place) packet.now.kind packet.now.from ≡ false }
    ensures len { length records.new.items ≡ length records.old.items }
    ensures capacity { vec_capacity records.new ≡ vec_capacity records.old }
    ensures others { (k : ℕ) → k ≢ place → slice_get records.new.items k ≡ slice_get records.old.items k }
    ensures state { (s : Counts) →
        GoesOn s (slice_get records.old.items place) (slice_get records.new.items place) (take_of packet.now) }
    ensures caused { (s : Counts) → IsAnswerAt s (slice_get records.old.items place) (take_of packet.now) result }
{
    let record = &mut records[place];
    record.take_new(packet.kind(), packet.from(), packet.command())
}

/// Takes a packet in its slot. No other slot is changed.
#[inline(always)]
fn take_slot(
    ring: &mut Vec<Option<Instance>>,
    slot: usize,
    sizes: &Sizes,
    packet: &Packet,
) -> Result<Caused, AllocError>
    requires from { packet.now.from < sizes.now.nodes }
    requires slot { slot < window }
    requires new { voted_in (slot_at ring.old.items slot) packet.now.kind packet.now.from ≡ false }
    ensures others { (k : ℕ) → k ≢ slot → slot_at ring.new.items k ≡ slot_at ring.old.items k }
    ensures state { OnOk result
        (GoesOn sizes.now (slot_at ring.old.items slot) (slot_at ring.new.items slot) (take_of packet.now)) }
    ensures caused { IfOk result
        (λ caused. IsAnswerAt sizes.now (slot_at ring.old.items slot) (take_of packet.now) caused) }
    ensures err { OnErr result (slot_at ring.new.items slot ≡ slot_at ring.old.items slot) }
{
    make_room(ring, slot + 1)?;
    let alloc = *ring.allocator();
    take_in(&mut ring[slot], alloc, sizes, packet)
}

/// Makes room for so many slots. What the slots hold stays.
#[inline(always)]
fn make_room(slots: &mut Vec<Option<Instance>>, count: usize) -> Result<(), AllocError>
    ensures same { (slot : ℕ) → slot_at slots.new.items slot ≡ slot_at slots.old.items slot }
    ensures room { OnOk result (count ≤ vec_len slots.new) }
{
    if slots.len() < count {
        return add_slots(slots, count);
    }
    Ok(())
}

/// Adds slots until there are so many.
#[inline(never)]
fn add_slots(slots: &mut Vec<Option<Instance>>, count: usize) -> Result<(), AllocError>
    ensures same { (slot : ℕ) → slot_at slots.new.items slot ≡ slot_at slots.old.items slot }
    ensures room { OnOk result (count ≤ vec_len slots.new) }
{
    while slots.len() < count {
        slots.push(None)?;
    }
    Ok(())
}

/// Takes a packet in its instance, which is made where there is none.
#[inline(always)]
fn take_in(
    slot: &mut Option<Instance>,
    alloc: Global,
    sizes: &Sizes,
    packet: &Packet,
) -> Result<Caused, AllocError>
    requires from { packet.now.from < sizes.now.nodes }
    requires new { voted_in slot.old packet.now.kind packet.now.from ≡ false }
    ensures state { OnOk result (GoesOn sizes.now slot.old slot.new (take_of packet.now)) }
    ensures caused { IfOk result (λ caused. IsAnswerAt sizes.now slot.old (take_of packet.now) caused) }
    ensures err { OnErr result (slot.new ≡ slot.old) }
{
    if let Some(instance) = slot {
        return instance.take_new(sizes, packet.kind(), packet.from(), packet.command());
    }
    take_first(
        slot,
        alloc,
        sizes,
        packet.kind(),
        packet.from(),
        packet.command(),
    )
}

/// Takes a message in a slot that has no instance. It is made.
#[inline(never)]
fn take_first(
    slot: &mut Option<Instance>,
    alloc: Global,
    sizes: &Sizes,
    kind: Kind,
    from: NodeName,
    command: Command,
) -> Result<Caused, AllocError>
    requires from { from < sizes.now.nodes }
    requires none { slot.old ≡ None }
    ensures state { let t : Take = record { kind = kind; from = from; command = command } in
        OnOk result (GoesOn sizes.now slot.old slot.new t) }
    ensures caused { let t : Take = record { kind = kind; from = from; command = command } in
        IfOk result (λ caused. IsAnswerAt sizes.now slot.old t caused) }
    ensures err { OnErr result (slot.new ≡ slot.old) }
{
    let mut instance = Instance::new(alloc);
    let caused = instance.take_new(sizes, kind, from, command)?;
    *slot = Some(instance);
    Ok(caused)
}
