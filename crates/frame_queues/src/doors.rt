//! The doors through which clients come, and who of a door's connections gives way to one that comes.

ghost use Rattle.std.specs.Prelude.{◌≡◌, ◌≤◌, length, position};
ghost use Rattle.std.specs.List.{list_any};
ghost use Rattle.frame_queues.specs.Doors as due;
ghost use Rattle.frame_queues.specs.Doors.{own_slots, way_in};

use crate::caller::{DOOR_SLOTS, MOST_CLIENTS};

/// The milliseconds for which a connection waits for the end of a line before it may give way.
const LINE_PATIENCE: u64 = 100;

/// How many slots there are, those of all doors.
pub const ALL_SLOTS: usize = MOST_CLIENTS as usize;

/// A door through which clients come. Each has slots of its own.
#[derive(Clone, Copy, Debug, PartialEq, Eq)]
pub enum Door {
    /// The port of clients, which every program of the machine reaches.
    Port,
    /// The socket in a folder, which its owner and its group reach.
    Socket,
}

impl Door {
    /// The first of the door's slots; those behind it are the door's too, [`DOOR_SLOTS`] in all.
    pub fn first_slot(self) -> usize
        ensures { result ≡ due.first_slot self }
    {
        match self {
            Door::Port => 0,
            Door::Socket => DOOR_SLOTS as usize,
        }
    }
}

/// How a client's slot stands.
#[derive(Clone, Copy, Debug, PartialEq, Eq)]
pub enum SlotStanding {
    /// It has no connection.
    Free,
    /// Its connection is answered, or has come just now.
    Answered,
    /// Its connection has waited for the end of a line since this time, in milliseconds.
    Waits(u64),
    /// Its connection has given way, or has ended, and the slot is free soon.
    Leaves,
}

/// What is to be done where a client comes.
#[derive(Clone, Copy, Debug, PartialEq, Eq)]
pub enum WayIn {
    /// It has this slot.
    Slot(usize),
    /// The connection in this slot gives way.
    GivesWay(usize),
    /// It waits for a slot.
    Waits,
}

/// The way in of a client that comes through a door, as all slots stand: the door's first free slot. Where none is
/// free, nor soon will be, that of the door's connections gives way which has waited longest for the end of a line, if
/// that is 100 ms or more, of two alike the first; one that is answered never does.
pub fn way_in(door: Door, slots: &[SlotStanding; ALL_SLOTS], now: u64) -> WayIn
    ensures { result ≡ way_in door slots.now now }
{
    let own = own_slots(door, slots);
    let first = door.first_slot();
    match first_free(own) {
        Some(at) => WayIn::Slot(first + at),
        None => way_through(own, first, now),
    }
}

/// The way in where no slot of the door is free, whose slots are these.
fn way_through(own: &[SlotStanding], first: usize, now: u64) -> WayIn
    requires few { length own.now ≤ 16 }
    requires place { first ≤ 16 }
    ensures { result ≡ due.way_through own.now first now }
{
    if is_one_leaving(own) {
        return WayIn::Waits;
    }
    match first_due(own, now) {
        Some(at) => WayIn::GivesWay(first + at),
        None => WayIn::Waits,
    }
}

fn first_free(own: &[SlotStanding]) -> Option<usize>
    ensures { result ≡ position due.is_free own.now }
{
    own.iter().position(|slot| is_free(slot))
}

fn is_one_leaving(own: &[SlotStanding]) -> bool
    ensures { result ≡ list_any due.is_leaving own.now }
{
    own.iter().any(|slot| is_leaving(slot))
}

/// The first whose connection gives way.
fn first_due(own: &[SlotStanding], now: u64) -> Option<usize>
    ensures { result ≡ position (due.gives_way own.now now) own.now }
{
    own.iter().position(|slot| gives_way(own, slot, now))
}

fn is_one_before(own: &[SlotStanding], slot: &SlotStanding) -> bool
    ensures { result ≡ list_any (λ other. due.is_before other slot.now) own.now }
{
    own.iter().any(|other| is_before(other, slot))
}

/// The slots of a door.
fn own_slots(door: Door, slots: &[SlotStanding; ALL_SLOTS]) -> &[SlotStanding]
    ensures own { result.now ≡ own_slots door slots.now }
    ensures few { length result.now ≤ 16 }
{
    match door {
        Door::Port => &slots[..DOOR_SLOTS as usize],
        Door::Socket => &slots[DOOR_SLOTS as usize..],
    }
}

fn is_free(slot: &SlotStanding) -> bool
    ensures { result ≡ due.is_free slot.now }
{
    matches!(slot, SlotStanding::Free)
}

fn is_leaving(slot: &SlotStanding) -> bool
    ensures { result ≡ due.is_leaving slot.now }
{
    matches!(slot, SlotStanding::Leaves)
}

/// Whether its connection gives way: it has waited long enough, and none of the others longer.
fn gives_way(own: &[SlotStanding], slot: &SlotStanding, now: u64) -> bool
    ensures { result ≡ due.gives_way own.now now slot.now }
{
    has_waited(slot, now) && !is_one_before(own, slot)
}

/// Whether its connection has waited long enough for the end of a line.
fn has_waited(slot: &SlotStanding, now: u64) -> bool
    ensures { result ≡ due.has_waited now slot.now }
{
    match slot {
        SlotStanding::Waits(since) => now.saturating_sub(*since) >= LINE_PATIENCE,
        _ => false,
    }
}

/// Whether the one has waited longer than the other.
fn is_before(one: &SlotStanding, other: &SlotStanding) -> bool
    ensures { result ≡ due.is_before one.now other.now }
{
    match (one, other) {
        (SlotStanding::Waits(one), SlotStanding::Waits(other)) => one < other,
        _ => false,
    }
}
