//! Which connections of frames there are: newcomers, and those that have a slot of their peer.

ghost use Rattle.std.specs.Prelude.{◌≡◌, ◌<◌, length, count_by, IfOk};
ghost use Rattle.frame_queues.specs.Slots as due;
ghost use Rattle.frame_queues.specs.Slots.{IsPlaceFor, settled, slots_for};

use crate::limits::Limits;
use crate::places::{
    count_newcomers, count_of, count_over, drawn, end_over, first_free, first_least, hold,
    place_of, soonest,
};
use std::alloc::{AllocError, Global};
use std::marker::Model;

/// Who speaks on a connection of frames.
#[derive(Clone, Copy, Debug, PartialEq, Eq)]
pub enum Standing {
    /// A newcomer on which no frame has opened.
    Unnamed,
    /// A newcomer, of the peer of this index: its frame was the first that opened.
    Named(u8),
    /// It has a slot of the peer of this index.
    Slot(u8),
}

/// A connection of frames, with times in milliseconds.
#[derive(Clone, Copy, Debug, PartialEq, Eq)]
pub struct Connected {
    pub standing: Standing,
    /// When a packet of it counted last; 0 where none has.
    pub counted: u64,
    /// When a frame of it opened last, or it came.
    pub opened: u64,
    /// When it came.
    pub began: u64,
}

/// Room for a connection.
#[derive(Clone, Copy, Debug, PartialEq, Eq)]
pub struct Place {
    /// The number of the connection that is there, or was last. It grows with each, and begins anew after 65,535.
    pub number: u16,
    /// The connection that is there.
    pub held: Option<Connected>,
}

/// Whether the newcomer of a peer stays one, or takes a slot.
#[derive(Clone, Copy, Debug, PartialEq, Eq)]
pub enum Way {
    Stays,
    /// It takes a slot that is free.
    Free,
    /// It takes that of the connection at this place, which ends.
    Ends(usize),
}

/// The connections of frames of a node, each at a place of its own as long as it stands.
#[derive(Drop)]
pub struct Slots {
    places: Vec<Place>,
    nodes: u8,
    me: u8,
    /// The slots of each peer.
    each: u8,
    newcomers: u8,
}

impl Model for Slots {
    ghost use Rattle.frame_queues.specs.Slots.{SlotsValue, IsTable};

    ghost Value = { SlotsValue };

    ghost view = { λ a. record {
      places = a.places.items;
      nodes = a.nodes;
      me = a.me;
      each = a.each;
      newcomers = a.newcomers;
    } };

    ghost invariant = { λ a. IsTable (record {
      places = a.places.items;
      nodes = a.nodes;
      me = a.me;
      each = a.each;
      newcomers = a.newcomers;
    }) };
}

impl Slots {
    /// No connection, at the node of this index among so many.
    ///
    /// # Errors
    ///
    /// Only for want of memory.
    pub fn new(alloc: Global, nodes: u8, me: u8, limits: Limits) -> Result<Slots, AllocError>
        ensures { IfOk result (λ made. made ≡ due.none_yet nodes me limits.each limits.newcomers) }
    {
        let none = Place {
            number: 0,
            held: None,
        };
        Ok(Slots {
            places: Vec::from_elem(alloc, none, limits.places(nodes, me))?,
            nodes,
            me,
            each: limits.each(),
            newcomers: limits.newcomers(),
        })
    }

    /// The places.
    pub fn places(&self) -> &[Place]
        ensures { result.now ≡ self.now.places }
    {
        &self.places
    }

    /// A connection comes, and is a newcomer. Where as many are there as may be, one of them ends: that of this lot
    /// among them. At which place it is.
    pub fn comes(&mut self, now: u64, lot: usize) -> usize
        ensures place { IsPlaceFor self.old lot result }
        ensures there { result < length self.old.places }
        ensures new { self.new ≡ due.with_newcomer self.old now result }
    {
        let place = self.place_for(lot);
        let Place { number, .. } = self.places[place];
        self.places[place] = came(number, now);
        place
    }

    /// A frame of a peer has opened on the connection at a place, whose first one names it. A newcomer takes a slot of
    /// its peer, if one is free, or silent; of a silent one the place, where the connection ends.
    pub fn named(&mut self, place: usize, peer: u8, now: u64) -> Option<usize>
        ensures new { self.new ≡ due.named self.old place peer now }
        ensures ends { result ≡ due.named_ends self.old place peer now }
    {
        let at = place_of(&self.places, place);
        let old = at.held?;
        let connected = opened_by(old, peer, now);
        let way = self.way(connected.standing, false, now);
        settle(&mut self.places, place, connected, way)
    }

    /// A packet of the connection of this number at a place has counted. A newcomer with a name takes a slot of its
    /// peer: one that is free, or that of the connection of which a packet counted least recently, of two equal the
    /// older's. Of that one the place, where the connection ends. Any other connection there has nothing of it.
    pub fn counted(&mut self, place: usize, number: u16, now: u64) -> Option<usize>
        ensures new { self.new ≡ due.counted self.old place number now }
        ensures ends { result ≡ due.counted_ends self.old place number now }
    {
        let at = place_of(&self.places, place);
        let old = held_by(&at, number)?;
        let connected = counted_now(old, now);
        let way = self.way(connected.standing, true, now);
        settle(&mut self.places, place, connected, way)
    }

    /// The time passes: newcomers end whose time is over. How many.
    pub fn passes(&mut self, now: u64) -> usize
        ensures new { self.new ≡ due.passed self.old now }
        ensures count { result ≡ count_by (due.is_over now) self.old.places }
    {
        let count = count_over(&self.places, now);
        end_over(&mut self.places, now);
        count
    }

    /// When the time of the next newcomer is over, as they are now.
    pub fn next_end(&self) -> u64
        ensures { result ≡ due.soonest self.now.places }
    {
        soonest(&self.places)
    }

    /// The connection of this number at a place ends.
    pub fn ends(&mut self, place: usize, number: u16)
        ensures { self.new ≡ due.without self.old place number }
    {
        if place < self.places.len() && self.places[place].number == number {
            self.places[place].held = None;
        }
    }

    /// The place for a connection that comes.
    fn place_for(&self, lot: usize) -> usize
        ensures place { IsPlaceFor self.now lot result }
        ensures there { result < length self.now.places }
    {
        let count = count_newcomers(&self.places);
        if count < usize::from(self.newcomers) {
            if let Some(free) = first_free(&self.places) {
                return free;
            }
            unreachable!()
        }
        drawn(&self.places, count, lot)
    }

    /// Which way a connection goes of which a frame has opened, or with something new.
    fn way(&self, standing: Standing, brings: bool, now: u64) -> Way
        ensures { result ≡ due.way self.now standing brings now }
    {
        match standing {
            Standing::Named(peer) => self.way_of(peer, brings, now),
            Standing::Unnamed | Standing::Slot(_) => Way::Stays,
        }
    }

    fn way_of(&self, peer: u8, brings: bool, now: u64) -> Way
        ensures { result ≡ due.way_of self.now peer brings now }
    {
        if count_of(&self.places, peer) < self.slots_for(peer) {
            return Way::Free;
        }
        match first_least(&self.places, peer, brings, now) {
            Some(place) => Way::Ends(place),
            None => Way::Stays,
        }
    }

    fn slots_for(&self, peer: u8) -> usize
        ensures { result ≡ slots_for self.now peer }
    {
        if peer < self.nodes && peer != self.me {
            usize::from(self.each)
        } else {
            0
        }
    }
}

/// A newcomer that comes where a connection had this number.
fn came(number: u16, now: u64) -> Place
    ensures { result ≡ due.came_after number now }
{
    Place {
        number: number.wrapping_add(1),
        held: Some(Connected {
            standing: Standing::Unnamed,
            counted: 0,
            opened: now,
            began: now,
        }),
    }
}

fn opened_by(connected: Connected, peer: u8, now: u64) -> Connected
    ensures { result ≡ due.opened_by peer now connected }
{
    Connected {
        standing: match connected.standing {
            Standing::Unnamed => Standing::Named(peer),
            standing => standing,
        },
        opened: now,
        ..connected
    }
}

fn counted_now(connected: Connected, now: u64) -> Connected
    ensures { result ≡ due.counted_now now connected }
{
    Connected {
        counted: now,
        ..connected
    }
}

fn with_slot(connected: Connected) -> Connected
    ensures { result ≡ due.with_slot connected }
{
    Connected {
        standing: match connected.standing {
            Standing::Named(peer) => Standing::Slot(peer),
            standing => standing,
        },
        ..connected
    }
}

/// The connection of this number, if it is there.
fn held_by(place: &Place, number: u16) -> Option<Connected>
    ensures { result ≡ due.held_by place.now number }
{
    if place.number == number {
        place.held
    } else {
        None
    }
}

/// The connection at a place goes its way. At which place another ends for it.
fn settle(places: &mut [Place], place: usize, connected: Connected, way: Way) -> Option<usize>
    ensures new { places.new ≡ settled places.old place connected way }
    ensures ends { result ≡ due.ended_by way }
{
    match way {
        Way::Stays => {
            hold(places, place, Some(connected));
            None
        }
        Way::Free => {
            hold(places, place, Some(with_slot(connected)));
            None
        }
        Way::Ends(other) => {
            hold(places, other, None);
            hold(places, place, Some(with_slot(connected)));
            Some(other)
        }
    }
}
