//! What there is at the places of connections, and who of them ends.

ghost use Rattle.std.specs.Prelude.{◌≡◌, ◌<◌, ◌&&◌, count_by, position, map};
ghost use Rattle.frame_queues.specs.Slots as due;
ghost use Rattle.frame_queues.specs.Slots.{IsDrawn, is_newcomer, is_least, place_at};

use crate::slots::{Connected, Place, Standing};

/// The milliseconds in which the first frame has to open.
const FIRST_FRAME: u64 = 2_000;

/// The milliseconds for which a newcomer with a name stays.
const NAMED_STAY: u64 = 10_000;

/// After so many milliseconds in which no frame opens a connection is silent. A correct peer's probe comes each minute.
const SILENCE: u64 = 150_000;

/// What a place has; a place that is not there has nothing.
#[tactic(auto, using(std::proofs::lemmas::List::get_or_past))]
pub(crate) fn place_of(places: &[Place], place: usize) -> Place
    ensures { result ≡ place_at places.now place }
{
    if place < places.len() {
        places[place]
    } else {
        Place {
            number: 0,
            held: None,
        }
    }
}

/// A place that is there has this from now on.
#[tactic(auto, using(std::proofs::lemmas::List::set_past))]
pub(crate) fn hold(places: &mut [Place], place: usize, held: Option<Connected>)
    ensures { places.new ≡ due.held_at places.old place held }
{
    if place < places.len() {
        places[place].held = held;
    }
}

pub(crate) fn count_over(places: &[Place], now: u64) -> usize
    ensures { result ≡ count_by (due.is_over now) places.now }
{
    places.iter().filter(|place| is_over(place, now)).count()
}

/// Ends the newcomers whose time is over.
pub(crate) fn end_over(places: &mut [Place], now: u64)
    ensures { places.new ≡ map (due.after_time now) places.old }
{
    for place in places.iter_mut() {
        *place = after_time(place, now);
    }
}

fn after_time(place: &Place, now: u64) -> Place
    ensures { result ≡ due.after_time now place.now }
{
    if is_over(place, now) {
        Place {
            held: None,
            ..*place
        }
    } else {
        *place
    }
}

pub(crate) fn soonest(places: &[Place]) -> u64
    ensures { result ≡ due.soonest places.now }
{
    places
        .iter()
        .fold(u64::MAX, |soon, place| soon.min(ends_at(place)))
}

/// The newcomer before which there are as many as the lot says, of so many in all.
pub(crate) fn drawn(places: &[Place], count: usize, lot: usize) -> usize
    requires count { count ≡ count_by is_newcomer places.now }
    requires some { 0 < count }
    ensures { IsDrawn places.now lot result }
{
    let mut left = lot % count;
    for (place, entry) in places.iter().enumerate() {
        if is_newcomer(entry) {
            if left == 0 {
                return place;
            }
            left -= 1;
        }
    }
    unreachable!()
}

pub(crate) fn first_free(places: &[Place]) -> Option<usize>
    ensures { result ≡ position due.is_free places.now }
{
    places.iter().position(|place| place.held.is_none())
}

pub(crate) fn count_newcomers(places: &[Place]) -> usize
    ensures { result ≡ count_by is_newcomer places.now }
{
    places.iter().filter(|place| is_newcomer(place)).count()
}

pub(crate) fn count_of(places: &[Place], peer: u8) -> usize
    ensures { result ≡ count_by (due.has_slot_of peer) places.now }
{
    places
        .iter()
        .filter(|place| has_slot_of(place, peer))
        .count()
}

pub(crate) fn first_least(places: &[Place], peer: u8, brings: bool, now: u64) -> Option<usize>
    ensures { result ≡ position (is_least places.now peer brings now) places.now }
{
    places
        .iter()
        .position(|place| is_least(places, place, peer, brings, now))
}

fn is_least(places: &[Place], place: &Place, peer: u8, brings: bool, now: u64) -> bool
    ensures { result ≡ due.is_least places.now peer brings now place.now }
{
    gives_way(place, peer, brings, now) && count_before(places, place, peer, brings, now) == 0
}

fn count_before(places: &[Place], place: &Place, peer: u8, brings: bool, now: u64) -> usize
    ensures { result ≡ count_by (λ other. due.gives_way peer brings now other && due.is_before other place.now)
        places.now }
{
    places
        .iter()
        .filter(|other| gives_way(other, peer, brings, now) && is_before(other, place))
        .count()
}

fn gives_way(place: &Place, peer: u8, brings: bool, now: u64) -> bool
    ensures { result ≡ due.gives_way peer brings now place.now }
{
    has_slot_of(place, peer) && (brings || has_silence(place, now))
}

fn has_silence(place: &Place, now: u64) -> bool
    ensures { result ≡ due.has_silence now place.now.held }
{
    match place.held {
        Some(connected) => now.saturating_sub(connected.opened) >= SILENCE,
        None => false,
    }
}

/// Whether a packet of the one connection counted less recently than of the other, or it is the older of two of which
/// packets counted at the same time.
fn is_before(one: &Place, other: &Place) -> bool
    ensures { result ≡ due.is_before one.now other.now }
{
    match (one.held, other.held) {
        (Some(one), Some(other)) => {
            one.counted < other.counted || (one.counted == other.counted && one.began < other.began)
        }
        _ => false,
    }
}

fn is_newcomer(place: &Place) -> bool
    ensures { result ≡ is_newcomer place.now }
{
    match place.held {
        Some(connected) => has_none(connected.standing),
        None => false,
    }
}

/// Whether it is that of a newcomer.
fn has_none(standing: Standing) -> bool
    ensures { result ≡ due.has_none standing }
{
    !matches!(standing, Standing::Slot(_))
}

fn has_slot_of(place: &Place, peer: u8) -> bool
    ensures { result ≡ due.has_slot_of peer place.now }
{
    match place.held {
        Some(connected) => connected.standing == Standing::Slot(peer),
        None => false,
    }
}

fn is_over(place: &Place, now: u64) -> bool
    ensures { result ≡ due.is_over now place.now }
{
    is_newcomer(place) && ends_at(place) <= now
}

/// Until when the connection may stay as it is.
fn ends_at(place: &Place) -> u64
    ensures { result ≡ due.ends_at place.now }
{
    match place.held {
        Some(connected) if has_none(connected.standing) => connected
            .began
            .saturating_add(stay(connected.standing)),
        _ => u64::MAX,
    }
}

/// For how long a newcomer may stay.
fn stay(standing: Standing) -> u64
    ensures { result ≡ due.stay standing }
{
    match standing {
        Standing::Unnamed => FIRST_FRAME,
        _ => NAMED_STAY,
    }
}
