//! What workers have of the connections of peers, for the thread of the ports.

use std::alloc::{AllocError, Global};
use std::mem;

/// What workers have of a connection of peers for the thread of the ports.
#[derive(Clone, Copy, Debug, PartialEq, Eq)]
pub enum News {
    Nothing,
    /// A packet counted, last at this time, in milliseconds.
    Counted(u64),
    /// A packet found no memory, so the connection is to be closed.
    Refused,
}

/// What workers have of the connection of peers of this number, the last one at its place.
#[derive(Clone, Copy, Debug, PartialEq, Eq)]
pub struct Credit {
    pub connection: u16,
    pub news: News,
}

/// What came of a packet, of the connection of this number at a place: it counted, or found no memory.
#[derive(Clone, Copy, Debug, PartialEq, Eq)]
pub struct Noted {
    pub place: u32,
    pub connection: u16,
    pub has_memory: bool,
}

/// What is new of the connection of peers at each place.
#[derive(Drop)]
pub struct Credits {
    pub places: Vec<Credit>,
    is_new: bool,
}

impl Credits {
    /// Nothing, at so many places.
    ///
    /// # Errors
    ///
    /// Only for want of memory.
    pub fn new(alloc: Global, places: usize) -> Result<Credits, AllocError> {
        let nothing = Credit {
            connection: 0,
            news: News::Nothing,
        };
        Ok(Credits {
            places: Vec::from_elem(alloc, nothing, places)?,
            is_new: false,
        })
    }

    /// There is another connection at this place, of this number, of which nothing is known yet.
    pub fn begin(&mut self, place: usize, connection: u16) {
        if let Some(credit) = self.places.get_mut(place) {
            *credit = Credit {
                connection,
                news: News::Nothing,
            };
        }
    }

    /// Notes what came of a packet, if its connection is still the last one at its place.
    pub fn note(&mut self, noted: Noted, now: u64) {
        if let Some(credit) = self.places.get_mut(noted.place as usize) {
            if credit.connection == noted.connection && credit.news != News::Refused {
                self.is_new = true;
                credit.news = if noted.has_memory {
                    News::Counted(now)
                } else {
                    News::Refused
                };
            }
        }
    }

    /// Whether there is anything new since this was last asked.
    pub fn has_news(&mut self) -> bool {
        mem::replace(&mut self.is_new, false)
    }
}
