//! The permissions of a registry, and accesses that are asked about.

use crate::deck::Deck;
use crate::sample::Sample;
use std::alloc::{AllocError, Global};

/// An operation on an object.
#[derive(Clone, Copy)]
pub struct Access {
    pub operation: u16,
    pub object: u32,
}

/// So many permissions that four or five roles have.
const COMMON: u32 = 24_000;

/// So many of the common ones each role has.
const COMMON_OF_ROLE: u32 = 200;

/// So many permissions that hundreds of roles have.
const POPULAR: u32 = 20;

const OPERATIONS: u16 = 8;

/// The objects of all permissions are below this one.
const OBJECTS: u32 = 120_000;

/// Of accesses that nobody has the objects begin here, and each is among so many of its own.
const FIRST_FOREIGN: u32 = 1_000_000;

const FOREIGN_APART: u32 = 4_000;

/// The permissions of a seed, each of an object of its own, and what was asked about.
#[derive(Drop)]
pub struct Permissions {
    /// The common ones, and then the popular ones.
    accesses: Vec<Access>,
    /// The places of the common ones that each role has.
    of_roles: Vec<Vec<u32>>,
    /// For each permission in which session it was asked about last. The sessions are counted from 1.
    asked_in: Vec<u32>,
    session: u32,
    /// So many accesses that nobody has were asked about.
    foreign: u32,
}

impl Permissions {
    /// Draws the permissions, and which of them each of so many roles has.
    ///
    /// # Errors
    ///
    /// Only for want of memory.
    pub fn new(alloc: Global, sample: &mut Sample, roles: u16) -> Result<Permissions, AllocError> {
        let accesses = draw_accesses(alloc, sample)?;
        let of_roles = draw_places(alloc, sample, roles)?;
        Ok(Permissions {
            asked_in: asked_in_none(alloc, accesses.len())?,
            accesses,
            of_roles,
            session: 0,
            foreign: 0,
        })
    }

    /// The common permissions of a role.
    ///
    /// # Errors
    ///
    /// Only for want of memory.
    pub fn common(&self, alloc: Global, role: u16) -> Result<Vec<Access>, AllocError> {
        let mut accesses = Vec::new(alloc);
        for place in self.places_of(role) {
            accesses.push(self.access(*place))?;
        }
        Ok(accesses)
    }

    /// The places of a role's common permissions.
    fn places_of(&self, role: u16) -> &[u32] {
        match self.of_roles.get(usize::from(role)) {
            Some(places) => places.as_slice(),
            None => &[],
        }
    }

    /// The permissions that hundreds of roles are to have.
    ///
    /// # Errors
    ///
    /// Only for want of memory.
    pub fn popular(&self, alloc: Global) -> Result<Vec<Access>, AllocError> {
        let mut accesses = Vec::new(alloc);
        for number in 0..POPULAR {
            accesses.push(self.access(COMMON + number))?;
        }
        Ok(accesses)
    }

    /// From now on it is another session that asks.
    pub fn begin_session(&mut self) {
        self.session = self.session.wrapping_add(1);
    }

    /// Draws an access that this session, in which these roles are active, has not asked about. Of ten that follow one
    /// another seven are of a permission of an active role, one of one that hundreds of roles have, one of any, and one
    /// of a permission that nobody has.
    pub fn draw(&mut self, sample: &mut Sample, number: u32, active: &[u16]) -> Access {
        if number % 10 == 9 {
            return self.draw_foreign(sample);
        }
        for _ in 0..u32::MAX {
            let place = self.draw_place(sample, number, active);
            if self.is_new(place) {
                return self.access(place);
            }
        }
        self.draw_foreign(sample)
    }

    /// The place of a popular permission, of any common one, or of one of an active role, by the number.
    fn draw_place(&self, sample: &mut Sample, number: u32, active: &[u16]) -> u32 {
        match number % 10 {
            7 => COMMON + sample.below(POPULAR) % POPULAR,
            8 => sample.below(COMMON),
            _ => self.draw_common(sample, active),
        }
    }

    /// The place of a permission of an active role.
    fn draw_common(&self, sample: &mut Sample, active: &[u16]) -> u32 {
        let count = u32::try_from(active.len()).unwrap_or(0);
        let Some(role) = active.get(sample.below(count) as usize) else {
            return 0;
        };
        let number = sample.below(COMMON_OF_ROLE);
        let places = self.places_of(*role);
        places.get(number as usize).copied().unwrap_or(0)
    }

    /// An access that nobody has, and that no session has asked about.
    fn draw_foreign(&mut self, sample: &mut Sample) -> Access {
        let apart = self.foreign.wrapping_mul(FOREIGN_APART);
        self.foreign = self.foreign.wrapping_add(1);
        Access {
            operation: sample.role(OPERATIONS),
            object: FIRST_FOREIGN
                .wrapping_add(apart)
                .wrapping_add(sample.below(FOREIGN_APART)),
        }
    }

    /// Whether the session has not asked about the permission of this place. From now on it has.
    fn is_new(&mut self, place: u32) -> bool {
        match self.asked_in.get_mut(place as usize) {
            Some(session) if *session != self.session => {
                *session = self.session;
                true
            }
            _ => false,
        }
    }

    fn access(&self, place: u32) -> Access {
        let nothing = Access {
            operation: 0,
            object: 0,
        };
        self.accesses
            .get(place as usize)
            .copied()
            .unwrap_or(nothing)
    }
}

/// The permissions, each of an object of its own.
fn draw_accesses(alloc: Global, sample: &mut Sample) -> Result<Vec<Access>, AllocError> {
    let mut objects = Deck::new(alloc, OBJECTS)?;
    let mut accesses = Vec::new(alloc);
    for _ in 0..COMMON + POPULAR {
        accesses.push(Access {
            operation: sample.role(OPERATIONS),
            object: objects.deal(sample),
        })?;
    }
    Ok(accesses)
}

/// For each of so many roles the places of its common permissions.
fn draw_places(
    alloc: Global,
    sample: &mut Sample,
    roles: u16,
) -> Result<Vec<Vec<u32>>, AllocError> {
    let mut common = Deck::new(alloc, COMMON)?;
    let mut of_roles = Vec::new(alloc);
    for _ in 0..roles {
        of_roles.push(places_of_role(alloc, sample, &mut common)?)?;
    }
    Ok(of_roles)
}

fn places_of_role(
    alloc: Global,
    sample: &mut Sample,
    common: &mut Deck,
) -> Result<Vec<u32>, AllocError> {
    common.ready(COMMON_OF_ROLE);
    let mut places = Vec::new(alloc);
    for _ in 0..COMMON_OF_ROLE {
        places.push(common.deal(sample))?;
    }
    Ok(places)
}

/// That no session has asked about any of so many permissions.
fn asked_in_none(alloc: Global, count: usize) -> Result<Vec<u32>, AllocError> {
    let mut asked_in = Vec::new(alloc);
    asked_in.resize(count, 0)?;
    Ok(asked_in)
}
