//! The answers to checks that a session remembers.

ghost use Rattle.std.specs.Prelude.{◌≡◌, ◌<◌, ℕ, Contains, All, IfSome, slice_set};

use crate::verdict::Verdict;

/// How many answers a session remembers.
const ANSWERS_REMEMBERED: usize = 16;

/// An answer that was given in a session, and the generation that it is of.
#[derive(Clone, Copy, Drop, Debug)]
pub(crate) struct Remembered {
    generation: u64,
    object: u32,
    operation: u16,
    answer: Verdict,
}

/// What stands where nothing is remembered: no answer is of generation 0.
const NOTHING: Remembered = Remembered {
    generation: 0,
    object: 0,
    operation: 0,
    answer: Verdict::Allow(0),
};

/// The answers that a session remembers, each at the one place of its operation and object.
#[derive(Drop, Debug)]
pub(crate) struct Answers {
    places: [Remembered; ANSWERS_REMEMBERED],
}

impl Answers {
    /// Nothing is remembered.
    pub(crate) fn none() -> Self
        ensures { All (λ r. r.generation ≡ 0) result.places }
    {
        Answers {
            places: [NOTHING; ANSWERS_REMEMBERED],
        }
    }

    /// The answer of this generation, if it is remembered.
    pub(crate) fn find(&self, generation: u64, operation: u16, object: u32) -> Option<Verdict>
        ensures { IfSome result (λ answer. Contains self.now.places (record {
          generation = generation;
          object = object;
          operation = operation;
          answer = answer;
        })) }
    {
        let there = self.places[place_of(operation, object)];
        if there.generation == generation
            && there.operation == operation
            && there.object == object
        {
            Some(there.answer)
        } else {
            None
        }
    }

    /// Remembers an answer in the place of another.
    pub(crate) fn remember(&mut self, generation: u64, operation: u16, object: u32, answer: Verdict)
        ensures { (place : ℕ) × (self.new.places ≡ slice_set self.old.places place (record {
          generation = generation;
          object = object;
          operation = operation;
          answer = answer;
        })) }
    {
        self.places[place_of(operation, object)] = Remembered {
            generation,
            object,
            operation,
            answer,
        };
    }
}

/// The place of an operation and an object. The objects of an aligned block of 16 have different places.
fn place_of(operation: u16, object: u32) -> usize
    ensures { result < ANSWERS_REMEMBERED }
{
    let mixed = object ^ u32::from(operation).wrapping_mul(0x9E37_79B1);
    (mixed ^ (mixed >> 16)) as usize % ANSWERS_REMEMBERED
}
