//! A caller's seat at a shared node.

ghost use Rattle.std.specs.Prelude.{◌≡◌, ◌+◌, ◌^◌, ◌<◌};
ghost use Rattle.node_lock.specs.Seats.{most_seats, new_seat};

use std::marker::Model;
use std::sync::ledger::{Book, Ledger, Share};

/// The most seats of a node.
pub const MOST_SEATS: usize = 8;

/// A caller's place at a shared node. Contracts see it as its number, how many events it recorded, and the length of
/// the node's history that it has seen. The ledger L names the node, so that a seat is of one node.
#[derive(Drop)]
pub struct Seat<L: Ledger> {
    number: u8,
    recorded: u32,
    seen: u32,
    share: Share<L>,
}

impl<L: Ledger> Model for Seat<L> {
    ghost use Rattle.std.specs.Prelude.{◌≡◌, ◌<◌};
    ghost use Rattle.node_lock.specs.Seats.{Sitting, most_seats};

    ghost Value = { Sitting };

    ghost view = { λ s. record { number = s.number; count = s.recorded; seen = s.seen } };

    ghost invariant = { λ s. (s.number < most_seats) × (s.share.parts ≡ 1) × (s.share.amount ≡ s.recorded) };
}

impl<L: Ledger> Seat<L> {
    /// A seat that has recorded and seen nothing.
    pub(crate) fn new(number: u8, share: Share<L>) -> Seat<L>
        requires number { number < most_seats }
        requires parts { share.parts ≡ 1 }
        requires amount { share.amount ≡ 0 }
        ensures { result ≡ new_seat number }
    {
        Seat {
            number,
            recorded: 0,
            seen: 0,
            share,
        }
    }

    /// Its number, which is below the most seats of a node.
    pub(crate) fn number(&self) -> u8
        ensures value { result ≡ self.now.number }
        ensures few { result < most_seats }
    {
        self.number
    }

    /// How many events it recorded.
    pub(crate) fn recorded(&self) -> u32
        ensures { result ≡ self.now.count }
    {
        self.recorded
    }

    /// The length of the history that it has seen.
    pub(crate) fn seen(&self) -> u32
        ensures { result ≡ self.now.seen }
    {
        self.seen
    }

    /// It has seen the history up to this length.
    pub(crate) fn see(&mut self, end: u32)
        ensures { self.new ≡ record self.old { seen = end } }
    {
        self.seen = end;
    }

    /// It recorded an event, which is counted in the book too, and has seen the history up to this length.
    pub(crate) fn record(&mut self, book: &mut Book<L>, end: u32)
        requires { self.old.count + 1 < 2 ^ 32 }
        ensures seat { self.new ≡ record { number = self.old.number; count = self.old.count + 1; seen = end } }
        ensures book { book.new.total ≡ book.old.total + 1 }
    {
        book.add(&mut self.share, 1);
        self.recorded += 1;
        self.see(end);
    }

    /// Its share, which is one part, with what it recorded as the amount.
    pub(crate) fn into_share(self) -> Share<L>
        ensures parts { result.parts ≡ 1 }
        ensures amount { result.amount ≡ self.count }
    {
        let Seat {
            number: _,
            recorded: _,
            seen: _,
            share,
        } = self;
        share
    }
}
