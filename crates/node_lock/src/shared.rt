//! A node behind a lock, how it is made and how it is closed.

ghost use Rattle.std.specs.Prelude.{◌≡◌, ◌≢◌, ◌+◌, ◌<◌, ◌≤◌, [], length, sum_by, IfOk, IfErr, vec_len};
ghost use Rattle.node_lock.specs.Seats.{count_in, most_seats, new_seats};
ghost use Rattle.node_lock.specs.Closes.{seats_of};

use crate::locked::Locked;
use crate::seat::Seat;
use role_node::Node;
use std::alloc::{AllocError, Global};
use std::error::Error;
use std::fmt;
use std::sync::Mutex;
use std::sync::ledger::{Blank, Ledger, Share};

/// A node that threads share. A caller locks the `Mutex` and calls [`Locked::step`], [`Locked::ask`] or
/// [`Locked::hold`] with its seat.
#[derive(Drop)]
pub struct SharedNode<L: Ledger> {
    pub node: Mutex<Locked<L>>,
}

/// Why a shared node is not closed.
#[derive(Drop)]
pub enum CloseFault<L: Ledger> {
    /// A seat is absent. The shared node and the seats are handed back.
    SeatMissing {
        node: SharedNode<L>,
        seats: Vec<Seat<L>>,
    },
}

impl<L: Ledger> fmt::Display for CloseFault<L> {
    ghost use Rattle.std.specs.Prelude.{Some};
    ghost use Rattle.node_lock.specs.Texts.{close_fault_text};

    ghost output = { λ fault. Some (close_fault_text fault) };

    fn fmt<W: fmt::Write>(&self, f: &mut fmt::Formatter<W>) -> fmt::Result {
        match self {
            CloseFault::SeatMissing { .. } => write!(f, "Z1 SeatMissing"),
        }
    }
}

impl<L: Ledger> fmt::Debug for CloseFault<L> {
    fn fmt<W: fmt::Write>(&self, f: &mut fmt::Formatter<W>) -> fmt::Result {
        match self {
            CloseFault::SeatMissing { .. } => write!(f, "SeatMissing"),
        }
    }
}

impl<L: Ledger> Error for CloseFault<L> {}

impl<L: Ledger> SharedNode<L> {
    /// A shared node over one that has recorded nothing, with so many seats, numbered from 0. The ledger must have a
    /// part for each seat.
    ///
    /// # Errors
    ///
    /// Only for want of memory.
    pub fn new(
        alloc: Global,
        blank: Blank,
        node: Node,
        seats: u8,
    ) -> Result<(SharedNode<L>, Vec<Seat<L>>), AllocError>
        requires name { blank.name ≡ L.name }
        requires parts { (blank.parts ≡ L.parts) × (seats ≡ L.parts) }
        requires seats { (0 < seats) × (seats ≤ most_seats) }
        requires empty { node.history ≡ [] }
        ensures seats { IfOk result (λ made. made.1.items ≡ new_seats seats) }
        ensures count { IfOk result (λ made. vec_len made.1 ≡ seats) }
    {
        let (locked, made) = unshared::<L>(alloc, blank, node, seats)?;
        Ok((
            SharedNode {
                node: Mutex::new(locked),
            },
            made,
        ))
    }
}

/// What [`SharedNode::new`] puts behind the lock, before it is behind one, and its seats.
///
/// # Errors
///
/// Only for want of memory.
pub fn unshared<L: Ledger>(
    alloc: Global,
    blank: Blank,
    node: Node,
    seats: u8,
) -> Result<(Locked<L>, Vec<Seat<L>>), AllocError>
    requires name { blank.name ≡ L.name }
    requires parts { (blank.parts ≡ L.parts) × (seats ≡ L.parts) }
    requires seats { (0 < seats) × (seats ≤ most_seats) }
    requires empty { node.history ≡ [] }
    ensures held { IfOk result (λ made. made.0 ≡ record { node = node; seats = [] }) }
    ensures seats { IfOk result (λ made. made.1.items ≡ new_seats seats) }
    ensures count { IfOk result (λ made. vec_len made.1 ≡ seats) }
{
    let (book, all) = blank.open::<L>();
    let made = make_seats(alloc, all, seats)?;
    Ok((Locked::new(alloc, node, book, seats), made))
}

/// So many new seats, numbered from 0, each with a part of the share.
fn make_seats<L: Ledger>(
    alloc: Global,
    mut all: Share<L>,
    seats: u8,
) -> Result<Vec<Seat<L>>, AllocError>
    requires parts { all.parts ≡ seats }
    requires amount { all.amount ≡ 0 }
    requires seats { seats ≤ most_seats }
    ensures seats { IfOk result (λ made. made.items ≡ new_seats seats) }
    ensures count { IfOk result (λ made. vec_len made ≡ seats) }
{
    let mut made = Vec::new(alloc);
    for number in 0..seats {
        made.push(Seat::new(number, all.split_off(1, 0)))?;
    }
    Ok(made)
}

/// Takes the node out of its lock, with all the seats. Its history is as long as the seats recorded together.
///
/// # Errors
///
/// A seat is absent. Everything is handed back.
pub fn close<L: Ledger>(
    mut shared: SharedNode<L>,
    mut seats: Vec<Seat<L>>,
) -> Result<Node, CloseFault<L>>
    ensures all { IfOk result (λ _. vec_len seats ≡ L.parts) }
    ensures sum { IfOk result (λ node. length node.history ≡ sum_by count_in seats.items) }
    ensures absent { IfErr result (λ _. vec_len seats ≢ L.parts) }
    ensures back { IfErr result (λ fault. seats_of fault ≡ seats.items) }
{
    let count = shared.node.get_mut().seats() as usize;
    if seats.len() != count {
        return Err(CloseFault::SeatMissing {
            node: shared,
            seats,
        });
    }
    let SharedNode { node } = shared;
    let Some(last) = seats.pop() else {
        unreachable!()
    };
    let all = merge_shares(seats, last.into_share());
    Ok(node.into_inner().into_node(all))
}

/// The shares of all these seats, and one more.
fn merge_shares<L: Ledger>(mut seats: Vec<Seat<L>>, mut all: Share<L>) -> Share<L>
    ensures parts { result.parts ≡ all.parts + vec_len seats }
    ensures amount { result.amount ≡ all.amount + sum_by count_in seats.items }
{
    while let Some(seat) = seats.pop() {
        all.merge(seat.into_share());
    }
    all
}
