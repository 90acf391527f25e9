//! A node behind a lock, its seats, and the receipts that it gave.

use crate::calls::{call_of, receipt_text};
use node_lock::{Call, Receipt, Seat, SharedNode, StepFault, View};
use role_node::Node;
use row_words::{Behind, OrNone, RowFault, Spelled, Words, text_of};
use std::alloc::Global;
use std::fmt;
use std::fmt::Display;
use std::sync::ledger::Ledger;

/// A node with its seats, or without them once it is closed.
#[derive(Drop)]
pub struct Table<L: Ledger> {
    pub(crate) shared: Option<SharedNode<L>>,
    pub(crate) seats: Vec<Seat<L>>,
    pub(crate) receipts: Vec<Receipt>,
    pub(crate) closed: Option<Node>,
}

impl<L: Ledger> Table<L> {
    pub fn new(alloc: Global, node: SharedNode<L>, seats: Vec<Seat<L>>) -> Table<L> {
        Table {
            shared: Some(node),
            seats,
            receipts: Vec::new(alloc),
            closed: None,
        }
    }

    pub fn answer(&mut self, alloc: Global, line: &str) -> Result<String, RowFault> {
        let mut words = Words::new(line);
        match words.word() {
            "seat" => self.call(alloc, &mut words),
            "hold" => self.hold(alloc, &mut words),
            "last-vote" => self.last_vote(alloc),
            "close-without" => self.close_without(alloc),
            "close" => self.close_now(alloc),
            name => self.answer_later(alloc, name, &mut words),
        }
    }

    /// What is asked of receipts.
    fn answer_later(
        &mut self,
        alloc: Global,
        name: &str,
        words: &mut Words<'_>,
    ) -> Result<String, RowFault> {
        match name {
            "forge" => self.forge(words)?,
            "drop" => self.drop_receipt(words)?,
            "reverse" => self.receipts.reverse(),
            "audit" => return self.audit_receipts(alloc),
            _ => return Err(RowFault::BadRow),
        }
        text_of(alloc, &self.receipts.len())
    }

    /// `seat SEAT CALL`: what the receipt says.
    fn call(&mut self, alloc: Global, words: &mut Words<'_>) -> Result<String, RowFault> {
        let receipt = self.receipt_for(words)?;
        let text = receipt_text(alloc, &receipt)?;
        self.receipts.push(receipt)?;
        Ok(text)
    }

    fn receipt_for(&mut self, words: &mut Words<'_>) -> Result<Receipt, RowFault> {
        let number = usize::from(words.byte()?);
        let seat = self.seats.get_mut(number).ok_or(RowFault::BadRow)?;
        let shared = self.shared.as_mut().ok_or(RowFault::BadRow)?;
        let locked = shared.node.get_mut();
        match call_of(locked.me(), words)? {
            Call::Step(event) => locked.step(seat, event).map_err(row_fault),
            Call::Ask(question) => locked.ask(seat, question).map_err(row_fault),
        }
    }

    /// `hold SEAT PLACE CALL`: what the receipt and the view of the place in the node's own stream say.
    fn hold(&mut self, alloc: Global, words: &mut Words<'_>) -> Result<String, RowFault> {
        let (receipt, view) = self.held_for(words)?;
        let receipt = receipt.ok_or(RowFault::BadRow)?;
        let text = held_text(alloc, &receipt, view)?;
        self.receipts.push(receipt)?;
        Ok(text)
    }

    fn held_for(&mut self, words: &mut Words<'_>) -> Result<(Option<Receipt>, View), RowFault> {
        let number = usize::from(words.byte()?);
        let seat = self.seats.get_mut(number).ok_or(RowFault::BadRow)?;
        let shared = self.shared.as_mut().ok_or(RowFault::BadRow)?;
        let locked = shared.node.get_mut();
        let place = words.wide()?;
        let owner = locked.me();
        let call = call_of(owner, words)?;
        locked
            .hold(seat, Some(call), owner, place)
            .map_err(row_fault)
    }

    /// `last-vote`: the place of the node's own last vote in its own stream.
    fn last_vote(&mut self, alloc: Global) -> Result<String, RowFault> {
        let shared = self.shared.as_mut().ok_or(RowFault::BadRow)?;
        let locked = shared.node.get_mut();
        let me = locked.me();
        text_of(alloc, &OrNone(locked.last_vote(me, me)))
    }
}

fn row_fault(fault: StepFault) -> RowFault {
    match fault {
        StepFault::Memory => RowFault::Memory,
        StepFault::Behind { .. } | StepFault::Strange { .. } => RowFault::BadRow,
    }
}

fn held_text(alloc: Global, receipt: &Receipt, view: View) -> Result<String, RowFault> {
    let said = receipt_text(alloc, receipt)?;
    let seen = Seen(view);
    Ok(format!(in alloc; "{said}; {seen}")?)
}

/// `at EVENTS reach REACH`, and what the node sent at the place as ` send COMMAND`.
#[derive(Clone, Copy)]
struct Seen(View);

impl Display for Seen {
    fn fmt<W: fmt::Write>(&self, f: &mut fmt::Formatter<W>) -> fmt::Result {
        let (at, reach) = (self.0.at, self.0.reach);
        let sent = Behind("send", self.0.again.send.map(Spelled));
        write!(f, "at {at} reach {reach}{sent}")
    }
}
