//! How a node is taken out of its lock, and how its receipts are audited.

use crate::calls::open_of;
use crate::table::Table;
use node_lock::{AuditFault, Call, CloseFault, Outcome, Receipt, audit, close};
use role_node::Reply;
use row_words::{RowFault, Words, text_of};
use std::alloc::Global;
use std::mem;
use std::sync::ledger::Ledger;

impl<L: Ledger> Table<L> {
    /// `close-without`: the last seat is absent. The fault; all is handed back.
    pub fn close_without(&mut self, alloc: Global) -> Result<String, RowFault> {
        let absent = self.seats.pop().ok_or(RowFault::BadRow)?;
        let fault = self.close_now(alloc)?;
        self.seats.push(absent)?;
        Ok(fault)
    }

    /// `close`: how many events the node has recorded.
    pub fn close_now(&mut self, alloc: Global) -> Result<String, RowFault> {
        let shared = self.shared.take().ok_or(RowFault::BadRow)?;
        let seats = mem::replace(&mut self.seats, Vec::new(alloc));
        match close(shared, seats) {
            Ok(node) => {
                let text = text_of(alloc, &node.events())?;
                self.closed = Some(node);
                Ok(text)
            }
            Err(CloseFault::SeatMissing { node, seats }) => {
                self.shared = Some(node);
                self.seats = seats;
                text_of(alloc, &"Z1 SeatMissing")
            }
        }
    }

    /// `forge SESSION USER`: one more receipt, of seat 1, says that the first event opened this session for the user.
    pub fn forge(&mut self, words: &mut Words<'_>) -> Result<(), RowFault> {
        let session = words.long()?;
        self.receipts.push(Receipt {
            seat: 1,
            place: 0,
            call: Call::Step(open_of(words)?),
            outcome: Outcome::Reply(Reply::Session(session)),
        })?;
        Ok(())
    }

    /// `drop K`: the receipt is left out.
    pub fn drop_receipt(&mut self, words: &mut Words<'_>) -> Result<(), RowFault> {
        let number = usize::from(words.byte()?);
        if number >= self.receipts.len() {
            return Err(RowFault::BadRow);
        }
        let _dropped = self.receipts.remove(number);
        Ok(())
    }

    /// `audit`: `ok`, or the first fault.
    pub fn audit_receipts(&self, alloc: Global) -> Result<String, RowFault> {
        let node = self.closed.as_ref().ok_or(RowFault::BadRow)?;
        match audit(alloc, node, &self.receipts) {
            Ok(()) => text_of(alloc, &"ok"),
            Err(AuditFault::Memory) => Err(RowFault::Memory),
            Err(fault) => text_of(alloc, &fault),
        }
    }
}
