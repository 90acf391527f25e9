//! Turns at the node: who looks comes before who works, and each kind in the order in which threads ask.

ghost use Rattle.std.specs.Prelude.{◌≡◌, true, None, is_some};
ghost use Rattle.server_locks.specs.Turns.{has_waiting, ticket_taken, called, asked, next_called, next_ticket};

use std::sync::{Condvar, Mutex, Wait};

/// So many looks in a row come before work that waits: one of each client.
const MOST_LOOKS: u32 = 16;

/// What a turn is for: to look, which is short where all is kept, or to work, which ends with a sync.
#[derive(Clone, Copy, Debug, PartialEq, Eq)]
pub enum Purpose {
    Look,
    Work,
}

/// The turn of one thread.
#[derive(Clone, Copy, Debug, PartialEq, Eq)]
pub struct Turn {
    pub purpose: Purpose,
    pub ticket: u64,
}

/// The number of the next ticket for one purpose, and of the first that has not been called.
#[derive(Clone, Copy, Debug, PartialEq, Eq)]
pub struct Tickets {
    pub next: u64,
    pub first: u64,
}

impl Tickets {
    /// No ticket was taken.
    fn new() -> Tickets
        ensures { result ≡ record { next = 0; first = 0 } }
    {
        Tickets { next: 0, first: 0 }
    }

    /// Whether one was taken that has not been called.
    fn has_waiting(&self) -> bool
        ensures { result ≡ has_waiting self.now }
    {
        self.first != self.next
    }

    /// Takes a ticket.
    fn take(&mut self) -> u64
        ensures ticket { result ≡ self.old.next }
        ensures taken { self.new ≡ ticket_taken self.old }
    {
        let ticket = self.next;
        self.next = ticket.wrapping_add(1);
        ticket
    }

    /// Calls the first that waits.
    fn call(&mut self) -> u64
        ensures ticket { result ≡ self.old.first }
        ensures called { self.new ≡ called self.old }
    {
        let ticket = self.first;
        self.first = ticket.wrapping_add(1);
        ticket
    }
}

/// Who waits for a turn, and whose turn it is.
#[derive(Clone, Copy, Debug, PartialEq, Eq)]
pub struct Turns {
    pub looks: Tickets,
    pub works: Tickets,
    /// The turn that was called and has not ended.
    pub turn: Option<Turn>,
    /// How many looks in a row were called while work waited.
    pub passed: u32,
}

impl Turns {
    /// Takes a ticket. Where nobody has a turn it is this one's.
    fn ask(&mut self, purpose: Purpose) -> Turn
        ensures turn { result ≡ record { purpose = purpose; ticket = next_ticket self.old purpose } }
        ensures waits { is_some self.old.turn ≡ true → self.new ≡ asked self.old purpose }
        ensures next { self.old.turn ≡ None → self.new ≡ next_called (asked self.old purpose) }
    {
        let ticket = match purpose {
            Purpose::Look => self.looks.take(),
            Purpose::Work => self.works.take(),
        };
        if self.turn.is_none() {
            self.call_next();
        }
        Turn { purpose, ticket }
    }

    /// The turn has ended, and the next one is called. Whether there is one.
    fn end(&mut self) -> bool
        ensures called { self.new ≡ next_called self.old }
        ensures next { result ≡ is_some self.new.turn }
    {
        self.call_next();
        self.turn.is_some()
    }

    /// Calls the first that waits to look, if work does not wait for long already, else the first that waits to work.
    fn call_next(&mut self)
        ensures { self.new ≡ next_called self.old }
    {
        let works_wait = self.works.has_waiting();
        if self.looks.has_waiting() && !(works_wait && self.passed >= MOST_LOOKS) {
            self.passed = if works_wait { self.passed + 1 } else { 0 };
            let ticket = self.looks.call();
            let purpose = Purpose::Look;
            self.turn = Some(Turn { purpose, ticket });
        } else {
            self.passed = 0;
            self.turn = None;
            if works_wait {
                let ticket = self.works.call();
                let purpose = Purpose::Work;
                self.turn = Some(Turn { purpose, ticket });
            }
        }
    }
}

/// Gives threads their turns at the node. A mutex alone knows no order.
#[derive(Drop)]
pub struct TicketLock {
    turns: Mutex<Turns>,
    called: Condvar,
}

impl TicketLock {
    /// The first to ask has its turn at once.
    pub fn new() -> TicketLock {
        TicketLock {
            turns: Mutex::new(Turns {
                looks: Tickets::new(),
                works: Tickets::new(),
                turn: None,
                passed: 0,
            }),
            called: Condvar::new(),
        }
    }

    /// Waits for this thread's turn, which lasts until [`end_turn`](Self::end_turn).
    pub fn wait_for_turn<R: Wait>(&self, rt: &R, purpose: Purpose) {
        let mut turns = self.turns.lock(rt);
        let turn = turns.ask(purpose);
        let _ = self
            .called
            .wait_while(rt, turns, |turns| turns.turn != Some(turn));
    }

    /// Ends this thread's turn.
    pub fn end_turn<R: Wait>(&self, rt: &R) {
        if self.turns.lock(rt).end() {
            self.called.notify_all();
        }
    }
}
