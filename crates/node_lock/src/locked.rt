//! What is behind a shared node's lock, and the calls under it.

ghost use Rattle.std.specs.Prelude.{◌≡◌, ◌<◌, ◌≤◌, ◌↔◌, [], ◌∷◌, ◌++◌, length, IsTrue};
ghost use Rattle.std.specs.Prelude.{option_map, Ok, IfOk, IfErr, IfSome, OnOk, OnErr, MatchResult};
ghost use Rattle.owner_streams.specs.Places.{place_count};
ghost use Rattle.role_node.specs.Configs.{most_events};
ghost use Rattle.bracha_instance.specs.declared.instance.Effect.TheVariants.{Counted};
ghost use Rattle.role_node.specs.Answers.{outlook, is_recorded};
ghost use Rattle.role_node.specs.Nodes.{IsLegalNode, due_at, with_event};
ghost use Rattle.role_node.specs.Windows.{last_vote_at};
ghost use Rattle.node_lock.specs.Receipts.{outcome_due};
ghost use Rattle.node_lock.specs.Holds.{end_of, Fits, receipt_of, held_after, seat_after};
ghost use Rattle.node_lock.specs.Holds.{seat_after_question, IsStepFault, IsMisfit};
ghost use Rattle.node_lock.specs.Views.{node_count, view_of, held_after_hold, seat_after_hold, IsHoldFault};
ghost use Rattle.node_lock.specs.declared.receipt.Call.TheVariants.{Step, Ask};

use crate::questions::ask_outcome;
use crate::receipt::{Call, Outcome, Receipt};
use crate::seat::{MOST_SEATS, Seat};
use crate::view::View;
use bracha_instance::Effect;
use link_frames::Place;
use quorum_sizes::NodeName;
use role_node::{Config, Event, Node, Question, Reply};
use std::alloc::{AllocError, Global};
use std::error::Error;
use std::fmt;
use std::marker::Model;
use std::sync::ledger::{Book, Ledger, Share};

/// Why a call under the lock has no receipt. The seat stays as it was.
#[derive(Clone, Copy, Debug, PartialEq, Eq)]
pub enum StepFault {
    /// The history has `found` events, and the seat has seen `seen`.
    Behind { seen: u32, found: u32 },
    /// The history has `found` events of the seat, which recorded `recorded`.
    Strange { recorded: u32, found: u32 },
    /// Memory is wanting.
    Memory,
}

impl fmt::Display for StepFault {
    ghost use Rattle.std.specs.Prelude.{Some};
    ghost use Rattle.node_lock.specs.Texts.{step_fault_text};

    ghost output = { λ fault. Some (step_fault_text fault) };

    fn fmt<W: fmt::Write>(&self, f: &mut fmt::Formatter<W>) -> fmt::Result {
        match self {
            StepFault::Behind { seen, found } => write!(f, "Y1 Behind {seen} {found}"),
            StepFault::Strange { recorded, found } => write!(f, "Y2 Strange {recorded} {found}"),
            StepFault::Memory => write!(f, "out of memory"),
        }
    }
}

impl Error for StepFault {}

impl From<AllocError> for StepFault {
    ghost use Rattle.std.specs.Prelude.{◌≡◌};
    ghost use Rattle.node_lock.specs.declared.locked.StepFault.TheVariants.{Memory};

    ghost from_gives = { λ _ fault. fault ≡ Memory };

    fn from(_: AllocError) -> Self {
        StepFault::Memory
    }
}

/// What is behind a shared node's lock: the node, and beside each event of its history the number of the seat that
/// recorded it.
#[derive(Drop)]
pub struct Locked<L: Ledger> {
    node: Node,
    by: Vec<u8>,
    counts: [u32; MOST_SEATS],
    book: Book<L>,
    seats: u8,
}

impl<L: Ledger> Model for Locked<L> {
    ghost use Rattle.std.specs.Prelude.{length};
    ghost use Rattle.node_lock.specs.Holds.{Held, held_code, IsKept};

    ghost Value = { Held };

    ghost coded = { held_code };

    ghost view = { λ a. record { node = a.node; seats = a.by.items } };

    ghost invariant = { λ a. IsKept (length a.node.history) a.by.items a.counts a.book.total a.seats L.parts };
}

impl<L: Ledger> Locked<L> {
    /// A node that has recorded nothing, for so many seats.
    pub(crate) fn new(alloc: Global, node: Node, book: Book<L>, seats: u8) -> Locked<L>
        requires empty { node.history ≡ [] }
        requires total { book.total ≡ 0 }
        requires seats { (seats ≡ L.parts) × (0 < seats) }
        ensures { result ≡ record { node = node; seats = [] } }
    {
        Locked {
            node,
            by: Vec::new(alloc),
            counts: [0; MOST_SEATS],
            book,
            seats,
        }
    }

    /// How many seats there are.
    pub(crate) fn seats(&self) -> u8
        ensures parts { result ≡ L.parts }
        ensures some { 0 < result }
    {
        self.seats
    }

    /// The node, for a share of all parts, whose amount is the length of the history.
    pub(crate) fn into_node(self, mut all: Share<L>) -> Node
        requires { all.parts ≡ L.parts }
        ensures { length result.history ≡ all.amount }
    {
        let Locked {
            node,
            by: _,
            counts: _,
            mut book,
            seats: _,
        } = self;
        book.audit(&mut all);
        node
    }

    /// The length of the history.
    fn end(&self) -> u32
        ensures value { result ≡ end_of self.now }
        ensures most { end_of self.now ≤ most_events }
        ensures legal { IsLegalNode self.now.node }
        ensures beside { length self.now.seats ≡ end_of self.now }
    {
        self.node.events()
    }

    /// Whether the seat has seen no more than the history has, and recorded as many events as it has there.
    fn admit(&self, seat: &Seat<L>) -> Result<(), StepFault>
        ensures { MatchResult result (λ _. Fits self.now seat.now) (IsMisfit self.now seat.now) }
    {
        let end = self.end();
        if end < seat.seen() {
            return Err(StepFault::Behind {
                seen: seat.seen(),
                found: end,
            });
        }
        let recorded = self.counts[seat.number() as usize];
        if recorded != seat.recorded() {
            return Err(StepFault::Strange {
                recorded: seat.recorded(),
                found: recorded,
            });
        }
        Ok(())
    }

    /// Records an event that counts, with the seat's number beside it.
    fn record(&mut self, seat: &mut Seat<L>, event: Event) -> Result<Receipt, AllocError>
        requires counts { outlook self.old.node.config self.old.node.me self.old.node.history event ≡ Ok Counted }
        requires fits { Fits self.old seat.old }
        ensures receipt { IfOk result (λ receipt. receipt ≡ receipt_of self.old seat.old (Step event)) }
        ensures held { OnOk result (self.new ≡ held_after self.old seat.old event) }
        ensures seat { OnOk result (seat.new ≡ seat_after self.old seat.old event) }
        ensures same { OnErr result (self.new ≡ self.old) }
        ensures same_seat { OnErr result (seat.new ≡ seat.old) }
        ensures legal { IsLegalNode self.new.node }
        ensures beside { length self.new.seats ≡ end_of self.new }
    {
        let place = self.end();
        let number = seat.number();
        let call = Call::of_event(&event);
        let reply = apply_recorded(&mut self.node, &mut self.by, number, event)?;
        self.counts[number as usize] += 1;
        seat.record(&mut self.book, place + 1);
        Ok(Receipt {
            seat: number,
            place,
            call,
            outcome: Outcome::Reply(reply),
        })
    }

    /// Applies an event to the node, for the seat. The receipt's outcome is the answer that is due to the event after
    /// the history; an event that is recorded gets the seat's number beside it.
    ///
    /// # Errors
    ///
    /// The history is shorter than the seat has seen; then it has not as many events of the seat as it recorded; last,
    /// for an event that would be recorded, memory is wanting. Node and seat stay as they were.
    pub fn step(&mut self, seat: &mut Seat<L>, event: Event) -> Result<Receipt, StepFault>
        ensures fits { OnOk result (Fits self.old seat.old) }
        ensures receipt { IfOk result (λ receipt. receipt ≡ receipt_of self.old seat.old (Step event)) }
        ensures held { OnOk result (self.new ≡ held_after self.old seat.old event) }
        ensures seat { OnOk result (seat.new ≡ seat_after self.old seat.old event) }
        ensures err { IfErr result (IsStepFault self.old seat.old (Step event)) }
        ensures same { OnErr result (self.new ≡ self.old) }
        ensures same_seat { OnErr result (seat.new ≡ seat.old) }
        ensures legal { IsLegalNode self.new.node }
        ensures beside { length self.new.seats ≡ end_of self.new }
    {
        let place = self.end();
        self.admit(seat)?;
        let outcome = match self.node.look(&event) {
            Ok(Effect::Counted) => return Ok(self.record(seat, event)?),
            Ok(Effect::Idle) => Outcome::Reply(Reply::Idle),
            Err(fault) => Outcome::Refused(fault),
        };
        seat.see(place);
        Ok(Receipt {
            seat: seat.number(),
            place,
            call: Call::of_event(&event),
            outcome,
        })
    }

    /// Answers a question, for the seat. Nothing is recorded.
    ///
    /// # Errors
    ///
    /// The history is shorter than the seat has seen; then it has not as many events of the seat as it recorded; last,
    /// for a listing, memory is wanting. Node and seat stay as they were.
    pub fn ask(&mut self, seat: &mut Seat<L>, question: Question) -> Result<Receipt, StepFault>
        ensures fits { OnOk result (Fits self.old seat.old) }
        ensures receipt { IfOk result (λ receipt. receipt ≡ receipt_of self.old seat.old (Ask question)) }
        ensures seat { OnOk result (seat.new ≡ seat_after_question self.old seat.old) }
        ensures err { IfErr result (IsStepFault self.old seat.old (Ask question)) }
        ensures same_seat { OnErr result (seat.new ≡ seat.old) }
        ensures same { self.new ≡ self.old }
        ensures legal { IsLegalNode self.new.node }
        ensures beside { length self.new.seats ≡ end_of self.new }
    {
        let place = self.end();
        self.admit(seat)?;
        let outcome = ask_outcome(&mut self.node, question)?;
        seat.see(place);
        Ok(Receipt {
            seat: seat.number(),
            place,
            call: Call::Ask(question),
            outcome,
        })
    }

    /// The node behind the lock.
    pub fn node(&self) -> &Node
        ensures { result.now ≡ self.now.node }
    {
        &self.node
    }

    /// What the node behind the lock was told at its start.
    pub fn config(&self) -> &Config
        ensures value { result.now ≡ self.now.node.config }
        ensures me { self.now.node.me < node_count self.now }
    {
        self.node.config()
    }

    /// The name of the node behind the lock, which is a node's of its sizes.
    pub fn me(&self) -> NodeName
        ensures value { result ≡ self.now.node.me }
        ensures node { self.now.node.me < node_count self.now }
    {
        self.node.me()
    }

    /// Whether the name is a node's of the sizes of the node behind the lock.
    pub fn has(&self, name: NodeName) -> bool
        ensures { IsTrue result ↔ (name < node_count self.now) }
    {
        self.node.config().roles().sizes().has(name)
    }

    /// The greatest place of the owner's stream at which a vote, an ECHO or a READY, of the peer stands in the history.
    /// Both must be nodes of the sizes ([`has`](Self::has)). It takes no memory.
    pub fn last_vote(&self, owner: NodeName, peer: NodeName) -> Option<Place>
        requires owner { owner < node_count self.now }
        requires peer { peer < node_count self.now }
        ensures value { result ≡ last_vote_at self.now.node.history owner peer }
        ensures bound { IfSome result (λ place. place < place_count) }
    {
        self.node.last_vote(owner, peer)
    }

    /// Makes the call, where there is one, as [`step`](Self::step) or [`ask`](Self::ask) does, and then reads the view
    /// of the owner's stream and of the place in it. The owner must be a node of the sizes ([`has`](Self::has)).
    ///
    /// # Errors
    ///
    /// The history is shorter than the seat has seen; then it has not as many events of the seat as it recorded; last,
    /// where there is a call, memory is wanting for it. Node and seat stay as they were.
    pub fn hold(
        &mut self,
        seat: &mut Seat<L>,
        call: Option<Call>,
        owner: NodeName,
        place: Place,
    ) -> Result<(Option<Receipt>, View), StepFault>
        requires { owner < node_count self.old }
        ensures fits { OnOk result (Fits self.old seat.old) }
        ensures receipt { IfOk result (λ given. given.0 ≡ option_map (receipt_of self.old seat.old) call) }
        ensures view { IfOk result (λ given. given.1 ≡ view_of self.new owner place) }
        ensures held { OnOk result (self.new ≡ held_after_hold self.old seat.old call) }
        ensures seat { OnOk result (seat.new ≡ seat_after_hold self.old seat.old call) }
        ensures err { IfErr result (IsHoldFault self.old seat.old call) }
        ensures same { OnErr result (self.new ≡ self.old) }
        ensures same_seat { OnErr result (seat.new ≡ seat.old) }
        ensures legal { IsLegalNode self.new.node }
        ensures beside { length self.new.seats ≡ end_of self.new }
    {
        let receipt = match call {
            Some(Call::Step(event)) => Some(self.step(seat, event)?),
            Some(Call::Ask(question)) => Some(self.ask(seat, question)?),
            None => {
                let end = self.end();
                self.admit(seat)?;
                seat.see(end);
                None
            }
        };
        Ok((receipt, self.read_view(owner, place)))
    }

    /// The view of a place of the owner's stream.
    fn read_view(&self, owner: NodeName, place: Place) -> View
        requires { owner < node_count self.now }
        ensures { result ≡ view_of self.now owner place }
    {
        View {
            at: self.end(),
            reach: self.node.reach(owner),
            again: self.node.again(owner, place),
        }
    }
}

/// Has the node record an event that counts, and puts the number of its seat beside it.
fn apply_recorded(
    node: &mut Node,
    by: &mut Vec<u8>,
    number: u8,
    event: Event,
) -> Result<Reply, AllocError>
    requires { outlook node.old.config node.old.me node.old.history event ≡ Ok Counted }
    ensures recorded { OnOk result (IsTrue (is_recorded (due_at node.old event))) }
    ensures reply { IfOk result (λ reply. due_at node.old event ≡ Ok reply) }
    ensures node { OnOk result (node.new ≡ with_event node.old event) }
    ensures beside { OnOk result (by.new.items ≡ by.old.items ++ number ∷ []) }
    ensures legal { OnOk result (IsLegalNode node.new) }
    ensures same_node { OnErr result (node.new ≡ node.old) }
    ensures same_beside { OnErr result (by.new.items ≡ by.old.items) }
{
    by.try_reserve(1)?;
    let entry = node.record(&event)?;
    by.push_reserved(number);
    Ok(entry.reply())
}
