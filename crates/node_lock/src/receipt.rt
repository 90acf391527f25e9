//! What is asked of a node under its lock, what it says, and the receipt of both.

ghost use Rattle.std.specs.Prelude.{◌≡◌, IsTrue, ◌↔◌};
ghost use Rattle.node_lock.specs.Receipts.{is_recorded_outcome};
ghost use Rattle.node_lock.specs.declared.receipt.Call.TheVariants.{Step};
ghost use Rattle.node_lock.specs.declared.receipt.Outcome.TheVariants.{Reply as Replied};

use role_commands::Items;
use role_node::{Answer, Event, NodeFault, Question, Reply};

/// What a caller asks of a node under its lock.
#[derive(Clone, Copy, Debug, PartialEq, Eq)]
pub enum Call {
    /// An event is applied.
    Step(Event),
    /// A question is answered.
    Ask(Question),
}

/// What a node said to a call.
#[derive(Drop, Debug)]
pub enum Outcome {
    /// The reply to an event.
    Reply(Reply),
    /// The answer to a question.
    Answer(Answer),
    /// The refusal of an event, or of a listing of a session that is not open.
    Refused(NodeFault),
}

/// What a caller keeps of one call under the lock. It is plain data that anyone can write: an audit tells whether it is
/// true of a node, its seat apart, which no audit looks at.
#[derive(Drop, Debug)]
pub struct Receipt {
    /// The number of the caller's seat.
    pub seat: u8,
    /// The length of the node's history before the call.
    pub place: u32,
    /// What was asked.
    pub call: Call,
    /// What the node said.
    pub outcome: Outcome,
}

impl Call {
    /// The call that applies an event.
    pub(crate) fn of_event(event: &Event) -> Call
        ensures { result ≡ Step event.now }
    {
        Call::Step(*event)
    }

    /// Whether two calls are equal.
    pub(crate) fn equals(&self, other: &Call) -> bool
        ensures { IsTrue result ↔ (self.now ≡ other.now) }
    {
        match (self, other) {
            (Call::Step(a), Call::Step(b)) => *a == *b,
            (Call::Ask(a), Call::Ask(b)) => *a == *b,
            _ => false,
        }
    }
}

impl Outcome {
    /// Whether the outcome is a reply to an event that was recorded.
    pub(crate) fn is_recorded(&self) -> bool
        ensures { result ≡ is_recorded_outcome self.now }
    {
        match self {
            Outcome::Reply(reply) => !matches!(reply, Reply::Idle),
            Outcome::Answer(_) => false,
            Outcome::Refused(_) => false,
        }
    }

    /// Whether the outcome is this reply.
    #[inline(always)]
    pub(crate) fn is_reply(&self, reply: &Reply) -> bool
        ensures { IsTrue result ↔ (self.now ≡ Replied reply.now) }
    {
        match self {
            Outcome::Reply(said) => same_reply(said, reply),
            Outcome::Answer(_) => false,
            Outcome::Refused(_) => false,
        }
    }

    /// Whether two outcomes are equal.
    pub(crate) fn equals(&self, other: &Outcome) -> bool
        ensures { IsTrue result ↔ (self.now ≡ other.now) }
    {
        match (self, other) {
            (Outcome::Reply(a), Outcome::Reply(b)) => same_reply(a, b),
            (Outcome::Answer(a), Outcome::Answer(b)) => same_answer(a, b),
            (Outcome::Refused(a), Outcome::Refused(b)) => *a == *b,
            _ => false,
        }
    }
}

/// Whether two answers are equal.
fn same_answer(a: &Answer, b: &Answer) -> bool
    ensures { IsTrue result ↔ (a.now ≡ b.now) }
{
    match (a, b) {
        (Answer::Verdict(a), Answer::Verdict(b)) => *a == *b,
        (Answer::Users(a), Answer::Users(b)) => same_users(a, b),
        (Answer::Roles(a), Answer::Roles(b)) => same_numbers(a, b),
        (Answer::Permissions(a), Answer::Permissions(b)) => same_pairs(a, b),
        (Answer::Operations(a), Answer::Operations(b)) => same_numbers(a, b),
        _ => false,
    }
}

fn same_users(a: &Items<u32>, b: &Items<u32>) -> bool
    ensures { IsTrue result ↔ (a.now ≡ b.now) }
{
    a.as_slice() == b.as_slice()
}

fn same_numbers(a: &Items<u16>, b: &Items<u16>) -> bool
    ensures { IsTrue result ↔ (a.now ≡ b.now) }
{
    a.as_slice() == b.as_slice()
}

fn same_pairs(a: &Items<(u16, u32)>, b: &Items<(u16, u32)>) -> bool
    ensures { IsTrue result ↔ (a.now ≡ b.now) }
{
    a.as_slice() == b.as_slice()
}

/// Whether two replies are equal.
#[inline(always)]
fn same_reply(a: &Reply, b: &Reply) -> bool
    ensures { IsTrue result ↔ (a.now ≡ b.now) }
{
    match (a, b) {
        (Reply::Idle, Reply::Idle) => true,
        (Reply::Issued(a), Reply::Issued(b)) => *a == *b,
        (
            Reply::Counted {
                send: a_send,
                delivered: a_delivered,
                from: a_from,
                to: a_to,
            },
            Reply::Counted {
                send: b_send,
                delivered: b_delivered,
                from: b_from,
                to: b_to,
            },
        ) => {
            *a_send == *b_send
                && *a_delivered == *b_delivered
                && *a_from == *b_from
                && *a_to == *b_to
        }
        (Reply::Session(a), Reply::Session(b)) => *a == *b,
        (Reply::Done, Reply::Done) => true,
        _ => false,
    }
}
