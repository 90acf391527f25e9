//! Calls under a lock, as a row spells them, and how receipts are written.

use crate::alone::own_packet;
use node_lock::{Call, Outcome, Receipt};
use quorum_sizes::NodeName;
use role_node::{Answer, ClientEvent, Event, NodeFault, Question, Reply, Verdict};
use row_words::{RowFault, Words, list_text, permissions_text, text_of};
use std::alloc::Global;
use std::fmt;
use std::fmt::Display;

/// The call that all that is left spells: an event or a question.
pub fn call_of(me: NodeName, words: &mut Words<'_>) -> Result<Call, RowFault> {
    match words.word() {
        "issue" => Ok(Call::Step(Event::Issue(words.command()?))),
        "take" => Ok(Call::Step(Event::Take(own_packet(me, words)?))),
        "open" => Ok(Call::Step(open_of(words)?)),
        "roles" => Ok(Call::Ask(Question::AssignedRoles(words.wide()?))),
        "users" => Ok(Call::Ask(Question::AssignedUsers(words.narrow()?))),
        "check" => Ok(Call::Ask(check_of(words)?)),
        _ => Err(RowFault::BadRow),
    }
}

/// `USER`
pub fn open_of(words: &mut Words<'_>) -> Result<Event, RowFault> {
    let user = words.wide()?;
    Ok(Event::Client(ClientEvent::Open { user }))
}

/// `SESSION USER OPERATION OBJECT`
fn check_of(words: &mut Words<'_>) -> Result<Question, RowFault> {
    Ok(Question::Check {
        session: words.long()?,
        user: words.wide()?,
        operation: words.narrow()?,
        object: words.wide()?,
    })
}

/// `seat SEAT at PLACE`, and what the node said.
pub fn receipt_text(alloc: Global, receipt: &Receipt) -> Result<String, RowFault> {
    let said = outcome_text(alloc, &receipt.outcome)?;
    let (seat, place) = (receipt.seat, receipt.place);
    Ok(format!(in alloc; "seat {seat} at {place} {said}")?)
}

fn outcome_text(alloc: Global, outcome: &Outcome) -> Result<String, RowFault> {
    match outcome {
        Outcome::Reply(reply) => text_of(alloc, &Replied(*reply)),
        Outcome::Answer(answer) => said_text(alloc, answer),
        Outcome::Refused(NodeFault::Memory) => Err(RowFault::Memory),
        Outcome::Refused(fault) => text_of(alloc, fault),
    }
}

fn said_text(alloc: Global, answer: &Answer) -> Result<String, RowFault> {
    match answer {
        Answer::Verdict(verdict) => text_of(alloc, &Decided(*verdict)),
        Answer::Users(users) => list_text(alloc, users.as_slice()),
        Answer::Roles(roles) => list_text(alloc, roles.as_slice()),
        Answer::Permissions(permissions) => permissions_text(alloc, permissions.as_slice()),
        Answer::Operations(operations) => list_text(alloc, operations.as_slice()),
    }
}

/// A reply in words.
#[derive(Clone, Copy)]
struct Replied(Reply);

impl Display for Replied {
    fn fmt<W: fmt::Write>(&self, f: &mut fmt::Formatter<W>) -> fmt::Result {
        match self.0 {
            Reply::Idle => f.write_str("idle"),
            Reply::Issued(message) => write!(f, "issued {}", message.place),
            Reply::Counted { from, to, .. } => write!(f, "counted {from}-{to}"),
            Reply::Session(session) => write!(f, "session {session}"),
            Reply::Done => f.write_str("done"),
        }
    }
}

/// A decision in words.
#[derive(Clone, Copy)]
struct Decided(Verdict);

impl Display for Decided {
    fn fmt<W: fmt::Write>(&self, f: &mut fmt::Formatter<W>) -> fmt::Result {
        match self.0 {
            Verdict::Allow(role) => write!(f, "allow {role}"),
            Verdict::Deny(rule) => write!(f, "deny {rule}"),
        }
    }
}
