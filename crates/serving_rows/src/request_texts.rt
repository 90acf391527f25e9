//! What lines ask, in the words of SCRIPTS.

use client_lines::Request;
use operator_lines::{Access, OperatorRequest};
use role_commands::Items;
use role_node::{ClientEvent, Question};
use row_words::Spelled;
use std::fmt;
use std::fmt::Display;

/// What a client's line asks, as its name and its numbers.
#[derive(Clone, Copy)]
pub struct Asked(pub Request);

impl Display for Asked {
    fn fmt<W: fmt::Write>(&self, f: &mut fmt::Formatter<W>) -> fmt::Result {
        match self.0 {
            Request::Issue(command) => write!(f, "{}", Spelled(command)),
            Request::Client(event) => write!(f, "{}", Acted(event)),
            Request::Ask(question) => write!(f, "{}", Questioned(question)),
            Request::Reach(owner) => write!(f, "reach {}", owner.index()),
            Request::Again { owner, place } => write!(f, "again {} {place}", owner.index()),
            Request::Stop => f.write_str("stop"),
        }
    }
}

/// A client's act.
#[derive(Clone, Copy)]
struct Acted(ClientEvent);

impl Display for Acted {
    fn fmt<W: fmt::Write>(&self, f: &mut fmt::Formatter<W>) -> fmt::Result {
        match self.0 {
            ClientEvent::Open { user } => write!(f, "open {user}"),
            ClientEvent::Activate {
                session,
                user,
                role,
            } => write!(f, "activate {session} {user} {role}"),
            ClientEvent::DropRole {
                session,
                user,
                role,
            } => write!(f, "drop {session} {user} {role}"),
            ClientEvent::Close { session, user } => write!(f, "close {session} {user}"),
        }
    }
}

/// A decision, or a review.
#[derive(Clone, Copy)]
struct Questioned(Question);

impl Display for Questioned {
    fn fmt<W: fmt::Write>(&self, f: &mut fmt::Formatter<W>) -> fmt::Result {
        match self.0 {
            Question::Check {
                session,
                user,
                operation,
                object,
            } => write!(f, "check {session} {user} {operation} {object}"),
            Question::AssignedUsers(role) => write!(f, "list users {role}"),
            Question::AssignedRoles(user) => write!(f, "list roles {user}"),
            Question::RolePermissions(role) => write!(f, "list permissions {role}"),
            Question::UserPermissions(user) => write!(f, "list user-permissions {user}"),
            Question::RoleOperations { role, object } => {
                write!(f, "list operations {role} {object}")
            }
            Question::UserOperations { user, object } => {
                write!(f, "list user-operations {user} {object}")
            }
            Question::SessionRoles(session) => write!(f, "list session-roles {session}"),
            Question::SessionPermissions(session) => {
                write!(f, "list session-permissions {session}")
            }
        }
    }
}

/// What an operator's line, or one for a decision, asks, as its name and its numbers.
#[derive(Drop)]
pub struct OperatorAsked(pub OperatorRequest);

impl Display for OperatorAsked {
    fn fmt<W: fmt::Write>(&self, f: &mut fmt::Formatter<W>) -> fmt::Result {
        match &self.0 {
            OperatorRequest::Status => f.write_str("status"),
            OperatorRequest::Command { owner, place } => {
                write!(f, "command {} {place}", owner.index())
            }
            OperatorRequest::Sessions { from } => write!(f, "sessions {from}"),
            OperatorRequest::Decide(access) => write!(f, "decide {}", Wanted(*access)),
            OperatorRequest::DecideAll(all) => write!(f, "decide_all{}", EachWanted(all)),
        }
    }
}

/// An access: user, owner, operation and object.
#[derive(Clone, Copy)]
struct Wanted(Access);

impl Display for Wanted {
    fn fmt<W: fmt::Write>(&self, f: &mut fmt::Formatter<W>) -> fmt::Result {
        let Access {
            user,
            owner,
            operation,
            object,
        } = self.0;
        write!(f, "{user} {} {operation} {object}", owner.index())
    }
}

/// Accesses, each behind a space and in brackets.
#[derive(Clone, Copy)]
struct EachWanted<'a>(&'a Items<Access>);

impl Display for EachWanted<'_> {
    fn fmt<W: fmt::Write>(&self, f: &mut fmt::Formatter<W>) -> fmt::Result {
        for access in self.0.as_slice() {
            write!(f, " ({})", Wanted(*access))?;
        }
        Ok(())
    }
}
