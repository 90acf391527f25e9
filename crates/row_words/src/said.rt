//! How commands, kinds of messages and what may be missing are written.

use link_frames::Kind;
use role_commands::Command;
use std::fmt;
use std::fmt::Display;

/// A command in words.
#[derive(Clone, Copy)]
pub struct Spelled(pub Command);

impl Display for Spelled {
    fn fmt<W: fmt::Write>(&self, f: &mut fmt::Formatter<W>) -> fmt::Result {
        match self.0 {
            Command::Assign { user, role } => write!(f, "assign {user} {role}"),
            Command::Deassign { user, role } => write!(f, "deassign {user} {role}"),
            Command::Grant {
                role,
                operation,
                object,
            } => write!(f, "grant {role} {operation} {object}"),
            Command::Revoke {
                role,
                operation,
                object,
            } => write!(f, "revoke {role} {operation} {object}"),
            Command::Clear { role } => write!(f, "clear {role}"),
        }
    }
}

/// A value, or `none`.
#[derive(Clone, Copy)]
pub struct OrNone<T>(pub Option<T>);

impl<T: Display> Display for OrNone<T> {
    fn fmt<W: fmt::Write>(&self, f: &mut fmt::Formatter<W>) -> fmt::Result {
        match &self.0 {
            Some(value) => write!(f, "{value}"),
            None => f.write_str("none"),
        }
    }
}

/// Two values, with a space between them.
#[derive(Clone, Copy)]
pub struct Pair<T, U>(pub T, pub U);

impl<T: Display, U: Display> Display for Pair<T, U> {
    fn fmt<W: fmt::Write>(&self, f: &mut fmt::Formatter<W>) -> fmt::Result {
        write!(f, "{} {}", self.0, self.1)
    }
}

/// A space, a word, a space and a value; nothing where there is no value.
#[derive(Clone, Copy)]
pub struct Behind<T>(pub &'static str, pub Option<T>);

impl<T: Display> Display for Behind<T> {
    fn fmt<W: fmt::Write>(&self, f: &mut fmt::Formatter<W>) -> fmt::Result {
        match &self.1 {
            Some(value) => write!(f, " {} {value}", self.0),
            None => Ok(()),
        }
    }
}

/// `send`, `echo` or `ready`.
pub fn kind_word(kind: Kind) -> &'static str {
    match kind {
        Kind::Send => "send",
        Kind::Echo => "echo",
        Kind::Ready => "ready",
    }
}
