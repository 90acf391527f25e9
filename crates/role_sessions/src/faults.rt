//! Why a call of a client is refused.

use std::error::Error;
use std::fmt;

/// Why a session isn't opened, a role isn't activated or a session isn't listed. Written as its code
/// and its name.
#[derive(Clone, Copy, Debug, PartialEq, Eq)]
pub enum SessionFault {
    /// No session with this id is open.
    NoSession,
    /// The session is another user's.
    NotYours,
    /// 4,096 sessions are open already.
    TooManySessions,
    /// The role isn't in the cluster's table.
    NoSuchRole,
    /// The user isn't assigned to the role.
    NotAssigned,
    /// The role is active in the session already.
    AlreadyActive,
    /// 64 roles are active in the session already.
    TooManyRoles,
    /// Memory is wanting.
    Memory,
}

impl fmt::Display for SessionFault {
    ghost use Rattle.std.specs.Prelude.{Some};
    ghost use Rattle.role_sessions.specs.Refusals.{session_fault_text};

    ghost output = { λ fault. Some (session_fault_text fault) };

    fn fmt<W: fmt::Write>(&self, f: &mut fmt::Formatter<W>) -> fmt::Result {
        f.write_str(match self {
            SessionFault::NoSession => "N1 NoSession",
            SessionFault::NotYours => "N2 NotYours",
            SessionFault::TooManySessions => "A1 TooManySessions",
            SessionFault::NoSuchRole => "A2 NoSuchRole",
            SessionFault::NotAssigned => "A3 NotAssigned",
            SessionFault::AlreadyActive => "A4 AlreadyActive",
            SessionFault::TooManyRoles => "A5 TooManyRoles",
            SessionFault::Memory => "out of memory",
        })
    }
}

impl Error for SessionFault {}

/// Why a role isn't dropped or a session isn't closed. Written as its code and its name.
#[derive(Clone, Copy, Debug, PartialEq, Eq)]
pub enum EndFault {
    /// No session with this id is open.
    NoSession,
    /// The session is another user's.
    NotYours,
    /// The role isn't active in the session.
    NotActive,
}

impl fmt::Display for EndFault {
    ghost use Rattle.std.specs.Prelude.{Some};
    ghost use Rattle.role_sessions.specs.Refusals.{end_fault_text};

    ghost output = { λ fault. Some (end_fault_text fault) };

    fn fmt<W: fmt::Write>(&self, f: &mut fmt::Formatter<W>) -> fmt::Result {
        f.write_str(match self {
            EndFault::NoSession => "N1 NoSession",
            EndFault::NotYours => "N2 NotYours",
            EndFault::NotActive => "A6 NotActive",
        })
    }
}

impl Error for EndFault {}
