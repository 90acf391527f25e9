//! The decision on an access, and the rules that deny one.

ghost use Rattle.std.specs.Prelude.{◌≡◌};
ghost use Rattle.role_sessions.specs.Decisions.{rule_code};

use std::fmt;

/// The decision on an access.
#[derive(Clone, Copy, Debug, PartialEq, Eq)]
pub enum Verdict {
    /// The access is allowed in this role, the first in the order of activation that counts and has
    /// the permission.
    Allow(u16),
    /// The access is denied by this rule, the first that holds.
    Deny(Rule),
}

/// Why an access is denied. Written as its code.
#[derive(Clone, Copy, Debug, PartialEq, Eq)]
pub enum Rule {
    /// No session with this id is open.
    NoSession,
    /// The session is another user's.
    NotYours,
    /// No role is active in the session.
    NoActiveRole,
    /// The user is assigned to no role that is active in the session.
    NoneAssigned,
    /// No role that counts in the session has the permission.
    NotPermitted,
}

impl Rule {
    /// The code of the rule, `N1` to `N5`.
    pub fn code(&self) -> &'static str
        ensures { result.now ≡ rule_code self.now }
    {
        match self {
            Rule::NoSession => "N1",
            Rule::NotYours => "N2",
            Rule::NoActiveRole => "N3",
            Rule::NoneAssigned => "N4",
            Rule::NotPermitted => "N5",
        }
    }
}

impl fmt::Display for Rule {
    ghost use Rattle.std.specs.Prelude.{Some};
    ghost use Rattle.role_sessions.specs.Decisions.{rule_code};

    ghost output = { λ rule. Some (rule_code rule) };

    fn fmt<W: fmt::Write>(&self, f: &mut fmt::Formatter<W>) -> fmt::Result {
        f.write_str(self.code())
    }
}
