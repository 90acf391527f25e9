//! The members of operators' lines.

ghost use Rattle.std.specs.Prelude.{◌≡◌};
ghost use Rattle.operator_lines.specs.Members.{member_name};

use std::fmt;

/// A member of an operator's line. Written as its name.
#[derive(Clone, Copy, Debug, PartialEq, Eq)]
pub enum OperatorMember {
    /// The owner of a stream.
    Owner,
    /// A place of it.
    Place,
    /// The least id of a session.
    From,
    /// Who wants access.
    User,
    /// What is to be done.
    Operation,
    /// To what.
    Object,
    /// The accesses about which is asked, a row of user, owner, operation and object for each.
    Asked,
}

impl OperatorMember {
    /// The name that it has in the line.
    pub fn name(&self) -> &'static str
        ensures { result.now ≡ member_name self.now }
    {
        match self {
            OperatorMember::Owner => "owner",
            OperatorMember::Place => "place",
            OperatorMember::From => "from",
            OperatorMember::User => "user",
            OperatorMember::Operation => "operation",
            OperatorMember::Object => "object",
            OperatorMember::Asked => "asked",
        }
    }
}

impl fmt::Display for OperatorMember {
    ghost use Rattle.std.specs.Prelude.{Some};
    ghost use Rattle.operator_lines.specs.Members.{member_name};

    ghost output = { λ member. Some (member_name member) };

    fn fmt<W: fmt::Write>(&self, f: &mut fmt::Formatter<W>) -> fmt::Result {
        f.write_str(self.name())
    }
}
