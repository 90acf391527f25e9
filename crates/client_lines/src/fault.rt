//! Why a client's line is no request.

ghost use Rattle.std.specs.Prelude.{◌≡◌};
ghost use Rattle.client_lines.specs.Faults.{named_member};

use crate::member::Member;
use std::alloc::AllocError;
use std::error::Error;
use std::fmt;

/// Why a line is no request. Written as its code and its name.
#[derive(Clone, Copy, Debug, PartialEq, Eq)]
pub enum LineFault {
    /// The line has more than 4,096 bytes, or it is not JSON.
    NotJson,
    /// It is not an object.
    NotObject,
    /// It has no member `op` that is a string.
    NoOp,
    /// There is no such operation.
    UnknownOp,
    /// The operation has this member, and the line does not.
    Missing(Member),
    /// The member is not a whole number of its range.
    OutOfRange(Member),
    /// Memory is wanting.
    Memory,
}

impl LineFault {
    /// The member that it is about.
    pub fn member(&self) -> Option<Member>
        ensures { result ≡ named_member self.now }
    {
        match self {
            LineFault::Missing(member) | LineFault::OutOfRange(member) => Some(*member),
            LineFault::NotJson
            | LineFault::NotObject
            | LineFault::NoOp
            | LineFault::UnknownOp
            | LineFault::Memory => None,
        }
    }
}

impl fmt::Display for LineFault {
    ghost use Rattle.std.specs.Prelude.{Some};
    ghost use Rattle.client_lines.specs.Faults.{line_fault_text};

    ghost output = { λ fault. Some (line_fault_text fault) };

    fn fmt<W: fmt::Write>(&self, f: &mut fmt::Formatter<W>) -> fmt::Result {
        f.write_str(match self {
            LineFault::NotJson => "J1 NotJson",
            LineFault::NotObject => "J2 NotObject",
            LineFault::NoOp => "J3 NoOp",
            LineFault::UnknownOp => "J4 UnknownOp",
            LineFault::Missing(_) => "J5 Missing",
            LineFault::OutOfRange(_) => "J6 OutOfRange",
            LineFault::Memory => "out of memory",
        })
    }
}

impl Error for LineFault {}

impl From<AllocError> for LineFault {
    ghost use Rattle.std.specs.Prelude.{◌≡◌};
    ghost use Rattle.client_lines.specs.declared.fault.LineFault.TheVariants.{Memory};

    ghost from_gives = { λ _ fault. fault ≡ Memory };

    fn from(_: AllocError) -> Self {
        LineFault::Memory
    }
}
