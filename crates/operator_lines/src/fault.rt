//! Why an operator's line is no request, and why a server refuses a client's.

ghost use Rattle.std.specs.Prelude.{◌≡◌};
ghost use Rattle.operator_lines.specs.Faults.{named_member};

use crate::member::OperatorMember;
use std::alloc::AllocError;
use std::error::Error;
use std::fmt;

/// Why an operator's line is no request. Written as its code and its name.
#[derive(Clone, Copy, Debug, PartialEq, Eq)]
pub enum OperatorFault {
    /// The operation has this member, and the line does not.
    Missing(OperatorMember),
    /// The member is not a whole number of its range.
    OutOfRange(OperatorMember),
    /// Memory is wanting.
    Memory,
}

impl OperatorFault {
    /// The member that it is about.
    pub fn member(&self) -> Option<OperatorMember>
        ensures { result ≡ named_member self.now }
    {
        match self {
            OperatorFault::Missing(member) | OperatorFault::OutOfRange(member) => Some(*member),
            OperatorFault::Memory => None,
        }
    }
}

impl fmt::Display for OperatorFault {
    ghost use Rattle.std.specs.Prelude.{Some};
    ghost use Rattle.operator_lines.specs.Faults.{operator_fault_text};

    ghost output = { λ fault. Some (operator_fault_text fault) };

    fn fmt<W: fmt::Write>(&self, f: &mut fmt::Formatter<W>) -> fmt::Result {
        f.write_str(match self {
            OperatorFault::Missing(_) => "J5 Missing",
            OperatorFault::OutOfRange(_) => "J6 OutOfRange",
            OperatorFault::Memory => "out of memory",
        })
    }
}

impl Error for OperatorFault {}

impl From<AllocError> for OperatorFault {
    ghost use Rattle.std.specs.Prelude.{◌≡◌};
    ghost use Rattle.operator_lines.specs.declared.fault.OperatorFault.TheVariants.{Memory};

    ghost from_gives = { λ _ fault. fault ≡ Memory };

    fn from(_: AllocError) -> Self {
        OperatorFault::Memory
    }
}

/// Why a server refuses a client's line that its node alone would take. Written as its code and its name.
#[derive(Clone, Copy, Debug, PartialEq, Eq)]
pub enum ServingFault {
    /// The node was begun twice: it started without what it had published before, so what it published since is not
    /// what its own stream says, and another command would be lost as well.
    BegunTwice,
    /// The node has published its share. Written as the node's own refusal where its stream has no place.
    StreamFull,
    /// Its clients have done their share of acts. Written as the node's own refusal where its history is full.
    Full,
}

impl fmt::Display for ServingFault {
    ghost use Rattle.std.specs.Prelude.{Some};
    ghost use Rattle.operator_lines.specs.Faults.{serving_fault_text};

    ghost output = { λ fault. Some (serving_fault_text fault) };

    fn fmt<W: fmt::Write>(&self, f: &mut fmt::Formatter<W>) -> fmt::Result {
        f.write_str(match self {
            ServingFault::BegunTwice => "F6 BegunTwice",
            ServingFault::StreamFull => "F2 StreamFull",
            ServingFault::Full => "F4 Full",
        })
    }
}

impl Error for ServingFault {}
