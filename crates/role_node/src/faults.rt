//! Why an event is refused, and why a question has no answer.

use link_frames::Place;
use owner_streams::StreamFault;
use role_sessions::{EndFault, SessionFault};
use std::alloc::AllocError;
use std::error::Error;
use std::fmt;

/// Why an event is refused. Written as its code and its name, a client's fault as that fault.
#[derive(Clone, Copy, Debug, PartialEq, Eq)]
pub enum NodeFault {
    /// The role is not this node's.
    NotMine,
    /// A stream has no more places.
    StreamFull,
    /// The node has issued 64 commands beyond the reach of its own stream.
    Busy,
    /// The history is as long as it may get.
    Full,
    /// The packet is not for this node, or its sender or its owner is no node.
    Misrouted,
    /// The packet's place is not below `end`, the reach of the owner's stream and 64.
    Beyond { place: Place, end: u32 },
    /// The client's session refuses.
    Session(SessionFault),
    /// A role is not dropped or a session not closed.
    End(EndFault),
    /// Memory is wanting.
    Memory,
}

impl fmt::Display for NodeFault {
    ghost use Rattle.std.specs.Prelude.{Some};
    ghost use Rattle.role_node.specs.Faults.{node_fault_text};

    ghost output = { λ fault. Some (node_fault_text fault) };

    fn fmt<W: fmt::Write>(&self, f: &mut fmt::Formatter<W>) -> fmt::Result {
        f.write_str(match self {
            NodeFault::NotMine => "F1 NotMine",
            NodeFault::StreamFull => "F2 StreamFull",
            NodeFault::Busy => "F3 Busy",
            NodeFault::Full => "F4 Full",
            NodeFault::Misrouted => "F5 Misrouted",
            NodeFault::Beyond { place, end } => return write!(f, "S1 Beyond {place} {end}"),
            NodeFault::Session(fault) => return write!(f, "{fault}"),
            NodeFault::End(fault) => return write!(f, "{fault}"),
            NodeFault::Memory => "out of memory",
        })
    }
}

impl Error for NodeFault {}

impl From<AllocError> for NodeFault {
    ghost use Rattle.std.specs.Prelude.{◌≡◌};
    ghost use Rattle.role_node.specs.declared.faults.NodeFault.TheVariants.{Memory};

    ghost from_gives = { λ _ fault. fault ≡ Memory };

    fn from(_: AllocError) -> Self {
        NodeFault::Memory
    }
}

impl From<StreamFault> for NodeFault {
    ghost use Rattle.std.specs.Prelude.{◌≡◌};
    ghost use Rattle.role_node.specs.Faults.{of_stream_fault};

    ghost from_gives = { λ fault given. given ≡ of_stream_fault fault };

    fn from(fault: StreamFault) -> Self {
        match fault {
            StreamFault::Beyond { place, end } => NodeFault::Beyond { place, end },
            StreamFault::Memory => NodeFault::Memory,
        }
    }
}

impl From<SessionFault> for NodeFault {
    ghost use Rattle.std.specs.Prelude.{◌≡◌};
    ghost use Rattle.role_node.specs.Faults.{of_session_fault};

    ghost from_gives = { λ fault given. given ≡ of_session_fault fault };

    fn from(fault: SessionFault) -> Self {
        match fault {
            SessionFault::Memory => NodeFault::Memory,
            refusal => NodeFault::Session(refusal),
        }
    }
}

impl From<EndFault> for NodeFault {
    ghost use Rattle.std.specs.Prelude.{◌≡◌};
    ghost use Rattle.role_node.specs.declared.faults.NodeFault.TheVariants.{End};

    ghost from_gives = { λ fault given. given ≡ End fault };

    fn from(fault: EndFault) -> Self {
        NodeFault::End(fault)
    }
}

/// Why a question has no answer. Written as its code and its name.
#[derive(Clone, Copy, Debug, PartialEq, Eq)]
pub enum AskFault {
    /// No session with this id is open.
    NoSession,
    /// Memory is wanting.
    Memory,
}

impl fmt::Display for AskFault {
    ghost use Rattle.std.specs.Prelude.{Some};
    ghost use Rattle.role_node.specs.Faults.{ask_fault_text};

    ghost output = { λ fault. Some (ask_fault_text fault) };

    fn fmt<W: fmt::Write>(&self, f: &mut fmt::Formatter<W>) -> fmt::Result {
        f.write_str(match self {
            AskFault::NoSession => "N1 NoSession",
            AskFault::Memory => "out of memory",
        })
    }
}

impl Error for AskFault {}

impl From<AllocError> for AskFault {
    ghost use Rattle.std.specs.Prelude.{◌≡◌};
    ghost use Rattle.role_node.specs.declared.faults.AskFault.TheVariants.{Memory};

    ghost from_gives = { λ _ fault. fault ≡ Memory };

    fn from(_: AllocError) -> Self {
        AskFault::Memory
    }
}
