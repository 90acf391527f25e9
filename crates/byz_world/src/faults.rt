//! Why a step or a question is refused.

use link_frames::LinkFault;
use role_node::{AskFault, NodeFault};
use std::alloc::AllocError;
use std::error::Error;
use std::fmt;

/// Why the world refuses. Written as its code and its name, a link's or a node's fault as that fault.
#[derive(Clone, Copy, Debug, PartialEq, Eq)]
pub enum WorldFault {
    /// More nodes lie than may.
    TooManyLiars,
    /// The node is no correct node, or a packet's sender or receiver is no node.
    NotCorrect,
    /// The pool has no packet of this number.
    NoSuchPacket,
    /// The packet is in the name of a correct node that has not sent it.
    NotSent,
    /// The pool has no room for one more message to all nodes.
    PoolFull,
    /// The bytes are no frame that the node opens.
    Link(LinkFault),
    /// The node refuses.
    Node(NodeFault),
    /// A session is to be listed that is not open.
    NoSession,
    /// Memory is wanting.
    Memory,
}

impl fmt::Display for WorldFault {
    ghost use Rattle.std.specs.Prelude.{Some};
    ghost use Rattle.byz_world.specs.Faults.{world_fault_text};

    ghost output = { λ fault. Some (world_fault_text fault) };

    fn fmt<W: fmt::Write>(&self, f: &mut fmt::Formatter<W>) -> fmt::Result {
        f.write_str(match self {
            WorldFault::TooManyLiars => "V1 TooManyLiars",
            WorldFault::NotCorrect => "V2 NotCorrect",
            WorldFault::NoSuchPacket => "V3 NoSuchPacket",
            WorldFault::NotSent => "V4 NotSent",
            WorldFault::PoolFull => "V5 PoolFull",
            WorldFault::Link(fault) => return write!(f, "{fault}"),
            WorldFault::Node(fault) => return write!(f, "{fault}"),
            WorldFault::NoSession => "N1 NoSession",
            WorldFault::Memory => "out of memory",
        })
    }
}

impl Error for WorldFault {}

impl From<AllocError> for WorldFault {
    ghost use Rattle.std.specs.Prelude.{◌≡◌};
    ghost use Rattle.byz_world.specs.declared.faults.WorldFault.TheVariants.{Memory};

    ghost from_gives = { λ _ fault. fault ≡ Memory };

    fn from(_: AllocError) -> Self {
        WorldFault::Memory
    }
}

impl From<LinkFault> for WorldFault {
    ghost use Rattle.std.specs.Prelude.{◌≡◌};
    ghost use Rattle.byz_world.specs.declared.faults.WorldFault.TheVariants.{Link};

    ghost from_gives = { λ fault given. given ≡ Link fault };

    fn from(fault: LinkFault) -> Self {
        WorldFault::Link(fault)
    }
}

impl From<NodeFault> for WorldFault {
    ghost use Rattle.std.specs.Prelude.{◌≡◌};
    ghost use Rattle.byz_world.specs.declared.faults.WorldFault.TheVariants.{Node};

    ghost from_gives = { λ fault given. given ≡ Node fault };

    fn from(fault: NodeFault) -> Self {
        WorldFault::Node(fault)
    }
}

impl From<AskFault> for WorldFault {
    ghost use Rattle.std.specs.Prelude.{◌≡◌};
    ghost use Rattle.byz_world.specs.Asking.{of_ask_fault};

    ghost from_gives = { λ fault given. given ≡ of_ask_fault fault };

    fn from(fault: AskFault) -> Self {
        match fault {
            AskFault::NoSession => WorldFault::NoSession,
            AskFault::Memory => WorldFault::Memory,
        }
    }
}
