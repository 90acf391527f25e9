//! What a packet causes in a stream, why it is not taken, and what may be sent again.

use bracha_instance::Effect;
use link_frames::{Kind, Place};
use role_commands::Command;
use std::alloc::AllocError;
use std::error::Error;
use std::fmt;

/// What a packet caused.
#[derive(Clone, Copy, Debug, PartialEq, Eq)]
pub struct StreamStep {
    /// Whether its message counted.
    pub effect: Effect,
    /// What the node sends to all nodes now: an ECHO or a READY.
    pub broadcast: Option<(Kind, Command)>,
    /// What is delivered now at the packet's place.
    pub delivered: Option<Command>,
    /// The first place that is new in the owner's stream.
    pub from: u32,
    /// The end of the places that are new there, at most 64 after `from`. Where none is new it is `from`.
    pub to: u32,
}

/// Why a packet is not taken. Written as its code, its name and its numbers.
#[derive(Clone, Copy, Debug, PartialEq, Eq)]
pub enum StreamFault {
    /// The place is not below `end`, the reach of the owner's stream and 64.
    Beyond { place: Place, end: u32 },
    /// There is no memory for the packet's message.
    Memory,
}

impl fmt::Display for StreamFault {
    ghost use Rattle.std.specs.Prelude.{Some};
    ghost use Rattle.owner_streams.specs.Steps.{stream_fault_text};

    ghost output = { λ fault. Some (stream_fault_text fault) };

    fn fmt<W: fmt::Write>(&self, f: &mut fmt::Formatter<W>) -> fmt::Result {
        match self {
            StreamFault::Beyond { place, end } => write!(f, "S1 Beyond {place} {end}"),
            StreamFault::Memory => f.write_str("out of memory"),
        }
    }
}

impl Error for StreamFault {}

impl From<AllocError> for StreamFault {
    ghost use Rattle.std.specs.Prelude.{◌≡◌};
    ghost use Rattle.owner_streams.specs.declared.steps.StreamFault.TheVariants.{Memory};

    ghost from_gives = { λ _ e. e ≡ Memory };

    fn from(_: AllocError) -> Self {
        StreamFault::Memory
    }
}

/// What a node has sent to all at a place, and may send again.
#[derive(Clone, Copy, Debug, PartialEq, Eq)]
pub struct Again {
    /// The command of its ECHO.
    pub echo: Option<Command>,
    /// The command of its READY.
    pub ready: Option<Command>,
}
