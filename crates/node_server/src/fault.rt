//! Why a server ends.

use std::alloc::AllocError;

/// Why a server ended before a client stopped it.
#[derive(Clone, Copy, Debug, PartialEq, Eq)]
pub enum ServerFault {
    /// A listener could not be made or has failed, or what was recorded could not be kept.
    Device,
    /// There was no memory.
    Memory,
}

impl From<AllocError> for ServerFault {
    ghost use Rattle.std.specs.Prelude.{◌≡◌};
    ghost use Rattle.node_server.specs.declared.fault.ServerFault.TheVariants.{Memory};

    ghost from_gives = { λ _ fault. fault ≡ Memory };

    fn from(_: AllocError) -> Self {
        ServerFault::Memory
    }
}
