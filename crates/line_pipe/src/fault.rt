//! Why a pipe ends before its end.

ghost use Rattle.std.specs.Prelude.{◌≡◌};
ghost use Rattle.line_pipe.specs.Statuses.{pipe_status};

use cluster_text::fault::ClusterFault;
use link_frames::{AheadFault, DeviceFault};
use std::alloc::AllocError;
use thiserror::Error;

/// Why a pipe ended before its end.
#[derive(Debug, Drop, Error)]
pub enum PipeFault {
    /// The first line sets up no node; never for want of memory.
    #[error(transparent)]
    Cluster(ClusterFault),
    /// The reader or the writer failed, or there is no number for another line.
    #[error("device")]
    Device,
    /// There was no memory.
    #[error("out of memory")]
    Memory,
}

impl PipeFault {
    /// The exit status of the program: 3 at a text that is refused, 4 at a failed device, 5 for want of memory.
    pub fn status(&self) -> u8
        ensures { result ≡ pipe_status self.now }
    {
        match self {
            PipeFault::Cluster(fault) => fault.status(),
            PipeFault::Device => 4,
            PipeFault::Memory => 5,
        }
    }
}

impl From<AllocError> for PipeFault {
    ghost use Rattle.line_pipe.specs.declared.fault.PipeFault.TheVariants.{Memory};

    ghost from_gives = { λ _ e. e ≡ Memory };

    fn from(_e: AllocError) -> Self {
        PipeFault::Memory
    }
}

impl From<AheadFault> for PipeFault {
    ghost use Rattle.line_pipe.specs.inside.Steps.{of_ahead_fault};

    ghost from_gives = { λ fault e. e ≡ of_ahead_fault fault };

    fn from(fault: AheadFault) -> Self {
        match fault {
            AheadFault::Device => PipeFault::Device,
            AheadFault::Memory => PipeFault::Memory,
        }
    }
}

impl From<DeviceFault> for PipeFault {
    ghost use Rattle.line_pipe.specs.declared.fault.PipeFault.TheVariants.{Device};

    ghost from_gives = { λ _ e. e ≡ Device };

    fn from(_e: DeviceFault) -> Self {
        PipeFault::Device
    }
}
