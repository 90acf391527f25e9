//! Why a script ended before its end.

ghost use Rattle.std.specs.Prelude.{◌≡◌};
ghost use Rattle.lab_scripts.specs.Statuses.{status_of};

use link_frames::{AheadFault, DeviceFault};
use std::alloc::AllocError;
use thiserror::Error;

/// Why a script ended before its end.
#[derive(Debug, Drop, Error)]
pub enum ScriptFault {
    /// The line of this number, from 1, is bad.
    #[error("bad script, line {line}")]
    BadScript { line: u64 },
    /// The reader or the writer has failed, or there is no number for another line.
    #[error("device")]
    Device,
    /// There was no memory.
    #[error("out of memory")]
    Memory,
}

impl ScriptFault {
    /// The exit status of the program: 3 at a bad script, 4 at a failed device, 5 for want of memory.
    pub fn status(&self) -> u8
        ensures { result ≡ status_of self.now }
    {
        match self {
            ScriptFault::BadScript { .. } => 3,
            ScriptFault::Device => 4,
            ScriptFault::Memory => 5,
        }
    }
}

impl From<AllocError> for ScriptFault {
    ghost use Rattle.lab_scripts.specs.declared.fault.ScriptFault.TheVariants.{Memory};

    ghost from_gives = { λ _ e. e ≡ Memory };

    fn from(_e: AllocError) -> Self {
        ScriptFault::Memory
    }
}

impl From<DeviceFault> for ScriptFault {
    ghost use Rattle.lab_scripts.specs.declared.fault.ScriptFault.TheVariants.{Device};

    ghost from_gives = { λ _ e. e ≡ Device };

    fn from(_e: DeviceFault) -> Self {
        ScriptFault::Device
    }
}

impl From<AheadFault> for ScriptFault {
    ghost use Rattle.lab_scripts.specs.Statuses.{of_ahead_fault};

    ghost from_gives = { λ fault e. e ≡ of_ahead_fault fault };

    fn from(fault: AheadFault) -> Self {
        match fault {
            AheadFault::Device => ScriptFault::Device,
            AheadFault::Memory => ScriptFault::Memory,
        }
    }
}
