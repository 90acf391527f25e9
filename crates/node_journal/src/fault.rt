//! Why a journal is refused.

ghost use Rattle.std.specs.Prelude.{◌≡◌};
ghost use Rattle.node_journal.specs.Statuses.{kept_status};

use batch_journal::JournalFault;
use std::alloc::AllocError;
use thiserror::Error;

/// Why a node's journal is not begun, opened or looked at. Written as its code and its name.
#[derive(Debug, Drop, Error)]
pub enum KeptFault {
    /// There is no such file.
    #[error("D1 Absent")]
    Absent,
    /// Another process has it.
    #[error("D2 InUse")]
    InUse,
    /// It has an event that is none, or that the node does not record.
    #[error("D12 Illegal")]
    Illegal,
    /// The file can't be opened.
    #[error("D13 Unopened")]
    Unopened,
    /// What is wrong with it; want of memory too.
    #[error(transparent)]
    Journal(JournalFault),
}

impl KeptFault {
    /// The exit status of the program: 6 at a journal that is refused, 4 where another process has it or a call of the
    /// disk has failed, 5 for want of memory.
    pub fn status(&self) -> u8
        ensures { result ≡ kept_status self.now }
    {
        match self {
            KeptFault::InUse | KeptFault::Journal(JournalFault::Device) => 4,
            KeptFault::Journal(JournalFault::Memory) => 5,
            KeptFault::Absent | KeptFault::Illegal | KeptFault::Unopened | KeptFault::Journal(_) =>
                6,
        }
    }
}

impl From<JournalFault> for KeptFault {
    ghost use Rattle.std.specs.Prelude.{◌≡◌};
    ghost use Rattle.node_journal.specs.declared.fault.KeptFault.TheVariants.{Journal};

    ghost from_gives = { λ fault kept. kept ≡ Journal fault };

    fn from(fault: JournalFault) -> Self {
        KeptFault::Journal(fault)
    }
}

impl From<AllocError> for KeptFault {
    ghost use Rattle.std.specs.Prelude.{◌≡◌};
    ghost use Rattle.batch_journal.specs.declared.fault.JournalFault.TheVariants.{Memory};
    ghost use Rattle.node_journal.specs.declared.fault.KeptFault.TheVariants.{Journal};

    ghost from_gives = { λ _ kept. kept ≡ Journal Memory };

    fn from(_e: AllocError) -> Self {
        KeptFault::Journal(JournalFault::Memory)
    }
}
