//! Why a journal is not opened, begun or written.

ghost use Rattle.std.specs.Prelude.{◌≡◌};

use std::alloc::{AllocError, AllocFailed};
use std::error::Error;
use std::fmt;

/// Why a call of a journal did not do its work. The head is compared from its first byte on, and what differs first
/// names the fault; `Memory` comes last.
#[derive(Clone, Copy, Debug, PartialEq, Eq)]
pub enum JournalFault {
    /// The file has no whole head of a journal.
    NotAJournal,
    OtherVersion,
    OtherCluster,
    OtherNode,
    /// Another number of nodes, or of those that may lie.
    OtherSizes,
    OtherRoles,
    OtherLimit,
    /// The head is this one, and its seal is not under this key.
    OtherKey,
    /// The batch with this number is not as it was written.
    Damaged { batch: u64 },
    /// The file has over 512 MiB.
    Unopened,
    OtherKind,
    OtherGeneration,
    /// The head says that it has another length.
    OtherLength,
    /// What is to begin as a journal is neither empty nor all zeros.
    NotBlank,
    /// The file beside the journal is not empty.
    SecondFile,
    /// The file would have over 512 MiB.
    Full,
    /// A call of the disk has failed, or was not made since one had.
    Device,
    Memory,
}

impl fmt::Display for JournalFault {
    ghost use Rattle.std.specs.Prelude.{Some};
    ghost use Rattle.batch_journal.specs.Texts.{journal_fault_text};

    ghost output = { λ fault. Some (journal_fault_text fault) };

    fn fmt<W: fmt::Write>(&self, f: &mut fmt::Formatter<W>) -> fmt::Result {
        f.write_str(match self {
            JournalFault::NotAJournal => "D3 NotAJournal",
            JournalFault::OtherVersion => "D4 OtherVersion",
            JournalFault::OtherCluster => "D5 OtherCluster",
            JournalFault::OtherNode => "D6 OtherNode",
            JournalFault::OtherSizes => "D7 OtherSizes",
            JournalFault::OtherRoles => "D8 OtherRoles",
            JournalFault::OtherLimit => "D9 OtherLimit",
            JournalFault::OtherKey => "D10 OtherKey",
            JournalFault::Damaged { batch: _ } => "D11 Damaged",
            JournalFault::Unopened => "D13 Unopened",
            JournalFault::OtherKind => "D14 OtherKind",
            JournalFault::OtherGeneration => "D15 OtherGeneration",
            JournalFault::OtherLength => "D16 OtherLength",
            JournalFault::NotBlank => "D17 NotBlank",
            JournalFault::SecondFile => "D18 SecondFile",
            JournalFault::Full => "D19 Full",
            JournalFault::Device => "device",
            JournalFault::Memory => "out of memory",
        })
    }
}

impl Error for JournalFault {}

impl From<AllocError> for JournalFault {
    ghost use Rattle.std.specs.Prelude.{◌≡◌};
    ghost use Rattle.batch_journal.specs.declared.fault.JournalFault.TheVariants.{Memory};

    ghost from_gives = { λ _ fault. fault ≡ Memory };

    fn from(_: AllocError) -> Self {
        JournalFault::Memory
    }
}

impl<T: Drop> From<AllocFailed<T>> for JournalFault {
    ghost use Rattle.std.specs.Prelude.{◌≡◌};
    ghost use Rattle.batch_journal.specs.declared.fault.JournalFault.TheVariants.{Memory};

    ghost from_gives = { λ _ fault. fault ≡ Memory };

    fn from(_: AllocFailed<T>) -> Self {
        JournalFault::Memory
    }
}
