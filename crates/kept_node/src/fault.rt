//! Why a node is not restored.

use batch_journal::{Journal, JournalFault};
use sqlite_disk::{Disk, Files};
use std::error::Error;
use std::fmt;

/// Why a node is not restored from a journal. What was handed over is handed back.
#[derive(Drop)]
pub enum Unrestored<D: Disk> {
    /// The journal is not opened.
    Unopened {
        fault: JournalFault,
        files: Files<D>,
    },
    /// The digits behind so many events are no event, or the node does not record it.
    Illegal {
        place: u64,
        journal: Journal<D>,
    },
    /// Memory is wanting for the node's events.
    Memory {
        journal: Journal<D>,
    },
}

impl<D: Disk> fmt::Display for Unrestored<D> {
    ghost use Rattle.std.specs.Prelude.{Some};
    ghost use Rattle.kept_node.specs.Texts.{unrestored_text};

    ghost output = { λ fault. Some (unrestored_text fault) };

    fn fmt<W: fmt::Write>(&self, f: &mut fmt::Formatter<W>) -> fmt::Result {
        match self {
            Unrestored::Unopened { fault, .. } => write!(f, "{fault}"),
            Unrestored::Illegal { .. } => write!(f, "D12 Illegal"),
            Unrestored::Memory { .. } => write!(f, "out of memory"),
        }
    }
}

impl<D: Disk> fmt::Debug for Unrestored<D> {
    fn fmt<W: fmt::Write>(&self, f: &mut fmt::Formatter<W>) -> fmt::Result {
        match self {
            Unrestored::Unopened { .. } => write!(f, "Unopened"),
            Unrestored::Illegal { .. } => write!(f, "Illegal"),
            Unrestored::Memory { .. } => write!(f, "Memory"),
        }
    }
}

impl<D: Disk + Drop> Error for Unrestored<D> {}
