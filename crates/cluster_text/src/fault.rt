//! Why a cluster text or its file sets up no node.

ghost use Rattle.std.specs.Prelude.{◌≡◌};
ghost use Rattle.cluster_text.specs.Statuses.{cluster_status, file_status};

use client_lines::Member;
use link_frames::DeviceFault;
use quorum_sizes::SizeFault;
use role_commands::TableFault;
use std::alloc::AllocError;
use thiserror::Error;

/// Why a text sets up no node. Written as its code and its name, and the member that it is about.
#[derive(Debug, Drop, Error)]
pub enum ClusterFault {
    /// There is no text, it has more than 65,536 bytes, or it is not JSON.
    #[error("U1 NotJson")]
    NotJson,
    /// It is not an object.
    #[error("U2 NotObject")]
    NotObject,
    /// It does not have this member.
    #[error("U3 Missing {0}")]
    Missing(Member),
    /// The member is not of its shape, or not of its range.
    #[error("U4 OutOfRange {0}")]
    OutOfRange(Member),
    /// There are no such sizes.
    #[error(transparent)]
    Sizes(SizeFault),
    /// A role is refused; never for want of memory.
    #[error(transparent)]
    Table(TableFault),
    /// There was no memory.
    #[error("out of memory")]
    Memory,
}

impl ClusterFault {
    /// The exit status of the program: 3 at a text that is refused, 5 for want of memory.
    pub fn status(&self) -> u8
        ensures { result ≡ cluster_status self.now }
    {
        match self {
            ClusterFault::NotJson
            | ClusterFault::NotObject
            | ClusterFault::Missing(_)
            | ClusterFault::OutOfRange(_)
            | ClusterFault::Sizes(_)
            | ClusterFault::Table(_) => 3,
            ClusterFault::Memory => 5,
        }
    }
}

impl From<AllocError> for ClusterFault {
    ghost use Rattle.cluster_text.specs.declared.fault.ClusterFault.TheVariants.{Memory};

    ghost from_gives = { λ _ e. e ≡ Memory };

    fn from(_e: AllocError) -> Self {
        ClusterFault::Memory
    }
}

impl From<SizeFault> for ClusterFault {
    ghost use Rattle.cluster_text.specs.declared.fault.ClusterFault.TheVariants.{Sizes};

    ghost from_gives = { λ fault e. e ≡ Sizes fault };

    fn from(fault: SizeFault) -> Self {
        ClusterFault::Sizes(fault)
    }
}

/// Why a cluster file sets up no node.
#[derive(Debug, Drop, Error)]
pub enum FileFault {
    /// The file could not be read.
    #[error("cluster file")]
    Unread,
    /// Its text sets up no node; never for want of memory.
    #[error(transparent)]
    Cluster(ClusterFault),
    /// There was no memory.
    #[error("out of memory")]
    Memory,
}

impl FileFault {
    /// The exit status of the program: 3 at a file that is not read or refused, 5 for want of memory.
    pub fn status(&self) -> u8
        ensures { result ≡ file_status self.now }
    {
        match self {
            FileFault::Unread => 3,
            FileFault::Cluster(fault) => fault.status(),
            FileFault::Memory => 5,
        }
    }
}

impl From<AllocError> for FileFault {
    ghost use Rattle.cluster_text.specs.declared.fault.FileFault.TheVariants.{Memory};

    ghost from_gives = { λ _ e. e ≡ Memory };

    fn from(_e: AllocError) -> Self {
        FileFault::Memory
    }
}

impl From<DeviceFault> for FileFault {
    ghost use Rattle.cluster_text.specs.declared.fault.FileFault.TheVariants.{Unread};

    ghost from_gives = { λ _ e. e ≡ Unread };

    fn from(_e: DeviceFault) -> Self {
        FileFault::Unread
    }
}
