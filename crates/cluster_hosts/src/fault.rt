//! Why a cluster file sets up no node.

ghost use Rattle.std.specs.Prelude.{◌≡◌};
ghost use Rattle.cluster_hosts.specs.Statuses.{given_status};

use crate::reserved::Reserved;
use cluster_text::fault::ClusterFault;
use link_frames::DeviceFault;
use std::alloc::AllocError;
use thiserror::Error;

/// Why a cluster file sets up no node. Written as its code and its name, and the member that it is about.
#[derive(Debug, Drop, Error)]
pub enum GivenFault {
    /// The file could not be read.
    #[error("cluster file")]
    Unread,
    /// It says something that is kept for later.
    #[error("U5 Reserved {0}")]
    Reserved(Reserved),
    /// Its text sets up no node; never for want of memory.
    #[error(transparent)]
    Cluster(ClusterFault),
    /// Its hosts are no list of an address for each node.
    #[error("U4 OutOfRange hosts")]
    Hosts,
    /// There was no memory.
    #[error("out of memory")]
    Memory,
}

impl GivenFault {
    /// The exit status of the program: 3 at a file that is not read or refused, 5 for want of memory.
    pub fn status(&self) -> u8
        ensures { result ≡ given_status self.now }
    {
        match self {
            GivenFault::Unread | GivenFault::Reserved(_) | GivenFault::Hosts => 3,
            GivenFault::Cluster(fault) => fault.status(),
            GivenFault::Memory => 5,
        }
    }
}

impl From<AllocError> for GivenFault {
    ghost use Rattle.cluster_hosts.specs.declared.fault.GivenFault.TheVariants.{Memory};

    ghost from_gives = { λ _ e. e ≡ Memory };

    fn from(_e: AllocError) -> Self {
        GivenFault::Memory
    }
}

impl From<DeviceFault> for GivenFault {
    ghost use Rattle.cluster_hosts.specs.declared.fault.GivenFault.TheVariants.{Unread};

    ghost from_gives = { λ _ e. e ≡ Unread };

    fn from(_e: DeviceFault) -> Self {
        GivenFault::Unread
    }
}
