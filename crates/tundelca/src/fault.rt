//! Why the program ends with another status than 0.

ghost use Rattle.std.specs.Prelude.{◌≡◌};
ghost use Rattle.tundelca.specs.Statuses.{words_status, status};

use crate::socket::SocketFault;
use cluster_hosts::GivenFault;
use node_journal::KeptFault;
use node_server::ServerFault;
use std::alloc::AllocError;
use thiserror::Error;

/// Why the words are not taken.
#[derive(Debug, Drop, Error)]
pub enum WordsFault {
    /// The program has no such words; with what is wrong with them.
    #[error("words\n{0}")]
    Refused(String),
    /// There was no memory.
    #[error("out of memory")]
    Memory,
}

impl WordsFault {
    /// The exit status of the program: 2 at words that are refused, 5 for want of memory.
    pub fn status(&self) -> u8
        ensures { result ≡ words_status self.now }
    {
        match self {
            WordsFault::Refused(_) => 2,
            WordsFault::Memory => 5,
        }
    }
}

impl From<AllocError> for WordsFault {
    fn from(_e: AllocError) -> Self {
        WordsFault::Memory
    }
}

/// Why the program ends with another status than 0.
#[derive(Debug, Drop, Error)]
pub enum Fault {
    /// The words are not taken.
    #[error(transparent)]
    Words(WordsFault),
    /// The cluster file sets up no node.
    #[error(transparent)]
    Given(GivenFault),
    /// The journal is not begun, opened or looked at.
    #[error(transparent)]
    Kept(KeptFault),
    /// No socket is made at this path.
    #[error("{0}: {1}")]
    Socket(String, SocketFault),
    /// A listener could not be made or has failed, a call of the disk has failed, or what is to be said can't be
    /// written.
    #[error("device")]
    Device,
    /// There was no memory for it.
    #[error("out of memory")]
    Memory,
}

impl Fault {
    /// The exit status of the program.
    pub fn status(&self) -> u8
        ensures { result ≡ status self.now }
    {
        match self {
            Fault::Words(fault) => fault.status(),
            Fault::Given(fault) => fault.status(),
            Fault::Kept(fault) => fault.status(),
            Fault::Socket(_, _) => 4,
            Fault::Device => 4,
            Fault::Memory => 5,
        }
    }
}

impl From<AllocError> for Fault {
    fn from(_e: AllocError) -> Self {
        Fault::Memory
    }
}

impl From<WordsFault> for Fault {
    fn from(fault: WordsFault) -> Self {
        Fault::Words(fault)
    }
}

impl From<GivenFault> for Fault {
    fn from(fault: GivenFault) -> Self {
        Fault::Given(fault)
    }
}

impl From<KeptFault> for Fault {
    fn from(fault: KeptFault) -> Self {
        Fault::Kept(fault)
    }
}

impl From<ServerFault> for Fault {
    fn from(fault: ServerFault) -> Self {
        match fault {
            ServerFault::Device => Fault::Device,
            ServerFault::Memory => Fault::Memory,
        }
    }
}
