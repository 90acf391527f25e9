//! Why the program ends before its end.

ghost use Rattle.std.specs.Prelude.{◌≡◌};
ghost use Rattle.role_daemon.specs.Statuses.{words_status, serve_status, daemon_status, is_said};

pub use cluster_text::fault::{ClusterFault, FileFault};
pub use line_pipe::fault::PipeFault;
use node_server::ServerFault;
use std::alloc::AllocError;
use thiserror::Error;

/// Why the words are not taken.
#[derive(Debug, Drop, Error)]
pub enum WordsFault {
    /// The program has no such words.
    #[error("words")]
    Refused,
    /// There was no memory.
    #[error("out of memory")]
    Memory,
}

impl WordsFault {
    /// The exit status of the program: 2 at words that are refused, 5 for want of memory.
    pub fn status(&self) -> u8
        ensures { result ≡ words_status self.now }
    {
        match self {
            WordsFault::Refused => 2,
            WordsFault::Memory => 5,
        }
    }
}

impl From<AllocError> for WordsFault {
    ghost use Rattle.role_daemon.specs.declared.fault.WordsFault.TheVariants.{Memory};

    ghost from_gives = { λ _ e. e ≡ Memory };

    fn from(_e: AllocError) -> Self {
        WordsFault::Memory
    }
}

/// Why a node does not serve, or serves no longer.
#[derive(Debug, Drop, Error)]
pub enum ServeFault {
    /// A listener could not be made, or has failed.
    #[error("device")]
    Device,
    /// There was no memory.
    #[error("out of memory")]
    Memory,
}

impl ServeFault {
    /// The exit status of the program: 4 at a failed listener, 5 for want of memory.
    pub fn status(&self) -> u8
        ensures { result ≡ serve_status self.now }
    {
        match self {
            ServeFault::Device => 4,
            ServeFault::Memory => 5,
        }
    }
}

impl From<AllocError> for ServeFault {
    ghost use Rattle.role_daemon.specs.declared.fault.ServeFault.TheVariants.{Memory};

    ghost from_gives = { λ _ e. e ≡ Memory };

    fn from(_e: AllocError) -> Self {
        ServeFault::Memory
    }
}

impl From<ServerFault> for ServeFault {
    fn from(fault: ServerFault) -> Self {
        match fault {
            ServerFault::Device => ServeFault::Device,
            ServerFault::Memory => ServeFault::Memory,
        }
    }
}

/// Why the program ends with another status than 0.
#[derive(Debug, Drop, Error)]
pub enum DaemonFault {
    /// The words are not taken.
    #[error(transparent)]
    Words(WordsFault),
    /// The cluster file sets up no node.
    #[error(transparent)]
    File(FileFault),
    /// The pipe ended before its end.
    #[error(transparent)]
    Pipe(PipeFault),
    /// The node does not serve, or serves no longer.
    #[error(transparent)]
    Serve(ServeFault),
}

impl DaemonFault {
    /// The exit status of the program.
    pub fn status(&self) -> u8
        ensures { result ≡ daemon_status self.now }
    {
        match self {
            DaemonFault::Words(fault) => fault.status(),
            DaemonFault::File(fault) => fault.status(),
            DaemonFault::Pipe(fault) => fault.status(),
            DaemonFault::Serve(fault) => fault.status(),
        }
    }

    /// Whether it is about what the program was given: its words, or a cluster text or its file.
    pub fn is_said(&self) -> bool
        ensures { result ≡ is_said self.now }
    {
        match self {
            DaemonFault::Words(WordsFault::Refused)
            | DaemonFault::File(FileFault::Unread | FileFault::Cluster(_))
            | DaemonFault::Pipe(PipeFault::Cluster(_)) => true,
            DaemonFault::Words(WordsFault::Memory)
            | DaemonFault::File(FileFault::Memory)
            | DaemonFault::Pipe(PipeFault::Device | PipeFault::Memory)
            | DaemonFault::Serve(_) => false,
        }
    }
}
