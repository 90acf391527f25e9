//! Through which doors clients come, as the words say.

ghost use Rattle.std.specs.Prelude.{◌≡◌, option_map, string_len};
ghost use Rattle.tundelca.specs.Sockets.{entries_fault};

/// The most bytes of a socket's path: what the system's address of a socket holds.
const MOST_PATH: usize = 107;

/// Through which doors clients come.
#[derive(Drop, Debug)]
pub struct Entries {
    /// Whether the client port of the cluster file is open.
    pub port: bool,
    /// The path of the socket, where there is one.
    pub socket: Option<String>,
}

/// Why no node is served at such doors.
#[derive(Clone, Copy, Debug, PartialEq, Eq)]
pub enum EntriesFault {
    /// There is none.
    NoDoor,
    /// No socket can have the path: it has no byte, or more than 107.
    Path,
}

impl Entries {
    /// Why no node is served at these doors; `None` where one is.
    pub fn fault(&self) -> Option<EntriesFault>
        ensures { result ≡ entries_fault self.now.port (option_map string_len self.now.socket) }
    {
        match &self.socket {
            None if self.port => None,
            None => Some(EntriesFault::NoDoor),
            Some(path) if path.is_empty() || path.len() > MOST_PATH => Some(EntriesFault::Path),
            Some(_) => None,
        }
    }
}
