//! What a node answers to an operator's line.

use crate::decision::Decision;
use crate::fault::OperatorFault;
use crate::standing::NodeStanding;
use role_commands::{Command, Items};

/// The syncs of a journal since the program started. Times are in microseconds; without a sync the three are 0.
#[derive(Clone, Copy, Debug, PartialEq, Eq)]
pub struct SyncTimes {
    /// How many there were.
    pub syncs: u64,
    /// The time of the last.
    pub last: u64,
    /// The mean time, rounded down.
    pub mean: u64,
    /// The longest time.
    pub worst: u64,
}

/// How a node's journal stands.
#[derive(Clone, Copy, Debug, PartialEq, Eq)]
pub struct JournalStanding {
    /// Its syncs.
    pub times: SyncTimes,
    /// Whether no write and no sync of it has failed.
    pub sound: bool,
}

/// How a node's links with a peer stand. What is counted is counted since the program started.
#[derive(Clone, Copy, Debug, PartialEq, Eq)]
pub struct PeerStanding {
    /// The node's own connection to the peer stands.
    pub connected: bool,
    /// A connection stands on which a frame of the peer has opened.
    pub heard: bool,
    /// So many frames wait now to be written to it.
    pub waiting: u32,
    /// So many messages were sent to it alone, because it may lack them.
    pub again: u64,
    /// So many frames to it found no room or no memory to wait in.
    pub lost: u64,
    /// So many frames on its connections did not open, after the first that did.
    pub unopened: u64,
}

/// How a node stands, with its journal and its peers.
#[derive(Drop, Debug)]
pub struct Status {
    /// The node itself.
    pub node: NodeStanding,
    /// Its journal; none for a node in memory.
    pub journal: Option<JournalStanding>,
    /// One for each node by its index; none for the node itself.
    pub peers: Items<Option<PeerStanding>>,
    /// So many frames did not open on connections of nobody known, since the program started.
    pub unopened: u64,
}

/// What a node answers to an operator's line.
#[derive(Drop, Debug)]
pub enum OperatorAnswer {
    /// How the node stands.
    Status(Status),
    /// The command that was asked for, if the owner's stream reaches beyond its place.
    Command(Option<Command>),
    /// Open sessions, each with its user. `at` is how many events the node had recorded then.
    Sessions {
        at: u32,
        sessions: Items<(u64, u32)>,
    },
    /// A decision. `at` is how many events the node had recorded then.
    Decision {
        at: u32,
        decision: Decision,
    },
    /// A decision on each access about which was asked, in their order, all after so many events.
    Decisions {
        at: u32,
        decisions: Items<Decision>,
    },
    /// The line is no request.
    BadLine(OperatorFault),
}
