//! Whose messages of each kind were taken in an instance.

ghost use Rattle.std.specs.Prelude.{◌≡◌};
ghost use Rattle.bracha_instance.specs.inside.FirstVotes.{none_noted, is_noted, noted, VotersFit};

use crate::instance::keep_first;
use link_frames::Kind;
use quorum_sizes::{NodeName, NodeSet};
use role_commands::Command;

/// The command of the first SEND, which this node echoes, and the nodes whose ECHO and whose READY were taken.
#[derive(Clone, Copy)]
pub struct FirstVotes {
    pub echoed: Option<Command>,
    pub echoers: NodeSet,
    pub readiers: NodeSet,
}

impl FirstVotes {
    /// Nothing was taken.
    pub fn new() -> Self
        ensures { result ≡ none_noted }
    {
        FirstVotes {
            echoed: None,
            echoers: NodeSet::new(),
            readiers: NodeSet::new(),
        }
    }

    /// Whether that node's message of that kind was taken.
    #[inline(always)]
    pub fn voted(&self, kind: Kind, from: NodeName) -> bool
        ensures { result ≡ is_noted self.now kind from }
    {
        match kind {
            Kind::Send => self.echoed.is_some(),
            Kind::Echo => self.echoers.contains(from),
            Kind::Ready => self.readiers.contains(from),
        }
    }

    /// Notes a node's message of that kind. Of SENDs only the first is echoed.
    #[inline(always)]
    pub fn note(&mut self, kind: Kind, from: NodeName, command: Command)
        ensures votes { self.new ≡ noted self.old kind from command }
        ensures fit { VotersFit self.old → VotersFit self.new }
    {
        match kind {
            Kind::Send => keep_first(&mut self.echoed, true, command),
            Kind::Echo => {
                self.echoers.insert(from);
            }
            Kind::Ready => {
                self.readiers.insert(from);
            }
        }
    }
}
