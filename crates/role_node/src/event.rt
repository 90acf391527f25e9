//! What happens at a node, and what it answers.

ghost use Rattle.std.specs.Prelude.{◌≡◌};
ghost use Rattle.role_node.specs.Answers.{sent_by};

use link_frames::{Message, Packet};
use role_commands::Command;
use role_sessions::ClientEvent;

/// What happens at a node.
#[derive(Clone, Copy, Debug, PartialEq, Eq)]
pub enum Event {
    /// The node publishes a command in its own stream.
    Issue(Command),
    /// The node takes a packet from a link.
    Take(Packet),
    /// A client acts.
    Client(ClientEvent),
}

/// What a node answers to an event.
#[derive(Clone, Copy, Debug, PartialEq, Eq)]
pub enum Reply {
    /// The packet repeats a message that was taken before. It is not recorded.
    Idle,
    /// The command has its place: the node sends this SEND to all nodes.
    Issued(Message),
    /// The packet counted.
    Counted {
        /// What the node sends to all nodes now: an ECHO or a READY.
        send: Option<Message>,
        /// What is delivered now at the packet's place.
        delivered: Option<Command>,
        /// The first place that is new in the owner's stream.
        from: u32,
        /// The end of the places that are new there. Where none is new it is `from`.
        to: u32,
    },
    /// A session is open, with this id.
    Session(u64),
    /// The client's act is done.
    Done,
}

impl Reply {
    /// The message that the node sends to all now.
    #[inline(always)]
    pub fn message(&self) -> Option<Message>
        ensures { result ≡ sent_by self.now }
    {
        match self {
            Reply::Issued(message) => Some(*message),
            Reply::Counted { send, .. } => *send,
            Reply::Idle | Reply::Session(_) | Reply::Done => None,
        }
    }
}

/// What a node has sent to all at a place of an owner's stream, and may send again.
#[derive(Clone, Copy, Debug, PartialEq, Eq)]
pub struct NodeAgain {
    /// The command of its own SEND.
    pub send: Option<Command>,
    /// The command of its ECHO.
    pub echo: Option<Command>,
    /// The command of its READY.
    pub ready: Option<Command>,
}
