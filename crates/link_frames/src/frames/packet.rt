//! Messages of the broadcast, and packets that carry them from node to node.

ghost use Rattle.std.specs.Prelude.{◌≡◌, ◌≢◌, ◌<◌, ◌≤◌, ◌⊎◌, IfSome, IfNone};
ghost use Rattle.link_frames.specs.frames.Packets.{IsPacket, place_count, packet_of, message_of, is_relayed};
ghost use Rattle.link_frames.specs.frames.Packets.{packet_due};

use crate::frames::kind::Kind;
use quorum_sizes::NodeName;
use role_commands::Command;
use std::marker::Model;

/// A place in an owner's stream of commands.
pub type Place = u32;

/// The number of places of a stream: its places are the numbers below.
pub const PLACES: u32 = 1_048_576;

/// A message of the broadcast: a command at a place of its owner's stream.
#[derive(Clone, Copy, Debug, PartialEq, Eq)]
pub struct Message {
    /// What is said of the command.
    pub kind: Kind,
    /// The node in whose stream the command stands.
    pub owner: NodeName,
    /// Where it stands there.
    pub place: Place,
    /// The command.
    pub command: Command,
}

/// A message from one node to another. A SEND comes from its owner, and the place is below [`PLACES`].
#[derive(Clone, Copy, Debug, PartialEq, Eq)]
pub struct Packet {
    from: NodeName,
    to: NodeName,
    kind: Kind,
    owner: NodeName,
    place: Place,
    command: Command,
}

impl Model for Packet {
    ghost use Rattle.link_frames.specs.frames.Packets.{PacketValue, IsPacket};

    ghost Value = { PacketValue };

    ghost view = { λ a. record {
      from = a.from;
      to = a.to;
      kind = a.kind;
      owner = a.owner;
      place = a.place;
      command = a.command;
    } };

    ghost invariant = { λ a. IsPacket (record {
      from = a.from;
      to = a.to;
      kind = a.kind;
      owner = a.owner;
      place = a.place;
      command = a.command;
    }) };

    ghost inverse = { λ p. record {
      from = p.from;
      to = p.to;
      kind = p.kind;
      owner = p.owner;
      place = p.place;
      command = p.command;
    } };
}

impl Packet {
    /// The packet of a message, or `None` where the message is a SEND of which `from` is not the owner, or
    /// its place is not below [`PLACES`].
    #[inline(always)]
    pub fn new(from: NodeName, to: NodeName, message: Message) -> Option<Packet>
        ensures value { result ≡ packet_due from to message }
        ensures found { IfSome result (λ p. (p ≡ packet_of from to message) × IsPacket p) }
        ensures none { IfNone result
            (((message.kind ≡ Kind.Send) × (from ≢ message.owner)) ⊎ (place_count ≤ message.place)) }
    {
        if is_relayed(from, &message) || message.place >= PLACES {
            return None;
        }
        let Message {
            kind,
            owner,
            place,
            command,
        } = message;
        Some(Packet {
            from,
            to,
            kind,
            owner,
            place,
            command,
        })
    }

    /// The node that sends the packet.
    pub fn from(&self) -> NodeName
        ensures { result ≡ self.now.from }
    {
        self.from
    }

    /// The node that it is sent to.
    pub fn to(&self) -> NodeName
        ensures { result ≡ self.now.to }
    {
        self.to
    }

    /// The kind of its message.
    pub fn kind(&self) -> Kind
        ensures { result ≡ self.now.kind }
    {
        self.kind
    }

    /// The owner of its message.
    pub fn owner(&self) -> NodeName
        ensures { result ≡ self.now.owner }
    {
        self.owner
    }

    /// The place of its message, one of a stream.
    pub fn place(&self) -> Place
        ensures value { result ≡ self.now.place }
        ensures kept { self.now.place < place_count }
    {
        self.place
    }

    /// The command of its message.
    pub fn command(&self) -> Command
        ensures { result ≡ self.now.command }
    {
        self.command
    }

    /// Its message. What the packet keeps is known of it: a SEND comes from its owner, the place is one of a
    /// stream, and the command's numbers are within their widths.
    #[inline(always)]
    pub fn message(&self) -> Message
        ensures value { result ≡ message_of self.now }
        ensures kept { IsPacket self.now }
    {
        Message {
            kind: self.kind,
            owner: self.owner,
            place: self.place,
            command: self.command,
        }
    }
}

/// Whether a message is a SEND that comes from another than its owner.
#[inline(always)]
pub(crate) fn is_relayed(from: NodeName, message: &Message) -> bool
    ensures { result ≡ is_relayed from message.now }
{
    matches!(message.kind, Kind::Send) && from.index() != message.owner.index()
}
