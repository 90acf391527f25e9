//! The entries of a history, kept small.

ghost use Rattle.std.specs.Prelude.{◌≡◌, ◌≤◌, ◌+◌, ◌^◌, ◌<◌, option_map};
ghost use Rattle.link_frames.specs.frames.Packets.{IsSound};
ghost use Rattle.owner_streams.specs.Places.{window};
ghost use Rattle.role_sessions.specs.declared.event.ClientEvent.{ClientEvent};
ghost use Rattle.role_node.specs.Answers.{counted_reply};
ghost use Rattle.role_node.specs.inside.Entries.{IsOwn, packed_with, packet_in, packet_with, reply_with};
ghost use Rattle.role_node.specs.inside.Entries.{sent_in, sent_message, sent_kind};
ghost use Rattle.role_node.specs.declared.event.Event.{Event};
ghost use Rattle.role_node.specs.declared.event.Event.TheVariants.{Client};
ghost use Rattle.role_node.specs.declared.event.Reply.{Reply};

use crate::event::{Event, Reply};
use link_frames::{Kind, Message, Packet, Place};
use owner_streams::StreamStep;
use quorum_sizes::NodeName;
use role_commands::Command;
use role_sessions::ClientEvent;
use std::marker::Model;

/// What is kept of a counted packet and of its reply beside the places and the command. What was sent and delivered is
/// the packet's command.
#[derive(Clone, Copy)]
struct Head {
    from: NodeName,
    to: NodeName,
    owner: NodeName,
    kind: Kind,
    grown: u8,
    send: SentKind,
    delivered: bool,
}

/// The kind of what was sent, if anything: an `Option<Kind>` in one byte.
#[derive(Clone, Copy)]
enum SentKind {
    Nothing,
    Send,
    Echo,
    Ready,
}

/// The first place that was new in the stream.
type Reach = u32;

type User = u32;

type Role = u16;

type Operation = u16;

type Object = u32;

/// What is kept of an event and its reply: of the reply only what the event doesn't tell.
///
/// A packet's command stands in it by its parts, so that an entry has 24 bytes and not 32.
#[derive(Clone, Copy)]
enum PackedEntry {
    /// A packet of this command, and what it caused.
    Assign(Head, Place, Reach, Role, User),
    Deassign(Head, Place, Reach, Role, User),
    Grant(Head, Place, Reach, Role, Operation, Object),
    Revoke(Head, Place, Reach, Role, Operation, Object),
    Clear(Head, Place, Reach, Role),
    /// The SEND of a command that the node published.
    Issued(Message),
    /// A session that opened, with its id.
    Opened { user: u32, session: u64 },
    /// What else a client did.
    Activated { role: u16, user: u32, session: u64 },
    Dropped { role: u16, user: u32, session: u64 },
    Closed { user: u32, session: u64 },
}

/// An event that a node recorded, and its reply.
///
/// Contracts see both. A history has millions of these, so each keeps of the reply only what the event doesn't tell.
#[derive(Clone, Copy)]
pub struct Entry {
    packed: PackedEntry,
}

const _: () = prove!(size_of::<Entry>() == 24);

impl Model for Entry {
    ghost use Rattle.role_node.specs.Answers.{EntryValue};
    ghost use Rattle.role_node.specs.inside.Entries.{entry_code, packed_value, IsPacked, packed_of, packed_of-value};

    ghost Value = { EntryValue };

    ghost coded = { entry_code };

    ghost view = { λ a. packed_value a.packed };

    ghost invariant = { λ a. IsPacked a.packed };

    ghost inverse = { λ e. record { packed = packed_of e.event e.reply } };

    ghost inverse_ok = { λ a h i. record { packed = packed_of-value a.packed i } };
}

impl Entry {
    /// The entry of a command that the node published as this SEND.
    pub(crate) fn issued(send: Message) -> Self
        ensures { result ≡ record { event = Event.Issue send.command; reply = Reply.Issued send } }
    {
        Entry {
            packed: PackedEntry::Issued(send),
        }
    }

    /// The entry of a packet that counts, from what it caused.
    #[inline(always)]
    pub(crate) fn taken(packet: &Packet, step: &StreamStep) -> Self
        requires own { IsOwn packet.now.command step.now }
        requires onward { step.now.from ≤ step.now.to }
        requires few { step.now.to ≤ step.now.from + window }
        ensures { result ≡ record { event = Event.Take packet.now; reply = counted_reply packet.now step.now } }
    {
        let message = packet.message();
        let head = Head {
            from: packet.from(),
            to: packet.to(),
            owner: message.owner,
            kind: message.kind,
            grown: (step.to - step.from) as u8,
            send: SentKind::new(&step.broadcast),
            delivered: step.delivered.is_some(),
        };
        Entry {
            packed: head.with(message.place, step.from, message.command),
        }
    }

    /// The entry of a session that opened, with its id.
    pub(crate) fn opened(user: u32, session: u64) -> Self
        ensures { result ≡ record { event = Client (ClientEvent.Open user); reply = Reply.Session session } }
    {
        Entry {
            packed: PackedEntry::Opened { user, session },
        }
    }

    /// The entry of a role that became active in a session.
    pub(crate) fn activated(session: u64, user: u32, role: u16) -> Self
        ensures { result ≡ record { event = Client (ClientEvent.Activate session user role); reply = Reply.Done } }
    {
        Entry {
            packed: PackedEntry::Activated {
                role,
                user,
                session,
            },
        }
    }

    /// The entry of a role that is no longer active in a session.
    pub(crate) fn dropped(session: u64, user: u32, role: u16) -> Self
        ensures { result ≡ record { event = Client (ClientEvent.DropRole session user role); reply = Reply.Done } }
    {
        Entry {
            packed: PackedEntry::Dropped {
                role,
                user,
                session,
            },
        }
    }

    /// The entry of a session that ended.
    pub(crate) fn closed(session: u64, user: u32) -> Self
        ensures { result ≡ record { event = Client (ClientEvent.Close session user); reply = Reply.Done } }
    {
        Entry {
            packed: PackedEntry::Closed { user, session },
        }
    }

    /// The event.
    pub fn event(&self) -> Event
        ensures { result ≡ self.now.event }
    {
        if let Some((head, place, _, command)) = self.packed.packet() {
            return head.event(place, command);
        }
        match self.packed {
            PackedEntry::Issued(send) => Event::Issue(send.command),
            PackedEntry::Opened { user, .. } => Event::Client(ClientEvent::Open { user }),
            PackedEntry::Activated {
                role,
                user,
                session,
            } => Event::Client(ClientEvent::Activate {
                session,
                user,
                role,
            }),
            PackedEntry::Dropped {
                role,
                user,
                session,
            } => Event::Client(ClientEvent::DropRole {
                session,
                user,
                role,
            }),
            PackedEntry::Closed { user, session } => Event::Client(ClientEvent::Close {
                session,
                user,
            }),
            _ => unreachable!(),
        }
    }

    /// The reply.
    #[inline(always)]
    pub fn reply(&self) -> Reply
        ensures { result ≡ self.now.reply }
    {
        if let Some((head, place, reach, command)) = self.packed.packet() {
            return head.reply(place, reach, command);
        }
        match self.packed {
            PackedEntry::Issued(send) => Reply::Issued(send),
            PackedEntry::Opened { session, .. } => Reply::Session(session),
            _ => Reply::Done,
        }
    }
}

impl PackedEntry {
    /// What is kept of a packet: its head, its place, the first place that was new, and its command.
    #[inline(always)]
    fn packet(self) -> Option<(Head, Place, Reach, Command)>
        ensures { result ≡ packet_in self }
    {
        let (head, place, reach, command) = match self {
            PackedEntry::Assign(head, place, reach, role, user) => {
                (head, place, reach, Command::Assign { user, role })
            }
            PackedEntry::Deassign(head, place, reach, role, user) => {
                (head, place, reach, Command::Deassign { user, role })
            }
            PackedEntry::Grant(head, place, reach, role, operation, object) => {
                let command = Command::Grant {
                    role,
                    operation,
                    object,
                };
                (head, place, reach, command)
            }
            PackedEntry::Revoke(head, place, reach, role, operation, object) => {
                let command = Command::Revoke {
                    role,
                    operation,
                    object,
                };
                (head, place, reach, command)
            }
            PackedEntry::Clear(head, place, reach, role) => (
                head,
                place,
                reach,
                Command::Clear { role },
            ),
            _ => return None,
        };
        Some((head, place, reach, command))
    }
}

impl Head {
    /// What is kept of a packet at this place, of this command, with the first place that was new.
    #[inline(always)]
    fn with(self, place: Place, reach: Reach, command: Command) -> PackedEntry
        ensures { result ≡ packed_with self place reach command }
    {
        match command {
            Command::Assign { user, role } => PackedEntry::Assign(self, place, reach, role, user),
            Command::Deassign { user, role } => PackedEntry::Deassign(
                self, place, reach, role, user,
            ),
            Command::Grant {
                role,
                operation,
                object,
            } => PackedEntry::Grant(self, place, reach, role, operation, object),
            Command::Revoke {
                role,
                operation,
                object,
            } => PackedEntry::Revoke(self, place, reach, role, operation, object),
            Command::Clear { role } => PackedEntry::Clear(self, place, reach, role),
        }
    }

    /// The packet that was taken.
    fn event(self, place: Place, command: Command) -> Event
        requires { IsSound (packet_with self place command) }
        ensures { result ≡ Event.Take (packet_with self place command) }
    {
        let message = Message {
            kind: self.kind,
            owner: self.owner,
            place,
            command,
        };
        Event::Take(Packet::new(self.from, self.to, message).unwrap())
    }

    /// What it caused.
    #[inline(always)]
    fn reply(self, place: Place, reach: Reach, command: Command) -> Reply
        requires { reach + self.grown < 2 ^ 32 }
        ensures { result ≡ reply_with self place reach command }
    {
        Reply::Counted {
            send: self.send.message(self.owner, place, command),
            delivered: if self.delivered { Some(command) } else { None },
            from: reach,
            to: reach + u32::from(self.grown),
        }
    }
}

impl SentKind {
    /// What is kept of a broadcast.
    #[inline(always)]
    fn new(broadcast: &Option<(Kind, Command)>) -> Self
        ensures { result ≡ sent_in broadcast.now }
    {
        match broadcast {
            Some((Kind::Send, _)) => SentKind::Send,
            Some((Kind::Echo, _)) => SentKind::Echo,
            Some((Kind::Ready, _)) => SentKind::Ready,
            None => SentKind::Nothing,
        }
    }

    /// The message of this kind, if any.
    #[inline(always)]
    fn message(self, owner: NodeName, place: Place, command: Command) -> Option<Message>
        ensures { result ≡ option_map (sent_message owner place command) (sent_kind self) }
    {
        let kind = match self {
            SentKind::Nothing => return None,
            SentKind::Send => Kind::Send,
            SentKind::Echo => Kind::Echo,
            SentKind::Ready => Kind::Ready,
        };
        Some(Message {
            kind,
            owner,
            place,
            command,
        })
    }
}
