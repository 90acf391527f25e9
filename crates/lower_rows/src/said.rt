//! How messages, what a message causes, replies and verdicts are written.

use bracha_instance::Effect;
use link_frames::{Kind, Message};
use role_commands::Command;
use role_node::{Reply, Verdict};
use row_words::{Behind, Spelled, kind_word};
use std::fmt;
use std::fmt::Display;

/// `KIND OWNER PLACE C`
#[derive(Clone, Copy)]
pub struct Worded(pub Message);

impl Display for Worded {
    fn fmt<W: fmt::Write>(&self, f: &mut fmt::Formatter<W>) -> fmt::Result {
        let (kind, owner) = (kind_word(self.0.kind), self.0.owner.index());
        write!(
            f,
            "{kind} {owner} {} {}",
            self.0.place,
            Spelled(self.0.command)
        )
    }
}

/// `idle` or `counted`, then ` echo C` or ` ready C` where that is sent, then ` delivered C`.
#[derive(Clone, Copy)]
pub struct Caused {
    pub effect: Effect,
    pub broadcast: Option<(Kind, Command)>,
    pub delivered: Option<Command>,
}

impl Display for Caused {
    fn fmt<W: fmt::Write>(&self, f: &mut fmt::Formatter<W>) -> fmt::Result {
        f.write_str(match self.effect {
            Effect::Idle => "idle",
            Effect::Counted => "counted",
        })?;
        if let Some((kind, command)) = self.broadcast {
            write!(f, " {} {}", kind_word(kind), Spelled(command))?;
        }
        write!(f, "{}", Behind("delivered", self.delivered.map(Spelled)))
    }
}

/// What a node replies: `idle`, `issued MESSAGE`, `counted`, then ` sends MESSAGE`, ` delivers C`, and from which place to
/// which the stream grows; `session S`, or `ok`.
#[derive(Clone, Copy)]
pub struct Replied(pub Reply);

impl Display for Replied {
    fn fmt<W: fmt::Write>(&self, f: &mut fmt::Formatter<W>) -> fmt::Result {
        match self.0 {
            Reply::Idle => f.write_str("idle"),
            Reply::Issued(message) => write!(f, "issued {}", Worded(message)),
            Reply::Counted {
                send,
                delivered,
                from,
                to,
            } => {
                write!(f, "counted{}", Behind("sends", send.map(Worded)))?;
                write!(
                    f,
                    "{}, {from} to {to}",
                    Behind("delivers", delivered.map(Spelled))
                )
            }
            Reply::Session(id) => write!(f, "session {id}"),
            Reply::Done => f.write_str("ok"),
        }
    }
}

/// `allow ROLE`, or `deny RULE`.
#[derive(Clone, Copy)]
pub struct Decided(pub Verdict);

impl Display for Decided {
    fn fmt<W: fmt::Write>(&self, f: &mut fmt::Formatter<W>) -> fmt::Result {
        match self.0 {
            Verdict::Allow(role) => write!(f, "allow {role}"),
            Verdict::Deny(rule) => write!(f, "deny {rule}"),
        }
    }
}
