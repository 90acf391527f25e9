//! What a hold says, and what comes of it: what a client hears, and what the node sends.

ghost use Rattle.std.specs.Prelude.{◌≡◌, IfSome, option_and_then};
ghost use Rattle.client_lines.specs.AnswerTexts.{IsWritten};
ghost use Rattle.served_node.specs.Served.{served, sent_outcome, sent_said, served_said, has_counted};

use crate::answers::listed;
use client_lines::ClientAnswer;
use link_frames::Message;
use node_lock::{Outcome, View};
use role_node::{NodeFault, Reply};
use role_sessions::SessionFault;

/// What a hold said: the outcome of its call, where there was one, and the view that was read after it.
#[derive(Drop, Debug)]
pub struct Said {
    pub outcome: Option<Outcome>,
    pub view: View,
}

impl Said {
    /// The message that the hold has the node send to all.
    pub fn message(&self) -> Option<Message>
        ensures { result ≡ sent_said self.now }
    {
        match &self.outcome {
            Some(Outcome::Reply(reply)) => reply.message(),
            _ => None,
        }
    }

    /// Whether a packet has counted, so that it is now a part of what the node knows.
    pub fn has_counted(&self) -> bool
        ensures { result ≡ has_counted self.now }
    {
        matches!(self.outcome, Some(Outcome::Reply(Reply::Counted { .. })))
    }

    /// What the client hears whose call it was; `None` where there was no call, and for want of memory.
    pub fn into_answer(self) -> Option<ClientAnswer>
        ensures answer { result ≡ served_said self }
        ensures written { IfSome result IsWritten }
    {
        let Said { outcome, view } = self;
        answer_of(&view, outcome?)
    }
}

/// An outcome as a client hears it; `None` for want of memory.
fn answer_of(view: &View, outcome: Outcome) -> Option<ClientAnswer>
    ensures answer { result ≡ served view.now outcome }
    ensures written { IfSome result IsWritten }
{
    match outcome {
        Outcome::Reply(Reply::Issued(message)) => Some(ClientAnswer::Issued {
            place: message.place,
            reach: view.reach,
        }),
        Outcome::Reply(Reply::Session(id)) => Some(ClientAnswer::Session(id)),
        Outcome::Reply(Reply::Idle | Reply::Counted { .. } | Reply::Done) => {
            Some(ClientAnswer::Done)
        }
        Outcome::Answer(answer) => Some(listed(view.at, answer)),
        Outcome::Refused(NodeFault::Memory | NodeFault::Session(SessionFault::Memory)) => None,
        Outcome::Refused(fault) => Some(ClientAnswer::Refused(fault)),
    }
}
