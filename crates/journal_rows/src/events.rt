//! Events that a row has a node record, and questions that it is asked.

use link_frames::{Message, Packet};
use quorum_sizes::{NodeName, Sizes};
use role_node::{ClientEvent, Event, Question};
use row_words::{RowFault, Words};

/// The event that `NAME ..` spells, at a node of these sizes: `issue C`, `take FROM KIND OWNER PLACE C`, `open USER`,
/// `activate SESSION USER ROLE` or `close SESSION USER`.
pub fn event_of(
    sizes: &Sizes,
    me: NodeName,
    name: &str,
    words: &mut Words<'_>,
) -> Result<Event, RowFault> {
    match name {
        "issue" => Ok(Event::Issue(words.command()?)),
        "take" => Ok(Event::Take(packet_of(sizes, me, words)?)),
        _ => Ok(Event::Client(client_event(name, words)?)),
    }
}

fn packet_of(sizes: &Sizes, me: NodeName, words: &mut Words<'_>) -> Result<Packet, RowFault> {
    let from = words.node(sizes)?;
    let message = Message {
        kind: words.kind()?,
        owner: words.node(sizes)?,
        place: words.wide()?,
        command: words.command()?,
    };
    Packet::new(from, me, message).ok_or(RowFault::BadRow)
}

fn client_event(name: &str, words: &mut Words<'_>) -> Result<ClientEvent, RowFault> {
    match name {
        "open" => Ok(ClientEvent::Open {
            user: words.wide()?,
        }),
        "activate" => Ok(ClientEvent::Activate {
            session: words.long()?,
            user: words.wide()?,
            role: words.narrow()?,
        }),
        "close" => Ok(ClientEvent::Close {
            session: words.long()?,
            user: words.wide()?,
        }),
        _ => Err(RowFault::BadRow),
    }
}

/// What a row asks of a node at the end of a life.
#[derive(Clone, Copy)]
pub enum Asked {
    /// Nothing.
    Nothing,
    /// `ask QUESTION`
    Question(Question),
    /// `view PLACE`: of the node's own stream.
    View(u32),
    /// `command PLACE`: of the node's own stream.
    Command(u32),
    /// `sessions`: those that are open.
    Sessions,
}

/// What all words that are left ask.
pub fn read_asked(words: &mut Words<'_>) -> Result<Asked, RowFault> {
    match words.word() {
        "" => Ok(Asked::Nothing),
        "view" => Ok(Asked::View(words.wide()?)),
        "command" => Ok(Asked::Command(words.wide()?)),
        "sessions" => Ok(Asked::Sessions),
        name => Ok(Asked::Question(question_of(name, words)?)),
    }
}

fn question_of(name: &str, words: &mut Words<'_>) -> Result<Question, RowFault> {
    match name {
        "users" => Ok(Question::AssignedUsers(words.narrow()?)),
        "roles" => Ok(Question::AssignedRoles(words.wide()?)),
        "permissions" => Ok(Question::RolePermissions(words.narrow()?)),
        "user-permissions" => Ok(Question::UserPermissions(words.wide()?)),
        "session-roles" => Ok(Question::SessionRoles(words.long()?)),
        "session-permissions" => Ok(Question::SessionPermissions(words.long()?)),
        "check" => Ok(Question::Check {
            session: words.long()?,
            user: words.wide()?,
            operation: words.narrow()?,
            object: words.wide()?,
        }),
        _ => Err(RowFault::BadRow),
    }
}
