//! Packets, acts of clients and questions, as a row spells them, and answers to questions.

use crate::said::Decided;
use link_frames::{Message, Packet};
use quorum_sizes::Sizes;
use role_node::{Answer, ClientEvent, Question};
use row_words::{RowFault, Words, list_text, permissions_text, text_of};
use std::alloc::Global;

/// `KIND FROM TO OWNER PLACE C`
pub fn packet_of(words: &mut Words<'_>, sizes: &Sizes) -> Result<Packet, RowFault> {
    let kind = words.kind()?;
    let from = words.node(sizes)?;
    let to = words.node(sizes)?;
    let message = Message {
        kind,
        owner: words.node(sizes)?,
        place: words.wide()?,
        command: words.command()?,
    };
    Packet::new(from, to, message).ok_or(RowFault::BadRow)
}

/// `open USER`, `activate S USER ROLE`, `drop S USER ROLE`, `close S USER`
pub fn act_of(name: &str, words: &mut Words<'_>) -> Result<ClientEvent, RowFault> {
    if name == "open" {
        return Ok(ClientEvent::Open {
            user: words.wide()?,
        });
    }
    let (session, user) = (words.long()?, words.wide()?);
    match name {
        "activate" => Ok(ClientEvent::Activate {
            session,
            user,
            role: words.narrow()?,
        }),
        "drop" => Ok(ClientEvent::DropRole {
            session,
            user,
            role: words.narrow()?,
        }),
        "close" => Ok(ClientEvent::Close { session, user }),
        _ => Err(RowFault::BadRow),
    }
}

/// `users ROLE`, `roles USER`, `permissions ROLE`, `user-permissions USER`, `operations ROLE OBJECT`,
/// `user-operations USER OBJECT`, `session-roles S`, `session-permissions S`, `decide S USER OPERATION OBJECT`
pub fn question_of(name: &str, words: &mut Words<'_>) -> Result<Question, RowFault> {
    match name {
        "users" => Ok(Question::AssignedUsers(words.narrow()?)),
        "roles" => Ok(Question::AssignedRoles(words.wide()?)),
        "permissions" => Ok(Question::RolePermissions(words.narrow()?)),
        "user-permissions" => Ok(Question::UserPermissions(words.wide()?)),
        "operations" => Ok(Question::RoleOperations {
            role: words.narrow()?,
            object: words.wide()?,
        }),
        "user-operations" => Ok(Question::UserOperations {
            user: words.wide()?,
            object: words.wide()?,
        }),
        "session-roles" => Ok(Question::SessionRoles(words.long()?)),
        "session-permissions" => Ok(Question::SessionPermissions(words.long()?)),
        "decide" => Ok(Question::Check {
            session: words.long()?,
            user: words.wide()?,
            operation: words.narrow()?,
            object: words.wide()?,
        }),
        _ => Err(RowFault::BadRow),
    }
}

/// A verdict, or `list` with the items.
pub fn answer_text(alloc: Global, answer: &Answer) -> Result<String, RowFault> {
    match answer {
        Answer::Verdict(verdict) => text_of(alloc, &Decided(*verdict)),
        Answer::Users(users) => list_text(alloc, users.as_slice()),
        Answer::Roles(roles) => list_text(alloc, roles.as_slice()),
        Answer::Permissions(items) => permissions_text(alloc, items.as_slice()),
        Answer::Operations(items) => list_text(alloc, items.as_slice()),
    }
}
