//! What a node says, as a row has it.

use node_lock::{Outcome, View};
use role_node::{Answer, Node, Verdict};
use row_words::{Behind, OrNone, RowFault, Spelled, list_text, permissions_text, text_of};
use std::alloc::Global;

/// What a node said to a question.
pub fn outcome_text(alloc: Global, outcome: &Outcome) -> Result<String, RowFault> {
    match outcome {
        Outcome::Answer(answer) => answer_text(alloc, answer),
        Outcome::Refused(fault) => text_of(alloc, fault),
        Outcome::Reply(_) => Err(RowFault::BadRow),
    }
}

fn answer_text(alloc: Global, answer: &Answer) -> Result<String, RowFault> {
    match answer {
        Answer::Verdict(verdict) => verdict_text(alloc, *verdict),
        Answer::Users(users) => list_text(alloc, users.as_slice()),
        Answer::Roles(roles) => list_text(alloc, roles.as_slice()),
        Answer::Operations(operations) => list_text(alloc, operations.as_slice()),
        Answer::Permissions(permissions) => permissions_text(alloc, permissions.as_slice()),
    }
}

fn verdict_text(alloc: Global, verdict: Verdict) -> Result<String, RowFault> {
    match verdict {
        Verdict::Allow(role) => Ok(format!(in alloc; "allow {role}")?),
        Verdict::Deny(rule) => Ok(format!(in alloc; "deny {}", rule.code())?),
    }
}

/// How far the node's own stream reaches, and what it may send again at a place of it.
pub fn view_text(alloc: Global, view: &View) -> Result<String, RowFault> {
    let again = view.again;
    Ok(format!(in alloc;
        "at {} reach {}{}{}{}",
        view.at,
        view.reach,
        Behind("send", again.send.map(Spelled)),
        Behind("echo", again.echo.map(Spelled)),
        Behind("ready", again.ready.map(Spelled))
    )?)
}

/// The command at a place of the node's own stream, if it was delivered.
pub fn command_text(alloc: Global, node: &Node, place: u32) -> Result<String, RowFault> {
    let command = node.command(node.me(), place);
    text_of(alloc, &OrNone(command.map(Spelled)))
}

/// The sessions that are open, each as SESSION:USER.
pub fn sessions_text(alloc: Global, node: &Node) -> Result<String, RowFault> {
    let mut text = format!(in alloc; "list")?;
    for (session, user) in &node.open_sessions(0, 100)? {
        let item = format!(in alloc; " {session}:{user}")?;
        text.push_str(&item)?;
    }
    Ok(text)
}
