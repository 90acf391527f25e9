//! A registry of one node, and a client that speaks to it in lines.

ghost use Rattle.std.specs.Prelude.{◌≡◌, ◌<◌, IfOk};
ghost use Rattle.client_lines.specs.AnswerTexts.{IsWritten};

use crate::digest::Digest;
use anyhow::{Context, Result, bail};
use client_lines::{ClientAnswer, LineFault, Request, RequestReader, answer_text};
use link_frames::{Message, Packet};
use quorum_sizes::{NodeName, Sizes};
use role_commands::{Command, RoleTable};
use role_node::{
    Answer, AskFault, ClientEvent, Config, Event, MOST_EVENTS, Node, NodeFault, Question, Reply,
};
use role_sessions::SessionFault;
use std::alloc::Global;

/// The configuration of a cluster of `n` nodes of which `f` may lie, whose first so many nodes own these many roles in
/// turn.
pub fn config(alloc: Global, n: u8, f: u8, owners: u8, roles: u16) -> Result<Config> {
    let mut table = RoleTable::new(alloc, Sizes::new(n, f)?);
    let mut owner = 0;
    for role in 0..roles {
        table.add(role, owner)?;
        owner = if u16::from(owner) + 1 < u16::from(owners) {
            owner + 1
        } else {
            0
        };
    }
    Config::new(1, table, MOST_EVENTS).context("no configuration")
}

/// The node of this index in a configuration that has recorded nothing.
pub fn node(alloc: Global, config: Config, index: u8) -> Result<Node> {
    let sizes = config.roles().sizes();
    let me = sizes.name(index).context("no node")?;
    if !sizes.has(me) {
        bail!("no node");
    }
    Ok(Node::new(alloc, config, me)?)
}

/// The node of a cluster of one node with so many roles.
pub fn lone_node(alloc: Global, roles: u16) -> Result<Node> {
    node(alloc, config(alloc, 1, 0, 1, roles)?, 0)
}

/// Has the node of a cluster of one publish a command and take its own packets, and adds its replies to the digest.
pub fn publish(node: &mut Node, command: Command, digest: &mut Digest) -> Result<()> {
    let mut waiting = applied(node, Event::Issue(command), digest)?;
    for _ in 0..3 {
        let Some(message) = waiting else {
            break;
        };
        let me = node.me();
        let packet = Packet::new(me, me, message).context("no packet")?;
        waiting = applied(node, Event::Take(packet), digest)?;
    }
    Ok(())
}

/// Applies an event. The message that the node sends then.
fn applied(node: &mut Node, event: Event, digest: &mut Digest) -> Result<Option<Message>> {
    let reply = node.apply(event)?;
    digest.reply(&reply);
    Ok(reply.message())
}

/// Opens a session of the user.
pub fn open(node: &mut Node, user: u32) -> Result<u64> {
    let session = act(node, ClientEvent::Open { user })?;
    session.context("no session")
}

/// Makes a role active in the user's session.
pub fn activate(node: &mut Node, session: u64, user: u32, role: u16) -> Result<()> {
    let event = ClientEvent::Activate {
        session,
        user,
        role,
    };
    let _none = act(node, event)?;
    Ok(())
}

/// Has a client act. The session that it opens.
fn act(node: &mut Node, event: ClientEvent) -> Result<Option<u64>> {
    match node.apply(Event::Client(event)) {
        Ok(Reply::Session(session)) => Ok(Some(session)),
        Ok(_) => Ok(None),
        Err(fault) => bail!("{fault}"),
    }
}

/// A client of a node.
#[derive(Drop)]
pub struct Client {
    alloc: Global,
    reader: RequestReader,
}

impl Client {
    /// A client that has said nothing.
    pub fn new(alloc: Global) -> Client {
        Client {
            alloc,
            reader: RequestReader::new(alloc),
        }
    }

    /// Says a line to the node, and adds the answer to the digest.
    pub fn say(&mut self, node: &mut Node, line: &[u8], digest: &mut Digest) -> Result<()> {
        let text = self.answer_text(node, line, digest)?;
        digest.bytes(text.as_bytes());
        Ok(())
    }

    fn answer_text(&mut self, node: &mut Node, line: &[u8], digest: &mut Digest) -> Result<String> {
        let answer = self.answer(node, line, digest)?;
        Ok(answer_text(self.alloc, &answer)?)
    }

    fn answer(&mut self, node: &mut Node, line: &[u8], digest: &mut Digest) -> Result<ClientAnswer>
        ensures { IfOk result IsWritten }
    {
        let sizes = node.config().roles().sizes();
        match self.reader.read(&sizes, line) {
            Ok(request) => answered(node, request, digest),
            Err(fault) => bad_line(fault),
        }
    }
}

fn answered(node: &mut Node, request: Request, digest: &mut Digest) -> Result<ClientAnswer>
    ensures { IfOk result IsWritten }
{
    match request {
        Request::Ask(question) => asked(node, question),
        Request::Issue(command) => issued(node, command, digest),
        _ => bail!("another request"),
    }
}

fn bad_line(fault: LineFault) -> Result<ClientAnswer>
    ensures { IfOk result IsWritten }
{
    match fault {
        LineFault::Memory => bail!("out of memory"),
        fault => Ok(ClientAnswer::BadLine(fault)),
    }
}

fn issued(node: &mut Node, command: Command, digest: &mut Digest) -> Result<ClientAnswer>
    ensures { IfOk result IsWritten }
{
    publish(node, command, digest)?;
    Ok(ClientAnswer::Done)
}

fn asked(node: &mut Node, question: Question) -> Result<ClientAnswer>
    ensures { IfOk result IsWritten }
{
    let at = node.events();
    match node.ask(question) {
        Ok(answer) => Ok(listed(at, answer)),
        Err(AskFault::NoSession) => Ok(no_session()),
        Err(AskFault::Memory) => bail!("out of memory"),
    }
}

fn no_session() -> ClientAnswer
    ensures { IsWritten result }
{
    ClientAnswer::Refused(NodeFault::Session(SessionFault::NoSession))
}

fn listed(at: u32, answer: Answer) -> ClientAnswer
    ensures { IsWritten result }
{
    match answer {
        Answer::Verdict(verdict) => ClientAnswer::Verdict { at, verdict },
        Answer::Users(users) => ClientAnswer::Users { at, users },
        Answer::Roles(roles) => ClientAnswer::Roles { at, roles },
        Answer::Permissions(permissions) => ClientAnswer::Permissions { at, permissions },
        Answer::Operations(operations) => ClientAnswer::Operations { at, operations },
    }
}
