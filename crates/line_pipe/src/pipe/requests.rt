//! What the pipe's node answers to a request, and how it takes its own packets before it answers.

ghost use Rattle.std.specs.Prelude.{◌≡◌, IfOk, IfErr, OnOk};
ghost use Rattle.client_lines.specs.AnswerTexts.{IsWritten};
ghost use Rattle.client_lines.specs.Faults.{IsRefusal};
ghost use Rattle.client_lines.specs.Requests.{NamesNodes};
ghost use Rattle.role_node.specs.Answers.{sent_by_answer};
ghost use Rattle.role_node.specs.Nodes.{due_at};
ghost use Rattle.line_pipe.specs.Answers as answers;
ghost use Rattle.line_pipe.specs.Answers.{answer_to, after_request, after_event, own_packet, settled};

use client_lines::{ClientAnswer, Request};
use link_frames::{Message, Packet};
use role_node::{AskFault, Event, Node, NodeFault, Question, Reply};
use role_sessions::SessionFault;
use served_node::answers::{listed, sent_count};
use std::alloc::AllocError;

/// The answer of the node to a request, whose owner must be a node. A command that is published is taken by the node
/// before it is answered.
///
/// # Errors
///
/// Only for want of memory.
#[tactic(auto, unfolding(crate::specs::Answers::answer_to, crate::specs::Answers::after_request))]
pub fn answer(node: &mut Node, request: Request) -> Result<ClientAnswer, AllocError>
    requires { NamesNodes node.old.config.roles.sizes request }
    ensures answer { IfOk result (λ answer. answer ≡ answer_to node.old request) }
    ensures written { IfOk result IsWritten }
    ensures after { OnOk result (node.new ≡ after_request node.old request) }
{
    match request {
        Request::Issue(command) => take(node, Event::Issue(command)),
        Request::Client(act) => take(node, Event::Client(act)),
        Request::Ask(question) => ask(node, question),
        Request::Reach(owner) => Ok(ClientAnswer::Reach(node.reach(owner))),
        Request::Again { owner, place } => {
            let again = node.again(owner, place);
            Ok(ClientAnswer::Again(sent_count(&again)))
        }
        Request::Stop => Ok(ClientAnswer::Stopped),
    }
}

/// Has the node answer an event and take its own packets.
#[tactic(auto, unfolding(crate::specs::Answers::after_taken))]
fn take(node: &mut Node, event: Event) -> Result<ClientAnswer, AllocError>
    ensures answer { IfOk result (λ answer. answer
        ≡ answers.replied (answers.after_taken node.old event) (due_at node.old event)) }
    ensures written { IfOk result IsWritten }
    ensures after { OnOk result (node.new ≡ answers.after_taken node.old event) }
{
    let due = due(node, event)?;
    take_own_packets(node, sent_by(&due))?;
    Ok(replied(node, &due))
}

/// Has the node answer an event. What is due, want of memory apart.
fn due(node: &mut Node, event: Event) -> Result<Result<Reply, NodeFault>, AllocError>
    ensures due { IfOk result (λ due. due ≡ due_at node.old event) }
    ensures refusal { IfOk result (λ due. IfErr due IsRefusal) }
    ensures after { OnOk result (node.new ≡ after_event node.old event) }
{
    match node.apply(event) {
        Ok(reply) => Ok(Ok(reply)),
        Err(NodeFault::Memory | NodeFault::Session(SessionFault::Memory)) => Err(AllocError),
        Err(fault) => Ok(Err(fault)),
    }
}

/// Has the node take its own packets until none is left: of this message, of the one that it then sends, and so on.
fn take_own_packets(node: &mut Node, send: Option<Message>) -> Result<(), AllocError>
    ensures { OnOk result (node.new ≡ settled node.old send) }
{
    let mut waiting = send;
    while let Some(message) = waiting {
        waiting = take_own(node, message)?;
    }
    Ok(())
}

/// Has the node take the packet of a message to itself. What it sends then.
fn take_own(node: &mut Node, message: Message) -> Result<Option<Message>, AllocError>
    ensures sent { IfOk result (λ sent. sent ≡ answers.sent_own node.old (own_packet node.old message)) }
    ensures after { OnOk result (node.new ≡ answers.after_own node.old (own_packet node.old message)) }
{
    let me = node.me();
    match Packet::new(me, me, message) {
        Some(packet) => {
            let due = due(node, Event::Take(packet))?;
            Ok(sent_by(&due))
        }
        None => Ok(None),
    }
}

/// The message that the node sends to all.
fn sent_by(due: &Result<Reply, NodeFault>) -> Option<Message>
    ensures { result ≡ sent_by_answer due.now }
{
    match due {
        Ok(reply) => reply.message(),
        Err(_) => None,
    }
}

/// What is due to a client's event, as the client hears it.
fn replied(node: &Node, due: &Result<Reply, NodeFault>) -> ClientAnswer
    requires { IfErr due.now IsRefusal }
    ensures answer { result ≡ answers.replied node.now due.now }
    ensures written { IsWritten result }
{
    match due {
        Ok(Reply::Issued(message)) => {
            let reach = node.reach(node.me());
            ClientAnswer::Issued {
                place: message.place,
                reach,
            }
        }
        Ok(Reply::Session(id)) => ClientAnswer::Session(*id),
        Ok(Reply::Idle | Reply::Counted { .. } | Reply::Done) => ClientAnswer::Done,
        Err(fault) => ClientAnswer::Refused(*fault),
    }
}

#[tactic(auto, unfolding(crate::specs::Answers::asked))]
fn ask(node: &mut Node, question: Question) -> Result<ClientAnswer, AllocError>
    ensures answer { IfOk result (λ answer. answer ≡ answers.asked node.old question) }
    ensures written { IfOk result IsWritten }
    ensures same { node.new ≡ node.old }
{
    let at = node.events();
    match node.ask(question) {
        Ok(answer) => Ok(listed(at, answer)),
        Err(AskFault::NoSession) => {
            let fault = NodeFault::Session(SessionFault::NoSession);
            Ok(ClientAnswer::Refused(fault))
        }
        Err(AskFault::Memory) => Err(AllocError),
    }
}
