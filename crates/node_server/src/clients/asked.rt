//! What a client's lines ask of the node, and the answers.

ghost use Rattle.client_lines.specs.AnswerTexts.{IsWritten};

use crate::clients::Client;
use client_lines::{ClientAnswer, LineFault, Request};
use frame_queues::{FrameKeys, MOST_LINES};
use link_frames::{AheadFault, Place};
use node_lock::{Call, View};
use operator_lines::{OperatorAnswer, OperatorFault, OperatorRequest, read_operator};
use quorum_sizes::NodeName;
use role_node::{Event, Question};
use served_node::answers::{hold_answer, hold_operator_answer, sent_count};
use served_node::{HeldNode, Said};
use std::sync::Wait;
use std::time::Clock;

/// How lines begin that ask for decisions, as clients mostly write them.
const DECISION: &[u8] = b"{\"op\":\"decide";

/// Whether a line begins so. It only chooses which table is looked at first: the other one is searched to its end
/// before it is known that it doesn't have such a line, which takes as long as to read it.
pub fn may_ask_decisions(line: &[u8]) -> bool {
    line.starts_with(DECISION)
}

impl<N: HeldNode, K: FrameKeys, R: Wait + Clock> Client<'_, '_, N, K, R> {
    pub fn answer(&mut self, request: Request) -> Result<(), AheadFault> {
        match request {
            Request::Issue(command) => self.call(Call::Step(Event::Issue(command))),
            Request::Client(act) => self.call(Call::Step(Event::Client(act))),
            Request::Ask(question) => self.ask(question),
            Request::Reach(owner) => {
                let view = self.view(owner, 0)?;
                self.say(&ClientAnswer::Reach(view.reach))
            }
            Request::Again { owner, place } => self.again(owner, place),
            Request::Stop => Ok(()),
        }
    }

    /// Answers how much was sent at a place, once it is sent again.
    fn again(&mut self, owner: NodeName, place: Place) -> Result<(), AheadFault> {
        let sent = self.view(owner, place)?.again;
        self.send_again(self.server.keys.me(), owner, place, &sent)?;
        self.say(&ClientAnswer::Again(sent_count(&sent)))
    }

    /// Holds an answer, behind those of the lines before.
    pub fn say(&mut self, answer: &ClientAnswer) -> Result<(), AheadFault>
        requires { IsWritten answer.now }
    {
        self.await_answers()?;
        hold_answer(self.server.alloc, &mut self.held, answer)?;
        Ok(())
    }

    /// Answers a question in this thread, after the lines before were answered, save about an access behind lines that
    /// have jobs: that gets one too, and is answered with them. A listing is written before the next line is looked at,
    /// so there is one at most.
    fn ask(&mut self, question: Question) -> Result<(), AheadFault> {
        self.asked = matches!(question, Question::Check { .. });
        if self.asked && self.put > 0 {
            return self.call(Call::Ask(question));
        }
        self.await_answers()?;
        match self.said_to(question).and_then(Said::into_answer) {
            Some(answer) => self.say(&answer),
            None => Err(AheadFault::Memory),
        }
    }

    /// What the node says to a question, if it says anything.
    fn said_to(&mut self, question: Question) -> Option<Said> {
        if self.asked {
            return self.server.look(Some(question), self.server.keys.me(), 0);
        }
        self.lines = MOST_LINES;
        self.server.list(question)
    }

    /// Looks at a place of the owner's stream, after the lines before were answered.
    fn view(&mut self, owner: NodeName, place: Place) -> Result<View, AheadFault> {
        self.await_answers()?;
        match self.server.look(None, owner, place) {
            Some(said) => Ok(said.view),
            None => Err(AheadFault::Memory),
        }
    }

    /// Answers a line that asks for decisions, and whether it is one. No line is in both tables (`clients_know_none`),
    /// so that the order in which they are looked at changes no answer.
    pub fn answer_decisions(&mut self, line: &[u8]) -> Result<bool, AheadFault> {
        match read_operator(self.server.alloc, &self.server.keys.sizes(), line) {
            Ok(Some(request)) => {
                self.answer_request(request)?;
                Ok(true)
            }
            _ => Ok(false),
        }
    }

    /// Answers a line that no client's table has. A decision is held and written with the answers beside it, as that of
    /// a check is.
    pub fn answer_operator(&mut self, line: &[u8]) -> Result<(), AheadFault> {
        match read_operator(self.server.alloc, &self.server.keys.sizes(), line) {
            Ok(Some(request)) => self.answer_request(request),
            Ok(None) => self.say(&ClientAnswer::BadLine(LineFault::UnknownOp)),
            Err(OperatorFault::Memory) => Err(AheadFault::Memory),
            Err(fault) => self.say_to_operator(&OperatorAnswer::BadLine(fault)),
        }
    }

    /// Answers what such a line asks, after the lines before were answered.
    fn answer_request(&mut self, request: OperatorRequest) -> Result<(), AheadFault> {
        self.asked = matches!(&request, OperatorRequest::Decide(_));
        self.await_answers()?;
        match self.server.operator_answer(request) {
            Some(answer) => self.say_to_operator(&answer),
            None => Err(AheadFault::Memory),
        }
    }

    /// Holds such an answer, behind those of the lines before. As of listings there is one at most, save decisions by
    /// themselves.
    fn say_to_operator(&mut self, answer: &OperatorAnswer) -> Result<(), AheadFault> {
        self.await_answers()?;
        if !self.asked {
            self.lines = MOST_LINES;
        }
        hold_operator_answer(self.server.alloc, &mut self.held, answer)?;
        Ok(())
    }
}
