//! The answers to the lines of a client.

ghost use Rattle.std.specs.Prelude.{◌≡◌, ◌++◌, None, replicate, take, slice_set, All, IfOk};
ghost use Rattle.std.specs.Prelude.{OnOk, OnErr};
ghost use Rattle.frame_queues.specs.Callers.{client_numbers};
ghost use Rattle.link_frames.specs.lines.Lines.{ended};
ghost use Rattle.served_node.specs.Told as answers;
ghost use Rattle.served_node.specs.Told.{lines_due, line_text, AreAnswered, IsLine, IsLineIfAny};

use crate::answers::{hold_answer, hold_refusal};
use crate::ending::Ending;
use crate::said::Said;
use client_lines::ClientAnswer;
use frame_queues::CLIENT_NUMBERS;
use link_frames::Held;
use operator_lines::ServingFault;
use std::alloc::{AllocError, Global};
use std::marker::Model;

/// What a client reads in answer to a line that had a job.
#[derive(Drop, Debug)]
pub enum LineAnswer {
    /// What the node answers.
    Node(ClientAnswer),
    /// Why the server asked no node.
    Refused(ServingFault),
}

/// The answers to the lines of a client that are in flight, by the lines' numbers. Contracts see them as a list.
#[derive(Drop)]
pub struct Told {
    answers: Vec<Option<LineAnswer>>,
}

impl Model for Told {
    ghost use Rattle.std.specs.Prelude.{List, Option, All};
    ghost use Rattle.served_node.specs.declared.told.LineAnswer.{LineAnswer};
    ghost use Rattle.served_node.specs.Told.{IsLineIfAny};

    ghost Value = { List (Option LineAnswer) };

    ghost view = { λ a. a.answers.items };

    ghost invariant = { λ a. All IsLineIfAny a.answers.items };
}

impl Told {
    /// No answer yet.
    ///
    /// # Errors
    ///
    /// Only for want of memory.
    pub fn new(alloc: Global) -> Result<Told, AllocError>
        ensures { IfOk result (λ made. made ≡ replicate client_numbers None) }
    {
        let mut answers = Vec::new(alloc);
        for _line in 0..CLIENT_NUMBERS {
            answers.push(None)?;
        }
        Ok(Told { answers })
    }

    /// This came of the job of the line of this number.
    pub fn tell(&mut self, line: u32, ending: Ending<Said>)
        ensures { self.new ≡ slice_set self.old line (answers.answer_to ending) }
    {
        put_at(&mut self.answers, line as usize, answer_to(ending));
    }

    /// Holds the answers to so many lines, the first, in the order of the lines.
    ///
    /// # Errors
    ///
    /// One of them has no answer, or finds no room. Those before it are held.
    pub fn hold_answers(&self, alloc: Global, held: &mut Held, lines: u32) -> Result<(), AllocError>
        ensures held { OnOk result (held.new ≡ held.old ++ lines_due (take lines self.now)) }
        ensures all { OnOk result (AreAnswered lines self.now) }
    {
        let Some(answers) = self.answers.get(..lines as usize) else {
            return Err(AllocError);
        };
        for answer in answers {
            match answer {
                Some(answer) => hold_line(alloc, held, answer)?,
                None => return Err(AllocError),
            }
        }
        Ok(())
    }
}

/// Holds the text of an answer behind the lines that are held.
///
/// # Errors
///
/// Only for want of memory. What is held stays as it was.
fn hold_line(alloc: Global, held: &mut Held, answer: &LineAnswer) -> Result<(), AllocError>
    requires { IsLine answer.now }
    ensures ok { OnOk result (held.new ≡ held.old ++ ended (line_text answer.now)) }
    ensures same { OnErr result (held.new ≡ held.old) }
{
    match answer {
        LineAnswer::Node(answer) => hold_answer(alloc, held, answer),
        LineAnswer::Refused(fault) => hold_refusal(alloc, held, *fault),
    }
}

/// What a client hears of what came of the job of its line.
fn answer_to(ending: Ending<Said>) -> Option<LineAnswer>
    ensures answer { result ≡ answers.answer_to ending }
    ensures written { IsLineIfAny result }
{
    match ending {
        Ending::Held(said) => Some(LineAnswer::Node(said.into_answer()?)),
        Ending::Refused(fault) => Some(LineAnswer::Refused(fault)),
        Ending::Lost | Ending::Nothing => None,
    }
}

/// Puts an answer at a place, if there is one.
#[tactic(auto, using(crate::proofs::Written::written_set))]
fn put_at(answers: &mut Vec<Option<LineAnswer>>, at: usize, answer: Option<LineAnswer>)
    requires old { All IsLineIfAny answers.old.items }
    requires new { IsLineIfAny answer }
    ensures set { answers.new.items ≡ slice_set answers.old.items at answer }
    ensures all { All IsLineIfAny answers.new.items }
{
    if at < answers.len() {
        answers[at] = answer;
    }
}
