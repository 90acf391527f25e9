//! What a client hears of what a node answers, over a pipe and over TCP.

ghost use Rattle.std.specs.Prelude.{◌≡◌, ◌≤◌, ◌++◌, OnOk, OnErr};
ghost use Rattle.link_frames.specs.lines.Lines.{ended};
ghost use Rattle.client_lines.specs.AnswerTexts as texts;
ghost use Rattle.client_lines.specs.AnswerTexts.{IsWritten};
ghost use Rattle.operator_lines.specs.AnswerTexts as operator_texts;
ghost use Rattle.served_node.specs.Answers as answers;

use client_lines::{ClientAnswer, answer_text};
use link_frames::Held;
use operator_lines::{OperatorAnswer, ServingFault, operator_text, refused_text};
use role_commands::Command;
use role_node::{Answer, NodeAgain};
use std::alloc::{AllocError, Global};

/// An answer as a client hears it, after so many events.
pub fn listed(at: u32, answer: Answer) -> ClientAnswer
    ensures answer { result ≡ answers.listed at answer }
    ensures written { IsWritten result }
{
    match answer {
        Answer::Verdict(verdict) => ClientAnswer::Verdict { at, verdict },
        Answer::Users(users) => ClientAnswer::Users { at, users },
        Answer::Roles(roles) => ClientAnswer::Roles { at, roles },
        Answer::Permissions(permissions) => ClientAnswer::Permissions { at, permissions },
        Answer::Operations(operations) => ClientAnswer::Operations { at, operations },
    }
}

/// Holds the text of an answer behind the lines that are held.
///
/// # Errors
///
/// Only for want of memory. What is held stays as it was.
pub fn hold_answer(alloc: Global, held: &mut Held, answer: &ClientAnswer) -> Result<(), AllocError>
    requires { IsWritten answer.now }
    ensures ok { OnOk result (held.new ≡ held.old ++ ended (texts.answer_text answer.now)) }
    ensures same { OnErr result (held.new ≡ held.old) }
{
    let text = answer_text(alloc, answer)?;
    held.push_line(text.as_str())
}

/// Holds the text of what an operator hears behind the lines that are held.
///
/// # Errors
///
/// Only for want of memory. What is held stays as it was.
pub fn hold_operator_answer(
    alloc: Global,
    held: &mut Held,
    answer: &OperatorAnswer,
) -> Result<(), AllocError>
    ensures ok { OnOk result (held.new ≡ held.old ++ ended (operator_texts.operator_text answer.now)) }
    ensures same { OnErr result (held.new ≡ held.old) }
{
    let text = operator_text(alloc, answer)?;
    held.push_line(text.as_str())
}

/// Holds the text of a server's refusal behind the lines that are held.
///
/// # Errors
///
/// Only for want of memory. What is held stays as it was.
pub fn hold_refusal(alloc: Global, held: &mut Held, fault: ServingFault) -> Result<(), AllocError>
    ensures ok { OnOk result (held.new ≡ held.old ++ ended (operator_texts.refused_text fault)) }
    ensures same { OnErr result (held.new ≡ held.old) }
{
    let text = refused_text(alloc, fault)?;
    held.push_line(text.as_str())
}

/// How many messages were sent at a place.
pub fn sent_count(again: &NodeAgain) -> u8
    ensures { result ≡ answers.sent_count again.now }
{
    one_if(again.send) + one_if(again.echo) + one_if(again.ready)
}

fn one_if(message: Option<Command>) -> u8
    ensures value { result ≡ answers.one_if message }
    ensures few { result ≤ 1 }
{
    u8::from(message.is_some())
}
