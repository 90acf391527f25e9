//! The pipe: one node, whose clients speak in lines.

ghost use Rattle.std.specs.Prelude.{◌≡◌, ◌≢◌, ◌++◌, ◌⊎◌, None, IfOk, IfErr, OnOk, OnErr, Err};
ghost use Rattle.link_frames.specs.lines.Watching.{watched_inner, watched_tally};
ghost use Rattle.link_frames.specs.lines.Devices.{WentOn, CallFailed, ReaderFailed};
ghost use Rattle.link_frames.specs.lines.Holding.{IsNotDue};
ghost use Rattle.link_frames.specs.lines.Lines.{ended};
ghost use Rattle.link_frames.specs.lines.LinesAt.{devices_at, lines_at};
ghost use Rattle.link_frames.specs.lines.Aheads.{front_of};
ghost use Rattle.client_lines.specs.Requests.{most_line_bytes};
ghost use Rattle.line_pipe.specs.Pipes.{stops, line_text, after_line};
ghost use Rattle.line_pipe.specs.Runs.{PipeRan, IsEndless};
ghost use Rattle.line_pipe.specs.inside.Steps.{IsNodeOf, RefusesNode, Opened, Answered, LinesRan};
ghost use Rattle.line_pipe.specs.inside.Steps.{LinesEndless, Finished};

pub mod laws;
mod requests;

use crate::fault::PipeFault;
use client_lines::{ClientAnswer, LineFault, MOST_LINE_BYTES, Request, RequestReader};
use cluster_text::cluster::{MOST_TEXT_BYTES, Mode, read_cluster};
use cluster_text::fault::ClusterFault;
use link_frames::{Ahead, Held, Next, Watched};
use requests::answer;
use role_node::Node;
use served_node::answers::hold_answer;
use std::alloc::{AllocError, Global};
use std::io::{Read, Write};

/// Sets up the node that the first line says, and answers each later line, up to the first that stops the node.
///
/// Each answer is written before the reader is asked for more. Memory grows with the events that the node records.
///
/// # Errors
///
/// `Cluster` where the first line sets up no node, when nothing is written. `Device` where the reader or the writer has
/// failed, or where there is no number for another line, and `Memory`; a prefix of the text that is due is written
/// then. All but `Device` come only where no read or write broke.
pub fn run_pipe<R: Read, W: Write>(
    alloc: Global,
    reader: &mut Watched<R>,
    writer: &mut Watched<W>,
) -> Result<(), PipeFault>
    ensures ran { PipeRan (devices_at R.remaining W.contents reader.old writer.old)
        (devices_at R.remaining W.contents reader.new writer.new) result }
    ensures device { IfErr result (λ e. e ≡ PipeFault.Device →
        ReaderFailed (watched_tally reader.old) (watched_tally reader.new)
        ⊎ (CallFailed (watched_tally writer.old) (watched_tally writer.new)
        ⊎ IsEndless (devices_at R.remaining W.contents reader.old writer.old)
        (devices_at R.remaining W.contents reader.new writer.new))) }
    ensures quiet { result ≢ Err PipeFault.Device → WentOn (watched_tally reader.old) (watched_tally reader.new)
        × WentOn (watched_tally writer.old) (watched_tally writer.new) }
{
    let mut ahead = Ahead::new(alloc);
    let Some(mut node) = open(alloc, &mut ahead, reader)? else {
        return Ok(());
    };
    answer_lines(alloc, &mut node, &mut ahead, reader, writer)
}

/// Reads the first line, and sets up its node; `None` where no other line comes behind it.
fn open<R: Read>(
    alloc: Global,
    ahead: &mut Ahead,
    reader: &mut Watched<R>,
) -> Result<Option<Node>, PipeFault>
    ensures opened { Opened (lines_at R.remaining reader.old ahead.old None)
        (lines_at R.remaining reader.new ahead.new None) result }
    ensures device { IfErr result (λ e. e ≡ PipeFault.Device →
        ReaderFailed (watched_tally reader.old) (watched_tally reader.new)) }
    ensures quiet { result ≢ Err PipeFault.Device → WentOn (watched_tally reader.old) (watched_tally reader.new) }
{
    match ahead.peek(reader, MOST_TEXT_BYTES)? {
        Next::End => Err(PipeFault::Cluster(ClusterFault::NotJson)),
        Next::TooLong => Err(PipeFault::Cluster(ClusterFault::NotJson)),
        Next::Line(count) => {
            let node = make_node(alloc, &ahead.front()[..count])?;
            ahead.take(count + 1);
            Ok(Some(node))
        }
        Next::Last(_) => {
            let _node = make_node(alloc, ahead.front())?;
            Ok(None)
        }
    }
}

/// The node that a cluster text sets up.
fn make_node(alloc: Global, text: &[u8]) -> Result<Node, PipeFault>
    ensures ok { IfOk result (IsNodeOf text.now) }
    ensures err { IfErr result (RefusesNode text.now) }
{
    match read_cluster(alloc, text, Mode::Pipe) {
        Ok(setup) => Ok(Node::new(alloc, setup.config, setup.me)?),
        Err(ClusterFault::Memory) => Err(PipeFault::Memory),
        Err(fault) => Err(PipeFault::Cluster(fault)),
    }
}

/// Answers client lines, up to the first that stops the node.
fn answer_lines<R: Read, W: Write>(
    alloc: Global,
    node: &mut Node,
    ahead: &mut Ahead,
    reader: &mut Watched<R>,
    writer: &mut Watched<W>,
) -> Result<(), PipeFault>
    ensures ran { LinesRan node.old
        (lines_at R.remaining reader.old ahead.old (W.contents (watched_inner writer.old)))
        (lines_at R.remaining reader.new ahead.new (W.contents (watched_inner writer.new))) result }
    ensures device { IfErr result (λ e. e ≡ PipeFault.Device →
        ReaderFailed (watched_tally reader.old) (watched_tally reader.new)
        ⊎ (CallFailed (watched_tally writer.old) (watched_tally writer.new)
        ⊎ LinesEndless node.old
        (lines_at R.remaining reader.old ahead.old (W.contents (watched_inner writer.old)))
        (lines_at R.remaining reader.new ahead.new (W.contents (watched_inner writer.new))))) }
    ensures quiet { result ≢ Err PipeFault.Device → WentOn (watched_tally reader.old) (watched_tally reader.new)
        × WentOn (watched_tally writer.old) (watched_tally writer.new) }
{
    let mut requests = RequestReader::new(alloc);
    let mut held = Held::new(alloc);
    for number in 1..u64::MAX {
        held.write_when_due(ahead, MOST_LINE_BYTES, writer)?;
        match answer_next(alloc, &mut requests, node, ahead, &mut held, reader) {
            Ok(true) => {}
            Ok(false) => return finish(&mut held, writer, Ok(())),
            Err(PipeFault::Memory) => return finish(&mut held, writer, Err(PipeFault::Memory)),
            Err(fault) => return Err(fault),
        }
    }
    finish(&mut held, writer, Err(PipeFault::Device))
}

/// Answers what comes next. Whether another line may come behind it. Nothing may be held back that is due, since the
/// reader may wait here. At an error what is held stays as it was.
fn answer_next<R: Read>(
    alloc: Global,
    requests: &mut RequestReader,
    node: &mut Node,
    ahead: &mut Ahead,
    held: &mut Held,
    reader: &mut Watched<R>,
) -> Result<bool, PipeFault>
    requires due { IsNotDue most_line_bytes held.old (front_of ahead.old) }
    ensures answered { IfOk result (Answered (lines_at R.remaining reader.old ahead.old None)
        (lines_at R.remaining reader.new ahead.new None)
        (record { node = node.old; held = held.old }) (record { node = node.new; held = held.new })) }
    ensures device { IfErr result (λ e. e ≡ PipeFault.Device →
        ReaderFailed (watched_tally reader.old) (watched_tally reader.new)) }
    ensures kind { IfErr result (λ e. (e ≡ PipeFault.Device) ⊎ (e ≡ PipeFault.Memory)) }
    ensures same { OnErr result (held.new ≡ held.old) }
    ensures quiet { result ≢ Err PipeFault.Device → WentOn (watched_tally reader.old) (watched_tally reader.new) }
{
    match held.peek(ahead, MOST_LINE_BYTES, reader)? {
        Next::End => Ok(false),
        Next::Line(count) => {
            let stopped = answer_line(alloc, requests, node, held, &ahead.front()[..count])?;
            ahead.take(count + 1);
            Ok(!stopped)
        }
        Next::Last(_) => {
            let _stopped = answer_line(alloc, requests, node, held, ahead.front())?;
            Ok(false)
        }
        Next::TooLong => {
            let had_end = ahead.pass_line(reader)?;
            hold_answer(alloc, held, &ClientAnswer::BadLine(LineFault::NotJson))?;
            Ok(had_end)
        }
    }
}

/// Answers a line, and holds the answer behind the others. Whether the line stops the node.
///
/// # Errors
///
/// Only for want of memory. What is held stays as it was.
#[tactic(auto, unfolding(crate::specs::Pipes::stops, crate::specs::Pipes::line_text, crate::specs::Pipes::after_line))]
fn answer_line(
    alloc: Global,
    requests: &mut RequestReader,
    node: &mut Node,
    held: &mut Held,
    line: &[u8],
) -> Result<bool, AllocError>
    ensures stops { IfOk result (λ stopped. stopped ≡ stops node.old line.now) }
    ensures text { OnOk result (held.new ≡ held.old ++ ended (line_text node.old line.now)) }
    ensures after { OnOk result (node.new ≡ after_line node.old line.now) }
    ensures same { OnErr result (held.new ≡ held.old) }
{
    let sizes = node.config().roles().sizes();
    match requests.read(&sizes, line) {
        Ok(request) => {
            let answer = answer(node, request)?;
            hold_answer(alloc, held, &answer)?;
            Ok(matches!(request, Request::Stop))
        }
        Err(LineFault::Memory) => Err(AllocError),
        Err(fault) => {
            hold_answer(alloc, held, &ClientAnswer::BadLine(fault))?;
            Ok(false)
        }
    }
}

/// Writes what is held, and then ends so.
fn finish<W: Write>(
    held: &mut Held,
    writer: &mut Watched<W>,
    ending: Result<(), PipeFault>,
) -> Result<(), PipeFault>
    ensures ended { Finished (W.contents (watched_inner writer.old)) (W.contents (watched_inner writer.new))
        held.old ending result
        (CallFailed (watched_tally writer.old) (watched_tally writer.new)) }
    ensures quiet { result ≢ Err PipeFault.Device → WentOn (watched_tally writer.old) (watched_tally writer.new) }
{
    held.write_all(writer)?;
    ending
}
