//! The clients: lines in, answers out.

ghost use Rattle.std.specs.Prelude.{IfOk};
ghost use Rattle.link_frames.specs.lines.Aheads.{front_of};
ghost use Rattle.link_frames.specs.lines.Nexts.{Begins};

mod asked;
mod jobs;

use crate::server::Server;
use client_lines::{ClientAnswer, LineFault, MOST_LINE_BYTES, Request, RequestReader};
use frame_queues::{FrameKeys, MOST_LINES};
use link_frames::{Ahead, AheadFault, Held, Next, Watched};
use served_node::answers::hold_answer;
use served_node::{HeldNode, millis};
use server_locks::{ClientStream, Farewell, JobQueue, LineReader, Slot, hears_foreign, whole_next};
use std::io::Read;
use std::mem;
use std::net::Shutdown;
use std::sync::Wait;
use std::time::Clock;

/// For how many milliseconds in all a client is listened to that is answered no more.
const LAST_READS: u64 = 2_000;

/// The milliseconds in which a client has to take its last answers.
const LAST_WRITES: u64 = 1_000;

/// After so many bytes of a line that is too long it is looked whether its connection has given way.
const LINE_PART: u64 = 65_536;

/// What is to be done after a client's line.
#[derive(Clone, Copy, Debug, PartialEq, Eq)]
enum AfterLine {
    Continue,
    StopNode,
    Close,
}

/// A client's connection, and what its thread needs.
#[derive(Drop)]
pub struct Client<'a, 'b, N: HeldNode, K: FrameKeys, R> {
    server: &'b Server<'a, N, K, R>,
    slot: &'b Slot<'a>,
    /// The number of the slot.
    number: u32,
    stream: &'b ClientStream,
    queue: JobQueue<'a>,
    /// Whether the connection is no client's, once its first bytes have told.
    foreign: Option<bool>,
    /// How many lines were answered or have jobs since this thread last saw whether much is held.
    lines: u32,
    /// How many lines, and how many jobs, are in flight.
    in_flight: u32,
    put: u32,
    /// The last line was a question about an access.
    asked: bool,
    /// The connection had given way before this thread last waited.
    left: bool,
    requests: RequestReader,
    held: Held,
    writer: Watched<&'b ClientStream>,
}

/// Serves the connection of the client in this slot, up to its end.
pub fn answer_client<N: HeldNode, K: FrameKeys, R: Wait + Clock>(
    server: &Server<'_, N, K, R>,
    number: u32,
    stream: &ClientStream,
) {
    let Some(slot) = server.slots.get(number as usize) else {
        return;
    };
    let Some(queue) = slot.begin(server.rt) else {
        return;
    };
    let (queue, put) = Client::new(server, slot, number, stream, queue).serve_all();
    slot.free(server.rt, queue, put);
    server.wake_ports();
}

impl<'a, 'b, N: HeldNode, K: FrameKeys, R: Wait + Clock> Client<'a, 'b, N, K, R> {
    /// A connection of which nothing was read.
    fn new(
        server: &'b Server<'a, N, K, R>,
        slot: &'b Slot<'a>,
        number: u32,
        stream: &'b ClientStream,
        queue: JobQueue<'a>,
    ) -> Client<'a, 'b, N, K, R> {
        Client {
            server,
            slot,
            number,
            stream,
            queue,
            foreign: None,
            lines: 0,
            in_flight: 0,
            put: 0,
            asked: false,
            left: false,
            requests: RequestReader::new(server.alloc),
            held: Held::new(server.alloc),
            writer: Watched::new(stream),
        }
    }

    /// Answers the lines of the connection, up to its end, which may be the node's. Its way into the inbox then, and
    /// how many jobs are in flight.
    fn serve_all(mut self) -> (JobQueue<'a>, u32) {
        if self.serve() {
            self.server.end();
        }
        self.server.wake_workers();
        (self.queue, self.put)
    }
}

impl<N: HeldNode, K: FrameKeys, R: Wait + Clock> Client<'_, '_, N, K, R> {
    /// Answers the lines of the connection, up to its end. Whether one of them stops the node.
    fn serve(&mut self) -> bool {
        let mut ahead = Ahead::new(self.server.alloc);
        match self.answer_lines(&mut ahead) {
            Ok(AfterLine::StopNode) => {
                let last = Farewell::new(self.server.rt, self.stream, LAST_WRITES);
                let _ = self.held.write_all(&mut Watched::new(last));
                true
            }
            Ok(_) => {
                self.write_rest();
                false
            }
            Err(fault) => {
                if fault == AheadFault::Memory {
                    self.write_rest();
                }
                self.leaves_a_stop(&mut ahead)
            }
        }
    }

    /// Writes the answers to all lines that were put.
    fn write_rest(&mut self) {
        let _ = self.await_answers();
        let _ = self.held.write_all(&mut self.writer);
    }

    /// Whether the connection is no client's. Its first bytes are waited for once, and nothing is obeyed before.
    fn is_foreign<S: Read>(
        &mut self,
        ahead: &mut Ahead,
        reader: &mut Watched<S>,
    ) -> Result<bool, AheadFault> {
        if let Some(foreign) = self.foreign {
            return Ok(foreign);
        }
        let foreign = hears_foreign(self.server.operators, ahead, reader)?;
        self.foreign = Some(foreign);
        Ok(foreign)
    }

    /// Whether one of the lines that come within two seconds, and are answered no more, stops the node. No line of a
    /// connection that is no client's does.
    fn leaves_a_stop(&mut self, ahead: &mut Ahead) -> bool {
        if self.slot.has_given_way(self.server.rt) {
            return false;
        }
        self.begin_wait();
        let _ = self.stream.shutdown(Shutdown::Write);
        let mut reader = Watched::new(Farewell::new(self.server.rt, self.stream, LAST_READS));
        if !matches!(self.is_foreign(ahead, &mut reader), Ok(false)) {
            return false;
        }
        for _ in self.server.rt.forever() {
            if let Some(stops) = self.last_stops(ahead, &mut reader) {
                return stops;
            }
        }
        unreachable!()
    }

    /// Whether what comes next stops the node, once that is known: with a line that does, or at the end.
    fn last_stops<S: Read>(&mut self, ahead: &mut Ahead, reader: &mut Watched<S>) -> Option<bool> {
        match ahead.peek(reader, MOST_LINE_BYTES) {
            Ok(Next::Line(count)) => {
                let stops = self.is_stop(&ahead.front()[..count]);
                ahead.take(count + 1);
                if stops { Some(true) } else { None }
            }
            Ok(Next::Last(count)) => {
                Some(self.is_obeyed(Next::Last(count)) && self.is_stop(ahead.front()))
            }
            Ok(Next::TooLong) => match ahead.pass_line(reader) {
                Ok(true) => None,
                _ => Some(false),
            },
            Ok(Next::End) | Err(_) => Some(false),
        }
    }

    /// This thread waits for the end of a line from now on, and the connection may give way to another.
    fn begin_wait(&self) {
        self.slot.begin_wait(self.server.rt, millis(self.server.rt));
    }

    /// Whether what comes last, and has no end, is obeyed: half a line of a connection that has given way is not.
    fn is_obeyed(&self, last: Next) -> bool {
        let gave_way = self.slot.has_given_way(self.server.rt);
        whole_next(last, gave_way) != Next::End
    }

    fn is_stop(&mut self, line: &[u8]) -> bool {
        let sizes = self.server.keys.sizes();
        matches!(self.requests.read(&sizes, line), Ok(Request::Stop))
    }

    /// Answers the lines, up to the last. A connection that is no client's is answered once, and nothing behind its
    /// first bytes is looked at.
    fn answer_lines(&mut self, ahead: &mut Ahead) -> Result<AfterLine, AheadFault> {
        let mut reader = Watched::new(LineReader::new(self.stream, false));
        self.begin_wait();
        let foreign = self.is_foreign(ahead, &mut reader)?;
        self.slot.end_wait(self.server.rt);
        if foreign {
            self.say(&ClientAnswer::BadLine(LineFault::NotJson))?;
            return Ok(AfterLine::Close);
        }
        for _ in self.server.rt.forever() {
            let then = self.answer_next(ahead)?;
            if then != AfterLine::Continue {
                return Ok(then);
            }
        }
        unreachable!()
    }

    /// Waits for what comes next. All that is due is written first. Where the client asks one question after another,
    /// this thread looks for the next one before it sleeps.
    fn wait_for_next(&mut self, ahead: &mut Ahead) -> Result<Next, AheadFault>
        ensures { IfOk result (Begins MOST_LINE_BYTES (front_of ahead.new)) }
    {
        self.lines = 0;
        self.await_answers()?;
        self.held
            .write_when_due(ahead, MOST_LINE_BYTES, &mut self.writer)?;
        self.begin_wait();
        let mut reader = Watched::new(LineReader::new(self.stream, self.asked));
        let next = self.held.peek(ahead, MOST_LINE_BYTES, &mut reader)?;
        if next != Next::TooLong {
            self.slot.end_wait(self.server.rt);
        }
        Ok(next)
    }

    /// Answers what comes next.
    fn answer_next(&mut self, ahead: &mut Ahead) -> Result<AfterLine, AheadFault> {
        let next = match ahead.begins(MOST_LINE_BYTES) {
            Some(Next::Line(count)) if self.lines < MOST_LINES => Next::Line(count),
            None if self.has_left() => return Ok(AfterLine::Close),
            _ => self.wait_for_next(ahead)?,
        };
        match next {
            Next::End => Ok(AfterLine::Close),
            Next::Line(count) => {
                let then = self.answer_line(&ahead.front()[..count])?;
                ahead.take(count + 1);
                Ok(then)
            }
            Next::Last(_) => self.answer_last(ahead, next),
            Next::TooLong => self.answer_long(ahead),
        }
    }

    /// Whether the connection had given way when this thread last asked. So what it had sent by then is read once more,
    /// and not what it goes on sending.
    fn has_left(&mut self) -> bool {
        let gave_way = self.slot.has_given_way(self.server.rt);
        mem::replace(&mut self.left, gave_way)
    }

    /// Answers the last line, which has no end, if it is obeyed.
    fn answer_last(&mut self, ahead: &mut Ahead, last: Next) -> Result<AfterLine, AheadFault> {
        if !self.is_obeyed(last) {
            return Ok(AfterLine::Close);
        }
        match self.answer_line(ahead.front())? {
            AfterLine::Continue => Ok(AfterLine::Close),
            after => Ok(after),
        }
    }

    /// Answers a line that is too long, once it is read to its end, for which this thread has waited.
    fn answer_long(&mut self, ahead: &mut Ahead) -> Result<AfterLine, AheadFault> {
        let had_end = self.pass_line(ahead)?;
        self.slot.end_wait(self.server.rt);
        self.say(&ClientAnswer::BadLine(LineFault::NotJson))?;
        if had_end {
            Ok(AfterLine::Continue)
        } else {
            Ok(AfterLine::Close)
        }
    }

    /// Reads a line to its end, unless the connection gives way before. Whether it had an end.
    fn pass_line(&self, ahead: &mut Ahead) -> Result<bool, AheadFault> {
        for _ in self.server.rt.forever() {
            let mut part = self.stream.take(LINE_PART);
            if ahead.pass_line(&mut Watched::new(&mut part))? {
                return Ok(true);
            }
            if part.limit() > 0 || self.slot.has_given_way(self.server.rt) {
                return Ok(false);
            }
        }
        unreachable!()
    }

    /// Answers a line, or puts a job for it.
    fn answer_line(&mut self, line: &[u8]) -> Result<AfterLine, AheadFault> {
        self.lines = self.lines.saturating_add(1);
        self.asked = false;
        if self.server.operators && asked::may_ask_decisions(line) && self.answer_decisions(line)? {
            return Ok(AfterLine::Continue);
        }
        let sizes = self.server.keys.sizes();
        match self.requests.read(&sizes, line) {
            Ok(Request::Stop) => Ok(self.stop()),
            Ok(request) => {
                self.answer(request)?;
                Ok(AfterLine::Continue)
            }
            Err(LineFault::Memory) => Err(AheadFault::Memory),
            Err(LineFault::UnknownOp) if self.server.operators => {
                self.answer_operator(line)?;
                Ok(AfterLine::Continue)
            }
            Err(fault) => {
                self.say(&ClientAnswer::BadLine(fault))?;
                Ok(AfterLine::Continue)
            }
        }
    }

    /// Answers all lines before, and that the node stops.
    fn stop(&mut self) -> AfterLine {
        self.server.wake_workers();
        if self.collect().is_ok() {
            let _ = hold_answer(self.server.alloc, &mut self.held, &ClientAnswer::Stopped);
        }
        AfterLine::StopNode
    }
}
