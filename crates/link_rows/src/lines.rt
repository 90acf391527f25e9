//! Rows of readers and writers: frames and lines that are read, and lines that are held.

use crate::devices::{Sink, Source, Twice, reader, writer};
use link_frames::{
    Ahead, AheadFault, Held, Next, ReadFault, Watched, read_frame, read_patiently, write_whole,
};
use row_words::{OrNone, Pair, RowFault, Words, hex_text, text_of};
use std::alloc::Global;
use std::fmt::Display;
use std::io::{ErrorKind, Read, Write};
use std::{fmt, io};

/// Bytes with a reader of them, what it was read ahead, what is held, and a writer.
#[derive(Drop)]
pub struct Lines {
    bytes: Vec<u8>,
    reader: Watched<Twice<Source>>,
    ahead: Ahead,
    held: Held,
    writer: Twice<Sink>,
}

/// `lines`: no bytes.
pub fn begin(alloc: Global) -> Result<Lines, RowFault> {
    let mut none = Words::new("");
    Ok(Lines {
        bytes: Vec::new(alloc),
        reader: Watched::new(reader(Vec::new(alloc), false, &mut none)?),
        ahead: Ahead::new(alloc),
        held: Held::new(alloc),
        writer: writer(Vec::new(alloc), false, &mut none)?,
    })
}

pub fn answer(alloc: Global, lines: &mut Lines, line: &str) -> Result<String, RowFault> {
    let mut words = Words::new(line);
    let name = words.word();
    match name {
        "bytes" | "reader" | "odd-reader" | "writer" | "odd-writer" => {
            make(alloc, lines, name, &mut words)?;
            text_of(alloc, &"ok")
        }
        "read" | "read-patiently" | "read-frame" | "counts" => {
            read(alloc, lines, name, &mut words)
        }
        "peek" | "begins" | "front" | "take" | "pass" | "held-peek" => {
            look_ahead(alloc, lines, name, &mut words)
        }
        _ => write(alloc, lines, name, &mut words),
    }
}

/// `bytes HEX`, `reader COUNT MISHAP ..` over so many first bytes, `odd-reader`, `writer MISHAP ..`, `odd-writer`.
fn make(
    alloc: Global,
    lines: &mut Lines,
    name: &str,
    words: &mut Words<'_>,
) -> Result<(), RowFault> {
    match name {
        "bytes" => lines.bytes = words.bytes(alloc)?.as_slice().to_vec(alloc)?,
        "writer" => lines.writer = writer(Vec::new(alloc), false, words)?,
        "odd-writer" => lines.writer = writer(Vec::new(alloc), true, words)?,
        "reader" => begin_reading(alloc, lines, false, words)?,
        _ => begin_reading(alloc, lines, true, words)?,
    }
    Ok(())
}

fn begin_reading(
    alloc: Global,
    lines: &mut Lines,
    is_odd: bool,
    words: &mut Words<'_>,
) -> Result<(), RowFault> {
    let count = usize::from(words.byte()?);
    let front = lines.bytes.get(..count).ok_or(RowFault::BadRow)?;
    lines.reader = Watched::new(reader(copy_of(alloc, front)?, is_odd, words)?);
    lines.ahead = Ahead::new(alloc);
    Ok(())
}

fn copy_of(alloc: Global, bytes: &[u8]) -> Result<Vec<u8>, RowFault> {
    match bytes.to_vec(alloc) {
        Ok(copy) => Ok(copy),
        Err(_) => Err(RowFault::Memory),
    }
}

fn read(
    alloc: Global,
    lines: &mut Lines,
    name: &str,
    words: &mut Words<'_>,
) -> Result<String, RowFault> {
    match name {
        "read" => read_raw(alloc, &mut lines.reader, words),
        "read-patiently" => patiently(alloc, &mut lines.reader, words),
        "read-frame" => frame_read(alloc, &mut lines.reader),
        _ => counts(alloc, &lines.reader),
    }
}

/// `read COUNT`: the bytes that came, or which error, and what the buffer then is.
fn read_raw(
    alloc: Global,
    reader: &mut Watched<Twice<Source>>,
    words: &mut Words<'_>,
) -> Result<String, RowFault> {
    let mut buffer = [0u8; 8];
    let count = usize::from(words.byte()?);
    let buffer = buffer.get_mut(..count).ok_or(RowFault::BadRow)?;
    let came = reader.read(buffer);
    read_text(alloc, &came, buffer)
}

fn read_text(alloc: Global, came: &io::Result<usize>, buffer: &[u8]) -> Result<String, RowFault> {
    match came {
        Ok(read) => hex_text(alloc, buffer.get(..*read).ok_or(RowFault::BadRow)?),
        Err(error) => error_text(alloc, error, buffer),
    }
}

fn error_text(alloc: Global, error: &io::Error, buffer: &[u8]) -> Result<String, RowFault> {
    let left = hex_text(alloc, buffer)?;
    text_of(alloc, &Pair(Kind(error.kind()), left.as_str()))
}

/// The kind of an error, as Rust names it.
#[derive(Clone, Copy)]
struct Kind(ErrorKind);

impl Display for Kind {
    fn fmt<W: fmt::Write>(&self, f: &mut fmt::Formatter<W>) -> fmt::Result {
        write!(f, "{:?}", self.0)
    }
}

/// `read-patiently COUNT`: how many bytes came.
fn patiently(
    alloc: Global,
    reader: &mut Watched<Twice<Source>>,
    words: &mut Words<'_>,
) -> Result<String, RowFault> {
    let mut buffer = [0u8; 8];
    let count = usize::from(words.byte()?);
    let buffer = buffer.get_mut(..count).ok_or(RowFault::BadRow)?;
    match read_patiently(reader, buffer) {
        Ok(read) => text_of(alloc, &read),
        Err(fault) => text_of(alloc, &fault),
    }
}

/// `read-frame`: the frame, `none` at the end, or the fault.
fn frame_read(alloc: Global, reader: &mut Watched<Twice<Source>>) -> Result<String, RowFault> {
    match read_frame(reader) {
        Ok(Some(frame)) => hex_text(alloc, &frame),
        Ok(None) => text_of(alloc, &"none"),
        Err(ReadFault::Truncated(count)) => {
            text_of(alloc, &Pair(ReadFault::Truncated(count), count))
        }
        Err(fault) => text_of(alloc, &fault),
    }
}

/// How many calls of a device failed, and how many of these were no interruptions.
#[derive(Clone, Copy)]
struct Failed {
    faults: u64,
    breaks: u64,
}

impl Display for Failed {
    fn fmt<W: fmt::Write>(&self, f: &mut fmt::Formatter<W>) -> fmt::Result {
        write!(f, "faults {} breaks {}", self.faults, self.breaks)
    }
}

/// `counts`: how many reads were made, and how many of them failed.
fn counts(alloc: Global, reader: &Watched<Twice<Source>>) -> Result<String, RowFault> {
    let failed = Failed {
        faults: reader.faults(),
        breaks: reader.breaks(),
    };
    text_of(alloc, &Pair(Pair("reads", reader.reads()), failed))
}

fn look_ahead(
    alloc: Global,
    lines: &mut Lines,
    name: &str,
    words: &mut Words<'_>,
) -> Result<String, RowFault> {
    match name {
        "peek" => peek(alloc, lines, usize::from(words.byte()?)),
        "held-peek" => held_peek(alloc, lines, usize::from(words.byte()?)),
        "begins" => begins(alloc, lines, usize::from(words.byte()?)),
        "front" => hex_text(alloc, lines.ahead.front()),
        "take" => take(alloc, lines, usize::from(words.byte()?)),
        _ => pass(alloc, lines),
    }
}

/// What comes next, as it is written.
#[derive(Clone, Copy)]
struct Coming(Next);

impl Display for Coming {
    fn fmt<W: fmt::Write>(&self, f: &mut fmt::Formatter<W>) -> fmt::Result {
        match self.0 {
            Next::Line(count) => write!(f, "line {count}"),
            Next::Last(count) => write!(f, "last {count}"),
            Next::TooLong => f.write_str("too long"),
            Next::End => f.write_str("end"),
        }
    }
}

fn peeked(alloc: Global, came: Result<Next, AheadFault>) -> Result<String, RowFault> {
    match came {
        Ok(next) => text_of(alloc, &Coming(next)),
        Err(AheadFault::Memory) => Err(RowFault::Memory),
        Err(fault) => text_of(alloc, &fault),
    }
}

/// `peek LIMIT`: how the bytes ahead begin, where a line has at most so many bytes.
fn peek(alloc: Global, lines: &mut Lines, limit: usize) -> Result<String, RowFault> {
    peeked(alloc, lines.ahead.peek(&mut lines.reader, limit))
}

/// `held-peek LIMIT`: the same, where nothing is held.
fn held_peek(alloc: Global, lines: &mut Lines, limit: usize) -> Result<String, RowFault> {
    let none = Held::new(alloc);
    peeked(alloc, none.peek(&mut lines.ahead, limit, &mut lines.reader))
}

/// `begins LIMIT`: the same, of the bytes alone that were read ahead.
fn begins(alloc: Global, lines: &Lines, limit: usize) -> Result<String, RowFault> {
    text_of(alloc, &OrNone(lines.ahead.begins(limit).map(Coming)))
}

/// `take COUNT`: uses up so many bytes.
fn take(alloc: Global, lines: &mut Lines, count: usize) -> Result<String, RowFault> {
    if count > lines.ahead.front().len() {
        return Err(RowFault::BadRow);
    }
    lines.ahead.take(count);
    text_of(alloc, &"ok")
}

/// `pass`: uses up the next line, however long. Whether it had an end.
fn pass(alloc: Global, lines: &mut Lines) -> Result<String, RowFault> {
    match lines.ahead.pass_line(&mut lines.reader) {
        Ok(true) => text_of(alloc, &"ended"),
        Ok(false) => text_of(alloc, &"end"),
        Err(AheadFault::Memory) => Err(RowFault::Memory),
        Err(fault) => text_of(alloc, &fault),
    }
}

fn write(
    alloc: Global,
    lines: &mut Lines,
    name: &str,
    words: &mut Words<'_>,
) -> Result<String, RowFault> {
    match name {
        "hold" => {
            lines.held.push_line(words.rest())?;
            text_of(alloc, &"ok")
        }
        "hold-lines" => hold_lines(alloc, &mut lines.held, words.rest()),
        "write-due" => write_due(
            alloc,
            &mut lines.held,
            &lines.ahead,
            &mut lines.writer,
            usize::from(words.byte()?),
        ),
        "write" => write_raw(alloc, &mut lines.writer, words),
        "write-whole" => whole(alloc, &mut lines.writer, words),
        "flush" => flush(alloc, &mut lines.writer),
        "written" => hex_text(alloc, lines.writer.inner().inner().bytes()),
        "made" => text_of(alloc, &lines.writer.made()),
        _ => Err(RowFault::BadRow),
    }
}

/// `hold-lines TEXT`: holds other lines, which are this one.
fn hold_lines(alloc: Global, held: &mut Held, text: &str) -> Result<String, RowFault> {
    held.push_lines(&line_held(alloc, text)?)?;
    text_of(alloc, &"ok")
}

fn line_held(alloc: Global, text: &str) -> Result<Held, RowFault> {
    let mut lines = Held::new(alloc);
    match lines.push_line(text) {
        Ok(()) => Ok(lines),
        Err(_) => Err(RowFault::Memory),
    }
}

/// `write-due LIMIT`: writes what is held if it is due.
fn write_due(
    alloc: Global,
    held: &mut Held,
    ahead: &Ahead,
    writer: &mut Twice<Sink>,
    limit: usize,
) -> Result<String, RowFault> {
    match held.write_when_due(ahead, limit, &mut Watched::new(writer)) {
        Ok(()) => text_of(alloc, &"ok"),
        Err(fault) => text_of(alloc, &fault),
    }
}

/// `write HEX`: how many bytes were taken.
fn write_raw(
    alloc: Global,
    writer: &mut Twice<Sink>,
    words: &mut Words<'_>,
) -> Result<String, RowFault> {
    let bytes = words.bytes(alloc)?;
    let mut writer = Watched::new(writer);
    match writer.write(bytes.as_slice()) {
        Ok(count) => text_of(alloc, &count),
        Err(error) => error_text(alloc, &error, bytes.as_slice()),
    }
}

/// `write-whole HEX`
fn whole(
    alloc: Global,
    writer: &mut Twice<Sink>,
    words: &mut Words<'_>,
) -> Result<String, RowFault> {
    let bytes = words.bytes(alloc)?;
    match write_whole(&mut Watched::new(writer), bytes.as_slice()) {
        Ok(()) => text_of(alloc, &"ok"),
        Err(fault) => text_of(alloc, &fault),
    }
}

/// `flush`: a flush that fails is no failed write.
fn flush(alloc: Global, writer: &mut Twice<Sink>) -> Result<String, RowFault> {
    let mut writer = Watched::new(writer);
    let kind = writer.flush().err().map(|error| error.kind());
    let failed = Failed {
        faults: writer.faults(),
        breaks: writer.breaks(),
    };
    match kind {
        None => text_of(alloc, &Pair("ok", failed)),
        Some(kind) => text_of(alloc, &Pair(Kind(kind), failed)),
    }
}
