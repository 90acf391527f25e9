//! Rows of lines: what a client's or an operator's line is read as.

use crate::bytes::bytes_of;
use crate::request_texts::{Asked, OperatorAsked};
use client_lines::{LineFault, RequestReader, read_request};
use operator_lines::{OperatorFault, read_operator};
use quorum_sizes::Sizes;
use row_words::{RowFault, Words, text_of};
use std::alloc::Global;
use std::fmt;
use std::fmt::Display;

/// The lines of clients and operators that a node of a cluster of these sizes reads.
#[derive(Drop)]
pub struct Lines {
    sizes: Sizes,
    reader: RequestReader,
}

/// `requests N F`
pub fn begin(alloc: Global, words: &mut Words<'_>) -> Result<Lines, RowFault> {
    Ok(Lines {
        sizes: words.sizes()?,
        reader: RequestReader::new(alloc),
    })
}

pub fn answer(alloc: Global, lines: &mut Lines, line: &str) -> Result<String, RowFault> {
    let mut words = Words::new(line);
    match words.word() {
        "client" => client(alloc, lines, words.rest()),
        "next" => next(alloc, lines, words.rest()),
        "operator" => operator(alloc, lines, words.rest()),
        _ => Err(RowFault::BadRow),
    }
}

/// `client LINE`, by a reader that has read no other line.
fn client(alloc: Global, lines: &Lines, line: &str) -> Result<String, RowFault> {
    let bytes = bytes_of(alloc, line)?;
    match read_request(alloc, &lines.sizes, &bytes) {
        Ok(request) => text_of(alloc, &Asked(request)),
        Err(fault) => line_fault_text(alloc, fault),
    }
}

/// `next LINE`, by the reader of the lines `next` before it.
fn next(alloc: Global, lines: &mut Lines, line: &str) -> Result<String, RowFault> {
    let bytes = bytes_of(alloc, line)?;
    match lines.reader.read(&lines.sizes, &bytes) {
        Ok(request) => text_of(alloc, &Asked(request)),
        Err(fault) => line_fault_text(alloc, fault),
    }
}

/// `operator LINE`; `none` where the line is no operator's.
fn operator(alloc: Global, lines: &Lines, line: &str) -> Result<String, RowFault> {
    let bytes = bytes_of(alloc, line)?;
    match read_operator(alloc, &lines.sizes, &bytes) {
        Ok(Some(request)) => text_of(alloc, &OperatorAsked(request)),
        Ok(None) => text_of(alloc, &"none"),
        Err(fault) => operator_fault_text(alloc, fault),
    }
}

/// A fault, and the member that it is about.
#[derive(Clone, Copy)]
struct Faulty<F, M>(F, Option<M>);

impl<F: Display, M: Display> Display for Faulty<F, M> {
    fn fmt<W: fmt::Write>(&self, f: &mut fmt::Formatter<W>) -> fmt::Result {
        match &self.1 {
            Some(member) => write!(f, "{} {member}", self.0),
            None => write!(f, "{}", self.0),
        }
    }
}

fn line_fault_text(alloc: Global, fault: LineFault) -> Result<String, RowFault> {
    if fault == LineFault::Memory {
        return Err(RowFault::Memory);
    }
    text_of(alloc, &Faulty(fault, fault.member()))
}

fn operator_fault_text(alloc: Global, fault: OperatorFault) -> Result<String, RowFault> {
    match fault.member() {
        Some(member) => text_of(alloc, &Faulty(fault, Some(member))),
        None => Err(RowFault::Memory),
    }
}
