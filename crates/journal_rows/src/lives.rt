//! Rows of a node that is kept: of lives, each of which restores it from the file and goes on.

use crate::batches::record;
use crate::events::{Asked, event_of, read_asked};
use crate::files::{PATH, bytes, unopened, write};
use crate::life::{Course, live};
use crate::node::{KEY, config, sizes};
use crate::runs::Runs;
use batch_journal::{Journal, JournalFault};
use kept_node::head_of;
use role_node::{ClientEvent, Event};
use row_words::{RowFault, Words, text_of};
use sqlite_disk::{Disk, Files, Fuse};
use sqlite_std_file::{Unknown, open};
use std::alloc::{AllocError, Global};

/// How many calls a disk beside the journal's may have: enough.
const ENOUGH: u64 = 100;

/// What the node is to record in all its lives.
#[derive(Drop)]
pub struct LifeRows {
    events: Vec<Event>,
}

impl LifeRows {
    /// Nothing.
    pub fn new(alloc: Global) -> LifeRows {
        LifeRows {
            events: Vec::new(alloc),
        }
    }
}

pub fn answer(rt: &HostRuntime, rows: &mut LifeRows, line: &str) -> Result<String, RowFault> {
    let mut words = Words::new(line);
    let name = words.word();
    match name {
        "begin" => begin(rt, &mut words),
        "life" => life(rt, rows, &mut words),
        "fuses" => fuses(rt, rows, &mut words),
        "openings" => {
            add_openings(&mut rows.events, words.wide()?)?;
            text_of(rt.alloc(), &rows.events.len())
        }
        _ => add(rt.alloc(), rows, name, &mut words),
    }
}

/// An event more, as `event_of` has them. How many there are.
fn add(
    alloc: Global,
    rows: &mut LifeRows,
    name: &str,
    words: &mut Words<'_>,
) -> Result<String, RowFault> {
    let (sizes, me) = sizes()?;
    rows.events.push(event_of(&sizes, me, name, words)?)?;
    text_of(alloc, &rows.events.len())
}

/// So many sessions are opened, and each is closed.
fn add_openings(events: &mut Vec<Event>, count: u32) -> Result<(), AllocError> {
    for user in 0..count {
        let session = u64::from(user) + 1;
        events.push(Event::Client(ClientEvent::Open { user }))?;
        events.push(Event::Client(ClientEvent::Close { session, user }))?;
    }
    Ok(())
}

/// `begin DIGITS`: the node's journal is begun, with a batch of these digits where there are any.
fn begin(rt: &HostRuntime, words: &mut Words<'_>) -> Result<String, RowFault> {
    let alloc = rt.alloc();
    let digits = words.bytes(alloc)?;
    let (config, me) = config(alloc)?;
    let head = head_of(alloc, &config, me)?;
    match open(rt, PATH, Unknown) {
        Ok(files) => match Journal::begin(alloc, files, &KEY, head) {
            Ok(mut journal) => with_batch(alloc, &mut journal, digits.as_slice()),
            Err((fault, _)) => fault_text(alloc, fault),
        },
        Err(error) => unopened(alloc, error),
    }
}

fn with_batch<D: Disk>(
    alloc: Global,
    journal: &mut Journal<D>,
    digits: &[u8],
) -> Result<String, RowFault> {
    if digits.is_empty() {
        return text_of(alloc, &"begun");
    }
    match record(journal, digits) {
        Ok(()) => text_of(alloc, &"begun"),
        Err(fault) => fault_text(alloc, fault),
    }
}

fn fault_text(alloc: Global, fault: JournalFault) -> Result<String, RowFault> {
    match fault {
        JournalFault::Memory => Err(RowFault::Memory),
        fault => text_of(alloc, &fault),
    }
}

/// `life MANY ..`: the node is restored, records those of the events that it lacks, and syncs so many at a time. How many
/// are synced then, and behind it what it says to what is asked.
fn life(rt: &HostRuntime, rows: &LifeRows, words: &mut Words<'_>) -> Result<String, RowFault> {
    let many = words.wide()?;
    let course = Course {
        many,
        asked: read_asked(words)?,
    };
    match open(rt, PATH, Unknown) {
        Ok(files) => live(rt.alloc(), files, rows.events.as_slice(), course),
        Err(error) => unopened(rt.alloc(), error),
    }
}

/// `fuses FROM TO MANY`: lives over what the file holds now, where each call of the disk fails from this one on, each
/// followed by a life that records nothing. How many events are synced in both.
fn fuses(rt: &HostRuntime, rows: &LifeRows, words: &mut Words<'_>) -> Result<String, RowFault> {
    let from = words.wide()?;
    let to = words.wide()?;
    let many = words.wide()?;
    let begun = bytes(rt)?;
    let mut runs = Runs::new(rt.alloc());
    for calls in from..=to {
        write(rt, &begun)?;
        runs.push(calls as usize, two_lives(rt, rows, u64::from(calls), many)?)?;
    }
    Ok(runs.into_text()?)
}

fn two_lives(rt: &HostRuntime, rows: &LifeRows, calls: u64, many: u32) -> Result<String, RowFault> {
    let first = fused(rt, rows, calls, many)?;
    let next = match open(rt, PATH, Unknown) {
        Ok(files) => live(rt.alloc(), files, &[], silent(1))?,
        Err(error) => unopened(rt.alloc(), error)?,
    };
    Ok(format!(in rt.alloc(); "{first}, then {next}")?)
}

/// A life in which each call of the disk fails from this one on.
fn fused(rt: &HostRuntime, rows: &LifeRows, calls: u64, many: u32) -> Result<String, RowFault> {
    match open(rt, PATH, Unknown) {
        Ok(Files { log, db }) => {
            let files = Files {
                log: Fuse::new(log, ENOUGH),
                db: Fuse::new(db, calls),
            };
            live(rt.alloc(), files, rows.events.as_slice(), silent(many))
        }
        Err(error) => unopened(rt.alloc(), error),
    }
}

/// A life at whose end nothing is asked.
fn silent(many: u32) -> Course {
    Course {
        many,
        asked: Asked::Nothing,
    }
}
