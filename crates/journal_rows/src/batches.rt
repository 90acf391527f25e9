//! Rows of a journal of batches.

use crate::files::{PATH, bytes, unopened, write, write_beside};
use crate::head::{change, copy_of, fault_named, first_head};
use crate::runs::{digits, digits_text};
use crate::trials;
use batch_journal::{Head, Journal, JournalFault, MOST_DIGITS, are_digits, read};
use row_words::{RowFault, Words, text_of};
use sqlite_disk::Disk;
use sqlite_std_file::{File, Unknown, open};
use std::alloc::{AllocError, Global};

/// What a journal is opened with, the journal that is open, and bytes of its file that are kept.
#[derive(Drop)]
pub struct BatchRows {
    pub head: Head,
    pub key: [u8; 32],
    journal: Option<Journal<File>>,
    pub kept: Vec<u8>,
}

impl BatchRows {
    /// Nothing is open.
    pub fn new(alloc: Global) -> Result<BatchRows, AllocError> {
        Ok(BatchRows {
            head: first_head(alloc)?,
            key: [7; 32],
            journal: None,
            kept: Vec::new(alloc),
        })
    }
}

pub fn answer(rt: &HostRuntime, rows: &mut BatchRows, line: &str) -> Result<String, RowFault> {
    let mut words = Words::new(line);
    let name = words.word();
    match name {
        "begin" => begin(rt, rows),
        "open" => opened(rt, rows),
        "read" => found(rt, rows),
        "record" => recorded(rt.alloc(), rows, &mut words),
        "said" => text_of(rt.alloc(), &fault_named(words.word())?),
        "cuts" | "flips" | "zeros" | "fuses" => trials::answer(rt, rows, name, &mut words),
        _ => {
            set(rt, rows, name, &mut words)?;
            text_of(rt.alloc(), &"ok")
        }
    }
}

/// What is answered with `ok`.
fn set(
    rt: &HostRuntime,
    rows: &mut BatchRows,
    name: &str,
    words: &mut Words<'_>,
) -> Result<(), RowFault> {
    match name {
        "close" => rows.journal = None,
        "keep" => rows.kept = bytes(rt)?,
        "back" => write(rt, &rows.kept)?,
        "cut" | "flip" | "zero" => trials::write_changed(rt, &mut rows.kept, name, words)?,
        "beside" => write_beside(rt, words.bytes(rt.alloc())?.as_slice())?,
        "head" => change(rt.alloc(), &mut rows.head, words)?,
        "key" => rows.key = [words.byte()?; 32],
        _ => return Err(RowFault::BadRow),
    }
    Ok(())
}

/// A journal's fault, with the number of the batch that is damaged.
pub fn refused(alloc: Global, fault: JournalFault) -> Result<String, RowFault> {
    match fault {
        JournalFault::Memory => Err(RowFault::Memory),
        JournalFault::Damaged { batch } => Ok(format!(in alloc; "{fault} {batch}")?),
        fault => text_of(alloc, &fault),
    }
}

/// `begin`: a journal is begun, and stays open.
fn begin(rt: &HostRuntime, rows: &mut BatchRows) -> Result<String, RowFault> {
    let alloc = rt.alloc();
    let head = copy_of(alloc, &rows.head)?;
    match open(rt, PATH, Unknown) {
        Ok(files) => match Journal::begin(alloc, files, &rows.key, head) {
            Ok(journal) => {
                rows.journal = Some(journal);
                text_of(alloc, &"begun")
            }
            Err((fault, _)) => refused(alloc, fault),
        },
        Err(error) => unopened(alloc, error),
    }
}

/// `open`: a journal is opened, and stays so. The digits of its batches.
fn opened(rt: &HostRuntime, rows: &mut BatchRows) -> Result<String, RowFault> {
    let alloc = rt.alloc();
    let head = copy_of(alloc, &rows.head)?;
    match open(rt, PATH, Unknown) {
        Ok(files) => match Journal::open(alloc, files, &rows.key, head) {
            Ok((journal, digits)) => {
                rows.journal = Some(journal);
                Ok(digits_text(alloc, &digits)?)
            }
            Err((fault, _)) => refused(alloc, fault),
        },
        Err(error) => unopened(alloc, error),
    }
}

/// `read`: what the file stands for.
fn found(rt: &HostRuntime, rows: &BatchRows) -> Result<String, RowFault> {
    let alloc = rt.alloc();
    let head = copy_of(alloc, &rows.head)?;
    match open(rt, PATH, Unknown) {
        Ok(mut files) => match read(alloc, &mut files, &rows.key, &head) {
            Ok(found) => Ok(format!(in alloc;
                "batches {} end {} size {} digits {}",
                found.count,
                found.end,
                found.size,
                digits_text(alloc, &found.digits)?
            )?),
            Err(fault) => refused(alloc, fault),
        },
        Err(error) => unopened(alloc, error),
    }
}

/// `record COUNT`: a batch of so many digits is written and synced.
fn recorded(
    alloc: Global,
    rows: &mut BatchRows,
    words: &mut Words<'_>,
) -> Result<String, RowFault> {
    let batch = digits(alloc, words.byte()?)?;
    match &mut rows.journal {
        Some(journal) => match record(journal, &batch) {
            Ok(()) => text_of(alloc, &"recorded"),
            Err(fault) => refused(alloc, fault),
        },
        None => Err(RowFault::BadRow),
    }
}

/// Writes a batch and syncs it.
pub fn record<D: Disk>(journal: &mut Journal<D>, batch: &[u8]) -> Result<(), JournalFault> {
    if !journal.is_synced() || batch.len() > MOST_DIGITS || !are_digits(batch) {
        return Err(JournalFault::Full);
    }
    journal.make_room(batch.len())?;
    journal.write(batch)?;
    journal.sync()
}
