//! Rows of a journal's file that is cut or changed at many places, or whose disk fails.

ghost use Rattle.std.specs.Prelude.{IsTrue};

use crate::batches::{BatchRows, record, refused};
use crate::changes::{Change, change_at, length_after, put_back};
use crate::files::{PATH, unopened, write};
use crate::head::copy_of;
use crate::runs::{Runs, digits, digits_text};
use batch_journal::{Journal, read_journal};
use row_words::{RowFault, Words};
use sqlite_disk::{Disk, Files, Fuse};
use sqlite_std_file::{Unknown, open};
use std::alloc::Global;

/// How many calls a disk beside the journal's may have: enough.
const ENOUGH: u64 = 100;

pub fn answer(
    rt: &HostRuntime,
    rows: &mut BatchRows,
    name: &str,
    words: &mut Words<'_>,
) -> Result<String, RowFault> {
    match name {
        "cuts" => sweep(rt, rows, Change::Cut, words),
        "flips" => sweep(rt, rows, Change::Flip(2), words),
        "zeros" => sweep(rt, rows, Change::Zero, words),
        _ => fuses(rt, rows, words),
    }
}

/// `cut AT`, `flip AT BIT`, `zero AT`: the file gets the kept bytes with this change.
pub fn write_changed(
    rt: &HostRuntime,
    kept: &mut [u8],
    name: &str,
    words: &mut Words<'_>,
) -> Result<(), RowFault> {
    let at = words.wide()? as usize;
    let change = match name {
        "cut" => Change::Cut,
        "flip" => Change::Flip(u32::from(words.byte()?)),
        _ => Change::Zero,
    };
    let before = change_at(kept, change, at)?;
    let length = length_after(kept.len(), change, at);
    let written = write(rt, kept.get(..length).unwrap_or(&[]));
    put_back(kept, at, before);
    written
}

/// The places that are gone over, and whether each trial opens the file or reads the bytes alone.
#[derive(Clone, Copy)]
struct Places {
    opens: bool,
    from: u32,
    to: u32,
    step: u32,
}

/// `read FROM TO STEP`, or `open` in the place of `read`.
fn places_of(words: &mut Words<'_>) -> Result<Places, RowFault> {
    let opens = match words.word() {
        "open" => true,
        "read" => false,
        _ => return Err(RowFault::BadRow),
    };
    let from = words.wide()?;
    let to = words.wide()?;
    let step = words.wide()?;
    Ok(Places {
        opens,
        from,
        to,
        step,
    })
}

/// What comes of the kept bytes with a change at one place after another.
fn sweep(
    rt: &HostRuntime,
    rows: &mut BatchRows,
    change: Change,
    words: &mut Words<'_>,
) -> Result<String, RowFault> {
    let places = places_of(words)?;
    let mut runs = Runs::new(rt.alloc());
    for at in places.from..=places.to {
        if (at - places.from) % places.step.max(1) == 0 {
            try_at(rt, rows, places.opens, change, at as usize, &mut runs)?;
        }
    }
    Ok(runs.into_text()?)
}

/// The trials at one place: one, or where bytes are read one for each bit.
fn try_at(
    rt: &HostRuntime,
    rows: &mut BatchRows,
    opens: bool,
    change: Change,
    at: usize,
    runs: &mut Runs,
) -> Result<(), RowFault> {
    match change {
        Change::Flip(_) if !opens => {
            for bit in 0..8u32 {
                runs.push(at, try_one(rt, rows, opens, Change::Flip(bit), at)?)?;
            }
        }
        _ => runs.push(at, try_one(rt, rows, opens, change, at)?)?,
    }
    Ok(())
}

fn try_one(
    rt: &HostRuntime,
    rows: &mut BatchRows,
    opens: bool,
    change: Change,
    at: usize,
) -> Result<String, RowFault> {
    let before = change_at(&mut rows.kept, change, at)?;
    let length = length_after(rows.kept.len(), change, at);
    let came = come_of(rt, rows, opens, length);
    put_back(&mut rows.kept, at, before);
    came
}

/// What so many of the kept bytes are opened or read as.
fn come_of(
    rt: &HostRuntime,
    rows: &BatchRows,
    opens: bool,
    length: usize,
) -> Result<String, RowFault> {
    let bytes = rows.kept.as_slice().get(..length).unwrap_or(&[]);
    if opens {
        write(rt, bytes)?;
        return opened(rt, rows);
    }
    let head = copy_of(rt.alloc(), &rows.head)?;
    match read_journal(rt.alloc(), &rows.key, &head, bytes) {
        Ok(found) => Ok(format!(in rt.alloc(); "batches {}", found.count)?),
        Err(fault) => refused(rt.alloc(), fault),
    }
}

/// The digits of the batches of a file that is opened and closed again.
fn opened(rt: &HostRuntime, rows: &BatchRows) -> Result<String, RowFault> {
    let alloc = rt.alloc();
    let head = copy_of(alloc, &rows.head)?;
    match open(rt, PATH, Unknown) {
        Ok(files) => match Journal::open(alloc, files, &rows.key, head) {
            Ok((_, digits)) => Ok(digits_text(alloc, &digits)?),
            Err((fault, _)) => refused(alloc, fault),
        },
        Err(error) => unopened(alloc, error),
    }
}

/// `fuses FROM TO`: the kept bytes are opened and two batches of five digits recorded, where each call of the disk
/// fails from this one on. How many of the two were synced, and the digits that are found then.
fn fuses(
    rt: &HostRuntime,
    rows: &mut BatchRows,
    words: &mut Words<'_>,
) -> Result<String, RowFault> {
    let from = words.wide()?;
    let to = words.wide()?;
    let mut runs = Runs::new(rt.alloc());
    for calls in from..=to {
        runs.push(calls as usize, fused(rt, rows, u64::from(calls))?)?;
    }
    Ok(runs.into_text()?)
}

fn fused(rt: &HostRuntime, rows: &BatchRows, calls: u64) -> Result<String, RowFault> {
    write(rt, &rows.kept)?;
    let synced = match open(rt, PATH, Unknown) {
        Ok(Files { log, db }) => {
            let files = Files {
                log: Fuse::new(log, ENOUGH),
                db: Fuse::new(db, calls),
            };
            record_two(rt.alloc(), rows, files)?
        }
        Err(error) => return unopened(rt.alloc(), error),
    };
    let found = opened(rt, rows)?;
    Ok(format!(in rt.alloc(); "{synced} synced, found {found}")?)
}

/// Opens a journal and records two batches, up to the first call that fails: how many are synced.
fn record_two<D: Disk + Drop>(
    alloc: Global,
    rows: &BatchRows,
    files: Files<D>,
) -> Result<u8, RowFault>
    requires beside { IsTrue (D.Disk.is_usable files.log) }
    requires usable { IsTrue (D.Disk.is_usable files.db) }
{
    let head = copy_of(alloc, &rows.head)?;
    match Journal::open(alloc, files, &rows.key, head) {
        Ok((mut journal, _)) => record_up_to_two(alloc, &mut journal),
        Err(_) => Ok(0),
    }
}

fn record_up_to_two<D: Disk>(alloc: Global, journal: &mut Journal<D>) -> Result<u8, RowFault> {
    let batch = digits(alloc, 5)?;
    for synced in 0..2u8 {
        if record(journal, &batch).is_err() {
            return Ok(synced);
        }
    }
    Ok(2)
}
