//! A life of a node: it is restored from files, records what it lacks, syncs, and is asked.

ghost use Rattle.std.specs.Prelude.{◌≡◌, IsTrue};

use crate::events::Asked;
use crate::node::{KEY, new_node};
use crate::said::{command_text, outcome_text, sessions_text, view_text};
use batch_journal::JournalFault;
use kept_node::{Kept, Told, Unrestored, Untold, new_locked};
use node_lock::{Call, Seat, SharedNode, StepFault};
use role_node::{Event, Question};
use row_words::{RowFault, text_of};
use sqlite_disk::{Disk, Files};
use std::alloc::Global;
use std::marker::Brand;
use std::sync::ledger::{Blank, Ledger};

/// How many events are synced at a time, and what is asked at the end.
#[derive(Clone, Copy)]
pub struct Course {
    pub many: u32,
    pub asked: Asked,
}

/// What comes of a life over these files. Nothing is synced where the node is not restored.
pub fn live<D: Disk + Drop>(
    alloc: Global,
    files: Files<D>,
    events: &[Event],
    course: Course,
) -> Result<String, RowFault>
    requires beside { IsTrue (D.Disk.is_usable files.log) }
    requires usable { IsTrue (D.Disk.is_usable files.db) }
{
    live_at::<Brand, D>(alloc, Blank::new(1), files, events, course)
}

/// The same at a ledger of one part.
fn live_at<L: Ledger, D: Disk + Drop>(
    alloc: Global,
    blank: Blank,
    files: Files<D>,
    events: &[Event],
    course: Course,
) -> Result<String, RowFault>
    requires name { blank.name ≡ L.name }
    requires parts { (blank.parts ≡ L.parts) × (1 ≡ L.parts) }
    requires beside { IsTrue (D.Disk.is_usable files.log) }
    requires usable { IsTrue (D.Disk.is_usable files.db) }
{
    let (shared, mut seats) = SharedNode::<L>::new(alloc, blank, new_node(alloc)?, 1)?;
    let mut seat = seats.pop().ok_or(RowFault::BadRow)?;
    let Ok(locked) = new_locked(shared, &mut seat) else {
        return Err(RowFault::BadRow);
    };
    match Kept::restore(alloc, locked, &mut seat, &KEY, files) {
        Ok(mut kept) => lived(alloc, &mut kept, &mut seat, events, course),
        Err(fault) => unrestored(alloc, &fault),
    }
}

fn unrestored<D: Disk>(alloc: Global, fault: &Unrestored<D>) -> Result<String, RowFault> {
    match fault {
        Unrestored::Memory { .. }
        | Unrestored::Unopened {
            fault: JournalFault::Memory,
            ..
        } => Err(RowFault::Memory),
        fault => text_of(alloc, fault),
    }
}

/// What comes of a life of a node that is restored.
fn lived<L: Ledger, D: Disk>(
    alloc: Global,
    kept: &mut Kept<L, D>,
    seat: &mut Seat<L>,
    events: &[Event],
    course: Course,
) -> Result<String, RowFault> {
    record_rest(kept, seat, events, u64::from(course.many))?;
    let synced = kept.synced().upto();
    if kept.kept_node().is_none() {
        return Ok(format!(in alloc; "{synced} synced, not all")?);
    }
    match course.asked {
        Asked::Nothing => Ok(format!(in alloc; "{synced} synced")?),
        asked => {
            let said = said(alloc, kept, seat, asked)?;
            Ok(format!(in alloc; "{synced} synced: {said}")?)
        }
    }
}

/// Has a node record those of the events that it lacks, and sync so many at a time, up to the first sync that fails.
fn record_rest<L: Ledger, D: Disk>(
    kept: &mut Kept<L, D>,
    seat: &mut Seat<L>,
    events: &[Event],
    many: u64,
) -> Result<(), RowFault> {
    let all = events.len() as u64;
    let mut at = 0u64;
    let restored = kept.synced().upto();
    for event in events {
        at = at.wrapping_add(1);
        if at > restored {
            let untold = held(kept, seat, Call::Step(*event), 0)?;
            if (at % many.max(1) == 0 || at == all) && !is_synced(kept, untold)? {
                return Ok(());
            }
        }
    }
    Ok(())
}

/// A hold where there is room.
fn held<L: Ledger, D: Disk>(
    kept: &mut Kept<L, D>,
    seat: &mut Seat<L>,
    call: Call,
    place: u32,
) -> Result<Untold<L>, RowFault> {
    let me = kept.me();
    if kept.is_full() || !kept.has(me) {
        return Err(RowFault::BadRow);
    }
    match kept.hold(seat, Some(call), me, place) {
        Ok(untold) => Ok(untold),
        Err(StepFault::Memory) => Err(RowFault::Memory),
        Err(_) => Err(RowFault::BadRow),
    }
}

/// Syncs what was held, which is told after it and not before. Whether it is synced.
fn is_synced<L: Ledger, D: Disk>(
    kept: &mut Kept<L, D>,
    untold: Untold<L>,
) -> Result<bool, RowFault> {
    let Err(untold) = untold.release(&kept.synced()) else {
        return Err(RowFault::BadRow);
    };
    let Ok(synced) = kept.sync() else {
        return Ok(false);
    };
    if untold.release(&synced).is_err() {
        return Err(RowFault::BadRow);
    }
    Ok(true)
}

/// What a node says where all is synced.
fn said<L: Ledger, D: Disk>(
    alloc: Global,
    kept: &mut Kept<L, D>,
    seat: &mut Seat<L>,
    asked: Asked,
) -> Result<String, RowFault> {
    match asked {
        Asked::Question(question) => answer(alloc, kept, seat, question),
        Asked::View(place) => view(alloc, kept, seat, place),
        asked => told_by_node(alloc, kept, asked),
    }
}

fn told_by_node<L: Ledger, D: Disk>(
    alloc: Global,
    kept: &Kept<L, D>,
    asked: Asked,
) -> Result<String, RowFault> {
    let node = kept.kept_node().ok_or(RowFault::BadRow)?;
    match asked {
        Asked::Command(place) => command_text(alloc, node, place),
        _ => sessions_text(alloc, node),
    }
}

/// What is told of a question.
fn told<L: Ledger, D: Disk>(
    kept: &mut Kept<L, D>,
    seat: &mut Seat<L>,
    question: Question,
    place: u32,
) -> Result<Told, RowFault> {
    let untold = held(kept, seat, Call::Ask(question), place)?;
    untold.release(&kept.synced()).map_err(|_| RowFault::BadRow)
}

fn answer<L: Ledger, D: Disk>(
    alloc: Global,
    kept: &mut Kept<L, D>,
    seat: &mut Seat<L>,
    question: Question,
) -> Result<String, RowFault> {
    let (receipt, _) = told(kept, seat, question, 0)?.into_parts();
    match receipt {
        Some(receipt) => outcome_text(alloc, &receipt.outcome),
        None => Err(RowFault::BadRow),
    }
}

fn view<L: Ledger, D: Disk>(
    alloc: Global,
    kept: &mut Kept<L, D>,
    seat: &mut Seat<L>,
    place: u32,
) -> Result<String, RowFault> {
    let (_, view) = told(kept, seat, Question::AssignedUsers(2), place)?.into_parts();
    view_text(alloc, &view)
}
