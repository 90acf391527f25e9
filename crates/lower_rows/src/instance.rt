//! Rows of one instance of the broadcast, and of the record that is left of it.

use crate::said::Caused;
use bracha_instance::{Effect, Instance, Record, Taken};
use link_frames::Kind;
use quorum_sizes::{NodeName, Sizes};
use role_commands::Command;
use row_words::{OrNone, RowFault, Spelled, Words, text_of, yes_or_no};
use std::alloc::Global;

/// An instance, and the record that was made of it.
#[derive(Drop)]
pub struct Instances {
    sizes: Sizes,
    instance: Instance,
    record: Option<Record>,
}

/// `instance N F`: no message was taken.
pub fn begin(alloc: Global, words: &mut Words<'_>) -> Result<Instances, RowFault> {
    Ok(Instances {
        sizes: words.sizes()?,
        instance: Instance::new(alloc),
        record: None,
    })
}

pub fn answer(alloc: Global, rows: &mut Instances, line: &str) -> Result<String, RowFault> {
    let mut words = Words::new(line);
    match words.word() {
        "take" => take(alloc, rows, &mut words),
        "voted" => voted(alloc, rows, &mut words),
        "kept" => text_of(alloc, &rows.instance.kept()),
        "record" => {
            rows.record = rows.instance.record();
            yes_or_no(alloc, rows.record.is_some())
        }
        name => match &mut rows.record {
            Some(record) => of_record(alloc, record, &rows.sizes, name, &mut words),
            None => of_instance(alloc, &rows.instance, name),
        },
    }
}

fn caused(taken: Taken) -> Caused {
    Caused {
        effect: taken.effect,
        broadcast: taken.broadcast,
        delivered: taken.delivered,
    }
}

/// `take KIND FROM C`
fn take(alloc: Global, rows: &mut Instances, words: &mut Words<'_>) -> Result<String, RowFault> {
    let kind = words.kind()?;
    let from = words.node(&rows.sizes)?;
    let taken = rows
        .instance
        .take(&rows.sizes, kind, from, words.command()?)?;
    text_of(alloc, &caused(taken))
}

/// `voted KIND FROM`
fn voted(alloc: Global, rows: &Instances, words: &mut Words<'_>) -> Result<String, RowFault> {
    let kind = words.kind()?;
    let from = words.node(&rows.sizes)?;
    yes_or_no(alloc, rows.instance.voted(kind, from))
}

fn command_text(alloc: Global, command: Option<Command>) -> Result<String, RowFault> {
    text_of(alloc, &OrNone(command.map(Spelled)))
}

/// `echoed`, `readied`, `delivered`: a command, or `none`.
fn of_instance(alloc: Global, instance: &Instance, name: &str) -> Result<String, RowFault> {
    match name {
        "echoed" => command_text(alloc, instance.echoed()),
        "readied" => command_text(alloc, instance.readied()),
        "delivered" => command_text(alloc, instance.delivered()),
        _ => Err(RowFault::BadRow),
    }
}

/// The same of the record, once it was made; `late KIND FROM C`, `late-voted KIND FROM`.
fn of_record(
    alloc: Global,
    record: &mut Record,
    sizes: &Sizes,
    name: &str,
    words: &mut Words<'_>,
) -> Result<String, RowFault> {
    match name {
        "echoed" => command_text(alloc, record.echoed()),
        "readied" => command_text(alloc, record.readied()),
        "delivered" => command_text(alloc, Some(record.delivered())),
        "late" => {
            let kind = words.kind()?;
            let from = words.node(sizes)?;
            let taken = late(record, kind, from, words.command()?);
            text_of(alloc, &taken)
        }
        "late-voted" => {
            let kind = words.kind()?;
            yes_or_no(alloc, record.voted(kind, words.node(sizes)?))
        }
        _ => Err(RowFault::BadRow),
    }
}

/// What a record answers to a message.
fn late(record: &mut Record, kind: Kind, from: NodeName, command: Command) -> Caused {
    if record.voted(kind, from) {
        return Caused {
            effect: Effect::Idle,
            broadcast: None,
            delivered: None,
        };
    }
    caused(record.take_new(kind, from, command).taken(command))
}

/// For how many commands votes are kept, and what was sent.
pub fn seen(rows: &Instances) -> [u64; 3] {
    [
        u64::from(rows.instance.kept()),
        u64::from(rows.instance.echoed().is_some()),
        u64::from(rows.instance.readied().is_some()),
    ]
}
