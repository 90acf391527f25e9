//! The words after the program's name.

use crate::entries::{Entries, EntriesFault};
use crate::fault::WordsFault;
use crate::version::{JOURNAL_VERSION, LOGIC, VERSION};
use clap::error::ErrorKind;
use clap::{Arg, ArgAction, ArgMatches, Command, Error};
use std::alloc::{AllocError, Global};

/// What the program is to do.
#[derive(Drop, Debug)]
pub enum Words {
    /// To say this: help, or the version.
    Say(String),
    /// To serve the node of this cluster file.
    Serve {
        cluster: String,
        keeping: Keeping,
        entries: Entries,
    },
    /// To begin a journal of the node of this cluster file.
    Journal {
        cluster: String,
        journal: String,
    },
    /// To say what a cluster file is, and a journal where there is one.
    Check {
        cluster: String,
        journal: Option<String>,
    },
}

/// Where a node keeps what it records.
#[derive(Drop, Debug)]
pub enum Keeping {
    /// Nowhere: a node that ends has lost it.
    InMemory,
    /// In the journal of this path.
    Journal(String),
}

/// What the words ask for.
///
/// # Errors
///
/// `Refused` where the program has no such words, with what is wrong, and `Memory`.
pub fn read_words(alloc: Global, words: Vec<String>) -> Result<Words, WordsFault> {
    let version = format!(in alloc; "{VERSION}\nlogic {LOGIC}\njournal {JOURNAL_VERSION}")?;
    let all = with_name(alloc, &words)?;
    let program = program(alloc, version.as_str())?;
    match program.try_get_matches_from(all.as_slice()) {
        Ok(matches) => asked(alloc, &matches),
        Err(error) => said(alloc, &error),
    }
}

/// What is asked for.
fn asked(alloc: Global, matches: &ArgMatches<'_>) -> Result<Words, WordsFault> {
    match matches.subcommand() {
        Some(("serve", words)) => Ok(Words::Serve {
            cluster: text(alloc, words, "cluster")?,
            keeping: kept_in(alloc, words)?,
            entries: entries(alloc, words)?,
        }),
        Some(("journal", words)) => Ok(Words::Journal {
            cluster: text(alloc, words, "cluster")?,
            journal: text(alloc, words, "journal")?,
        }),
        Some(("check", words)) => Ok(Words::Check {
            cluster: text(alloc, words, "cluster")?,
            journal: journal(alloc, words)?,
        }),
        _ => Err(WordsFault::Refused(String::new(alloc))),
    }
}

/// What `clap` says in place of matches: help or the version, or what is wrong.
fn said(alloc: Global, error: &Error) -> Result<Words, WordsFault> {
    match error.kind() {
        ErrorKind::OutOfMemory => Err(WordsFault::Memory),
        ErrorKind::DisplayHelp | ErrorKind::DisplayVersion => {
            Ok(Words::Say(format!(in alloc; "{error}")?))
        }
        _ => Err(WordsFault::Refused(format!(in alloc; "{error}")?)),
    }
}

/// The text of a word that is required.
fn text(alloc: Global, words: &ArgMatches<'_>, name: &str) -> Result<String, WordsFault> {
    match words.get_str(name) {
        Some(word) => Ok(String::from_str(alloc, word)?),
        None => Err(WordsFault::Refused(String::new(alloc))),
    }
}

/// The path of the journal, where there is one.
fn journal(alloc: Global, words: &ArgMatches<'_>) -> Result<Option<String>, WordsFault> {
    path(alloc, words, "journal")
}

/// The path behind a word, where it is said.
fn path(alloc: Global, words: &ArgMatches<'_>, name: &str) -> Result<Option<String>, WordsFault> {
    match words.get_str(name) {
        Some(word) => Ok(Some(String::from_str(alloc, word)?)),
        None => Ok(None),
    }
}

/// Through which doors clients come. A node without any is refused, and a socket's path that no address can have.
fn entries(alloc: Global, words: &ArgMatches<'_>) -> Result<Entries, WordsFault> {
    let entries = Entries {
        port: !words.get_flag("no-port"),
        socket: path(alloc, words, "socket")?,
    };
    match entries.fault() {
        None => Ok(entries),
        Some(EntriesFault::NoDoor) => refused(alloc, "--no-port stands beside --socket only\n"),
        Some(EntriesFault::Path) => refused(alloc, "--socket: a path of 1 to 107 bytes\n"),
    }
}

fn refused(alloc: Global, why: &str) -> Result<Entries, WordsFault> {
    Err(WordsFault::Refused(String::from_str(alloc, why)?))
}

/// Where a node that is served keeps what it records: one of the two is said, and not both.
fn kept_in(alloc: Global, words: &ArgMatches<'_>) -> Result<Keeping, WordsFault> {
    match (journal(alloc, words)?, words.get_flag("in-memory")) {
        (Some(path), false) => Ok(Keeping::Journal(path)),
        (None, true) => Ok(Keeping::InMemory),
        _ => Err(WordsFault::Refused(String::new(alloc))),
    }
}

/// The program's words.
fn program<'a>(alloc: Global, version: &'a str) -> Result<Command<'a>, AllocError> {
    let program = Command::new(alloc, "tundelca")
        .about("A node of a registry of roles")
        .version(VERSION)
        .long_version(version)
        .subcommand_required(true);
    let serving = program.subcommand(serve_words(alloc)?)?;
    let beginning = serving.subcommand(journal_words(alloc)?)?;
    beginning.subcommand(check_words(alloc)?)
}

fn serve_words<'a>(alloc: Global) -> Result<Command<'a>, AllocError> {
    let serve = Command::new(alloc, "serve")
        .about("Serves a node")
        .arg(cluster_word(alloc))?;
    let kept = serve.arg(journal_word(alloc).required_unless_present("in-memory")?)?;
    let kept = kept.arg(in_memory_word(alloc)?)?;
    kept.arg(socket_word(alloc))?.arg(no_port_word(alloc))
}

fn journal_words<'a>(alloc: Global) -> Result<Command<'a>, AllocError> {
    Command::new(alloc, "journal")
        .about("Begins a node's journal, once for a cluster number")
        .arg(cluster_word(alloc))?
        .arg(journal_word(alloc).required(true))
}

fn check_words<'a>(alloc: Global) -> Result<Command<'a>, AllocError> {
    Command::new(alloc, "check")
        .about("Says what a cluster file is, and a journal that no node has open")
        .arg(cluster_word(alloc))?
        .arg(journal_word(alloc))
}

fn in_memory_word<'a>(alloc: Global) -> Result<Arg<'a>, AllocError> {
    Arg::new(alloc, "in-memory")
        .long("in-memory")
        .help("Keeps nothing over its end")
        .action(ArgAction::SetTrue)
        .conflicts_with("journal")
}

fn socket_word<'a>(alloc: Global) -> Arg<'a> {
    Arg::new(alloc, "socket")
        .long("socket")
        .value_name("PATH")
        .help("Takes clients' lines at a socket too")
        .action(ArgAction::Set)
}

fn no_port_word<'a>(alloc: Global) -> Arg<'a> {
    Arg::new(alloc, "no-port")
        .long("no-port")
        .help("Takes none at the cluster file's client port")
        .action(ArgAction::SetTrue)
}

fn cluster_word<'a>(alloc: Global) -> Arg<'a> {
    Arg::new(alloc, "cluster")
        .long("cluster")
        .value_name("FILE")
        .help("The node's cluster file")
        .required(true)
        .action(ArgAction::Set)
}

fn journal_word<'a>(alloc: Global) -> Arg<'a> {
    Arg::new(alloc, "journal")
        .long("journal")
        .value_name("FILE")
        .help("The node's journal")
        .action(ArgAction::Set)
}

/// The words behind the program's name.
fn with_name(alloc: Global, words: &[String]) -> Result<Vec<&str>, AllocError> {
    let mut all = Vec::new(alloc);
    all.push("tundelca")?;
    for word in words {
        all.push(word.as_str())?;
    }
    Ok(all)
}
