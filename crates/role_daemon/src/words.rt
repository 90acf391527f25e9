//! The words after the program's name.

use crate::fault::WordsFault;
use clap::error::ErrorKind;
use clap::{Arg, ArgAction, Command, Error};
use std::alloc::{AllocError, Global};

/// What the program is to do.
#[derive(Drop, Debug)]
pub enum Words {
    /// To run the pipe.
    Pipe,
    /// To serve the node of this cluster file.
    Serve { file: String },
}

/// What the words ask for: none the pipe, and `serve --cluster FILE` a node over TCP.
///
/// # Errors
///
/// `Refused` where the program has no such words, help among them, and `Memory`.
pub fn read_words(alloc: Global, words: Vec<String>) -> Result<Words, WordsFault> {
    let all = with_name(alloc, &words)?;
    match parsed(alloc, &all) {
        Ok(Some(file)) => Ok(Words::Serve {
            file: String::from_str(alloc, file)?,
        }),
        Ok(None) => Ok(Words::Pipe),
        Err(error) => {
            if error.kind() == ErrorKind::OutOfMemory {
                Err(WordsFault::Memory)
            } else {
                Err(WordsFault::Refused)
            }
        }
    }
}

/// The cluster file of the words, where they serve.
fn parsed<'a>(alloc: Global, words: &'a [&'a str]) -> Result<Option<&'a str>, Error> {
    let file = Arg::new(alloc, "cluster")
        .long("cluster")
        .required(true)
        .action(ArgAction::Set);
    let serve = Command::new(alloc, "serve").arg(file)?;
    let program = Command::new(alloc, "role_daemon").subcommand(serve)?;
    let matches = program.try_get_matches_from(words)?;
    match matches.subcommand_matches("serve") {
        Some(serve) => Ok(serve.get_str("cluster")),
        None => Ok(None),
    }
}

/// The words behind the program's name.
fn with_name(alloc: Global, words: &[String]) -> Result<Vec<&str>, AllocError> {
    let mut all = Vec::new(alloc);
    all.push("role_daemon")?;
    for word in words {
        all.push(word.as_str())?;
    }
    Ok(all)
}
