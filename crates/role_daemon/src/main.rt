//! A node of the registry. Without words it is a pipe: the first line on standard input is a cluster text of one
//! node, and each later one is a client's line, with one line of answer on standard output.
//!
//! `cluster_text` says what a cluster text sets up, `line_pipe` what running the pipe does, and `node_server` serves.
#![tactic(auto)]

ghost use Rattle.std.specs.Prelude.{IfOk};
ghost use Rattle.cluster_text.specs.Setups.{IsNodeSetup, IsServerSetup};

pub mod fault;
pub mod serve;
pub mod words;

use cluster::Setup;
use cluster_file::read_setup;
pub use cluster_text::{cluster, cluster_file};
use fault::{DaemonFault, FileFault, WordsFault};
pub use line_pipe::pipe;
use link_frames::Watched;
use pipe::run_pipe;
use serve::serve;
use std::fs::File;
use std::io::ErrorKind;
use std::process::ExitCode;
use std::{env, io};
use words::{Words, read_words};

fn main(rt: HostRuntime) -> ExitCode {
    let outcome = match words_given(&rt) {
        Ok(Words::Pipe) => run(&rt),
        Ok(Words::Serve { file }) => match setup_of(&rt, &file) {
            Ok(setup) => serve(&rt, rt.alloc(), setup).map_err(DaemonFault::Serve),
            Err(fault) => Err(DaemonFault::File(fault)),
        },
        Err(fault) => Err(DaemonFault::Words(fault)),
    };
    match outcome {
        Ok(()) => ExitCode::SUCCESS,
        Err(fault) => report(&rt, &fault),
    }
}

/// The status with which the program ends at a fault, which is said where it is about what the program was given.
fn report(rt: &HostRuntime, fault: &DaemonFault) -> ExitCode {
    if fault.is_said() {
        let _ = eprintln!(rt; "role_daemon: {fault}");
    }
    ExitCode::from(fault.status())
}

/// What the words after the program's name ask for.
fn words_given(rt: &HostRuntime) -> Result<Words, WordsFault> {
    match env::args(rt) {
        Ok(words) => read_words(rt.alloc(), words.skip(1).collect(rt.alloc())?),
        Err(error) => {
            if error.kind() == ErrorKind::OutOfMemory {
                Err(WordsFault::Memory)
            } else {
                Err(WordsFault::Refused)
            }
        }
    }
}

/// Runs the pipe from standard input to standard output.
fn run(rt: &HostRuntime) -> Result<(), DaemonFault> {
    let mut reader = Watched::new(rt.reader());
    let mut writer = Watched::new(io::writer(rt));
    run_pipe(rt.alloc(), &mut reader, &mut writer).map_err(DaemonFault::Pipe)
}

/// The setup of a cluster file.
fn setup_of(rt: &HostRuntime, file: &str) -> Result<Setup, FileFault>
    ensures node { IfOk result IsNodeSetup }
    ensures server { IfOk result IsServerSetup }
{
    match File::open(rt, file) {
        Ok(file) => read_setup(rt.alloc(), &mut Watched::new(file)),
        Err(error) => {
            if error.kind() == ErrorKind::OutOfMemory {
                Err(FileFault::Memory)
            } else {
                Err(FileFault::Unread)
            }
        }
    }
}
