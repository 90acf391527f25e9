//! A node of the registry that keeps its state.
//!
//! `cluster_hosts` says what it takes of a cluster text, `node_journal` what of a node with a journal may leave, and
//! `specs/Statuses.antt` with which status it ends.
#![tactic(auto)]

ghost use Rattle.std.specs.Prelude.{IfOk};
ghost use Rattle.cluster_text.specs.Setups.{IsNodeSetup, IsServerSetup};
ghost use Rattle.cluster_hosts.specs.Hosts.{HasHosts};

mod entries;
mod fault;
mod report;
mod serve;
mod socket;
mod version;
mod words;

use cluster_hosts::{Given, GivenFault, read_given};
use entries::Entries;
use fault::{Fault, WordsFault};
use link_frames::Watched;
use node_journal::{begin, look, make_journal, open_journal, open_to_look, remove_beside};
use node_server::SEATS;
use report::{report_of, sight_text};
use serve::{Doors, open_ports, serve_in_memory, serve_kept};
use socket::{MadeSocket, make_socket, remove_socket};
use sqlite_std_file::Unknown;
use std::env;
use std::fs::File;
use std::io::ErrorKind;
use std::net::{Net, TcpListener, TcpStream};
use std::process::ExitCode;
use std::sync::Wait;
use std::thread::Threads;
use std::time::Clock;
use words::{Keeping, Words, read_words};

fn main(rt: HostRuntime) -> ExitCode {
    match words_given(&rt) {
        Ok(
            Words::Serve {
                cluster,
                keeping,
                entries,
            },
        ) => match given_of(&rt, &cluster) {
            Ok(given) => ended(&rt, serve_given(&rt, &rt, given, keeping, &entries)),
            Err(fault) => ended(&rt, Err(Fault::Given(fault))),
        },
        Ok(words) => ended(&rt, answer(&rt, words)),
        Err(fault) => ended(&rt, Err(Fault::Words(fault))),
    }
}

/// The status with which the program ends. A fault is said.
fn ended(rt: &HostRuntime, outcome: Result<(), Fault>) -> ExitCode {
    match outcome {
        Ok(()) => ExitCode::SUCCESS,
        Err(fault) => {
            let _ = eprintln!(rt; "tundelca: {fault}");
            ExitCode::from(fault.status())
        }
    }
}

/// Serves the node that is given, which keeps what it records as it was said, and whose clients come through these
/// doors. A socket is made once the journal and the ports are the node's.
fn serve_given<R>(
    rt: &R,
    host: &HostRuntime,
    given: Given,
    keeping: Keeping,
    entries: &Entries,
) -> Result<(), Fault>
where
    R: Net<Listener = TcpListener, Stream = TcpStream> + Threads + Wait + Clock + Sync,
    requires me { IsNodeSetup given.setup }
    requires peers { IsServerSetup given.setup }
    requires hosts { HasHosts given }
{
    match keeping {
        Keeping::InMemory => {
            let (doors, made) = open_doors(rt, host, &given, entries)?;
            let served = serve_in_memory(rt, host.alloc(), given, doors);
            close_door(host, made);
            served
        }
        Keeping::Journal(path) => {
            let files = open_journal(host, &path, Unknown)?;
            let (doors, made) = open_doors(rt, host, &given, entries)?;
            let served = serve_kept(rt, host.alloc(), given, files, doors);
            close_door(host, made);
            served
        }
    }
}

/// Opens the doors of the node that is given, the socket last, and what is known of its file.
fn open_doors<'a, R>(
    rt: &R,
    host: &HostRuntime,
    given: &Given,
    entries: &'a Entries,
) -> Result<(Doors, Option<MadeSocket<'a>>), Fault>
where
    R: Net<Listener = TcpListener, Stream = TcpStream>,
    requires me { IsNodeSetup given.now.setup }
    requires peers { IsServerSetup given.now.setup }
    requires hosts { HasHosts given.now }
{
    let doors = open_ports(rt, given, entries.port)?;
    let Some(path) = &entries.socket else {
        return Ok((doors, None));
    };
    let (listener, made) = make_socket(host, host.alloc(), path)?;
    let Doors { peers, port, .. } = doors;
    let socket = Some(listener);
    let doors = Doors {
        peers,
        port,
        socket,
    };
    Ok((doors, Some(made)))
}

/// Removes the file of a socket.
fn close_door(host: &HostRuntime, made: Option<MadeSocket<'_>>) {
    if let Some(made) = made {
        remove_socket(host, made);
    }
}

/// Does what the words ask for, where they ask for no node to be served.
fn answer(rt: &HostRuntime, words: Words) -> Result<(), Fault> {
    match words {
        Words::Say(text) => say(rt, &text),
        Words::Serve { .. } => Ok(()),
        Words::Journal { cluster, journal } => {
            let given = given_of(rt, &cluster)?;
            begin_journal(rt, &given, &journal)
        }
        Words::Check { cluster, journal } => {
            let given = given_of(rt, &cluster)?;
            say_report(rt, &given)?;
            match journal {
                Some(path) => check(rt, given, &path),
                None => Ok(()),
            }
        }
    }
}

/// Begins the journal of a node.
fn begin_journal(rt: &HostRuntime, given: &Given, path: &str) -> Result<(), Fault>
    requires me { IsNodeSetup given.now.setup }
    requires peers { IsServerSetup given.now.setup }
{
    let files = make_journal(rt, path, Unknown)?;
    let _journal = begin(rt.alloc(), &given.setup, files)?;
    Ok(())
}

/// Says what a cluster file is.
fn say_report(rt: &HostRuntime, given: &Given) -> Result<(), Fault>
    requires peers { IsServerSetup given.now.setup }
    requires hosts { HasHosts given.now }
{
    let text = report_of(rt.alloc(), given)?;
    say(rt, &text)
}

/// Says what the journal of a node is. The file beside it goes again where it was made for that.
fn check(rt: &HostRuntime, given: Given, path: &str) -> Result<(), Fault>
    requires me { IsNodeSetup given.setup }
    requires peers { IsServerSetup given.setup }
{
    let Given { setup, .. } = given;
    let key = setup.own_key();
    let (mut files, is_made) = open_to_look(rt, path, Unknown)?;
    let sight = look(rt.alloc(), SEATS, setup.config, setup.me, &key, &mut files);
    if is_made {
        remove_beside(rt, path);
    }
    drop(files);
    say(rt, &sight_text(rt.alloc(), &sight?)?)
}

/// Writes a text to standard output.
fn say(rt: &HostRuntime, text: &str) -> Result<(), Fault> {
    print!(rt; "{text}").map_err(|_| Fault::Device)
}

/// What the words after the program's name ask for.
fn words_given(rt: &HostRuntime) -> Result<Words, WordsFault> {
    match env::args(rt) {
        Ok(words) => read_words(rt.alloc(), words.skip(1).collect(rt.alloc())?),
        Err(error) => {
            if error.kind() == ErrorKind::OutOfMemory {
                Err(WordsFault::Memory)
            } else {
                Err(WordsFault::Refused(String::new(rt.alloc())))
            }
        }
    }
}

/// What a cluster file says.
fn given_of(rt: &HostRuntime, file: &str) -> Result<Given, GivenFault>
    ensures node { IfOk result (λ given. IsNodeSetup given.setup) }
    ensures server { IfOk result (λ given. IsServerSetup given.setup) }
    ensures hosts { IfOk result HasHosts }
{
    match File::open(rt, file) {
        Ok(file) => read_given(rt.alloc(), &mut Watched::new(file)),
        Err(error) => {
            if error.kind() == ErrorKind::OutOfMemory {
                Err(GivenFault::Memory)
            } else {
                Err(GivenFault::Unread)
            }
        }
    }
}
