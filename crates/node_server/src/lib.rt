//! A node as a library: frames of its peers over TCP, and lines of its clients, who come through a port, a socket in a
//! folder, or both.
//!
//! The calling thread is that of the ports: it waits at once for the port of peers, for both doors of clients, for the
//! frames of all peers, and for room on the connections to them. Each client has a thread of its own, from when its
//! connection comes. All put jobs into one inbox; four workers make their calls under the node's lock, each with a seat
//! of its own, and those who only look share a fifth. A worker has no thread: whoever put jobs does them with an idle
//! worker, and what is left is done by threads that wait for it.
//!
//! The server does not know what is behind the lock (`HeldNode`), nor by which keys frames open (`FrameKeys`).
//! `served_node` says what a client hears and what the node sends, and `frame_queues` who waits for a job, which frame
//! a message gets, which bytes that come are frames, which connections have a slot, and which bytes go over one.
#![tactic(auto)]

ghost use denote.Param.Send.{IsSend, IsSync};

mod clients;
mod connections;
mod credits;
mod crew;
mod doors;
mod fault;
mod operators;
mod peers;
mod ports;
mod server;
mod starting;
mod workers;

use clients::answer_client;
pub use fault::ServerFault;
use frame_queues::MOST_CLIENTS;
pub use frame_queues::{ClusterKeys, FrameKeys, Limits, PeerName};
use node_lock::{Inbox, Seat};
use owner_shares::Shares;
use peers::Peers;
use ports::{Listeners, Ports, poll_of};
pub use served_node::{HeldNode, NotKept, Said};
use server_locks::{JobQueue, job_queues};
use starting::{Served, server_of};
use std::alloc::{AllocError, Global};
use std::net::{Net, SocketAddr, TcpListener, TcpStream};
use std::os::unix::net::UnixListener;
use std::sync::Wait;
use std::thread::Threads;
use std::time::{Clock, Duration};
use std::{io, thread};

/// How many workers there are.
const WORKERS: u8 = 4;

/// The seats of a served node: the workers have one each, and those who only look share one more.
pub const SEATS: u8 = WORKERS + 1;

/// One pass for each worker, one for each client, and one for all peers.
const PASSES: u8 = WORKERS + MOST_CLIENTS as u8 + 1;

/// Where a node is served.
#[derive(Drop)]
pub struct Site {
    /// Takes the frames of peers.
    pub peers: TcpListener,
    /// Takes the lines of clients, where the port is open to them.
    pub port: Option<TcpListener>,
    /// Takes the lines of clients, where there is a socket for them.
    pub socket: Option<UnixListener>,
    /// Where each node takes frames, by its index; the node's own address is not used.
    pub addresses: Vec<SocketAddr>,
    /// How many connections of peers there may be.
    pub limits: Limits,
    /// After so long a client that sends nothing is closed.
    pub idle: Duration,
    /// Whether the lines of operators are answered, beside those of clients. Then a connection of clients begins with
    /// `{`; else one that does not begin as an HTTP request is a client's. Then a command at a node that was begun
    /// twice is refused, and a client's connection gives way to another where the door's slots are all taken.
    pub operators: bool,
    /// The shares that are asked before the node, if any. They are those of its table of roles.
    pub shares: Option<Shares>,
}

/// A listener at an address, which never waits.
///
/// # Errors
///
/// `Device` where it could not be made, and `Memory`.
pub fn listen<R: Net<Listener = TcpListener, Stream = TcpStream>>(
    rt: &R,
    address: SocketAddr,
) -> Result<TcpListener, ServerFault> {
    bound(rt, address).map_err(fault_of)
}

fn bound<R: Net<Listener = TcpListener, Stream = TcpStream>>(
    rt: &R,
    address: SocketAddr,
) -> io::Result<TcpListener> {
    let listener = TcpListener::bind(rt, address)?;
    listener.set_nonblocking(true)?;
    Ok(listener)
}

fn fault_of(error: io::Error) -> ServerFault {
    if error.kind() == io::ErrorKind::OutOfMemory {
        ServerFault::Memory
    } else {
        ServerFault::Device
    }
}

/// Serves a node until a client stops it, with these seats, of which there are [`SEATS`], and keys.
///
/// # Errors
///
/// `Device` where the ports can't be waited for or what was recorded could not be kept, and `Memory`.
pub fn serve<N: HeldNode + Send + Drop, K: FrameKeys + Sync + Drop, R>(
    rt: &R,
    alloc: Global,
    node: N,
    seats: Vec<Seat<N::Ledger>>,
    keys: K,
    site: Site,
) -> Result<(), ServerFault>
where
    R: Net<Listener = TcpListener, Stream = TcpStream> + Threads + Wait + Clock + Sync,
{
    let served = Served { node, seats, keys };
    let (inbox, passes) = Inbox::new(alloc, PASSES)?;
    let queues = job_queues(alloc, &inbox, passes)?;
    serve_queues(rt, alloc, served, queues, site)
}

/// Serves a node whose threads put jobs and take them by these queues.
fn serve_queues<N: HeldNode + Send + Drop, K: FrameKeys + Sync + Drop, R>(
    rt: &R,
    alloc: Global,
    served: Served<N, K>,
    mut queues: Vec<JobQueue<'_>>,
    site: Site,
) -> Result<(), ServerFault>
where
    R: Net<Listener = TcpListener, Stream = TcpStream> + Threads + Wait + Clock + Sync,
{
    let queue = queues.pop().ok_or(ServerFault::Memory)?;
    let (poll, waker) = poll_of(rt).map_err(fault_of)?;
    let server = server_of(rt, alloc, served, queues, waker, &site)?;
    let peers = Peers::new(&server, queue, site.limits)?;
    let listeners = Listeners {
        peers: site.peers,
        port: site.port,
        socket: site.socket,
    };
    serve_ports(Ports::new(&server, poll, listeners, peers).map_err(fault_of)?)
}

/// Serves at these ports until the node ends.
fn serve_ports<N: HeldNode + Send, K: FrameKeys + Sync, R>(
    ports: Ports<'_, '_, N, K, R>,
) -> Result<(), ServerFault>
where
    R: Net<Listener = TcpListener, Stream = TcpStream> + Threads + Wait + Clock + Sync,
{
    let server = ports.server;
    run(ports)?;
    if server.crew.lock(server.rt).failed {
        Err(ServerFault::Device)
    } else {
        Ok(())
    }
}

/// Serves in this thread, which is that of the ports, and those that it starts, until the node ends.
///
/// # Errors
///
/// A thread for jobs could not be started.
fn run<N: HeldNode + Send, K: FrameKeys + Sync, R>(
    mut ports: Ports<'_, '_, N, K, R>,
) -> Result<(), AllocError>
where
    R: Net<Listener = TcpListener, Stream = TcpStream> + Threads + Wait + Clock + Sync,
{
    let server = ports.server;
    let started = thread::scope(
        thread::scope_env(),
        server.rt,
        move |scope| -> bool
            requires shared { IsSync R.row × IsSync K.row }
            requires node { IsSend N.row × IsSend N.Untold.row }
            requires ledger { IsSend N.Ledger.row × IsSync N.Ledger.row }
        {
            for _ in 0..WORKERS {
                if scope.spawn(move || server.do_jobs()).is_err() {
                    server.end();
                    return false;
                }
            }
            for _ in server.rt.forever() {
                if !ports.turn() {
                    return true;
                }
                for (slot, stream) in ports.newcomers.drain(..) {
                    let begun = scope.spawn(move || answer_client(server, slot, &stream));
                    if begun.is_err() {
                        server.refuse(slot);
                    }
                }
            }
            unreachable!()
        },
    );
    if started { Ok(()) } else { Err(AllocError) }
}
