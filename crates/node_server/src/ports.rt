//! The thread of the ports: it waits at once for all that comes and for room to write.

use crate::doors::{ClientDoor, Coming, doors_of, next_of, wait_for};
use crate::peers::Peers;
use crate::server::Server;
use frame_queues::{FrameKeys, MOST_PEERS};
use mio::{Events, Poll, Token, Waker};
use served_node::{HeldNode, millis};
use server_locks::ClientStream;
use std::io;
use std::io::ErrorKind;
use std::net::{Net, TcpListener, TcpStream};
use std::os::fd::AsRawFd;
use std::os::unix::net::UnixListener;
use std::sync::{Arc, Wait};
use std::time::{Clock, Duration};

/// The numbers of what the thread waits for. A connection of a peer has the number of its place; the connections to
/// peers have those from `FIRST_DIAL` on.
const PEER_PORT: usize = MOST_PEERS as usize;

/// The two doors of clients.
const FIRST_DOOR: usize = PEER_PORT + 1;

const WAKER: usize = FIRST_DOOR + 2;

const FIRST_DIAL: usize = WAKER + 1;

/// The most connections to peers.
const MOST_DIALS: usize = 127;

/// The most events of one wait.
const MOST_EVENTS: usize = FIRST_DIAL + MOST_DIALS;

/// The milliseconds that the thread waits at most.
const LONGEST_WAIT: u64 = 5_000;

/// The milliseconds after which it looks again at the connections to peers.
const NEXT_LOOK: u64 = 1_000;

/// How many connections of each port are taken in a turn at most. With fewer, who floods the port fills its queue.
const MOST_NEWCOMERS: usize = 32;

/// How many milliseconds a write to a client may wait until some bytes are taken; then its connection is closed.
const WRITE_PATIENCE: u64 = 1_000;

/// The listeners of a node, which never wait.
#[derive(Drop)]
pub struct Listeners {
    pub peers: TcpListener,
    /// Those of the clients' doors, where they are open.
    pub port: Option<TcpListener>,
    pub socket: Option<UnixListener>,
}

/// The port of the peers.
#[derive(Drop)]
struct Port {
    listener: TcpListener,
    /// When to accept, in milliseconds; at no time until the poll reports the listener.
    accept_at: u64,
}

impl Port {
    /// The next connection that has come; none where none is left.
    fn accept(&mut self, now: u64) -> Option<TcpStream> {
        if self.accept_at > now {
            return None;
        }
        match self.listener.accept() {
            Ok((stream, _)) => Some(stream),
            Err(error) => next_of(&mut self.accept_at, now, Err(error)),
        }
    }
}

/// The port of a listener that never waits, for which the poll waits under this number.
fn port_of(poll: &Poll, listener: TcpListener, number: usize) -> io::Result<Port> {
    wait_for(poll, listener.as_raw_fd(), number)?;
    let accept_at = u64::MAX;
    Ok(Port {
        listener,
        accept_at,
    })
}

/// The port of peers, the doors of clients, the connections of peers and those to them.
#[derive(Drop)]
pub struct Ports<'a, 'b, N: HeldNode, K: FrameKeys, R> {
    pub server: &'b Server<'a, N, K, R>,
    poll: Poll,
    events: Events,
    peer_port: Port,
    doors: Vec<ClientDoor>,
    peers: Peers<'a, 'b, N, K, R>,
    /// When a connection to a peer is made next, and when all of these are looked at.
    next_dial: u64,
    next_look: u64,
    /// The clients that have come, at these slots, for which a thread is to be started.
    pub newcomers: Vec<(u32, Arc<ClientStream>)>,
}

/// What the thread of the ports waits by, and what wakes it.
///
/// # Errors
///
/// As the system answers.
pub fn poll_of(rt: &impl Net) -> io::Result<(Poll, Waker)> {
    let poll = Poll::new(rt)?;
    let waker = Waker::new(poll.registry(), Token(WAKER))?;
    Ok((poll, waker))
}

impl<'a, 'b, N: HeldNode, K: FrameKeys, R: Net + Wait + Clock> Ports<'a, 'b, N, K, R> {
    /// The ports and doors of these listeners.
    ///
    /// # Errors
    ///
    /// As the system answers; `OutOfMemory` for want of memory.
    pub fn new(
        server: &'b Server<'a, N, K, R>,
        poll: Poll,
        listeners: Listeners,
        peers: Peers<'a, 'b, N, K, R>,
    ) -> io::Result<Ports<'a, 'b, N, K, R>> {
        let Listeners {
            peers: frames,
            port,
            socket,
        } = listeners;
        let peer_port = port_of(&poll, frames, PEER_PORT)?;
        let doors = doors_of(server.alloc, &poll, port, socket, FIRST_DOOR)?;
        let Ok(events) = Events::with_capacity(server.alloc, MOST_EVENTS) else {
            return Err(io::Error::from(ErrorKind::OutOfMemory));
        };
        Ok(Ports {
            server,
            peer_port,
            doors,
            poll,
            events,
            peers,
            next_dial: 0,
            next_look: 0,
            newcomers: Vec::new(server.alloc),
        })
    }

    /// Waits for what comes next, and does it; the clients that have come are then among the newcomers. False at the
    /// end, to which a wait that fails brings the node.
    pub fn turn(&mut self) -> bool {
        let server = self.server;
        let now = millis(server.rt);
        let wait = server.wait_until_due(now, self.wait_until(now));
        let time = Duration::from_millis(wait);
        let has_polled = self.poll.poll(&mut self.events, Some(time)).is_ok();
        if server.has_ended() {
            return false;
        }
        let now = millis(server.rt);
        self.note_events(now);
        self.peers.read_ready(now);
        self.dial(now);
        if server.is_due(now) {
            server.wake_workers();
        }
        self.take_peers(now);
        self.take_clients(now);
        if !has_polled {
            server.fail();
        }
        true
    }

    /// Until when to wait at most for what comes next.
    fn wait_until(&mut self, now: u64) -> u64 {
        let due = self.peers.wait_until(now);
        let mut due = due.min(self.next_dial).min(self.peer_port.accept_at);
        for door in &self.doors {
            due = due.min(door.wait_until(now));
        }
        due.min(now.saturating_add(LONGEST_WAIT))
    }

    /// Notes what came: connections on the ports, bytes of peers, and what befell the connections to them.
    fn note_events(&mut self, now: u64) {
        let server = self.server;
        for event in &self.events {
            let Token(number) = event.token();
            if number == PEER_PORT {
                self.peer_port.accept_at = now;
            } else if number < PEER_PORT {
                self.peers.note(number, event.is_read_closed());
            } else if number >= FIRST_DIAL {
                server.go_on(number - FIRST_DIAL, now);
                self.next_dial = now;
            } else if let Some(door) = self.doors.get_mut(number - FIRST_DOOR) {
                door.accept_at = now;
            }
        }
    }

    /// Makes the connections to peers whose time it is, and looks at all of them now and then, of which some may have
    /// taken no bytes for too long.
    fn dial(&mut self, now: u64) {
        let server = self.server;
        if self.next_look <= now {
            self.next_look = now.saturating_add(NEXT_LOOK);
            self.next_dial = now;
            for at in 0..server.outboxes.len() {
                server.go_on(at, now);
            }
        }
        if self.next_dial <= now {
            self.next_dial = u64::MAX;
            for (at, outbox) in server.outboxes.iter().enumerate() {
                let token = Token(FIRST_DIAL.saturating_add(at));
                let next = outbox.dial(server.rt, self.poll.registry(), token, now);
                self.next_dial = self.next_dial.min(next);
            }
        }
    }

    /// Takes the connections of peers that have come, no more in a turn than there are places for newcomers: so what
    /// has come of each is read before it may give way to another.
    fn take_peers(&mut self, now: u64) {
        for _ in 0..self.peers.connections.most_newcomers.min(MOST_NEWCOMERS) {
            let Some(stream) = self.peer_port.accept(now) else {
                return;
            };
            let _ = self.peers.add(self.poll.registry(), now, stream);
        }
    }

    /// Takes the clients that have come to each door, no more in a turn than so many.
    fn take_clients(&mut self, now: u64) {
        for at in 0..self.doors.len() {
            for _ in 0..MOST_NEWCOMERS {
                if !self.take_next(at, now) {
                    break;
                }
            }
        }
    }

    /// Takes the next client of a door. Whether to look for one more at once.
    fn take_next(&mut self, at: usize, now: u64) -> bool {
        let server = self.server;
        let Some(door) = self.doors.get_mut(at) else {
            return false;
        };
        let standings = server.standings();
        match door.next(&standings, now) {
            Coming::Nobody => false,
            Coming::Closed => true,
            Coming::GivesWay(slot) => {
                server.give_way(slot, &standings);
                false
            }
            Coming::Client(slot, stream) => {
                self.give(slot, stream);
                true
            }
        }
    }

    /// Gives a slot to a client. Where that fails its connection is closed.
    fn give(&mut self, slot: usize, stream: ClientStream) {
        let server = self.server;
        let writes = Duration::from_millis(WRITE_PATIENCE);
        if stream.prepare(server.idle, writes).is_err() {
            return;
        }
        let (Ok(number), Some(slot), Ok(stream)) = (
            u32::try_from(slot),
            server.slots.get(slot),
            Arc::new(server.alloc, stream),
        ) else {
            return;
        };
        if slot.give(server.rt, &stream) && self.newcomers.push((number, stream)).is_err() {
            slot.refuse(server.rt);
        }
    }
}
