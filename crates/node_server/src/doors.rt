//! The doors of the clients: their listeners, and who waits there for a slot.

use frame_queues::{ALL_SLOTS, Door, SlotStanding, WayIn, way_in};
use mio::unix::SourceFd;
use mio::{Interest, Poll, Token};
use server_locks::ClientStream;
use std::alloc::Global;
use std::io;
use std::io::ErrorKind;
use std::net::TcpListener;
use std::os::fd::{AsRawFd, RawFd};
use std::os::unix::net::UnixListener;

/// The milliseconds until a listener is asked again that has failed.
const NEXT_TRY: u64 = 5;

/// How many milliseconds a client waits for a slot. Where none is free then it is closed.
const SLOT_PATIENCE: u64 = 1_000;

/// The milliseconds after which a client that waits for a slot is looked at again.
const NEXT_WAY: u64 = 10;

/// A listener for clients, which never waits.
#[derive(Drop)]
pub enum ClientListener {
    Port(TcpListener),
    Socket(UnixListener),
}

impl ClientListener {
    fn door(&self) -> Door {
        match self {
            ClientListener::Port(_) => Door::Port,
            ClientListener::Socket(_) => Door::Socket,
        }
    }

    fn raw_fd(&self) -> RawFd {
        match self {
            ClientListener::Port(listener) => listener.as_raw_fd(),
            ClientListener::Socket(listener) => listener.as_raw_fd(),
        }
    }

    fn accept(&self) -> io::Result<ClientStream> {
        match self {
            ClientListener::Port(listener) => {
                let (stream, _) = listener.accept()?;
                Ok(ClientStream::Tcp(stream))
            }
            ClientListener::Socket(listener) => {
                let (stream, _) = listener.accept()?;
                Ok(ClientStream::Unix(stream))
            }
        }
    }
}

/// What comes of a look at a door.
#[derive(Drop)]
pub enum Coming {
    /// Nobody comes now.
    Nobody,
    /// A client waits, to whom the connection in this slot is to give way.
    GivesWay(usize),
    /// A client was closed, for want of a slot.
    Closed,
    /// A client comes, and gets this slot.
    Client(usize, ClientStream),
}

/// A door through which clients come.
#[derive(Drop)]
pub struct ClientDoor {
    listener: ClientListener,
    /// When to accept, in milliseconds; at no time until the poll reports the listener.
    pub accept_at: u64,
    /// The client that waits for a slot.
    waiting: Option<ClientStream>,
    /// Until when clients wait for a slot; at no time where none waits.
    slot_until: u64,
}

impl ClientDoor {
    /// The door of a listener that never waits, for which the poll waits under this number.
    ///
    /// # Errors
    ///
    /// As the system answers.
    fn new(poll: &Poll, listener: ClientListener, number: usize) -> io::Result<ClientDoor> {
        wait_for(poll, listener.raw_fd(), number)?;
        Ok(ClientDoor {
            listener,
            accept_at: u64::MAX,
            waiting: None,
            slot_until: u64::MAX,
        })
    }

    /// Until when to wait at most for what comes next.
    pub fn wait_until(&self, now: u64) -> u64 {
        match self.slot_until {
            u64::MAX => self.accept_at,
            until => until.min(now.saturating_add(NEXT_WAY)),
        }
    }

    /// Who comes next, as all slots stand. Where no slot is free a client waits for one, and is closed after a while;
    /// so are then those behind it.
    pub fn next(&mut self, slots: &[SlotStanding; ALL_SLOTS], now: u64) -> Coming {
        let Some(stream) = self.next_stream(now) else {
            self.slot_until = u64::MAX;
            return Coming::Nobody;
        };
        match way_in(self.listener.door(), slots, now) {
            WayIn::Slot(slot) => {
                self.slot_until = u64::MAX;
                Coming::Client(slot, stream)
            }
            WayIn::GivesWay(slot) if self.has_patience(now) => {
                self.waiting = Some(stream);
                Coming::GivesWay(slot)
            }
            WayIn::Waits if self.has_patience(now) => {
                self.waiting = Some(stream);
                Coming::Nobody
            }
            _ => Coming::Closed,
        }
    }

    /// Whether a client waits on.
    fn has_patience(&mut self, now: u64) -> bool {
        self.slot_until = self.slot_until.min(now.saturating_add(SLOT_PATIENCE));
        now < self.slot_until
    }

    /// The client that waits, or the next that has come.
    fn next_stream(&mut self, now: u64) -> Option<ClientStream> {
        if let Some(waiting) = self.waiting.take() {
            return Some(waiting);
        }
        if self.accept_at > now {
            return None;
        }
        let came = self.listener.accept();
        next_of(&mut self.accept_at, now, came)
    }
}

/// The next connection that has come to a listener; none where none is left. A listener that fails is asked again a
/// little later.
pub fn next_of<S: Drop>(accept_at: &mut u64, now: u64, came: io::Result<S>) -> Option<S> {
    match came {
        Ok(stream) => Some(stream),
        Err(error) => {
            let is_empty = error.kind() == ErrorKind::WouldBlock;
            *accept_at = if is_empty {
                u64::MAX
            } else {
                now.saturating_add(NEXT_TRY)
            };
            None
        }
    }
}

/// Has the poll wait for connections under this number.
///
/// # Errors
///
/// As the system answers.
pub fn wait_for(poll: &Poll, fd: RawFd, number: usize) -> io::Result<()> {
    poll.registry()
        .register(&mut SourceFd(&fd), Token(number), Interest::READABLE)
}

/// The doors of these listeners, which never wait, under numbers from this one on.
///
/// # Errors
///
/// As the system answers; `OutOfMemory` for want of memory.
pub fn doors_of(
    alloc: Global,
    poll: &Poll,
    port: Option<TcpListener>,
    socket: Option<UnixListener>,
    first: usize,
) -> io::Result<Vec<ClientDoor>> {
    let mut doors = Vec::new(alloc);
    if let Some(listener) = port {
        put_door(&mut doors, poll, ClientListener::Port(listener), first)?;
    }
    if let Some(listener) = socket {
        put_door(&mut doors, poll, ClientListener::Socket(listener), first)?;
    }
    Ok(doors)
}

fn put_door(
    doors: &mut Vec<ClientDoor>,
    poll: &Poll,
    listener: ClientListener,
    first: usize,
) -> io::Result<()> {
    let number = first.saturating_add(doors.len());
    match doors.push(ClientDoor::new(poll, listener, number)?) {
        Ok(()) => Ok(()),
        Err(_) => Err(io::Error::from(ErrorKind::OutOfMemory)),
    }
}
