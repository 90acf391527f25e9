//! Frames that wait for a peer, and the connection over which they go.

ghost use Rattle.std.specs.Prelude.{◌≡◌, ◌≤◌, ◌⊎◌, ◌-◌, [], None, Some, IfNone, IfSome};
ghost use Rattle.frame_queues.specs.Unsent.{restarted};
ghost use Rattle.server_locks.specs.Counts.{lost_of, is_stuck};
ghost use Rattle.server_locks.specs.Lines.{ArePut, GoesOn, HasGone, OnlyFullWaits, IsLeft};
ghost use Rattle.server_locks.specs.Lines.{pause_due, next_pause, made_after, dials_at, room_of, standing_of};
ghost use Rattle.served_node.specs.Counts.{grown};

use frame_queues::{MOST_FRAMES, UnsentFrames};
use link_frames::Frame;
use mio::net::TcpStream;
use mio::{Interest, Registry, Token};
use operator_lines::PeerStanding;
use quorum_sizes::NodeName;
use std::alloc::Global;
use std::io::{ErrorKind, Write};
use std::net::{Net, SocketAddr};
use std::sync::{Mutex, Wait};
use std::{io, mem};

/// The milliseconds of the pause before a connection is made again; each further pause is twice as long.
const FIRST_PAUSE: u64 = 10;

/// The milliseconds of the longest pause.
const LONGEST_PAUSE: u64 = 1_000;

/// A connection that lived for so many milliseconds was not closed at once.
const LONG_LIFE: u64 = 1_000;

/// How many milliseconds a connection may take to be made.
const DIAL_PATIENCE: u64 = 3_000;

/// How many milliseconds a connection may take no bytes before it is given up.
const PATIENCE: u64 = 5_000;

/// How the connection to a peer stands. It never waits.
#[derive(Drop)]
enum Link {
    /// It is made at this time.
    Later(u64),
    /// It is being made, up to this time.
    Begun(TcpStream, u64),
    /// Frames go over it, since this time.
    Open(TcpStream, u64),
}

/// The frames, and the connection. Who has the lock writes, so one thread does at a time.
#[derive(Drop)]
struct Line {
    unsent: UnsentFrames,
    link: Link,
    /// The milliseconds of the next pause.
    pause: u64,
    /// Since when the connection has taken no bytes, while frames wait; since ever, where a write has failed.
    full_since: Option<u64>,
    /// How many frames of what is sent to this peer alone were put, and how many of all were lost.
    again: u64,
    lost: u64,
    ghost short: { pause ≤ 1000 },
}

impl Line {
    /// Puts frames behind the others, of which the last so many go to this peer alone. What does not fit into 1,024
    /// frames, or finds no memory, is lost.
    fn put(&mut self, frames: &[Frame], alone: usize)
        ensures lost { self.new.lost
            ≡ grown self.old.lost (lost_of self.old.unsent.frames frames.now self.new.unsent.frames) }
        ensures again { self.new.again ≡ grown self.old.again
            (alone - lost_of self.old.unsent.frames frames.now self.new.unsent.frames) }
        ensures put { ArePut frames.now self.old.unsent self.new.unsent }
        ensures same { self.new
            ≡ record self.old { unsent = self.new.unsent; again = self.new.again; lost = self.new.lost } }
    {
        let waited = MOST_FRAMES - self.unsent.room();
        let _ = self.unsent.push(frames);
        let wait = MOST_FRAMES - self.unsent.room();
        let lost = (waited + frames.len()).saturating_sub(wait);
        self.lost = self.lost.saturating_add(lost as u64);
        self.again = self.again.saturating_add(alone.saturating_sub(lost) as u64);
    }

    /// Writes as [`write_all`] does, where there is a connection.
    fn write(&mut self, now: u64)
        ensures frames { GoesOn self.old.unsent self.new.unsent }
        ensures waits { OnlyFullWaits self.old.link self.new.full_since self.new.unsent.frames }
        ensures same { self.new ≡ record self.old { unsent = self.new.unsent; full_since = self.new.full_since } }
    {
        if let Link::Open(stream, _) = &self.link {
            let mut writer = stream;
            self.full_since = write_all(&mut self.unsent, &mut writer, now, self.full_since);
        }
    }

    /// How it stands; what is heard of the peer is left out.
    fn standing(&self) -> PeerStanding
        ensures { result
            ≡ standing_of self.now.link self.now.unsent.frames self.now.again self.now.lost }
    {
        PeerStanding {
            connected: matches!(self.link, Link::Open(_, _)),
            heard: false,
            waiting: (MOST_FRAMES - self.unsent.room()) as u32,
            again: self.again,
            lost: self.lost,
            unopened: 0,
        }
    }

    /// When the connection has to be made, or given up if it is not made; at no time while frames go over it.
    fn dials_at(&self) -> u64
        ensures { result ≡ dials_at self.now.link }
    {
        match &self.link {
            Link::Later(time) | Link::Begun(_, time) => *time,
            Link::Open(_, _) => u64::MAX,
        }
    }

    /// How many frames more there is room for; `None` while there is no connection.
    fn room(&self) -> Option<u32>
        ensures { result ≡ room_of self.now.link self.now.unsent.frames }
    {
        match &self.link {
            Link::Open(_, _) => Some(self.unsent.room() as u32),
            _ => None,
        }
    }

    /// There is no connection any more; the next one is made after a pause, twice as long as the one before, unless it
    /// lived for long. A frame of which a part was written is written again over the next.
    fn close(&mut self, now: u64)
        ensures frames { self.new.unsent ≡ restarted self.old.unsent }
        ensures later { self.new.link ≡ made_after now (pause_due now self.old.link self.old.pause) }
        ensures pause { self.new.pause ≡ next_pause (pause_due now self.old.link self.old.pause) }
        ensures waits { self.new.full_since ≡ None }
        ensures counts { (self.new.again ≡ self.old.again) × (self.new.lost ≡ self.old.lost) }
    {
        if let Link::Open(_, since) = self.link {
            if now.saturating_sub(since) >= LONG_LIFE {
                self.pause = FIRST_PAUSE;
            }
        }
        self.link = Link::Later(now.saturating_add(self.pause));
        self.pause = self.pause.saturating_mul(2).min(LONGEST_PAUSE);
        self.full_since = None;
        self.unsent.restart();
    }

    /// Looks what has come of the connection. Whether it is made now.
    fn look(&mut self, now: u64) -> bool
        ensures frames { IsLeft self.old.unsent self.new.unsent }
        ensures counts { (self.new.again ≡ self.old.again) × (self.new.lost ≡ self.old.lost) }
    {
        match mem::replace(&mut self.link, Link::Later(now)) {
            Link::Later(time) => self.link = Link::Later(time),
            Link::Begun(stream, end) => match is_made(&stream) {
                Ok(true) => {
                    self.link = Link::Open(stream, now);
                    return true;
                }
                Ok(false) => self.link = Link::Begun(stream, end),
                Err(_) => self.close(now),
            },
            Link::Open(stream, since) => {
                let has_ended = self.is_stuck(now) || has_closed(&stream);
                self.link = Link::Open(stream, since);
                if has_ended {
                    self.close(now);
                }
            }
        }
        false
    }

    /// Whether the connection has taken no bytes for too long.
    fn is_stuck(&self, now: u64) -> bool
        ensures { result ≡ is_stuck self.now.full_since now }
    {
        match self.full_since {
            Some(since) => now.saturating_sub(since) >= PATIENCE,
            None => false,
        }
    }
}

/// The frames to one peer.
#[derive(Drop)]
pub struct Outbox {
    /// The peer, and where it takes frames.
    pub to: NodeName,
    address: SocketAddr,
    line: Mutex<Line>,
}

impl Outbox {
    /// An empty outbox, to which a connection is made at once.
    pub fn new(alloc: Global, to: NodeName, address: SocketAddr) -> Outbox
        ensures { result.to ≡ to }
    {
        Outbox {
            to,
            address,
            line: Mutex::new(Line {
                unsent: UnsentFrames::new(alloc),
                link: Link::Later(0),
                pause: FIRST_PAUSE,
                full_since: None,
                again: 0,
                lost: 0,
            }),
        }
    }

    /// How the way to the peer stands; what is heard of it is left out.
    pub fn standing<R: Wait>(&self, rt: &R) -> PeerStanding {
        self.line.lock(rt).standing()
    }

    /// How many frames more there is room for; `None` while there is no connection.
    pub fn room<R: Wait>(&self, rt: &R) -> Option<u32> {
        self.line.lock(rt).room()
    }

    /// Puts frames behind the others, of which the last so many go to this peer alone, and writes as far as the
    /// connection takes them. What does not fit into 1,024 frames, or finds no memory, is lost.
    pub fn send<R: Wait>(&self, rt: &R, now: u64, frames: &[Frame], alone: usize) {
        let mut line = self.line.lock(rt);
        line.put(frames, alone);
        if line.full_since.is_none() {
            line.write(now);
        }
    }

    /// Makes the connection where it is its time, and gives it up where it takes too long to be made. When there is
    /// something to be done next.
    pub fn dial<R: Net + Wait>(&self, rt: &R, registry: &Registry, token: Token, now: u64) -> u64 {
        let mut line = self.line.lock(rt);
        match &line.link {
            Link::Later(time) if *time <= now => match begin(rt, registry, token, self.address) {
                Ok(stream) => line.link = Link::Begun(stream, now.saturating_add(DIAL_PATIENCE)),
                Err(_) => line.close(now),
            },
            Link::Begun(_, end) if *end <= now => line.close(now),
            _ => {}
        }
        line.dials_at()
    }

    /// Something may have come of the connection: it is made now, has ended, or takes bytes again. What waits goes over
    /// it. Whether it is made now.
    pub fn go_on<R: Wait>(&self, rt: &R, now: u64) -> bool {
        let mut line = self.line.lock(rt);
        let is_made = line.look(now);
        line.write(now);
        is_made
    }
}

/// Hands frames to a writer until none waits, or it takes no more or has failed. Since when it has taken none then,
/// while frames wait; since ever, where it has failed.
fn write_all<W: Write>(
    unsent: &mut UnsentFrames,
    writer: &mut W,
    now: u64,
    full_since: Option<u64>,
) -> Option<u64>
    ensures gone { HasGone (W.contents writer.old) (W.contents writer.new) unsent.old unsent.new }
    ensures all { IfNone result (unsent.new.frames ≡ []) }
    ensures since { IfSome result (λ since. (since ≡ 0) ⊎ (since ≡ now) ⊎ (full_since ≡ Some since)) }
{
    let mut since = full_since;
    while !unsent.is_empty() {
        match unsent.write(writer) {
            Err(error) if is_later(&error) => return since.or(Some(now)),
            Ok(0) | Err(_) => return Some(0),
            Ok(_) => since = None,
        }
    }
    None
}

/// Begins to make a connection.
fn begin<R: Net>(
    rt: &R,
    registry: &Registry,
    token: Token,
    address: SocketAddr,
) -> io::Result<TcpStream> {
    let mut stream = TcpStream::connect(rt, address)?;
    registry.register(&mut stream, token, Interest::READABLE | Interest::WRITABLE)?;
    Ok(stream)
}

/// Whether a connection that was begun is made. One with itself, as may come about where nobody listens there, is none.
fn is_made(stream: &TcpStream) -> io::Result<bool> {
    if let Some(error) = stream.take_error()? {
        return Err(error);
    }
    match stream.peer_addr() {
        Ok(peer) => {
            if stream.local_addr()? == peer {
                return Err(io::Error::from(ErrorKind::ConnectionRefused));
            }
            stream.set_nodelay(true)?;
            Ok(true)
        }
        Err(error) if error.kind() == ErrorKind::NotConnected => Ok(false),
        Err(error) => Err(error),
    }
}

/// Whether the peer has closed the connection. It sends nothing here.
fn has_closed(stream: &TcpStream) -> bool {
    match stream.peek(&mut [0u8; 1]) {
        Ok(count) => count == 0,
        Err(error) => !is_later(&error),
    }
}

/// Whether the call may be made again.
fn is_later(error: &io::Error) -> bool {
    matches!(error.kind(), ErrorKind::WouldBlock | ErrorKind::Interrupted)
}
