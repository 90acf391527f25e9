//! The connections of peers: frames in.

use crate::connections::{Connection, Connections};
use crate::server::Server;
use frame_queues::{Caller, FrameKeys, Limits, TURN_FRAMES, Turn, Turns};
use link_frames::Packet;
use mio::unix::SourceFd;
use mio::{Interest, Registry, Token};
use served_node::{Heard, HeldNode, millis};
use server_locks::{JobQueue, Opened};
use std::alloc::AllocError;
use std::io;
use std::net::TcpStream;
use std::os::fd::AsRawFd;
use std::sync::Wait;
use std::time::Clock;

/// After so many frames the jobs are done before more are put.
const MOST_PUT: usize = 256;

/// The peers that speak to a node.
#[derive(Drop)]
pub struct Peers<'a, 'b, N: HeldNode, K: FrameKeys, R> {
    server: &'b Server<'a, N, K, R>,
    queue: JobQueue<'a>,
    pub connections: Connections,
    /// The places of the connections that may have bytes.
    ready: Vec<usize>,
    /// The turns in which the frames of their blocks are put, and room for the packets of a turn.
    turns: Turns,
    packets: Vec<Packet>,
    /// What is heard of the peers, and whether others have to be told.
    heard: Heard,
    is_news: bool,
}

impl<'a, 'b, N: HeldNode, K: FrameKeys, R: Wait + Clock> Peers<'a, 'b, N, K, R> {
    /// None yet, with room for so many. Lots of newcomers go by the time.
    ///
    /// # Errors
    ///
    /// Only for want of memory.
    pub fn new(
        server: &'b Server<'a, N, K, R>,
        queue: JobQueue<'a>,
        limits: Limits,
    ) -> Result<Peers<'a, 'b, N, K, R>, AllocError> {
        let (alloc, nodes) = (server.alloc, server.keys.sizes().n());
        let (me, lot) = (server.keys.me().index(), millis(server.rt));
        let connections = Connections::new(alloc, nodes, me, limits, lot)?;
        let places = connections.places().len();
        Ok(Peers {
            server,
            queue,
            connections,
            ready: Vec::with_capacity(alloc, places)?,
            turns: Turns::new(alloc, places)?,
            packets: Vec::with_capacity(alloc, TURN_FRAMES)?,
            heard: Heard::new(alloc, nodes)?,
            is_news: false,
        })
    }

    /// Until when to wait at most for what comes next. Newcomers whose time is over are closed, and connections of
    /// which a packet found no memory. What is heard is told.
    pub fn wait_until(&mut self, now: u64) -> u64 {
        self.take_credit();
        let next_end = self.connections.next_end(now);
        self.tell_heard();
        if self.ready.is_empty() { next_end } else { now }
    }

    /// Takes over of which connections packets have counted since this was last asked, or found no memory. Those that
    /// end by it are closed once the crew is let go.
    fn take_credit(&mut self) {
        if self.take_news() {
            self.connections.close_ended();
        }
    }

    fn take_news(&mut self) -> bool {
        let mut crew = self.server.crew.lock(self.server.rt);
        crew.credits.has_news() && self.connections.take_news(&mut crew.credits.places)
    }

    /// Tells what is heard of the peers, where that has changed.
    fn tell_heard(&mut self) {
        if self.connections.has_changed() || self.is_news {
            self.is_news = false;
            self.heard.note_places(self.connections.places());
            let mut heard = self.server.heard.lock(self.server.rt);
            heard.take_over(&self.heard);
        }
    }

    /// Notes that the connection at a place may have bytes, or has its end.
    pub fn note(&mut self, place: usize, is_closed: bool) {
        if self.connections.note(place, is_closed) && !self.ready.contains(&place) {
            // there is room for each place
            let _ = self.ready.push(place);
        }
    }

    /// Gives a place to a connection that has come, as a newcomer, and closes the one that gives way to it.
    ///
    /// # Errors
    ///
    /// As the system answers; `OutOfMemory` for want of memory. The connection is closed.
    pub fn add(&mut self, registry: &Registry, now: u64, stream: TcpStream) -> io::Result<()> {
        let connection = Connection::new(self.server.alloc, stream)?;
        let (place, number) = self.connections.begin(now);
        self.begin_credit(place, number);
        let fd = connection.stream.as_raw_fd();
        self.connections.put(place, connection);
        let registered = registry.register(&mut SourceFd(&fd), Token(place), Interest::READABLE);
        if registered.is_err() {
            self.connections.end(place, number);
        }
        registered
    }

    /// Nothing is known yet of a connection of this number at a place.
    fn begin_credit(&self, place: usize, number: u16) {
        let mut crew = self.server.crew.lock(self.server.rt);
        crew.credits.begin(place, number);
    }

    /// Reads of each connection that may have bytes, one block at most, and puts the frames of these blocks in turns, a
    /// few of each: so no connection's block is behind another's. Those that may have more stay ready.
    pub fn read_ready(&mut self, now: u64) {
        self.read_blocks();
        self.put_blocks(now);
        self.take_credit();
        self.keep_ready();
    }

    /// Reads a block at most of each connection that may have bytes.
    fn read_blocks(&mut self) {
        for place in &self.ready {
            let frames = self.connections.read(*place);
            // there is room for each place
            let _ = self.turns.add(*place, frames);
        }
    }

    /// Puts the frames of the blocks that were read, in turns, and has the jobs done.
    fn put_blocks(&mut self, now: u64) {
        let mut put = 0usize;
        for _ in self.server.rt.forever() {
            let Some(turn) = self.turns.next() else {
                break;
            };
            put = put.saturating_add(self.put(turn, now));
            if put >= MOST_PUT {
                put = 0;
                self.server.wake_workers();
            }
        }
        if put > 0 {
            self.server.wake_workers();
        }
    }

    /// Of the connections that were read those stay ready that may have more.
    fn keep_ready(&mut self) {
        let mut kept = 0usize;
        for at in 0..self.ready.len() {
            let place = self.ready.get(at).copied().unwrap_or(usize::MAX);
            if self.connections.goes_on(place) {
                if let Some(entry) = self.ready.get_mut(kept) {
                    *entry = place;
                }
                kept = kept.saturating_add(1);
            }
        }
        self.ready.truncate(kept);
    }

    /// Puts the packets of some frames of a connection's block into the inbox. How many. A frame that does not open is
    /// lost, and the connection ends where it is the first. The first that opens names it.
    fn put(&mut self, turn: Turn, now: u64) -> usize {
        let server = self.server;
        let Some(opened) = self.connections.open(&server.keys, turn, &mut self.packets) else {
            return 0;
        };
        self.note_opened(turn.block, opened, now);
        let Ok(place) = u32::try_from(turn.block) else {
            return 0;
        };
        let connection = self.connections.number_at(turn.block);
        let caller = Caller::Peer { place, connection };
        self.queue.put_packets(server.rt, &|| server.wake_for_room(), caller, &self.packets)
    }

    /// Notes what is heard of a peer by frames of a connection, which takes a slot of that peer where one is free.
    fn note_opened(&mut self, place: usize, opened: Opened, now: u64) {
        for _ in 0..opened.unopened {
            self.is_news = true;
            self.heard.note_unopened(opened.peer);
        }
        if let Some(name) = opened.peer {
            if !self.packets.is_empty() {
                self.is_news |= self.heard.note_opened(name.index, now);
                self.connections.name(place, name.index, now);
            }
        }
    }
}
