//! The connections of peers, each at a place of its own.

use crate::credits::{Credit, News};
use frame_queues::{
    BLOCK_FRAMES, Came, FrameBlock, FrameKeys, Limits, PeerName, Place, Slots, Turn,
};
use link_frames::Packet;
use server_locks::{Opened, open_frames};
use std::alloc::{AllocError, Global};
use std::net::TcpStream;
use std::{io, mem};

/// Of a number each next lot is this many times the one before, and one.
const LOT_FACTOR: u64 = 6_364_136_223_846_793_005;

/// A connection of a peer, which never waits.
#[derive(Drop)]
pub struct Connection {
    pub stream: TcpStream,
    block: FrameBlock,
    /// The peer whose frame was the first that opened.
    opened: Option<PeerName>,
    /// What the last read gave.
    came: Came,
    /// The peer writes no more, so that the end comes behind its bytes.
    has_end: bool,
}

impl Connection {
    /// A connection of which nothing was read.
    ///
    /// # Errors
    ///
    /// As the system answers; `OutOfMemory` for want of memory. The stream is closed.
    pub fn new(alloc: Global, stream: TcpStream) -> io::Result<Connection> {
        stream.set_nodelay(true)?;
        stream.set_nonblocking(true)?;
        match FrameBlock::new(alloc) {
            Ok(block) => Ok(Connection {
                stream,
                block,
                opened: None,
                came: Came::Nothing,
                has_end: false,
            }),
            Err(_) => Err(io::Error::from(io::ErrorKind::OutOfMemory)),
        }
    }

    /// Reads a block at most, or one frame where none has opened yet: so who can't seal frames takes little of a turn.
    /// How many whole frames there are then.
    fn read(&mut self) -> usize {
        let most = if self.opened.is_some() {
            BLOCK_FRAMES
        } else {
            1
        };
        let mut reader = &self.stream;
        self.came = self.block.read(&mut reader, most);
        self.block.frames().len()
    }

    /// Opens some frames of the last block, whose packets are then in this list. The first that opens names the
    /// connection, which ends where one does not before.
    fn open<K: FrameKeys>(
        &mut self,
        keys: &K,
        turn: Turn,
        packets: &mut Vec<Packet>,
    ) -> Option<Opened> {
        let frames = self.block.frames().get(turn.from..turn.to).unwrap_or(&[]);
        let opened = open_frames(keys, frames, self.opened, packets).ok()?;
        self.opened = opened.peer;
        if opened.peer.is_none() && opened.unopened > 0 {
            self.came = Came::End;
        }
        Some(opened)
    }
}

/// The connections of peers: newcomers, and those that have a slot of their peer.
#[derive(Drop)]
pub struct Connections {
    slots: Slots,
    at: Vec<Option<Connection>>,
    /// For how many newcomers there is room.
    pub most_newcomers: usize,
    /// Before this no newcomer's time is over, in milliseconds.
    next_end: u64,
    /// By what lots are drawn.
    lot: u64,
    /// A connection was made, named or closed since this was last asked.
    has_changed: bool,
}

impl Connections {
    /// None yet, at the node of this index among so many. Lots go by this number.
    ///
    /// # Errors
    ///
    /// Only for want of memory.
    pub fn new(
        alloc: Global,
        nodes: u8,
        me: u8,
        limits: Limits,
        lot: u64,
    ) -> Result<Connections, AllocError> {
        let slots = Slots::new(alloc, nodes, me, limits)?;
        let at = no_connections(alloc, slots.places().len())?;
        Ok(Connections {
            slots,
            at,
            most_newcomers: usize::from(limits.newcomers()),
            next_end: 0,
            lot,
            has_changed: false,
        })
    }

    /// The places, with who is there.
    pub fn places(&self) -> &[Place] {
        self.slots.places()
    }

    /// Whether there is another one, or one has gone, since this was last asked.
    pub fn has_changed(&mut self) -> bool {
        mem::replace(&mut self.has_changed, false)
    }

    /// A newcomer comes, to whom another may give way, which is closed. Its place, and its number among those of that.
    pub fn begin(&mut self, now: u64) -> (usize, u16) {
        self.lot = self.lot.wrapping_mul(LOT_FACTOR).wrapping_add(1);
        let place = self.slots.comes(now, (self.lot >> 32) as usize);
        self.next_end = 0;
        self.close(place);
        (place, self.number_at(place))
    }

    /// The number of the connection at a place.
    pub fn number_at(&self, place: usize) -> u16 {
        match self.slots.places().get(place) {
            Some(place) => place.number,
            None => 0,
        }
    }

    /// The connection at a place, for which there is room, is this.
    pub fn put(&mut self, place: usize, connection: Connection) {
        if let Some(room) = self.at.get_mut(place) {
            *room = Some(connection);
        }
    }

    /// The connection of this number at a place ends.
    pub fn end(&mut self, place: usize, number: u16) {
        self.slots.ends(place, number);
        self.close(place);
    }

    /// Closes the connection that was at a place, if there was one.
    fn close(&mut self, place: usize) {
        if let Some(room) = self.at.get_mut(place) {
            self.has_changed |= room.is_some();
            *room = None;
        }
    }

    /// Closes newcomers whose time is over. When that of the next one is.
    pub fn next_end(&mut self, now: u64) -> u64 {
        if self.next_end <= now {
            if self.slots.passes(now) > 0 {
                self.close_ended();
            }
            self.next_end = self.slots.next_end();
        }
        self.next_end
    }

    /// Takes over what workers have of the connections. Whether one has no place any more, and is to be closed.
    pub fn take_news(&mut self, credits: &mut [Credit]) -> bool {
        let mut has_ended = false;
        for (place, credit) in credits.iter_mut().enumerate() {
            let news = mem::replace(&mut credit.news, News::Nothing);
            has_ended |= take_over(&mut self.slots, place, credit.connection, news);
        }
        has_ended
    }

    /// Closes the connections that have no place any more.
    pub fn close_ended(&mut self) {
        for place in 0..self.at.len() {
            if !self.is_held(place) {
                self.close(place);
            }
        }
    }

    fn is_held(&self, place: usize) -> bool {
        match self.slots.places().get(place) {
            Some(place) => place.held.is_some(),
            None => false,
        }
    }

    /// Notes that the connection at a place may have its end. Whether there is one.
    pub fn note(&mut self, place: usize, is_closed: bool) -> bool {
        match self.at.get_mut(place) {
            Some(Some(connection)) => {
                connection.has_end |= is_closed;
                true
            }
            _ => false,
        }
    }

    /// Reads a block at most of the connection at a place. How many whole frames it has then.
    pub fn read(&mut self, place: usize) -> usize {
        match self.at.get_mut(place) {
            Some(Some(connection)) => connection.read(),
            _ => 0,
        }
    }

    /// Opens some frames of the block of a connection, whose packets are then in this list; nothing for want of
    /// memory, and where there is no connection. The first that opens names the connection; where one does not before,
    /// that ends it.
    pub fn open<K: FrameKeys>(
        &mut self,
        keys: &K,
        turn: Turn,
        packets: &mut Vec<Packet>,
    ) -> Option<Opened> {
        let Some(Some(connection)) = self.at.get_mut(turn.block) else {
            return None;
        };
        let before = connection.opened;
        let opened = connection.open(keys, turn, packets)?;
        if before != opened.peer {
            self.next_end = 0;
            self.has_changed = true;
        }
        Some(opened)
    }

    /// A frame of the peer of this index has opened on the connection at a place, which takes a slot of that peer where
    /// one is free; the one that it takes over is closed.
    pub fn name(&mut self, place: usize, peer: u8, now: u64) {
        if let Some(ended) = self.slots.named(place, peer, now) {
            self.close(ended);
        }
    }

    /// Whether a connection may have more. It is closed at its end.
    pub fn goes_on(&mut self, place: usize) -> bool {
        let Some(Some(connection)) = self.at.get(place) else {
            return false;
        };
        let (came, has_end) = (connection.came, connection.has_end);
        match came {
            Came::Nothing => false,
            Came::Some => has_end,
            Came::More => true,
            Came::End => {
                let number = self.number_at(place);
                self.end(place, number);
                false
            }
        }
    }
}

/// Room for so many connections.
///
/// # Errors
///
/// Only for want of memory.
fn no_connections(alloc: Global, places: usize) -> Result<Vec<Option<Connection>>, AllocError> {
    let mut connections = Vec::with_capacity(alloc, places)?;
    for _ in 0..places {
        connections.push(None)?;
    }
    Ok(connections)
}

/// Takes over what is new of the connection of this number at a place. Whether a connection ends by it.
fn take_over(slots: &mut Slots, place: usize, number: u16, news: News) -> bool {
    match news {
        News::Nothing => false,
        News::Counted(time) => slots.counted(place, number, time).is_some(),
        News::Refused => {
            slots.ends(place, number);
            true
        }
    }
}
