//! Who waits for a job, and how many may.

ghost use Rattle.std.specs.Prelude.{◌≡◌};
ghost use Rattle.frame_queues.specs.Callers.{caller_of, peer_of, number_of, IsCaller};

/// How many lines of a client are in flight at most.
pub const MOST_LINES: u32 = 32;

/// In place of a line's number, where a client waits for a job that answers no line.
pub const NO_LINE: u32 = MOST_LINES;

/// The slots of a door, each for a connection of a client.
pub const DOOR_SLOTS: u32 = 16;

/// The most connections of clients at once: those of two doors.
pub const MOST_CLIENTS: u32 = 2 * DOOR_SLOTS;

/// The most connections of peers at once: two slots of each of 127, and 128 newcomers.
pub const MOST_PEERS: u32 = 382;

/// The numbers of a client's jobs.
pub const CLIENT_NUMBERS: u32 = MOST_LINES + 1;

/// The number of the first job of a peer.
const FIRST_PEER: u32 = MOST_CLIENTS * CLIENT_NUMBERS;

/// How many connections of one place have numbers of their own.
const CONNECTIONS: u32 = 65_536;

/// Who waits for a job. A job has its number.
#[derive(Clone, Copy, Debug, PartialEq, Eq)]
pub enum Caller {
    /// The client in a slot, for the answer to its line of this number.
    Client { slot: u32, line: u32 },
    /// The connection of frames at a place that has this number: not the one that was there before, nor the next.
    Peer { place: u32, connection: u16 },
    /// Nobody: the packet is the node's own, or has waited for its turn.
    Nobody,
}

impl Caller {
    /// The number of the caller's jobs.
    pub fn number(self) -> u32
        ensures value { result ≡ number_of self }
        ensures caller { IsCaller self → caller_of result ≡ self }
    {
        match self {
            Caller::Client { slot, line } => {
                slot.saturating_mul(CLIENT_NUMBERS).saturating_add(line)
            }
            Caller::Peer { place, connection } => place
                .saturating_mul(CONNECTIONS)
                .saturating_add(u32::from(connection))
                .saturating_add(FIRST_PEER),
            Caller::Nobody => u32::MAX,
        }
    }

    /// The caller whose jobs have the number.
    pub fn of(number: u32) -> Caller
        ensures { result ≡ caller_of number }
    {
        if number < FIRST_PEER {
            Caller::Client {
                slot: number / CLIENT_NUMBERS,
                line: number % CLIENT_NUMBERS,
            }
        } else {
            peer_of(number - FIRST_PEER)
        }
    }
}

/// The caller whose number among those of peers this is.
fn peer_of(number: u32) -> Caller
    ensures { result ≡ peer_of number }
{
    let place = number / CONNECTIONS;
    if place < MOST_PEERS {
        Caller::Peer {
            place,
            connection: (number % CONNECTIONS) as u16,
        }
    } else {
        Caller::Nobody
    }
}
