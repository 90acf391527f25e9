//! What the threads of a server share, each behind a lock of its own: the frames to a peer with their connection, a
//! client's slot, and turns at the node; and what one thread has: its way into the inbox, what comes before the inbox,
//! a client's stream.
//!
//! `specs/Counts.antt` says how many frames are lost and when a connection is given up, `Lines.antt` what else becomes
//! of frames and of a connection, `Jobs.antt` which jobs are put, `NextJobs.antt` which comes next, `Fronts.antt` what
//! is gathered for single peers, `Turns.antt` whose turn is next, `Requests.antt` which connection is no client's.
#![tactic(auto)]

mod alarm;
mod calls;
mod client_stream;
mod front;
mod hold_rules;
mod job_queue;
mod keeping;
mod opening;
mod outbox;
mod rooms;
mod slot;
mod stream;
mod tickets;
mod votes_ahead;

pub use alarm::Alarm;
pub use calls::{hear, make_next};
pub use client_stream::{Farewell, LineReader, hears_foreign, whole_next};
pub use front::{Done, Front, most_batch};
pub use hold_rules::{HoldRules, NoHold};
pub use job_queue::{JobQueue, job_queues};
pub use keeping::keep;
pub use opening::{Opened, open_frames};
pub use outbox::Outbox;
pub use slot::{Slot, SlotState};
pub use stream::ClientStream;
pub use tickets::{Purpose, TicketLock};
pub use votes_ahead::VotesAhead;
