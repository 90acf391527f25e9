//! What a server has before the first of its threads begins.

ghost use Rattle.std.specs.Prelude.{◌≡◌, IfOk};
ghost use Rattle.operator_lines.specs.Decisions.{role_lists as role_lists_of};

use crate::Site;
use crate::credits::Credits;
use crate::crew::Crew;
use crate::server::Server;
use crate::workers::Worker;
use frame_queues::{FrameKeys, MOST_CLIENTS};
use mio::Waker;
use node_lock::Seat;
use operator_lines::role_lists;
use role_commands::Items;
use served_node::{Heard, HeldNode, SyncTally, millis};
use server_locks::{Alarm, Front, HoldRules, JobQueue, Outbox, Slot, TicketLock, most_batch};
use std::alloc::{AllocError, Global};
use std::net::SocketAddr;
use std::sync::{Condvar, Mutex};
use std::time::Clock;

/// A node, its seats and its keys.
#[derive(Drop)]
pub struct Served<N: HeldNode, K> {
    pub node: N,
    pub seats: Vec<Seat<N::Ledger>>,
    pub keys: K,
}

/// What a server has beside its node and keys that takes memory.
#[derive(Drop)]
struct Beside<'a, N: HeldNode> {
    view_seat: Seat<N::Ledger>,
    crew: Crew<'a, N>,
    outboxes: Vec<Outbox>,
    slots: Vec<Slot<'a>>,
    heard: Heard,
}

/// What the threads share, before the first of them begins.
///
/// # Errors
///
/// Want of memory, and where there are fewer queues or seats.
pub fn server_of<'a, N: HeldNode + Drop, K: FrameKeys + Drop, R: Clock>(
    rt: &'a R,
    alloc: Global,
    served: Served<N, K>,
    queues: Vec<JobQueue<'a>>,
    waker: Waker,
    site: &Site,
) -> Result<Server<'a, N, K, R>, AllocError> {
    let roles = roles_of(alloc, &served.node)?;
    let Served { node, seats, keys } = served;
    let beside = beside_of::<N, K, R>(rt, alloc, seats, queues, &keys, site)?;
    Ok(Server {
        rt,
        alloc,
        node: Mutex::new(node),
        turns: TicketLock::new(),
        view_seat: Mutex::new(beside.view_seat),
        listing: Mutex::new(()),
        keys,
        crew: Mutex::new(beside.crew),
        left: Condvar::new(),
        outboxes: beside.outboxes,
        slots: beside.slots,
        waker,
        idle: site.idle,
        operators: site.operators,
        shares: site.shares,
        syncs: Mutex::new(SyncTally::new()),
        heard: Mutex::new(beside.heard),
        votes_ahead: Mutex::new(false),
        roles,
    })
}

/// The roles of each node, by its index, as the table of this one has them.
///
/// # Errors
///
/// Want of memory, and where not all that the node has recorded is kept.
fn roles_of<N: HeldNode>(alloc: Global, node: &N) -> Result<Vec<Items<u16>>, AllocError>
    ensures { IfOk result (λ lists. lists.items ≡ role_lists_of (N.held node.now).node.config.roles) }
{
    let node = node.kept().ok_or(AllocError)?;
    role_lists(alloc, node.config().roles())
}

fn beside_of<'a, N: HeldNode, K: FrameKeys, R: Clock>(
    rt: &R,
    alloc: Global,
    mut seats: Vec<Seat<N::Ledger>>,
    mut queues: Vec<JobQueue<'a>>,
    keys: &K,
    site: &Site,
) -> Result<Beside<'a, N>, AllocError> {
    let view_seat = seats.pop().ok_or(AllocError)?;
    let slots = slots_of(alloc, &mut queues)?;
    let idle = workers_of(alloc, seats, queues, keys.sizes().n())?;
    Ok(Beside {
        view_seat,
        crew: crew_of(rt, alloc, idle, keys, site)?,
        outboxes: outboxes_of(alloc, keys, &site.addresses)?,
        slots,
        heard: Heard::new(alloc, keys.sizes().n())?,
    })
}

/// A free slot for each client, with a queue of its own.
///
/// # Errors
///
/// Want of memory, and where there are fewer queues.
fn slots_of<'a>(
    alloc: Global,
    queues: &mut Vec<JobQueue<'a>>,
) -> Result<Vec<Slot<'a>>, AllocError> {
    let mut slots = Vec::new(alloc);
    for _ in 0..MOST_CLIENTS {
        slots.push(Slot::new(alloc, queues.pop().ok_or(AllocError)?)?)?;
    }
    Ok(slots)
}

/// A worker for each seat, with a queue of its own, in a cluster of so many nodes.
///
/// # Errors
///
/// Want of memory, and where there are fewer queues.
fn workers_of<'a, N: HeldNode>(
    alloc: Global,
    seats: Vec<Seat<N::Ledger>>,
    mut queues: Vec<JobQueue<'a>>,
    nodes: u8,
) -> Result<Vec<Worker<'a, N>>, AllocError> {
    let mut workers = Vec::new(alloc);
    for seat in seats {
        let queue = queues.pop().ok_or(AllocError)?;
        workers.push(Worker::new(alloc, queue, seat, nodes)?)?;
    }
    Ok(workers)
}

/// Idle workers, and what comes before the jobs that they take, beside so many connections of peers.
///
/// # Errors
///
/// Only for want of memory.
fn crew_of<'a, N: HeldNode, K: FrameKeys, R: Clock>(
    rt: &R,
    alloc: Global,
    idle: Vec<Worker<'a, N>>,
    keys: &K,
    site: &Site,
) -> Result<Crew<'a, N>, AllocError> {
    let (sizes, me) = (keys.sizes(), keys.me());
    let (rules, most) = (hold_rules_of(site), most_batch::<N>());
    let front = Front::new(alloc, sizes, me, rules, most, millis(rt))?;
    Ok(Crew {
        idle,
        front: Some(front),
        jobs: false,
        connected: Vec::with_capacity(alloc, usize::from(sizes.n()))?,
        credits: Credits::new(alloc, site.limits.places(sizes.n(), me.index()))?,
        alarm: Alarm::new(),
        failed: false,
        ended: false,
    })
}

/// Which calls get no hold at a site: where operators' lines are answered the commands of a node that was begun twice,
/// and what its shares lose or refuse.
fn hold_rules_of(site: &Site) -> HoldRules
    ensures begun_twice { result.begun_twice ≡ site.now.operators }
    ensures shares { result.shares ≡ site.now.shares }
{
    HoldRules {
        begun_twice: site.operators,
        shares: site.shares,
    }
}

/// An empty outbox for each other node, by its address.
///
/// # Errors
///
/// Only for want of memory.
fn outboxes_of<K: FrameKeys>(
    alloc: Global,
    keys: &K,
    addresses: &[SocketAddr],
) -> Result<Vec<Outbox>, AllocError> {
    let sizes = keys.sizes();
    let mut made = Vec::new(alloc);
    for (index, address) in (0..sizes.n()).zip(addresses) {
        if let Some(name) = sizes.name(index) {
            if name != keys.me() {
                made.push(Outbox::new(alloc, name, *address))?;
            }
        }
    }
    Ok(made)
}
