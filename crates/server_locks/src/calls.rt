//! Making the call of the next job, and hearing what came of it.

ghost use Rattle.std.specs.Prelude.{◌≡◌, ◌≤◌, ◌<◌, None, is_some, vec_len, IsTrue, IsFalse};
ghost use Rattle.std.specs.Option.{option_copied};
ghost use Rattle.std.specs.Vec.{vec_capacity};
ghost use Rattle.node_lock.specs.Holds.{end_of};
ghost use Rattle.peer_windows.specs.Pauses.{most_time};
ghost use Rattle.served_node.specs.Endings.{MayLeave, ending_map};
ghost use Rattle.server_locks.specs.Calls.{IsMade, IsEnded, IsHeard, IsNext, noted_ending, own_of};
ghost use Rattle.server_locks.specs.HoldRules.{IsWithin};

use crate::front::{Done, Front};
use crate::hold_rules::NoHold;
use crate::job_queue::JobQueue;
use frame_queues::Caller;
use link_frames::Packet;
use node_lock::{Call, Seat};
use served_node::{Ending, HeldNode, Said, make_call, taken_packet};
use std::sync::Wait;

/// Makes the call of the next job, by one hold, unless a rule refuses it or loses its packet. What came of it waits to
/// be told, at once where a client waits for it or the node has sent a packet; the own packet comes next. Whether there
/// was a job. A node that is within its shares stays so.
pub fn make_next<N: HeldNode, R: Wait>(
    rt: &R,
    node: &mut N,
    seat: &mut Seat<N::Ledger>,
    queue: &mut JobQueue<'_>,
    front: &mut Front<N::Untold>,
    now: u64,
) -> bool
    requires { now ≤ most_time }
    ensures made { IsTrue result → vec_len front.old.untold < vec_capacity front.old.untold →
        IsMade N.said N.speaks_of front.old.hold_rules front.new.ahead front.old.ahead front.old.me
        now front.old.tell_by front.new.tell_by
        (record { first = front.old.first; again = front.old.again.items; pass = queue.old.pass })
        (record { first = front.new.first; again = front.new.again.items; pass = queue.new.pass })
        (record { behind = node.old; held = N.held node.old; full = N.is_full node.old; seat = seat.old })
        (record { behind = node.new; held = N.held node.new; full = N.is_full node.new; seat = seat.new })
        front.old.untold.items front.new.untold.items }
    ensures none { IsFalse result → IsNext
        (record { first = front.old.first; again = front.old.again.items; pass = queue.old.pass })
        (record { first = front.new.first; again = front.new.again.items; pass = queue.new.pass }) None }
    ensures within { IsWithin front.old.hold_rules.shares (N.held node.old).node →
        IsWithin front.old.hold_rules.shares (N.held node.new).node }
    ensures idle { IsFalse result → (N.held node.new ≡ N.held node.old) × (seat.new ≡ seat.old) }
    ensures same { front.new ≡ record front.old {
      first = front.new.first;
      again = front.new.again;
      untold = front.new.untold;
      tell_by = front.new.tell_by;
      ahead = front.new.ahead;
    } }
    ensures waiting { IsFalse result → (front.new.untold ≡ front.old.untold)
        × ((front.new.tell_by ≡ front.old.tell_by) × (front.new.ahead ≡ front.old.ahead)) }
{
    let Some(job) = front.next_job(rt, queue) else {
        return false;
    };
    front.ahead.note(&*node, &job.call);
    let ending = end_call(front, node, seat, job.call);
    let caller = Caller::of(job.number);
    let has_own = put_own(&*node, front, &ending);
    let leaves = has_own || matches!(caller, Caller::Client { .. });
    let packet = taken_packet(&job.call);
    front.put_untold(
        Done {
            caller,
            packet,
            ending,
        },
        leaves,
        now,
    );
    true
}

/// Makes a call by one hold, unless a rule refuses it or loses its packet.
fn end_call<N: HeldNode>(
    front: &Front<N::Untold>,
    node: &mut N,
    seat: &mut Seat<N::Ledger>,
    call: Call,
) -> Ending<N::Untold>
    ensures ended { IsEnded N.said N.speaks_of front.now.hold_rules front.now.ahead front.now.me call
        (record { behind = node.old; held = N.held node.old; full = N.is_full node.old; seat = seat.old })
        (record { behind = node.new; held = N.held node.new; full = N.is_full node.new; seat = seat.new })
        result }
    ensures within { IsWithin front.now.hold_rules.shares (N.held node.old).node →
        IsWithin front.now.hold_rules.shares (N.held node.new).node }
{
    match front.hold_rules.no_hold(&front.ahead, &*node, &call) {
        Some(NoHold::Lost) => return Ending::Lost,
        Some(NoHold::Refused(fault)) => return Ending::Refused(fault),
        None => {}
    }
    match make_call(node, seat, call, front.me) {
        Some(untold) => Ending::Held(untold),
        None => Ending::Nothing,
    }
}

/// The packet that a hold has the node send to itself comes next, if there is one. Whether there is.
fn put_own<N: HeldNode>(node: &N, front: &mut Front<N::Untold>, ending: &Ending<N::Untold>) -> bool
    requires { front.old.first.own ≡ None }
    ensures own { front.new ≡ record front.old {
      first = record front.old.first {
        own = own_of N.said front.old.me ending.now;
      };
    } }
    ensures some { result ≡ is_some (own_of N.said front.old.me ending.now) }
{
    let Ending::Held(untold) = ending else {
        return false;
    };
    match node.own_packet(front.me, untold) {
        Some(own) => {
            front.first.put_own(own);
            true
        }
        None => false,
    }
}

/// Hears what came of a job, if that may leave, and notes what comes of it.
pub fn hear<N: HeldNode>(
    node: &mut N,
    seat: &mut Seat<N::Ledger>,
    front: &mut Front<N::Untold>,
    done: Done<N::Untold>,
    now: u64,
) -> Done<Said>
    requires { now ≤ most_time }
    ensures caller { result.caller ≡ done.caller }
    ensures packet { result.packet ≡ done.packet }
    ensures said { IsHeard
        ((u : N.Untold) → N.speaks_of u ≤ end_of (N.held node.old) → N.may_leave node.old u) (N.may_leave node.old)
        N.said done.ending result.ending }
    ensures heard { MayLeave (N.is_kept node.old) (N.may_leave node.old) done.ending →
        result.ending ≡ ending_map N.said done.ending }
    ensures pairs { front.new.pairs ≡ noted_ending (N.held node.old) seat.old now done.packet result.ending
        front.old.pairs }
    ensures same { front.new ≡ record front.old {
      first = front.new.first;
      pairs = front.new.pairs;
      has_grown = front.new.has_grown;
    } }
    ensures node { N.held node.new ≡ N.held node.old }
{
    let Done {
        caller,
        packet,
        ending,
    } = done;
    let ending = released(&*node, ending);
    note_ending(node, seat, front, packet.as_ref(), &ending, now);
    Done {
        caller,
        packet,
        ending,
    }
}

/// What came of a job, if that may leave.
fn released<N: HeldNode>(node: &N, ending: Ending<N::Untold>) -> Ending<Said>
    ensures said { IsHeard
        ((u : N.Untold) → N.speaks_of u ≤ end_of (N.held node.now) → N.may_leave node.now u) (N.may_leave node.now)
        N.said ending result }
    ensures heard { MayLeave (N.is_kept node.now) (N.may_leave node.now) ending →
        result ≡ ending_map N.said ending }
{
    match ending {
        Ending::Held(untold) => match node.release(untold) {
            Some(said) => Ending::Held(said),
            None => Ending::Nothing,
        },
        Ending::Refused(fault) if node.kept().is_some() => Ending::Refused(fault),
        Ending::Lost => Ending::Lost,
        Ending::Refused(_) | Ending::Nothing => Ending::Nothing,
    }
}

fn note_ending<N: HeldNode>(
    node: &mut N,
    seat: &mut Seat<N::Ledger>,
    front: &mut Front<N::Untold>,
    packet: Option<&Packet>,
    ending: &Ending<Said>,
    now: u64,
)
    requires { now ≤ most_time }
    ensures pairs { front.new.pairs ≡ noted_ending (N.held node.old) seat.old now (option_copied packet.entry)
        ending.now front.old.pairs }
    ensures same { front.new ≡ record front.old {
      first = front.new.first;
      pairs = front.new.pairs;
      has_grown = front.new.has_grown;
    } }
    ensures node { N.held node.new ≡ N.held node.old }
{
    let Ending::Held(said) = ending else {
        return;
    };
    if let Some(outcome) = &said.outcome {
        node.note(seat, now, &mut front.pairs, packet, outcome);
        front.note(packet, outcome);
    }
}
