//! What a node has sent to all, as far as a peer may lack it.

ghost use Rattle.std.specs.Prelude.{◌≡◌, ◌<◌, ◌++◌, IfOk, IfErr, OnOk, OnErr};
ghost use Rattle.role_node.specs.Windows.{last_vote_at, voted_to, window_from, window_to};
ghost use Rattle.node_lock.specs.Holds.{Fits, IsMisfit};
ghost use Rattle.node_lock.specs.Views.{node_count};
ghost use Rattle.peer_windows.specs.Sent.{window_of, rest_of, reach_of, level_at, is_settled_at};
ghost use Rattle.peer_windows.specs.Sent.{IsReadFault, IsSeatAfter, IsLookAt};
ghost use Rattle.peer_windows.specs.Owed.{step_messages};
ghost use Rattle.peer_windows.specs.Looks.{seen_at};
ghost use Rattle.peer_windows.specs.Pairs.{seems_settled};

use crate::seen::{Level, Seen, Step};
use crate::sent::{push_probe, push_sent, push_tail};
use crate::stream_look::StreamLook;
use crate::window::{PeerWindow, vote_end};
use link_frames::{Message, Place};
use node_lock::{Locked, Seat, StepFault};
use quorum_sizes::NodeName;
use std::sync::ledger::Ledger;

/// The peer's window in the owner's stream. Both must be nodes of the sizes ([`has`](Locked::has)).
pub fn window_at<L: Ledger>(locked: &Locked<L>, owner: NodeName, peer: NodeName) -> PeerWindow
    requires owner { owner < node_count locked.now }
    requires peer { peer < node_count locked.now }
    ensures from { result.from ≡ window_from (last_vote_at locked.now.node.history owner peer) }
    ensures to { result.to ≡ window_to (last_vote_at locked.now.node.history owner peer) }
{
    PeerWindow::around(locked.last_vote(owner, peer))
}

/// Puts all that the node sends again to the peer about the owner's stream behind the messages: what it has sent in the
/// peer's window. Both must be nodes of the sizes.
///
/// # Errors
///
/// The seat does not fit the node, and last want of memory. The messages stay as they were.
pub fn push_window<L: Ledger>(
    locked: &mut Locked<L>,
    seat: &mut Seat<L>,
    owner: NodeName,
    peer: NodeName,
    messages: &mut Vec<Message>,
) -> Result<(), StepFault>
    requires owner { owner < node_count locked.old }
    requires peer { peer < node_count locked.old }
    ensures ok { OnOk result (messages.new.items ≡ messages.old.items ++ window_of locked.old owner peer) }
    ensures err { OnErr result (messages.new.items ≡ messages.old.items) }
    ensures fault { IfErr result (IsReadFault locked.old seat.old) }
    ensures seat { IsSeatAfter locked.old seat.old seat.new }
    ensures same { locked.new ≡ locked.old }
{
    let PeerWindow { from, to } = window_at(&*locked, owner, peer);
    push_sent(locked, seat, owner, from, to, messages)
}

/// The same, from a place on.
///
/// # Errors
///
/// As [`push_window`].
pub fn push_rest<L: Ledger>(
    locked: &mut Locked<L>,
    seat: &mut Seat<L>,
    owner: NodeName,
    peer: NodeName,
    first: Place,
    messages: &mut Vec<Message>,
) -> Result<(), StepFault>
    requires owner { owner < node_count locked.old }
    requires peer { peer < node_count locked.old }
    ensures ok { OnOk result (messages.new.items ≡ messages.old.items ++ rest_of locked.old owner peer first) }
    ensures err { OnErr result (messages.new.items ≡ messages.old.items) }
    ensures fault { IfErr result (IsReadFault locked.old seat.old) }
    ensures seat { IsSeatAfter locked.old seat.old seat.new }
    ensures same { locked.new ≡ locked.old }
{
    let PeerWindow { from, to } = window_at(&*locked, owner, peer);
    push_sent(locked, seat, owner, first.max(from), to, messages)
}

/// Puts what a step has the node send to the peer behind the messages. Both must be nodes of the sizes.
///
/// # Errors
///
/// As [`push_window`].
#[tactic(auto, using(crate::proofs::Seats::seats))]
pub fn push_step<L: Ledger>(
    locked: &mut Locked<L>,
    seat: &mut Seat<L>,
    owner: NodeName,
    peer: NodeName,
    step: Step,
    messages: &mut Vec<Message>,
) -> Result<(), StepFault>
    requires owner { owner < node_count locked.old }
    requires peer { peer < node_count locked.old }
    ensures ok { OnOk result (messages.new.items ≡ messages.old.items ++ step_messages locked.old owner peer step) }
    ensures err { OnErr result (messages.new.items ≡ messages.old.items) }
    ensures fault { IfErr result (IsReadFault locked.old seat.old) }
    ensures seat { IsSeatAfter locked.old seat.old seat.new }
    ensures same { locked.new ≡ locked.old }
{
    match step {
        Step::Nothing => Ok(()),
        Step::Probe => push_probe(locked, seat, owner, messages),
        Step::Tail => push_tail(locked, seat, owner, messages),
        Step::Window => push_window(locked, seat, owner, peer, messages),
        Step::Rest(from) => push_rest(locked, seat, owner, peer, from, messages),
    }
}

/// How far the owner's stream reaches, and how far the peer has voted in it. Both must be nodes of the sizes.
///
/// # Errors
///
/// Only where the seat does not fit the node.
#[tactic(auto, using(crate::proofs::Seats::seats))]
pub fn level_of<L: Ledger>(
    locked: &mut Locked<L>,
    seat: &mut Seat<L>,
    owner: NodeName,
    peer: NodeName,
) -> Result<Level, StepFault>
    requires owner { owner < node_count locked.old }
    requires peer { peer < node_count locked.old }
    ensures level { IfOk result (λ level. level ≡ level_at locked.old owner peer) }
    ensures fits { OnOk result (Fits locked.old seat.old) }
    ensures fault { IfErr result (IsMisfit locked.old seat.old) }
    ensures seat { IsSeatAfter locked.old seat.old seat.new }
    ensures same { locked.new ≡ locked.old }
{
    let (_, view) = locked.hold(seat, None, owner, 0)?;
    Ok(Level {
        reach: view.reach,
        voted: vote_end(locked.last_vote(owner, peer)),
    })
}

/// What is seen of the peer beside the owner's stream, which was looked at after this history. Both must be nodes of
/// the sizes.
pub fn seen_of<L: Ledger>(
    locked: &Locked<L>,
    look: &StreamLook,
    owner: NodeName,
    peer: NodeName,
) -> Seen
    requires owner { owner < node_count locked.now }
    requires peer { peer < node_count locked.now }
    requires look { IsLookAt locked.now owner look.now }
    ensures reach { result.reach ≡ reach_of locked.now owner }
    ensures voted { result.voted ≡ voted_to (last_vote_at locked.now.node.history owner peer) }
    ensures settled { seems_settled result ≡ is_settled_at locked.now owner peer }
    ensures value { result ≡ seen_at locked.now owner peer }
{
    Seen {
        reach: look.reach,
        voted: vote_end(locked.last_vote(owner, peer)),
        outstanding: look.outstanding,
    }
}
