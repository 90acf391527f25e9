//! Messages that go to single peers.

ghost use Rattle.std.specs.Prelude.{◌≡◌, ◌<◌, [], IfOk, IfErr, OnErr};
ghost use Rattle.node_lock.specs.Views.{node_count};
ghost use Rattle.peer_windows.specs.Sent.{IsSeatAfter};
ghost use Rattle.peer_windows.specs.Owed.{IsPushed, IsGatherFault, is_full};

use crate::peer_sent::push_step;
use crate::seen::Step;
use link_frames::Message;
use node_lock::{Locked, Seat, StepFault};
use quorum_sizes::NodeName;
use std::alloc::{AllocError, Global};
use std::marker::Model;
use std::sync::ledger::Ledger;

/// No more messages are gathered at once where there are so many.
const MANY_MESSAGES: usize = 1_024;

/// The most messages of a window: three kinds at each of its places.
const WINDOW_MESSAGES: usize = 387;

/// Messages about an owner's stream that go to one peer: so many.
#[derive(Clone, Copy, Debug, PartialEq, Eq)]
pub struct Share {
    pub owner: NodeName,
    pub peer: NodeName,
    pub step: Step,
    pub count: usize,
}

/// Messages that go to single peers: those of each share, one share after the other.
#[derive(Drop)]
pub struct Owed {
    messages: Vec<Message>,
    shares: Vec<Share>,
}

impl Model for Owed {
    ghost use Rattle.peer_windows.specs.Owed.{OwedValue};

    ghost Value = { OwedValue };

    ghost view = { λ a. record { messages = a.messages.items; shares = a.shares.items } };
}

impl Owed {
    /// None, with room for as many as are gathered at once in a cluster of so many nodes.
    ///
    /// # Errors
    ///
    /// Only for want of memory.
    pub fn new(alloc: Global, nodes: u8) -> Result<Owed, AllocError>
        ensures { IfOk result (λ made. made ≡ record { messages = []; shares = [] }) }
    {
        let nodes = usize::from(nodes);
        Ok(Owed {
            messages: Vec::with_capacity(alloc, MANY_MESSAGES + WINDOW_MESSAGES + nodes)?,
            shares: Vec::with_capacity(alloc, MANY_MESSAGES + nodes)?,
        })
    }

    /// The messages of all shares.
    pub fn messages(&self) -> &[Message]
        ensures { result.now ≡ self.now.messages }
    {
        self.messages.as_slice()
    }

    /// The shares.
    pub fn shares(&self) -> &[Share]
        ensures { result.now ≡ self.now.shares }
    {
        self.shares.as_slice()
    }

    /// Whether no more are gathered at once.
    pub fn is_full(&self) -> bool
        ensures { result ≡ is_full self.now }
    {
        self.messages.len() >= MANY_MESSAGES || self.shares.len() >= MANY_MESSAGES
    }

    /// None any more.
    pub fn clear(&mut self)
        ensures { self.new ≡ record { messages = []; shares = [] } }
    {
        self.messages.clear();
        self.shares.clear();
    }

    /// Puts a share behind the others: what the step has the node send. How many messages these are.
    ///
    /// # Errors
    ///
    /// The seat does not fit the node, or memory is wanting. Nothing is put there.
    #[tactic(auto, using(crate::proofs::Seats::gather_seats))]
    pub(crate) fn push<L: Ledger>(
        &mut self,
        locked: &mut Locked<L>,
        seat: &mut Seat<L>,
        owner: NodeName,
        peer: NodeName,
        step: Step,
    ) -> Result<usize, StepFault>
        requires owner { owner < node_count locked.old }
        requires peer { peer < node_count locked.old }
        ensures ok { IfOk result (λ count. IsPushed locked.old owner peer step count self.old self.new) }
        ensures err { OnErr result (self.new ≡ self.old) }
        ensures fault { IfErr result (IsGatherFault locked.old seat.old) }
        ensures seat { IsSeatAfter locked.old seat.old seat.new }
        ensures same { locked.new ≡ locked.old }
    {
        self.shares.try_reserve(1)?;
        let before = self.messages.len();
        push_step(locked, seat, owner, peer, step, &mut self.messages)?;
        let count = self.messages.len() - before;
        self.shares.push_reserved(Share {
            owner,
            peer,
            step,
            count,
        });
        Ok(count)
    }
}
