//! What a hold of a kept node said, for nobody to read before it is synced.

ghost use Rattle.std.specs.Prelude.{◌≡◌, ◌≤◌, ◌<◌, MatchResult, option_map, option_and_then};
ghost use Rattle.kept_node.specs.Telling.{own_packet_of, sent_receipt};

use link_frames::{Message, Packet};
use node_lock::{Outcome, Receipt, View};
use quorum_sizes::NodeName;
use std::marker::{Model, PhantomData};
use std::sync::ledger::Ledger;

/// What a hold said. Nobody reads it before it is released, save a packet to the node itself, which stays there. The
/// ledger L names the node, so that it is released by what is synced of that node.
#[derive(Drop)]
pub struct Untold<L: Ledger> {
    receipt: Option<Receipt>,
    view: View,
    at: u64,
    ledger: PhantomData<L>,
}

impl<L: Ledger> Model for Untold<L> {
    ghost use Rattle.kept_node.specs.Telling.{UntoldValue};

    ghost Value = { UntoldValue };

    ghost view = { λ a. record { receipt = a.receipt; view = a.view; at = a.at } };
}

impl<L: Ledger> Untold<L> {
    /// What a hold said, which speaks of so many events since the journal began.
    pub(crate) fn new(receipt: Option<Receipt>, view: View, at: u64) -> Untold<L>
        ensures { result ≡ record { receipt = receipt; view = view; at = at } }
    {
        Untold {
            receipt,
            view,
            at,
            ledger: PhantomData,
        }
    }

    /// The packet to itself that a hold has the node of this name send.
    pub fn own_packet(&self, me: NodeName) -> Option<Packet>
        ensures { result ≡ own_packet_of me self.now.receipt }
    {
        let message = sent_by(self.receipt.as_ref()?)?;
        Packet::new(me, me, message)
    }

    /// What was said, where all that it speaks of is synced; else it is handed back.
    pub fn release(self, synced: &Synced<L>) -> Result<Told, Untold<L>>
        ensures { MatchResult result
            (λ told. (told ≡ record { receipt = self.receipt; view = self.view; at = self.at })
            × (self.at ≤ synced.now))
            (λ untold. (untold ≡ self) × (synced.now < self.at)) }
    {
        if self.at > synced.upto {
            return Err(self);
        }
        let Untold {
            receipt,
            view,
            at,
            ..
        } = self;
        Ok(Told { receipt, view, at })
    }
}

/// So many events since the journal began are synced: a node says so of itself.
#[derive(Clone, Copy)]
pub struct Synced<L: Ledger> {
    upto: u64,
    ledger: PhantomData<L>,
}

impl<L: Ledger> Model for Synced<L> {
    ghost use Rattle.std.specs.Prelude.{ℕ};

    ghost Value = { ℕ };

    ghost view = { λ a. a.upto };

    ghost inverse = { λ n. record { upto = n; ledger = record {} } };
}

impl<L: Ledger> Synced<L> {
    /// Synced up to so many events.
    pub(crate) fn new(upto: u64) -> Synced<L>
        ensures { result ≡ upto }
    {
        Synced {
            upto,
            ledger: PhantomData,
        }
    }

    /// How many.
    pub fn upto(&self) -> u64
        ensures { result ≡ self.now }
    {
        self.upto
    }
}

/// What a hold said, all of which is synced.
#[derive(Drop)]
pub struct Told {
    receipt: Option<Receipt>,
    view: View,
    at: u64,
}

impl Model for Told {
    ghost use Rattle.kept_node.specs.Telling.{ToldValue};

    ghost Value = { ToldValue };

    ghost view = { λ a. record { receipt = a.receipt; view = a.view; at = a.at } };
}

impl Told {
    /// How many events since the journal began it speaks of, at most.
    pub fn at(&self) -> u64
        ensures { result ≡ self.now.at }
    {
        self.at
    }

    /// The message that the node now sends to its peers.
    pub fn leaving(&self) -> Option<Leaving>
        ensures { result ≡ option_and_then sent_receipt self.now.receipt }
    {
        let message = sent_by(self.receipt.as_ref()?)?;
        Some(Leaving { message })
    }

    /// The receipt of the call, where there was one, and the view after it.
    pub fn into_parts(self) -> (Option<Receipt>, View)
        ensures { result ≡ (self.receipt, self.view) }
    {
        let Told { receipt, view, .. } = self;
        (receipt, view)
    }
}

/// A message that may go to the node's peers.
#[derive(Clone, Copy)]
pub struct Leaving {
    message: Message,
}

impl Model for Leaving {
    ghost use Rattle.link_frames.specs.declared.frames.packet.Message.{Message};

    ghost Value = { Message };

    ghost view = { λ a. a.message };

    ghost inverse = { λ message. record { message = message } };
}

impl Leaving {
    /// The message.
    pub fn message(&self) -> Message
        ensures { result ≡ self.now }
    {
        self.message
    }
}

/// The message that a receipt has the node send to all.
fn sent_by(receipt: &Receipt) -> Option<Message>
    ensures { result ≡ sent_receipt receipt.now }
{
    match &receipt.outcome {
        Outcome::Reply(reply) => reply.message(),
        Outcome::Answer(_) | Outcome::Refused(_) => None,
    }
}
