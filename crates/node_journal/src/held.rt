//! A node with its journal, as a server has it behind its lock.

use kept_node::{Kept, Untold};
use link_frames::{Packet, Place};
use node_lock::{Call, Outcome, Seat, StepFault};
use owner_shares::{ShareAnswer, Shares};
use peer_windows::{Owed, Pairs};
use quorum_sizes::NodeName;
use role_node::{Event, Node};
use served_node::{HeldNode, NotKept, Said};
use sqlite_disk::Disk;
use std::sync::ledger::Ledger;

/// A node that keeps what it records in its journal. Nothing that a hold said leaves before that is synced.
#[derive(Drop)]
pub struct Journaled<L: Ledger, D: Disk> {
    pub kept: Kept<L, D>,
}

impl<L: Ledger + Send + Sync, D: Disk> HeldNode for Journaled<L, D> {
    ghost use Rattle.std.specs.Prelude.{◌≡◌, ◌≤◌};
    ghost use Rattle.node_lock.specs.Holds.{end_of};
    ghost use Rattle.kept_node.specs.Keeping as keeping;
    ghost use Rattle.node_journal.specs.Keeping.{said_of};

    type Ledger = L;

    type Untold = Untold<L>;

    ghost held = { λ a. a.kept.held };

    ghost is_full = { λ a. keeping.is_full a.kept };

    ghost is_kept = { λ a. a.kept.synced ≡ end_of a.kept.held };

    ghost has_failed = { λ a. keeping.HasFailed D.Disk.seen D.Disk.is_clean a.kept.disk a.kept.broken };

    ghost said = { λ u. said_of u };

    ghost speaks_of = { λ u. u.at };

    ghost may_leave = { λ a u. u.at ≤ a.kept.synced };

    fn may_sync_long() -> bool {
        true
    }

    fn has(&self, name: NodeName) -> bool {
        self.kept.has(name)
    }

    fn is_begun_twice(&self) -> bool {
        self.kept.is_begun_twice()
    }

    fn published(&self) -> u32 {
        self.kept.published()
    }

    fn share_answer(&self, shares: &Shares, event: &Event) -> Option<ShareAnswer> {
        self.kept.share_answer(shares, event)
    }

    fn must_sync(&self) -> bool {
        self.kept.is_full()
    }

    fn hold(
        &mut self,
        seat: &mut Seat<L>,
        call: Option<Call>,
        owner: NodeName,
        place: Place,
    ) -> Result<Untold<L>, StepFault> {
        self.kept.hold(seat, call, owner, place)
    }

    fn own_packet(&self, me: NodeName, untold: &Untold<L>) -> Option<Packet> {
        untold.own_packet(me)
    }

    fn sync(&mut self) -> Result<(), NotKept> {
        match self.kept.sync() {
            Ok(_synced) => Ok(()),
            Err(_fault) => Err(NotKept),
        }
    }

    fn kept(&self) -> Option<&Node> {
        self.kept.kept_node()
    }

    fn release(&self, untold: Untold<L>) -> Option<Said> {
        let Ok(told) = untold.release(&self.kept.synced()) else {
            return None;
        };
        let (receipt, view) = told.into_parts();
        let outcome = receipt.map(|receipt| receipt.outcome);
        Some(Said { outcome, view })
    }

    fn note(
        &mut self,
        seat: &mut Seat<L>,
        now: u64,
        pairs: &mut Pairs,
        packet: Option<&Packet>,
        outcome: &Outcome,
    ) {
        self.kept.note(seat, now, pairs, packet, outcome);
    }

    fn gather(
        &mut self,
        seat: &mut Seat<L>,
        now: u64,
        pairs: &mut Pairs,
        rooms: &mut [Option<u32>],
        owed: &mut Owed,
    ) -> Result<(), StepFault> {
        self.kept.gather(seat, now, pairs, rooms, owed)
    }
}
