//! What the node answers to the lines beside the clients' table.

ghost use Rattle.std.specs.Prelude.{◌≡◌, true, IfSome};

use crate::server::Server;
use frame_queues::FrameKeys;
use operator_lines::{JournalStanding, OperatorAnswer, OperatorRequest, PeerStanding, Status};
use role_commands::Items;
use served_node::{HeldNode, millis, node_answer};
use server_locks::{Purpose, keep};
use std::alloc::AllocError;
use std::sync::Wait;
use std::time::Clock;

impl<N: HeldNode, K: FrameKeys, R: Wait + Clock> Server<'_, N, K, R> {
    /// What is answered to such a line, of what is kept. Nothing is said for want of memory, and where something is not kept.
    pub fn operator_answer(&self, request: OperatorRequest) -> Option<OperatorAnswer> {
        let answer = self.kept_answer(request)?;
        match answer {
            OperatorAnswer::Status(status) => Some(OperatorAnswer::Status(self.with_links(
                status,
            )?)),
            answer => Some(answer),
        }
    }

    /// What the node itself answers, under the lock, once all that it recorded is kept.
    fn kept_answer(&self, request: OperatorRequest) -> Option<OperatorAnswer> {
        let has_turn = self.begin_turn(Purpose::Look);
        let mut node = self.node.lock(self.rt);
        // where that fails nothing is said, and the next batch ends the node
        let _ = keep(self.rt, &self.syncs, &mut *node);
        let answer = node.kept().and_then(|node| node_answer(
            self.alloc,
            node,
            &self.roles,
            self.shares,
            request,
        ));
        drop(node);
        self.end_turn(has_turn);
        answer
    }

    /// How the node stands, with its journal and its peers. It was begun twice where its history or its peers show it.
    fn with_links(&self, status: Status) -> Option<Status>
        ensures node { IfSome result (λ s.
            s.node ≡ record status.node { begun_twice = s.node.begun_twice }) }
        ensures begun_twice { status.node.begun_twice ≡ true → IfSome result (λ s. s.node.begun_twice ≡ true) }
    {
        let mut node = status.node;
        node.begun_twice |= *self.votes_ahead.lock(self.rt);
        let mut peers = self.peer_standings().ok()?;
        let heard = self.heard.lock(self.rt);
        heard.add_to(&mut peers, millis(self.rt));
        let unopened = heard.unopened;
        drop(heard);
        Some(Status {
            node,
            journal: self.journal_standing(),
            peers: Items::new(peers),
            unopened,
        })
    }

    /// How the connections to the peers stand, by the peers' indices; none to the node itself.
    fn peer_standings(&self) -> Result<Vec<Option<PeerStanding>>, AllocError> {
        let nodes = usize::from(self.keys.sizes().n());
        let mut peers = Vec::from_elem(self.alloc, None, nodes)?;
        for outbox in &self.outboxes {
            if let Some(peer) = peers.get_mut(usize::from(outbox.to.index())) {
                *peer = Some(outbox.standing(self.rt));
            }
        }
        Ok(peers)
    }

    /// How the journal stands, where there is one.
    fn journal_standing(&self) -> Option<JournalStanding> {
        if !N::may_sync_long() {
            return None;
        }
        let times = self.syncs.lock(self.rt).times();
        let sound = !self.crew.lock(self.rt).failed;
        Some(JournalStanding { times, sound })
    }
}
