//! How far each node has voted in each owner's stream.

ghost use Rattle.std.specs.Prelude.{◌≡◌, ◌<◌, ◌≤◌, ◌+◌, ◌*◌, List, [], ◌∷◌, ◌++◌, length, IfOk, IfSome};
ghost use Rattle.link_frames.specs.frames.Packets.{PacketValue, place_count};
ghost use Rattle.owner_streams.specs.LastVotes.{vote_place, last_vote};
ghost use Rattle.owner_streams.specs.inside.VoteEnds.{voted_to, AreEndsOf};

use link_frames::{Kind, Packet, Place};
use quorum_sizes::{NodeName, Sizes};
use std::alloc::{AllocError, Global};

/// Of each owner's stream and each node the place behind the node's last vote there, or 0 where it has not voted: a
/// row for each owner.
#[derive(Drop)]
pub(crate) struct VoteEnds {
    ends: Vec<u32>,
}

impl VoteEnds {
    /// Those of a cluster of these sizes, of which nothing was taken.
    pub(crate) fn new(alloc: Global, sizes: &Sizes) -> Result<VoteEnds, AllocError>
        ensures { IfOk result (AreEndsOf sizes.now []) }
    {
        let nodes = usize::from(sizes.n());
        Ok(VoteEnds {
            ends: vec![in alloc; 0u32; nodes * nodes]?,
        })
    }

    /// Counts a packet that was taken.
    #[inline(always)]
    pub(crate) fn count(&mut self, sizes: &Sizes, packet: &Packet)
        requires from { packet.now.from < sizes.now.nodes }
        requires owner { packet.now.owner < sizes.now.nodes }
        requires one_each { length self.old.ends.items ≡ sizes.now.nodes * sizes.now.nodes }
        ensures { (packets : List PacketValue) → AreEndsOf sizes.now packets self.old →
            AreEndsOf sizes.now (packets ++ packet.now ∷ []) self.new }
    {
        let at = index_of(sizes, packet.owner(), packet.from());
        self.ends[at] = self.ends[at].max(end_of(packet));
    }

    /// The place of the node's last vote in the owner's stream.
    pub(crate) fn last_vote(&self, sizes: &Sizes, owner: NodeName, voter: NodeName) -> Option<Place>
        requires owner { owner < sizes.now.nodes }
        requires voter { voter < sizes.now.nodes }
        requires one_each { length self.now.ends.items ≡ sizes.now.nodes * sizes.now.nodes }
        ensures due { (packets : List PacketValue) → AreEndsOf sizes.now packets self.now →
            result ≡ last_vote owner voter packets }
        ensures bound { (packets : List PacketValue) → AreEndsOf sizes.now packets self.now →
            IfSome result (λ place. place < place_count) }
    {
        self.ends[index_of(sizes, owner, voter)].checked_sub(1)
    }
}

/// Where the number of an owner's stream and a node stands.
#[inline(always)]
fn index_of(sizes: &Sizes, owner: NodeName, voter: NodeName) -> usize
    requires owner { owner < sizes.now.nodes }
    requires voter { voter < sizes.now.nodes }
    ensures value { result ≡ owner * sizes.now.nodes + voter }
    ensures within { result < sizes.now.nodes * sizes.now.nodes }
{
    usize::from(owner.index()) * usize::from(sizes.n()) + usize::from(voter.index())
}

/// The place behind a vote, and 0 where the packet is none.
#[inline(always)]
fn end_of(packet: &Packet) -> u32
    ensures value { result ≡ voted_to (vote_place packet.now.owner packet.now.from packet.now) }
    ensures bound { result ≤ place_count }
{
    match packet.kind() {
        Kind::Send => 0,
        Kind::Echo | Kind::Ready => packet.place() + 1,
    }
}
