//! The keys by which frames open and are sealed.

ghost use Rattle.std.specs.Prelude.{◌≡◌, ◌<◌, ℕ, List, Option, IfSome, option_map};
ghost use Rattle.std.specs.Result.{result_ok};
ghost use Rattle.quorum_sizes.specs.Sizes.{Counts};
ghost use Rattle.link_frames.specs.frames.Opening.{open_due};
ghost use Rattle.link_frames.specs.frames.Packets.{PacketValue};
ghost use Rattle.link_frames.specs.declared.frames.packet.Message.{Message};
ghost use Rattle.frame_queues.specs.Sealed.{frame_due};
ghost use Rattle.frame_queues.specs.declared.keys.PeerName.{PeerName};

use link_frames::{Frame, Message, Packet, PairKeys, open_frame, seal};
use quorum_sizes::{NodeName, Sizes};

/// A peer as the keys name it: who seals under these keys in the name of this index. Of other keys it is another peer.
#[derive(Clone, Copy, Debug, PartialEq, Eq)]
pub struct PeerName {
    pub index: u8,
    pub keys: u32,
}

/// The keys and sizes by which a node's frames open and are sealed.
///
/// Contracts see whose they are (`owner`) and in a cluster of which sizes (`sized`), which packet a frame opens as
/// (`opened`), which frame a message to a node gets (`sealed`), and whose packet one is (`peer_of`).
pub trait FrameKeys {
    ghost owner: { Self → ℕ };

    ghost sized: { Self → Counts };

    ghost opened: { Self → List ℕ → Option PacketValue };

    ghost sealed: { Self → ℕ → Message → Option (List ℕ) };

    ghost peer_of: { Self → PacketValue → PeerName };

    /// The node itself.
    fn me(&self) -> NodeName
        ensures { result ≡ owner self.now };

    /// The sizes of its cluster.
    fn sizes(&self) -> Sizes
        ensures { result ≡ sized self.now };

    /// The packet of a frame to this node, if it opens.
    fn open(&self, frame: &Frame) -> Option<Packet>
        ensures { result ≡ opened self.now frame.now };

    /// The frame of a message to a node of the cluster, if a packet of this node may have the message.
    fn seal(&self, to: NodeName, message: &Message) -> Option<Frame>
        ensures { result ≡ sealed self.now to message.now };

    /// The peer whose packet has opened.
    fn peer(&self, packet: &Packet) -> PeerName
        ensures { result ≡ peer_of self.now packet.now };
}

/// The keys that a node shares with each node of one cluster.
#[derive(Drop)]
pub struct ClusterKeys {
    keys: PairKeys,
    sizes: Sizes,
    cluster: u32,
    me: NodeName,
    ghost sized: { keys.sizes ≡ sizes },
    ghost own: { keys.me ≡ me },
    ghost node: { me < sizes.nodes },
}

impl ClusterKeys {
    /// The keys of the node of this name, in the cluster of this number.
    pub fn new(keys: PairKeys, sizes: Sizes, cluster: u32, me: NodeName) -> ClusterKeys
        requires sized { keys.sizes ≡ sizes }
        requires own { keys.me ≡ me }
        requires node { me < sizes.nodes }
        ensures keys { result.keys ≡ keys }
        ensures sizes { result.sizes ≡ sizes }
        ensures cluster { result.cluster ≡ cluster }
        ensures me { result.me ≡ me }
    {
        ClusterKeys {
            keys,
            sizes,
            cluster,
            me,
        }
    }
}

impl FrameKeys for ClusterKeys {
    ghost use Rattle.std.specs.Result.{result_ok};
    ghost use Rattle.link_frames.specs.frames.Opening.{open_due};
    ghost use Rattle.frame_queues.specs.Sealed.{frame_due};

    ghost owner = { λ k. k.keys.me };

    ghost sized = { λ k. k.keys.sizes };

    ghost opened = { λ k f. result_ok (open_due k.keys k.cluster f) };

    ghost sealed = { λ k to m. frame_due k.keys k.cluster to m };

    ghost peer_of = { λ k p. record { index = p.from; keys = 0 } };

    fn me(&self) -> NodeName {
        self.me
    }

    fn sizes(&self) -> Sizes {
        self.sizes
    }

    fn open(&self, frame: &Frame) -> Option<Packet> {
        open_frame(&self.keys, &self.sizes, self.cluster, frame).ok()
    }

    fn seal(&self, to: NodeName, message: &Message) -> Option<Frame> {
        let packet = Packet::new(self.me, to, *message)?;
        if self.sizes.has(to) {
            Some(seal(&self.keys, self.cluster, &packet))
        } else {
            None
        }
    }

    fn peer(&self, packet: &Packet) -> PeerName {
        PeerName {
            index: packet.from().index(),
            keys: 0,
        }
    }
}
