//! Which message a packet of the pool is, and to whom.

ghost use Rattle.std.specs.Prelude.{◌≡◌, ◌<◌, ◌+◌, ◌*◌, ◌/◌, ◌%◌};

/// Packet `k` of the pool is message `k / nodes`, to node `k % nodes`.
///
/// Packets come mostly one after another, so the one that was looked up last is kept, and the next needs no division.
#[derive(Drop)]
pub(crate) struct PacketCursor {
    nodes: u32,
    packet: u32,
    message: u32,
    to: u32,
    ghost within: { to < nodes },
    ghost number: { packet ≡ message * nodes + to },
}

impl PacketCursor {
    /// At the first packet, for so many nodes, of which there must be one.
    pub(crate) fn new(nodes: u8) -> Self
        requires { 0 < nodes }
        ensures { result.nodes ≡ nodes }
    {
        PacketCursor {
            nodes: u32::from(nodes),
            packet: 0,
            message: 0,
            to: 0,
        }
    }

    /// The number of the packet's message, and that of the node to which it is.
    #[inline(always)]
    pub(crate) fn seek(&mut self, packet: u32) -> (u32, u8)
        requires { self.old.nodes < 256 }
        ensures nodes { self.new.nodes ≡ self.old.nodes }
        ensures message { result.0 ≡ packet / self.old.nodes }
        ensures to { result.1 ≡ packet % self.old.nodes }
    {
        self.go_to(packet);
        (self.message, self.to as u8)
    }

    /// Goes to a packet, by counting where it is the next.
    #[inline(always)]
    fn go_to(&mut self, packet: u32)
        ensures nodes { self.new.nodes ≡ self.old.nodes }
        ensures packet { self.new.packet ≡ packet }
    {
        if self.packet < packet && packet - self.packet == 1 {
            self.step();
        } else {
            self.jump(packet);
        }
    }

    /// Goes on to the next packet.
    #[inline(always)]
    fn step(&mut self)
        requires { self.old.packet + 1 < 4294967296 }
        ensures nodes { self.new.nodes ≡ self.old.nodes }
        ensures packet { self.new.packet ≡ self.old.packet + 1 }
    {
        let (message, to) = if self.to + 1 < self.nodes {
            (self.message, self.to + 1)
        } else {
            (self.message + 1, 0)
        };
        *self = PacketCursor {
            nodes: self.nodes,
            packet: self.packet + 1,
            message,
            to,
        };
    }

    /// Goes to a packet.
    fn jump(&mut self, packet: u32)
        ensures nodes { self.new.nodes ≡ self.old.nodes }
        ensures packet { self.new.packet ≡ packet }
    {
        *self = PacketCursor {
            nodes: self.nodes,
            packet,
            message: packet / self.nodes,
            to: packet % self.nodes,
        };
    }
}
