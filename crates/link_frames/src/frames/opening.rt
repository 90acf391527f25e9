//! Frames that are opened: the packet, or the first fault.

ghost use Rattle.std.specs.Prelude.{◌≡◌, ◌+◌, ◌<◌, ◌≤◌, length, IfOk};
ghost use Rattle.std.specs.Str.{bytes_eq};
ghost use Rattle.link_frames.specs.frames.Frames.{IsFrameFor};
ghost use Rattle.link_frames.specs.frames.Layout.{frame_len};
ghost use Rattle.role_commands.specs.Bytes.{part};
ghost use Rattle.link_frames.specs.frames.Opening.{kind_in, packet_in, open_due};
ghost use Rattle.link_frames.specs.frames.Packets.{PacketValue};

use crate::frames::keys::PairKeys;
use crate::frames::kind::Kind;
use crate::frames::layout::{
    CLUSTER_AT, COMMAND_AT, FRAME_LEN, FROM_AT, KIND_AT, OWNER_AT, PLACE_AT, TAG_AT, TAG_LEN,
    TO_AT, VERSION, VERSION_AT,
};
use crate::frames::packet::{Message, Packet, is_relayed};
use quorum_sizes::{NodeName, Sizes};
use role_commands::decode;
use std::error::Error;
use std::fmt;

/// Why bytes are no frame that this node opens. Written as its code and its name.
#[derive(Clone, Copy, Debug, PartialEq, Eq)]
pub enum LinkFault {
    /// There are not 54 bytes.
    Length,
    /// The version is not 2.
    Version,
    /// The cluster is another than the reader's.
    Cluster,
    /// The packet is sent to another than the reader.
    NotForMe,
    /// The sender is no node of the cluster.
    NoSuchNode,
    /// The tag is not the HMAC of the fields under the key that the sender and the reader share.
    BadTag,
    /// The kind is none of the three.
    BadKind,
    /// The owner is no node of the cluster.
    BadOwner,
    /// The bytes of the command are those of no command.
    BadCommand,
    /// It is a SEND that comes from another than its owner.
    SendNotByOwner,
    /// The place is not below [`PLACES`](crate::PLACES).
    BadPlace,
}

impl fmt::Display for LinkFault {
    ghost use Rattle.std.specs.Prelude.{Some};
    ghost use Rattle.link_frames.specs.Texts.{link_fault_text};

    ghost output = { λ fault. Some (link_fault_text fault) };

    fn fmt<W: fmt::Write>(&self, f: &mut fmt::Formatter<W>) -> fmt::Result {
        f.write_str(match self {
            LinkFault::Length => "L1 Length",
            LinkFault::Version => "L2 Version",
            LinkFault::Cluster => "L3 Cluster",
            LinkFault::NotForMe => "L4 NotForMe",
            LinkFault::NoSuchNode => "L5 NoSuchNode",
            LinkFault::BadTag => "L6 BadTag",
            LinkFault::BadKind => "L7 BadKind",
            LinkFault::BadOwner => "L8 BadOwner",
            LinkFault::BadCommand => "L9 BadCommand",
            LinkFault::SendNotByOwner => "L10 SendNotByOwner",
            LinkFault::BadPlace => "L11 BadPlace",
        })
    }
}

impl Error for LinkFault {}

/// The packet whose frame these bytes are, in this cluster, sent to the node whose keys these are by one
/// of its peers or itself.
///
/// # Errors
///
/// The first fault of [`LinkFault`]'s order that holds.
pub fn open_frame(
    keys: &PairKeys,
    sizes: &Sizes,
    cluster: u32,
    bytes: &[u8],
) -> Result<Packet, LinkFault>
    requires { keys.now.sizes ≡ sizes.now }
    // What is opened is the frame of the packet.
    ensures found { IfOk result (λ p. IsFrameFor keys.now cluster bytes.now p) }
    // The frame of a packet is opened as that packet.
    ensures only { (p : PacketValue) → IsFrameFor keys.now cluster bytes.now p → result ≡ Ok p }
    // Which fault it is.
    ensures exact { result ≡ open_due keys.now cluster bytes.now }
{
    open_bytes(keys, sizes, cluster, bytes)
}

#[tactic(auto, unfolding(crate::specs::frames::Opening::open_due, crate::specs::frames::Opening::need))]
fn open_bytes(
    keys: &PairKeys,
    sizes: &Sizes,
    cluster: u32,
    bytes: &[u8],
) -> Result<Packet, LinkFault>
    requires { keys.now.sizes ≡ sizes.now }
    ensures { result ≡ open_due keys.now cluster bytes.now }
{
    if bytes.len() != FRAME_LEN {
        return Err(LinkFault::Length);
    }
    if bytes[VERSION_AT] != VERSION {
        return Err(LinkFault::Version);
    }
    if u32::from_be_bytes(part_of(bytes, CLUSTER_AT)) != cluster {
        return Err(LinkFault::Cluster);
    }
    let me = keys.me();
    if bytes[TO_AT] != me.index() {
        return Err(LinkFault::NotForMe);
    }
    let Some(from) = sizes.name(bytes[FROM_AT]) else {
        return Err(LinkFault::NoSuchNode);
    };
    let tag: [u8; TAG_LEN] = part_of(bytes, TAG_AT);
    let fields: [u8; TAG_AT] = part_of(bytes, 0);
    if !is_same_tag(&tag, &keys.key(from).tag(&fields)) {
        return Err(LinkFault::BadTag);
    }
    read_packet(sizes, from, me, bytes)
}

/// Whether two tags are the same. All their bytes are looked at, wherever they differ.
fn is_same_tag(a: &[u8; TAG_LEN], b: &[u8; TAG_LEN]) -> bool
    ensures { result ≡ bytes_eq a.now b.now }
{
    let mut differences = 0;
    for (i, byte) in a.iter().enumerate() {
        differences |= byte ^ b[i];
    }
    differences == 0
}

/// The packet that the fields of a frame say.
fn read_packet(
    sizes: &Sizes,
    from: NodeName,
    to: NodeName,
    bytes: &[u8],
) -> Result<Packet, LinkFault>
    requires { length bytes.now ≡ frame_len }
    ensures { result ≡ packet_in sizes.now.nodes from to bytes.now }
{
    let kind = read_kind(bytes[KIND_AT]).ok_or(LinkFault::BadKind)?;
    let owner = sizes.name(bytes[OWNER_AT]).ok_or(LinkFault::BadOwner)?;
    let place = u32::from_be_bytes(part_of(bytes, PLACE_AT));
    let command = decode(&part_of(bytes, COMMAND_AT)).ok_or(LinkFault::BadCommand)?;
    let message = Message {
        kind,
        owner,
        place,
        command,
    };
    if is_relayed(from, &message) {
        return Err(LinkFault::SendNotByOwner);
    }
    Packet::new(from, to, message).ok_or(LinkFault::BadPlace)
}

fn read_kind(byte: u8) -> Option<Kind>
    ensures { result ≡ kind_in byte }
{
    match byte {
        1 => Some(Kind::Send),
        2 => Some(Kind::Echo),
        3 => Some(Kind::Ready),
        _ => None,
    }
}

/// So many bytes from a place on.
fn part_of<const N: usize>(bytes: &[u8], at: usize) -> [u8; N]
    requires { at + N ≤ length bytes.now }
    ensures { result ≡ part at N bytes.now }
{
    let mut out = [0; N];
    out.copy_from_slice(&bytes[at..at + N]);
    out
}
