//! Frames that are made.

ghost use Rattle.std.specs.Prelude.{◌≡◌, ◌<◌, ◌++◌};
ghost use Rattle.link_frames.specs.frames.Frames.{header, fields_of, frame};
ghost use Rattle.link_frames.specs.frames.KeyRings.{key_with};

use crate::frames::keys::PairKeys;
use crate::frames::kind::Kind;
use crate::frames::layout::{COMMAND_AT, FRAME_LEN, TAG_AT, TAG_LEN, VERSION};
use crate::frames::packet::Packet;
use role_commands::encode;

/// The frame of a packet in a cluster, under the key that its sender, whose keys these are, shares with
/// the node that it is sent to.
#[tactic(auto, unfolding(crate::specs::frames::Frames::frame))]
pub fn seal(keys: &PairKeys, cluster: u32, packet: &Packet) -> [u8; FRAME_LEN]
    requires from { packet.now.from ≡ keys.now.me }
    requires to { packet.now.to < keys.now.sizes.nodes }
    ensures { result ≡ frame (key_with keys.now packet.now.to) cluster packet.now }
{
    let fields = field_bytes(cluster, packet);
    let tag = keys.key(packet.to()).tag(&fields);
    joined(&fields, &tag)
}

fn joined(fields: &[u8; TAG_AT], tag: &[u8; TAG_LEN]) -> [u8; FRAME_LEN]
    ensures { result ≡ fields.now ++ tag.now }
{
    let mut frame = [0; FRAME_LEN];
    frame[..TAG_AT].copy_from_slice(fields);
    frame[TAG_AT..].copy_from_slice(tag);
    frame
}

#[tactic(auto, unfolding(crate::specs::frames::Frames::fields_of))]
fn field_bytes(cluster: u32, packet: &Packet) -> [u8; TAG_AT]
    ensures { result ≡ fields_of cluster packet.now }
{
    let mut fields = [0; TAG_AT];
    fields[..COMMAND_AT].copy_from_slice(&header_bytes(cluster, packet));
    fields[COMMAND_AT..].copy_from_slice(&encode(&packet.command()));
    fields
}

fn header_bytes(cluster: u32, packet: &Packet) -> [u8; COMMAND_AT]
    ensures { result ≡ header cluster packet.now }
{
    let [c0, c1, c2, c3] = cluster.to_be_bytes();
    let [p0, p1, p2, p3] = packet.place().to_be_bytes();
    let kind = match packet.kind() {
        Kind::Send => 1,
        Kind::Echo => 2,
        Kind::Ready => 3,
    };
    [
        VERSION,
        c0,
        c1,
        c2,
        c3,
        packet.from().index(),
        packet.to().index(),
        kind,
        packet.owner().index(),
        p0,
        p1,
        p2,
        p3,
    ]
}
