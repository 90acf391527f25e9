//! The members of a cluster text, before they are held against each other. Nothing here takes memory.

ghost use Rattle.std.specs.Prelude.{◌≡◌, ◌≤◌, ◌^◌, ◌-◌, map, Option, option_map, IfSome, IfOk, IfErr, Ok, Err};
ghost use Rattle.std.specs.List.{filter_map};
ghost use Rattle.serde_json.specs.View.{view};
ghost use Rattle.serde_json.specs.Data.{Data};
ghost use Rattle.cluster_text.specs.Shapes as shapes;
ghost use Rattle.cluster_text.specs.Shapes.{list_member};

use crate::cluster::Mode;
use crate::fault::ClusterFault;
use client_lines::{Member, MemberFault, member_number};
use hex::FromHex;
use serde_json::Value;

/// What a cluster text says of a server's links; in a pipe there is none of it.
#[derive(Drop)]
pub struct LinkMembers<'a> {
    /// The key that the node shares with each node, as 64 hexadecimal digits.
    pub keys: &'a [Value],
    /// The ports of the nodes.
    pub nodes: &'a [Value],
    /// The port for clients.
    pub client: u16,
}

/// What a cluster text says. Each member has its own shape.
#[derive(Drop)]
pub struct Shape<'a> {
    pub cluster: u32,
    pub n: u8,
    pub f: u8,
    pub me: u8,
    /// Pairs of a role and its owner.
    pub roles: &'a [Value],
    pub links: LinkMembers<'a>,
}

/// The members of the text, in the order in which they are looked at.
#[tactic(auto, unfolding(crate::specs::Shapes::shape_of))]
pub fn shape_of(mode: Mode, text: &Value) -> Result<Shape<'_>, ClusterFault>
    ensures ok { IfOk result (λ shape. shapes.shape_of mode (view text.entry.now) ≡ Ok (shapes.shape_view shape)) }
    ensures err { IfErr result (λ e. shapes.shape_of mode (view text.entry.now) ≡ Err e) }
{
    let cluster = number(text, Member::Cluster, u64::from(u32::MAX))?;
    let n = number(text, Member::N, u64::from(u8::MAX))?;
    let f = number(text, Member::F, u64::from(u8::MAX))?;
    let me = number(text, Member::Me, u64::from(u8::MAX))?;
    let roles = items_of(text, Member::Roles, pair_of)?;
    let links = links_of(mode, text)?;
    Ok(Shape {
        cluster: cluster as u32,
        n: n as u8,
        f: f as u8,
        me: me as u8,
        roles,
        links,
    })
}

#[tactic(auto, unfolding(crate::specs::Shapes::links_of))]
fn links_of(mode: Mode, text: &Value) -> Result<LinkMembers<'_>, ClusterFault>
    ensures ok { IfOk result (λ links. shapes.links_of mode (view text.entry.now) ≡ Ok (shapes.links_view links)) }
    ensures err { IfErr result (λ e. shapes.links_of mode (view text.entry.now) ≡ Err e) }
{
    match mode {
        Mode::Pipe => Ok(LinkMembers {
            keys: &[],
            nodes: &[],
            client: 0,
        }),
        Mode::Serve => {
            let keys = items_of(text, Member::Keys, key_of)?;
            let nodes = items_of(text, Member::Nodes, port_of)?;
            let client = port_member(text, Member::Client)?;
            Ok(LinkMembers {
                keys,
                nodes,
                client,
            })
        }
    }
}

#[tactic(auto, unfolding(crate::specs::Shapes::number_of))]
fn number(text: &Value, member: Member, most: u64) -> Result<u64, ClusterFault>
    ensures value { result ≡ shapes.number_of member most (view text.now) }
    ensures within { IfOk result (λ n. n ≤ most) }
{
    match member_number(text, member, most) {
        Ok(number) => Ok(number),
        Err(MemberFault::Missing) => Err(ClusterFault::Missing(member)),
        Err(MemberFault::OutOfRange) => Err(ClusterFault::OutOfRange(member)),
    }
}

#[tactic(auto, unfolding(crate::specs::Shapes::port_member))]
fn port_member(text: &Value, member: Member) -> Result<u16, ClusterFault>
    ensures { result ≡ shapes.port_member member (view text.now) }
{
    let Some(value) = text.get(member.name()) else {
        return Err(ClusterFault::Missing(member));
    };
    match port_of(value) {
        Some(port) => Ok(port),
        None => Err(ClusterFault::OutOfRange(member)),
    }
}

/// The items of a member's list.
#[tactic(auto, unfolding(crate::specs::Shapes::list_items))]
fn list_items(text: &Value, member: Member) -> Result<&[Value], ClusterFault>
    ensures ok { IfOk result (λ items. shapes.list_items member (view text.entry.now) ≡ Ok (map view items.now)) }
    ensures err { IfErr result (λ e. shapes.list_items member (view text.entry.now) ≡ Err e) }
{
    let Some(value) = text.get(member.name()) else {
        return Err(ClusterFault::Missing(member));
    };
    match list_of(value) {
        Some(items) => Ok(items),
        None => Err(ClusterFault::OutOfRange(member)),
    }
}

/// The items of a member's list, where `read` takes each of them.
#[tactic(auto, unfolding(crate::specs::Shapes::list_member))]
fn items_of<T: Drop, F: Fn(&Value) -> Option<T>>(
    text: &Value,
    member: Member,
    read: F,
) -> Result<&[Value], ClusterFault>
    ghost shape: { Data → Option T }
    requires callable { F.IsAlwaysCallable read }
    requires reads { (value : _) (r : _) → F.post read value r → r ≡ shape (view value.now) }
    ensures ok { IfOk result (λ items. list_member member shape (view text.entry.now)
        ≡ Ok (filter_map (λ v. shape (view v)) items.now)) }
    ensures err { IfErr result (λ e. list_member member shape (view text.entry.now) ≡ Err e) }
{
    let items = list_items(text, member)?;
    for item in items {
        if read(item).is_none() {
            return Err(ClusterFault::OutOfRange(member));
        }
    }
    Ok(items)
}

/// A role and its owner.
#[tactic(auto, unfolding(crate::specs::Shapes::pair_of))]
pub fn pair_of(value: &Value) -> Option<(u16, u8)>
    ensures { result ≡ shapes.pair_of (view value.now) }
{
    match list_of(value)? {
        [role, owner] => {
            let role = number_most(role, u64::from(u16::MAX))?;
            let owner = number_most(owner, u64::from(u8::MAX))?;
            Some((role as u16, owner as u8))
        }
        _ => None,
    }
}

/// A key, as 64 hexadecimal digits.
#[tactic(auto, unfolding(crate::specs::Shapes::key_of))]
pub fn key_of(value: &Value) -> Option<[u8; 32]>
    ensures { result ≡ shapes.key_of (view value.now) }
{
    <[u8; 32] as FromHex>::from_hex(value.as_str()?).ok()
}

/// A port, from 1.
#[tactic(auto, unfolding(crate::specs::Shapes::port_of))]
pub fn port_of(value: &Value) -> Option<u16>
    ensures { result ≡ shapes.port_of (view value.now) }
{
    let port = number_most(value, u64::from(u16::MAX))?;
    if port >= 1 { Some(port as u16) } else { None }
}

fn number_most(value: &Value, most: u64) -> Option<u64>
    ensures value { result ≡ shapes.number_most most (view value.now) }
    ensures within { IfSome result (λ n. n ≤ most) }
{
    let number = value.as_u64()?;
    if number <= most { Some(number) } else { None }
}

/// The items of a list.
pub fn list_of(value: &Value) -> Option<&[Value]>
    ensures { option_map (λ items. map view items.now) result ≡ shapes.list_of (view value.now) }
{
    match value.as_array() {
        Some(items) => Some(items.as_slice()),
        None => None,
    }
}
