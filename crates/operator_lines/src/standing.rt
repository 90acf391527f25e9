//! What is told of a node: how it stands, a command of a stream, and its open sessions.

ghost use Rattle.std.specs.Prelude.{◌≡◌, ◌<◌, slice_get, option_map, IfOk};
ghost use Rattle.role_node.specs.Access.{stream_at};
ghost use Rattle.operator_lines.specs.Standings.{places_in, reaches_at, standing_at, sessions_from};

use link_frames::Place;
use owner_shares::Shares;
use quorum_sizes::NodeName;
use role_commands::{Command, Items};
use role_node::Node;
use std::alloc::{AllocError, Global};

/// So many sessions are listed at once.
pub const MOST_SESSIONS: usize = 100;

/// How a node stands.
#[derive(Drop, Debug)]
pub struct NodeStanding {
    /// How many acts of its clients it has recorded.
    pub acts: u32,
    /// How many events it has recorded.
    pub at: u32,
    /// Whether it was begun twice, as its own stream shows.
    pub begun_twice: bool,
    /// How many of the nodes may lie.
    pub liars: u8,
    /// How many it may record.
    pub limit: u32,
    /// How many commands it has published.
    pub published: u32,
    /// How many sessions are open.
    pub sessions: u32,
    /// How far each owner's stream reaches, one for each node of the sizes.
    pub reaches: Items<u32>,
    /// How many places of its stream each node of the sizes has; none where no shares are asked.
    pub shares: Option<Items<u32>>,
}

/// How a node stands, of which these shares are asked first, if any.
///
/// # Errors
///
/// Only for want of memory.
pub fn standing_of(
    alloc: Global,
    node: &Node,
    shares: Option<Shares>,
) -> Result<NodeStanding, AllocError>
    ensures { IfOk result (λ standing. standing ≡ standing_at shares node.now) }
{
    let reaches = reaches_of(alloc, node)?;
    let shares = shares_of(alloc, node, shares)?;
    Ok(NodeStanding {
        acts: node.acts(),
        at: node.events(),
        begun_twice: node.is_begun_twice(),
        liars: node.config().roles().sizes().f(),
        limit: node.config().limit(),
        published: node.published(),
        sessions: node.open_count(),
        reaches: Items::new(reaches),
        shares,
    })
}

/// How many places each node has, where there are shares.
fn shares_of(
    alloc: Global,
    node: &Node,
    shares: Option<Shares>,
) -> Result<Option<Items<u32>>, AllocError>
    ensures { IfOk result (λ places. places ≡ option_map (places_in node.now) shares) }
{
    match shares {
        Some(shares) => Ok(Some(Items::new(places_of(alloc, node, &shares)?))),
        None => Ok(None),
    }
}

/// How many places each node has.
fn places_of(alloc: Global, node: &Node, shares: &Shares) -> Result<Vec<u32>, AllocError>
    ensures { IfOk result (λ places. places.items ≡ places_in node.now shares.now) }
{
    let sizes = node.config().roles().sizes();
    let mut places = Vec::with_capacity(alloc, usize::from(sizes.n()))?;
    for index in 0..sizes.n() {
        let Some(owner) = sizes.name(index) else {
            unreachable!();
        };
        places.push(shares.share(owner))?;
    }
    Ok(places)
}

/// How far each owner's stream reaches.
fn reaches_of(alloc: Global, node: &Node) -> Result<Vec<u32>, AllocError>
    ensures { IfOk result (λ reaches. reaches.items ≡ reaches_at node.now) }
{
    let sizes = node.config().roles().sizes();
    let mut reaches = Vec::with_capacity(alloc, usize::from(sizes.n()))?;
    for index in 0..sizes.n() {
        let Some(owner) = sizes.name(index) else {
            unreachable!();
        };
        reaches.push(node.reach(owner))?;
    }
    Ok(reaches)
}

/// The command at a place of the owner's stream, if the stream reaches beyond it here. The owner must be of the node's
/// sizes; the place is any number. It takes no memory.
pub fn command_at(node: &Node, owner: NodeName, place: u64) -> Option<Command>
    requires { owner < node.now.config.roles.sizes.nodes }
    ensures { result ≡ slice_get (stream_at node.now.config.roles.sizes node.now.history owner) place }
{
    if place < u64::from(node.reach(owner)) {
        node.command(owner, place as Place)
    } else {
        None
    }
}

/// The open sessions with this id or a greater one, each with its user, in the order of their ids: the first
/// [`MOST_SESSIONS`] of them, or all where they are fewer.
///
/// # Errors
///
/// Only for want of memory.
pub fn sessions_of(node: &Node, from: u64) -> Result<Items<(u64, u32)>, AllocError>
    ensures { IfOk result (λ sessions. sessions ≡ sessions_from node.now from) }
{
    Ok(Items::new(node.open_sessions(from, MOST_SESSIONS)?))
}
