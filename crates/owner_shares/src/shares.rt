//! How many places of its stream each owner has, and what that answers to events.

ghost use Rattle.std.specs.Prelude.{◌≡◌, ◌≤◌};
ghost use Rattle.std.specs.FinSet as sets;
ghost use Rattle.quorum_sizes.specs.Sizes.{most_nodes};
ghost use Rattle.owner_shares.specs.Answers.{answer_of_shares, answer_to_act as act_answer};
ghost use Rattle.role_node.specs.declared.event.Event.TheVariants.{Issue};
ghost use Rattle.owner_shares.specs.Shares.{owners_of, places_each, share_in, shares_of};

use crate::answer::ShareAnswer;
use quorum_sizes::{NodeName, NodeSet};
use role_commands::{Command, RoleTable};
use role_node::{ClientEvent, Event, Node, NodeFault};
use std::marker::Model;

/// A role's number is below this one.
const ROLE_NUMBERS: u32 = 65_536;

/// Of a node's events so many are for what owners publish.
const PUBLISHED_EVENTS: u32 = 3_145_728;

/// So many acts the clients of a node may do, closes of sessions apart. The closes of all sessions that can be open find
/// room behind them.
pub const ACTS_SHARE: u32 = 1_044_480;

/// Which nodes own roles, and how many places of its stream each of these has. It is made once of a role table, and
/// takes no memory.
#[derive(Clone, Copy, Debug)]
pub struct Shares {
    owners: NodeSet,
    each: u32,
}

impl Model for Shares {
    ghost use Rattle.owner_shares.specs.Shares.{SharesValue, shares_code};

    ghost Value = { SharesValue };

    ghost coded = { shares_code };

    ghost view = { λ a. record { owners = a.owners; each = a.each } };

    ghost inverse = { λ s. record { owners = s.owners; each = s.each } };
}

impl Shares {
    /// The shares of the nodes that own roles of the table.
    pub fn of(roles: &RoleTable) -> Shares
        ensures { result ≡ shares_of roles.now }
    {
        let owners = owners_in(roles);
        Shares {
            owners,
            each: places_for(owners.len() as u32, roles.sizes().n()),
        }
    }

    /// How many places of its stream the node has: those below this number. A node that owns no role has none.
    pub fn share(&self, node: NodeName) -> u32
        ensures { result ≡ share_in self.now node }
    {
        if self.owners.contains(node) {
            self.each
        } else {
            0
        }
    }

    /// What the shares answer to an event, before the node is asked. Where they answer nothing, the node does. It takes
    /// no memory, and looks into the node's history only where a share is used up.
    #[inline(always)]
    pub fn answer(&self, node: &Node, event: &Event) -> Option<ShareAnswer>
        ensures { result ≡ answer_of_shares self.now node.now event.now }
    {
        match event {
            Event::Take(packet) if packet.place() < self.share(packet.owner()) => None,
            Event::Take(_) => Some(ShareAnswer::Lost),
            Event::Issue(command) => self.answer_to_command(node, command),
            Event::Client(ClientEvent::Close { .. }) => None,
            Event::Client(_) => answer_to_act(node, event),
        }
    }
}

impl Shares {
    /// F2 to a command of the node's own role, where it has published its share.
    fn answer_to_command(&self, node: &Node, command: &Command) -> Option<ShareAnswer>
        ensures { result ≡ answer_of_shares self.now node.now (Issue command.now) }
    {
        let me = node.me();
        let is_spent = node.published() >= self.share(me);
        if is_spent && node.config().roles().is_owned_by(command.role(), me) {
            Some(ShareAnswer::Refused(NodeFault::StreamFull))
        } else {
            None
        }
    }
}

/// F4 to an act that the node would record, where its clients have done their share.
fn answer_to_act(node: &Node, event: &Event) -> Option<ShareAnswer>
    ensures { result ≡ act_answer node.now event.now }
{
    if node.acts() >= ACTS_SHARE && node.records(event) {
        Some(ShareAnswer::Refused(NodeFault::Full))
    } else {
        None
    }
}

/// The nodes that own a role of the table.
fn owners_in(roles: &RoleTable) -> NodeSet
    ensures owners { result ≡ owners_of roles.now }
    ensures few { sets.len result ≤ most_nodes }
{
    let mut owners = NodeSet::new();
    for role in 0..ROLE_NUMBERS {
        if let Some(owner) = roles.owner(role as u16) {
            owners.insert(owner);
        }
    }
    owners
}

/// The places of each of so many owners, in a cluster of so many nodes.
fn places_for(owners: u32, nodes: u8) -> u32
    requires owners { owners ≤ most_nodes }
    requires nodes { nodes ≤ most_nodes }
    ensures { result ≡ places_each owners nodes }
{
    PUBLISHED_EVENTS / (owners * (2 * u32::from(nodes) + 1) + 1)
}
