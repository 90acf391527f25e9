//! Decisions without a session, each by the roles of one owner.

ghost use Rattle.std.specs.Prelude.{◌≡◌, ◌<◌, map, IfOk, IfSome};
ghost use Rattle.operator_lines.specs.Decisions.{decision_at, role_lists as role_lists_of};

use quorum_sizes::NodeName;
use role_commands::{Items, RoleTable};
use role_node::Node;
use role_sessions::Verdict;
use std::alloc::{AllocError, Global};

/// An access about which is asked, and by whose word it is decided.
#[derive(Clone, Copy, Debug, PartialEq, Eq)]
pub struct Access {
    /// Who wants access.
    pub user: u32,
    /// Whose roles count.
    pub owner: NodeName,
    /// What is to be done.
    pub operation: u16,
    /// To what.
    pub object: u32,
}

/// A decision, and how far the owner's stream reached then, from which it follows.
#[derive(Clone, Copy, Debug, PartialEq, Eq)]
pub struct Decision {
    /// How far the owner's stream reached.
    pub reach: u32,
    /// The decision.
    pub verdict: Verdict,
}

/// The roles of each node, by its index: those that it owns, in ascending order.
///
/// # Errors
///
/// Only for want of memory.
pub fn role_lists(alloc: Global, table: &RoleTable) -> Result<Vec<Items<u16>>, AllocError>
    ensures { IfOk result (λ lists. lists.items ≡ role_lists_of table.now) }
{
    let sizes = table.sizes();
    let mut lists = Vec::with_capacity(alloc, usize::from(sizes.n()))?;
    for index in 0..sizes.n() {
        let Some(owner) = sizes.name(index) else {
            unreachable!();
        };
        lists.push(Items::new(table.roles_of_owner(alloc, owner)?))?;
    }
    Ok(lists)
}

/// The decision on the access by the owner's roles, as these lists have them. The owner must be of the node's sizes. It
/// takes no memory, and nothing is recorded.
pub fn decision_of(node: &Node, lists: &[Items<u16>], asked: &Access) -> Decision
    requires { asked.now.owner < node.now.config.roles.sizes.nodes }
    ensures { result ≡ decision_at node.now lists.now asked.now }
{
    let owner = asked.owner;
    let roles = match lists.get(usize::from(owner.index())) {
        Some(roles) => roles.as_slice(),
        None => &[],
    };
    Decision {
        reach: node.reach(owner),
        verdict: node.decide(asked.user, roles, asked.operation, asked.object),
    }
}

/// The decisions on these accesses, in their order, all by one history.
///
/// # Errors
///
/// `None` for want of memory, and where an owner is none of the node's sizes.
pub fn decisions_of(
    alloc: Global,
    node: &Node,
    lists: &[Items<u16>],
    asked: &[Access],
) -> Option<Items<Decision>>
    ensures { IfSome result (λ decisions. decisions ≡ map (decision_at node.now lists.now) asked.now) }
{
    let sizes = node.config().roles().sizes();
    let mut decisions = Vec::with_capacity(alloc, asked.len()).ok()?;
    for access in asked {
        if !sizes.has(access.owner) {
            return None;
        }
        decisions.push(decision_of(node, lists, access)).ok()?;
    }
    Some(Items::new(decisions))
}
