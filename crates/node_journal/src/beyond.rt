//! Owners of whose streams a node has more than their share.

ghost use Rattle.node_journal.specs.Sights.{IsBeyondIfAny};

use owner_shares::Shares;
use role_node::Node;

/// An owner of whose stream a journal has more than its share.
#[derive(Clone, Copy, Debug, PartialEq, Eq)]
pub struct Beyond {
    /// The owner's index.
    pub owner: u8,
    /// How many places of its stream the node has.
    pub reach: u32,
    /// How many places its share has.
    pub share: u32,
}

/// The first owner whose stream reaches beyond its share at the node, if there is one.
pub fn beyond_in(node: &Node) -> Option<Beyond>
    ensures { IsBeyondIfAny node.now result }
{
    let shares = Shares::of(node.config().roles());
    let sizes = node.config().roles().sizes();
    for index in 0..sizes.n() {
        let Some(owner) = sizes.name(index) else {
            unreachable!();
        };
        let (reach, share) = (node.reach(owner), shares.share(owner));
        if share < reach {
            return Some(Beyond {
                owner: index,
                reach,
                share,
            });
        }
    }
    None
}
