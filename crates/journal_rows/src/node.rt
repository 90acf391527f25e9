//! The node of these rows: the first of four, of which one may lie, and the owner of role 2 in cluster 9.

ghost use Rattle.std.specs.Prelude.{◌≡◌, ◌<◌, [], IfOk};

use quorum_sizes::{NodeName, Sizes};
use role_commands::RoleTable;
use role_node::{Config, Node};
use row_words::RowFault;
use std::alloc::Global;

/// The key of its journal.
pub const KEY: [u8; 32] = [7; 32];

/// The sizes of the cluster, and the node's name.
pub fn sizes() -> Result<(Sizes, NodeName), RowFault>
    ensures { IfOk result (λ made. made.1 < made.0.nodes) }
{
    let Ok(sizes) = Sizes::new(4, 1) else {
        return Err(RowFault::BadRow);
    };
    match sizes.name(0) {
        Some(me) => Ok((sizes, me)),
        None => Err(RowFault::BadRow),
    }
}

/// The configuration of the cluster, and the node's name.
pub fn config(alloc: Global) -> Result<(Config, NodeName), RowFault>
    ensures { IfOk result (λ made. made.1 < made.0.roles.sizes.nodes) }
{
    let (sizes, me) = sizes()?;
    let mut table = RoleTable::new(alloc, sizes);
    if table.add(2, 0).is_err() {
        return Err(RowFault::Memory);
    }
    match Config::new(9, table, 30_000) {
        Some(config) => Ok((config, me)),
        None => Err(RowFault::BadRow),
    }
}

/// The node that has recorded nothing.
pub fn new_node(alloc: Global) -> Result<Node, RowFault>
    ensures { IfOk result (λ node. node.history ≡ []) }
{
    let (config, me) = config(alloc)?;
    Ok(Node::new(alloc, config, me)?)
}
