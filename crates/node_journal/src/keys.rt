//! The keys of a node.

ghost use Rattle.std.specs.Prelude.{◌≡◌, IfOk};
ghost use Rattle.cluster_text.specs.Linked.{ring_of};
ghost use Rattle.cluster_text.specs.Setups.{IsNodeSetup, IsServerSetup};

use cluster_text::cluster::Setup;
use frame_queues::ClusterKeys;
use std::alloc::{AllocError, Global};

/// The keys of the node of a setup, in its cluster.
///
/// # Errors
///
/// Only for want of memory.
pub fn keys_of(alloc: Global, setup: &Setup) -> Result<ClusterKeys, AllocError>
    requires me { IsNodeSetup setup.now }
    requires peers { IsServerSetup setup.now }
    ensures keys { IfOk result (λ made. made.keys ≡ ring_of setup.now) }
    ensures cluster { IfOk result (λ made. made.cluster ≡ setup.now.config.cluster) }
{
    let keys = setup.pair_keys(alloc)?;
    let sizes = setup.config.roles().sizes();
    Ok(ClusterKeys::new(keys, sizes, setup.config.cluster(), setup.me))
}
