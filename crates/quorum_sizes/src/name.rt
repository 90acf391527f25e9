//! The name of a node.

ghost use Rattle.std.specs.Prelude.{◌≡◌, ◌<◌};
ghost use Rattle.quorum_sizes.specs.Sizes.{most_nodes};

use std::marker::Model;

/// The name of a node: its index in the cluster, from 0. Contracts see it as that number.
///
/// Only [`Sizes::name`](crate::Sizes::name) makes one.
#[derive(Clone, Copy, Debug, PartialEq, Eq)]
pub struct NodeName {
    pub(crate) index: u8,
}

impl Model for NodeName {
    ghost use Rattle.std.specs.Prelude.{ℕ, ◌<◌};
    ghost use Rattle.quorum_sizes.specs.Sizes.{most_nodes};

    ghost Value = { ℕ };

    ghost view = { λ a. a.index };

    ghost invariant = { λ a. a.index < most_nodes };

    ghost inverse = { λ n. record { index = n } };
}

impl NodeName {
    /// The index, below the most nodes of a cluster.
    pub fn index(&self) -> u8
        ensures value { result ≡ self.now }
        ensures bound { result < most_nodes }
    {
        self.index
    }
}
