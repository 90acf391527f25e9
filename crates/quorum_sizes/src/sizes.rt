//! The sizes of a cluster and their quorums.

ghost use Rattle.std.specs.Prelude.{◌≡◌, ◌<◌, ◌↔◌, IsTrue};
ghost use Rattle.quorum_sizes.specs.Sizes.{AreSizes, echo_quorum_of, amplify_of, deliver_of, name_due};
ghost use Rattle.quorum_sizes.specs.Refusals.{sizes_due};

use crate::name::NodeName;
use std::error::Error;
use std::fmt;
use std::marker::Model;

/// The most nodes of a cluster, so that a set of them fits a word of 128 bits.
pub const MOST_NODES: u8 = 128;

/// Why there are no such sizes. Written as its code and its name.
#[derive(Clone, Copy, Debug, PartialEq, Eq)]
pub enum SizeFault {
    /// There is no node.
    NoNodes,
    /// There are more than [`MOST_NODES`] nodes.
    TooMany,
    /// A third of the nodes may lie, or more.
    TooManyLiars,
}

impl fmt::Display for SizeFault {
    ghost use Rattle.std.specs.Prelude.{Some};
    ghost use Rattle.quorum_sizes.specs.Refusals.{size_fault_text};

    ghost output = { λ fault. Some (size_fault_text fault) };

    fn fmt<W: fmt::Write>(&self, f: &mut fmt::Formatter<W>) -> fmt::Result {
        f.write_str(match self {
            SizeFault::NoNodes => "Q1 NoNodes",
            SizeFault::TooMany => "Q2 TooMany",
            SizeFault::TooManyLiars => "Q3 TooManyLiars",
        })
    }
}

impl Error for SizeFault {}

/// How many nodes a cluster has and how many of them may lie, fewer than a third.
#[derive(Clone, Copy, Debug, PartialEq, Eq)]
pub struct Sizes {
    nodes: u8,
    liars: u8,
}

impl Model for Sizes {
    ghost use Rattle.quorum_sizes.specs.Sizes.{Counts, AreSizes};

    ghost Value = { Counts };

    ghost view = { λ a. record { nodes = a.nodes; liars = a.liars } };

    ghost invariant = { λ a. AreSizes (record { nodes = a.nodes; liars = a.liars }) };

    ghost inverse = { λ s. record { nodes = s.nodes; liars = s.liars } };
}

impl Sizes {
    /// The sizes of a cluster of `n` nodes of which at most `f` lie.
    ///
    /// # Errors
    ///
    /// The first of these that holds: no nodes, more than [`MOST_NODES`], and `3 * f >= n`.
    pub fn new(n: u8, f: u8) -> Result<Self, SizeFault>
        ensures { result ≡ sizes_due n f }
    {
        if n == 0 {
            return Err(SizeFault::NoNodes);
        }
        if n > MOST_NODES {
            return Err(SizeFault::TooMany);
        }
        if 3 * u16::from(f) >= u16::from(n) {
            return Err(SizeFault::TooManyLiars);
        }
        Ok(Sizes { nodes: n, liars: f })
    }

    /// How many nodes there are, from 1 to [`MOST_NODES`].
    pub fn n(&self) -> u8
        ensures value { result ≡ self.now.nodes }
        ensures sizes { AreSizes self.now }
    {
        self.nodes
    }

    /// How many nodes may lie, fewer than a third.
    pub fn f(&self) -> u8
        ensures value { result ≡ self.now.liars }
        ensures sizes { AreSizes self.now }
    {
        self.liars
    }

    /// So many echoes of a command make a node ready for it: any two sets of so many nodes share
    /// a correct one.
    pub fn echo_quorum(&self) -> u8
        ensures { result ≡ echo_quorum_of self.now }
    {
        (self.nodes + self.liars) / 2 + 1
    }

    /// So many nodes that are ready for a command make a node ready for it: one of them is correct.
    pub fn amplify(&self) -> u8
        ensures { result ≡ amplify_of self.now }
    {
        self.liars + 1
    }

    /// So many nodes that are ready for a command make a node deliver it: the correct ones among
    /// them are enough to amplify.
    pub fn deliver(&self) -> u8
        ensures { result ≡ deliver_of self.now }
    {
        2 * self.liars + 1
    }

    /// The name of node `i`, if there is such a node.
    pub fn name(&self, i: u8) -> Option<NodeName>
        ensures { result ≡ name_due self.now i }
    {
        if i < self.nodes {
            Some(NodeName { index: i })
        } else {
            None
        }
    }

    /// Whether the name is one of these nodes'.
    pub fn has(&self, name: NodeName) -> bool
        ensures { IsTrue result ↔ (name < self.now.nodes) }
    {
        name.index < self.nodes
    }
}
