//! Sets of nodes, a bit for each node.

ghost use Rattle.std.specs.Prelude.{◌≡◌, ◌<◌, ◌≤◌, not};
ghost use Rattle.std.specs.FinSet as sets;
ghost use Rattle.quorum_sizes.specs.Sizes.{most_nodes, echo_quorum_of};
ghost use Rattle.quorum_sizes.specs.NodeSets.{AreNodes, nodes_among};
ghost use Rattle.quorum_sizes.specs.inside.NodeWords.{names_in};

use crate::name::NodeName;
use crate::sizes::{MOST_NODES, Sizes};
use std::marker::Model;

/// A word with a bit for each of the most nodes of a cluster.
type Word = u128;

/// A set of names of nodes. Contracts see it as that finite set.
#[derive(Clone, Copy, Debug)]
pub struct NodeSet {
    word: Word,
}

impl Model for NodeSet {
    ghost use Rattle.std.specs.Prelude.{◌^◌, ◌<◌};
    ghost use Rattle.std.specs.Coded.{coded_ℕ};
    ghost use Rattle.std.specs.FinSet as sets;
    ghost use Rattle.quorum_sizes.specs.Sizes.{most_nodes};
    ghost use Rattle.quorum_sizes.specs.NodeSets.{Nodes};
    ghost use Rattle.quorum_sizes.specs.inside.NodeWords.{names_in, word_of, word_of-names_in};

    ghost Value = { Nodes };

    ghost coded = { sets.code coded_ℕ };

    ghost view = { λ a. names_in a.word };

    ghost invariant = { λ a. a.word < 2 ^ most_nodes };

    ghost inverse = { λ names. record { word = word_of names } };

    ghost inverse_ok = { λ a h. λ i. record { word = word_of-names_in a.word h i } };
}

impl NodeSet {
    /// No names.
    pub fn new() -> Self
        ensures { result ≡ sets.empty }
    {
        NodeSet { word: 0 }
    }

    /// Adds a name. Whether it was new.
    #[inline(always)]
    pub fn insert(&mut self, name: NodeName) -> bool
        ensures set { self.new ≡ sets.insert self.old name }
        ensures fresh { result ≡ not (sets.contains self.old name) }
        ensures most { sets.len self.new ≤ most_nodes }
    {
        let fresh = !self.contains(name);
        self.word = with_name(self.word, name);
        fresh
    }

    /// Whether the name is in the set.
    #[inline(always)]
    pub fn contains(&self, name: NodeName) -> bool
        ensures { result ≡ sets.contains self.now name }
    {
        (self.word >> name.index()) & 1 == 1
    }

    /// How many names there are.
    #[inline(always)]
    pub fn len(&self) -> usize
        ensures { result ≡ sets.len self.now }
    {
        self.word.count_ones() as usize
    }

    /// How many of the names are nodes of these sizes.
    pub fn count_among(&self, sizes: &Sizes) -> usize
        ensures { result ≡ sets.len (nodes_among sizes.now self.now) }
    {
        let beyond = MOST_NODES - sizes.n();
        (self.word & (Word::MAX >> beyond)).count_ones() as usize
    }
}

/// The word with the bit of this name set.
fn with_name(word: Word, name: NodeName) -> Word
    ensures { names_in result ≡ sets.insert (names_in word) name }
{
    word | 1 << name.index()
}

/// The names that are in both sets. Two quorums of echoes share more nodes than may lie.
pub fn quorums_meet(sizes: &Sizes, a: &NodeSet, b: &NodeSet) -> NodeSet
    ensures common { result ≡ sets.intersection a.now b.now }
    ensures share { AreNodes sizes.now a.now → AreNodes sizes.now b.now →
        echo_quorum_of sizes.now ≤ sets.len a.now → echo_quorum_of sizes.now ≤ sets.len b.now →
        sizes.now.liars < sets.len result }
{
    // that fewer than a third may lie is known here only of sizes that the body reads
    let _n = sizes.n();
    NodeSet {
        word: a.word & b.word,
    }
}
