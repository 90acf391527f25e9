//! Rows of sizes, and of two sets of nodes, `a` and `b`.

use quorum_sizes::{NodeName, NodeSet, Sizes, quorums_meet};
use row_words::{OrNone, RowFault, Words, text_of, yes_or_no};
use std::alloc::Global;
use std::fmt;
use std::fmt::Display;

/// `quorums`: two sets, which are empty.
#[derive(Clone, Copy)]
pub struct Quorums {
    a: NodeSet,
    b: NodeSet,
}

pub fn begin() -> Quorums {
    Quorums {
        a: NodeSet::new(),
        b: NodeSet::new(),
    }
}

pub fn answer(alloc: Global, quorums: &mut Quorums, line: &str) -> Result<String, RowFault> {
    let mut words = Words::new(line);
    match words.word() {
        "sizes" => sizes(alloc, &mut words),
        "name" => name(alloc, &mut words),
        "has" => has(alloc, &mut words),
        "insert" => insert(alloc, quorums, &mut words),
        "copy" => {
            quorums.b = quorums.a;
            text_of(alloc, &"ok")
        }
        "contains" => contains(alloc, quorums, &mut words),
        "len" => text_of(alloc, &set_of(quorums, &mut words)?.len()),
        "among" => among(alloc, quorums, &mut words),
        "meet" => meet(alloc, quorums, &mut words),
        _ => Err(RowFault::BadRow),
    }
}

/// `sizes N F`: the sizes, and the three quorums.
fn sizes(alloc: Global, words: &mut Words<'_>) -> Result<String, RowFault> {
    let n = words.byte()?;
    match Sizes::new(n, words.byte()?) {
        Ok(sizes) => text_of(alloc, &Quorate(sizes)),
        Err(fault) => text_of(alloc, &fault),
    }
}

/// Sizes, with the three quorums.
#[derive(Clone, Copy)]
struct Quorate(Sizes);

impl Display for Quorate {
    fn fmt<W: fmt::Write>(&self, f: &mut fmt::Formatter<W>) -> fmt::Result {
        let (n, liars) = (self.0.n(), self.0.f());
        let (echo, amplify, deliver) = (self.0.echo_quorum(), self.0.amplify(), self.0.deliver());
        write!(
            f,
            "n {n} f {liars} echo {echo} amplify {amplify} deliver {deliver}"
        )
    }
}

/// `name N F I`: the name of node I of these sizes.
fn name(alloc: Global, words: &mut Words<'_>) -> Result<String, RowFault> {
    let sizes = words.sizes()?;
    let name = sizes.name(words.byte()?);
    text_of(alloc, &OrNone(name.map(|name| name.index())))
}

/// The name of a node of the largest cluster.
fn any_name(words: &mut Words<'_>) -> Result<NodeName, RowFault> {
    let most = Sizes::new(128, 42).map_err(|_| RowFault::BadRow)?;
    words.node(&most)
}

/// `has N F I`: whether the node is of these sizes.
fn has(alloc: Global, words: &mut Words<'_>) -> Result<String, RowFault> {
    let sizes = words.sizes()?;
    yes_or_no(alloc, sizes.has(any_name(words)?))
}

fn set_of(quorums: &Quorums, words: &mut Words<'_>) -> Result<NodeSet, RowFault> {
    match words.word() {
        "a" => Ok(quorums.a),
        "b" => Ok(quorums.b),
        _ => Err(RowFault::BadRow),
    }
}

/// `insert a I`: whether the node is new there.
fn insert(alloc: Global, quorums: &mut Quorums, words: &mut Words<'_>) -> Result<String, RowFault> {
    let is_first = words.word() == "a";
    let name = any_name(words)?;
    let is_new = if is_first {
        quorums.a.insert(name)
    } else {
        quorums.b.insert(name)
    };
    yes_or_no(alloc, is_new)
}

/// `contains a I`
fn contains(alloc: Global, quorums: &Quorums, words: &mut Words<'_>) -> Result<String, RowFault> {
    let set = set_of(quorums, words)?;
    yes_or_no(alloc, set.contains(any_name(words)?))
}

/// `among N F a`: how many nodes of the set are of these sizes.
fn among(alloc: Global, quorums: &Quorums, words: &mut Words<'_>) -> Result<String, RowFault> {
    let sizes = words.sizes()?;
    let set = set_of(quorums, words)?;
    text_of(alloc, &set.count_among(&sizes))
}

/// `meet N F`: how many nodes both sets have.
fn meet(alloc: Global, quorums: &Quorums, words: &mut Words<'_>) -> Result<String, RowFault> {
    let sizes = words.sizes()?;
    let common = quorums_meet(&sizes, &quorums.a, &quorums.b);
    text_of(alloc, &common.len())
}
