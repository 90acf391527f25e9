//! The keys of a laboratory, which all know.

ghost use Rattle.std.specs.Prelude.{◌≡◌, ◌<◌, IfOk};
ghost use Rattle.std.specs.Option.{option_copied};
ghost use Rattle.byz_world.specs.LabKeys.{lab_key, lab_ring, ring_due, rings_due, ring_in};

use link_frames::{KeyFault, PairKeys};
use quorum_sizes::{NodeName, NodeSet, Sizes};
use std::alloc::{AllocError, Global};

/// The key that two nodes share in a laboratory: the smaller index as one byte, the larger, and thirty zero bytes.
#[tactic(auto, unfolding(crate::specs::LabKeys::lab_key))]
pub fn lab_key(a: NodeName, b: NodeName) -> [u8; 32]
    ensures { result ≡ lab_key a b }
{
    let mut key = [0; 32];
    key[0] = a.index().min(b.index());
    key[1] = a.index().max(b.index());
    key
}

/// The laboratory keys of the nodes of a cluster by their names, none for a liar.
pub(crate) fn new_keys(
    alloc: Global,
    sizes: Sizes,
    liars: &NodeSet,
) -> Result<Vec<Option<PairKeys>>, AllocError>
    ensures { IfOk result (λ keys. keys.items ≡ rings_due sizes liars.now) }
{
    let mut keys = Vec::new(alloc);
    for index in 0..sizes.n() {
        let name = sizes.name(index).unwrap();
        keys.push(keys_due(alloc, &sizes, liars, name)?)?;
    }
    Ok(keys)
}

fn keys_due(
    alloc: Global,
    sizes: &Sizes,
    liars: &NodeSet,
    name: NodeName,
) -> Result<Option<PairKeys>, AllocError>
    requires { name < sizes.now.nodes }
    ensures { IfOk result (λ keys. keys ≡ ring_due sizes.now liars.now name) }
{
    if liars.contains(name) {
        return Ok(None);
    }
    Ok(Some(lab_keys(alloc, sizes, name)?))
}

/// The laboratory keys of a node.
fn lab_keys(alloc: Global, sizes: &Sizes, me: NodeName) -> Result<PairKeys, AllocError>
    requires { me < sizes.now.nodes }
    ensures { IfOk result (λ keys. keys ≡ lab_ring sizes.now me) }
{
    let mut keys = Vec::new(alloc);
    for index in 0..sizes.n() {
        keys.push(lab_key(me, sizes.name(index).unwrap()))?;
    }
    match PairKeys::new(alloc, sizes, me, &keys) {
        Ok(keys) => Ok(keys),
        Err(KeyFault::Memory) => Err(AllocError),
        Err(KeyFault::WrongCount) => unreachable!(),
    }
}

/// The keys of the node of this name, if it does not lie.
pub(crate) fn keys_of(keys: &[Option<PairKeys>], name: NodeName) -> Option<&PairKeys>
    ensures { option_copied result ≡ ring_in keys.now name }
{
    match keys.get(usize::from(name.index())) {
        Some(Some(keys)) => Some(keys),
        Some(None) | None => None,
    }
}
