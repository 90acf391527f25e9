//! The keys that a node shares with each node.

ghost use Rattle.std.specs.Prelude.{◌≡◌, ◌<◌};
ghost use Rattle.link_frames.specs.frames.KeyRings.{key_with};
ghost use Rattle.link_frames.specs.frames.Keys.{KeysDue};

use crate::frames::hmac::PreparedKey;
use quorum_sizes::{NodeName, Sizes};
use std::alloc::{AllocError, Global};
use std::error::Error;
use std::fmt;
use std::marker::Model;

/// Why there are no such keys. Written as its code and its name.
#[derive(Clone, Copy, Debug, PartialEq, Eq)]
pub enum KeyFault {
    /// There is not one key for each node.
    WrongCount,
    /// Memory ran out.
    Memory,
}

impl fmt::Display for KeyFault {
    ghost use Rattle.std.specs.Prelude.{Some};
    ghost use Rattle.link_frames.specs.Texts.{key_fault_text};

    ghost output = { λ fault. Some (key_fault_text fault) };

    fn fmt<W: fmt::Write>(&self, f: &mut fmt::Formatter<W>) -> fmt::Result {
        f.write_str(match self {
            KeyFault::WrongCount => "K1 WrongCount",
            KeyFault::Memory => "out of memory",
        })
    }
}

impl Error for KeyFault {}

impl From<AllocError> for KeyFault {
    ghost use Rattle.std.specs.Prelude.{◌≡◌};
    ghost use Rattle.link_frames.specs.declared.frames.keys.KeyFault.TheVariants.{Memory};

    ghost from_gives = { λ _ e. e ≡ Memory };

    fn from(_: AllocError) -> Self {
        KeyFault::Memory
    }
}

/// The keys that a node shares with each node of its cluster, itself included.
#[derive(Drop)]
pub struct PairKeys {
    me: NodeName,
    sizes: Sizes,
    keys: Vec<PreparedKey>,
}

impl Model for PairKeys {
    ghost use Rattle.link_frames.specs.frames.KeyRings.{KeyRing, IsKeyRing};

    ghost Value = { KeyRing };

    ghost view = { λ a. record { me = a.me; sizes = a.sizes; keys = a.keys.items } };

    ghost invariant = { λ a. IsKeyRing (record { me = a.me; sizes = a.sizes; keys = a.keys.items }) };
}

impl PairKeys {
    /// The keys of node `me`, of which key `i` is shared with node `i`.
    ///
    /// # Errors
    ///
    /// There is not one key for each node of the sizes; memory runs out.
    pub fn new(
        alloc: Global,
        sizes: &Sizes,
        me: NodeName,
        keys: &[[u8; 32]],
    ) -> Result<PairKeys, KeyFault>
        requires { me < sizes.now.nodes }
        ensures { KeysDue sizes.now me keys.now result }
    {
        if keys.len() != usize::from(sizes.n()) {
            return Err(KeyFault::WrongCount);
        }
        let keys = keys.iter().map(PreparedKey::new).collect(alloc)?;
        Ok(PairKeys {
            me,
            sizes: *sizes,
            keys,
        })
    }

    /// The node whose keys these are.
    pub(crate) fn me(&self) -> NodeName
        ensures { result ≡ self.now.me }
    {
        self.me
    }

    /// The key that is shared with a node.
    pub(crate) fn key(&self, node: NodeName) -> &PreparedKey
        requires { node < self.now.sizes.nodes }
        ensures { result.now ≡ key_with self.now node }
    {
        &self.keys[usize::from(node.index())]
    }
}
