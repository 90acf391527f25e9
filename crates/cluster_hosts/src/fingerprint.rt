//! Fingerprints, by which two owners compare over a telephone what they have.

ghost use Rattle.std.specs.Prelude.{◌≡◌, IfOk};
ghost use Rattle.cluster_hosts.specs.Fingerprints as fingerprints;
ghost use Rattle.cluster_hosts.specs.Fingerprints.{fingerprint, common_bytes, common_fingerprint, key_fingerprint};

use role_commands::RoleTable;
use role_node::Config;
use sha2::{Digest, Sha256};
use std::alloc::{AllocError, Global};
use std::fmt;

/// The first bytes of a digest. Written as four groups of hexadecimal digits.
#[derive(Clone, Copy, Debug, PartialEq, Eq)]
pub struct Fingerprint {
    pub bytes: [u8; 8],
}

impl fmt::Display for Fingerprint {
    fn fmt<W: fmt::Write>(&self, f: &mut fmt::Formatter<W>) -> fmt::Result {
        let [a, b, c, d, e, g, h, i] = self.bytes;
        write!(
            f,
            "{a:02x}{b:02x} {c:02x}{d:02x} {e:02x}{g:02x} {h:02x}{i:02x}"
        )
    }
}

/// The fingerprint of the members that the texts of all nodes have in common: the number of the cluster, the sizes and
/// the roles with their owners.
///
/// # Errors
///
/// Only for want of memory.
pub fn of_common(alloc: Global, config: &Config) -> Result<Fingerprint, AllocError>
    ensures { IfOk result (λ print. print.bytes ≡ common_fingerprint config.now) }
{
    let bytes = common(alloc, config)?;
    Ok(of_bytes(b"tundelca cluster", &bytes))
}

/// The fingerprint of a key that two nodes share.
pub fn of_key(key: &[u8; 32]) -> Fingerprint
    ensures { result.bytes ≡ key_fingerprint key.now }
{
    of_bytes(b"tundelca key", key)
}

/// The fingerprint of bytes, behind what they are.
fn of_bytes(what: &[u8], bytes: &[u8]) -> Fingerprint
    ensures { result.bytes ≡ fingerprint what.now bytes.now }
{
    let mut hasher = Sha256::new();
    hasher.update(what);
    hasher.update(bytes);
    let digest: [u8; 32] = hasher.finalize();
    let mut first = [0u8; 8];
    first.copy_from_slice(&digest[..8]);
    Fingerprint { bytes: first }
}

/// The members that the texts of all nodes have in common, as bytes.
#[tactic(auto, unfolding(crate::specs::Fingerprints::common_bytes))]
fn common(alloc: Global, config: &Config) -> Result<Vec<u8>, AllocError>
    ensures { IfOk result (λ bytes. bytes.items ≡ common_bytes config.now) }
{
    let sizes = config.roles().sizes();
    let mut bytes = Vec::new(alloc);
    bytes.extend_from_slice(&config.cluster().to_be_bytes())?;
    bytes.push(sizes.n())?;
    bytes.push(sizes.f())?;
    let roles = roles_bytes(alloc, config.roles())?;
    bytes.extend_from_slice(&roles)?;
    Ok(bytes)
}

/// The roles with their owners, the lowest role first.
#[tactic(auto, unfolding(crate::specs::Fingerprints::roles_below))]
fn roles_bytes(alloc: Global, roles: &RoleTable) -> Result<Vec<u8>, AllocError>
    ensures { IfOk result (λ bytes. bytes.items ≡ fingerprints.roles_below roles.now 65536) }
{
    let mut bytes = Vec::new(alloc);
    for role in 0..65_536u32 {
        if let Some(owner) = roles.owner(role as u16) {
            bytes.extend_from_slice(&(role as u16).to_be_bytes())?;
            bytes.push(owner.index())?;
        }
    }
    Ok(bytes)
}
