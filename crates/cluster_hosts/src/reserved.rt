//! What of a cluster text is kept for later.

ghost use Rattle.std.specs.Prelude.{◌≡◌, ◌≤◌, ◌↔◌, length, IsTrue, IfOk, OnErr, is_some};
ghost use Rattle.serde_json.specs.Find.{get};
ghost use Rattle.serde_json.specs.View.{view};
ghost use Rattle.cluster_text.specs.Setups.{most_text_bytes};
ghost use Rattle.cluster_hosts.specs.Givens as givens;
ghost use Rattle.cluster_hosts.specs.Givens.{reserved_name, HasReservedRole};

use client_lines::read_json;
use cluster_text::cluster::MOST_TEXT_BYTES;
use role_commands::RoleTable;
use serde_json::Value;
use std::alloc::{AllocError, Global};
use std::fmt;

/// From this one on roles are kept for later.
const FIRST_RESERVED: u16 = 65_408;

/// What of a cluster text is kept for later. Written as the name of the member.
#[derive(Clone, Copy, Debug, PartialEq, Eq)]
pub enum Reserved {
    Epoch,
    Since,
    Slots,
    Length,
    MostPairs,
    /// The member is there for roles below 65,408 alone.
    Roles,
}

impl Reserved {
    /// The name that the member has in the text.
    pub fn name(&self) -> &'static str
        ensures { result.now ≡ reserved_name self.now }
    {
        match self {
            Reserved::Epoch => "epoch",
            Reserved::Since => "since",
            Reserved::Slots => "slots",
            Reserved::Length => "length",
            Reserved::MostPairs => "most_pairs",
            Reserved::Roles => "roles",
        }
    }
}

impl fmt::Display for Reserved {
    ghost use Rattle.std.specs.Prelude.{Some};
    ghost use Rattle.cluster_hosts.specs.Givens.{reserved_name};

    ghost output = { λ member. Some (reserved_name member) };

    fn fmt<W: fmt::Write>(&self, f: &mut fmt::Formatter<W>) -> fmt::Result {
        f.write_str(self.name())
    }
}

/// The first member of the text that is kept for later.
///
/// # Errors
///
/// Only for want of memory to read the text.
#[tactic(auto, unfolding(crate::specs::Givens::reserved_in))]
pub fn reserved_in(alloc: Global, bytes: &[u8]) -> Result<Option<Reserved>, AllocError>
    ensures value { IfOk result (λ member. member ≡ givens.reserved_in bytes.now) }
    ensures memory { OnErr result (length bytes.now ≤ most_text_bytes) }
{
    if bytes.len() > MOST_TEXT_BYTES {
        return Ok(None);
    }
    match read_json(alloc, bytes)? {
        Some(text) => Ok(reserved_member(&text)),
        None => Ok(None),
    }
}

/// The first of these members that the text has.
#[tactic(auto, unfolding(crate::specs::Givens::reserved_member))]
fn reserved_member(text: &Value) -> Option<Reserved>
    ensures { result ≡ givens.reserved_member (view text.now) }
{
    if has(text, Reserved::Epoch) {
        Some(Reserved::Epoch)
    } else if has(text, Reserved::Since) {
        Some(Reserved::Since)
    } else if has(text, Reserved::Slots) {
        Some(Reserved::Slots)
    } else if has(text, Reserved::Length) {
        Some(Reserved::Length)
    } else if has(text, Reserved::MostPairs) {
        Some(Reserved::MostPairs)
    } else {
        None
    }
}

fn has(text: &Value, member: Reserved) -> bool
    ensures { result ≡ is_some (get (reserved_name member) (view text.now)) }
{
    text.get(member.name()).is_some()
}

/// Whether a role of the table is kept for later.
pub fn has_reserved_role(roles: &RoleTable) -> bool
    ensures { IsTrue result ↔ HasReservedRole roles.now }
{
    for number in 0..128u16 {
        if roles.owner(FIRST_RESERVED + number).is_some() {
            return true;
        }
    }
    false
}
