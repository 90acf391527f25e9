//! The members of client lines and of cluster texts.

ghost use Rattle.std.specs.Prelude.{◌≡◌, ◌≤◌, IfOk};
ghost use Rattle.serde_json.specs.View.{view};
ghost use Rattle.client_lines.specs.Members.{member_name, member_number};

use serde_json::Value;
use std::fmt;

/// A member of a client line or of a cluster text. Written as its name.
#[derive(Clone, Copy, Debug, PartialEq, Eq)]
pub enum Member {
    /// The operation of a client line.
    Op,
    User,
    Role,
    Operation,
    Object,
    Session,
    Owner,
    Place,
    /// The number of a cluster.
    Cluster,
    /// How many nodes a cluster has.
    N,
    /// How many of them may lie.
    F,
    /// The index of the node itself.
    Me,
    /// The roles with their owners.
    Roles,
    /// The keys that the node shares with each node.
    Keys,
    /// The ports of the nodes.
    Nodes,
    /// The port for clients.
    Client,
}

impl Member {
    /// The name that it has in the text.
    pub fn name(&self) -> &'static str
        ensures { result.now ≡ member_name self.now }
    {
        match self {
            Member::Op => "op",
            Member::User => "user",
            Member::Role => "role",
            Member::Operation => "operation",
            Member::Object => "object",
            Member::Session => "session",
            Member::Owner => "owner",
            Member::Place => "place",
            Member::Cluster => "cluster",
            Member::N => "n",
            Member::F => "f",
            Member::Me => "me",
            Member::Roles => "roles",
            Member::Keys => "keys",
            Member::Nodes => "nodes",
            Member::Client => "client",
        }
    }
}

impl fmt::Display for Member {
    ghost use Rattle.std.specs.Prelude.{Some};
    ghost use Rattle.client_lines.specs.Members.{member_name};

    ghost output = { λ member. Some (member_name member) };

    fn fmt<W: fmt::Write>(&self, f: &mut fmt::Formatter<W>) -> fmt::Result {
        f.write_str(self.name())
    }
}

/// Why a member is not a number of its range.
#[derive(Clone, Copy, Debug, PartialEq, Eq)]
pub enum MemberFault {
    /// The object has no such member.
    Missing,
    /// It is not a whole number of its range.
    OutOfRange,
}

/// The whole number of the member, at most `most`. It takes no memory.
///
/// # Errors
///
/// The object has no such member, or it is not such a number.
#[tactic(auto, unfolding(crate::specs::Members::member_number))]
pub fn member_number(object: &Value, member: Member, most: u64) -> Result<u64, MemberFault>
    ensures value { result ≡ member_number member most (view object.now) }
    ensures within { IfOk result (λ n. n ≤ most) }
{
    let Some(value) = object.get(member.name()) else {
        return Err(MemberFault::Missing);
    };
    match value.as_u64() {
        Some(number) if number <= most => Ok(number),
        _ => Err(MemberFault::OutOfRange),
    }
}
