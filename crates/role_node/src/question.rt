//! What can be asked of a node, and the answers.

ghost use Rattle.std.specs.Prelude.{◌<◌, ◌^◌, All};
ghost use Rattle.role_node.specs.Listed.{IsWithin};

use role_commands::Items;
use role_sessions::Verdict;

/// What can be asked of a node: a decision on an access, or a review of its relations and sessions.
#[derive(Clone, Copy, Debug, PartialEq, Eq)]
pub enum Question {
    /// Whether the user may do the operation on the object in the session.
    Check {
        session: u64,
        user: u32,
        operation: u16,
        object: u32,
    },
    /// The users that have the role.
    AssignedUsers(u16),
    /// The roles that the user has.
    AssignedRoles(u32),
    /// What the role may do.
    RolePermissions(u16),
    /// What some role of the user may do.
    UserPermissions(u32),
    /// The operations that the role may do on the object.
    RoleOperations {
        role: u16,
        object: u32,
    },
    /// The operations that some role of the user may do on the object.
    UserOperations {
        user: u32,
        object: u32,
    },
    /// The roles that count in the session.
    SessionRoles(u64),
    /// What some role that counts in the session may do.
    SessionPermissions(u64),
}

/// The answer to a question.
#[derive(Drop, Debug)]
pub enum Answer {
    /// A decision.
    Verdict(Verdict),
    /// Users, in ascending order.
    Users(Items<u32>),
    /// Roles: a user's in ascending order, a session's in the order of their activation.
    Roles(Items<u16>),
    /// Permissions, in ascending order of the operation and then of the object.
    Permissions(Items<(u16, u32)>),
    /// Operations, in ascending order.
    Operations(Items<u16>),
}

/// The numbers of an answer are within the widths of their types.
pub(crate) fn within(answer: &Answer)
    ensures { IsWithin answer.now }
{
    match answer {
        Answer::Verdict(_) | Answer::Roles(_) => {}
        Answer::Users(users) => users_within(users.as_slice()),
        Answer::Permissions(permissions) => permissions_within(permissions.as_slice()),
        Answer::Operations(operations) => operations_within(operations.as_slice()),
    }
}

fn users_within(users: &[u32])
    ensures { All (λ user. user < 2 ^ 32) users.now }
{}

fn operations_within(operations: &[u16])
    ensures { All (λ operation. operation < 2 ^ 16) operations.now }
{}

fn permissions_within(permissions: &[(u16, u32)])
    ensures { All (λ p. (p.0 < 2 ^ 16) × (p.1 < 2 ^ 32)) permissions.now }
{
    for permission in permissions {
        permission_within(*permission);
    }
}

fn permission_within(permission: (u16, u32))
    ensures { (permission.0 < 2 ^ 16) × (permission.1 < 2 ^ 32) }
{}
