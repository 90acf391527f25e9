//! What a client's line may ask for.

ghost use Rattle.std.specs.Prelude.{◌≡◌};
ghost use Rattle.client_lines.specs.Operations.{operation_named};

/// What a client line may ask for.
#[derive(Clone, Copy, Debug, PartialEq, Eq)]
pub enum Operation {
    Assign,
    Deassign,
    Grant,
    Revoke,
    Clear,
    Open,
    Activate,
    Drop,
    Close,
    Check,
    AssignedUsers,
    AssignedRoles,
    RolePermissions,
    UserPermissions,
    RoleOperations,
    UserOperations,
    SessionRoles,
    SessionPermissions,
    Reach,
    Again,
    Stop,
}

/// The operation of this name.
#[tactic(auto, unfolding(crate::specs::Operations::operation_named))]
pub fn operation_named(name: &str) -> Option<Operation>
    ensures { result ≡ operation_named name.now }
{
    match name {
        "assign" => Some(Operation::Assign),
        "deassign" => Some(Operation::Deassign),
        "grant" => Some(Operation::Grant),
        "revoke" => Some(Operation::Revoke),
        "clear" => Some(Operation::Clear),
        "open" => Some(Operation::Open),
        "activate" => Some(Operation::Activate),
        "drop" => Some(Operation::Drop),
        "close" => Some(Operation::Close),
        "check" => Some(Operation::Check),
        "assigned_users" => Some(Operation::AssignedUsers),
        "assigned_roles" => Some(Operation::AssignedRoles),
        "role_permissions" => Some(Operation::RolePermissions),
        "user_permissions" => Some(Operation::UserPermissions),
        "role_operations" => Some(Operation::RoleOperations),
        "user_operations" => Some(Operation::UserOperations),
        "session_roles" => Some(Operation::SessionRoles),
        "session_permissions" => Some(Operation::SessionPermissions),
        "reach" => Some(Operation::Reach),
        "again" => Some(Operation::Again),
        "stop" => Some(Operation::Stop),
        _ => None,
    }
}
