//! The request of each operation, from the members of its line.

ghost use Rattle.std.specs.Prelude.{◌≡◌, IfOk};
ghost use Rattle.quorum_sizes.specs.Sizes.{Counts};
ghost use Rattle.serde_json.specs.Data.{Data};
ghost use Rattle.client_lines.specs.Requests as lines;
ghost use Rattle.client_lines.specs.inside.Says.{Says};
ghost use Rattle.client_lines.specs.declared.operation.Operation.TheVariants as operation;

use crate::fault::LineFault;
use crate::line::Line;
use crate::numbers::{object_of, operation_of, owner_of, place_of, role_of, session_of, user_of};
use crate::operation::Operation;
use crate::request::Request;
use quorum_sizes::Sizes;
use role_commands::Command;
use role_node::{ClientEvent, Question};

/// What a line asks that names this operation.
pub fn request_of(
    sizes: &Sizes,
    operation: Operation,
    line: &Line<'_>,
) -> Result<Request, LineFault>
    ensures value { (d : Data) → Says line.now d → result ≡ lines.request_of sizes.now operation d }
    ensures nodes { IfOk result (lines.NamesNodes sizes.now) }
{
    match operation {
        Operation::Assign => assign_of(line),
        Operation::Deassign => deassign_of(line),
        Operation::Grant => grant_of(line),
        Operation::Revoke => revoke_of(line),
        Operation::Clear => clear_of(line),
        Operation::Open => open_of(line),
        Operation::Activate => activate_of(line),
        Operation::Drop => drop_of(line),
        Operation::Close => close_of(line),
        Operation::Check => check_of(line),
        Operation::AssignedUsers => assigned_users_of(line),
        Operation::AssignedRoles => assigned_roles_of(line),
        Operation::RolePermissions => role_permissions_of(line),
        Operation::UserPermissions => user_permissions_of(line),
        Operation::RoleOperations => role_operations_of(line),
        Operation::UserOperations => user_operations_of(line),
        Operation::SessionRoles => session_roles_of(line),
        Operation::SessionPermissions => session_permissions_of(line),
        Operation::Reach => reach_of(sizes, line),
        Operation::Again => again_of(sizes, line),
        Operation::Stop => stop_of(),
    }
}

#[tactic(auto, unfolding(crate::specs::Requests::request_of))]
fn assign_of(line: &Line<'_>) -> Result<Request, LineFault>
    ensures value { (s : Counts) (d : Data) → Says line.now d → result ≡ lines.request_of s operation.Assign d }
    ensures nodes { IfOk result (λ request. (s : Counts) → lines.NamesNodes s request) }
{
    let (user, role) = user_and_role(line)?;
    Ok(Request::Issue(Command::Assign { user, role }))
}

#[tactic(auto, unfolding(crate::specs::Requests::request_of))]
fn deassign_of(line: &Line<'_>) -> Result<Request, LineFault>
    ensures value { (s : Counts) (d : Data) → Says line.now d → result ≡ lines.request_of s operation.Deassign d }
    ensures nodes { IfOk result (λ request. (s : Counts) → lines.NamesNodes s request) }
{
    let (user, role) = user_and_role(line)?;
    Ok(Request::Issue(Command::Deassign { user, role }))
}

#[tactic(auto, unfolding(crate::specs::Requests::request_of))]
fn grant_of(line: &Line<'_>) -> Result<Request, LineFault>
    ensures value { (s : Counts) (d : Data) → Says line.now d → result ≡ lines.request_of s operation.Grant d }
    ensures nodes { IfOk result (λ request. (s : Counts) → lines.NamesNodes s request) }
{
    let (role, operation, object) = role_operation_and_object(line)?;
    Ok(Request::Issue(Command::Grant {
        role,
        operation,
        object,
    }))
}

#[tactic(auto, unfolding(crate::specs::Requests::request_of))]
fn revoke_of(line: &Line<'_>) -> Result<Request, LineFault>
    ensures value { (s : Counts) (d : Data) → Says line.now d → result ≡ lines.request_of s operation.Revoke d }
    ensures nodes { IfOk result (λ request. (s : Counts) → lines.NamesNodes s request) }
{
    let (role, operation, object) = role_operation_and_object(line)?;
    Ok(Request::Issue(Command::Revoke {
        role,
        operation,
        object,
    }))
}

#[tactic(auto, unfolding(crate::specs::Requests::request_of))]
fn clear_of(line: &Line<'_>) -> Result<Request, LineFault>
    ensures value { (s : Counts) (d : Data) → Says line.now d → result ≡ lines.request_of s operation.Clear d }
    ensures nodes { IfOk result (λ request. (s : Counts) → lines.NamesNodes s request) }
{
    let role = role_of(line)?;
    Ok(Request::Issue(Command::Clear { role }))
}

#[tactic(auto, unfolding(crate::specs::Requests::request_of))]
fn activate_of(line: &Line<'_>) -> Result<Request, LineFault>
    ensures value { (s : Counts) (d : Data) → Says line.now d → result ≡ lines.request_of s operation.Activate d }
    ensures nodes { IfOk result (λ request. (s : Counts) → lines.NamesNodes s request) }
{
    let (session, user, role) = session_user_and_role(line)?;
    Ok(Request::Client(ClientEvent::Activate {
        session,
        user,
        role,
    }))
}

#[tactic(auto, unfolding(crate::specs::Requests::request_of))]
fn drop_of(line: &Line<'_>) -> Result<Request, LineFault>
    ensures value { (s : Counts) (d : Data) → Says line.now d → result ≡ lines.request_of s operation.Drop d }
    ensures nodes { IfOk result (λ request. (s : Counts) → lines.NamesNodes s request) }
{
    let (session, user, role) = session_user_and_role(line)?;
    Ok(Request::Client(ClientEvent::DropRole {
        session,
        user,
        role,
    }))
}

#[tactic(auto, unfolding(crate::specs::Requests::request_of))]
fn close_of(line: &Line<'_>) -> Result<Request, LineFault>
    ensures value { (s : Counts) (d : Data) → Says line.now d → result ≡ lines.request_of s operation.Close d }
    ensures nodes { IfOk result (λ request. (s : Counts) → lines.NamesNodes s request) }
{
    let session = session_of(line)?;
    let user = user_of(line)?;
    Ok(Request::Client(ClientEvent::Close { session, user }))
}

#[tactic(auto, unfolding(crate::specs::Requests::request_of))]
fn check_of(line: &Line<'_>) -> Result<Request, LineFault>
    ensures value { (s : Counts) (d : Data) → Says line.now d → result ≡ lines.request_of s operation.Check d }
    ensures nodes { IfOk result (λ request. (s : Counts) → lines.NamesNodes s request) }
{
    let session = session_of(line)?;
    let user = user_of(line)?;
    let operation = operation_of(line)?;
    let object = object_of(line)?;
    Ok(Request::Ask(Question::Check {
        session,
        user,
        operation,
        object,
    }))
}

#[tactic(auto, unfolding(crate::specs::Requests::request_of))]
fn role_operations_of(line: &Line<'_>) -> Result<Request, LineFault>
    ensures value { (s : Counts) (d : Data) → Says line.now d → result ≡ lines.request_of s operation.RoleOperations d }
    ensures nodes { IfOk result (λ request. (s : Counts) → lines.NamesNodes s request) }
{
    let role = role_of(line)?;
    let object = object_of(line)?;
    Ok(Request::Ask(Question::RoleOperations { role, object }))
}

#[tactic(auto, unfolding(crate::specs::Requests::request_of))]
fn user_operations_of(line: &Line<'_>) -> Result<Request, LineFault>
    ensures value { (s : Counts) (d : Data) → Says line.now d → result ≡ lines.request_of s operation.UserOperations d }
    ensures nodes { IfOk result (λ request. (s : Counts) → lines.NamesNodes s request) }
{
    let user = user_of(line)?;
    let object = object_of(line)?;
    Ok(Request::Ask(Question::UserOperations { user, object }))
}

#[tactic(auto, unfolding(crate::specs::Requests::request_of))]
fn session_permissions_of(line: &Line<'_>) -> Result<Request, LineFault>
    ensures value { (s : Counts) (d : Data) → Says line.now d
        → result ≡ lines.request_of s operation.SessionPermissions d }
    ensures nodes { IfOk result (λ request. (s : Counts) → lines.NamesNodes s request) }
{
    let session = session_of(line)?;
    Ok(Request::Ask(Question::SessionPermissions(session)))
}

#[tactic(auto, unfolding(crate::specs::Requests::request_of))]
fn again_of(sizes: &Sizes, line: &Line<'_>) -> Result<Request, LineFault>
    ensures value { (d : Data) → Says line.now d → result ≡ lines.request_of sizes.now operation.Again d }
    ensures nodes { IfOk result (lines.NamesNodes sizes.now) }
{
    let owner = owner_of(sizes, line)?;
    let place = place_of(line)?;
    Ok(Request::Again { owner, place })
}

#[tactic(auto, unfolding(crate::specs::Requests::request_of))]
fn open_of(line: &Line<'_>) -> Result<Request, LineFault>
    ensures value { (s : Counts) (d : Data) → Says line.now d → result ≡ lines.request_of s operation.Open d }
    ensures nodes { IfOk result (λ request. (s : Counts) → lines.NamesNodes s request) }
{
    let user = user_of(line)?;
    Ok(Request::Client(ClientEvent::Open { user }))
}

#[tactic(auto, unfolding(crate::specs::Requests::request_of))]
fn assigned_users_of(line: &Line<'_>) -> Result<Request, LineFault>
    ensures value { (s : Counts) (d : Data) → Says line.now d → result ≡ lines.request_of s operation.AssignedUsers d }
    ensures nodes { IfOk result (λ request. (s : Counts) → lines.NamesNodes s request) }
{
    let role = role_of(line)?;
    Ok(Request::Ask(Question::AssignedUsers(role)))
}

#[tactic(auto, unfolding(crate::specs::Requests::request_of))]
fn assigned_roles_of(line: &Line<'_>) -> Result<Request, LineFault>
    ensures value { (s : Counts) (d : Data) → Says line.now d → result ≡ lines.request_of s operation.AssignedRoles d }
    ensures nodes { IfOk result (λ request. (s : Counts) → lines.NamesNodes s request) }
{
    let user = user_of(line)?;
    Ok(Request::Ask(Question::AssignedRoles(user)))
}

#[tactic(auto, unfolding(crate::specs::Requests::request_of))]
fn role_permissions_of(line: &Line<'_>) -> Result<Request, LineFault>
    ensures value { (s : Counts) (d : Data) → Says line.now d
        → result ≡ lines.request_of s operation.RolePermissions d }
    ensures nodes { IfOk result (λ request. (s : Counts) → lines.NamesNodes s request) }
{
    let role = role_of(line)?;
    Ok(Request::Ask(Question::RolePermissions(role)))
}

#[tactic(auto, unfolding(crate::specs::Requests::request_of))]
fn user_permissions_of(line: &Line<'_>) -> Result<Request, LineFault>
    ensures value { (s : Counts) (d : Data) → Says line.now d
        → result ≡ lines.request_of s operation.UserPermissions d }
    ensures nodes { IfOk result (λ request. (s : Counts) → lines.NamesNodes s request) }
{
    let user = user_of(line)?;
    Ok(Request::Ask(Question::UserPermissions(user)))
}

#[tactic(auto, unfolding(crate::specs::Requests::request_of))]
fn session_roles_of(line: &Line<'_>) -> Result<Request, LineFault>
    ensures value { (s : Counts) (d : Data) → Says line.now d → result ≡ lines.request_of s operation.SessionRoles d }
    ensures nodes { IfOk result (λ request. (s : Counts) → lines.NamesNodes s request) }
{
    let session = session_of(line)?;
    Ok(Request::Ask(Question::SessionRoles(session)))
}

#[tactic(auto, unfolding(crate::specs::Requests::request_of))]
fn reach_of(sizes: &Sizes, line: &Line<'_>) -> Result<Request, LineFault>
    ensures value { (d : Data) → Says line.now d → result ≡ lines.request_of sizes.now operation.Reach d }
    ensures nodes { IfOk result (lines.NamesNodes sizes.now) }
{
    let owner = owner_of(sizes, line)?;
    Ok(Request::Reach(owner))
}

#[tactic(auto, unfolding(crate::specs::Requests::request_of))]
fn stop_of() -> Result<Request, LineFault>
    ensures value { (s : Counts) (line : Data) → result ≡ lines.request_of s operation.Stop line }
    ensures nodes { IfOk result (λ request. (s : Counts) → lines.NamesNodes s request) }
{
    Ok(Request::Stop)
}

#[tactic(auto, unfolding(crate::specs::Requests::user_and_role))]
fn user_and_role(line: &Line<'_>) -> Result<(u32, u16), LineFault>
    ensures { (d : Data) → Says line.now d → result ≡ lines.user_and_role d }
{
    let user = user_of(line)?;
    let role = role_of(line)?;
    Ok((user, role))
}

#[tactic(auto, unfolding(crate::specs::Requests::role_operation_and_object))]
fn role_operation_and_object(line: &Line<'_>) -> Result<(u16, u16, u32), LineFault>
    ensures { (d : Data) → Says line.now d → result ≡ lines.role_operation_and_object d }
{
    let role = role_of(line)?;
    let operation = operation_of(line)?;
    let object = object_of(line)?;
    Ok((role, operation, object))
}

#[tactic(auto, unfolding(crate::specs::Requests::session_user_and_role))]
fn session_user_and_role(line: &Line<'_>) -> Result<(u64, u32, u16), LineFault>
    ensures { (d : Data) → Says line.now d → result ≡ lines.session_user_and_role d }
{
    let session = session_of(line)?;
    let user = user_of(line)?;
    let role = role_of(line)?;
    Ok((session, user, role))
}
