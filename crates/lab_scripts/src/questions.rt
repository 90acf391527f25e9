//! What a line asks a node to decide or to list.

ghost use Rattle.std.specs.Prelude.{◌≡◌};
ghost use Rattle.lab_scripts.specs.Orders as reading;

use crate::fields::{narrow_then, session_then, wide_then};
use role_commands::numbers::{long_number, narrow_number, split_word, wide_number};
use role_node::Question;

/// The review of a line `list`, by what stands behind its node.
#[tactic(auto, unfolding(crate::specs::Orders::listing_of))]
pub fn listing_of(text: &str) -> Option<Question>
    ensures { result ≡ reading.listing_of text.now }
{
    let (name, text) = split_word(text)?;
    named_listing(name, text)
}

#[tactic(auto, unfolding(crate::specs::Orders::named_listing, crate::specs::Reads::by_its_name))]
fn named_listing(name: &str, text: &str) -> Option<Question>
    ensures { result ≡ reading.named_listing name.now text.now }
{
    match name {
        "users" => narrow_number(text).map(Question::AssignedUsers),
        "roles" => wide_number(text).map(Question::AssignedRoles),
        "permissions" => narrow_number(text).map(Question::RolePermissions),
        "user-permissions" => wide_number(text).map(Question::UserPermissions),
        "operations" => role_operations_of(text),
        "user-operations" => user_operations_of(text),
        "session-roles" => long_number(text).map(Question::SessionRoles),
        "session-permissions" => long_number(text).map(Question::SessionPermissions),
        _ => None,
    }
}

/// The access of a line `check`, by what stands behind its node.
#[tactic(auto, unfolding(crate::specs::Orders::access_of))]
pub fn access_of(text: &str) -> Option<Question>
    ensures { result ≡ reading.access_of text.now }
{
    let (session, text) = session_then(text)?;
    let (user, text) = wide_then(text)?;
    let (operation, text) = narrow_then(text)?;
    let object = wide_number(text)?;
    Some(Question::Check {
        session,
        user,
        operation,
        object,
    })
}

#[tactic(auto, unfolding(crate::specs::Orders::role_operations_of))]
fn role_operations_of(text: &str) -> Option<Question>
    ensures { result ≡ reading.role_operations_of text.now }
{
    let (role, text) = narrow_then(text)?;
    let object = wide_number(text)?;
    Some(Question::RoleOperations { role, object })
}

#[tactic(auto, unfolding(crate::specs::Orders::user_operations_of))]
fn user_operations_of(text: &str) -> Option<Question>
    ensures { result ≡ reading.user_operations_of text.now }
{
    let (user, text) = wide_then(text)?;
    let object = wide_number(text)?;
    Some(Question::UserOperations { user, object })
}
