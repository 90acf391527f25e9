//! A command as a line of words.

ghost use Rattle.std.specs.Prelude.{◌≡◌, IfOk, IfSome, Some, string_bytes};
ghost use Rattle.role_commands.specs.Words as words;
ghost use Rattle.role_commands.specs.Words.{spelling, IsCommand};
ghost use Rattle.role_commands.specs.Reading as reading;
ghost use Rattle.role_commands.specs.Reading.{command_of};

use crate::command::Command;
use crate::numbers::{narrow_number, split_word, wide_number};
use std::alloc::{AllocError, Global};

/// The command as its name and its numbers, with one space between the words.
///
/// # Errors
///
/// Only for want of memory.
pub fn print_command(alloc: Global, command: &Command) -> Result<String, AllocError>
    ensures ok { IfOk result (λ text. string_bytes text ≡ spelling command.now) }
    ensures fits { IsCommand command.now }
{
    match *command {
        Command::Assign { user, role } => two_words(alloc, "assign", user, role),
        Command::Deassign { user, role } => two_words(alloc, "deassign", user, role),
        Command::Grant {
            role,
            operation,
            object,
        } => three_words(alloc, "grant", role, operation, object),
        Command::Revoke {
            role,
            operation,
            object,
        } => three_words(alloc, "revoke", role, operation, object),
        Command::Clear { role } => one_word(alloc, "clear", role),
    }
}

fn one_word(alloc: Global, name: &str, role: u16) -> Result<String, AllocError>
    ensures { IfOk result (λ text. string_bytes text ≡ words.one_word name.now role) }
{
    format!(in alloc; "{name} {role}")
}

fn two_words(alloc: Global, name: &str, user: u32, role: u16) -> Result<String, AllocError>
    ensures { IfOk result (λ text. string_bytes text ≡ words.two_words name.now user role) }
{
    format!(in alloc; "{name} {user} {role}")
}

fn three_words(
    alloc: Global,
    name: &str,
    role: u16,
    operation: u16,
    object: u32,
) -> Result<String, AllocError>
    ensures { IfOk result (λ text. string_bytes text ≡ words.three_words name.now role operation object) }
{
    format!(in alloc; "{name} {role} {operation} {object}")
}

/// The command that [`print_command`] writes as this text, if there is one.
pub fn parse_command(text: &str) -> Option<Command>
    ensures value { result ≡ command_of text.now }
    ensures found { IfSome result (λ c. text.now ≡ spelling c) }
    ensures fits { IfSome result IsCommand }
    ensures only { (c : Command) → IsCommand c → text.now ≡ spelling c → result ≡ Some c }
{
    let (name, numbers) = split_word(text)?;
    named_command(name, numbers)
}

#[tactic(auto, unfolding(crate::specs::Reading::named_command))]
fn named_command(name: &str, numbers: &str) -> Option<Command>
    ensures { result ≡ reading.named_command name.now numbers.now }
{
    match name {
        "assign" => {
            let (user, role) = user_and_role(numbers)?;
            Some(Command::Assign { user, role })
        }
        "deassign" => {
            let (user, role) = user_and_role(numbers)?;
            Some(Command::Deassign { user, role })
        }
        "grant" => {
            let (role, operation, object) = role_and_permission(numbers)?;
            Some(Command::Grant {
                role,
                operation,
                object,
            })
        }
        "revoke" => {
            let (role, operation, object) = role_and_permission(numbers)?;
            Some(Command::Revoke {
                role,
                operation,
                object,
            })
        }
        "clear" => {
            let role = narrow_number(numbers)?;
            Some(Command::Clear { role })
        }
        _ => None,
    }
}

#[tactic(auto, unfolding(crate::specs::Reading::user_and_role))]
fn user_and_role(text: &str) -> Option<(u32, u16)>
    ensures { result ≡ reading.user_and_role text.now }
{
    let (user, role) = split_word(text)?;
    Some((wide_number(user)?, narrow_number(role)?))
}

#[tactic(auto, unfolding(crate::specs::Reading::role_and_permission))]
fn role_and_permission(text: &str) -> Option<(u16, u16, u32)>
    ensures { result ≡ reading.role_and_permission text.now }
{
    let (role, permission) = split_word(text)?;
    let role = narrow_number(role)?;
    let (operation, object) = operation_and_object(permission)?;
    Some((role, operation, object))
}

#[tactic(auto, unfolding(crate::specs::Reading::operation_and_object))]
fn operation_and_object(text: &str) -> Option<(u16, u32)>
    ensures { result ≡ reading.operation_and_object text.now }
{
    let (operation, object) = split_word(text)?;
    Some((narrow_number(operation)?, wide_number(object)?))
}
