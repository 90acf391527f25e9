//! The commands of an owner's stream, how they are written, and which node owns which role.
#![tactic(auto)]

mod bytes;
mod command;
mod items;
pub mod laws;
pub mod numbers;
mod table;
mod words;

pub use bytes::{COMMAND_LEN, decode, encode};
pub use command::Command;
pub use items::Items;
pub use table::{RoleTable, TableFault};
pub use words::{parse_command, print_command};
