//! A command as nine bytes.

ghost use Rattle.std.specs.Prelude.{◌≡◌, IfSome};
ghost use Rattle.role_commands.specs.Bytes.{fields_bytes, bytes_of, command_in};
ghost use Rattle.role_commands.specs.Words.{IsCommand};

use crate::command::Command;

/// How many bytes a command has.
pub const COMMAND_LEN: usize = 9;

// The tags, one for each kind of command.
const ASSIGN: u8 = 1;

const DEASSIGN: u8 = 2;

const GRANT: u8 = 3;

const REVOKE: u8 = 4;

const CLEAR: u8 = 5;

/// The bytes of the command: its tag, its role, its user or object, and its operation, each number
/// with its highest byte first.
#[tactic(auto, unfolding(crate::specs::Bytes::bytes_of))]
pub fn encode(command: &Command) -> [u8; COMMAND_LEN]
    ensures value { result ≡ bytes_of command.now }
    ensures fits { IsCommand command.now }
{
    match *command {
        Command::Assign { user, role } => join_fields(ASSIGN, role, user, 0),
        Command::Deassign { user, role } => join_fields(DEASSIGN, role, user, 0),
        Command::Grant {
            role,
            operation,
            object,
        } => join_fields(GRANT, role, object, operation),
        Command::Revoke {
            role,
            operation,
            object,
        } => join_fields(REVOKE, role, object, operation),
        Command::Clear { role } => join_fields(CLEAR, role, 0, 0),
    }
}

/// The command that [`encode`] writes as these bytes, if there is one.
pub fn decode(bytes: &[u8; COMMAND_LEN]) -> Option<Command>
    ensures value { result ≡ command_in bytes.now }
    ensures found { IfSome result (λ c. bytes.now ≡ bytes_of c) }
    ensures fits { IfSome result IsCommand }
    ensures only { (c : Command) → IsCommand c → bytes.now ≡ bytes_of c → result ≡ Some c }
{
    read_fields(bytes)
}

#[tactic(auto, unfolding(crate::specs::Bytes::bytes_of))]
fn read_fields(bytes: &[u8; COMMAND_LEN]) -> Option<Command>
    ensures found { IfSome result (λ c. bytes.now ≡ bytes_of c) }
    ensures fits { IfSome result IsCommand }
    ensures only { (c : Command) → IsCommand c → bytes.now ≡ bytes_of c → result ≡ Some c }
{
    let (tag, role, user_or_object, operation) = split_fields(bytes);
    match tag {
        ASSIGN if operation == 0 => Some(Command::Assign {
            user: user_or_object,
            role,
        }),
        DEASSIGN if operation == 0 => Some(Command::Deassign {
            user: user_or_object,
            role,
        }),
        GRANT => Some(Command::Grant {
            role,
            operation,
            object: user_or_object,
        }),
        REVOKE => Some(Command::Revoke {
            role,
            operation,
            object: user_or_object,
        }),
        CLEAR if user_or_object == 0 && operation == 0 => Some(Command::Clear { role }),
        _ => None,
    }
}

fn join_fields(tag: u8, role: u16, user_or_object: u32, operation: u16) -> [u8; COMMAND_LEN]
    ensures { result ≡ fields_bytes tag role user_or_object operation }
{
    let [r0, r1] = role.to_be_bytes();
    let [p0, p1, p2, p3] = user_or_object.to_be_bytes();
    let [o0, o1] = operation.to_be_bytes();
    [tag, r0, r1, p0, p1, p2, p3, o0, o1]
}

fn split_fields(bytes: &[u8; COMMAND_LEN]) -> (u8, u16, u32, u16)
    ensures { bytes.now ≡ fields_bytes result.0 result.1 result.2 result.3 }
{
    let [tag, r0, r1, p0, p1, p2, p3, o0, o1] = *bytes;
    let role = u16::from_be_bytes([r0, r1]);
    let user_or_object = u32::from_be_bytes([p0, p1, p2, p3]);
    let operation = u16::from_be_bytes([o0, o1]);
    (tag, role, user_or_object, operation)
}
