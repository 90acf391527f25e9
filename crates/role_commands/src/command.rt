//! What an owner says of a role.

ghost use Rattle.std.specs.Prelude.{◌≡◌};
ghost use Rattle.role_commands.specs.Rules.{role_of};
ghost use Rattle.role_commands.specs.Same.{same_command};

/// A command of an owner's stream.
#[derive(Clone, Copy, Debug, PartialEq, Eq)]
pub enum Command {
    /// The user has the role from now on.
    Assign {
        user: u32,
        role: u16,
    },
    /// The user has the role no longer.
    Deassign {
        user: u32,
        role: u16,
    },
    /// The role may do the operation on the object from now on.
    Grant {
        role: u16,
        operation: u16,
        object: u32,
    },
    /// The role may no longer do the operation on the object.
    Revoke {
        role: u16,
        operation: u16,
        object: u32,
    },
    /// No user has the role and the role may do nothing, from now on.
    Clear {
        role: u16,
    },
}

impl Command {
    /// The role that the command is about.
    pub fn role(&self) -> u16
        ensures { result ≡ role_of self.now }
    {
        match *self {
            Command::Assign { role, .. }
            | Command::Deassign { role, .. }
            | Command::Grant { role, .. }
            | Command::Revoke { role, .. }
            | Command::Clear { role } => role,
        }
    }

    /// Whether it is the same command as the other. The derived test is a call, and this runs for each vote.
    #[inline(always)]
    pub fn is_same(&self, other: &Command) -> bool
        ensures { result ≡ same_command self.now other.now }
    {
        match (*self, *other) {
            (Command::Assign { user, role }, Command::Assign { user: u, role: r })
            | (Command::Deassign { user, role }, Command::Deassign { user: u, role: r }) => {
                user == u && role == r
            }
            (
                Command::Grant {
                    role,
                    operation,
                    object,
                },
                Command::Grant {
                    role: r,
                    operation: p,
                    object: o,
                },
            )
            | (
                Command::Revoke {
                    role,
                    operation,
                    object,
                },
                Command::Revoke {
                    role: r,
                    operation: p,
                    object: o,
                },
            ) => role == r && operation == p && object == o,
            (Command::Clear { role }, Command::Clear { role: r }) => role == r,
            _ => false,
        }
    }
}
