//! What a number of a pair stands for.

ghost use Rattle.std.specs.Prelude.{◌≡◌, ℕ, ◌<◌};
ghost use Rattle.rbac_state.specs.inside.PermissionNumbers.{permission_of};
ghost use Rattle.rbac_state.specs.inside.Limits.{most_firsts};

use crate::permission_number::{Permission, PermissionNumber};

/// What numbers below a limit stand for.
pub trait Numbered: Copy + Drop {
    ghost limit: { ℕ };

    ghost of: { ℕ → Self };

    /// What the number stands for.
    fn of_number(number: u64) -> Self
        requires { number < limit }
        ensures { result ≡ of number };
}

impl Numbered for u16 {
    ghost limit = { 65536 };

    ghost of = { λ n. n };

    fn of_number(number: u64) -> u16 {
        number as u16
    }
}

impl Numbered for u32 {
    ghost limit = { 4294967296 };

    ghost of = { λ n. n };

    fn of_number(number: u64) -> u32 {
        number as u32
    }
}

impl Numbered for u64 {
    ghost limit = { 18446744073709551616 };

    ghost of = { λ n. n };

    fn of_number(number: u64) -> u64 {
        number
    }
}

impl Numbered for Permission {
    ghost limit = { most_firsts };

    ghost of = { permission_of };

    fn of_number(number: u64) -> Permission {
        PermissionNumber::new(number).permission()
    }
}
