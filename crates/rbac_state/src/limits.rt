//! The limits: below what each number is, and for how many commands room is made.

/// A role's number is below this.
pub const ROLES: u64 = 65_536;

/// A user's number is below this.
pub const USERS: u64 = 4_294_967_296;

/// A permission's number is below this.
pub const PERMISSIONS: u64 = 281_474_976_710_656;

/// So many commands can be applied after room was made.
pub const LEAST_ROOM: usize = 64;
