//! Where the fields of a frame of version 2 stand, and how many bytes they have.

pub(crate) const VERSION: u8 = 2;

/// How many bytes a frame has.
pub const FRAME_LEN: usize = 54;

/// The bytes of a frame.
pub type Frame = [u8; FRAME_LEN];

pub(crate) const VERSION_AT: usize = 0;

pub(crate) const CLUSTER_AT: usize = 1;

pub(crate) const FROM_AT: usize = 5;

pub(crate) const TO_AT: usize = 6;

pub(crate) const KIND_AT: usize = 7;

pub(crate) const OWNER_AT: usize = 8;

pub(crate) const PLACE_AT: usize = 9;

pub(crate) const COMMAND_AT: usize = 13;

/// The tag comes behind all fields.
pub(crate) const TAG_AT: usize = 22;

/// The bytes of a tag.
pub(crate) const TAG_LEN: usize = 32;
