//! What clients do.

/// What a client did.
#[derive(Clone, Copy, Debug, PartialEq, Eq)]
pub enum ClientEvent {
    /// A session of this user opened.
    Open { user: u32 },
    /// A role became active in the session.
    Activate { session: u64, user: u32, role: u16 },
    /// A role is no longer active in the session.
    DropRole { session: u64, user: u32, role: u16 },
    /// The session ended.
    Close { session: u64, user: u32 },
}
