//! The three kinds of message.

/// The kinds of message of authenticated double-echo broadcast.
#[derive(Clone, Copy, Debug, PartialEq, Eq)]
pub enum Kind {
    /// The owner's own message, which starts a broadcast.
    Send,
    /// A node has the owner's message.
    Echo,
    /// A node is ready to deliver.
    Ready,
}
