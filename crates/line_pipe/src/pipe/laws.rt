//! What holds of a node's own packets, whatever it recorded before.
ghost use Rattle.line_pipe.specs.Laws.{OwnPacketsEnd};

/// After a node took three of its own packets none is left, and the node that took them until none was is `settled`.
pub fn own_packets_end()
    ensures { OwnPacketsEnd }
{}
