//! How bytes begin: with a line, with one that is too long, or with neither.

ghost use Rattle.std.specs.Prelude.{◌≡◌, ◌≤◌, length, position, ℕ, List, Option, IfSome, IfNone};
ghost use Rattle.link_frames.specs.lines.Lines.{is_line_end, NoLineEnd};
ghost use Rattle.link_frames.specs.lines.Nexts.{Begins, EndsWith};

/// How the bytes ahead begin.
#[derive(Clone, Copy, Debug, PartialEq, Eq)]
pub enum Next {
    /// With a line of so many bytes, and its end.
    Line(usize),
    /// With a line of more bytes than a line may have.
    TooLong,
    /// With a last line of so many bytes, which has no end.
    Last(usize),
    /// There are none.
    End,
}

/// How the bytes begin, where that does not depend on what comes behind them.
pub(crate) fn next_of(front: &[u8], limit: usize) -> Option<Next>
    ensures begins { IfSome result (λ next. Begins limit front.now next
        × ((known : Option (List ℕ)) → EndsWith known next)) }
    ensures open { IfNone result (NoLineEnd front.now × (length front.now ≤ limit)) }
{
    match first_line_end(front) {
        Some(end) if end <= limit => Some(Next::Line(end)),
        Some(_) => Some(Next::TooLong),
        None if front.len() > limit => Some(Next::TooLong),
        None => None,
    }
}

/// Where the first line ends.
pub(crate) fn first_line_end(bytes: &[u8]) -> Option<usize>
    ensures { result ≡ position is_line_end bytes.now }
{
    bytes.iter().position(|b| *b == b'\n')
}
