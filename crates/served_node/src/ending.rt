//! What comes of a job.

ghost use Rattle.std.specs.Prelude.{◌≡◌};
ghost use Rattle.served_node.specs.Endings.{counted_in};

use crate::said::Said;
use operator_lines::ServingFault;

/// What comes of a job: what is said of it, and to whom it is told.
#[derive(Drop, Debug)]
pub enum Ending<S> {
    /// A hold made its call, and said this.
    Held(S),
    /// The server made no hold, and who waits for the job hears why.
    Refused(ServingFault),
    /// The server lost a packet that it does not take, as a network may. Nobody hears of it, and the connection over
    /// which it came goes on.
    Lost,
    /// Nothing is said, for want of memory, and where the seat does not fit the node. A connection whose job this was
    /// ends.
    Nothing,
}

impl Ending<Said> {
    /// What is noted of the connection over which a packet came: true where it counted, false where it found no memory.
    /// Nothing is noted of another answer, nor where the server made no hold by a rule of its own.
    pub fn counted(&self) -> Option<bool>
        ensures { result ≡ counted_in self.now }
    {
        match self {
            Ending::Held(said) if said.has_counted() => Some(true),
            Ending::Held(_) | Ending::Refused(_) | Ending::Lost => None,
            Ending::Nothing => Some(false),
        }
    }
}
