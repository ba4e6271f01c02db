//! How the program ends.

use gph_serve::Outcome;

/// How a command ended.
#[derive(Clone, Copy)]
pub(crate) enum Ending {
    /// A top call ended so.
    Served(Outcome),
    /// The port couldn't be bound, or a connection not accepted.
    ListenFailed,
    /// The board wasn't free once all desks had left.
    BoardHeld,
}

impl Ending {
    /// The status of the process.
    pub(crate) fn status(self) -> u8 {
        match self {
            Ending::Served(Outcome::Done) => 0,
            Ending::Served(Outcome::Usage { .. }) => 2,
            Ending::Served(Outcome::ReadFault) => 3,
            Ending::Served(Outcome::WriteFault) => 4,
            Ending::Served(Outcome::NoMemory) => 5,
            Ending::Served(Outcome::InputLimit) => 6,
            Ending::ListenFailed => 9,
            Ending::BoardHeld => 10,
        }
    }
}
