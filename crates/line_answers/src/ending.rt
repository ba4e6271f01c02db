/// How a call ends that answers lines.
#[derive(Clone, Copy, Debug, PartialEq, Eq)]
pub enum Ending {
    /// The input was read to its end.
    Done,
    /// A read failed.
    ReadFault,
    /// A write failed.
    WriteFault,
    /// The input is longer than it may be.
    InputLimit,
}
