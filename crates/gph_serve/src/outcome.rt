/// How a served session ended.
#[derive(Clone, Copy, Debug, PartialEq, Eq)]
pub enum Outcome {
    /// The input was read to its end, or to `quit`.
    Done,
    /// The words aren't those of a command; `word` is the first at fault, counted from 1.
    Usage { word: usize },
    /// A read failed.
    ReadFault,
    /// A write failed.
    WriteFault,
    /// There was no memory to begin with.
    NoMemory,
    /// The input is longer than it may be.
    InputLimit,
}
