/// How a poll of a source of hits ended.
#[derive(Clone, Copy, Debug, PartialEq, Eq)]
pub enum Polled {
    /// The budget was spent, or a hit waits, or the floor rose.
    Moved,
    /// As many hits wait as may.
    Full,
    /// Every hit was given or waits, and nothing more will be read.
    Ended,
}
