/// What is called before each poll of a round, in the thread of that poll.
pub trait Gate: Sync {
    /// Returns once the source of this shard may be polled.
    fn pass(&self, shard: usize);
}

/// Lets each poll pass at once.
#[derive(Clone, Copy)]
pub struct NoGate;

impl Gate for NoGate {
    fn pass(&self, shard: usize) {}
}
