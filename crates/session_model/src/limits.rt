/// The most bytes that a session reads at a time.
pub const BLOCK_MOST: usize = 4096;
