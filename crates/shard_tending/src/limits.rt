//! The numbers of a turn, each in one place.

/// The rows of least key whose codes are the samples.
pub const TENDING_ROWS: u32 = 16;

/// The radius of each sample.
pub const TENDING_RADIUS: u32 = 4;

/// The rounds of a search.
pub const TENDING_ROUNDS: u32 = 8;

/// The rows that a build places in one step.
pub const PLACED_AT_ONCE: u32 = 256;
