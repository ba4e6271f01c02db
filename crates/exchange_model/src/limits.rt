//! The limits of a search for a layout, each in one place. Contracts and definitions cite them by name.

/// The most rows that a search reads: those of least key.
pub const SEARCH_ROWS_MOST: u32 = 64;

/// The most samples that a layout is judged by.
pub const SAMPLES_MOST: usize = 16;

/// The greatest radius of a sample.
pub const SAMPLE_RADIUS_MOST: u32 = 16;

/// The most rounds of a search, and so the most exchanges.
pub const ROUNDS_MOST: u32 = 8;
