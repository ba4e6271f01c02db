//! The limits of the whole program, each in one place. Contracts and definitions cite them by name.

/// The most bits of a code.
pub const BITS_MOST: u32 = 256;

/// The most 64-bit words of a code in memory. It is above what `BITS_MOST` needs, so that a greater number of bits is a
/// change of that constant alone; it keeps the size of a code, and of what holds one, small enough for every list of them.
pub const WORDS_MOST: usize = 8;

/// The most parts of a layout.
pub const PARTS_MOST: usize = 64;

/// The most positions of a part: a posting table has a list for each of `2^12` values at most.
pub const PART_WIDTH_MOST: u32 = 12;

/// The most shards.
pub const SHARDS_MOST: u32 = 16;

/// The most hits that may wait at a source.
pub const ROOM_MOST: usize = 256;

/// The most entries of a history, and so the most rows at a time.
pub const ENTRIES_MOST: u64 = 1_048_576;

/// The most numbers of sessions that a history gives out.
pub const SESSIONS_MOST: u32 = 4_294_967_295;
