/// The most bytes of a session's input.
pub const INPUT_MOST: u64 = 4_294_967_296;

/// What a server is asked for, each number in its range.
#[derive(Clone, Copy, Debug, PartialEq, Eq)]
pub struct Config {
    /// The bits of a code: a multiple of 8 from 8 to `hamming_model::BITS_MOST`.
    pub bits: u32,
    /// The parts of the starting layout: so many that it can be laid contiguously.
    pub parts: u32,
    /// 1 to `hamming_model::SHARDS_MOST`.
    pub shards: u32,
    /// The hits that may wait in a source: 1 to `hamming_model::ROOM_MOST`.
    pub room: u32,
    /// The most entries of the journal: 1 to `hamming_model::ENTRIES_MOST`.
    pub entries: u64,
    /// The most bytes of a session's input: 1 to `INPUT_MOST`.
    pub input: u64,
}
