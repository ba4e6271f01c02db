/// What a gathering gave and read.
#[derive(Clone, Copy, Debug, PartialEq, Eq)]
pub struct Tally {
    /// How many hits were given.
    pub given: u64,
    /// How many postings all sources read, at most the greatest u64.
    pub reads: u64,
}
