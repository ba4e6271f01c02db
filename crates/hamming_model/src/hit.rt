/// A hit of a query, ordered by distance and then by key.
#[derive(Clone, Copy, Debug, PartialEq, Eq, PartialOrd, Ord)]
pub struct Hit {
    /// The Hamming distance of the code from the query, in positions.
    pub dist: u32,
    /// The code's key.
    pub key: u64,
}
