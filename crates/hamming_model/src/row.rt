/// A row: a key and its code, a list of bits, each 0 or 1.
#[derive(Debug, Drop)]
pub struct Row {
    /// The row's key.
    pub key: u64,
    /// The bits of the code, position 0 first.
    pub code: Vec<u8>,
}
