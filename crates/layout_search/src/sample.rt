use gph_codes::Code;

/// A range query that a layout is to serve well: its code, and its radius of at most 16.
#[derive(Clone, Copy)]
pub struct Sample<const W: usize> {
    pub query: Code<W>,
    pub tau: u32,
}
