/// An exchange of two positions: the one at a place of a part, and the one at a place of the next part. Parts and places count from 0.
#[derive(Clone, Copy)]
pub struct PositionExchange {
    pub part: u32,
    pub place: u32,
    pub other: u32,
}
