use part_layout::Layout;
use std::sync::Arc;

/// What a search found: the layout, the cost of the layout that it began with and that of this one, and how many exchanges lead
/// from the one to the other.
#[derive(Drop)]
pub struct Found {
    pub layout: Arc<Layout>,
    pub before: u64,
    pub after: u64,
    pub swaps: u32,
}
