/// Where a build stands after a step.
#[derive(Drop)]
pub enum BuildState {
    /// So many rows are left to place, and at least one.
    Going { left: u64 },
    /// No row is left.
    Ready,
}
