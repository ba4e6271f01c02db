//! The refusals to finish a build.

use crate::build::Build;

/// Why a build wasn't finished, with the build as it was.
#[derive(Drop)]
pub enum Unready<const W: usize> {
    /// So many rows are left to place, and at least one.
    Left { left: u64, build: Build<W> },
    /// There was no memory for the version.
    NoMemory { build: Build<W> },
}
