//! How far a build is.

use shard_version::Version;
use std::sync::Arc;
use version_draft::Draft;

// A draft whose rows are being placed, or the version that a build has followed as or was resumed with.
#[derive(Drop)]
pub enum Stage<const W: usize> {
    Placing(Draft<W>),
    Following(Arc<Version<W>>),
}
