//! A version that was made apart.

use crate::version::Version;
use std::sync::Arc;

/// A finished rebuild: the version that is to take the place of one with the same rows.
#[derive(Drop)]
pub struct Prepared<const W: usize> {
    pub version: Arc<Version<W>>,
}
