//! A query in a world.

ghost use Rattle.std.specs.Prelude.{◌≤◌};
ghost use Rattle.hamming_model.specs.declared.limits.TheConstants.{WORDS_MOST};

use crate::ask::Ask;
use commit_journal::Front;
use knn_task::NearTask;
use scatter_gather::{Either, Gather};
use shard_query::RangeTask;
use shard_version::Version;
use std::snapshot::Snapshot;
use std::sync::Arc;

/// The source of a query on one shard.
pub type Source<const W: usize> = Either<RangeTask<W>, NearTask<W>>;

/// An opened query: its question, how many entries it stands on, its front while that is open, the version that it pinned on each shard,
/// the gathering of its sources once all are pinned, the most hits that this gives, and whether it was cancelled.
///
/// A query that is cancelled lets its versions and its gathering go. What they were last is known to contracts alone, and takes no memory.
///
/// A code has few words, so that no source is too large an object to be dropped.
#[derive(Drop)]
pub struct Held<const W: usize> {
    pub ask: Ask<W>,
    pub position: u64,
    pub front: Option<Front<W>>,
    pub pins: Vec<Option<Arc<Version<W>>>>,
    pub gather: Option<Gather<Source<W>>>,
    pub limit: u64,
    pub cancelled: bool,
    pub pinned: Snapshot<Vec<Option<Arc<Version<W>>>>>,
    pub gathered: Snapshot<Option<Gather<Source<W>>>>,
    ghost few_words: { W ≤ WORDS_MOST },
}
