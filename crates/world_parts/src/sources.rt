//! The sources of a query on the versions that it pinned.

ghost use Rattle.std.specs.Prelude.{◌≡◌, ◌*◌, ◌+◌, ◌<◌, ◌≤◌, ℕ, length, map, sum_by, slice_get, IfOk, None, Some};
ghost use Rattle.std.specs.List.{AllByRecursion};
ghost use Rattle.std.specs.Arc.{arc_value};
ghost use Rattle.hamming_model.specs.declared.limits.TheConstants.{ENTRIES_MOST, ROOM_MOST, SHARDS_MOST, WORDS_MOST};
ghost use Rattle.hit_source.specs.Sources.{IsFresh};
ghost use Rattle.versioned_shard.specs.Shards.{contents_at};
ghost use Rattle.scatter_gather.specs.Gathering.{gathered, seen};
ghost use Rattle.scatter_gather.specs.Kept.{AreOneLength, IsGathering};
ghost use Rattle.world_model.specs.Asking.{most_given};
ghost use Rattle.world_parts.specs.Asks.{ask_seen};
ghost use Rattle.world_parts.specs.Gathers.{AreAllLawful};
ghost use Rattle.world_parts.specs.Pinned.{AreOpened, BeginsGather, IsOpened, IsPinThere, MayOpen, MayOpenEach};
ghost use Rattle.world_parts.specs.Pinned.{missing, pinned_with, rows_pinned};

use crate::ask::Ask;
use crate::held::Source;
use hit_source::HitSource;
use knn_task::NearTask;
use read_meter::NoMemory;
use scatter_gather::{Either, Gather};
use shard_query::RangeTask;
use shard_version::Version;
use std::alloc::Global;
use std::sync::Arc;

// The gathering of a query's sources, and the most hits that it gives.
#[derive(Drop)]
pub(crate) struct Begun<const W: usize> {
    pub(crate) gather: Gather<Source<W>>,
    pub(crate) limit: u64,
}

// Opens a source on each pinned version, with one version more on a shard, and gathers them.
pub(crate) fn begin<const W: usize>(
    alloc: Global,
    pins: &[Option<Arc<Version<W>>>],
    place: usize,
    version: &Arc<Version<W>>,
    ask: &Ask<W>,
    room: usize,
) -> Result<Begun<W>, NoMemory>
    requires few_words { W ≤ WORDS_MOST }
    requires some_room { 1 ≤ room }
    requires small_room { room ≤ ROOM_MOST }
    requires few { length pins.now ≤ SHARDS_MOST }
    requires free { slice_get pins.now place ≡ Some None }
    requires may { MayOpenEach ask.now (pinned_with pins.now place version.now) }
    ensures { IfOk result (λ begun. BeginsGather room ask.now
        (pinned_with pins.now place version.now)
        (sum_by rows_pinned (pinned_with pins.now place version.now)) begun.gather begun.limit) }
{
    let rows = row_count(pins) + version.rows();
    let limit = limit_of(ask, rows);
    let sources = open_each(alloc, pins, place, version, ask, room)?;
    let gather = gather_fresh(alloc, sources, limit)?;
    Ok(Begun { gather, limit })
}

// Gathers sources of which nothing was read or given.
fn gather_fresh<H: HitSource>(
    alloc: Global,
    sources: Vec<H>,
    limit: u64,
) -> Result<Gather<H>, NoMemory>
    requires some { 1 ≤ length sources.items }
    requires few { length sources.items ≤ SHARDS_MOST }
    requires one_length { AreOneLength (map H.asked sources.items) }
    requires fresh { AllByRecursion (λ source. IsFresh (H.standing source)) sources.items }
    ensures gather { IfOk result (λ gather. gather ≡ gathered sources.items limit 0 None) }
    ensures holds { IfOk result (λ gather. IsGathering (seen H.asked H.standing gather)) }
    ensures lawful { AreAllLawful H.asked H.standing }
{
    Gather::new(alloc, sources, limit)
}

// The most hits that a question on so many rows gives.
fn limit_of<const W: usize>(ask: &Ask<W>, rows: u64) -> u64
    ensures { (bits : ℕ) → result ≡ most_given rows (ask_seen bits ask.now) }
{
    match ask {
        Ask::Range { tau: _, code: _ } => u64::MAX,
        Ask::Near { number, code: _ } => rows.min(*number as u64),
    }
}

// A source on each pinned version, with one version more on a shard.
fn open_each<const W: usize>(
    alloc: Global,
    pins: &[Option<Arc<Version<W>>>],
    place: usize,
    version: &Arc<Version<W>>,
    ask: &Ask<W>,
    room: usize,
) -> Result<Vec<Source<W>>, NoMemory>
    requires few_words { W ≤ WORDS_MOST }
    requires some_room { 1 ≤ room }
    requires small_room { room ≤ ROOM_MOST }
    requires may { MayOpenEach ask.now (pinned_with pins.now place version.now) }
    ensures { IfOk result (λ sources. AreOpened room ask.now
        (pinned_with pins.now place version.now) sources.items (length pins.now)) }
{
    let mut sources = Vec::new(alloc);
    for shard in 0..pins.len() {
        let own = own_version(pins, place, version, shard)?;
        let source = open_source(alloc, own, ask, room)?;
        sources.push(source)?;
    }
    Ok(sources)
}

// The version that is pinned on a shard, with one version more.
fn own_version<const W: usize>(
    pins: &[Option<Arc<Version<W>>>],
    place: usize,
    version: &Arc<Version<W>>,
    shard: usize,
) -> Result<Arc<Version<W>>, NoMemory>
    requires low { shard < length pins.now }
    requires all { missing (pinned_with pins.now place version.now) ≡ 0 }
    ensures { IfOk result (λ own.
        IsPinThere (pinned_with pins.now place version.now) shard own) }
{
    if shard == place {
        let more = version.clone()?;
        return Ok(more);
    }
    let Some(pin) = &pins[shard] else {
        unreachable!()
    };
    let own = pin.clone()?;
    Ok(own)
}

// A source on a version.
fn open_source<const W: usize>(
    alloc: Global,
    version: Arc<Version<W>>,
    ask: &Ask<W>,
    room: usize,
) -> Result<Source<W>, NoMemory>
    requires few_words { W ≤ WORDS_MOST }
    requires some_room { 1 ≤ room }
    requires small_room { room ≤ ROOM_MOST }
    requires may { MayOpen ask.now (contents_at version) }
    ensures { IfOk result (λ source. IsOpened room ask.now (contents_at version.entry) source) }
{
    match ask {
        Ask::Range { tau, code } => {
            let task = RangeTask::open(alloc, version, *code, *tau, room)?;
            Ok(Either::Range(task))
        }
        Ask::Near { number: _, code } => {
            let task = NearTask::open(alloc, version, *code, room)?;
            Ok(Either::Near(task))
        }
    }
}

// How many rows the pinned versions have.
fn row_count<const W: usize>(pins: &[Option<Arc<Version<W>>>]) -> u64
    requires { length pins.now ≤ SHARDS_MOST }
    ensures rows { result ≡ sum_by rows_pinned pins.now }
    ensures few { result ≤ SHARDS_MOST * ENTRIES_MOST }
{
    let mut rows = 0;
    for shard in 0..pins.len() {
        rows += rows_of(&pins[shard]);
    }
    rows
}

// How many rows a version has, if one is pinned.
fn rows_of<const W: usize>(pin: &Option<Arc<Version<W>>>) -> u64
    ensures rows { result ≡ rows_pinned pin.now }
    ensures few { result ≤ ENTRIES_MOST }
{
    match pin {
        Some(version) => version.rows(),
        None => 0,
    }
}
