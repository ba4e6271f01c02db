//! What a query stands on.

ghost use Rattle.std.specs.Prelude.{◌≡◌, ℕ, ◌+◌, ◌<◌, ◌≤◌, length, map, slice_index_or, sum, take, IfOk};
ghost use Rattle.std.specs.List.{AllByRecursion};
ghost use Rattle.std.specs.Arc.{arc_value};
ghost use Rattle.hamming_model.specs.Codes.{StandsFor};
ghost use Rattle.hamming_model.specs.declared.limits.TheConstants.{ROOM_MOST, SHARDS_MOST, WORDS_MOST};
ghost use Rattle.shard_version.specs.Contents.{Contents};
ghost use Rattle.hit_source.specs.Sources.{IsFresh};
ghost use Rattle.shard_query.specs.Opening.{opened_code};
ghost use Rattle.scatter_gather.specs.Kept.{AreOneLength};
ghost use Rattle.session_desk.specs.Calls.{KeepsKnown};
ghost use Rattle.session_desk.specs.Desks.{IsDesk};
ghost use Rattle.query_opening.specs.Opening.{AreSourcesOn, IsSourceOn, MayBeAsked, OpensSources};
ghost use Rattle.query_opening.specs.Opening.{is_nearest, wanted_radius};
ghost use Rattle.query_opening.specs.Pinning.{ComesOn, PinsAll, behind, contents_of_all};

use crate::pinning::pin_all;
use crate::wanted::Wanted;
use gph_codes::Code;
use hamming_model::shards_together_answer;
use hit_source::HitSource;
use knn_task::NearTask;
use read_meter::{NoMemory, Steps};
use scatter_gather::Either;
use session_desk::Desk;
use shard_query::RangeTask;
use shard_version::Version;
use std::alloc::Global;
use std::sync::Arc;

/// A query on one shard.
pub type Source<const W: usize> = Either<RangeTask<W>, NearTask<W>>;

/// A source for each shard, in the order of their numbers, at one position, the versions that they stand on, and how many rows there
/// are at it.
#[derive(Drop)]
pub struct Opened<const W: usize> {
    pub sources: Vec<Source<W>>,
    pub versions: Vec<Arc<Version<W>>>,
    pub position: u64,
    pub rows: u64,
}

/// Opens what a query stands on: pins every shard at a front of its own, which it closes, and opens a source on each version.
///
/// # Errors
///
/// `NoMemory` where there is none for the front, a version or a source. Some shards may have come on.
pub fn open_query<const W: usize, D: Desk<W>, M>(
    alloc: Global,
    desk: &mut D,
    wanted: Wanted,
    query: Code<W>,
    room: usize,
    steps: &mut Steps<M>,
) -> Result<Opened<W>, NoMemory>
    requires code { StandsFor W (D.desk desk.old).config.bits query
        (take (D.desk desk.old).config.bits query) }
    requires near { wanted_radius wanted ≤ (D.desk desk.old).config.bits }
    requires some_room { 1 ≤ room }
    requires small_room { room ≤ ROOM_MOST }
    // Every shard has a source at one position.
    ensures opened { IfOk result (λ opened. OpensSources
        ⟦<Source<W> as HitSource>⟧.asked ⟦<Source<W> as HitSource>⟧.standing
        (D.desk desk.old) (D.desk desk.new) opened.position opened.rows
        wanted (take (D.desk desk.old).config.bits query.entry) room opened.sources.items) }
    ensures versions { IfOk result (λ opened. PinsAll (D.desk desk.old) (D.desk desk.new)
        opened.position (contents_of_all opened.versions.items)) }
    // The source of a shard stands on its version.
    ensures on { IfOk result (λ opened. AreSourcesOn ⟦<Source<W> as HitSource>⟧.asked
        ⟦<Source<W> as HitSource>⟧.standing (contents_of_all opened.versions.items) wanted
        query.entry room opened.sources.items (length (contents_of_all opened.versions.items))) }
    ensures fresh { IfOk result (λ opened.
        AllByRecursion (λ source. IsFresh (⟦<Source<W> as HitSource>⟧.standing source))
        opened.sources.items) }
    ensures spent { IfOk result (λ opened. steps.new ≤ steps.old
        + behind (D.desk desk.old).pins opened.position (D.desk desk.old).config.shards) }
    // The sources can be gathered.
    ensures some { IfOk result (λ opened. 1 ≤ length opened.sources.items) }
    ensures few { IfOk result (λ opened. length opened.sources.items ≤ SHARDS_MOST) }
    ensures one_length { IfOk result (λ opened.
        AreOneLength (map ⟦<Source<W> as HitSource>⟧.asked opened.sources.items)) }
    ensures one_kind { IfOk result (λ opened. AllByRecursion (λ a. a.near ≡ is_nearest wanted)
        (map ⟦<Source<W> as HitSource>⟧.asked opened.sources.items)) }
    // In any case the desk is as before but for what it saw and how far its shards came.
    ensures comes { ComesOn (D.desk desk.old) (D.desk desk.new) }
    ensures known { KeepsKnown (D.desk desk.new) (D.knows desk.old) (D.knows desk.new) }
    ensures upkeep { steps.new ≤ steps.old
        + behind (D.desk desk.old).pins (length (D.desk desk.new).seen)
        (D.desk desk.old).config.shards }
    ensures desk { IsDesk W (D.desk desk.new) }
{
    shards_together_answer();
    let pinned = pin_all(alloc, desk, steps)?;
    let rows = row_count(&pinned.versions);
    let sources = open_each(alloc, &pinned.versions, wanted, query, room)?;
    Ok(Opened {
        sources,
        versions: pinned.versions,
        position: pinned.position,
        rows,
    })
}

// A query on each version.
fn open_each<const W: usize>(
    alloc: Global,
    versions: &[Arc<Version<W>>],
    wanted: Wanted,
    query: Code<W>,
    room: usize,
) -> Result<Vec<Source<W>>, NoMemory>
    requires few_words { W ≤ WORDS_MOST }
    requires each { (i : ℕ) (version : Contents) → i < length versions.now
        → MayBeAsked W query wanted (slice_index_or (contents_of_all versions.now) i version) }
    requires some_room { 1 ≤ room }
    requires small_room { room ≤ ROOM_MOST }
    ensures { IfOk result (λ sources. AreSourcesOn
        ⟦<Source<W> as HitSource>⟧.asked ⟦<Source<W> as HitSource>⟧.standing
        (contents_of_all versions.now) wanted query.entry room
        sources.items (length versions.now)) }
{
    let mut sources = Vec::new(alloc);
    for shard in 0..versions.len() {
        let version = versions[shard].clone()?;
        let source = open_source(alloc, version, wanted, query, room)?;
        sources.push(source)?;
    }
    Ok(sources)
}

// A query on a version.
fn open_source<const W: usize>(
    alloc: Global,
    version: Arc<Version<W>>,
    wanted: Wanted,
    query: Code<W>,
    room: usize,
) -> Result<Source<W>, NoMemory>
    requires few_words { W ≤ WORDS_MOST }
    requires may { MayBeAsked W query wanted (arc_value version).contents }
    requires some_room { 1 ≤ room }
    requires small_room { room ≤ ROOM_MOST }
    ensures { IfOk result (λ source. IsSourceOn wanted (arc_value version.entry).contents
        (opened_code (arc_value version.entry).contents query.entry) room
        (⟦<Source<W> as HitSource>⟧.asked source) (⟦<Source<W> as HitSource>⟧.standing source)) }
{
    match wanted {
        Wanted::Within(tau) => {
            let task = RangeTask::open(alloc, version, query, tau, room)?;
            Ok(Either::Range(task))
        }
        Wanted::Nearest => {
            let task = NearTask::open(alloc, version, query, room)?;
            Ok(Either::Near(task))
        }
    }
}

// How many rows all versions have.
fn row_count<const W: usize>(versions: &[Arc<Version<W>>]) -> u64
    requires { length versions.now ≤ SHARDS_MOST }
    ensures { result ≡ sum (map (λ version. length version.rows) (contents_of_all versions.now)) }
{
    let mut rows = 0;
    for shard in 0..versions.len() {
        rows += versions[shard].rows();
    }
    rows
}
