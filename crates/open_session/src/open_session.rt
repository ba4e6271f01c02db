//! One session between two lines.

ghost use Rattle.std.specs.Prelude.{◌≡◌, ◌≤◌, [], IfOk, None};
ghost use Rattle.hamming_model.specs.declared.limits.TheConstants.{WORDS_MOST};
ghost use Rattle.byte_lines.specs.Cut.{held_of};

use crate::pinned_layouts::PinnedLayouts;
use crate::samples::Samples;
use crate::shard_build::ShardBuild;
use byte_lines::{Cutter, LineBuf};
use open_queries::OpenQueries;
use query_opening::Source;
use read_meter::NoMemory;
use std::alloc::Global;

/// The open queries of a session, the layouts that its queries pinned, its samples, the build that goes on, the line that it takes and
/// the reply that it makes, how many requests it answered, and the position of the last.
#[derive(Drop)]
pub struct Session<const W: usize> {
    pub queries: OpenQueries<Source<W>>,
    pub pinned: PinnedLayouts,
    pub samples: Samples<W>,
    pub build: Option<ShardBuild<W>>,
    pub cutter: Cutter,
    pub out: LineBuf,
    pub requests: u64,
    pub position: u64,
}

/// A session that has read nothing, with all the memory that it needs for other requests than `add`, `del`,
/// `range`, `near`, `repart`, `swap` and `search`.
pub fn new_session<const W: usize>(alloc: Global, position: u64) -> Result<Session<W>, NoMemory>
    requires few_words { W ≤ WORDS_MOST }
    ensures queries { IfOk result (λ session. session.queries ≡ []) }
    ensures opened { IfOk result (λ session. session.pinned.opened ≡ 0) }
    ensures told { IfOk result (λ session. session.pinned.told.items ≡ []) }
    ensures samples { IfOk result (λ session. session.samples ≡ []) }
    ensures build { IfOk result (λ session. session.build ≡ None) }
    ensures cutter { IfOk result (λ session. session.cutter.held ≡ held_of []) }
    ensures requests { IfOk result (λ session. session.requests ≡ 0) }
    ensures position { IfOk result (λ session. session.position ≡ position) }
{
    let queries = OpenQueries::new(alloc)?;
    let samples = Samples::new(alloc)?;
    let cutter = Cutter::new(alloc)?;
    let out = LineBuf::new(alloc)?;
    Ok(Session {
        queries,
        pinned: PinnedLayouts::new(alloc),
        samples,
        build: None,
        cutter,
        out,
        requests: 0,
        position,
    })
}
