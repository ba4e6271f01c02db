//! A build of a found layout.

ghost use Rattle.std.specs.Prelude.{◌≡◌, ◌+◌, ◌≤◌, length, IfOk};
ghost use Rattle.std.specs.Arc.{arc_value};
ghost use Rattle.hamming_model.specs.declared.limits.TheConstants.{WORDS_MOST};
ghost use Rattle.part_layout.specs.Laid.{IsLaid};
ghost use Rattle.shard_version.specs.Contents.{IsVersion};
ghost use Rattle.shard_version.specs.Relaid.{in_layout};
ghost use Rattle.repartitioner.specs.Builds.{placed_all};
ghost use Rattle.versioned_shard.specs.Shards.{contents_at};

use crate::limits::PLACED_AT_ONCE;
use part_layout::Layout;
use read_meter::{NoMemory, Steps};
use repartitioner::Build;
use shard_version::Version;
use std::alloc::Global;
use std::sync::Arc;

// A build of a version in another layout, with every row placed.
pub(crate) fn build_in<const W: usize, M>(
    alloc: Global,
    version: &Arc<Version<W>>,
    layout: Arc<Layout>,
    upkeep: &mut Steps<M>,
) -> Result<Build<W>, NoMemory>
    requires few_words { W ≤ WORDS_MOST }
    requires laid { IsLaid (arc_value layout) }
    requires bits { (arc_value layout).bits ≡ (contents_at version.now).layout.bits }
    ensures build { IfOk result (λ build.
        build ≡ placed_all (in_layout (contents_at version.now) (arc_value layout))) }
    ensures sound { IfOk result (λ build. IsVersion build.contents) }
    ensures bound { upkeep.new ≤ upkeep.old
        + (length (contents_at version.now).rows + length (contents_at version.now).rows) }
{
    let mut build = Build::start(alloc, version, layout, upkeep)?;
    place_all(&mut build, upkeep);
    let _at = build.at();
    Ok(build)
}

// Places all rows that are left.
fn place_all<const W: usize, M>(build: &mut Build<W>, upkeep: &mut Steps<M>)
    ensures placed { build.new ≡ placed_all build.old.contents }
    ensures bound { upkeep.new ≤ upkeep.old + build.old.left }
{
    while build.left() > 0 {
        let _state = build.step(PLACED_AT_ONCE, upkeep);
    }
}
