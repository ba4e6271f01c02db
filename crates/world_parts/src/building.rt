//! Builds of shards in another layout.

ghost use Rattle.std.specs.Prelude.{◌≡◌, ◌+◌, ◌≤◌, length, min, option_map};
ghost use Rattle.std.specs.Arc.{arc_value};
ghost use Rattle.hamming_model.specs.declared.limits.TheConstants.{WORDS_MOST};
ghost use Rattle.part_layout.specs.Laid.{IsLaid};
ghost use Rattle.world_parts.specs.Builds.{BeginsAs, PlacesRowsAs, rows_of_build};
ghost use Rattle.world_parts.specs.Seen.{build_seen};

use crate::place::Place;
use part_layout::Layout;
use read_meter::Steps;
use repartitioner::Build;
use std::alloc::Global;
use std::sync::Arc;
use world_model::{Refused, Told};

/// Begins a build of a shard in another layout: reads each of its rows, for one step, and tells how many are to be placed.
///
/// # Errors
///
/// `Building` where one goes on. Else `NoMemory` where there is none for the build. Nothing changed then.
pub fn begin_build<const W: usize, M>(
    alloc: Global,
    place: &mut Place<W>,
    layout: Arc<Layout>,
    steps: &mut Steps<M>,
) -> Result<Told, Refused>
    requires few_words { W ≤ WORDS_MOST }
    requires laid { IsLaid (arc_value layout) }
    requires bits { (arc_value layout).bits ≡ place.old.shard.current.layout.bits }
    ensures begins { BeginsAs (arc_value layout) place.old place.new result }
    ensures bound { steps.new ≤ steps.old + length place.old.shard.current.rows }
{
    if place.build.is_some() {
        return Err(Refused::Building);
    }
    let Ok(build) = Build::start(alloc, place.shard.current(), layout, steps) else {
        return Err(Refused::NoMemory);
    };
    let left = build.left();
    place.build = Some(build);
    Ok(Told::Built { left })
}

/// Places the next rows of the build of a shard, so many or all that are left, for one step each, and tells how many are left.
///
/// # Errors
///
/// `NoBuild` where none goes on; then nothing changed.
pub fn place_rows<const W: usize, M>(
    place: &mut Place<W>,
    rows: u32,
    steps: &mut Steps<M>,
) -> Result<Told, Refused>
    ensures places { PlacesRowsAs rows place.old place.new result }
    ensures steps { steps.new ≡ steps.old
        + min rows (rows_of_build (option_map build_seen place.old.build)) }
{
    let Some(build) = &mut place.build else {
        return Err(Refused::NoBuild);
    };
    let _state = build.step(rows, steps);
    let left = build.left();
    Ok(Told::Built { left })
}
