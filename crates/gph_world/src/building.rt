//! Builds of shards in another layout.

ghost use Rattle.std.specs.Prelude.{◌≡◌, ◌+◌, ◌≤◌, min};
ghost use Rattle.std.specs.Arc.{arc_value};
ghost use Rattle.world_model.specs.Events.{BuildStart, BuildStep, IsLayoutFor};
ghost use Rattle.world_model.specs.WorldStep.{WorldStep};
ghost use Rattle.gph_world.specs.Upkeep.{rows_there, rows_unplaced};

use crate::world::World;
use part_layout::Layout;
use read_meter::Steps;
use std::sync::Arc;
use world_model::{Refused, Told};
use world_parts::{begin_build, place_rows};

impl<const W: usize> World<W> {
    /// Begins a build of a shard in another layout: reads each of its rows, for one step, and tells how many are to be placed.
    ///
    /// # Errors
    ///
    /// `NoShard` or `Building`, the first that holds. Else `NoMemory` where there is none for the build.
    pub fn build_start<M>(
        &mut self,
        shard: u32,
        layout: Arc<Layout>,
        steps: &mut Steps<M>,
    ) -> Result<Told, Refused>
        requires layout { IsLayoutFor self.old.setting.bits (arc_value layout) }
        ensures setting { self.new.setting ≡ self.old.setting }
        ensures step { WorldStep self.old.setting self.old.state
            (BuildStart shard (arc_value layout)) result self.new.state }
        ensures bound { steps.new ≤ steps.old + rows_there self.old.state shard }
    {
        let number = shard as usize;
        if number >= self.places.len() {
            return Err(Refused::NoShard);
        }
        begin_build(self.alloc, &mut self.places[number], layout, steps)
    }

    /// Places the next rows of a build, so many or all that are left, for one step each, and tells how many are left.
    ///
    /// # Errors
    ///
    /// `NoShard` or `NoBuild`, the first that holds.
    pub fn build_step<M>(
        &mut self,
        shard: u32,
        rows: u32,
        steps: &mut Steps<M>,
    ) -> Result<Told, Refused>
        ensures setting { self.new.setting ≡ self.old.setting }
        ensures step { WorldStep self.old.setting self.old.state
            (BuildStep shard rows) result self.new.state }
        ensures steps { steps.new ≡ steps.old + min rows (rows_unplaced self.old.state shard) }
    {
        let number = shard as usize;
        if number >= self.places.len() {
            return Err(Refused::NoShard);
        }
        place_rows(&mut self.places[number], rows, steps)
    }
}
