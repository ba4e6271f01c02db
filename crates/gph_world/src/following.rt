//! Builds that follow the history.

ghost use Rattle.std.specs.Prelude.{◌≡◌, ◌+◌, ◌≤◌};
ghost use Rattle.world_model.specs.Events.{Follow};
ghost use Rattle.world_model.specs.WorldStep.{WorldStep};
ghost use Rattle.gph_world.specs.Upkeep.{entries_unfollowed};

use crate::world::World;
use read_meter::Steps;
use world_model::{Refused, Told};
use world_parts::follow_history;

impl<const W: usize> World<W> {
    /// Brings the build of a shard to the end of the history, for one step an entry, and tells how many there are.
    ///
    /// # Errors
    ///
    /// `NoShard`, `NoBuild` or `Unready`, the first that holds. Else `NoMemory` where there is none for the version.
    pub fn follow<M>(&mut self, shard: u32, steps: &mut Steps<M>) -> Result<Told, Refused>
        ensures setting { self.new.setting ≡ self.old.setting }
        ensures step { WorldStep self.old.setting self.old.state
            (Follow shard) result self.new.state }
        ensures bound { steps.new ≤ steps.old + entries_unfollowed self.old.state shard }
    {
        let number = shard as usize;
        if number >= self.places.len() {
            return Err(Refused::NoShard);
        }
        follow_history(&mut self.journal, &mut self.places[number], steps)
    }
}
