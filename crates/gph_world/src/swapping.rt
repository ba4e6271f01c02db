//! Shards that get the layout of their builds.

ghost use Rattle.std.specs.Prelude.{◌≡◌};
ghost use Rattle.world_model.specs.Events.{Swap};
ghost use Rattle.world_model.specs.WorldStep.{WorldStep};

use crate::world::World;
use world_model::{Refused, Told};
use world_parts::swap_in;

impl<const W: usize> World<W> {
    /// Gives a shard the layout of its build, where both stand at one position, and tells which. The build is gone then.
    ///
    /// # Errors
    ///
    /// `NoShard`, `NoBuild`, `Unready` or `Moved`, the first that holds. Else `NoMemory` where there is none for the version.
    pub fn swap(&mut self, shard: u32) -> Result<Told, Refused>
        ensures setting { self.new.setting ≡ self.old.setting }
        ensures step { WorldStep self.old.setting self.old.state
            (Swap shard) result self.new.state }
    {
        let number = shard as usize;
        if number >= self.places.len() {
            return Err(Refused::NoShard);
        }
        swap_in(&mut self.places[number])
    }
}
