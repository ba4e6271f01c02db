//! Pins of shards.

ghost use Rattle.std.specs.Prelude.{◌≡◌, ◌+◌, ◌≤◌};
ghost use Rattle.world_model.specs.Events.{Pin};
ghost use Rattle.world_model.specs.WorldStep.{WorldStep};
ghost use Rattle.gph_world.specs.Behind.{entries_behind};

use crate::world::World;
use read_meter::Steps;
use world_model::{Refused, Told};
use world_parts::{bring, pin_held, unpinned};

impl<const W: usize> World<W> {
    /// Brings a shard to the front of a query and pins the version there, and tells how many shards aren't pinned; one that is pinned
    /// stays as it is. With the last pin the front is closed, and a source begins on each shard.
    ///
    /// # Errors
    ///
    /// `NoShard`, `NoQuery` or `Closed`, the first that holds. Else `NoMemory` where there is none for the versions or the sources; the
    /// shard may have come to the front.
    pub fn pin<M>(&mut self, query: u32, shard: u32, upkeep: &mut Steps<M>) -> Result<Told, Refused>
        ensures setting { self.new.setting ≡ self.old.setting }
        ensures step { WorldStep self.old.setting self.old.state
            (Pin query shard) result self.new.state }
        ensures bound { upkeep.new ≤ upkeep.old + entries_behind self.old.state query shard }
    {
        let place = shard as usize;
        if place >= self.places.len() {
            return Err(Refused::NoShard);
        }
        let number = query as usize;
        if number >= self.queries.len() {
            return Err(Refused::NoQuery);
        }
        let held = &self.queries[number];
        if held.cancelled {
            return Err(Refused::Closed);
        }
        if held.pins[place].is_some() {
            let left = unpinned(&held.pins);
            return Ok(Told::Pinned { left });
        }
        let Some(front) = &held.front else {
            unreachable!()
        };
        let Ok(version) = bring(&mut self.places[place], front, upkeep) else {
            return Err(Refused::NoMemory);
        };
        let held = &mut self.queries[number];
        let Ok(left) = pin_held(
            self.alloc,
            &mut self.journal,
            held,
            place,
            version,
            self.room,
        ) else {
            return Err(Refused::NoMemory);
        };
        Ok(Told::Pinned { left })
    }
}
