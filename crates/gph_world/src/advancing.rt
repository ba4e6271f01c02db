//! Shards that come to the front of a query.

ghost use Rattle.std.specs.Prelude.{◌≡◌, ◌+◌, ◌≤◌};
ghost use Rattle.world_model.specs.Events.{Advance};
ghost use Rattle.world_model.specs.WorldStep.{WorldStep};
ghost use Rattle.gph_world.specs.Behind.{entries_behind};

use crate::world::World;
use read_meter::Steps;
use world_model::{Refused, Told};
use world_parts::come;

impl<const W: usize> World<W> {
    /// Brings a shard to the front of a query, where it is behind, for one step an entry, and tells where it stands.
    ///
    /// # Errors
    ///
    /// `NoShard`, `NoQuery`, `Closed` or `Unfronted`, the first that holds. Else `NoMemory` where there is none for the versions.
    pub fn advance<M>(
        &mut self,
        query: u32,
        shard: u32,
        steps: &mut Steps<M>,
    ) -> Result<Told, Refused>
        ensures setting { self.new.setting ≡ self.old.setting }
        ensures step { WorldStep self.old.setting self.old.state
            (Advance query shard) result self.new.state }
        ensures bound { steps.new ≤ steps.old + entries_behind self.old.state query shard }
    {
        let place = shard as usize;
        if place >= self.places.len() {
            return Err(Refused::NoShard);
        }
        let number = query as usize;
        if number >= self.queries.len() {
            return Err(Refused::NoQuery);
        }
        let held = &self.queries[number];
        if held.cancelled {
            return Err(Refused::Closed);
        }
        let Some(front) = &held.front else {
            return Err(Refused::Unfronted);
        };
        let Ok(at) = come(&mut self.places[place], front, steps) else {
            return Err(Refused::NoMemory);
        };
        Ok(Told::Advanced { at })
    }
}
