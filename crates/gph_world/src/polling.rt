//! Polls of sources.

ghost use Rattle.std.specs.Prelude.{◌≡◌, ◌≤◌};
ghost use Rattle.world_model.specs.Events.{Poll};
ghost use Rattle.world_model.specs.WorldStep.{WorldStep};
ghost use Rattle.gph_world.specs.Rising.{RiseByReads};

use crate::world::World;
use read_meter::Meters;
use shard_version::versions_follow_the_history;
use world_model::{Refused, Told};
use world_parts::poll_held;

impl<const W: usize> World<W> {
    /// Polls the source of a query on a shard, where it may have the next hit, for at most so many units of work.
    ///
    /// # Errors
    ///
    /// `NoShard`, `NoQuery`, `Closed` or `NotPinned`, the first that holds.
    pub fn poll<L>(
        &mut self,
        query: u32,
        shard: u32,
        budget: u32,
        meters: &mut Meters<L>,
    ) -> Result<Told, Refused>
        requires budget { 1 ≤ budget }
        ensures setting { self.new.setting ≡ self.old.setting }
        ensures step { WorldStep self.old.setting self.old.state
            (Poll query shard budget) result self.new.state }
        ensures ledger { RiseByReads self.old.state self.new.state meters.old meters.new }
    {
        let place = shard as usize;
        if place >= self.places.len() {
            return Err(Refused::NoShard);
        }
        let number = query as usize;
        if number >= self.queries.len() {
            return Err(Refused::NoQuery);
        }
        let held = &self.queries[number];
        if held.cancelled {
            return Err(Refused::Closed);
        }
        let Some(_gather) = &held.gather else {
            return Err(Refused::NotPinned);
        };
        // The history is short, and has no more rows than entries: no answer is too long to be counted.
        versions_follow_the_history();
        let _entries = self.journal.length();
        let shards = self.places.len();
        Ok(poll_held(&mut self.queries[number], shards, place, budget, meters))
    }
}
