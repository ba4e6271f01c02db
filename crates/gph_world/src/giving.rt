//! Hits that are given.

ghost use Rattle.std.specs.Prelude.{◌≡◌};
ghost use Rattle.world_model.specs.Events.{Give};
ghost use Rattle.world_model.specs.WorldStep.{WorldStep};

use crate::world::World;
use shard_version::versions_follow_the_history;
use world_model::{Refused, Told};
use world_parts::give_held;

impl<const W: usize> World<W> {
    /// Gives the next hit of a query where it waits and no other source may have one before it. Else it tells that all were given, and
    /// how many, or that a source has to be polled first.
    ///
    /// # Errors
    ///
    /// `NoQuery`, `Closed` or `NotPinned`, the first that holds.
    pub fn give(&mut self, query: u32) -> Result<Told, Refused>
        ensures setting { self.new.setting ≡ self.old.setting }
        ensures step { WorldStep self.old.setting self.old.state
            (Give query) result self.new.state }
    {
        let number = query as usize;
        if number >= self.queries.len() {
            return Err(Refused::NoQuery);
        }
        let held = &self.queries[number];
        if held.cancelled {
            return Err(Refused::Closed);
        }
        let Some(_gather) = &held.gather else {
            return Err(Refused::NotPinned);
        };
        // The history is short, and has no more rows than entries: no answer is too long to be counted.
        versions_follow_the_history();
        let _entries = self.journal.length();
        let shards = self.places.len();
        Ok(give_held(&mut self.queries[number], shards))
    }
}
