//! Cancellations of queries.

ghost use Rattle.std.specs.Prelude.{◌≡◌};
ghost use Rattle.world_model.specs.Events.{Cancel};
ghost use Rattle.world_model.specs.WorldStep.{WorldStep};

use crate::world::World;
use world_model::{Refused, Told};
use world_parts::cancel_query;

impl<const W: usize> World<W> {
    /// Cancels a query, and tells how many hits it gave. Its front is closed.
    ///
    /// # Errors
    ///
    /// `NoQuery` where it wasn't opened, else `Closed` where it was cancelled.
    pub fn cancel(&mut self, query: u32) -> Result<Told, Refused>
        ensures setting { self.new.setting ≡ self.old.setting }
        ensures step { WorldStep self.old.setting self.old.state
            (Cancel query) result self.new.state }
    {
        let number = query as usize;
        if number >= self.queries.len() {
            return Err(Refused::NoQuery);
        }
        let held = &self.queries[number];
        if held.cancelled {
            return Err(Refused::Closed);
        }
        let count = cancel_query(&mut self.journal, &mut self.queries[number]);
        Ok(Told::Cancelled { count })
    }
}
