//! Commits.

ghost use Rattle.std.specs.Prelude.{◌≡◌};
ghost use Rattle.hamming_model.specs.Recoded.{IsStoredOperation};
ghost use Rattle.entry_log.specs.Entries.{kept_operation, operation_of};
ghost use Rattle.world_model.specs.Events.{Commit};
ghost use Rattle.world_model.specs.WorldStep.{WorldStep};

use crate::world::World;
use entry_log::Op;
use world_model::{Refused, Told};

impl<const W: usize> World<W> {
    /// Decides on an operation of a session, and appends its entry where it is added or deleted.
    ///
    /// # Errors
    ///
    /// `NoMemory` where there is none for one entry more.
    pub fn commit(&mut self, who: u32, op: Op<W>) -> Result<Told, Refused>
        requires stored { IsStoredOperation W self.old.setting.bits (kept_operation op) }
        ensures setting { self.new.setting ≡ self.old.setting }
        ensures step { WorldStep self.old.setting self.old.state
            (Commit who (operation_of self.old.setting.bits op.entry)) result self.new.state }
    {
        let Ok(decided) = self.journal.commit(who, op) else {
            return Err(Refused::NoMemory);
        };
        Ok(Told::Decided(decided))
    }
}
