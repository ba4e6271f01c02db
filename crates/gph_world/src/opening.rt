//! Openings of queries.

ghost use Rattle.std.specs.Prelude.{◌≡◌};
ghost use Rattle.world_model.specs.Events.{IsQuestion, Open};
ghost use Rattle.world_model.specs.WorldStep.{WorldStep};
ghost use Rattle.world_parts.specs.Asks.{IsStoredAsk, ask_seen};

use crate::world::World;
use world_model::{Refused, Told};
use world_parts::{Ask, new_held, no_pins};

/// The most queries of a world.
pub const OPENED_MOST: usize = 65536;

impl<const W: usize> World<W> {
    /// Opens a query of a session at the end of the history, with a front there.
    ///
    /// # Errors
    ///
    /// `Many` exactly where 65,536 queries were opened. Else `NoMemory` where there is none for the query or its front.
    pub fn open(&mut self, who: u32, ask: Ask<W>) -> Result<Told, Refused>
        requires question { IsQuestion self.old.setting.bits (ask_seen self.old.setting.bits ask) }
        requires stored { IsStoredAsk self.old.setting.bits ask }
        ensures setting { self.new.setting ≡ self.old.setting }
        ensures step { WorldStep self.old.setting self.old.state
            (Open who (ask_seen self.old.setting.bits ask.entry)) result self.new.state }
    {
        let number = self.queries.len();
        if number >= OPENED_MOST {
            return Err(Refused::Many);
        }
        let Ok(()) = self.queries.reserve(1) else {
            return Err(Refused::NoMemory);
        };
        let Ok(pins) = no_pins(self.alloc, self.places.len()) else {
            return Err(Refused::NoMemory);
        };
        let Ok(front) = self.journal.open_front(who) else {
            return Err(Refused::NoMemory);
        };
        let position = front.position();
        let held = new_held(ask, front, pins);
        let Ok(()) = self.queries.push(held) else {
            unreachable!()
        };
        Ok(Told::Opened {
            query: number as u32,
            position,
        })
    }
}
