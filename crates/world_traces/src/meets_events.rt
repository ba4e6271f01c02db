ghost use Rattle.std.specs.Prelude.{◌≡◌, ◌≤◌};
ghost use Rattle.hamming_model.specs.declared.limits.TheConstants.{WORDS_MOST};
ghost use Rattle.trace_lines.specs.EventRequests.{IsFitEvent, event_of};
ghost use Rattle.world_model.specs.Events.{Setting};
ghost use Rattle.world_model.specs.WorldState.{WorldState};
ghost use Rattle.world_model.specs.WorldStep.{WorldStep};
ghost use Rattle.world_traces.specs.Meeting.{CountsBetween};

use read_meter::{Meters, Steps};
use trace_lines::EventRequest;
use world_model::{Refused, Told};

/// What meets events, each by a step of the definitions.
pub trait MeetsEvents<const W: usize> {
    /// What no event changes.
    ghost setting: { Self → Setting };

    /// The state that the events so far have left.
    ghost state: { Self → WorldState };

    /// Meets an event: what it is told, or why it is refused. The ledgers rise by what the queries read.
    fn meet<L, M>(
        &mut self,
        request: EventRequest<W>,
        upkeep: &mut Steps<M>,
        meters: &mut Meters<L>,
    ) -> Result<Told, Refused>
        requires few_words { W ≤ WORDS_MOST }
        requires fit { IsFitEvent W (setting self.old).bits request }
        ensures setting { setting self.new ≡ setting self.old }
        ensures step { WorldStep (setting self.old) (state self.old)
            (event_of (setting self.old).bits request.entry) result (state self.new) }
        ensures ledgers { CountsBetween (state self.old) (state self.new) meters.old meters.new };
}
