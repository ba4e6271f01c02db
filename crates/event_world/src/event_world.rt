//! The world of a trace.

ghost use Rattle.std.specs.Prelude.{◌≡◌, ◌≤◌, IfOk};
ghost use Rattle.std.specs.Arc.{arc_value};
ghost use Rattle.gph_codes.specs.Allowed.{IsAllowed};
ghost use Rattle.hamming_model.specs.declared.limits.TheConstants.{WORDS_MOST};
ghost use Rattle.part_layout.specs.Ranges.{IsConfig};
ghost use Rattle.trace_lines.specs.EventRequests.{IsFitEvent, event_of};
ghost use Rattle.world_model.specs.Events.{IsLayoutFor};
ghost use Rattle.world_model.specs.WorldStep.{WorldStep};
ghost use Rattle.world_traces.specs.Meeting.{CountsBetween};
ghost use Rattle.world_traces.specs.Traced.{first_layout, first_world, setting_for};

use crate::program_event::program_event;
use gph_world::World;
use part_layout::{Config, Layout};
use read_meter::{Meters, NoMemory, Steps};
use std::alloc::Global;
use std::sync::Arc;
use trace_lines::EventRequest;
use world_model::{Refused, Told};
use world_traces::MeetsEvents;

/// A world that meets the events of lines.
#[derive(Drop)]
pub struct EventWorld<const W: usize> {
    pub world: World<W>,
}

impl<const W: usize> EventWorld<W> {
    /// A world to which nothing happened, for what was asked: every shard begins in the contiguous layout.
    ///
    /// # Errors
    ///
    /// `NoMemory` where there is none for the layout, the journal or the shards.
    pub fn new(alloc: Global, config: &Config) -> Result<EventWorld<W>, NoMemory>
        requires few_words { W ≤ WORDS_MOST }
        requires allowed { IsAllowed W config.now.bits }
        requires config { IsConfig config.now }
        ensures setting { IfOk result (λ met. met.world.setting ≡ setting_for config.now) }
        ensures state { IfOk result (λ met. met.world.state ≡ first_world config.now) }
        ensures layout { IfOk result (λ met.
            IsLayoutFor config.now.bits (first_layout config.now)) }
    {
        let layout = starting_layout(alloc, config)?;
        let world = World::new(
            alloc,
            config.bits,
            config.shards,
            layout,
            config.room as usize,
            config.entries,
        )?;
        Ok(EventWorld { world })
    }
}

// The layout in which every shard begins.
fn starting_layout(alloc: Global, config: &Config) -> Result<Arc<Layout>, NoMemory>
    requires config { IsConfig config.now }
    ensures layout { IfOk result (λ layout. arc_value layout ≡ first_layout config.now) }
    ensures laid { IfOk result (λ layout.
        IsLayoutFor config.now.bits (first_layout config.now)) }
{
    let Ok(layout) = Layout::contiguous(alloc, config.bits, config.parts) else {
        return Err(NoMemory);
    };
    // The layout's own call says that it is one.
    let _parts = layout.parts();
    let layout = Arc::new(alloc, layout)?;
    Ok(layout)
}

impl<const W: usize> MeetsEvents<W> for EventWorld<W> {
    ghost setting = { λ met. met.world.setting };

    ghost state = { λ met. met.world.state };

    fn meet<L, M>(
        &mut self,
        request: EventRequest<W>,
        upkeep: &mut Steps<M>,
        meters: &mut Meters<L>,
    ) -> Result<Told, Refused>
        requires few_words { W ≤ WORDS_MOST }
        requires fit { IsFitEvent W self.old.world.setting.bits request }
        ensures setting { self.new.world.setting ≡ self.old.world.setting }
        ensures step { WorldStep self.old.world.setting self.old.world.state
            (event_of self.old.world.setting.bits request.entry) result self.new.world.state }
        ensures ledgers { CountsBetween self.old.world.state self.new.world.state
            meters.old meters.new }
    {
        self.world.step(program_event(request), upkeep, meters)
    }
}
