//! A world that answers the lines of a trace.

ghost use Rattle.std.specs.Prelude.{◌≡◌, ◌≤◌, []};
ghost use Rattle.gph_codes.specs.Allowed.{IsAllowed};
ghost use Rattle.hamming_model.specs.declared.limits.TheConstants.{WORDS_MOST};
ghost use Rattle.part_layout.specs.Laid.{IsCodeSize};
ghost use Rattle.session_model.specs.Ledger.{Ledgers};
ghost use Rattle.world_model.specs.Events.{IsLayoutFor};
ghost use Rattle.world_traces.specs.Traced.{IsTraced, first_layout, first_world, setting_for};

use crate::answering::{answer_line, answer_long_line};
use crate::meets_events::MeetsEvents;
use byte_lines::LineBuf;
use line_answers::LineAnswers;
use part_layout::Config;
use read_meter::{Meters, Steps};
use std::alloc::Global;
use std::marker::Model;
use trace_lines::a_trace_goes_on;
use world_model::{each_event_keeps_the_rules, reads_are_bounded};

/// A world with what it was asked for.
#[derive(Drop)]
pub struct Tracing<const W: usize, C: MeetsEvents<W>> {
    alloc: Global,
    config: Config,
    world: C,
}

impl<const W: usize, C: MeetsEvents<W>> Model for Tracing<W, C> {
    ghost use Rattle.world_traces.specs.Kept.{KeepsTrace, TracedWorld, traced_world};

    ghost Value = { TracedWorld C };

    ghost view = { λ t. traced_world t.config t.world };

    ghost invariant = { λ t. KeepsTrace W t.config (C.setting t.world) };
}

impl<const W: usize, C: MeetsEvents<W>> Tracing<W, C> {
    /// The trace of a world to which nothing happened.
    pub fn new(alloc: Global, config: &Config, world: C) -> Tracing<W, C>
        requires few_words { W ≤ WORDS_MOST }
        requires allowed { IsAllowed W config.now.bits }
        requires size { IsCodeSize config.now.bits }
        requires layout { IsLayoutFor config.now.bits (first_layout config.now) }
        requires setting { C.setting world ≡ setting_for config.now }
        requires first { C.state world ≡ first_world config.now }
        ensures config { result.config ≡ config.now }
        ensures begun { (now : Ledgers) →
            IsTraced config.now (C.state result.world) now now [] [] }
    {
        a_trace_goes_on();
        each_event_keeps_the_rules();
        reads_are_bounded();
        Tracing {
            alloc,
            config: *config,
            world,
        }
    }
}

impl<const W: usize, C: MeetsEvents<W>> LineAnswers for Tracing<W, C> {
    ghost config = { λ t. t.config };

    ghost answered = { λ t. IsTraced t.config (C.state t.world) };

    fn answer<L, M>(
        &mut self,
        line: &[u8],
        out: &mut LineBuf,
        upkeep: &mut Steps<M>,
        meters: &mut Meters<L>,
    ) {
        answer_line::<W, _, _, _>(
            self.alloc,
            &self.config,
            &mut self.world,
            line,
            out,
            upkeep,
            meters,
        );
    }

    fn answer_long(&mut self, out: &mut LineBuf) {
        answer_long_line(out);
    }
}
