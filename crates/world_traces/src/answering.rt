//! One line, answered by a world.

ghost use Rattle.std.specs.Prelude.{◌≡◌, ℕ, ◌<◌, ◌≤◌, List, [], length};
ghost use Rattle.byte_lines.specs.declared.cutter.TheConstants.{LINE_MOST};
ghost use Rattle.gph_codes.specs.Allowed.{IsAllowed};
ghost use Rattle.hamming_model.specs.declared.limits.TheConstants.{WORDS_MOST};
ghost use Rattle.line_answers.specs.Answered.{AnswersNext};
ghost use Rattle.part_layout.specs.Laid.{IsCodeSize};
ghost use Rattle.part_layout.specs.declared.config.Config.{Config};
ghost use Rattle.session_model.specs.Ledger.{Ledgers, ledgers};
ghost use Rattle.world_model.specs.Events.{IsLayoutFor};
ghost use Rattle.world_model.specs.WorldState.{WorldState};
ghost use Rattle.world_traces.specs.Traced.{IsTraced, first_layout, setting_for};

use crate::meets_events::MeetsEvents;
use byte_lines::LineBuf;
use part_layout::Config;
use query_protocol::{LineFault, Reply};
use read_meter::{Meters, Steps};
use std::alloc::Global;
use trace_lines::{
    a_trace_goes_on, line_too_long, read_event_line, what_is_read_is_formed, write_answer,
};
use world_model::{each_event_keeps_the_rules, reads_are_bounded};

// Answers a line: its event is met by the world, or its fault is told.
pub(crate) fn answer_line<const W: usize, C: MeetsEvents<W>, L, M>(
    alloc: Global,
    config: &Config,
    world: &mut C,
    line: &[u8],
    out: &mut LineBuf,
    upkeep: &mut Steps<M>,
    meters: &mut Meters<L>,
)
    requires few_words { W ≤ WORDS_MOST }
    requires allowed { IsAllowed W config.now.bits }
    requires size { IsCodeSize config.now.bits }
    requires first { IsLayoutFor config.now.bits (first_layout config.now) }
    requires setting { C.setting world.old ≡ setting_for config.now }
    requires short { length line.now ≤ LINE_MOST }
    requires empty { out.old ≡ [] }
    ensures setting { C.setting world.new ≡ setting_for config.now }
    ensures answers { AnswersNext (IsTraced config.now (C.state world.old))
        (IsTraced config.now (C.state world.new)) (ledgers meters.old upkeep.old)
        (ledgers meters.new upkeep.new) line.now out.new }
{
    a_trace_goes_on();
    what_is_read_is_formed();
    each_event_keeps_the_rules();
    reads_are_bounded();
    match read_event_line::<W>(alloc, config.bits, line) {
        Ok(None) => {}
        Ok(Some(request)) => {
            let subject = request.subject();
            let answer = world.meet(request, upkeep, meters);
            write_answer(subject, &answer, out);
        }
        Err(LineFault::Bad(fault)) => Reply::Bad(fault).write(out),
        Err(LineFault::NoMemory) => Reply::NoMemory.write(out),
    }
}

// Answers a line that is too long.
pub(crate) fn answer_long_line(out: &mut LineBuf)
    requires empty { out.old ≡ [] }
    ensures { (config : Config) (state : WorldState) (line : List ℕ) (now : Ledgers) →
        LINE_MOST < length line → AnswersNext (IsTraced config state) (IsTraced config state)
        now now line out.new }
{
    a_trace_goes_on();
    Reply::Bad(line_too_long()).write(out);
}
