//! The lines of a trace, answered by a world of its own.

ghost use Rattle.std.specs.Prelude.{◌≤◌};
ghost use Rattle.gph_codes.specs.Allowed.{IsAllowed};
ghost use Rattle.hamming_model.specs.declared.limits.TheConstants.{WORDS_MOST};
ghost use Rattle.part_layout.specs.Ranges.{IsConfig};
ghost use Rattle.session_model.specs.Outside.{call};
ghost use Rattle.event_world.specs.TraceEnds.{TracesAs};

use crate::event_world::EventWorld;
use byte_lines::{Cutter, LineBuf};
use gph_codes::for_width;
use line_answers::{Ending, answer_lines};
use line_io::{Sink, Source};
use part_layout::Config;
use read_meter::{Meters, NoMemory, Steps};
use session_model::BLOCK_MOST;
use std::alloc::Global;
use world_traces::Tracing;

/// Has a new world meet the events that the lines of `source` are, and writes what it answers, a line each, until the input ends or is
/// longer than was asked for. The ledgers of `meters` count the postings that queries read on their shards, and `upkeep` the entries
/// that shards and builds follow and the rows that builds read and place.
///
/// # Errors
///
/// `NoMemory` where there is none for the world or for a line; then nothing was read.
pub fn answer_trace<S: Source, K: Sink, L, M>(
    alloc: Global,
    config: &Config,
    source: &mut S,
    sink: &mut K,
    upkeep: &mut Steps<M>,
    meters: &mut Meters<L>,
) -> Result<Ending, NoMemory>
    requires config { IsConfig config.now }
    ensures { TracesAs result config.now (call S.left S.faults K.held K.faults
        source.old source.new sink.old sink.new meters.old meters.new upkeep.old upkeep.new) }
{
    for_width!(config.bits, answer_width<_, _, _, _>, alloc, config, source, sink, upkeep, meters)
}

// The same over codes of W words.
fn answer_width<const W: usize, S: Source, K: Sink, L, M>(
    alloc: Global,
    config: &Config,
    source: &mut S,
    sink: &mut K,
    upkeep: &mut Steps<M>,
    meters: &mut Meters<L>,
) -> Result<Ending, NoMemory>
    requires few_words { W ≤ WORDS_MOST }
    requires allowed { IsAllowed W config.now.bits }
    requires config { IsConfig config.now }
    ensures { TracesAs result config.now (call S.left S.faults K.held K.faults
        source.old source.new sink.old sink.new meters.old meters.new upkeep.old upkeep.new) }
{
    let mut cutter = Cutter::new(alloc)?;
    let mut out = LineBuf::new(alloc)?;
    let mut block = Vec::from_elem(alloc, 0u8, BLOCK_MOST)?;
    let world = EventWorld::<W>::new(alloc, config)?;
    let mut tracing = Tracing::new(alloc, config, world);
    let ending = answer_lines(
        config.input,
        &mut tracing,
        &mut cutter,
        &mut out,
        block.as_mut_slice(),
        source,
        sink,
        upkeep,
        meters,
    );
    Ok(ending)
}
