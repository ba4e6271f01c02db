//! The command `load`: the queries of a workload, asked of a session over a desk of its own.

ghost use Rattle.std.specs.Prelude.{◌≤◌, IfSome};
ghost use Rattle.std.specs.Thread.{IsSync};
ghost use Rattle.hamming_model.specs.declared.limits.TheConstants.{WORDS_MOST};
ghost use Rattle.gph_codes.specs.Allowed.{IsAllowed};
ghost use Rattle.command_line.specs.Commands.{IsLoad};
ghost use Rattle.session_model.specs.Outside.{ends};
ghost use Rattle.session_model.specs.Ledger.{ledgers};
ghost use Rattle.gph_serve.specs.Loads.{IsSumOfLoad, LoadedAs};

use crate::outcome::Outcome;
use byte_lines::LineBuf;
use gph_codes::for_width;
use gph_session::{Status, session};
use line_io::{Failed, MemorySink, Sink, SteadySource};
use load_lines::lines_of_load;
use load_model::{no_line_of_a_load_quits, replies_to_a_load, sums_of_a_load};
use load_sums::Sums;
use open_queries::send;
use part_layout::Config;
use read_meter::{Meters, Steps};
use scatter_gather::Gate;
use session_desk::SoloDesk;
use session_model::BLOCK_MOST;
use std::alloc::Global;
use std::thread::Threads;

/// Asks a session over a new desk the queries of a workload of so many codes, drawn from a number, and writes one line of how many
/// hits it gave, of their bound and of the postings read. The lines of the workload and the replies to them stand in memory.
pub(crate) fn load<K: Sink, R: Threads + Sync, G: Gate, L: Send, M>(
    rt: &R,
    alloc: Global,
    config: &Config,
    number: u64,
    codes: u64,
    sink: &mut K,
    gate: &G,
    upkeep: &mut Steps<M>,
    meters: &mut Meters<L>,
) -> Outcome
    requires sync { IsSync R.row }
    requires load { IsLoad config.now number codes }
    ensures { LoadedAs result config.now number codes
        (ends (K.held sink.old) (K.faults sink.old)) (ends (K.held sink.new) (K.faults sink.new))
        (ledgers meters.old upkeep.old) (ledgers meters.new upkeep.new) }
{
    let Ok(mut line) = LineBuf::new(alloc) else {
        return Outcome::NoMemory;
    };
    let Some(sums) = sums_of_any(rt, alloc, config, number, codes, gate, upkeep, meters) else {
        return Outcome::NoMemory;
    };
    sums.write(codes, &mut line);
    match send(&line, sink) {
        Ok(()) => Outcome::Done,
        Err(Failed) => Outcome::WriteFault,
    }
}

// What the replies to a workload of codes of any allowed number of bits add up to, or None where memory lacked.
fn sums_of_any<R: Threads + Sync, G: Gate, L: Send, M>(
    rt: &R,
    alloc: Global,
    config: &Config,
    number: u64,
    codes: u64,
    gate: &G,
    upkeep: &mut Steps<M>,
    meters: &mut Meters<L>,
) -> Option<Sums>
    requires sync { IsSync R.row }
    requires load { IsLoad config.now number codes }
    ensures { IfSome result (IsSumOfLoad config.now number codes
        (ledgers meters.old upkeep.old) (ledgers meters.new upkeep.new)) }
{
    for_width!(config.bits, sums_of_load<_, _, _, _>, rt, alloc, config, number, codes, gate, upkeep, meters)
}

// What the replies of a session to the lines of a workload add up to, or None where memory lacked. The source doesn't fail, and the
// sink fails only where it finds no memory.
fn sums_of_load<const W: usize, R: Threads + Sync, G: Gate, L: Send, M>(
    rt: &R,
    alloc: Global,
    config: &Config,
    number: u64,
    codes: u64,
    gate: &G,
    upkeep: &mut Steps<M>,
    meters: &mut Meters<L>,
) -> Option<Sums>
    requires sync { IsSync R.row }
    requires few_words { W ≤ WORDS_MOST }
    requires allowed { IsAllowed W config.now.bits }
    requires load { IsLoad config.now number codes }
    ensures { IfSome result (IsSumOfLoad config.now number codes
        (ledgers meters.old upkeep.old) (ledgers meters.new upkeep.new)) }
{
    no_line_of_a_load_quits();
    replies_to_a_load();
    sums_of_a_load();
    let Ok(lines) = lines_of_load(alloc, config.bits, number, codes) else {
        return None;
    };
    let Ok(mut desk) = SoloDesk::<W>::new(alloc, config) else {
        return None;
    };
    let mut source = SteadySource::new(lines, BLOCK_MOST);
    let mut replies = MemorySink::new(alloc, Vec::new(alloc));
    let report = session(
        rt,
        alloc,
        config,
        &mut desk,
        &mut source,
        &mut replies,
        gate,
        upkeep,
        meters,
    );
    match report.status {
        Status::Done => Sums::of(replies.bytes()),
        _ => None,
    }
}
