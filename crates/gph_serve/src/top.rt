//! The top call: a session over a desk of its own, or the workload of a load.

ghost use Rattle.std.specs.Prelude.{◌≡◌, ℕ, ◌↔◌, ◌≤◌, map, string_bytes, Err, true};
ghost use Rattle.std.specs.Thread.{IsSync};
ghost use Rattle.hamming_model.specs.declared.limits.TheConstants.{WORDS_MOST};
ghost use Rattle.gph_codes.specs.Allowed.{IsAllowed};
ghost use Rattle.part_layout.specs.Ranges.{IsConfig};
ghost use Rattle.command_line.specs.CommandWords.{asked};
ghost use Rattle.command_line.specs.Commands.{IsCommand};
ghost use Rattle.session_model.specs.Run.{IsRunAlone};
ghost use Rattle.session_model.specs.Outside.{Untouched};
ghost use Rattle.session_model.specs.Outcomes.{IsDone, IsReadFault, IsWriteFault};
ghost use Rattle.session_model.specs.Outside.{call};
ghost use Rattle.session_model.specs.Outcomes.{IsInputLimit};
ghost use Rattle.gph_serve.specs.Loads.{ForLoad, LoadedAs};
ghost use Rattle.gph_serve.specs.TopCall.{ForRun, IsComplete, IsForLoad, IsUnread, ServedAs};
ghost use Rattle.gph_serve.specs.TopCall.{ServedBy};

use crate::load::load;
use crate::outcome::Outcome;
use command_line::{Command, read_words};
use gph_codes::for_width;
use gph_session::{Status, session};
use line_io::{Sink, Source};
use part_layout::Config;
use read_meter::{Meters, Steps};
use scatter_gather::Gate;
use session_desk::SoloDesk;
use std::alloc::Global;
use std::thread::Threads;

/// Serves one session over `source` and `sink`, as the words ask: `run`, and the options `--bits`, `--parts`, `--shards`, `--room`,
/// `--entries` and `--input`. Or, by `load` and `--number` and `--codes` in place of the last two, writes one line of what the queries
/// of a workload found and read, asked of a session in memory. Each of the ledgers counts the postings that the session's queries read on its shard, and `upkeep` the
/// entries that its shards follow. The sources of a query are polled in threads, each poll after a pass of the gate, where they
/// have much to read. It reads at most 4,096 bytes at a time, answers each whole line of a block before the next read, and offers
/// each reply in one piece: of these no clause speaks, and tests show them.
pub fn run<S: Source, K: Sink, R: Threads + Sync, G: Gate, L: Send, M>(
    rt: &R,
    alloc: Global,
    words: &[String],
    source: &mut S,
    sink: &mut K,
    gate: &G,
    upkeep: &mut Steps<M>,
    meters: &mut Meters<L>,
) -> Outcome
    requires sync { IsSync R.row }
    // Words that ask for nothing, and want of memory, are told before the first read.
    ensures usage { (word : ℕ) →
        (asked (map string_bytes words.now) ≡ Err word) ↔ (result ≡ Outcome.Usage word) }
    ensures unread { ¬ IsForLoad (asked (map string_bytes words.now)) → IsUnread result → Untouched
        (call S.left S.faults K.held K.faults source.old source.new sink.old sink.new
        meters.old meters.new upkeep.old upkeep.new) }
    // What a session has read, written and counted, by each other outcome, with its cause.
    ensures done { result ≡ Outcome.Done → ForRun (IsDone IsRunAlone)
        (asked (map string_bytes words.now)) (call S.left S.faults K.held K.faults source.old
        source.new sink.old sink.new meters.old meters.new upkeep.old upkeep.new) }
    ensures read_fault { result ≡ Outcome.ReadFault → ForRun (IsReadFault IsRunAlone)
        (asked (map string_bytes words.now)) (call S.left S.faults K.held K.faults source.old
        source.new sink.old sink.new meters.old meters.new upkeep.old upkeep.new) }
    ensures write_fault { result ≡ Outcome.WriteFault → ForRun (IsWriteFault IsRunAlone)
        (asked (map string_bytes words.now)) (call S.left S.faults K.held K.faults source.old
        source.new sink.old sink.new meters.old meters.new upkeep.old upkeep.new) }
    ensures input_limit { result ≡ Outcome.InputLimit → ForRun (IsInputLimit IsRunAlone)
        (asked (map string_bytes words.now)) (call S.left S.faults K.held K.faults source.old
        source.new sink.old sink.new meters.old meters.new upkeep.old upkeep.new) }
    // No input within the limit is turned away, unless a fault rose or memory lacked.
    ensures complete { IsComplete result (asked (map string_bytes words.now)) (call S.left S.faults
        K.held K.faults source.old source.new sink.old sink.new
        meters.old meters.new upkeep.old upkeep.new) }
    // A load reads nothing, and writes its line, or a part of it where a write fails, or nothing where memory lacked.
    ensures load { ForLoad (LoadedAs result) (asked (map string_bytes words.now))
        (call S.left S.faults K.held K.faults source.old source.new sink.old sink.new
        meters.old meters.new upkeep.old upkeep.new) }
{
    match read_words(words) {
        Ok(command) => serve_command(rt, alloc, command, source, sink, gate, upkeep, meters),
        Err(word) => Outcome::Usage { word },
    }
}

// Serves a session, or writes the line of a load.
fn serve_command<S: Source, K: Sink, R: Threads + Sync, G: Gate, L: Send, M>(
    rt: &R,
    alloc: Global,
    command: Command,
    source: &mut S,
    sink: &mut K,
    gate: &G,
    upkeep: &mut Steps<M>,
    meters: &mut Meters<L>,
) -> Outcome
    requires sync { IsSync R.row }
    requires command { IsCommand command }
    ensures { ServedBy result command (call S.left S.faults K.held K.faults
        source.old source.new sink.old sink.new meters.old meters.new upkeep.old upkeep.new) }
{
    match command {
        Command::Run { config } => {
            serve_any(rt, alloc, &config, source, sink, gate, upkeep, meters)
        }
        Command::Load {
            config,
            number,
            codes,
        } => load(
            rt, alloc, &config, number, codes, sink, gate, upkeep, meters,
        ),
    }
}

// Serves a session over codes of any allowed number of bits.
fn serve_any<S: Source, K: Sink, R: Threads + Sync, G: Gate, L: Send, M>(
    rt: &R,
    alloc: Global,
    config: &Config,
    source: &mut S,
    sink: &mut K,
    gate: &G,
    upkeep: &mut Steps<M>,
    meters: &mut Meters<L>,
) -> Outcome
    requires sync { IsSync R.row }
    requires config { IsConfig config.now }
    ensures { ServedAs result config.now (call S.left S.faults K.held K.faults
        source.old source.new sink.old sink.new meters.old meters.new upkeep.old upkeep.new) }
{
    for_width!(config.bits, serve_width<_, _, _, _, _, _>, rt, alloc, config, source, sink, gate, upkeep, meters)
}

// Serves a session over codes of W words, over a new desk.
fn serve_width<const W: usize, S: Source, K: Sink, R: Threads + Sync, G: Gate, L: Send, M>(
    rt: &R,
    alloc: Global,
    config: &Config,
    source: &mut S,
    sink: &mut K,
    gate: &G,
    upkeep: &mut Steps<M>,
    meters: &mut Meters<L>,
) -> Outcome
    requires sync { IsSync R.row }
    requires few_words { W ≤ WORDS_MOST }
    requires allowed { IsAllowed W config.now.bits }
    requires config { IsConfig config.now }
    ensures { ServedAs result config.now (call S.left S.faults K.held K.faults
        source.old source.new sink.old sink.new meters.old meters.new upkeep.old upkeep.new) }
{
    let Ok(mut desk) = SoloDesk::<W>::new(alloc, config) else {
        return Outcome::NoMemory;
    };
    let report = session(
        rt, alloc, config, &mut desk, source, sink, gate, upkeep, meters,
    );
    match report.status {
        Status::Done => Outcome::Done,
        Status::ReadFault => Outcome::ReadFault,
        Status::WriteFault => Outcome::WriteFault,
        Status::NoMemory => Outcome::NoMemory,
        Status::InputLimit => Outcome::InputLimit,
    }
}
