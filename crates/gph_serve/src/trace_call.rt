//! The command `trace`: a list of events, each answered by a world of its own.

ghost use Rattle.std.specs.Prelude.{◌≡◌, ℕ, ◌↔◌, map, string_bytes, Err};
ghost use Rattle.command_line.specs.TraceWords.{trace_asked};
ghost use Rattle.session_model.specs.Outside.{Untouched, call};
ghost use Rattle.gph_serve.specs.TopCall.{IsUnread};
ghost use Rattle.gph_serve.specs.TraceCall.{ForTrace, IsCompleteTrace, trace_outcome};

use crate::outcome::Outcome;
use command_line::read_trace_words;
use event_world::answer_trace;
use line_answers::Ending;
use line_io::{Sink, Source};
use read_meter::{Meters, NoMemory, Steps};
use std::alloc::Global;

/// Has a world of its own meet the events that the lines of `source` are, one after the other, and writes what it answers, a line each.
/// The words are `trace` and the options of `run`. Each ledger of `meters` counts the postings that queries read on its shard, and
/// `upkeep` the entries that shards and builds follow and the rows that builds read and place. A trace ends with its input.
pub fn trace<S: Source, K: Sink, L, M>(
    alloc: Global,
    words: &[String],
    source: &mut S,
    sink: &mut K,
    upkeep: &mut Steps<M>,
    meters: &mut Meters<L>,
) -> Outcome
    // Words that ask for nothing, and want of memory, are told before the first read.
    ensures usage { (word : ℕ) →
        (trace_asked (map string_bytes words.now) ≡ Err word) ↔ (result ≡ Outcome.Usage word) }
    ensures unread { IsUnread result → Untouched
        (call S.left S.faults K.held K.faults source.old source.new sink.old sink.new
        meters.old meters.new upkeep.old upkeep.new) }
    // What was read, written and counted, by each other outcome, with its cause.
    ensures done { result ≡ Outcome.Done → ForTrace Ending.Done
        (trace_asked (map string_bytes words.now)) (call S.left S.faults K.held K.faults
        source.old source.new sink.old sink.new meters.old meters.new upkeep.old upkeep.new) }
    ensures read_fault { result ≡ Outcome.ReadFault → ForTrace Ending.ReadFault
        (trace_asked (map string_bytes words.now)) (call S.left S.faults K.held K.faults
        source.old source.new sink.old sink.new meters.old meters.new upkeep.old upkeep.new) }
    ensures write_fault { result ≡ Outcome.WriteFault → ForTrace Ending.WriteFault
        (trace_asked (map string_bytes words.now)) (call S.left S.faults K.held K.faults
        source.old source.new sink.old sink.new meters.old meters.new upkeep.old upkeep.new) }
    ensures input_limit { result ≡ Outcome.InputLimit → ForTrace Ending.InputLimit
        (trace_asked (map string_bytes words.now)) (call S.left S.faults K.held K.faults
        source.old source.new sink.old sink.new meters.old meters.new upkeep.old upkeep.new) }
    // No input within the limit is turned away, unless a fault rose or memory lacked.
    ensures complete { IsCompleteTrace result (trace_asked (map string_bytes words.now))
        (call S.left S.faults K.held K.faults source.old source.new sink.old sink.new
        meters.old meters.new upkeep.old upkeep.new) }
{
    match read_trace_words(words) {
        Ok(config) => outcome_of(answer_trace(alloc, &config, source, sink, upkeep, meters)),
        Err(word) => Outcome::Usage { word },
    }
}

// The outcome of a trace that ended so.
fn outcome_of(ending: Result<Ending, NoMemory>) -> Outcome
    ensures { result ≡ trace_outcome ending }
{
    match ending {
        Ok(Ending::Done) => Outcome::Done,
        Ok(Ending::ReadFault) => Outcome::ReadFault,
        Ok(Ending::WriteFault) => Outcome::WriteFault,
        Ok(Ending::InputLimit) => Outcome::InputLimit,
        Err(NoMemory) => Outcome::NoMemory,
    }
}
