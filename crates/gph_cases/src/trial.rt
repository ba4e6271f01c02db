//! One call of `run` over memory.

ghost use Rattle.std.specs.Thread.{IsSync};

use gph_serve::{Outcome, run};
use line_io::{MemorySink, MemorySource, Sink, Source};
use read_meter::{Meters, NoMemory, Steps, upkeep};
use scatter_gather::NoGate;
use std::alloc::Global;
use std::env::Env;
use std::process::Abort;
use std::thread::Threads;

// The ledger on which a session's postings are counted.
#[derive(Drop)]
struct Postings;

// The ledger on which a session's upkeep is counted.
#[derive(Drop)]
struct Upkeep;

/// How the ends of a session behave: the bytes of a read, and the read and the write that fail, counted from 1, or 0.
#[derive(Clone, Copy)]
pub(crate) struct Ends {
    pub(crate) piece: usize,
    pub(crate) read: u64,
    pub(crate) write: u64,
}

/// Runs the words over ends, with no gate and on ledgers of its own.
pub(crate) fn run_over<S: Source, K: Sink, R: Abort + Env + Threads + Sync>(
    rt: &R,
    alloc: Global,
    words: &[String],
    source: &mut S,
    sink: &mut K,
) -> Outcome
    requires sync { IsSync R.row }
{
    let mut meters: Meters<Postings> = Meters::new(rt, alloc).expect(rt, "memory for ledgers");
    let mut kept: Steps<Upkeep> = upkeep(rt);
    run(
        rt,
        alloc,
        words,
        source,
        sink,
        &NoGate,
        &mut kept,
        &mut meters,
    )
}

/// Runs the words, parted by spaces, over an input, and compares how the call ends and what it wrote with what has to come.
pub(crate) fn compare<R: Abort + Env + Threads + Sync>(
    rt: &R,
    alloc: Global,
    about: &str,
    words: &str,
    input: &[u8],
    ends: Ends,
    output: &[u8],
    outcome: Outcome,
)
    requires sync { IsSync R.row }
{
    let Ends { piece, read, write } = ends;
    assert!(rt; piece >= 1);
    let words = list_of(alloc, words).expect(rt, "memory for words");
    let bytes = input.to_vec(alloc).expect(rt, "memory for an input");
    let reads = [read].to_vec(alloc).expect(rt, "memory for a read");
    let writes = [write].to_vec(alloc).expect(rt, "memory for a write");
    let mut source = MemorySource::new(bytes, piece, reads);
    let mut sink = MemorySink::new(alloc, writes);
    let ended = run_over(rt, alloc, words.as_slice(), &mut source, &mut sink);
    let is_so = ended == outcome && sink.bytes() == output;
    assert!(rt; is_so, "{about}, by {piece}, faults {read} and {write}");
}

/// Compares a call without faults, with its input in pieces of 4,096, of 7 and of 1 bytes.
pub(crate) fn compare_pieces<R: Abort + Env + Threads + Sync>(
    rt: &R,
    alloc: Global,
    about: &str,
    words: &str,
    input: &[u8],
    output: &[u8],
    outcome: Outcome,
)
    requires sync { IsSync R.row }
{
    for piece in [4096, 7, 1] {
        let ends = Ends {
            piece,
            read: 0,
            write: 0,
        };
        compare(rt, alloc, about, words, input, ends, output, outcome);
    }
}

/// What a session is about, its words, its input and its output.
pub(crate) type Row = (&'static str, &'static str, &'static [u8], &'static [u8]);

/// Compares each session of a table.
pub(crate) fn compare_all<R: Abort + Env + Threads + Sync>(rt: &R, alloc: Global, table: &[Row])
    requires sync { IsSync R.row }
{
    for row in table {
        compare_pieces(rt, alloc, row.0, row.1, row.2, row.3, Outcome::Done);
    }
}

/// The words of a text.
pub(crate) fn list_of(alloc: Global, text: &str) -> Result<Vec<String>, NoMemory> {
    let mut words = Vec::new(alloc);
    for word in text.split_whitespace() {
        words.push(String::from_str(alloc, word)?)?;
    }
    Ok(words)
}
