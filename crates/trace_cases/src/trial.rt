//! One call of `trace` over memory.

use gph_serve::{Outcome, trace};
use line_io::{MemorySink, MemorySource};
use read_meter::{Meters, Steps, upkeep};
use std::alloc::Global;
use std::env::Env;
use std::process::Abort;
use std::test::Fail;

#[derive(Drop)]
struct Postings;

#[derive(Drop)]
struct Upkeep;

/// A call: what it shows, the words beside `trace --bits 8 --parts 2`, its lines, how many bytes a read gives, and the read and the write
/// that fail, counted from 1, or 0.
#[derive(Clone, Copy)]
pub(crate) struct Trial<'a> {
    pub(crate) about: &'a str,
    pub(crate) options: &'a str,
    pub(crate) lines: &'a str,
    pub(crate) piece: usize,
    pub(crate) read: u64,
    pub(crate) write: u64,
}

/// Makes a call, and compares how it ends and what it wrote with what has to come.
pub(crate) fn compare<R: Abort + Env>(
    rt: &R,
    alloc: Global,
    trial: &Trial,
    answers: &str,
    outcome: Outcome,
) -> Result<(), Fail> {
    let (piece, read, write) = (trial.piece, trial.read, trial.write);
    assert!(rt; piece >= 1);
    let words = words_of(alloc, trial.options)?;
    let lines = trial.lines.as_bytes().to_vec(alloc)?;
    let mut source = MemorySource::new(lines, piece, [read].to_vec(alloc)?);
    let mut sink = MemorySink::new(alloc, [write].to_vec(alloc)?);
    let mut meters: Meters<Postings> = Meters::new(rt, alloc)?;
    let mut steps: Steps<Upkeep> = upkeep(rt);
    let ended = trace(
        alloc,
        words.as_slice(),
        &mut source,
        &mut sink,
        &mut steps,
        &mut meters,
    );
    let about = trial.about;
    assert_eq!(rt; ended, outcome, "{about} by {piece}, {read} and {write}");
    assert_eq!(rt;
        sink.bytes(),
        answers.as_bytes(),
        "{about} by {piece}, {read} and {write}"
    );
    Ok(())
}

/// Compares what is written for each of some scripts without faults, in pieces of 4,096 and of 7 bytes: what it shows, its options, its lines,
/// and the answers.
pub(crate) fn compare_all<R: Abort + Env>(
    rt: &R,
    alloc: Global,
    scripts: &[(&str, &str, &str, &str)],
) -> Result<(), Fail> {
    for &(about, options, lines, answers) in scripts {
        for piece in [4096, 7] {
            let trial = Trial {
                about,
                options,
                lines,
                piece,
                read: 0,
                write: 0,
            };
            compare(rt, alloc, &trial, answers, Outcome::Done)?;
        }
    }
    Ok(())
}

// The words of a trace with these options.
fn words_of(alloc: Global, options: &str) -> Result<Vec<String>, Fail> {
    let mut words = Vec::new(alloc);
    for word in ["trace", "--bits", "8", "--parts", "2"] {
        words.push(String::from_str(alloc, word)?)?;
    }
    for word in options.split_whitespace() {
        words.push(String::from_str(alloc, word)?)?;
    }
    Ok(words)
}
