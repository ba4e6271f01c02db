//! How a trace ends.

use crate::trial::{Trial, compare};
use gph_serve::Outcome;
use std::test::Fail;

// A commit, an opening and a cancellation, of which the last has no LF.
const LINES: &str = "commit 1 add 1 00\nopen 1 range 8 00\ncancel 0";

// What shows, the further words, the bytes of a read, the read and the write that fail, or 0, what is written, and the outcome.
static ENDINGS: [(&str, &str, usize, u64, u64, &str, Outcome); 10] = [
    (
        "the input ends",
        "--shards 1",
        4096,
        0,
        0,
        "added 1 at 1\nquery 0 at 1\ncancelled 0 0\n",
        Outcome::Done,
    ),
    (
        "the input is as long as it may be",
        "--input=44",
        9,
        0,
        0,
        "added 1 at 1\nquery 0 at 1\ncancelled 0 0\n",
        Outcome::Done,
    ),
    (
        "the input is a byte longer than it may be",
        "--input 43",
        4096,
        0,
        0,
        "added 1 at 1\nquery 0 at 1\n",
        Outcome::InputLimit,
    ),
    (
        "the third read fails",
        "",
        18,
        3,
        0,
        "added 1 at 1\nquery 0 at 1\n",
        Outcome::ReadFault,
    ),
    (
        "the second write fails",
        "",
        4096,
        0,
        2,
        "added 1 at 1\n",
        Outcome::WriteFault,
    ),
    (
        "the answer to the last line fails",
        "",
        4096,
        0,
        3,
        "added 1 at 1\nquery 0 at 1\n",
        Outcome::WriteFault,
    ),
    (
        "a value is missing",
        "--room",
        4096,
        0,
        0,
        "",
        Outcome::Usage { word: 7 },
    ),
    (
        "an option is a load's",
        "--number 7",
        4096,
        0,
        0,
        "",
        Outcome::Usage { word: 6 },
    ),
    (
        "a value is out of its range",
        "--shards 17",
        4096,
        0,
        0,
        "",
        Outcome::Usage { word: 7 },
    ),
    (
        "an option is repeated",
        "--bits 8",
        4096,
        0,
        0,
        "",
        Outcome::Usage { word: 6 },
    ),
];

#[test]
fn a_trace_ends_as_its_input_and_its_ends_do(rt: HostRuntime) -> Result<(), Fail> {
    for &(about, options, piece, read, write, answers, outcome) in &ENDINGS {
        let trial = Trial {
            about,
            options,
            lines: LINES,
            piece,
            read,
            write,
        };
        compare(&rt, rt.alloc(), &trial, answers, outcome)?;
    }
    Ok(())
}
