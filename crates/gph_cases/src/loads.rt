//! The command `load`: its words, its line, and a write of it that fails.

use crate::trial::{Ends, compare};
use gph_serve::Outcome;

// Words, how a call with them ends, and what it writes. The numbers are those of a model in another language that looks at every row.
static LOADS: [(&str, Outcome, &str); 15] = [
    (
        "load --number 7 --codes 0",
        Outcome::Done,
        "load entries 0 queries 32 hits 0 bound 0 reads 0\n",
    ),
    (
        "load --number 7 --codes 1",
        Outcome::Done,
        "load entries 1 queries 32 hits 32 bound 32 reads 32\n",
    ),
    (
        "load --number 7 --codes 40",
        Outcome::Done,
        "load entries 40 queries 32 hits 374 bound 9164 reads 1147\n",
    ),
    (
        "load --bits=16 --shards 3 --codes 40 --number 9",
        Outcome::Done,
        "load entries 40 queries 32 hits 415 bound 2082 reads 721\n",
    ),
    (
        "load --codes=40 --bits 136 --shards 1 --number 18446744073709551615",
        Outcome::Done,
        "load entries 40 queries 32 hits 366 bound 21399 reads 1487\n",
    ),
    ("load", Outcome::Usage { word: 2 }, ""),
    ("load --number 7", Outcome::Usage { word: 4 }, ""),
    ("load --codes=1", Outcome::Usage { word: 3 }, ""),
    (
        "load --codes 1048577 --number 7",
        Outcome::Usage { word: 3 },
        "",
    ),
    (
        "load --number 18446744073709551616 --codes 1",
        Outcome::Usage { word: 3 },
        "",
    ),
    (
        "load --number 7 --codes 1 --entries 5",
        Outcome::Usage { word: 6 },
        "",
    ),
    (
        "load --input 5 --number 7 --codes 1",
        Outcome::Usage { word: 2 },
        "",
    ),
    (
        "load --parts 9 --bits 8 --number 7",
        Outcome::Usage { word: 3 },
        "",
    ),
    ("load --number --codes 1", Outcome::Usage { word: 3 }, ""),
    ("run --codes 1", Outcome::Usage { word: 2 }, ""),
];

#[test]
fn a_load_writes_its_line(rt: HostRuntime) {
    for &(words, outcome, output) in &LOADS {
        let ends = Ends {
            piece: 1,
            read: 1,
            write: 0,
        };
        compare(
            &rt,
            rt.alloc(),
            words,
            words,
            b"add 1 00\n",
            ends,
            output.as_bytes(),
            outcome,
        );
    }
}

#[test]
fn a_failed_write_leaves_no_line_of_a_load(rt: HostRuntime) {
    let ends = Ends {
        piece: 1,
        read: 1,
        write: 1,
    };
    let words = "load --number 7 --codes 1";
    compare(
        &rt,
        rt.alloc(),
        words,
        words,
        b"",
        ends,
        b"",
        Outcome::WriteFault,
    );
}
