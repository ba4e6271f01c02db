//! The words of the command line, and what they ask of a session.

use crate::trial::{Ends, compare, compare_pieces};
use gph_serve::Outcome;

// An input that comes in one piece, and no fault.
const WHOLE: Ends = Ends {
    piece: 4096,
    read: 0,
    write: 0,
};

// Words, and how a call with them ends on the five bytes of the line `jump`.
static WORDS: [(&str, Outcome); 57] = [
    ("", Outcome::Usage { word: 1 }),
    ("jump", Outcome::Usage { word: 1 }),
    ("Run --bits 8", Outcome::Usage { word: 1 }),
    ("--bits 8 run", Outcome::Usage { word: 1 }),
    ("run", Outcome::Done),
    ("run run", Outcome::Usage { word: 2 }),
    ("run --", Outcome::Usage { word: 2 }),
    ("run --bit 8", Outcome::Usage { word: 2 }),
    ("run --number 1", Outcome::Usage { word: 2 }),
    ("run --bits", Outcome::Usage { word: 3 }),
    ("run --bits 8 8", Outcome::Usage { word: 4 }),
    ("run --bits 8 --bits 8", Outcome::Usage { word: 4 }),
    ("run --bits=8 --bits 8", Outcome::Usage { word: 3 }),
    ("run --bits --parts 3", Outcome::Usage { word: 3 }),
    ("run --bits=", Outcome::Usage { word: 2 }),
    ("run --bits=-8", Outcome::Usage { word: 2 }),
    ("run --bits 0", Outcome::Usage { word: 3 }),
    ("run --bits 8", Outcome::Done),
    ("run --bits 12", Outcome::Usage { word: 3 }),
    ("run --bits 256", Outcome::Done),
    ("run --bits=264", Outcome::Usage { word: 2 }),
    ("run --bits 520", Outcome::Usage { word: 3 }),
    ("run --bits 00000000000000000008", Outcome::Done),
    (
        "run --bits 000000000000000000008",
        Outcome::Usage { word: 3 },
    ),
    ("run --bits 8 --parts", Outcome::Usage { word: 5 }),
    ("run --parts 0", Outcome::Usage { word: 3 }),
    ("run --bits 8 --parts 1", Outcome::Done),
    ("run --parts=8 --bits=8", Outcome::Done),
    ("run --parts 9 --bits 8", Outcome::Usage { word: 3 }),
    ("run --bits 16 --parts 1", Outcome::Usage { word: 5 }),
    ("run --bits 256 --parts 22", Outcome::Done),
    ("run --bits 256 --parts 21", Outcome::Usage { word: 5 }),
    ("run --bits 256 --parts 64", Outcome::Done),
    ("run --parts=65 --bits 256", Outcome::Usage { word: 2 }),
    ("run --parts 9 --bits 8 --bits", Outcome::Usage { word: 6 }),
    (
        "run --parts 99999999999999999999 --bits 12",
        Outcome::Usage { word: 5 },
    ),
    ("run --parts x --bits 12", Outcome::Usage { word: 3 }),
    ("run --shards 0", Outcome::Usage { word: 3 }),
    ("run --shards 1", Outcome::Done),
    ("run --shards=16", Outcome::Done),
    ("run --shards=17", Outcome::Usage { word: 2 }),
    ("run --shards=2 --shards 2", Outcome::Usage { word: 3 }),
    (
        "run --shards 1 --parts 9 --bits 8",
        Outcome::Usage { word: 5 },
    ),
    ("run --room 0", Outcome::Usage { word: 3 }),
    ("run --room 1", Outcome::Done),
    ("run --room 256", Outcome::Done),
    ("run --room=257", Outcome::Usage { word: 2 }),
    ("run --room --entries 1", Outcome::Usage { word: 3 }),
    ("run --entries 0", Outcome::Usage { word: 3 }),
    ("run --entries=1", Outcome::Done),
    ("run --entries 1048576", Outcome::Done),
    ("run --entries 1048577", Outcome::Usage { word: 3 }),
    ("run --shards 4 --entries", Outcome::Usage { word: 5 }),
    ("run --input 0", Outcome::Usage { word: 3 }),
    ("run --input 1", Outcome::InputLimit),
    ("run --input 4294967296", Outcome::Done),
    ("run --input=4294967297", Outcome::Usage { word: 2 }),
];

#[test]
fn words_are_a_session_or_have_a_first_fault(rt: HostRuntime) {
    for &(words, outcome) in &WORDS {
        let output: &[u8] = match outcome {
            Outcome::Done => b"bad 3\n",
            _ => b"",
        };
        compare(
            &rt,
            rt.alloc(),
            words,
            words,
            b"jump\n",
            WHOLE,
            output,
            outcome,
        );
    }
}

// Words, and the text of the starting layout.
static LAYOUTS: [(&str, &[u8]); 5] = [
    ("run --bits 8", b"layout 0 0,1,2,3,4,5,6,7\n"),
    (
        "run --bits 24",
        b"layout 0 0,1,2,3,4,5,6,7/8,9,10,11,12,13,14,15/16,17,18,19,20,21,22,23\n",
    ),
    ("run --bits 8 --parts 8", b"layout 0 0/1/2/3/4/5/6/7\n"),
    ("run --parts=3 --bits=8", b"layout 0 0,1,2/3,4,5/6,7\n"),
    (
        "run --bits 16 --parts 2",
        b"layout 0 0,1,2,3,4,5,6,7/8,9,10,11,12,13,14,15\n",
    ),
];

#[test]
fn a_starting_layout_is_told_by_its_text(rt: HostRuntime) {
    for &(words, output) in &LAYOUTS {
        compare(
            &rt,
            rt.alloc(),
            words,
            words,
            b"layout 0\n",
            WHOLE,
            output,
            Outcome::Done,
        );
    }
}

// Words with a limit of the input, an input, the output and the end.
static LIMITS: [(&str, &[u8], &[u8], Outcome); 6] = [
    (
        "run --bits 8 --input 12",
        b"add 1 00\nget 1\n",
        b"added 1 at 1\n",
        Outcome::InputLimit,
    ),
    (
        "run --bits 8 --input 15",
        b"add 1 00\nget 1\n",
        b"added 1 at 1\ncode 1 00 at 1\n",
        Outcome::Done,
    ),
    (
        "run --bits 8 --input 9",
        b"add 1 00\n",
        b"added 1 at 1\n",
        Outcome::Done,
    ),
    (
        "run --bits 8 --input 13",
        b"add 1 00\nquit",
        b"added 1 at 1\n",
        Outcome::Done,
    ),
    (
        "run --bits 8 --input 13",
        b"add 1 00\nquit\n",
        b"added 1 at 1\n",
        Outcome::InputLimit,
    ),
    (
        "run --bits 8 --input 14",
        b"add 1 00\nquit\njump\n",
        b"added 1 at 1\n",
        Outcome::Done,
    ),
];

#[test]
fn an_input_ends_at_its_limit(rt: HostRuntime) {
    for &(words, input, output, outcome) in &LIMITS {
        compare_pieces(&rt, rt.alloc(), words, words, input, output, outcome);
    }
}
