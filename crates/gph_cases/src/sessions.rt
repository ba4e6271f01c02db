//! Sessions from their bytes to their replies.

use crate::trial::{Row, compare_all, compare_pieces};
use gph_serve::Outcome;
use std::test::Fail;

// Rows 1 to 4 of most are at 0, 4, 8 and 1 bits from 00.
static SESSIONS: [Row; 48] = [
    ("an empty input gives nothing", "run --bits 8", b"", b""),
    (
        "a taken key",
        "run --bits 8",
        b"add 1 00\nadd 1 ff\n",
        b"added 1 at 1\ntaken 1 at 1\n",
    ),
    (
        "two hits in order of distance",
        "run --bits 8",
        b"add 1 00\nadd 2 0f\nadd 3 ff\nadd 4 01\nrange a 1 00\nnext a 10\n",
        b"added 1 at 1\nadded 2 at 2\nadded 3 at 3\nadded 4 at 4\nopen a at 4\nhit a 0 1\n\
          hit a 1 4\ndone a 2\n",
    ),
    (
        "a tie goes by key",
        "run --bits 8",
        b"add 9 01\nadd 3 80\nadd 5 00\nrange t 1 00\nnext t 9\n",
        b"added 9 at 1\nadded 3 at 2\nadded 5 at 3\nopen t at 3\nhit t 0 5\nhit t 1 3\nhit t 1 9\n\
          done t 3\n",
    ),
    (
        "a radius of none",
        "run --bits 8",
        b"add 1 00\nadd 2 0f\nadd 3 ff\nadd 4 01\nrange a 0 00\nnext a 5\n",
        b"added 1 at 1\nadded 2 at 2\nadded 3 at 3\nadded 4 at 4\nopen a at 4\nhit a 0 1\ndone a 1\n",
    ),
    (
        "a radius of all bits",
        "run --bits 8",
        b"add 1 00\nadd 2 0f\nadd 3 ff\nadd 4 01\nrange a 8 00\nnext a 9\n",
        b"added 1 at 1\nadded 2 at 2\nadded 3 at 3\nadded 4 at 4\nopen a at 4\nhit a 0 1\n\
          hit a 1 4\nhit a 4 2\nhit a 8 3\ndone a 4\n",
    ),
    (
        "a query on no rows",
        "run --bits 8",
        b"range a 8 00\nnext a 1\n",
        b"open a at 0\ndone a 0\n",
    ),
    (
        "an answer in two goes gives no hit twice",
        "run --bits 8",
        b"add 1 00\nadd 2 0f\nadd 3 ff\nadd 4 01\nrange a 1 00\nnext a 1\nnext a 1\nnext a 1\n",
        b"added 1 at 1\nadded 2 at 2\nadded 3 at 3\nadded 4 at 4\nopen a at 4\nhit a 0 1\nmore a\n\
          hit a 1 4\ndone a 2\ndone a 2\n",
    ),
    (
        "a go that ends with the last hit is done",
        "run --bits 8",
        b"add 1 00\nadd 2 0f\nadd 3 ff\nadd 4 01\nrange a 8 00\nnext a 3\nnext a 1\n",
        b"added 1 at 1\nadded 2 at 2\nadded 3 at 3\nadded 4 at 4\nopen a at 4\nhit a 0 1\n\
          hit a 1 4\nhit a 4 2\nmore a\nhit a 8 3\ndone a 4\n",
    ),
    (
        "two queries by turns",
        "run --bits 8",
        b"add 1 00\nadd 2 0f\nadd 3 ff\nadd 4 01\nrange a 1 00\nrange b 0 ff\nnext a 1\nnext b 1\n\
          next a 1\n",
        b"added 1 at 1\nadded 2 at 2\nadded 3 at 3\nadded 4 at 4\nopen a at 4\nopen b at 4\n\
          hit a 0 1\nmore a\nhit b 0 3\ndone b 1\nhit a 1 4\ndone a 2\n",
    ),
    (
        "a seventeenth query, and a tag in use before it",
        "run --bits 8",
        b"range q1 0 00\nrange q1 0 00\nrange q2 0 00\nrange q3 0 00\nrange q4 0 00\nrange q5 0 00\n\
          range q6 0 00\nrange q7 0 00\nrange q8 0 00\nrange q9 0 00\nrange q10 0 00\n\
          range q11 0 00\nrange q12 0 00\nrange q13 0 00\nrange q14 0 00\nrange q15 0 00\n\
          range q16 0 00\nrange q17 0 00\nrange q2 0 00\nnext q16 1\nnext q17 1\n",
        b"open q1 at 0\nbad 7\nopen q2 at 0\nopen q3 at 0\nopen q4 at 0\nopen q5 at 0\n\
          open q6 at 0\nopen q7 at 0\nopen q8 at 0\nopen q9 at 0\nopen q10 at 0\nopen q11 at 0\n\
          open q12 at 0\nopen q13 at 0\nopen q14 at 0\nopen q15 at 0\nopen q16 at 0\nbad 9\nbad 7\n\
          done q16 0\nbad 8\n",
    ),
    (
        "an unknown tag",
        "run --bits 8",
        b"next b 1\nrange b 1 00\nnext b 1\nnext B 1\n",
        b"bad 8\nopen b at 0\ndone b 0\nbad 8\n",
    ),
    (
        "a range stands on the rows of its opening",
        "run --bits 8",
        b"add 1 00\nadd 2 0f\nadd 3 ff\nadd 4 01\nrange a 1 00\nadd 5 00\nnext a 9\nrange b 1 00\n\
          next b 9\n",
        b"added 1 at 1\nadded 2 at 2\nadded 3 at 3\nadded 4 at 4\nopen a at 4\nadded 5 at 5\n\
          hit a 0 1\nhit a 1 4\ndone a 2\nopen b at 5\nhit b 0 1\nhit b 0 5\nhit b 1 4\ndone b 3\n",
    ),
    (
        "what stands behind quit is not read as lines",
        "run --bits 8",
        b"add 1 00\nquit\nadd 2 00\njump\n",
        b"added 1 at 1\n",
    ),
    (
        "quit as a last line without an end",
        "run --bits 8",
        b"add 1 00\nquit",
        b"added 1 at 1\n",
    ),
    (
        "a last line without an end",
        "run --bits 8",
        b"add 1 00\nadd 2 00",
        b"added 1 at 1\nadded 2 at 2\n",
    ),
    (
        "a CR before the end of a line",
        "run --bits 8",
        b"add 1 00\r\n\r\nadd 2 00\r\n",
        b"added 1 at 1\nadded 2 at 2\n",
    ),
    (
        "a CR that ends no line",
        "run --bits 8",
        b"add 1 00\r\r\nadd \r2 00\nadd 3 00\r",
        b"bad 2\nbad 2\nbad 2\n",
    ),
    (
        "spaces and lines without a word",
        "run --bits 8",
        b"  add   1 00  \n\n   \nnext  a 1\n",
        b"added 1 at 1\nbad 8\n",
    ),
    (
        "a byte that is not printable",
        "run --bits 8",
        b"add\t1 00\njump\x7f\n\x1f\n\xc3\xa9\n~\n",
        b"bad 2\nbad 2\nbad 2\nbad 2\nbad 3\n",
    ),
    (
        "no request word",
        "run --bits 8",
        b"jump\njump 1 00\nAdd 1 00\nadd1 00\nADD 1 00\n",
        b"bad 3\nbad 3\nbad 3\nbad 3\nbad 3\n",
    ),
    (
        "another number of words",
        "run --bits 8",
        b"add\nadd 1\nadd x\nadd 1 00 00\nrange a 1\nrange a 1 00 00\nnext a\nnext a 1 1\nquit now\n",
        b"bad 4\nbad 4\nbad 4\nbad 4\nbad 4\nbad 4\nbad 4\nbad 4\nbad 4\n",
    ),
    (
        "a key that is none",
        "run --bits 8",
        b"add x 00\nadd -1 00\nadd 0x1 00\nadd x 0g\nadd 18446744073709551616 00\n\
          add 000000000000000000001 00\n",
        b"bad 5 2\nbad 5 2\nbad 5 2\nbad 5 2\nbad 5 2\nbad 5 2\n",
    ),
    (
        "the greatest key, and one with zeros before it",
        "run --bits 8",
        b"add 18446744073709551615 00\nadd 00000000000000000001 00\nadd 1 00\n",
        b"added 18446744073709551615 at 1\nadded 1 at 2\ntaken 1 at 2\n",
    ),
    (
        "a code that is none",
        "run --bits 8",
        b"add 1 0\nadd 1 000\nadd 1 0g\nrange a 1 000\nrange a 1 0g\n",
        b"bad 5 3\nbad 5 3\nbad 5 3\nbad 5 4\nbad 5 4\n",
    ),
    (
        "a tag that is none",
        "run --bits 8",
        b"range a-b 9 0g\nrange abcdefghijklmnopq 1 00\nnext a-b 1\nnext abcdefghijklmnopq 0\n",
        b"bad 5 2\nbad 5 2\nbad 5 2\nbad 5 2\n",
    ),
    (
        "the longest tag, and a tag of digits",
        "run --bits 8",
        b"range abcdefghijklmnop 1 00\nnext abcdefghijklmnop 1\nrange 0 1 00\nnext 0 1\n",
        b"open abcdefghijklmnop at 0\ndone abcdefghijklmnop 0\nopen 0 at 0\ndone 0 0\n",
    ),
    (
        "a radius that is none",
        "run --bits 8",
        b"range a 9 00\nrange a 0001 00\nrange a x 0g\nrange a 008 00\n",
        b"bad 5 3\nbad 5 3\nbad 5 3\nopen a at 0\n",
    ),
    (
        "a count that is none",
        "run --bits 8",
        b"next a 0\nnext a 65537\nnext a 000001\nnext a x\nnext a 65536\nnext a 00001\n",
        b"bad 5 3\nbad 5 3\nbad 5 3\nbad 5 3\nbad 8\nbad 8\n",
    ),
    (
        "a tag stays in use after its answer",
        "run --bits 8",
        b"range a 1 00\nnext a 1\nrange a 1 00\nnext a 1\n",
        b"open a at 0\ndone a 0\nbad 7\ndone a 0\n",
    ),
    (
        "a fault of form comes before a tag in use",
        "run --bits 8",
        b"range a 1 00\nrange a 9 00\nrange a 1 00\n",
        b"open a at 0\nbad 5 3\nbad 7\n",
    ),
    (
        "codes of 64 bits in either case, which words without an option ask for",
        "run",
        b"add 101 ffd8c0a0804020ff\nadd 102 FFD8C0A0804021FF\nadd 103 00273f5f7fbfdf00\n\
          range p 6 ffd8c0a0804020ff\nnext p 100\nrange n 64 FFD8C0a0804020ff\nnext n 100\n\
          add 104 ffd8c0a0804020f\n",
        b"added 101 at 1\nadded 102 at 2\nadded 103 at 3\nopen p at 3\nhit p 0 101\nhit p 1 102\n\
          done p 2\nopen n at 3\nhit n 0 101\nhit n 1 102\nhit n 64 103\ndone n 3\nbad 5 3\n",
    ),
    (
        "codes of 72 bits",
        "run --bits 72",
        b"add 1 000000000000000000\nadd 2 000000000000000001\nadd 3 ffffffffffffffffff\nadd 4 00000000000000000\n\
          range a 72 000000000000000000\nnext a 9\nrange b 73 000000000000000000\n",
        b"added 1 at 1\nadded 2 at 2\nadded 3 at 3\nbad 5 3\nopen a at 3\nhit a 0 1\nhit a 1 2\n\
          hit a 72 3\ndone a 3\nbad 5 3\n",
    ),
    (
        "codes of 128 bits",
        "run --bits=128",
        b"add 1 00000000000000000000000000000000\nadd 2 80000000000000000000000000000001\n\
          add 3 ffffffffffffffffffffffffffffffff\nrange a 127 00000000000000000000000000000000\n\
          next a 9\nrange b 128 FFFFFFFFFFFFFFFFFFFFFFFFFFFFFFFF\nnext b 9\n",
        b"added 1 at 1\nadded 2 at 2\nadded 3 at 3\nopen a at 3\nhit a 0 1\nhit a 2 2\ndone a 2\n\
          open b at 3\nhit b 0 3\nhit b 126 2\nhit b 128 1\ndone b 3\n",
    ),
    (
        "codes of 136 bits",
        "run --bits 136",
        b"add 1 0000000000000000000000000000000000\nadd 2 8000000000000000000000000000000001\n\
          range a 136 0000000000000000000000000000000000\nnext a 9\n\
          range b 137 0000000000000000000000000000000000\n",
        b"added 1 at 1\nadded 2 at 2\nopen a at 2\nhit a 0 1\nhit a 2 2\ndone a 2\nbad 5 3\n",
    ),
    (
        "codes of 256 bits",
        "run --bits 256",
        b"add 1 0000000000000000000000000000000000000000000000000000000000000000\n\
          add 2 8000000000000000000000000000000000000000000000000000000000000001\n\
          add 3 ffffffffffffffffffffffffffffffffffffffffffffffffffffffffffffffff\n\
          range a 256 0000000000000000000000000000000000000000000000000000000000000000\n\
          next a 9\n\
          range b 257 0000000000000000000000000000000000000000000000000000000000000000\n",
        b"added 1 at 1\nadded 2 at 2\nadded 3 at 3\nopen a at 3\nhit a 0 1\nhit a 2 2\nhit a 256 3\n\
          done a 3\nbad 5 3\n",
    ),
    (
        "the layout of a shard that is none",
        "run --bits 16 --parts 3 --shards 1",
        b"layout 0\nlayout 1\nlayout 00\nlayout 99\nlayout 100\nlayout x\nlayout\nlayout 1 x\n",
        b"layout 0 0,1,2,3,4,5/6,7,8,9,10/11,12,13,14,15\nbad 6\n\
          layout 0 0,1,2,3,4,5/6,7,8,9,10/11,12,13,14,15\nbad 6\nbad 5 2\nbad 5 2\nbad 4\nbad 4\n",
    ),
    (
        "of two faults of a line the first is told",
        "run --bits 8 --shards 1",
        b"jump 1\x7f\nlayout 1\x7f\njump 1 0g\nlayout x x\nadd x\nadd x 0g\nrange - 9 0\nrange a 9 0\n\
          next - 0\nlayout 100\nlayout 1\n",
        b"bad 2\nbad 2\nbad 3\nbad 4\nbad 4\nbad 5 2\nbad 5 2\nbad 5 3\nbad 5 2\nbad 5 2\nbad 6\n",
    ),
    (
        "the plan and the cost of a query of radius one",
        "run --bits 8 --parts 2 --shards 1",
        b"add 1 00\nadd 2 0f\nadd 3 ff\nadd 4 01\nrange a 1 00\nnext a 10\nplan a 0\ncost a\n",
        b"added 1 at 1\nadded 2 at 2\nadded 3 at 3\nadded 4 at 4\nopen a at 4\nhit a 0 1\n\
          hit a 1 4\ndone a 2\nplan a 0 cost 2 -1 1\ncost a reads 2 bound 2\n",
    ),
    (
        "more parts than a radius of none allows distances",
        "run --bits 8 --parts 2 --shards 1",
        b"add 1 00\nadd 2 0f\nadd 3 ff\nadd 4 01\nrange a 0 00\nnext a 5\nplan a 0\n",
        b"added 1 at 1\nadded 2 at 2\nadded 3 at 3\nadded 4 at 4\nopen a at 4\nhit a 0 1\n\
          done a 1\nplan a 0 cost 1 -1 0\n",
    ),
    (
        "a threshold over the width of its part",
        "run --bits 8 --parts 2 --shards 1",
        b"add 1 00\nadd 2 0f\nadd 3 ff\nadd 4 01\nrange a 8 00\nnext a 9\nplan a 0\n",
        b"added 1 at 1\nadded 2 at 2\nadded 3 at 3\nadded 4 at 4\nopen a at 4\nhit a 0 1\n\
          hit a 1 4\nhit a 4 2\nhit a 8 3\ndone a 4\nplan a 0 cost 4 -1 8\n",
    ),
    (
        "all vectors tie over no rows",
        "run --bits 8 --parts 2 --shards 1",
        b"range a 8 00\nnext a 1\nplan a 0\ncost a\n",
        b"open a at 0\ndone a 0\nplan a 0 cost 0 -1 8\ncost a reads 0 bound 0\n",
    ),
    (
        "refusals of cost and plan",
        "run --bits 8 --parts 2 --shards 1",
        b"cost\ncost a b\ncost a_\ncost a\nplan a\nplan a_ 0\nplan a 100\nplan a 1\nplan b 0\n",
        b"bad 4\nbad 4\nbad 5 2\nbad 8\nbad 4\nbad 5 2\nbad 5 3\nbad 6\nbad 8\n",
    ),
    (
        "a row that is deleted stays in the queries before",
        "run --bits 8",
        b"add 1 00\nadd 2 0f\nadd 3 ff\nadd 4 01\nrange a 1 00\ndel 4\nnext a 9\nrange b 1 00\n\
          next b 9\nget 4\nget 2\n",
        b"added 1 at 1\nadded 2 at 2\nadded 3 at 3\nadded 4 at 4\nopen a at 4\ndeleted 4 at 5\n\
          hit a 0 1\nhit a 1 4\ndone a 2\nopen b at 5\nhit b 0 1\ndone b 1\nabsent 4 at 5\n\
          code 2 0f at 5\n",
    ),
    (
        "a cancelled query frees its tag, and a closed one too",
        "run --bits 8",
        b"add 1 00\nadd 4 01\nrange a 8 00\nnext a 1\ncancel a\nnext a 1\nrange a 0 00\nnext a 1\n\
          cancel a\ncancel a\n",
        b"added 1 at 1\nadded 4 at 2\nopen a at 2\nhit a 0 1\nmore a\ncancelled a 1\nbad 8\n\
          open a at 2\nhit a 0 1\ndone a 1\nclosed a 1\nbad 8\n",
    ),
    (
        "the hits of three shards, each with a room of one",
        "run --bits 8 --shards 3 --room 1",
        b"add 0 00\nadd 3 03\nadd 6 00\nadd 1 01\nadd 2 ff\nrange a 8 00\nnext a 2\nnext a 2\nnext a 2\n",
        b"added 0 at 1\nadded 3 at 2\nadded 6 at 3\nadded 1 at 4\nadded 2 at 5\nopen a at 5\n\
          hit a 0 0\nhit a 0 6\nmore a\nhit a 1 1\nhit a 2 3\nmore a\nhit a 8 2\ndone a 5\n",
    ),
    (
        "a history of two entries is full for all but what is refused before",
        "run --bits 8 --entries 2",
        b"add 1 00\nadd 2 00\nadd 3 00\nadd 1 00\ndel 9\ndel 1\nget 1\n",
        b"added 1 at 1\nadded 2 at 2\nfull at 2\ntaken 1 at 2\nabsent 9 at 2\nfull at 2\n\
          code 1 00 at 2\n",
    ),
    (
        "codes of 72 bits are asked back in lower case",
        "run --bits 72",
        b"add 1 FFD8C0A0804020FF01\nadd 1 000000000000000000\nget 1\nget 2\ndel 1\nget 1\n",
        b"added 1 at 1\ntaken 1 at 1\ncode 1 ffd8c0a0804020ff01 at 1\nabsent 2 at 1\n\
          deleted 1 at 2\nabsent 1 at 2\n",
    ),
];

#[test]
fn each_session_has_its_replies_however_its_input_is_cut(rt: HostRuntime) {
    compare_all(&rt, rt.alloc(), &SESSIONS);
}

// A byte, how often it stands at the front of the input, what follows it, and the output.
static LONG_LINES: [(u8, usize, &[u8], &[u8]); 13] = [
    (b' ', 4096, b"\nadd 1 00\n", b"added 1 at 1\n"),
    (b' ', 4096, b"\r\nadd 1 00\n", b"added 1 at 1\n"),
    (b' ', 4096, b"\r\r\nadd 1 00\n", b"bad 1\nadded 1 at 1\n"),
    (b' ', 4096, b"", b""),
    (b' ', 4096, b"\r", b"bad 1\n"),
    (b' ', 4097, b"\nadd 1 00\n", b"bad 1\nadded 1 at 1\n"),
    (
        b' ',
        4087,
        b" add 1 00\nnext a 1\n",
        b"added 1 at 1\nbad 8\n",
    ),
    (b'x', 4096, b"\nadd 1 00\n", b"bad 3\nadded 1 at 1\n"),
    (b'x', 4097, b"\nadd 1 00\n", b"bad 1\nadded 1 at 1\n"),
    (b'x', 4097, b"", b"bad 1\n"),
    (b'x', 12_289, b"\nadd 1 00\n", b"bad 1\nadded 1 at 1\n"),
    (b'\t', 4096, b"\nadd 1 00\n", b"bad 2\nadded 1 at 1\n"),
    (b'\t', 4097, b"\nadd 1 00\n", b"bad 1\nadded 1 at 1\n"),
];

#[test]
fn a_line_over_4096_bytes_is_refused_and_the_next_is_read(rt: HostRuntime) -> Result<(), Fail> {
    for &(byte, count, rest, output) in &LONG_LINES {
        let mut input = Vec::from_elem(rt.alloc(), byte, count)?;
        input.extend_from_slice(rest)?;
        let about = match byte {
            b' ' => "spaces",
            b'\t' => "tabs",
            _ => "letters",
        };
        compare_pieces(
            &rt,
            rt.alloc(),
            about,
            "run --bits 8",
            input.as_slice(),
            output,
            Outcome::Done,
        );
    }
    Ok(())
}
