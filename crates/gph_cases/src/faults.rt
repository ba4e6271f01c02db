//! Sessions whose source or sink fails.

ghost use Rattle.std.specs.Thread.{IsSync};

use crate::trial::{Ends, compare, list_of, run_over};
use gph_serve::Outcome;
use line_io::{SteadySink, SteadySource};
use std::alloc::Global;
use std::env::Env;
use std::process::Abort;
use std::test::Fail;
use std::thread::Threads;

// The lines of a session of 59 bytes, each with its replies.
static LINES: [(&[u8], &[u8]); 6] = [
    (b"add 1 00\n", b"added 1 at 1\n"),
    (b"add 2 0f\n", b"added 2 at 2\n"),
    (b"add 3 ff\n", b"added 3 at 3\n"),
    (b"add 4 01\n", b"added 4 at 4\n"),
    (b"range a 1 00\n", b"open a at 4\n"),
    (b"next a 10\n", b"hit a 0 1\nhit a 1 4\ndone a 2\n"),
];

// The lines that stand whole in so many bytes, and the replies to them.
fn whole_lines(alloc: Global, bytes: usize) -> Result<(Vec<u8>, Vec<u8>), Fail> {
    let mut input = Vec::new(alloc);
    let mut output = Vec::new(alloc);
    for &(line, replies) in &LINES {
        if input.len().saturating_add(line.len()) > bytes {
            break;
        }
        input.extend_from_slice(line)?;
        output.extend_from_slice(replies)?;
    }
    Ok((input, output))
}

// How many bytes a read gives, and how many reads the session takes, with the one that finds its end.
static READS: [(usize, u64); 4] = [(100, 2), (9, 8), (7, 10), (1, 60)];

#[test]
fn a_failed_read_leaves_the_replies_to_the_lines_before_it(rt: HostRuntime) -> Result<(), Fail> {
    let (input, _) = whole_lines(rt.alloc(), 59)?;
    assert!(rt; input.len() == 59);
    for &(piece, reads) in &READS {
        let mut given: usize = 0;
        for call in 1..=61u64 {
            let outcome = if call <= reads {
                Outcome::ReadFault
            } else {
                Outcome::Done
            };
            let (_, output) = whole_lines(rt.alloc(), given)?;
            let ends = Ends {
                piece,
                read: call,
                write: 0,
            };
            compare(
                &rt,
                rt.alloc(),
                "a read fails",
                "run --bits 8",
                input.as_slice(),
                ends,
                output.as_slice(),
                outcome,
            );
            given = given.saturating_add(piece);
        }
    }
    Ok(())
}

// The replies of that session, a piece each.
static REPLIES: [&[u8]; 8] = [
    b"added 1 at 1\n",
    b"added 2 at 2\n",
    b"added 3 at 3\n",
    b"added 4 at 4\n",
    b"open a at 4\n",
    b"hit a 0 1\n",
    b"hit a 1 4\n",
    b"done a 2\n",
];

// Compares that session where its write of a number fails.
fn fail_write<R: Abort + Env + Threads + Sync>(
    rt: &R,
    alloc: Global,
    input: &[u8],
    piece: usize,
    write: u64,
    output: &[u8],
    outcome: Outcome,
)
    requires sync { IsSync R.row }
{
    let ends = Ends {
        piece,
        read: 0,
        write,
    };
    compare(
        rt,
        alloc,
        "a write fails",
        "run --bits 8",
        input,
        ends,
        output,
        outcome,
    );
}

#[test]
fn a_failed_write_leaves_the_pieces_before_it(rt: HostRuntime) -> Result<(), Fail> {
    let (input, _) = whole_lines(rt.alloc(), 59)?;
    for piece in [4096, 7, 1] {
        let mut output = Vec::new(rt.alloc());
        let mut call = 1;
        for reply in &REPLIES {
            let (given, written) = (input.as_slice(), output.as_slice());
            fail_write(
                &rt,
                rt.alloc(),
                given,
                piece,
                call,
                written,
                Outcome::WriteFault,
            );
            output.extend_from_slice(reply)?;
            call = call.saturating_add(1);
        }
        let (given, written) = (input.as_slice(), output.as_slice());
        fail_write(&rt, rt.alloc(), given, piece, call, written, Outcome::Done);
    }
    Ok(())
}

// What a session is about, its input, the bytes of a read, the read and the write that fail or 0, its output and its end.
static FAULTS: [(&str, &[u8], usize, u64, u64, &[u8], Outcome); 8] = [
    (
        "the third write fails",
        b"add 1 00\nadd 2 00\nadd 3 00\n",
        4096,
        0,
        3,
        b"added 1 at 1\nadded 2 at 2\n",
        Outcome::WriteFault,
    ),
    (
        "the second read fails",
        b"add 1 00\nget 1\n",
        9,
        2,
        0,
        b"added 1 at 1\n",
        Outcome::ReadFault,
    ),
    (
        "the first read fails",
        b"add 1 00\n",
        4096,
        1,
        0,
        b"",
        Outcome::ReadFault,
    ),
    (
        "a line that has no end is not answered where the next read fails",
        b"add 1 00\nadd 2 00",
        4096,
        2,
        0,
        b"added 1 at 1\n",
        Outcome::ReadFault,
    ),
    (
        "the reply to a last line without an end fails",
        b"add 1 00\nadd 2 00",
        4096,
        0,
        2,
        b"added 1 at 1\n",
        Outcome::WriteFault,
    ),
    (
        "nothing is read after quit",
        b"add 1 00\nquit\n",
        4096,
        2,
        0,
        b"added 1 at 1\n",
        Outcome::Done,
    ),
    (
        "a write fails before a read does",
        b"add 1 00\nadd 2 00\n",
        9,
        3,
        2,
        b"added 1 at 1\n",
        Outcome::WriteFault,
    ),
    (
        "a read fails before a write does",
        b"add 1 00\nadd 2 00\n",
        9,
        2,
        2,
        b"added 1 at 1\n",
        Outcome::ReadFault,
    ),
];

#[test]
fn a_session_ends_at_its_first_fault(rt: HostRuntime) {
    for &(about, input, piece, read, write, output, outcome) in &FAULTS {
        let ends = Ends { piece, read, write };
        compare(
            &rt,
            rt.alloc(),
            about,
            "run --bits 8",
            input,
            ends,
            output,
            outcome,
        );
    }
}

#[test]
fn a_session_over_steady_ends_is_done(rt: HostRuntime) -> Result<(), Fail> {
    let words = list_of(rt.alloc(), "run --bits 8")?;
    let (input, _) = whole_lines(rt.alloc(), 59)?;
    let mut source = SteadySource::new(input, 7);
    let mut sink = SteadySink::new();
    let outcome = run_over(&rt, rt.alloc(), words.as_slice(), &mut source, &mut sink);
    assert!(rt; outcome == Outcome::Done);
    Ok(())
}
