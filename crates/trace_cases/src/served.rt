//! Lines answered as they come, each by its length.

ghost use Rattle.std.specs.Prelude.{ℕ, List};

use byte_lines::{Cutter, LineBuf};
use line_answers::{Ending, LineAnswers, answer_lines};
use line_io::{MemorySink, MemorySource};
use read_meter::{Meters, Steps, upkeep};
use session_model::BLOCK_MOST;
use std::alloc::Global;
use std::env::Env;
use std::process::Abort;
use std::test::Fail;

// The ledgers, on which nothing is counted here.
#[derive(Drop)]
struct Postings;

#[derive(Drop)]
struct Upkeep;

// Answers each line by how many bytes it has, and a long one by a word; an empty one isn't answered.
#[derive(Drop)]
struct Lengths;

impl LineAnswers for Lengths {
    ghost config = { λ l. record {
      bits = 8;
      parts = 2;
      shards = 1;
      room = 1;
      entries = 1;
      input = 1;
    } };

    ghost answered = { λ l old new lines texts. Unit {0} };

    fn answer<L, M>(
        &mut self,
        line: &[u8],
        out: &mut LineBuf,
        _upkeep: &mut Steps<M>,
        _meters: &mut Meters<L>,
    ) {
        if !line.is_empty() {
            out.put_number(line.len() as u64);
            out.put(b"\n");
        }
    }

    fn answer_long(&mut self, out: &mut LineBuf) {
        out.put(b"long\n");
    }
}

// An input, the most of it that may be read, the read and the write that fail, counted from 1, or 0; how the call ends, and what it wrote.
static CALLS: [(&[u8], u64, u64, u64, Ending, &[u8]); 11] = [
    (b"", 9, 0, 0, Ending::Done, b""),
    (b"ab\ncde\r\n\nf", 99, 0, 0, Ending::Done, b"2\n3\n1\n"),
    (b"ab\n\r\r\ng\r", 99, 0, 0, Ending::Done, b"2\n1\n2\n"),
    (b"ab\ncd\n", 6, 0, 0, Ending::Done, b"2\n2\n"),
    (b"ab\ncd\n", 5, 0, 0, Ending::InputLimit, b"2\n"),
    (b"ab\ncd", 3, 0, 0, Ending::InputLimit, b"2\n"),
    (b"ab\ncd", 2, 0, 0, Ending::InputLimit, b""),
    (b"ab\ncd", 5, 1, 0, Ending::ReadFault, b""),
    (b"ab\ncd\nefg\n", 99, 0, 1, Ending::WriteFault, b""),
    (b"ab\ncd\nefg\n", 99, 0, 2, Ending::WriteFault, b"2\n"),
    (b"ab\ncd\nefg\n", 99, 0, 4, Ending::Done, b"2\n2\n3\n"),
];

// Answers the lines of an input in pieces of so many bytes, and compares how the call ends and what it wrote.
fn compare<R: Abort + Env>(
    rt: &R,
    alloc: Global,
    call: &(&[u8], u64, u64, u64, Ending, &[u8]),
    piece: usize,
) -> Result<(), Fail> {
    let (input, limit, read, write, ending, output) = call;
    assert!(rt; piece >= 1);
    let mut source = MemorySource::new(input.to_vec(alloc)?, piece, [*read].to_vec(alloc)?);
    let mut sink = MemorySink::new(alloc, [*write].to_vec(alloc)?);
    let mut meters: Meters<Postings> = Meters::new(rt, alloc)?;
    let mut kept: Steps<Upkeep> = upkeep(rt);
    let mut cutter = Cutter::new(alloc)?;
    let mut out = LineBuf::new(alloc)?;
    let mut block = Vec::from_elem(alloc, 0u8, BLOCK_MOST)?;
    let ended = answer_lines(
        *limit,
        &mut Lengths,
        &mut cutter,
        &mut out,
        block.as_mut_slice(),
        &mut source,
        &mut sink,
        &mut kept,
        &mut meters,
    );
    assert_eq!(rt; ended, *ending, "{input:?} by {piece}");
    assert_eq!(rt; sink.bytes(), *output, "{input:?} by {piece}");
    Ok(())
}

#[test]
fn each_line_is_answered_once_however_it_comes(rt: HostRuntime) -> Result<(), Fail> {
    for call in &CALLS {
        compare(&rt, rt.alloc(), call, 4096)?;
    }
    for call in &CALLS[..7] {
        compare(&rt, rt.alloc(), call, 2)?;
        compare(&rt, rt.alloc(), call, 1)?;
    }
    Ok(())
}
