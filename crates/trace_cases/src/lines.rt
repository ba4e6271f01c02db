//! Lines as events.

ghost use Rattle.std.specs.Prelude.{◌≤◌, length};

use entry_log::Op;
use query_protocol::{Bad, LineFault};
use std::alloc::Global;
use std::test::Fail;
use trace_lines::{EventRequest, line_too_long, read_event_line};

// A line, and what it is read as where codes have 8 bits: the words that name the event, its numbers, and its code. A line without words
// is nothing.
static EVENTS: [(&[u8], &[u8], u64, u64, u64); 45] = [
    (b"", b"", 0, 0, 0),
    (b"   ", b"", 0, 0, 0),
    (b"commit 1 add 2 0f", b"commit add", 1, 2, 0x0f),
    (b"  commit  007 add  0008  fF ", b"commit add", 7, 8, 0xff),
    (b"commit 0 add 0 00", b"commit add", 0, 0, 0x00),
    (
        b"commit 4294967295 add 1 a5",
        b"commit add",
        4_294_967_295,
        1,
        0xa5,
    ),
    (b"commit 0000000001 add 1 01", b"commit add", 1, 1, 0x01),
    (
        b"commit 1 add 18446744073709551615 0F",
        b"commit add",
        1,
        18_446_744_073_709_551_615,
        0x0f,
    ),
    (b"commit 1 del 2", b"commit del", 1, 2, 0),
    (
        b" commit 1  del 00000000000000000009 ",
        b"commit del",
        1,
        9,
        0,
    ),
    (b"open 1 range 8 00", b"open range", 1, 8, 0x00),
    (b"open 2 range 008 80", b"open range", 2, 8, 0x80),
    (
        b"open 4294967295 range 0 01",
        b"open range",
        4_294_967_295,
        0,
        0x01,
    ),
    (b"open 1 near 1 80", b"open near", 1, 1, 0x80),
    (
        b" open 2  near 1048576  0f",
        b"open near",
        2,
        1_048_576,
        0x0f,
    ),
    (b"open 1 near 0000009 F0", b"open near", 1, 9, 0xf0),
    (b"advance 0 0", b"advance", 0, 0, 0),
    (b"advance 99999 99", b"advance", 99_999, 99, 0),
    (b" advance  00012  07 ", b"advance", 12, 7, 0),
    (b"pin 1 0", b"pin", 1, 0, 0),
    (b"pin 65535 15", b"pin", 65_535, 15, 0),
    (b"pin 00000 00", b"pin", 0, 0, 0),
    (b"poll 0 0 65536", b"poll", 0, 0, 65_536),
    (b"poll 1 2 3", b"poll", 1, 2, 3),
    (b"  poll 3  1  00001 ", b"poll", 3, 1, 1),
    (b"give 0", b"give", 0, 0, 0),
    (b"give 99999", b"give", 99_999, 0, 0),
    (b" give  00007 ", b"give", 7, 0, 0),
    (b"cancel 1", b"cancel", 1, 0, 0),
    (b"cancel 00000", b"cancel", 0, 0, 0),
    (b"repart 0 0,1,2,3,4,5,6,7", b"repart", 0, 0, 0),
    (b"repart 99 0,2,4,6/1,3,5,7", b"repart", 99, 0, 0),
    (b" repart  3  7/6/5/4/3/2/1/0 ", b"repart", 3, 0, 0),
    (b"build 0 9", b"build", 0, 9, 0),
    (b"build 15 65536", b"build", 15, 65_536, 0),
    (b" build  01  00001 ", b"build", 1, 1, 0),
    (b"follow 0", b"follow", 0, 0, 0),
    (b"follow 99", b"follow", 99, 0, 0),
    (b" follow  02 ", b"follow", 2, 0, 0),
    (b"swap 0", b"swap", 0, 0, 0),
    (b"swap 16", b"swap", 16, 0, 0),
    (b" swap  09 ", b"swap", 9, 0, 0),
    // What no world of so few shards or queries has is read too: the world refuses it.
    (b"advance 70000 50", b"advance", 70_000, 50, 0),
    (b"give 65536", b"give", 65_536, 0, 0),
    (b"build 99 1", b"build", 99, 1, 0),
];

// A line that is no event there, the number of its first fault, and the place of the word at fault.
static FAULTS: [(&[u8], u8, u8); 94] = [
    // A byte is no printable ASCII, whatever else is wrong.
    (b"give\t0", 2, 0),
    (b"\x1f", 2, 0),
    (b"jump \x7f", 2, 0),
    (b"give 0\r", 2, 0),
    (b"commit 1 add 1 \xc3\xa9", 2, 0),
    // The first word names no event.
    (b"jump", 3, 0),
    (b"quit", 3, 0),
    (b"add 1 00", 3, 0),
    (b"range a 1 00", 3, 0),
    (b"next a 1", 3, 0),
    (b"layout 0", 3, 0),
    (b"search 0 1", 3, 0),
    (b"Give 0", 3, 0),
    (b"gives 0", 3, 0),
    (b"commits 1 del 1", 3, 0),
    // The number of words is judged before any of them.
    (b"give", 4, 0),
    (b"give x x", 4, 0),
    (b"cancel", 4, 0),
    (b"cancel 0 0", 4, 0),
    (b"advance 0", 4, 0),
    (b"advance x y z", 4, 0),
    (b"pin", 4, 0),
    (b"pin 0 0 0", 4, 0),
    (b"poll 0 0", 4, 0),
    (b"poll 0 0 1 1", 4, 0),
    (b"repart 0", 4, 0),
    (b"repart 0 0/1 2", 4, 0),
    (b"build 0", 4, 0),
    (b"build 0 1 1", 4, 0),
    (b"follow", 4, 0),
    (b"follow 0 0", 4, 0),
    (b"swap", 4, 0),
    (b"swap 0 0", 4, 0),
    // For a commit or an opening it is that of the form which the third word names.
    (b"commit", 4, 0),
    (b"commit 1", 4, 0),
    (b"commit 1 add", 4, 0),
    (b"commit 1 add 1", 4, 0),
    (b"commit x add 1 00 00", 4, 0),
    (b"commit 1 del", 4, 0),
    (b"commit 1 del 1 00", 4, 0),
    (b"open", 4, 0),
    (b"open 1", 4, 0),
    (b"open 1 range", 4, 0),
    (b"open 1 range 1", 4, 0),
    (b"open x range y z z", 4, 0),
    (b"open 1 near 1", 4, 0),
    (b"open 1 near 1 00 00", 4, 0),
    // Where it names none it may be that of any form.
    (b"commit 1 x", 4, 0),
    (b"commit x y", 4, 0),
    (b"commit 1 x 1 00 00", 4, 0),
    (b"open 1 x 1", 4, 0),
    (b"open 1 x 1 00 00", 4, 0),
    (b"commit x y 1", 5, 2),
    (b"commit x y 1 00", 5, 2),
    (b"commit 1 y 1", 5, 3),
    (b"commit 1 y z 00", 5, 3),
    (b"commit 1 Add 1 00", 5, 3),
    (b"commit 1 put 1 00", 5, 3),
    (b"commit 1 all +1:00", 5, 3),
    (b"open x y 1 00", 5, 2),
    (b"open 1 y z z", 5, 3),
    (b"open 1 Range 1 00", 5, 3),
    (b"open 1 add 1 00", 5, 3),
    // The first word that isn't of its form.
    (b"commit 4294967296 add 1 00", 5, 2),
    (b"commit 00000000001 add 1 00", 5, 2),
    (b"commit -1 del x", 5, 2),
    (b"commit 1 add 18446744073709551616 00", 5, 4),
    (b"commit 1 add x 0", 5, 4),
    (b"commit 1 add 1 0", 5, 5),
    (b"commit 1 add 1 0g", 5, 5),
    (b"commit 1 add 1 0000", 5, 5),
    (b"commit 1 del x", 5, 4),
    (b"open 4294967296 range 1 00", 5, 2),
    (b"open 1 range 9 00", 5, 4),
    (b"open 1 range 0001 000", 5, 4),
    (b"open 1 range 1 000", 5, 5),
    (b"open x near 0 0", 5, 2),
    (b"open 1 near 0 0", 5, 4),
    (b"open 1 near 1048577 00", 5, 4),
    (b"open 1 near 1 0", 5, 5),
    (b"give 100000", 5, 2),
    (b"give 000000", 5, 2),
    (b"cancel x", 5, 2),
    (b"advance x y", 5, 2),
    (b"advance 0 100", 5, 3),
    (b"pin 100000 100", 5, 2),
    (b"pin 0 000", 5, 3),
    (b"poll x y z", 5, 2),
    (b"poll 0 100 0", 5, 3),
    (b"poll 0 0 0", 5, 4),
    (b"poll 0 0 65537", 5, 4),
    (b"build 0 0", 5, 3),
    (b"follow 100", 5, 2),
    (b"swap x", 5, 2),
];

// A build that is asked with a layout that is none of 8 bits, and the place of the word at fault.
static LAYOUTS: [(&[u8], u8); 8] = [
    (b"repart 0 0,1,2,3/4,5,6", 3),
    (b"repart 0 0,0/1,2,3,4,5,6,7", 3),
    (b"repart 0 0,1,2,3/4,5,6,8", 3),
    (b"repart 0 0,1,,2", 3),
    (b"repart 0 x", 3),
    (b"repart x y", 2),
    (b"repart 100 0,1,2,3,4,5,6,7", 2),
    (b"repart 000 0,1,2,3,4,5,6,7", 2),
];

// What an event is: the words that name it, its numbers, and its code.
fn told(request: &EventRequest<1>) -> (&[u8], u64, u64, u64) {
    match request {
        EventRequest::Commit { who, op } => match op {
            Op::Add { key, code } => {
                (b"commit add", u64::from(*who), *key, code.words()[0] >> 56)
            }
            Op::Delete { key } => (b"commit del", u64::from(*who), *key, 0),
        },
        EventRequest::OpenRange { who, tau, code } => (
            b"open range",
            u64::from(*who),
            u64::from(*tau),
            code.words()[0] >> 56,
        ),
        EventRequest::OpenNear { who, k, code } => (
            b"open near",
            u64::from(*who),
            u64::from(*k),
            code.words()[0] >> 56,
        ),
        EventRequest::Advance { query, shard } => {
            (b"advance", u64::from(*query), u64::from(*shard), 0)
        }
        EventRequest::Pin { query, shard } => (b"pin", u64::from(*query), u64::from(*shard), 0),
        EventRequest::Poll {
            query,
            shard,
            budget,
        } => (
            b"poll",
            u64::from(*query),
            u64::from(*shard),
            u64::from(*budget),
        ),
        EventRequest::Give { query } => (b"give", u64::from(*query), 0, 0),
        EventRequest::Cancel { query } => (b"cancel", u64::from(*query), 0, 0),
        EventRequest::BuildStart { shard, layout: _ } => (b"repart", u64::from(*shard), 0, 0),
        EventRequest::BuildStep { shard, rows } => {
            (b"build", u64::from(*shard), u64::from(*rows), 0)
        }
        EventRequest::Follow { shard } => (b"follow", u64::from(*shard), 0, 0),
        EventRequest::Swap { shard } => (b"swap", u64::from(*shard), 0, 0),
    }
}

// Whether a line is the event.
fn is_event(alloc: Global, line: &[u8], word: &[u8], one: u64, two: u64, three: u64) -> bool
    requires { length line.now ≤ 4096 }
{
    match read_event_line::<1>(alloc, 8, line) {
        Ok(Some(request)) => {
            let (read, first, second, third) = told(&request);
            read == word && first == one && second == two && third == three
        }
        Ok(None) => word.is_empty(),
        Err(_) => false,
    }
}

// Whether a line has the fault.
fn is_fault(alloc: Global, line: &[u8], number: u8, word: u8) -> bool
    requires { length line.now ≤ 4096 }
{
    match read_event_line::<1>(alloc, 8, line) {
        Err(LineFault::Bad(fault)) => fault.number == number && fault.word == word,
        _ => false,
    }
}

#[test]
fn a_line_is_an_event_or_has_its_first_fault(rt: HostRuntime) {
    let alloc = rt.alloc();
    for &(line, word, one, two, three) in &EVENTS {
        assert!(rt; line.len() <= 4096);
        assert!(rt; is_event(alloc, line, word, one, two, three), "{line:?}");
    }
    for &(line, number, word) in &FAULTS {
        assert!(rt; line.len() <= 4096);
        assert!(rt; is_fault(alloc, line, number, word), "{line:?}");
    }
    for &(line, word) in &LAYOUTS {
        assert!(rt; line.len() <= 4096);
        assert!(rt; is_fault(alloc, line, 5, word), "{line:?}");
    }
    assert_eq!(rt; line_too_long(), Bad { number: 1, word: 0 });
}

// A line, and the number that its event's answer has for what the event is about.
static SUBJECTS: [(&[u8], u64); 12] = [
    (b"commit 1 add 2 0f", 2),
    (b"commit 1 del 3", 3),
    (b"open 1 range 8 00", 0),
    (b"advance 1 2", 2),
    (b"pin 1 2", 1),
    (b"poll 1 2 3", 0),
    (b"give 4", 4),
    (b"cancel 5", 5),
    (b"repart 6 0,1,2,3,4,5,6,7", 6),
    (b"build 7 1", 7),
    (b"follow 8", 8),
    (b"swap 9", 9),
];

// Whether the event of a line is about the number.
fn is_about(alloc: Global, line: &[u8], number: u64) -> bool
    requires { length line.now ≤ 4096 }
{
    match read_event_line::<1>(alloc, 8, line) {
        Ok(Some(request)) => request.subject() == number,
        _ => false,
    }
}

#[test]
fn an_event_is_about_a_key_a_query_or_a_shard(rt: HostRuntime) -> Result<(), Fail> {
    for &(line, number) in &SUBJECTS {
        assert!(rt; line.len() <= 4096);
        assert!(rt; is_about(rt.alloc(), line, number), "{line:?}");
    }
    Ok(())
}
