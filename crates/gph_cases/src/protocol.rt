//! Lines as requests.

ghost use Rattle.std.specs.Prelude.{◌≡◌, ◌≤◌, length};

use gph_codes::Code;
use hamming_model::ENTRIES_MOST;
use part_layout::{Config, INPUT_MOST};
use query_protocol::{Bad, LineFault, Request, Tag, read_line};
use std::alloc::Global;
use std::test::Fail;

// A line, and what it is read as where codes have 8 bits and there is one shard: the word of the request, its tag, its number
// and its code, or its rounds. A line without words is nothing.
static REQUESTS: [(&[u8], &[u8], &[u8], u64, u64); 37] = [
    (b"", b"", b"", 0, 0),
    (b"   ", b"", b"", 0, 0),
    (b"add 1 00", b"add", b"", 1, 0x00),
    (b"  add   007  fF ", b"add", b"", 7, 0xff),
    (b"add 0 a5", b"add", b"", 0, 0xa5),
    (b"add 18446744073709551615 0F", b"add", b"", u64::MAX, 0x0f),
    (b"add 00000000000000000001 10", b"add", b"", 1, 0x10),
    (b"del 1", b"del", b"", 1, 0),
    (b"del 18446744073709551615", b"del", b"", u64::MAX, 0),
    (b"get 0", b"get", b"", 0, 0),
    (b"  get  007 ", b"get", b"", 7, 0),
    (b"range a 0 80", b"range", b"a", 0, 0x80),
    (b"range Zz09 008 01", b"range", b"Zz09", 8, 0x01),
    (
        b"range abcdefghijklmnop 1 00",
        b"range",
        b"abcdefghijklmnop",
        1,
        0x00,
    ),
    (b"near a 1 80", b"near", b"a", 1, 0x80),
    (
        b" near  Zz09  1048576 01",
        b"near",
        b"Zz09",
        1_048_576,
        0x01,
    ),
    (b"near a 0000009 0F", b"near", b"a", 9, 0x0f),
    (b"next a 1", b"next", b"a", 1, 0),
    (b"next 9 00002", b"next", b"9", 2, 0),
    (b"next a 65536", b"next", b"a", 65536, 0),
    (b"cost a", b"cost", b"a", 0, 0),
    (b"plan a 0", b"plan", b"a", 0, 0),
    (b" plan  Zz09  00", b"plan", b"Zz09", 0, 0),
    (b"cancel a", b"cancel", b"a", 0, 0),
    (b" cancel  Zz09 ", b"cancel", b"Zz09", 0, 0),
    (b"layout 0", b"layout", b"", 0, 0),
    (b" layout  00 ", b"layout", b"", 0, 0),
    (b"build 1", b"build", b"", 1, 0),
    (b"build 65536", b"build", b"", 65536, 0),
    (b"  build  00009 ", b"build", b"", 9, 0),
    (b"swap", b"swap", b"", 0, 0),
    (b" swap ", b"swap", b"", 0, 0),
    (b"search 0 1", b"search", b"", 0, 1),
    (b" search  00  8 ", b"search", b"", 0, 8),
    (b"repart 0 0,1,2,3,4,5,6,7", b"repart", b"", 0, 0),
    (b"quit", b"quit", b"", 0, 0),
    (b" quit ", b"quit", b"", 0, 0),
];

// A line that is no request there, the number of its first fault, and the place of the word at fault.
static FAULTS: [(&[u8], u8, u8); 93] = [
    (b"add\t1 00", 2, 0),
    (b"\x1f", 2, 0),
    (b"jump \x7f", 2, 0),
    (b"quit\r", 2, 0),
    (b"add 1 \xc3\xa9", 2, 0),
    (b"~", 3, 0),
    (b"jump", 3, 0),
    (b"QUIT", 3, 0),
    (b"quits", 3, 0),
    (b"Del 1", 3, 0),
    (b"nearest a 1 00", 3, 0),
    (b"delete 1", 3, 0),
    (b"Swap", 3, 0),
    (b"Search 0 1", 3, 0),
    (b"1 add 00", 3, 0),
    (b"add", 4, 0),
    (b"add x", 4, 0),
    (b"add 1 00 00", 4, 0),
    (b"del", 4, 0),
    (b"del x 1", 4, 0),
    (b"get", 4, 0),
    (b"get 1 00", 4, 0),
    (b"cancel", 4, 0),
    (b"cancel a b", 4, 0),
    (b"range a 1", 4, 0),
    (b"range a 1 00 00", 4, 0),
    (b"near a 1", 4, 0),
    (b"near a 1 00 00", 4, 0),
    (b"next a", 4, 0),
    (b"next a 1 1", 4, 0),
    (b"cost", 4, 0),
    (b"cost a b", 4, 0),
    (b"plan a", 4, 0),
    (b"plan a 0 0", 4, 0),
    (b"layout", 4, 0),
    (b"layout 1 x", 4, 0),
    (b"repart", 4, 0),
    (b"repart 0", 4, 0),
    (b"repart 0 0,1,2,3/4,5,6,7 9", 4, 0),
    (b"build", 4, 0),
    (b"build 1 1", 4, 0),
    (b"swap 0", 4, 0),
    (b"search", 4, 0),
    (b"search 0", 4, 0),
    (b"search 0 1 1", 4, 0),
    (b"quit now", 4, 0),
    (b"add 18446744073709551616 00", 5, 2),
    (b"add 000000000000000000001 0g", 5, 2),
    (b"add 1 000", 5, 3),
    (b"add 1 0g", 5, 3),
    (b"del -1", 5, 2),
    (b"del 18446744073709551616", 5, 2),
    (b"get 000000000000000000001", 5, 2),
    (b"cancel abcdefghijklmnopq", 5, 2),
    (b"range abcdefghijklmnopq 9 00", 5, 2),
    (b"range a_b 1 00", 5, 2),
    (b"range a 9 0g", 5, 3),
    (b"range a 0001 00", 5, 3),
    (b"range a 1 0", 5, 4),
    (b"near a_b 0 00", 5, 2),
    (b"near a 0 0g", 5, 3),
    (b"near a 1048577 00", 5, 3),
    (b"near a 00000001 00", 5, 3),
    (b"near a 1 0", 5, 4),
    (b"next a 0", 5, 3),
    (b"next a 65537", 5, 3),
    (b"cost a_b", 5, 2),
    (b"plan a_b x", 5, 2),
    (b"plan a x", 5, 3),
    (b"layout x", 5, 2),
    (b"layout 000", 5, 2),
    (b"repart x 0", 5, 2),
    (b"repart 000 0,1,2,3/4,5,6,7", 5, 2),
    (b"repart 1 0", 5, 3),
    (b"repart 0 0,1,,2", 5, 3),
    (b"repart 0 0,1,2,3/4,5,6,8", 5, 3),
    (b"repart 0 0,0/1,2,3,4,5,6,7", 5, 3),
    (b"repart 0 0,1,2,3/4,5,6", 5, 3),
    (b"build 0", 5, 2),
    (b"build 65537", 5, 2),
    (b"build 000001", 5, 2),
    (b"search x 0", 5, 2),
    (b"search 000 1", 5, 2),
    (b"search 1 0", 5, 3),
    (b"search 0 9", 5, 3),
    (b"search 0 01", 5, 3),
    (b"search 0 -1", 5, 3),
    (b"plan a 1", 6, 0),
    (b"layout 1", 6, 0),
    (b"layout 99", 6, 0),
    (b"repart 1 0,1,2,3/4,5,6,7", 6, 0),
    (b"search 1 1", 6, 0),
    (b"search 99 8", 6, 0),
];

// The eight bits of a code, which stand at the top of its word.
fn byte_of(code: &Code<1>) -> u64 {
    code.words()[0] >> 56
}

// What was read, as a row of the table tells it: a search has its rounds in the place of a code.
fn told(read: &Option<Request<1>>) -> (&'static str, Option<&Tag>, u64, u64) {
    match read {
        None => ("", None, 0, 0),
        Some(Request::Add { key, code }) => ("add", None, *key, byte_of(code)),
        Some(Request::Del { key }) => ("del", None, *key, 0),
        Some(Request::Get { key }) => ("get", None, *key, 0),
        Some(Request::Range { tag, tau, code }) => {
            ("range", Some(tag), u64::from(*tau), byte_of(code))
        }
        Some(Request::Near { tag, k, code }) => {
            ("near", Some(tag), u64::from(*k), byte_of(code))
        }
        Some(Request::Next { tag, n }) => ("next", Some(tag), u64::from(*n), 0),
        Some(Request::Cost { tag }) => ("cost", Some(tag), 0, 0),
        Some(Request::Plan { tag, shard }) => ("plan", Some(tag), u64::from(*shard), 0),
        Some(Request::Cancel { tag }) => ("cancel", Some(tag), 0, 0),
        Some(Request::Layout { shard }) => ("layout", None, u64::from(*shard), 0),
        Some(Request::Repart { shard, layout: _ }) => ("repart", None, u64::from(*shard), 0),
        Some(Request::Build { n }) => ("build", None, u64::from(*n), 0),
        Some(Request::Swap) => ("swap", None, 0, 0),
        Some(Request::Search { shard, rounds }) => {
            ("search", None, u64::from(*shard), u64::from(*rounds))
        }
        Some(Request::Quit) => ("quit", None, 0, 0),
    }
}

// Whether a tag has a text; where there is none, it is empty.
fn is_tag(tag: Option<&Tag>, text: &[u8]) -> bool {
    match tag {
        Some(tag) => tag.bytes() == text,
        None => text.is_empty(),
    }
}

// A server of so many shards, for codes of eight bits.
fn of_shards(shards: u32) -> Config
    ensures { result.bits ≡ 8 }
{
    Config {
        bits: 8,
        parts: 1,
        shards,
        room: 64,
        entries: ENTRIES_MOST,
        input: INPUT_MOST,
    }
}

// Whether a line is the request, with the given number of shards.
fn is_request(
    alloc: Global,
    line: &[u8],
    shards: u32,
    word: &[u8],
    tag: &[u8],
    number: u64,
    code: u64,
) -> bool
    requires { length line.now ≤ 4096 }
{
    match read_line::<1>(alloc, &of_shards(shards), line) {
        Ok(read) => {
            let (read_word, read_tag, read_number, read_code) = told(&read);
            let is_word = read_word.as_bytes() == word && is_tag(read_tag, tag);
            is_word && read_number == number && read_code == code
        }
        Err(_) => false,
    }
}

// Whether a line has the fault, with the given number of shards.
fn is_fault(alloc: Global, line: &[u8], shards: u32, number: u8, word: u8) -> bool
    requires { length line.now ≤ 4096 }
{
    match read_line::<1>(alloc, &of_shards(shards), line) {
        Err(LineFault::Bad(fault)) => fault.number == number && fault.word == word,
        _ => false,
    }
}

#[test]
fn a_line_is_a_request_or_has_its_first_fault(rt: HostRuntime) {
    let alloc = rt.alloc();
    for &(line, word, tag, number, code) in &REQUESTS {
        assert!(rt; line.len() <= 4096);
        assert!(rt;
            is_request(alloc, line, 1, word, tag, number, code),
            "{line:?}"
        );
    }
    for &(line, number, word) in &FAULTS {
        assert!(rt; line.len() <= 4096);
        assert!(rt; is_fault(alloc, line, 1, number, word), "{line:?}");
    }
    let long = Bad::line_too_long();
    assert!(rt; long.number == 1 && long.word == 0);
    // The last shard of sixteen, and none.
    assert!(rt; is_request(alloc, b"layout 15", 16, b"layout", b"", 15, 0));
    assert!(rt; is_fault(alloc, b"layout 16", 16, 6, 0));
    assert!(rt; is_request(alloc, b"plan a 15", 16, b"plan", b"a", 15, 0));
    assert!(rt; is_fault(alloc, b"plan a 16", 16, 6, 0));
    assert!(rt;
        is_request(
            alloc,
            b"repart 15 0/1,2,3,4,5,6,7",
            16,
            b"repart",
            b"",
            15,
            0
        )
    );
    assert!(rt; is_fault(alloc, b"repart 16 0/1,2,3,4,5,6,7", 16, 6, 0));
}

// A line that asks for a build, and the text of its layout.
static LAYOUTS: [(&[u8], &[u8]); 4] = [
    (b"repart 0 0,2,4,6/1,3,5,7", b"0,2,4,6/1,3,5,7"),
    (b" repart  00  7/6/5/4/3/2/1/0 ", b"7/6/5/4/3/2/1/0"),
    (b"repart 0 007,1,02/3,6,5/000,4", b"7,1,2/3,6,5/0,4"),
    (b"repart 0 0,1,2,3,4,5,6,7", b"0,1,2,3,4,5,6,7"),
];

// Whether a line asks for a build of the layout.
fn is_layout(alloc: Global, line: &[u8], text: &[u8]) -> bool
    requires { length line.now ≤ 4096 }
{
    match read_line::<1>(alloc, &of_shards(1), line) {
        Ok(Some(Request::Repart { shard: 0, layout })) => layout.text().bytes() == text,
        _ => false,
    }
}

#[test]
fn a_build_is_asked_by_the_text_of_its_layout(rt: HostRuntime) {
    for &(line, text) in &LAYOUTS {
        assert!(rt; line.len() <= 4096);
        assert!(rt; is_layout(rt.alloc(), line, text), "{line:?}");
    }
}

// Words, and whether they are tags.
static TAGS: [(&[u8], bool); 12] = [
    (b"a", true),
    (b"Z", true),
    (b"0", true),
    (b"abcdefghijklmnop", true),
    (b"0123456789ABCDEF", true),
    (b"", false),
    (b"abcdefghijklmnopq", false),
    (b"a b", false),
    (b"a-", false),
    (b"@", false),
    (b"{", false),
    (b"\xc3\xa9", false),
];

// Whether a word is a tag, where it has to be one with this text and equal to itself, or is none.
fn is_read_as(word: &[u8], is_tag: bool) -> bool {
    match Tag::of(word) {
        Some(tag) => is_tag && tag.bytes() == word && tag.matches(&tag),
        None => !is_tag,
    }
}

#[test]
fn a_tag_is_its_text(rt: HostRuntime) -> Result<(), Fail> {
    for &(word, is_tag) in &TAGS {
        assert!(rt; is_read_as(word, is_tag), "{word:?}");
    }
    for (one, other) in [(b"a", b"b"), (b"a", b"A"), (b"1", b"2")] {
        let one = Tag::of(one).ok_or("no tag")?;
        let other = Tag::of(other).ok_or("no tag")?;
        assert!(rt; !one.matches(&other));
    }
    Ok(())
}
