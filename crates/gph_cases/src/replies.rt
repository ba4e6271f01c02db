//! Replies as lines.

ghost use Rattle.std.specs.Prelude.{◌≡◌, ◌≤◌, length};
ghost use Rattle.gph_codes.specs.Allowed.{IsAllowed};

use byte_lines::LineBuf;
use gph_codes::Code;
use part_layout::LayoutText;
use query_protocol::{
    Bad, Reply, Tag, write_code, write_hit, write_layout, write_plan, write_searched,
};
use std::test::Fail;

// Whether a reply is written as a line.
fn is_line(reply: Reply, line: &mut LineBuf, text: &[u8]) -> bool {
    line.clear();
    reply.write(line);
    line.bytes() == text
}

#[test]
fn each_reply_on_a_key_is_its_line(rt: HostRuntime) -> Result<(), Fail> {
    let mut line = LineBuf::new(rt.alloc())?;
    let last = u64::MAX;
    assert!(rt; is_line(Reply::Added { key: 1, at: 2 }, &mut line, b"added 1 at 2\n"));
    assert!(rt;
        is_line(
            Reply::Added { key: last, at: 1 },
            &mut line,
            b"added 18446744073709551615 at 1\n"
        )
    );
    assert!(rt;
        is_line(
            Reply::Deleted { key: 9, at: 3 },
            &mut line,
            b"deleted 9 at 3\n"
        )
    );
    assert!(rt;
        is_line(
            Reply::Taken { key: 0, at: 10 },
            &mut line,
            b"taken 0 at 10\n"
        )
    );
    assert!(rt;
        is_line(
            Reply::Absent { key: 7, at: 0 },
            &mut line,
            b"absent 7 at 0\n"
        )
    );
    assert!(rt; is_line(Reply::Full { at: 1048576 }, &mut line, b"full at 1048576\n"));
    Ok(())
}

#[test]
fn each_reply_is_its_line(rt: HostRuntime) -> Result<(), Fail> {
    let tag = Tag::of(b"q16").ok_or("no tag")?;
    let mut line = LineBuf::new(rt.alloc())?;
    assert!(rt; is_line(Reply::Open { tag, at: 0 }, &mut line, b"open q16 at 0\n"));
    assert!(rt; is_line(Reply::More { tag }, &mut line, b"more q16\n"));
    assert!(rt; is_line(Reply::Done { tag, count: 2 }, &mut line, b"done q16 2\n"));
    assert!(rt;
        is_line(
            Reply::Cancelled { tag, count: 0 },
            &mut line,
            b"cancelled q16 0\n"
        )
    );
    assert!(rt;
        is_line(
            Reply::Closed { tag, count: 12 },
            &mut line,
            b"closed q16 12\n"
        )
    );
    let cost = Reply::Cost {
        tag,
        reads: 3,
        bound: 20,
    };
    assert!(rt; is_line(cost, &mut line, b"cost q16 reads 3 bound 20\n"));
    Ok(())
}

#[test]
fn each_reply_on_a_build_is_its_line(rt: HostRuntime) -> Result<(), Fail> {
    let mut line = LineBuf::new(rt.alloc())?;
    let begun = Reply::Building {
        shard: 0,
        left: 4,
        at: 7,
    };
    assert!(rt; is_line(begun, &mut line, b"building 0 left 4 at 7\n"));
    let placed = Reply::Built { shard: 15, left: 0 };
    assert!(rt; is_line(placed, &mut line, b"built 15 left 0\n"));
    let in_place = Reply::Swapped {
        shard: 3,
        at: 1048576,
    };
    assert!(rt; is_line(in_place, &mut line, b"swapped 3 at 1048576\n"));
    let beyond = Reply::Moved {
        shard: 1,
        front: 8,
        at: 10,
    };
    assert!(rt; is_line(beyond, &mut line, b"moved 1 front 8 shard 10\n"));
    Ok(())
}

#[test]
fn each_refusal_is_its_line(rt: HostRuntime) -> Result<(), Fail> {
    let mut line = LineBuf::new(rt.alloc())?;
    for (number, word, text) in [
        (1, 0, b"bad 1\n".as_slice()),
        (5, 4, b"bad 5 4\n".as_slice()),
        (9, 0, b"bad 9\n".as_slice()),
        (10, 0, b"bad 10\n".as_slice()),
        (11, 0, b"bad 11\n".as_slice()),
    ] {
        let refusal = Reply::Bad(Bad { number, word });
        assert!(rt; is_line(refusal, &mut line, text), "{text:?}");
    }
    assert!(rt; is_line(Reply::NoMemory, &mut line, b"nomem\n"));
    Ok(())
}

// Codes of up to 256 bits in either case, and their digits in the line.
static CODES: [(u32, &[u8], &[u8]); 4] = [
    (8, b"A5", b"code 7 a5 at 9\n"),
    (64, b"0123456789abcdef", b"code 7 0123456789abcdef at 9\n"),
    (
        72,
        b"FFD8C0A0804020FF01",
        b"code 7 ffd8c0a0804020ff01 at 9\n",
    ),
    (
        256,
        b"8000000000000000000000000000000000000000000000000000000000000001",
        b"code 7 8000000000000000000000000000000000000000000000000000000000000001 at 9\n",
    ),
];

// Whether a code is written as a line.
fn is_code_line(bits: u32, digits: &[u8], line: &mut LineBuf, text: &[u8]) -> bool
    requires { IsAllowed 4 bits }
{
    let Ok(code) = Code::<4>::from_hex(bits, digits) else {
        return false;
    };
    line.clear();
    write_code(7, bits, &code, 9, line);
    line.bytes() == text
}

#[test]
fn a_code_is_a_line(rt: HostRuntime) -> Result<(), Fail> {
    let mut line = LineBuf::new(rt.alloc())?;
    for &(bits, digits, text) in &CODES {
        assert!(rt; bits % 8 == 0 && 8 <= bits && bits <= 256);
        assert!(rt; is_code_line(bits, digits, &mut line, text), "{text:?}");
    }
    Ok(())
}

#[test]
fn a_hit_a_plan_a_layout_and_what_was_searched_are_lines(rt: HostRuntime) -> Result<(), Fail> {
    let tag = Tag::of(b"q16").ok_or("no tag")?;
    let mut line = LineBuf::new(rt.alloc())?;
    write_hit(&tag, 64, 103, &mut line);
    assert!(rt; line.bytes() == b"hit q16 64 103\n".as_slice());
    line.clear();
    write_plan(&tag, 0, 4, &[-1, 0, 12], &mut line);
    assert!(rt; line.bytes() == b"plan q16 0 cost 4 -1 0 12\n".as_slice());
    let mut bytes = [0u8; 2048];
    bytes[..15].copy_from_slice(b"0,1,2/3,4,5/6,7");
    line.clear();
    write_layout(12, &LayoutText::new(bytes, 15), &mut line);
    assert!(rt; line.bytes() == b"layout 12 0,1,2/3,4,5/6,7\n".as_slice());
    let text = LayoutText::new(bytes, 15);
    line.clear();
    write_searched(3, 1024, 7, 8, 1048576, &text, &mut line);
    assert!(rt;
        line.bytes()
            == b"searched 3 before 1024 after 7 swaps 8 at 1048576 0,1,2/3,4,5/6,7\n".as_slice()
    );
    Ok(())
}
