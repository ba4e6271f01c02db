//! Answers as lines.

use byte_lines::LineBuf;
use commit_journal::Decided;
use entry_log::Decision;
use hamming_model::Hit;
use hit_source::Polled;
use std::test::Fail;
use trace_lines::write_answer;
use world_model::{Refused, Told};

// Whether an answer about a number is written as a line.
fn is_line(about: u64, answer: Result<Told, Refused>, line: &mut LineBuf, text: &[u8]) -> bool {
    line.clear();
    write_answer(about, &answer, line);
    line.bytes() == text
}

// The answer that an operation was decided so.
fn decided(decision: Decision, position: u64) -> Result<Told, Refused> {
    Ok(Told::Decided(Decided { decision, position }))
}

#[test]
fn each_decision_is_its_line(rt: HostRuntime) -> Result<(), Fail> {
    let mut line = LineBuf::new(rt.alloc())?;
    assert!(rt; is_line(1, decided(Decision::Added, 2), &mut line, b"added 1 at 2\n"));
    assert!(rt; is_line(1, decided(Decision::Taken, 3), &mut line, b"taken 1 at 3\n"));
    assert!(rt;
        is_line(
            9,
            decided(Decision::Deleted, 4),
            &mut line,
            b"deleted 9 at 4\n"
        )
    );
    assert!(rt;
        is_line(
            9,
            decided(Decision::Absent, 0),
            &mut line,
            b"absent 9 at 0\n"
        )
    );
    assert!(rt; is_line(9, decided(Decision::Full, 7), &mut line, b"full at 7\n"));
    Ok(())
}

#[test]
fn each_answer_is_its_line(rt: HostRuntime) -> Result<(), Fail> {
    let mut line = LineBuf::new(rt.alloc())?;
    let opened = Told::Opened {
        query: 3,
        position: 4,
    };
    assert!(rt; is_line(0, Ok(opened), &mut line, b"query 3 at 4\n"));
    assert!(rt;
        is_line(
            2,
            Ok(Told::Advanced { at: 4 }),
            &mut line,
            b"shard 2 at 4\n"
        )
    );
    assert!(rt;
        is_line(
            1,
            Ok(Told::Pinned { left: 0 }),
            &mut line,
            b"pinned 1 left 0\n"
        )
    );
    assert!(rt;
        is_line(
            0,
            Ok(Told::Polled(Polled::Moved)),
            &mut line,
            b"polled moved\n"
        )
    );
    assert!(rt;
        is_line(
            0,
            Ok(Told::Polled(Polled::Full)),
            &mut line,
            b"polled full\n"
        )
    );
    assert!(rt;
        is_line(
            0,
            Ok(Told::Polled(Polled::Ended)),
            &mut line,
            b"polled ended\n"
        )
    );
    assert!(rt; is_line(0, Ok(Told::Held), &mut line, b"polled held\n"));
    let hit = Hit {
        dist: 4,
        key: u64::MAX,
    };
    assert!(rt;
        is_line(
            1,
            Ok(Told::Gave(hit)),
            &mut line,
            b"hit 1 4 18446744073709551615\n"
        )
    );
    assert!(rt; is_line(7, Ok(Told::NotYet), &mut line, b"notyet 7\n"));
    assert!(rt; is_line(7, Ok(Told::Ended { count: 2 }), &mut line, b"end 7 2\n"));
    assert!(rt;
        is_line(
            7,
            Ok(Told::Cancelled { count: 1 }),
            &mut line,
            b"cancelled 7 1\n"
        )
    );
    assert!(rt;
        is_line(
            3,
            Ok(Told::Built { left: 5 }),
            &mut line,
            b"built 3 left 5\n"
        )
    );
    assert!(rt;
        is_line(
            3,
            Ok(Told::Followed { at: 6 }),
            &mut line,
            b"followed 3 at 6\n"
        )
    );
    assert!(rt;
        is_line(
            3,
            Ok(Told::Swapped { at: 8 }),
            &mut line,
            b"swapped 3 at 8\n"
        )
    );
    Ok(())
}

#[test]
fn each_refusal_is_its_line(rt: HostRuntime) -> Result<(), Fail> {
    let mut line = LineBuf::new(rt.alloc())?;
    assert!(rt; is_line(1, Err(Refused::NoShard), &mut line, b"no shard\n"));
    assert!(rt; is_line(1, Err(Refused::NoQuery), &mut line, b"no query\n"));
    assert!(rt; is_line(1, Err(Refused::Closed), &mut line, b"closed\n"));
    assert!(rt; is_line(1, Err(Refused::Many), &mut line, b"many\n"));
    assert!(rt; is_line(1, Err(Refused::Unfronted), &mut line, b"no front\n"));
    assert!(rt; is_line(1, Err(Refused::NotPinned), &mut line, b"no pin\n"));
    assert!(rt; is_line(1, Err(Refused::Building), &mut line, b"has build\n"));
    assert!(rt; is_line(1, Err(Refused::NoBuild), &mut line, b"no build\n"));
    assert!(rt;
        is_line(
            1,
            Err(Refused::Unready { left: 2 }),
            &mut line,
            b"unready 2\n"
        )
    );
    assert!(rt;
        is_line(
            1,
            Err(Refused::Moved { shard_at: 3 }),
            &mut line,
            b"moved 3\n"
        )
    );
    assert!(rt; is_line(1, Err(Refused::NoMemory), &mut line, b"nomem\n"));
    Ok(())
}
