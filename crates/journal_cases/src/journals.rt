ghost use Rattle.commit_journal.specs.Journals.{IsLive};

use commit_journal::{Decided, Front, Journal};
use entry_log::{Decision, Op};
use gph_codes::Code;
use read_meter::{Steps, upkeep};
use std::process::Abort;
use std::test::Fail;

// The ledger that these tests count on.
#[derive(Drop)]
struct Reads;

// Commits an operation, and compares what became of it.
fn commit<R: Abort>(
    rt: &R,
    journal: &mut Journal<1>,
    who: u32,
    op: Op<1>,
    decision: Decision,
    position: u64,
) {
    let decided = journal.commit(who, op).expect(rt, "memory for an entry");
    let is_decided = decided == Decided { decision, position };
    assert!(rt; is_decided, "{position}");
}

#[test]
fn a_journal_decides_and_tells_its_rows(rt: HostRuntime) -> Result<(), Fail> {
    let code: Code<1> = Code::from_hex(8, b"0f")?;
    let add = Op::Add { key: 7, code };
    let delete = Op::Delete { key: 7 };
    let mut journal: Journal<1> = Journal::new(rt.alloc(), 2).expect(&rt, "memory");
    let first = journal.enter();
    let second = journal.enter();
    assert!(rt; first == Some(0) && second == Some(1));
    commit(&rt, &mut journal, 0, delete, Decision::Absent, 0);
    commit(&rt, &mut journal, 0, add, Decision::Added, 1);
    commit(&rt, &mut journal, 1, add, Decision::Taken, 1);
    let found = journal.code_of(7);
    assert!(rt; found == Some(code));
    commit(&rt, &mut journal, 1, delete, Decision::Deleted, 2);
    let gone = journal.code_of(7);
    assert!(rt; gone.is_none() && journal.length() == 2);
    commit(&rt, &mut journal, 1, add, Decision::Full, 2);
    Ok(())
}

// Opens a front, and compares its position and the older ones.
fn open<R: Abort>(rt: &R, journal: &mut Journal<1>, position: u64, older: &[u64]) -> Front<1>
    ensures { IsLive journal.new result }
{
    let front = journal.open_front(0).expect(rt, "memory for a front");
    let is_there = front.position() == position && front.older() == older;
    assert!(rt; is_there, "{position}");
    front
}

#[test]
fn a_front_lists_the_older_live_fronts(rt: HostRuntime) -> Result<(), Fail> {
    let code: Code<1> = Code::from_hex(8, b"0f")?;
    let mut journal: Journal<1> = Journal::new(rt.alloc(), 9).expect(&rt, "memory");
    let _first = open(&rt, &mut journal, 0, &[]);
    commit(
        &rt,
        &mut journal,
        0,
        Op::Add { key: 1, code },
        Decision::Added,
        1,
    );
    let _second = open(&rt, &mut journal, 1, &[0]);
    let _third = open(&rt, &mut journal, 1, &[0]);
    commit(
        &rt,
        &mut journal,
        0,
        Op::Delete { key: 1 },
        Decision::Deleted,
        2,
    );
    let fourth = open(&rt, &mut journal, 2, &[0, 1]);
    journal.close_front(fourth);
    commit(
        &rt,
        &mut journal,
        0,
        Op::Add { key: 1, code },
        Decision::Added,
        3,
    );
    let _fifth = open(&rt, &mut journal, 3, &[0, 1]);
    Ok(())
}

// Adds rows with the keys from the first on.
fn fill<R: Abort>(rt: &R, journal: &mut Journal<1>, code: Code<1>, first: u64, last: u64) {
    for key in first..last {
        commit(rt, journal, 0, Op::Add { key, code }, Decision::Added, key);
    }
}

#[test]
fn a_front_keeps_its_entries(rt: HostRuntime) -> Result<(), Fail> {
    let code: Code<1> = Code::from_hex(8, b"0f")?;
    let mut journal: Journal<1> = Journal::new(rt.alloc(), 2_000).expect(&rt, "memory");
    fill(&rt, &mut journal, code, 1, 301);
    let front = open(&rt, &mut journal, 300, &[]);
    fill(&rt, &mut journal, code, 301, 801);
    let whole = open(&rt, &mut journal, 800, &[300]);
    let mut steps: Steps<Reads> = upkeep(&rt);
    for front in [&front, &whole] {
        for place in [0, 255, 256, 299] {
            assert!(rt; front.position() >= 300);
            let entry = front.entry(place, &mut steps);
            assert!(rt; entry.op.key() == place + 1);
        }
    }
    Ok(())
}
