use entry_log::{Decision, Entry, Op, decide};
use gph_codes::Code;
use std::process::Abort;
use std::test::Fail;

// The entries that stand and the limit, where there is room, and where there is none.
static ROOMY: [(u64, u64); 3] = [(0, 1), (1_048_575, 1_048_576), (u64::MAX - 1, u64::MAX)];

static FULL: [(u64, u64); 6] = [
    (0, 0),
    (1, 1),
    (2, 1),
    (1_048_576, 1_048_576),
    (u64::MAX, u64::MAX),
    (u64::MAX, 0),
];

// Compares the decisions on an operation, whose key has a row or none, with room and without.
fn compare<R: Abort>(rt: &R, op: &Op<1>, present: bool, roomy: Decision, full: Decision) {
    for &(entries, limit) in &ROOMY {
        let is_decided = decide(op, present, entries, limit) == roomy;
        assert!(rt; is_decided, "{present} {entries} {limit}");
    }
    for &(entries, limit) in &FULL {
        let is_decided = decide(op, present, entries, limit) == full;
        assert!(rt; is_decided, "{present} {entries} {limit}");
    }
}

#[test]
fn taken_and_absent_come_before_full(rt: HostRuntime) -> Result<(), Fail> {
    let code: Code<1> = Code::from_hex(8, b"0f")?;
    let add = Op::Add { key: 7, code };
    compare(&rt, &add, false, Decision::Added, Decision::Full);
    compare(&rt, &add, true, Decision::Taken, Decision::Taken);
    let delete = Op::Delete { key: 7 };
    compare(&rt, &delete, false, Decision::Absent, Decision::Absent);
    compare(&rt, &delete, true, Decision::Deleted, Decision::Full);
    Ok(())
}

// An entry that adds a row.
fn adds(who: u32, key: u64, code: Code<1>) -> Entry<1> {
    Entry {
        who,
        op: Op::Add { key, code },
    }
}

#[test]
fn entries_are_equal_where_who_and_operation_are(rt: HostRuntime) -> Result<(), Fail> {
    let code: Code<1> = Code::from_hex(8, b"0f")?;
    let other: Code<1> = Code::from_hex(8, b"0e")?;
    let entry = adds(1, 7, code);
    assert!(rt; entry == adds(1, 7, code));
    assert!(rt; entry != adds(2, 7, code));
    assert!(rt; entry != adds(1, 8, code));
    assert!(rt; entry != adds(1, 7, other));
    let delete = Entry {
        who: 1,
        op: Op::Delete { key: 7 },
    };
    assert!(rt; entry != delete);
    Ok(())
}
