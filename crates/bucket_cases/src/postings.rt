ghost use Rattle.std.specs.Prelude.{◌≡◌, ◌^◌, ◌<◌};

use gph_codes::Code;
use posting_table::Postings;
use read_meter::{Steps, upkeep};
use std::process::Abort;
use std::test::Fail;

// The ledger that these tests count on.
#[derive(Drop)]
pub(crate) struct Reads;

// Inserts an entry under a key that has none in the list of the value, which is asked before.
pub(crate) fn insert_new<const W: usize, R: Abort>(
    rt: &R,
    table: &mut Postings<W>,
    value: u16,
    key: u64,
    code: Code<W>,
)
    requires { value < 2 ^ table.old.width }
    ensures { table.new.width ≡ table.old.width }
{
    let had = table.remove(value, key).expect(rt, "memory to look");
    assert!(rt; !had && table.len(value) < 1_048_576);
    table
        .insert(value, key, code)
        .expect(rt, "memory to insert");
}

// Removes the entry of a key, and compares whether there was one.
pub(crate) fn remove<const W: usize, R: Abort>(
    rt: &R,
    table: &mut Postings<W>,
    value: u16,
    key: u64,
    want: bool,
)
    requires { value < 2 ^ table.old.width }
    ensures { table.new.width ≡ table.old.width }
{
    let had = table.remove(value, key).expect(rt, "memory to remove");
    assert!(rt; had == want, "value {value} key {key}");
}

// Compares the list of a value, in its order, with keys that all have one code.
fn compare<const W: usize, R: Abort>(
    rt: &R,
    table: &Postings<W>,
    value: u16,
    keys: &[u64],
    code: &Code<W>,
    steps: &mut Steps<Reads>,
)
    requires { value < 2 ^ table.now.width }
{
    assert!(rt; table.len(value) as usize == keys.len(), "value {value}");
    for place in 0..keys.len() {
        let entry = table.entry(value, place as u32, steps);
        let is_entry = entry.0 == keys[place] && entry.1 == *code;
        assert!(rt; is_entry, "value {value} place {place}");
    }
}

#[test]
fn entries_come_and_go_one_at_a_time(rt: HostRuntime) -> Result<(), Fail> {
    let mut steps: Steps<Reads> = upkeep(&rt);
    let code: Code<1> = Code::from_hex(8, b"0f")?;
    let mut table = Postings::new(rt.alloc(), 4)?;
    for value in 0..16u16 {
        compare(&rt, &table, value, &[], &code, &mut steps);
    }
    insert_new(&rt, &mut table, 3, 10, code);
    insert_new(&rt, &mut table, 3, 11, code);
    insert_new(&rt, &mut table, 15, 10, code);
    insert_new(&rt, &mut table, 3, 12, code);
    insert_new(&rt, &mut table, 0, u64::MAX, code);
    compare(&rt, &table, 0, &[u64::MAX], &code, &mut steps);
    compare(&rt, &table, 3, &[10, 11, 12], &code, &mut steps);
    compare(&rt, &table, 15, &[10], &code, &mut steps);
    let copy = table.copy()?;
    // the last entry of a list stands in the place of one that is removed
    remove(&rt, &mut table, 3, 9, false);
    remove(&rt, &mut table, 3, 10, true);
    remove(&rt, &mut table, 3, 10, false);
    remove(&rt, &mut table, 14, 10, false);
    compare(&rt, &table, 3, &[12, 11], &code, &mut steps);
    compare(&rt, &table, 15, &[10], &code, &mut steps);
    compare(&rt, &copy, 3, &[10, 11, 12], &code, &mut steps);
    compare(&rt, &copy, 15, &[10], &code, &mut steps);
    Ok(())
}

#[test]
fn a_block_is_a_run_of_a_list(rt: HostRuntime) -> Result<(), Fail> {
    let mut steps: Steps<Reads> = upkeep(&rt);
    let code: Code<1> = Code::from_hex(8, b"0f")?;
    let mut table = Postings::new(rt.alloc(), 4)?;
    insert_new(&rt, &mut table, 3, 10, code);
    insert_new(&rt, &mut table, 3, 11, code);
    insert_new(&rt, &mut table, 3, 12, code);
    insert_new(&rt, &mut table, 3, 13, code);
    assert!(rt; table.len(3) == 4);
    let run = table.block(3, 1, 2, &mut steps);
    assert!(rt; run.len() == 2);
    assert!(rt; run[0].0 == 11 && run[1].0 == 12 && run[1].1 == code);
    assert!(rt; table.block(3, 0, 4, &mut steps).len() == 4);
    assert!(rt; table.block(3, 4, 0, &mut steps).is_empty());
    Ok(())
}
