ghost use Rattle.std.specs.Prelude.{◌≡◌, ◌^◌, ◌<◌, ◌≤◌};

use crate::postings::{Reads, insert_new, remove};
use gph_codes::Code;
use posting_table::Postings;
use read_meter::{Steps, upkeep};
use std::alloc::Global;
use std::process::Abort;
use std::test::Fail;

// The value of a key: values of one rest share a bucket, and the keys go round them.
fn value_of(width: u32, rest: u16, key: u64) -> u16
    requires { width ≤ 12 }
    ensures { result < 2 ^ width }
{
    ((u64::from(rest) + key % 16 * 256) % (1 << width)) as u16
}

// A table with so many keys from 0 on in one bucket. Even keys have the first code and odd ones the second.
fn filled<R: Abort>(
    rt: &R,
    alloc: Global,
    width: u32,
    rest: u16,
    number: u64,
    codes: &[Code<1>; 2],
) -> Postings<1>
    requires some { 1 ≤ width }
    requires narrow { width ≤ 12 }
    ensures { result.width ≡ width }
{
    let mut table = Postings::new(alloc, width).expect(rt, "memory for lists");
    for key in 0..number {
        let code = codes[key as usize % 2];
        insert_new(rt, &mut table, value_of(width, rest, key), key, code);
    }
    table
}

// Removes the even keys, or the odd ones, and compares whether they were there.
fn remove_each<R: Abort>(
    rt: &R,
    table: &mut Postings<1>,
    width: u32,
    rest: u16,
    number: u64,
    parity: u64,
    want: bool,
)
    requires narrow { width ≤ 12 }
    requires width { table.old.width ≡ width }
    ensures { table.new.width ≡ width }
{
    for key in 0..number {
        if key % 2 == parity {
            remove(rt, table, value_of(width, rest, key), key, want);
        }
    }
}

// Compares the entries of a list: each is of a key with this value, and has its code.
fn compare_list<R: Abort>(
    rt: &R,
    table: &Postings<1>,
    width: u32,
    rest: u16,
    value: u16,
    codes: &[Code<1>; 2],
    steps: &mut Steps<Reads>,
)
    requires narrow { width ≤ 12 }
    requires width { table.now.width ≡ width }
    requires value { value < 2 ^ width }
{
    for place in 0..table.len(value) {
        let (key, code) = table.entry(value, place, steps);
        let is_own = value_of(width, rest, key) == value && code == codes[key as usize % 2];
        assert!(rt; is_own, "value {value} place {place}");
    }
}

// Compares the lists of all values with the entries of so many keys.
fn compare_all<R: Abort>(
    rt: &R,
    table: &Postings<1>,
    width: u32,
    rest: u16,
    number: u64,
    codes: &[Code<1>; 2],
    steps: &mut Steps<Reads>,
)
    requires narrow { width ≤ 12 }
    requires width { table.now.width ≡ width }
{
    let mut total: u64 = 0;
    for value in 0..1u16 << width {
        compare_list(rt, table, width, rest, value, codes, steps);
        total = total.saturating_add(u64::from(table.len(value)));
    }
    assert!(rt; total == number, "{total} entries for {number}");
}

// Fills a bucket that a copy shares. The table loses its even keys and the copy its odd ones, and then each the others.
fn change_apart<R: Abort>(
    rt: &R,
    alloc: Global,
    width: u32,
    rest: u16,
    number: u64,
    codes: &[Code<1>; 2],
    steps: &mut Steps<Reads>,
) {
    assert!(rt; 1 <= width && width <= 12);
    let mut table = filled(rt, alloc, width, rest, number, codes);
    compare_all(rt, &table, width, rest, number, codes, steps);
    let mut copy = table.copy().expect(rt, "memory for a copy");
    remove_each(rt, &mut table, width, rest, number, 0, true);
    compare_all(rt, &copy, width, rest, number, codes, steps);
    remove_each(rt, &mut copy, width, rest, number, 1, true);
    remove_each(rt, &mut table, width, rest, number, 0, false);
    remove_each(rt, &mut copy, width, rest, number, 1, false);
    compare_all(rt, &table, width, rest, number / 2, codes, steps);
    compare_all(rt, &copy, width, rest, number - number / 2, codes, steps);
    remove_each(rt, &mut table, width, rest, number, 1, true);
    compare_all(rt, &table, width, rest, 0, codes, steps);
    compare_all(rt, &copy, width, rest, number - number / 2, codes, steps);
    remove_each(rt, &mut copy, width, rest, number, 0, true);
    compare_all(rt, &copy, width, rest, 0, codes, steps);
}

// A part's width, and the rest of the values that are filled.
static BUCKETS: [(u32, u16); 6] = [(1, 0), (1, 1), (8, 77), (9, 255), (12, 0), (12, 3)];

#[test]
fn tables_that_share_a_full_bucket_change_apart(rt: HostRuntime) -> Result<(), Fail> {
    let mut steps: Steps<Reads> = upkeep(&rt);
    let codes = [Code::from_hex(8, b"0f")?, Code::from_hex(8, b"f1")?];
    for &(width, rest) in &BUCKETS {
        for number in 255..258u64 {
            change_apart(&rt, rt.alloc(), width, rest, number, &codes, &mut steps);
        }
    }
    Ok(())
}
