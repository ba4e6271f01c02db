ghost use Rattle.std.specs.Prelude.{◌<◌, length};

use crate::postings::Reads;
use count_table::changes_follow_a_list;
use entry_log::{Entry, Op};
use gph_codes::Code;
use hamming_model::ENTRIES_MOST;
use part_layout::Layout;
use read_meter::{Steps, upkeep};
use search_model::stored_rows_search_alike;
use shard_version::Version;
use std::alloc::{AllocError, Global};
use std::process::Abort;
use std::sync::Arc;
use std::test::Fail;

// Codes of 24 bits, whose values at two parts of 12 bits share a bucket of each.
static CODES: [[u8; 6]; 4] = [*b"003003", *b"103f03", *b"f03203", *b"a03a03"];

// The code of a number.
fn text_of(number: u64) -> &'static [u8] {
    &CODES[number as usize % 4]
}

// The key of a number: these keys share a bucket.
fn key_of(number: u64) -> u64 {
    number.wrapping_mul(256).wrapping_add(5)
}

// The version after an entry that adds the row of a number, with the code of another.
fn add<R: Abort>(rt: &R, version: Version<1>, number: u64, coded: u64) -> Version<1> {
    stored_rows_search_alike();
    let (key, bits) = (key_of(number), version.layout().bits());
    assert!(rt; bits <= 64);
    let code = Code::from_hex(bits, text_of(coded)).expect(rt, "a code");
    assert!(rt; version.at() < u64::MAX && version.rows() < ENTRIES_MOST && !version.has_key(key));
    let entry = Entry {
        who: 7,
        op: Op::Add { key, code },
    };
    version.apply(&entry).expect(rt, "memory for a row")
}

// The version after entries that add the rows of so many numbers from 0 on.
fn filled<R: Abort>(rt: &R, alloc: Global, parts: u32, number: u64) -> Version<1> {
    let layout = Layout::contiguous(alloc, 24, parts).expect(rt, "a layout");
    let shared = Arc::new(alloc, layout).expect(rt, "memory for a layout");
    let mut version = Version::empty(alloc, 0, 1, shared).expect(rt, "memory for no rows");
    for each in 0..number {
        version = add(rt, version, each, each);
    }
    version
}

// The version after the deletions of the rows of all even numbers, or of all odd ones.
fn delete_each<R: Abort>(rt: &R, version: Version<1>, number: u64, parity: u64) -> Version<1> {
    let mut left = version;
    for each in 0..number {
        let key = key_of(each);
        if each % 2 == parity && left.has_key(key) {
            assert!(rt; left.at() < u64::MAX);
            let entry: Entry<1> = Entry {
                who: 7,
                op: Op::Delete { key },
            };
            left = left.apply(&entry).expect(rt, "memory to delete");
        }
    }
    left
}

// The rows of all even numbers, or of all odd ones, and of this one, with the code of the next.
fn rows_of<R: Abort>(
    rt: &R,
    alloc: Global,
    number: u64,
    parity: u64,
    again: u64,
) -> Result<Vec<(u64, Code<1>)>, AllocError> {
    let mut rows = Vec::new(alloc);
    for each in 0..number {
        if each % 2 == parity || each == again {
            let coded = if each == again { each + 1 } else { each };
            let code = Code::from_hex(24, text_of(coded)).expect(rt, "a code");
            rows.push((key_of(each), code))?;
        }
    }
    Ok(rows)
}

// Compares the rows in the order of their keys.
fn compare_rows<R: Abort>(
    rt: &R,
    version: &Version<1>,
    rows: &[(u64, Code<1>)],
    steps: &mut Steps<Reads>,
) {
    let first = version
        .first_rows(u32::MAX, steps)
        .expect(rt, "memory for rows");
    assert!(rt; version.rows() as usize == rows.len() && first.len() == rows.len());
    for place in 0..rows.len() {
        let is_row = first[place].0 == rows[place].0 && first[place].1 == rows[place].1;
        assert!(rt; is_row && version.has_key(rows[place].0), "place {place}");
    }
}

// Whether the list of a row's value at a part has the row.
fn is_listed<R: Abort>(
    rt: &R,
    version: &Version<1>,
    part: u32,
    row: &(u64, Code<1>),
    steps: &mut Steps<Reads>,
) -> bool
    requires { part < length version.now.contents.layout.parts }
{
    assert!(rt; version.layout().bits() == 24);
    let value = version.layout().value(&row.1, part);
    let postings = version.postings(part);
    for place in 0..postings.len(value) {
        let entry = postings.entry(value, place, steps);
        if entry.0 == row.0 && entry.1 == row.1 {
            return true;
        }
    }
    false
}

// Compares the lists of a part with rows: each row is in one, there are no more, and the counts are their lengths.
fn compare_part<R: Abort>(
    rt: &R,
    version: &Version<1>,
    part: u32,
    rows: &[(u64, Code<1>)],
    steps: &mut Steps<Reads>,
)
    requires { part < length version.now.contents.layout.parts }
{
    changes_follow_a_list();
    for row in rows {
        assert!(rt;
            is_listed(rt, version, part, row, steps),
            "part {part} key {}",
            row.0
        );
    }
    let mut total: usize = 0;
    for value in 0..1u16 << version.layout().width(part) {
        let listed = version.postings(part).len(value);
        assert!(rt;
            version.counts(part).within(value, 0) == listed,
            "part {part} value {value}"
        );
        total = total.saturating_add(listed as usize);
    }
    assert!(rt; total == rows.len(), "part {part}");
}

// Compares a version with its rows.
fn compare<R: Abort>(
    rt: &R,
    version: &Version<1>,
    rows: &[(u64, Code<1>)],
    steps: &mut Steps<Reads>,
) {
    compare_rows(rt, version, rows, steps);
    for part in 0..version.layout().parts() {
        compare_part(rt, version, part, rows, steps);
    }
}

// Fills a bucket that a copy shares. The version loses the even rows and the copy the odd ones, and each takes one of them again
// with another code. Then the version loses all.
fn change_apart<R: Abort>(
    rt: &R,
    alloc: Global,
    parts: u32,
    number: u64,
    steps: &mut Steps<Reads>,
) -> Result<(), AllocError> {
    let mut version = filled(rt, alloc, parts, number);
    let mut copy = version.copy().expect(rt, "memory for a copy");
    version = add(rt, delete_each(rt, version, number, 0), 0, 1);
    copy = add(rt, delete_each(rt, copy, number, 1), 1, 2);
    let even = rows_of(rt, alloc, number, 0, 1)?;
    compare(rt, &version, &rows_of(rt, alloc, number, 1, 0)?, steps);
    compare(rt, &copy, &even, steps);
    version = delete_each(rt, delete_each(rt, version, number, 0), number, 1);
    compare(rt, &version, &[], steps);
    compare(rt, &copy, &even, steps);
    Ok(())
}

// The number of parts, and how many rows one bucket has.
static FILLINGS: [(u32, u64); 4] = [(2, 255), (2, 256), (2, 257), (24, 257)];

#[test]
fn versions_that_share_a_full_bucket_change_apart(rt: HostRuntime) -> Result<(), Fail> {
    let mut steps: Steps<Reads> = upkeep(&rt);
    for &(parts, number) in &FILLINGS {
        change_apart(&rt, rt.alloc(), parts, number, &mut steps)?;
    }
    Ok(())
}
