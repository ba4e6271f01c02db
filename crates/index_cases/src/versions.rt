ghost use Rattle.std.specs.Prelude.{◌≡◌, ◌*◌, ◌^◌, ◌<◌, ◌≤◌, length};
ghost use Rattle.part_layout.specs.Laid.{IsCodeSize, part_at};

use crate::plain::differences;
use count_table::changes_follow_a_list;
use entry_log::{Entry, Op};
use gph_codes::Code;
use hamming_model::ENTRIES_MOST;
use part_layout::Layout;
use read_meter::{Steps, upkeep};
use search_model::stored_rows_search_alike;
use shard_version::Version;
use std::alloc::Global;
use std::process::Abort;
use std::sync::Arc;
use std::test::Fail;

// The ledger that these tests count on.
#[derive(Drop)]
struct Reads;

// The version of a shard before any entry.
pub(crate) fn empty<const W: usize, R: Abort>(
    rt: &R,
    alloc: Global,
    shard: u32,
    shards: u32,
    bits: u32,
    parts: u32,
) -> Version<W>
    requires few_words { W ≤ 8 }
    requires bits { IsCodeSize bits }
{
    assert!(rt; shard < shards && shards <= 16 && bits as usize <= 64 * W);
    let layout = Layout::contiguous(alloc, bits, parts).expect(rt, "a layout");
    let shared = Arc::new(alloc, layout).expect(rt, "memory for a layout");
    Version::empty(alloc, shard, shards, shared).expect(rt, "memory for no rows")
}

// The version after an entry that adds a row, where its key has none.
pub(crate) fn add<const W: usize, R: Abort>(
    rt: &R,
    version: Version<W>,
    key: u64,
    text: &[u8],
) -> Version<W>
    requires few_words { W ≤ 8 }
{
    stored_rows_search_alike();
    let bits = version.layout().bits();
    assert!(rt; bits as usize <= 64 * W);
    let code = Code::from_hex(bits, text).expect(rt, "a code");
    assert!(rt; version.at() < u64::MAX && version.rows() < ENTRIES_MOST && !version.has_key(key));
    let entry = Entry {
        who: 7,
        op: Op::Add { key, code },
    };
    version.apply(&entry).expect(rt, "memory for a row")
}

// The version after an entry that deletes a row, of the version or of another shard.
fn delete<const W: usize, R: Abort>(rt: &R, version: Version<W>, key: u64) -> Version<W>
    requires few_words { W ≤ 8 }
{
    assert!(rt; version.at() < u64::MAX);
    let own = key % u64::from(version.shards()) == u64::from(version.shard());
    assert!(rt; !own || version.has_key(key));
    let entry: Entry<W> = Entry {
        who: 7,
        op: Op::Delete { key },
    };
    version.apply(&entry).expect(rt, "memory to delete")
}

// Of how many rows the values at a part are nearer to this one than so many units: each row is looked at.
fn plain_count<const W: usize>(
    layout: &Layout,
    part: u32,
    value: u16,
    units: usize,
    rows: &[(u64, Code<W>)],
) -> usize
    requires part { part < length layout.now.parts }
    requires room { layout.now.bits ≤ 64 * W }
{
    let mut near: usize = 0;
    for row in rows {
        if differences(value, layout.value(&row.1, part)) < units {
            near = near.saturating_add(1);
        }
    }
    near
}

// Compares the list of a value of a part, and the counts round it, with what the rows have.
fn compare_value<const W: usize, R: Abort>(
    rt: &R,
    version: &Version<W>,
    part: u32,
    value: u16,
    rows: &[(u64, Code<W>)],
)
    requires few_words { W ≤ 8 }
    requires part { part < length version.now.contents.layout.parts }
    requires value { value < 2 ^ length (part_at version.now.contents.layout part) }
    requires room { version.now.contents.layout.bits ≤ 64 * W }
{
    changes_follow_a_list();
    let list = version.postings(part).len(value) as usize;
    let layout = version.layout();
    let is_listed = list == plain_count(layout, part, value, 1, rows);
    assert!(rt; is_listed, "part {part} value {value}");
    for units in 0..14usize {
        let near = version.counts(part).within(value, units as i32 - 1) as usize;
        let want = plain_count(layout, part, value, units, rows);
        assert!(rt; near == want, "part {part} value {value} units {units}");
    }
}

// Compares a version with its position and its rows: their keys, in order, each with a text.
fn compare<const W: usize, R: Abort>(rt: &R, version: &Version<W>, at: u64, rows: &[(u64, Code<W>)])
    requires few_words { W ≤ 8 }
{
    assert!(rt; version.at() == at && version.rows() as usize == rows.len());
    for key in 0..40u64 {
        let want = rows.iter().any(|row: &(u64, Code<W>)| row.0 == key);
        assert!(rt; version.has_key(key) == want, "key {key}");
    }
    let layout = version.layout();
    assert!(rt; layout.bits() as usize <= 64 * W);
    for part in 0..layout.parts() {
        for value in 0..1u16 << layout.width(part) {
            compare_value(rt, version, part, value, rows);
        }
    }
}

// Compares the first rows, and the steps that they took, with those of a list.
fn compare_first<const W: usize, R: Abort>(
    rt: &R,
    version: &Version<W>,
    n: u32,
    want: &[(u64, Code<W>)],
    steps: &mut Steps<Reads>,
) {
    let rows = version.first_rows(n, steps).expect(rt, "memory for rows");
    assert!(rt; rows.len() == want.len(), "{n} rows");
    for place in 0..want.len() {
        let is_row = rows[place].0 == want[place].0 && rows[place].1 == want[place].1;
        assert!(rt; is_row, "place {place}");
    }
}

#[test]
fn rows_come_and_go_with_their_entries(rt: HostRuntime) -> Result<(), Fail> {
    let low: Code<1> = Code::from_hex(8, b"0f")?;
    let high: Code<1> = Code::from_hex(8, b"f1")?;
    let mut version = empty(&rt, rt.alloc(), 0, 1, 8, 3);
    compare(&rt, &version, 0, &[]);
    version = add(&rt, version, 9, b"0f");
    compare(&rt, &version, 1, &[(9, low)]);
    version = add(&rt, version, 3, b"f1");
    compare(&rt, &version, 2, &[(3, high), (9, low)]);
    version = add(&rt, version, 30, b"0f");
    compare(&rt, &version, 3, &[(3, high), (9, low), (30, low)]);
    version = delete(&rt, version, 9);
    compare(&rt, &version, 4, &[(3, high), (30, low)]);
    version = add(&rt, version, 9, b"f1");
    compare(&rt, &version, 5, &[(3, high), (9, high), (30, low)]);
    version = delete(&rt, version, 3);
    version = delete(&rt, version, 30);
    version = delete(&rt, version, 9);
    compare(&rt, &version, 8, &[]);
    Ok(())
}

#[test]
fn entries_of_another_shard_are_counted_alone(rt: HostRuntime) -> Result<(), Fail> {
    let code: Code<2> = Code::from_hex(120, b"0123456789abcdef0123456789abcd")?;
    let text = b"0123456789abcdef0123456789abcd";
    let mut version = empty(&rt, rt.alloc(), 1, 4, 120, 20);
    assert!(rt; version.shard() == 1 && version.shards() == 4);
    version = add(&rt, version, 4, text);
    version = add(&rt, version, 5, text);
    version = add(&rt, version, 6, text);
    compare(&rt, &version, 3, &[(5, code)]);
    version = delete(&rt, version, 6);
    version = delete(&rt, version, 4);
    compare(&rt, &version, 5, &[(5, code)]);
    version = delete(&rt, version, 5);
    compare(&rt, &version, 6, &[]);
    Ok(())
}

#[test]
fn a_copy_is_a_version_of_its_own(rt: HostRuntime) -> Result<(), Fail> {
    let one: Code<1> = Code::from_hex(16, b"00ff")?;
    let other: Code<1> = Code::from_hex(16, b"ff00")?;
    let mut version = empty(&rt, rt.alloc(), 0, 1, 16, 4);
    version = add(&rt, version, 2, b"00ff");
    let mut copy = version.copy()?;
    compare(&rt, &copy, 1, &[(2, one)]);
    copy = add(&rt, copy, 1, b"ff00");
    compare(&rt, &version, 1, &[(2, one)]);
    version = delete(&rt, version, 2);
    compare(&rt, &copy, 2, &[(1, other), (2, one)]);
    compare(&rt, &version, 2, &[]);
    Ok(())
}

#[test]
fn the_first_rows_are_those_of_least_key(rt: HostRuntime) -> Result<(), Fail> {
    let mut steps: Steps<Reads> = upkeep(&rt);
    let low: Code<1> = Code::from_hex(8, b"0f")?;
    let high: Code<1> = Code::from_hex(8, b"f1")?;
    let mut version = empty(&rt, rt.alloc(), 0, 1, 8, 1);
    compare_first(&rt, &version, 2, &[], &mut steps);
    version = add(&rt, version, u64::MAX, b"0f");
    version = add(&rt, version, 5, b"f1");
    version = add(&rt, version, 0, b"0f");
    compare_first(&rt, &version, 0, &[], &mut steps);
    compare_first(&rt, &version, 2, &[(0, low), (5, high)], &mut steps);
    compare_first(
        &rt,
        &version,
        u32::MAX,
        &[(0, low), (5, high), (u64::MAX, low)],
        &mut steps,
    );
    Ok(())
}

#[test]
fn rows_of_one_bucket_and_of_others_come_by_key(rt: HostRuntime) -> Result<(), Fail> {
    let mut steps: Steps<Reads> = upkeep(&rt);
    let code: Code<1> = Code::from_hex(8, b"0f")?;
    let mut version = empty(&rt, rt.alloc(), 0, 1, 8, 1);
    version = add(&rt, version, 513, b"0f");
    version = add(&rt, version, 257, b"0f");
    version = add(&rt, version, 256, b"0f");
    version = add(&rt, version, 1, b"0f");
    version = delete(&rt, version, 257);
    let rows = [(1, code), (256, code), (513, code)];
    compare_first(&rt, &version, 9, &rows, &mut steps);
    Ok(())
}
