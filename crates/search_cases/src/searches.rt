ghost use Rattle.std.specs.Prelude.{◌≡◌};
ghost use Rattle.layout_search.specs.Improves.{IsSmallSample};

use entry_log::{Entry, Op};
use gph_codes::Code;
use hamming_model::ENTRIES_MOST;
use layout_search::{Found, Sample, improve};
use part_layout::Layout;
use read_meter::{Steps, upkeep};
use search_model::stored_rows_search_alike;
use shard_version::Version;
use std::alloc::Global;
use std::process::Abort;
use std::sync::Arc;
use std::test::Fail;

// The ledger that these tests count on.
#[derive(Drop)]
struct Reads;

// The version of the one shard of 8 bits before any entry, in the layout of a text.
fn empty<R: Abort>(rt: &R, alloc: Global, layout: &str) -> Version<1>
    ensures { result.contents.layout.bits ≡ 8 }
{
    let layout = Layout::parse(alloc, 8, layout.as_bytes()).expect(rt, "a layout");
    let shared = Arc::new(alloc, layout).expect(rt, "memory for a layout");
    Version::empty(alloc, 0, 1, shared).expect(rt, "memory for no rows")
}

// The version after an entry that adds a row, where its key has none.
fn add<R: Abort>(rt: &R, version: Version<1>, key: u64, text: &str) -> Version<1> {
    stored_rows_search_alike();
    let bits = version.layout().bits();
    assert!(rt; bits == 8);
    let code = Code::from_hex(8, text.as_bytes()).expect(rt, "a code");
    assert!(rt; version.at() < u64::MAX && version.rows() < ENTRIES_MOST && !version.has_key(key));
    let entry = Entry {
        who: 7,
        op: Op::Add { key, code },
    };
    version.apply(&entry).expect(rt, "memory for a row")
}

// The four worked rows, in the layout of a text.
fn worked<R: Abort>(rt: &R, alloc: Global, layout: &str) -> Version<1> {
    let mut version = empty(rt, alloc, layout);
    version = add(rt, version, 1, "00");
    version = add(rt, version, 2, "0f");
    version = add(rt, version, 3, "ff");
    add(rt, version, 4, "01")
}

// A sample of a code of 8 bits.
fn sample<R: Abort>(rt: &R, text: &str, tau: u32) -> Sample<1>
    ensures { IsSmallSample 8 result }
{
    stored_rows_search_alike();
    assert!(rt; tau <= 16);
    let Ok(query) = Code::from_hex(8, text.as_bytes()) else {
        panic!(rt; "no code");
    };
    Sample { query, tau }
}

// What a search of 8 rounds finds for the range of a radius round one code.
fn search<R: Abort>(
    rt: &R,
    alloc: Global,
    version: &Version<1>,
    text: &str,
    tau: u32,
    steps: &mut Steps<Reads>,
) -> Found {
    assert!(rt; version.layout().bits() == 8);
    let samples = [sample(rt, text, tau)];
    improve(alloc, version, &samples, 8, steps).expect(rt, "memory for a search")
}

// Compares the costs before and after, the number of exchanges, and the layout.
fn compare<R: Abort>(rt: &R, found: &Found, before: u64, after: u64, swaps: u32, layout: &str) {
    assert!(rt; found.before == before && found.after == after && found.swaps == swaps);
    assert!(rt; found.layout.text().bytes() == layout.as_bytes());
}

// The exchanges before the one that is made cost as much as the layout before: the first of them, of positions 0 and 3,
// leaves the code 0f at the distances 1 and 3.
#[test]
fn the_worked_layout_is_found(rt: HostRuntime) -> Result<(), Fail> {
    let mut steps: Steps<Reads> = upkeep(&rt);
    let version = worked(&rt, rt.alloc(), "0,1,2,4/3,5,6,7");
    let found = search(&rt, rt.alloc(), &version, "00", 3, &mut steps);
    compare(&rt, &found, 3, 2, 1, "0,1,2,3/4,5,6,7");
    Ok(())
}

// Of the code 0f the last part has 3 positions before, and 4 after: all 4 units at that part then read 2 rows. No exchange of the
// first two parts moves it.
#[test]
fn the_exchange_may_be_of_the_last_two_parts(rt: HostRuntime) -> Result<(), Fail> {
    let mut steps: Steps<Reads> = upkeep(&rt);
    let version = worked(&rt, rt.alloc(), "0,1/2,4/3,7,5,6");
    let found = search(&rt, rt.alloc(), &version, "00", 3, &mut steps);
    compare(&rt, &found, 3, 2, 1, "0,1/2,3/4,7,5,6");
    Ok(())
}

#[test]
fn one_part_has_no_exchange(rt: HostRuntime) -> Result<(), Fail> {
    let mut steps: Steps<Reads> = upkeep(&rt);
    let version = worked(&rt, rt.alloc(), "7,6,5,4,3,2,1,0");
    let same = search(&rt, rt.alloc(), &version, "00", 3, &mut steps);
    compare(&rt, &same, 2, 2, 0, "7,6,5,4,3,2,1,0");
    Ok(())
}

#[test]
fn samples_decide_what_is_found(rt: HostRuntime) -> Result<(), Fail> {
    let mut steps: Steps<Reads> = upkeep(&rt);
    let version = worked(&rt, rt.alloc(), "0,1,2,4/3,5,6,7");
    assert!(&rt; version.layout().bits() == 8);
    let none = improve(rt.alloc(), &version, &[], 8, &mut steps).expect(&rt, "memory for a search");
    compare(&rt, &none, 0, 0, 0, "0,1,2,4/3,5,6,7");
    let no_rows = empty(&rt, rt.alloc(), "0,1/2,3/4,5/6,7");
    let nothing = search(&rt, rt.alloc(), &no_rows, "00", 0, &mut steps);
    compare(&rt, &nothing, 0, 0, 0, "0,1/2,3/4,5/6,7");
    Ok(())
}

#[test]
fn a_search_reads_the_64_rows_of_least_key(rt: HostRuntime) -> Result<(), Fail> {
    let mut steps: Steps<Reads> = upkeep(&rt);
    let mut version = empty(&rt, rt.alloc(), "0,1,2,3/4,5,6,7");
    for key in 0..66u64 {
        version = add(&rt, version, key, "00");
    }
    let found = search(&rt, rt.alloc(), &version, "00", 0, &mut steps);
    compare(&rt, &found, 64, 64, 0, "0,1,2,3/4,5,6,7");
    Ok(())
}
