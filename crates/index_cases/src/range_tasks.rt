ghost use Rattle.std.specs.Prelude.{◌≡◌, ◌≤◌, IfOk};

use crate::plain::after;
use crate::versions::{add, empty};
use gph_codes::Code;
use hamming_model::{Hit, Row, plain_scan};
use hit_source::{HitSource, drain};
use read_meter::{NoMemory, Steps, upkeep};
use search_model::stored_rows_search_alike;
use shard_query::RangeTask;
use shard_version::Version;
use std::alloc::{AllocError, Global};
use std::process::Abort;
use std::sync::Arc;
use std::test::Fail;

// The ledger that these tests count on.
#[derive(Drop)]
struct Reads;

// A hexadecimal digit, in lower case.
fn digit(value: u8) -> u8 {
    if value % 16 < 10 {
        b'0' + value % 16
    } else {
        b'a' + (value % 16 - 10)
    }
}

// The version with these rows: each a key with the eight bits of a byte.
fn version_of<R: Abort>(
    rt: &R,
    alloc: Global,
    parts: u32,
    rows: &[(u64, u8)],
) -> Result<Arc<Version<1>>, NoMemory> {
    let mut version: Version<1> = empty(rt, alloc, 0, 1, 8, parts);
    for row in rows {
        version = add(rt, version, row.0, &[digit(row.1 / 16), digit(row.1)]);
    }
    let Ok(shared) = Arc::new(alloc, version) else {
        return Err(NoMemory);
    };
    Ok(shared)
}

// Opens the query for the eight bits of a byte.
fn open<R: Abort>(
    rt: &R,
    alloc: Global,
    version: &Arc<Version<1>>,
    byte: u8,
    tau: u32,
    room: usize,
) -> Result<RangeTask<1>, NoMemory>
    requires some_room { 1 ≤ room }
    requires small_room { room ≤ 256 }
    ensures { IfOk result (λ task. (⟦<RangeTask<1> as HitSource>⟧.asked task).room ≡ room) }
{
    stored_rows_search_alike();
    let bits = version.layout().bits();
    assert!(rt; bits == 8 && tau <= bits);
    let query = Code::from_hex(bits, &[digit(byte / 16), digit(byte)]).expect(rt, "a code");
    let Ok(shared) = version.clone() else {
        return Err(NoMemory);
    };
    RangeTask::open(alloc, shared, query, tau, room)
}

// What a query answers, with so many hits in the room and such a budget: its hits, and what it read.
fn compare<R: Abort>(
    rt: &R,
    alloc: Global,
    version: &Arc<Version<1>>,
    byte: u8,
    tau: u32,
    room: usize,
    budget: u32,
    steps: &mut Steps<Reads>,
    want: &[Hit],
) -> Result<u64, NoMemory>
    requires some_room { 1 ≤ room }
    requires small_room { room ≤ 256 }
    requires budget { 1 ≤ budget }
{
    let mut task = open(rt, alloc, version, byte, tau, room)?;
    let mut out = Vec::new(alloc);
    drain(&mut task, budget, steps, &mut out)?;
    let is_done = task.floor().is_none() && task.head().is_none();
    let reads = task.reads();
    assert!(rt;
        out.as_slice() == want && is_done && reads == task.bound(None),
        "tau {tau} room {room} budget {budget}"
    );
    Ok(reads)
}

// How many hits the room has, and a budget.
static ROOMS: [(usize, u32); 5] = [(1, 1), (1, 1000), (2, 3), (256, 1), (256, 1000)];

// Compares the plan of a query on the worked rows.
fn compare_plan<R: Abort>(
    rt: &R,
    alloc: Global,
    version: &Arc<Version<1>>,
    tau: u32,
    vector: &[i32],
    least: u64,
) -> Result<(), NoMemory> {
    let mut task = open(rt, alloc, version, 0, tau, 1)?;
    let is_planned = task.plan(None) == least && task.thresholds() == vector && !task.near();
    assert!(rt; is_planned, "tau {tau}");
    Ok(())
}

// Compares the plan, the reads and the hits of a query on the worked rows, in small and large steps.
fn follow<R: Abort>(
    rt: &R,
    alloc: Global,
    version: &Arc<Version<1>>,
    tau: u32,
    steps: &mut Steps<Reads>,
    vector: &[i32],
    least: u64,
    want: &[Hit],
) -> Result<(), NoMemory> {
    compare_plan(rt, alloc, version, tau, vector, least)?;
    for &(room, budget) in &ROOMS {
        let reads = compare(rt, alloc, version, 0, tau, room, budget, steps, want)?;
        assert!(rt; reads == least, "tau {tau} room {room} budget {budget}");
    }
    Ok(())
}

#[test]
fn the_worked_rows_are_answered_by_the_cheapest_vector(rt: HostRuntime) -> Result<(), Fail> {
    let mut steps: Steps<Reads> = upkeep(&rt);
    let alloc = rt.alloc();
    let version = version_of(&rt, alloc, 2, &[(1, 0x00), (2, 0x0f), (3, 0xff), (4, 0x01)])?;
    let all = [
        Hit { dist: 0, key: 1 },
        Hit { dist: 1, key: 4 },
        Hit { dist: 4, key: 2 },
        Hit { dist: 8, key: 3 },
    ];
    follow(&rt, alloc, &version, 0, &mut steps, &[-1, 0], 1, &all[..1])?;
    follow(&rt, alloc, &version, 1, &mut steps, &[-1, 1], 2, &all[..2])?;
    follow(&rt, alloc, &version, 8, &mut steps, &[-1, 8], 4, &all)?;
    let none = version_of(&rt, alloc, 2, &[])?;
    follow(&rt, alloc, &none, 8, &mut steps, &[-1, 8], 0, &[])?;
    Ok(())
}

// A row with the eight bits of a byte, the top one first.
pub(crate) fn plain_row(alloc: Global, key: u64, byte: u8) -> Result<Row, AllocError> {
    let mut code = Vec::new(alloc);
    for place in 0..8u32 {
        code.push((byte >> (7 - place)) % 2)?;
    }
    Ok(Row { key, code })
}

#[test]
fn a_range_is_the_plain_scan_whatever_the_parts_and_the_steps(rt: HostRuntime) -> Result<(), Fail> {
    let mut steps: Steps<Reads> = upkeep(&rt);
    let alloc = rt.alloc();
    let mut rows = Vec::new(alloc);
    let mut plain = Vec::new(alloc);
    let mut seed = 1u64;
    for key in 0..40u64 {
        seed = after(seed);
        let byte = (seed >> 60) as u8 * 17;
        rows.push((key, byte))?;
        plain.push(plain_row(alloc, key, byte)?)?;
    }
    for parts in [1, 2, 3, 8] {
        let version = version_of(&rt, alloc, parts, rows.as_slice())?;
        for tau in 0..9u32 {
            let want = plain_scan(alloc, plain.as_slice(), &[0, 0, 1, 1, 0, 1, 0, 1], tau)?;
            let hits = want.as_slice();
            compare(&rt, alloc, &version, 0x35, tau, 1, 1, &mut steps, hits)?;
            compare(&rt, alloc, &version, 0x35, tau, 7, 5, &mut steps, hits)?;
            compare(&rt, alloc, &version, 0x35, tau, 256, 9999, &mut steps, hits)?;
        }
    }
    Ok(())
}
