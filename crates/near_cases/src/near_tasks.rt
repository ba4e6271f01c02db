ghost use Rattle.std.specs.Prelude.{◌≡◌, ◌≤◌, IfOk};

use crate::rows::{after, digit, plain_row, version_of};
use gph_codes::Code;
use hamming_model::{Hit, plain_scan};
use hit_source::{HitSource, drain, take_waiting};
use knn_task::NearTask;
use read_meter::{NoMemory, Steps, upkeep};
use search_model::stored_rows_search_alike;
use shard_version::Version;
use std::alloc::Global;
use std::process::Abort;
use std::sync::Arc;
use std::test::Fail;

// The ledger that these tests count on.
#[derive(Drop)]
struct Reads;

// Opens the near query for the eight bits of a byte.
fn open<R: Abort>(
    rt: &R,
    alloc: Global,
    version: &Arc<Version<1>>,
    byte: u8,
    room: usize,
) -> Result<NearTask<1>, NoMemory>
    requires some_room { 1 ≤ room }
    requires small_room { room ≤ 256 }
    ensures room { IfOk result (λ task. (⟦<NearTask<1> as HitSource>⟧.asked task).room ≡ room) }
    ensures bits { IfOk result (λ task. (⟦<NearTask<1> as HitSource>⟧.asked task).farthest ≡ 8) }
{
    stored_rows_search_alike();
    let bits = version.layout().bits();
    assert!(rt; bits == 8);
    let query = Code::from_hex(bits, &[digit(byte / 16), digit(byte)]).expect(rt, "a code");
    let Ok(shared) = version.clone() else {
        return Err(NoMemory);
    };
    NearTask::open(alloc, shared, query, room)
}

// Whether draining a source gives these hits, and it is a near query that has ended then.
fn gives<H: HitSource>(
    task: &mut H,
    budget: u32,
    steps: &mut Steps<Reads>,
    out: &mut Vec<Hit>,
    want: &[Hit],
) -> Result<bool, NoMemory>
    requires budget { 1 ≤ budget }
    requires some_room { 1 ≤ (H.asked task.old).room }
{
    drain(task, budget, steps, out)?;
    let is_done = task.floor().is_none() && task.head().is_none();
    let is_near = task.near() && task.rows() == want.len() as u64;
    Ok(out.as_slice() == want && is_done && is_near)
}

// Compares the hits of a query, with so many hits in the room and such a budget.
fn compare<R: Abort>(
    rt: &R,
    alloc: Global,
    version: &Arc<Version<1>>,
    byte: u8,
    room: usize,
    budget: u32,
    steps: &mut Steps<Reads>,
    want: &[Hit],
) -> Result<(), NoMemory>
    requires some_room { 1 ≤ room }
    requires small_room { room ≤ 256 }
    requires budget { 1 ≤ budget }
{
    let mut task = open(rt, alloc, version, byte, room)?;
    let mut out = Vec::new(alloc);
    let is_given = gives(&mut task, budget, steps, &mut out, want)?;
    assert!(rt; is_given, "room {room} budget {budget}");
    Ok(())
}

// Polls a source of hits within 8 to its end, with no hit left waiting before a poll: what it has read is then at most
// the bound for the floor before the poll.
fn follow_bound<R: Abort, H: HitSource>(
    rt: &R,
    task: &mut H,
    steps: &mut Steps<Reads>,
    out: &mut Vec<Hit>,
) -> Result<u64, NoMemory>
    requires { (H.asked task.old).farthest ≡ 8 }
{
    for _turn in 0..1000u32 {
        take_waiting(task, out)?;
        let Some(floor) = task.floor() else {
            return Ok(task.reads());
        };
        assert!(rt; floor <= 8);
        task.poll(100, steps);
        let bound = task.bound(Some(floor));
        assert!(rt; task.reads() <= bound, "floor {floor}");
    }
    panic!(rt; "a near query ends")
}

// Polls a near query to its end, and gives what it has read.
fn bound_reads<R: Abort>(
    rt: &R,
    alloc: Global,
    version: &Arc<Version<1>>,
    byte: u8,
    steps: &mut Steps<Reads>,
) -> Result<u64, NoMemory> {
    let mut task = open(rt, alloc, version, byte, 256)?;
    let mut out = Vec::new(alloc);
    follow_bound(rt, &mut task, steps, &mut out)
}

#[test]
fn a_near_query_is_the_plain_scan_whatever_the_parts_and_the_steps(
    rt: HostRuntime,
) -> Result<(), Fail> {
    let mut steps: Steps<Reads> = upkeep(&rt);
    let alloc = rt.alloc();
    let mut rows = Vec::new(alloc);
    let mut ties = Vec::new(alloc);
    let mut plain = Vec::new(alloc);
    let mut plain_ties = Vec::new(alloc);
    let mut seed = 1u64;
    for key in 0..40u64 {
        seed = after(seed);
        let byte = (seed >> 56) as u8;
        rows.push((key, byte))?;
        plain.push(plain_row(alloc, key, byte)?)?;
        ties.push((key, 0x36))?;
        plain_ties.push(plain_row(alloc, key, 0x36)?)?;
    }
    for parts in [1, 2, 8] {
        let version = version_of(&rt, alloc, parts, rows.as_slice())?;
        let want = plain_scan(alloc, plain.as_slice(), &[0, 0, 1, 1, 0, 1, 0, 1], 8)?;
        let hits = want.as_slice();
        compare(&rt, alloc, &version, 0x35, 1, 1, &mut steps, hits)?;
        compare(&rt, alloc, &version, 0x35, 1, 9999, &mut steps, hits)?;
        compare(&rt, alloc, &version, 0x35, 256, 1, &mut steps, hits)?;
        compare(&rt, alloc, &version, 0x35, 256, 9999, &mut steps, hits)?;
        bound_reads(&rt, alloc, &version, 0x35, &mut steps)?;
        let equal = version_of(&rt, alloc, parts, ties.as_slice())?;
        let tied = plain_scan(alloc, plain_ties.as_slice(), &[0, 0, 1, 1, 0, 1, 0, 1], 8)?;
        compare(&rt, alloc, &equal, 0x35, 3, 2, &mut steps, tied.as_slice())?;
        let none = version_of(&rt, alloc, parts, &[])?;
        compare(&rt, alloc, &none, 0x35, 1, 1, &mut steps, &[])?;
    }
    Ok(())
}

// Whether a source of hits within 8 has the plans and the bounds of the worked rows.
fn has_worked_bounds<H: HitSource>(task: &mut H) -> bool
    requires { (H.asked task.old).farthest ≡ 8 }
{
    let is_first = task.plan(None) == 1 && task.thresholds() == [-1, 0].as_slice();
    let is_fifth = task.plan(Some(4)) == 4;
    let sums = [
        task.bound(None),
        task.bound(Some(0)),
        task.bound(Some(4)),
        task.bound(Some(8)),
    ];
    is_first && is_fifth && sums == [0, 1, 11, 27]
}

// Compares the plans, the bounds and the reads of a near query on the worked rows.
fn compare_worked<R: Abort>(
    rt: &R,
    alloc: Global,
    steps: &mut Steps<Reads>,
) -> Result<(), NoMemory> {
    let version = version_of(rt, alloc, 2, &[(1, 0x00), (2, 0x0f), (3, 0xff), (4, 0x01)])?;
    let mut task = open(rt, alloc, &version, 0, 1)?;
    assert!(rt; has_worked_bounds(&mut task));
    let reads = bound_reads(rt, alloc, &version, 0, steps)?;
    assert!(rt; reads <= 27);
    Ok(())
}

#[test]
fn the_worked_rows_bound_a_near_query(rt: HostRuntime) -> Result<(), Fail> {
    let mut steps: Steps<Reads> = upkeep(&rt);
    compare_worked(&rt, rt.alloc(), &mut steps)?;
    Ok(())
}
