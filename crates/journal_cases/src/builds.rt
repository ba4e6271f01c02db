//! Builds that are placed, follow what is committed, are finished and swapped in.

ghost use Rattle.std.specs.Prelude.{◌≡◌, ◌<◌, ◌≤◌};
ghost use Rattle.hamming_model.specs.declared.limits.TheConstants.{SHARDS_MOST};
ghost use Rattle.session_desk.specs.Desks.{DeskState};
ghost use Rattle.shard_rebuild.specs.ShardBuilds.{IsBuildOf};

use crate::desks::{commit, pin_and_close, small_desk, spelled};
use entry_log::{Decision, Op};
use part_layout::Layout;
use read_meter::{Steps, upkeep};
use repartitioner::{Build, BuildState, Unready};
use session_desk::Desk;
use shard_rebuild::{SwapAnswer, builds_stay_with_their_shard, start_build, swap_build};
use std::alloc::Global;
use std::env::Env;
use std::process::Abort;
use std::sync::Arc;

// The ledger that these tests count on.
#[derive(Drop)]
struct Upkeep;

// Starts a build of the first shard, in four parts.
fn start<R: Abort, D: Desk<1>>(
    rt: &R,
    alloc: Global,
    desk: &mut D,
    steps: &mut Steps<Upkeep>,
) -> Build<1>
    requires bits { (D.desk desk.old).config.bits ≡ 8 }
    requires shards { 0 < (D.desk desk.old).config.shards }
    ensures build { IsBuildOf (D.desk desk.new) 0 result }
    ensures config { (D.desk desk.new).config ≡ (D.desk desk.old).config }
{
    let layout = Layout::contiguous(alloc, 8, 4).expect(rt, "a layout");
    assert!(rt; layout.bits() == 8);
    let shared = Arc::new(alloc, layout).expect(rt, "memory for a layout");
    start_build(alloc, desk, 0, shared, steps).expect(rt, "memory for a build")
}

// Swaps a build in, and compares where its shard stands then, how many rows it has and its layout.
fn swap_in<R: Abort, D: Desk<1>>(
    rt: &R,
    alloc: Global,
    desk: &mut D,
    build: Build<1>,
    at: u64,
    rows: u64,
    steps: &mut Steps<Upkeep>,
)
    requires shards { 0 < (D.desk desk.old).config.shards }
    requires of_shard { IsBuildOf (D.desk desk.old) 0 build }
{
    assert!(rt; build.left() == 0);
    let SwapAnswer::Swapped { at: stands } = swap_build(alloc, desk, 0, build, steps) else {
        panic!(rt; "the build goes on");
    };
    assert!(rt; stands == at, "{stands}");
    let told = desk.layout_of(0);
    assert!(rt; told.bytes() == b"0,1/2,3/4,5/6,7".as_slice());
    let front = desk.open_front().expect(rt, "memory for a front");
    pin_and_close(rt, desk, front, rows, steps);
}

// A build goes on while rows come and go, and one that it placed is deleted.
fn follow_over_deletes<R: Abort + Env, D: Desk<1>>(rt: &R, alloc: Global, desk: &mut D)
    requires bits { (D.desk desk.old).config.bits ≡ 8 }
    requires shards { 0 < (D.desk desk.old).config.shards }
{
    builds_stay_with_their_shard();
    let mut steps: Steps<Upkeep> = upkeep(rt);
    let code = spelled(rt, b"0f");
    commit(rt, desk, Op::Add { key: 1, code }, Decision::Added, 1);
    commit(rt, desk, Op::Add { key: 3, code }, Decision::Added, 2);
    let mut build = start(rt, alloc, desk, &mut steps);
    assert!(rt; build.left() == 2 && build.at() == 2);
    let BuildState::Going { left: 1 } = build.step(1, &mut steps) else {
        panic!(rt; "a row is left");
    };
    let BuildState::Ready = build.step(9, &mut steps) else {
        panic!(rt; "no row is left");
    };
    commit(rt, desk, Op::Delete { key: 1 }, Decision::Deleted, 3);
    commit(rt, desk, Op::Add { key: 7, code }, Decision::Added, 4);
    swap_in(rt, alloc, desk, build, 4, 2, &mut steps);
}

// A build of no rows is ready, and is swapped in.
fn build_no_rows<R: Abort + Env, D: Desk<1>>(rt: &R, alloc: Global, desk: &mut D)
    requires bits { (D.desk desk.old).config.bits ≡ 8 }
    requires shards { 0 < (D.desk desk.old).config.shards }
{
    let mut steps: Steps<Upkeep> = upkeep(rt);
    let build = start(rt, alloc, desk, &mut steps);
    assert!(rt; build.left() == 0 && build.at() == 0);
    swap_in(rt, alloc, desk, build, 0, 0, &mut steps);
}

// Finishes a build that has one row left: it is handed back, places the row, is finished, and goes on.
fn finish_twice<R: Abort>(
    rt: &R,
    alloc: Global,
    started: Build<1>,
    steps: &mut Steps<Upkeep>,
) -> Build<1>
    ensures { (desk : DeskState) → IsBuildOf desk 0 started → IsBuildOf desk 0 result }
{
    let Err(Unready::Left { left, mut build }) = started.finish() else {
        panic!(rt; "a row is left");
    };
    assert!(rt; left == 1 && build.left() == 1 && build.at() == 1);
    let BuildState::Ready = build.step(1, steps) else {
        panic!(rt; "no row is left");
    };
    let Ok(prepared) = build.finish() else {
        panic!(rt; "no version");
    };
    let resumed = Build::resume(alloc, prepared);
    assert!(rt; resumed.left() == 0 && resumed.at() == 1);
    resumed
}

// A build is finished before its time, and swapped in after it went on.
fn build_on<R: Abort + Env, D: Desk<1>>(rt: &R, alloc: Global, desk: &mut D)
    requires bits { (D.desk desk.old).config.bits ≡ 8 }
    requires shards { 0 < (D.desk desk.old).config.shards }
{
    let mut steps: Steps<Upkeep> = upkeep(rt);
    let code = spelled(rt, b"00");
    commit(rt, desk, Op::Add { key: 1, code }, Decision::Added, 1);
    let started = start(rt, alloc, desk, &mut steps);
    let resumed = finish_twice(rt, alloc, started, &mut steps);
    swap_in(rt, alloc, desk, resumed, 1, 1, &mut steps);
}

// What is built on a desk.
#[derive(Clone, Copy)]
enum Case {
    OverDeletes,
    NoRows,
    HandedBack,
}

// Meets a case on a desk of its own.
fn meet<R: Abort + Env>(rt: &R, alloc: Global, shards: u32, case: Case)
    requires some { 1 ≤ shards }
    requires few { shards ≤ SHARDS_MOST }
{
    let mut desk = small_desk(rt, alloc, shards, 9);
    meet_on(rt, alloc, &mut desk, case);
}

// Meets a case on a desk.
fn meet_on<R: Abort + Env, D: Desk<1>>(rt: &R, alloc: Global, desk: &mut D, case: Case)
    requires bits { (D.desk desk.old).config.bits ≡ 8 }
    requires shards { 0 < (D.desk desk.old).config.shards }
{
    match case {
        Case::OverDeletes => follow_over_deletes(rt, alloc, desk),
        Case::NoRows => build_no_rows(rt, alloc, desk),
        Case::HandedBack => build_on(rt, alloc, desk),
    }
}

#[test]
fn a_build_follows_over_deletes_of_rows_that_it_placed(rt: HostRuntime) {
    meet(&rt, rt.alloc(), 1, Case::OverDeletes);
}

#[test]
fn a_build_of_no_rows_is_ready_at_once(rt: HostRuntime) {
    meet(&rt, rt.alloc(), 2, Case::NoRows);
}

#[test]
fn a_build_with_rows_left_is_handed_back_and_goes_on(rt: HostRuntime) {
    meet(&rt, rt.alloc(), 1, Case::HandedBack);
}
