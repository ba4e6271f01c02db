ghost use Rattle.std.specs.Prelude.{◌≡◌, ◌<◌, ◌≤◌, take};
ghost use Rattle.hamming_model.specs.Codes.{StandsFor};
ghost use Rattle.hamming_model.specs.Recoded.{IsStoredOperation};
ghost use Rattle.hamming_model.specs.declared.limits.TheConstants.{ENTRIES_MOST, SHARDS_MOST};
ghost use Rattle.entry_log.specs.Entries.{kept_operation};
ghost use Rattle.session_desk.specs.Calls.{KeepsKnown};
ghost use Rattle.session_desk.specs.Desks.{IsOwnFront};
ghost use Rattle.shard_rebuild.specs.ShardBuilds.{SeesMore};

use commit_journal::{Decided, Front};
use entry_log::{Decision, Op};
use gph_codes::Code;
use hit_source::HitSource;
use part_layout::Config;
use query_opening::{Wanted, open_query};
use read_meter::{Steps, upkeep};
use search_model::stored_rows_search_alike;
use session_desk::{Desk, SoloDesk};
use shard_rebuild::builds_stay_with_their_shard;
use std::alloc::Global;
use std::env::Env;
use std::process::Abort;

// The ledger that these tests count on.
#[derive(Drop)]
struct Reads;

// A desk of codes of 8 bits in two parts.
pub(crate) fn small_desk<R: Abort>(rt: &R, alloc: Global, shards: u32, entries: u64) -> SoloDesk<1>
    requires some { 1 ≤ shards }
    requires few { shards ≤ SHARDS_MOST }
    requires some_entries { 1 ≤ entries }
    requires few_entries { entries ≤ ENTRIES_MOST }
    ensures bits { (⟦<SoloDesk<1> as Desk<1>>⟧.desk result).config.bits ≡ 8 }
    ensures shards { (⟦<SoloDesk<1> as Desk<1>>⟧.desk result).config.shards ≡ shards }
{
    let config = Config {
        bits: 8,
        parts: 2,
        shards,
        room: 16,
        entries,
        input: 100,
    };
    SoloDesk::new(alloc, &config).expect(rt, "memory for a desk")
}

// The code of 8 bits that two digits spell.
pub(crate) fn spelled<R: Abort>(rt: &R, text: &[u8]) -> Code<1>
    ensures { StandsFor 1 8 result (take 8 result) }
{
    stored_rows_search_alike();
    let Ok(code) = Code::from_hex(8, text) else {
        panic!(rt; "no code");
    };
    code
}

// Commits an operation, and compares what became of it.
pub(crate) fn commit<R: Abort, D: Desk<1>>(
    rt: &R,
    desk: &mut D,
    op: Op<1>,
    decision: Decision,
    position: u64,
)
    requires bits { (D.desk desk.old).config.bits ≡ 8 }
    requires stored { IsStoredOperation 1 8 (kept_operation op) }
    ensures config { (D.desk desk.new).config ≡ (D.desk desk.old).config }
    ensures fronts { (D.desk desk.new).fronts ≡ (D.desk desk.old).fronts }
    ensures known { KeepsKnown (D.desk desk.new) (D.knows desk.old) (D.knows desk.new) }
    ensures sees { SeesMore (D.desk desk.old) (D.desk desk.new) }
{
    builds_stay_with_their_shard();
    let decided = desk.commit(op).expect(rt, "memory for an entry");
    let is_decided = decided == Decided { decision, position };
    assert!(rt; is_decided, "{position}");
}

// Commits to a desk with room for two entries, and looks at its rows and its layout.
fn decide<R: Abort, D: Desk<1>>(rt: &R, desk: &mut D)
    requires bits { (D.desk desk.old).config.bits ≡ 8 }
    requires shards { 0 < (D.desk desk.old).config.shards }
{
    let code = spelled(rt, b"00");
    commit(rt, desk, Op::Add { key: 1, code }, Decision::Added, 1);
    commit(rt, desk, Op::Add { key: 2, code }, Decision::Added, 2);
    commit(rt, desk, Op::Add { key: 3, code }, Decision::Full, 2);
    commit(rt, desk, Op::Add { key: 1, code }, Decision::Taken, 2);
    commit(rt, desk, Op::Delete { key: 9 }, Decision::Absent, 2);
    commit(rt, desk, Op::Delete { key: 1 }, Decision::Full, 2);
    let found = desk.code_of(1);
    assert!(rt; found == (Some(code), 2));
    let told = desk.layout_of(0);
    assert!(rt; told.bytes() == b"0,1,2,3/4,5,6,7".as_slice());
}

// Pins the first shard at a front, compares the rows, and closes the front.
pub(crate) fn pin_and_close<R: Abort, D: Desk<1>, M>(
    rt: &R,
    desk: &mut D,
    front: Front<1>,
    rows: u64,
    steps: &mut Steps<M>,
)
    requires own { IsOwnFront (D.desk desk.old) front }
    requires knows { D.knows desk.old front }
    requires shards { 0 < (D.desk desk.old).config.shards }
    ensures config { (D.desk desk.new).config ≡ (D.desk desk.old).config }
{
    let position = front.position();
    let version = desk
        .pin(&front, 0, steps)
        .expect(rt, "memory for a version");
    desk.close_front(front);
    let is_pinned = version.at() == position && version.rows() == rows;
    assert!(rt; is_pinned, "{rows}");
}

// Pins at a front that was opened before an entry, and at one that was opened after it.
fn pin_before_and_after<R: Abort + Env, D: Desk<1>>(rt: &R, desk: &mut D)
    requires bits { (D.desk desk.old).config.bits ≡ 8 }
    requires shards { 0 < (D.desk desk.old).config.shards }
{
    let mut steps: Steps<Reads> = upkeep(rt);
    let code = spelled(rt, b"0f");
    commit(rt, desk, Op::Add { key: 1, code }, Decision::Added, 1);
    commit(rt, desk, Op::Add { key: 4, code }, Decision::Added, 2);
    let front = desk.open_front().expect(rt, "memory for a front");
    commit(rt, desk, Op::Delete { key: 4 }, Decision::Deleted, 3);
    pin_and_close(rt, desk, front, 2, &mut steps);
    let unused = desk.open_front().expect(rt, "memory for a front");
    desk.close_front(unused);
    let later = desk.open_front().expect(rt, "memory for a front");
    pin_and_close(rt, desk, later, 1, &mut steps);
}

// Whether there are two sources, of so many rows each.
fn has_rows<H: HitSource>(sources: &[H], even: u64, odd: u64) -> bool {
    sources.len() == 2 && sources[0].rows() == even && sources[1].rows() == odd
}

// Opens a range query over two shards, and compares its rows.
fn query<const W: usize, R: Abort, D: Desk<W>>(
    rt: &R,
    alloc: Global,
    desk: &mut D,
    code: Code<W>,
    position: u64,
    even: u64,
    odd: u64,
    steps: &mut Steps<Reads>,
)
    requires bits { (D.desk desk.old).config.bits ≡ 8 }
    requires code { StandsFor W 8 code (take 8 code) }
    ensures config { (D.desk desk.new).config ≡ (D.desk desk.old).config }
{
    let opened = open_query(alloc, desk, Wanted::Within(1), code, 16, steps).expect(
        rt,
        "memory for a query",
    );
    let is_opened = opened.position == position && has_rows(opened.sources.as_slice(), even, odd);
    assert!(rt; is_opened, "{position}");
}

// Opens queries on two shards before entries and after them.
fn query_prefixes<R: Abort + Env, D: Desk<1>>(rt: &R, alloc: Global, desk: &mut D)
    requires bits { (D.desk desk.old).config.bits ≡ 8 }
{
    let mut steps: Steps<Reads> = upkeep(rt);
    let center = spelled(rt, b"00");
    let code = spelled(rt, b"01");
    query(rt, alloc, desk, center, 0, 0, 0, &mut steps);
    commit(rt, desk, Op::Add { key: 2, code }, Decision::Added, 1);
    commit(rt, desk, Op::Add { key: 3, code }, Decision::Added, 2);
    query(rt, alloc, desk, center, 2, 1, 1, &mut steps);
    commit(rt, desk, Op::Delete { key: 3 }, Decision::Deleted, 3);
    query(rt, alloc, desk, center, 3, 1, 0, &mut steps);
}

// What is asked of a desk.
#[derive(Clone, Copy)]
enum Case {
    Decides,
    Pins,
    Queries,
}

// Meets a case on a desk of its own.
fn meet<R: Abort + Env>(rt: &R, alloc: Global, shards: u32, entries: u64, case: Case)
    requires some { 1 ≤ shards }
    requires few { shards ≤ SHARDS_MOST }
    requires some_entries { 1 ≤ entries }
    requires few_entries { entries ≤ ENTRIES_MOST }
{
    let mut desk = small_desk(rt, alloc, shards, entries);
    meet_on(rt, alloc, &mut desk, case);
}

// Meets a case on a desk.
fn meet_on<R: Abort + Env, D: Desk<1>>(rt: &R, alloc: Global, desk: &mut D, case: Case)
    requires bits { (D.desk desk.old).config.bits ≡ 8 }
    requires shards { 0 < (D.desk desk.old).config.shards }
{
    match case {
        Case::Decides => decide(rt, desk),
        Case::Pins => pin_before_and_after(rt, desk),
        Case::Queries => query_prefixes(rt, alloc, desk),
    }
}

#[test]
fn a_solo_desk_decides_and_tells_its_rows(rt: HostRuntime) {
    meet(&rt, rt.alloc(), 1, 2, Case::Decides);
}

#[test]
fn a_front_answers_its_own_prefix(rt: HostRuntime) {
    meet(&rt, rt.alloc(), 1, 9, Case::Pins);
}

#[test]
fn a_query_answers_its_own_prefix_over_two_shards(rt: HostRuntime) {
    meet(&rt, rt.alloc(), 2, 9, Case::Queries);
}
