ghost use Rattle.std.specs.Prelude.{◌≡◌, ◌≤◌, length, map, take};
ghost use Rattle.std.specs.List.{AllByRecursion};
ghost use Rattle.std.specs.Thread.{IsSync};
ghost use Rattle.hamming_model.specs.Codes.{StandsFor};
ghost use Rattle.hamming_model.specs.declared.limits.TheConstants.{SHARDS_MOST};
ghost use Rattle.hit_source.specs.Sources.{IsFresh};
ghost use Rattle.scatter_gather.specs.Kept.{AreOneLength};
ghost use Rattle.query_opening.specs.Opening.{wanted_radius};

use crate::rows::{digit, plain_row};
use entry_log::Op;
use gph_codes::Code;
use hamming_model::{Hit, plain_scan};
use hit_source::HitSource;
use part_layout::Config;
use query_opening::{Wanted, open_query};
use read_meter::{Meters, Steps, upkeep};
use scatter_gather::{Gather, NoGate};
use search_model::stored_rows_search_alike;
use session_desk::{Desk, SoloDesk};
use std::alloc::Global;
use std::env::Env;
use std::process::Abort;
use std::test::Fail;
use std::thread::Threads;

// The ledger that these tests count on.
#[derive(Drop)]
struct Reads;

// The ledger of what shards do to come on.
#[derive(Drop)]
struct Upkeep;

// A desk of codes of 8 bits in two parts on three shards.
fn three_shards<R: Abort>(rt: &R, alloc: Global) -> SoloDesk<1>
    ensures { (⟦<SoloDesk<1> as Desk<1>>⟧.desk result).config.bits ≡ 8 }
{
    let config = Config {
        bits: 8,
        parts: 2,
        shards: 3,
        room: 16,
        entries: 100,
        input: 100,
    };
    SoloDesk::new(alloc, &config).expect(rt, "memory for a desk")
}

// The code of 8 bits that two digits spell.
fn spelled<R: Abort>(rt: &R, text: &[u8]) -> Code<1>
    ensures { StandsFor 1 8 result (take 8 result) }
{
    stored_rows_search_alike();
    let Ok(code) = Code::from_hex(8, text) else {
        panic!(rt; "no code");
    };
    code
}

// Adds rows, each a key with the eight bits of a byte. A key is on the shard of its rest by three.
fn add_all<R: Abort, D: Desk<1>>(rt: &R, desk: &mut D, rows: &[(u64, u8)])
    requires bits { (D.desk desk.old).config.bits ≡ 8 }
    ensures config { (D.desk desk.new).config ≡ (D.desk desk.old).config }
{
    for row in 0..rows.len() {
        let code = spelled(rt, &[digit(rows[row].1 / 16), digit(rows[row].1)]);
        let added = Op::Add {
            key: rows[row].0,
            code,
        };
        desk.commit(added).expect(rt, "memory for an entry");
    }
}

// All rows in order, by the plain scan.
fn scanned(alloc: Global, rows: &[(u64, u8)]) -> Result<Vec<Hit>, Fail> {
    let mut plain = Vec::new(alloc);
    for &(key, byte) in rows {
        plain.push(plain_row(alloc, key, byte)?)?;
    }
    Ok(plain_scan(alloc, plain.as_slice(), &[0, 0, 1, 1, 0, 1, 0, 1], 8)?)
}

// How many hits a gathering gives at most.
fn limit_of(wanted: Wanted, number: u64, rows: u64) -> u64 {
    match wanted {
        Wanted::Within(_) => u64::MAX,
        Wanted::Nearest => number.min(rows),
    }
}

// The distance within which codes are asked for, or 0 where all are.
fn radius_of(wanted: Wanted) -> u32
    ensures { result ≡ wanted_radius wanted }
{
    match wanted {
        Wanted::Within(radius) => radius,
        Wanted::Nearest => 0,
    }
}

// Whether gathering sources gives the first so many of a list, and has ended then.
fn gives_first<R: Abort + Env + Threads + Sync, H: HitSource + Drop>(
    rt: &R,
    alloc: Global,
    sources: Vec<H>,
    limit: u64,
    budget: u32,
    want: &[Hit],
    count: usize,
) -> bool
    requires sync { IsSync R.row }
    requires budget { 1 ≤ budget }
    requires some { 1 ≤ length sources.items }
    requires few { length sources.items ≤ SHARDS_MOST }
    requires one_length { AreOneLength (map H.asked sources.items) }
    requires fresh { AllByRecursion (λ source. IsFresh (H.standing source)) sources.items }
{
    let mut meters: Meters<Reads> = Meters::new(rt, alloc).expect(rt, "memory for ledgers");
    let mut gather = Gather::new(alloc, sources, limit).expect(rt, "memory to gather");
    let mut out = Vec::new(alloc);
    for _turn in 0..100u32 {
        if let Some(hit) = gather.next(rt, &NoGate, budget, &mut meters) {
            out.push(hit).expect(rt, "memory for a hit");
        }
    }
    let is_done = !gather.more(rt, &NoGate, budget, &mut meters);
    is_done && out.len() == count && want.starts_with(out.as_slice())
}

// What is wanted, a number of hits, how many the room has, a budget, and how many hits come.
type Asked = (Wanted, u64, usize, u32, usize);

// Whether a query gives the first so many of a list.
fn answers_first<const W: usize, R: Abort + Env + Threads + Sync, D: Desk<W>>(
    rt: &R,
    alloc: Global,
    desk: &mut D,
    query: Code<W>,
    asked: Asked,
    want: &[Hit],
    steps: &mut Steps<Upkeep>,
) -> bool
    requires sync { IsSync R.row }
    requires bits { (D.desk desk.old).config.bits ≡ 8 }
    requires code { StandsFor W 8 query (take 8 query) }
    ensures config { (D.desk desk.new).config ≡ (D.desk desk.old).config }
{
    let (wanted, number, room, budget, count) = asked;
    assert!(rt; radius_of(wanted) <= 8 && 1 <= room && room <= 256 && 1 <= budget);
    let opened = open_query(alloc, desk, wanted, query, room, steps).expect(
        rt,
        "memory for a query",
    );
    let limit = limit_of(wanted, number, opened.rows);
    gives_first(rt, alloc, opened.sources, limit, budget, want, count)
}

// Compares what each query gives with a list.
fn compare<R: Abort + Env + Threads + Sync, D: Desk<1>>(
    rt: &R,
    alloc: Global,
    desk: &mut D,
    asked: &[Asked],
    want: &[Hit],
)
    requires sync { IsSync R.row }
    requires bits { (D.desk desk.old).config.bits ≡ 8 }
    ensures config { (D.desk desk.new).config ≡ (D.desk desk.old).config }
{
    let query = spelled(rt, b"35");
    let mut steps: Steps<Upkeep> = upkeep(rt);
    for place in 0..asked.len() {
        let is_first = answers_first(rt, alloc, desk, query, asked[place], want, &mut steps);
        assert!(rt; is_first, "query {place}");
    }
}

// All near rows are on the first of the three shards.
static ON_ONE_SHARD: [(u64, u8); 8] = [
    (0, 0x35),
    (3, 0x34),
    (6, 0x31),
    (9, 0x35),
    (1, 0xca),
    (2, 0xcb),
    (4, 0xca),
    (5, 0x8a),
];

// What is wanted of them.
static FIRST_OF_ONE_SHARD: [Asked; 9] = [
    (Wanted::Nearest, 1, 1, 1, 1),
    (Wanted::Nearest, 3, 1, 9999, 3),
    (Wanted::Nearest, 4, 256, 1, 4),
    (Wanted::Nearest, 8, 256, 9999, 8),
    (Wanted::Nearest, 8, 1, 1, 8),
    (Wanted::Nearest, 9, 2, 3, 8),
    (Wanted::Nearest, u64::MAX, 256, 1, 8),
    (Wanted::Within(1), 0, 1, 1, 4),
    (Wanted::Within(7), 0, 256, 9999, 6),
];

// Asks for the nearest of rows on one shard.
fn ask_one_shard<R: Abort + Env + Threads + Sync, D: Desk<1>>(
    rt: &R,
    alloc: Global,
    desk: &mut D,
) -> Result<(), Fail>
    requires sync { IsSync R.row }
    requires bits { (D.desk desk.old).config.bits ≡ 8 }
{
    let want = scanned(alloc, &ON_ONE_SHARD)?;
    add_all(rt, desk, &ON_ONE_SHARD);
    compare(rt, alloc, desk, &FIRST_OF_ONE_SHARD, want.as_slice());
    Ok(())
}

#[test]
fn the_nearest_are_the_first_of_the_scan_where_all_are_on_one_shard(
    rt: HostRuntime,
) -> Result<(), Fail> {
    let mut desk = three_shards(&rt, rt.alloc());
    ask_one_shard(&rt, rt.alloc(), &mut desk)
}

// A tie over all three shards.
static TIED: [(u64, u8); 6] = [
    (8, 0x34),
    (1, 0x34),
    (5, 0x34),
    (0, 0x34),
    (4, 0x34),
    (3, 0x34),
];

// What is wanted of no rows.
static FIRST_OF_NONE: [Asked; 1] = [(Wanted::Nearest, 5, 1, 1, 0)];

// What is wanted of the tie.
static FIRST_OF_TIE: [Asked; 3] = [
    (Wanted::Nearest, 2, 1, 1, 2),
    (Wanted::Nearest, 6, 256, 9999, 6),
    (Wanted::Nearest, 7, 1, 9999, 6),
];

// Asks for the nearest of no rows and of a tie.
fn ask_tie<R: Abort + Env + Threads + Sync, D: Desk<1>>(
    rt: &R,
    alloc: Global,
    desk: &mut D,
) -> Result<(), Fail>
    requires sync { IsSync R.row }
    requires bits { (D.desk desk.old).config.bits ≡ 8 }
{
    compare(rt, alloc, desk, &FIRST_OF_NONE, &[]);
    let want = scanned(alloc, &TIED)?;
    add_all(rt, desk, &TIED);
    compare(rt, alloc, desk, &FIRST_OF_TIE, want.as_slice());
    Ok(())
}

#[test]
fn a_tie_across_shards_goes_by_key_and_no_rows_give_none(rt: HostRuntime) -> Result<(), Fail> {
    let mut desk = three_shards(&rt, rt.alloc());
    ask_tie(&rt, rt.alloc(), &mut desk)
}
