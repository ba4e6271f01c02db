//! Turns over shards of codes of 8 bits in two parts.

ghost use Rattle.std.specs.Prelude.{◌≡◌, ◌<◌, ◌≤◌, take};
ghost use Rattle.hamming_model.specs.Codes.{StandsFor};
ghost use Rattle.hamming_model.specs.Recoded.{IsStoredOperation};
ghost use Rattle.hamming_model.specs.declared.limits.TheConstants.{SHARDS_MOST};
ghost use Rattle.entry_log.specs.Entries.{kept_operation};

use entry_log::{Decision, Op};
use gph_codes::Code;
use part_layout::{Config, Layout};
use read_meter::{Steps, upkeep};
use search_model::stored_rows_search_alike;
use session_desk::{Desk, SoloDesk};
use shard_rebuild::{SwapAnswer, builds_stay_with_their_shard, start_build, swap_build};
use shard_tending::{Tended, tend};
use std::alloc::Global;
use std::process::Abort;
use std::sync::Arc;
use std::test::Fail;

// The ledger that these tests count on.
#[derive(Drop)]
struct Upkeep;

// A desk of codes of 8 bits in two parts.
fn small_desk<R: Abort>(rt: &R, alloc: Global, shards: u32) -> SoloDesk<1>
    requires some { 1 ≤ shards }
    requires few { shards ≤ SHARDS_MOST }
    ensures bits { (⟦<SoloDesk<1> as Desk<1>>⟧.desk result).config.bits ≡ 8 }
    ensures shards { (⟦<SoloDesk<1> as Desk<1>>⟧.desk result).config.shards ≡ shards }
{
    let config = Config {
        bits: 8,
        parts: 2,
        shards,
        room: 16,
        entries: 100,
        input: 100,
    };
    SoloDesk::new(alloc, &config).expect(rt, "memory for a desk")
}

// Adds a code that two digits spell.
fn add<R: Abort, D: Desk<1>>(rt: &R, desk: &mut D, key: u64, text: &[u8])
    requires bits { (D.desk desk.old).config.bits ≡ 8 }
    ensures config { (D.desk desk.new).config ≡ (D.desk desk.old).config }
{
    stored_rows_search_alike();
    let Ok(code) = Code::from_hex(8, text) else {
        panic!(rt; "no code");
    };
    let decided = desk
        .commit(Op::Add { key, code })
        .expect(rt, "memory for an entry");
    assert!(rt; decided.decision == Decision::Added, "{key}");
}

// Compares the layout of a shard.
fn stands_in<R: Abort, D: Desk<1>>(rt: &R, desk: &mut D, shard: u32, layout: &[u8])
    requires shard { shard < (D.desk desk.old).config.shards }
    ensures config { (D.desk desk.new).config ≡ (D.desk desk.old).config }
{
    let told = desk.layout_of(shard);
    assert!(rt; told.bytes() == layout, "{shard}");
}

// Compares what a turn did.
fn tends<R: Abort, D: Desk<1>>(
    rt: &R,
    alloc: Global,
    desk: &mut D,
    swapped: u32,
    steps: &mut Steps<Upkeep>,
)
    ensures config { (D.desk desk.new).config ≡ (D.desk desk.old).config }
{
    let tended = tend(alloc, desk, steps);
    let is_tended = tended
        == Tended {
            swapped,
            moved: 0,
            nomem: 0,
        };
    assert!(rt; is_tended, "{swapped}");
}

// Twenty rows, of which the last four give no samples where there is one shard.
static ROWS: [(u64, &[u8]); 20] = [
    (1, b"5a"),
    (2, b"1d"),
    (3, b"83"),
    (4, b"0b"),
    (5, b"b7"),
    (6, b"ce"),
    (7, b"09"),
    (8, b"d6"),
    (9, b"bb"),
    (10, b"c0"),
    (11, b"04"),
    (12, b"e7"),
    (13, b"17"),
    (14, b"5c"),
    (15, b"64"),
    (16, b"3c"),
    (17, b"7d"),
    (18, b"ec"),
    (19, b"b0"),
    (20, b"b5"),
];

// The layouts in which a turn leaves the shards, as a plain program of its own searches them.
static TURNS: [(u32, u32, [&[u8]; 4]); 4] = [
    (1, 1, [b"7,1,6,2/0,5,3,4", b"", b"", b""]),
    (2, 2, [b"0,1,4,3/2,5,6,7", b"4,1,2,3/0,5,6,7", b"", b""]),
    (
        3,
        3,
        [
            b"6,1,2,5/4,3,0,7",
            b"4,1,2,3/0,5,6,7",
            b"7,1,2,6/4,5,3,0",
            b"",
        ],
    ),
    (
        4,
        2,
        [
            b"5,1,2,3/4,0,6,7",
            b"0,1,2,3/4,5,6,7",
            b"0,4,2,3/1,5,6,7",
            b"0,1,2,3/4,5,6,7",
        ],
    ),
];

// Adds the twenty rows.
fn add_rows<R: Abort, D: Desk<1>>(rt: &R, desk: &mut D)
    requires bits { (D.desk desk.old).config.bits ≡ 8 }
    ensures config { (D.desk desk.new).config ≡ (D.desk desk.old).config }
{
    for &(key, text) in &ROWS {
        add(rt, desk, key, text);
    }
}

// Compares the layouts of the shards.
fn all_stand_in<R: Abort, D: Desk<1>>(rt: &R, desk: &mut D, shards: u32, layouts: &[&[u8]; 4])
    requires shards { (D.desk desk.old).config.shards ≡ shards }
    requires few { shards ≤ 4 }
{
    for shard in 0..shards {
        stands_in(rt, desk, shard, layouts[shard as usize]);
    }
}

#[test]
fn each_shard_comes_to_where_its_search_ends(rt: HostRuntime) -> Result<(), Fail> {
    for &(shards, swapped, layouts) in &TURNS {
        assert!(rt; 1 <= shards && shards <= 4);
        let mut desk = small_desk(&rt, rt.alloc(), shards);
        let mut steps: Steps<Upkeep> = upkeep(&rt);
        add_rows(&rt, &mut desk);
        tends(&rt, rt.alloc(), &mut desk, swapped, &mut steps);
        all_stand_in(&rt, &mut desk, shards, &layouts);
    }
    Ok(())
}

#[test]
fn a_turn_over_no_rows_swaps_nothing(rt: HostRuntime) -> Result<(), Fail> {
    let mut desk = small_desk(&rt, rt.alloc(), 2);
    let mut steps: Steps<Upkeep> = upkeep(&rt);
    tends(&rt, rt.alloc(), &mut desk, 0, &mut steps);
    stands_in(&rt, &mut desk, 0, b"0,1,2,3/4,5,6,7");
    stands_in(&rt, &mut desk, 1, b"0,1,2,3/4,5,6,7");
    Ok(())
}

#[test]
fn a_further_turn_swaps_nothing(rt: HostRuntime) -> Result<(), Fail> {
    let mut desk = small_desk(&rt, rt.alloc(), 1);
    let mut steps: Steps<Upkeep> = upkeep(&rt);
    add(&rt, &mut desk, 1, b"00");
    add(&rt, &mut desk, 2, b"1f");
    add(&rt, &mut desk, 3, b"e3");
    tends(&rt, rt.alloc(), &mut desk, 1, &mut steps);
    stands_in(&rt, &mut desk, 0, b"6,1,2,3/4,5,0,7");
    tends(&rt, rt.alloc(), &mut desk, 0, &mut steps);
    stands_in(&rt, &mut desk, 0, b"6,1,2,3/4,5,0,7");
    Ok(())
}

#[test]
fn a_turn_swaps_in_a_cheaper_layout(rt: HostRuntime) -> Result<(), Fail> {
    builds_stay_with_their_shard();
    let mut desk = small_desk(&rt, rt.alloc(), 1);
    let mut steps: Steps<Upkeep> = upkeep(&rt);
    add(&rt, &mut desk, 1, b"00");
    add(&rt, &mut desk, 2, b"1f");
    add(&rt, &mut desk, 3, b"e3");
    let Ok(layout) = Layout::parse(rt.alloc(), 8, b"0,1,2,6/3,4,5,7") else {
        panic!(rt; "no layout");
    };
    assert!(rt; layout.bits() == 8);
    let shared = Arc::new(rt.alloc(), layout).expect(&rt, "memory for a layout");
    let mut build = start_build(rt.alloc(), &mut desk, 0, shared, &mut steps).expect(
        &rt,
        "memory for a build",
    );
    let _state = build.step(9, &mut steps);
    assert!(rt; build.left() == 0);
    let SwapAnswer::Swapped { at: 3 } = swap_build(rt.alloc(), &mut desk, 0, build, &mut steps)
    else {
        panic!(rt; "the build goes on");
    };
    stands_in(&rt, &mut desk, 0, b"0,1,2,6/3,4,5,7");
    tends(&rt, rt.alloc(), &mut desk, 1, &mut steps);
    stands_in(&rt, &mut desk, 0, b"3,1,2,6/0,4,5,7");
    tends(&rt, rt.alloc(), &mut desk, 0, &mut steps);
    Ok(())
}
