//! A small world, and what its calls answer.

ghost use Rattle.std.specs.Prelude.{◌≡◌, ◌≤◌, take};
ghost use Rattle.std.specs.Arc.{arc_value};
ghost use Rattle.hamming_model.specs.Codes.{StandsFor};
ghost use Rattle.hamming_model.specs.declared.limits.TheConstants.{ENTRIES_MOST, SHARDS_MOST};
ghost use Rattle.world_model.specs.Events.{IsLayoutFor};

use commit_journal::Decided;
use entry_log::{Decision, Op};
use gph_codes::Code;
use gph_world::{Ask, World};
use part_layout::Layout;
use search_model::stored_rows_search_alike;
use std::alloc::Global;
use std::process::Abort;
use std::sync::Arc;
use world_model::{Refused, Told};

// The ledger of upkeep of these tests.
#[derive(Drop)]
pub(crate) struct Upkeep;

// The ledgers of what these tests read.
#[derive(Drop)]
pub(crate) struct Reads;

// The layout of 8 bits that a text spells.
pub(crate) fn layout_of<R: Abort>(rt: &R, alloc: Global, text: &[u8]) -> Arc<Layout>
    ensures { IsLayoutFor 8 (arc_value result) }
{
    let Ok(layout) = Layout::parse(alloc, 8, text) else {
        panic!(rt; "no layout");
    };
    let _parts = layout.parts();
    Arc::new(alloc, layout).expect(rt, "memory for a layout")
}

// A world of codes of 8 bits in two halves, with room for as many entries.
pub(crate) fn small_world<R: Abort>(rt: &R, alloc: Global, shards: u32, limit: u64) -> World<1>
    requires some { 1 ≤ shards }
    requires few { shards ≤ SHARDS_MOST }
    requires limited { limit ≤ ENTRIES_MOST }
    ensures { result.setting.bits ≡ 8 }
{
    let layout = layout_of(rt, alloc, b"0,1,2,3/4,5,6,7");
    World::new(alloc, 8, shards, layout, 16, limit).expect(rt, "memory for a world")
}

// The code of 8 bits that two digits spell.
pub(crate) fn spelled<R: Abort>(rt: &R, text: &[u8]) -> Code<1>
    ensures { StandsFor 1 8 result (take 8 result) }
{
    stored_rows_search_alike();
    let Ok(code) = Code::from_hex(8, text) else {
        panic!(rt; "no code");
    };
    code
}

// Adds the row of a key, and compares the decision and its position.
pub(crate) fn add<R: Abort>(
    rt: &R,
    world: &mut World<1>,
    key: u64,
    text: &[u8],
    decision: Decision,
    position: u64,
)
    requires { world.old.setting.bits ≡ 8 }
    ensures { world.new.setting ≡ world.old.setting }
{
    let code = spelled(rt, text);
    let answer = world.commit(1, Op::Add { key, code });
    tells(rt, answer, Told::Decided(Decided { decision, position }));
}

// Opens a range query on the code that digits spell, and compares its number and position.
pub(crate) fn open_range<R: Abort>(
    rt: &R,
    world: &mut World<1>,
    tau: u32,
    text: &[u8],
    query: u32,
    position: u64,
)
    requires bits { world.old.setting.bits ≡ 8 }
    requires near { tau ≤ 8 }
    ensures { world.new.setting ≡ world.old.setting }
{
    let code = spelled(rt, text);
    let answer = world.open(2, Ask::Range { tau, code });
    tells(rt, answer, Told::Opened { query, position });
}

// Opens a query for the nearest rows, likewise.
pub(crate) fn open_near<R: Abort>(
    rt: &R,
    world: &mut World<1>,
    number: u32,
    text: &[u8],
    query: u32,
    position: u64,
)
    requires bits { world.old.setting.bits ≡ 8 }
    requires some { 1 ≤ number }
    ensures { world.new.setting ≡ world.old.setting }
{
    let code = spelled(rt, text);
    let answer = world.open(2, Ask::Near { number, code });
    tells(rt, answer, Told::Opened { query, position });
}

// Compares an answer with what it has to tell.
pub(crate) fn tells<R: Abort>(rt: &R, answer: Result<Told, Refused>, want: Told) {
    let Ok(told) = answer else {
        panic!(rt; "an event is refused");
    };
    assert!(rt; told == want, "another answer");
}

// Compares an answer with the refusal that it has to be.
pub(crate) fn refuses<R: Abort>(rt: &R, answer: Result<Told, Refused>, want: Refused) {
    let Err(why) = answer else {
        panic!(rt; "an event is not refused");
    };
    assert!(rt; why == want, "another refusal");
}
