//! The layouts that a session's queries pinned, as its report tells them.

ghost use Rattle.std.specs.Prelude.{◌≡◌};
ghost use Rattle.std.specs.Thread.{IsSync};

use gph_session::{LayoutFrom, Report, Status, session};
use line_io::{MemorySink, MemorySource};
use part_layout::Config;
use read_meter::{Meters, Steps, upkeep};
use scatter_gather::NoGate;
use session_desk::{Desk, SoloDesk};
use std::alloc::Global;
use std::env::Env;
use std::process::Abort;
use std::test::Fail;
use std::thread::Threads;

// The ledger on which the sessions' postings are counted.
#[derive(Drop)]
struct Postings;

// The ledger on which the sessions' upkeep is counted.
#[derive(Drop)]
struct Upkeep;

// Codes of 8 bits in two parts, on one shard.
const ONE_SHARD: Config = Config {
    bits: 8,
    parts: 2,
    shards: 1,
    room: 16,
    entries: 100,
    input: 1000,
};

// The same on four.
const FOUR_SHARDS: Config = Config {
    bits: 8,
    parts: 2,
    shards: 4,
    room: 16,
    entries: 100,
    input: 1000,
};

// What is told of a layout.
struct Told {
    query: u64,
    shard: u32,
    layout: &'static [u8],
}

// The lines of a session, its replies, and what its report tells of layouts.
struct Case {
    asked: &'static [u8],
    replies: &'static [u8],
    told: &'static [Told],
}

// Two queries before a swap and two after it, of which the second finds the layout of the first.
static SWAPPED: Case = Case {
    asked: b"range a 3 00\nrange b 3 00\nrepart 0 0,2,4,6/1,3,5,7\nbuild 9\nswap\nnext a 9\nrange c 3 00\nnear d 1 00\n",
    replies: b"open a at 0\nopen b at 0\nbuilding 0 left 0 at 0\nbuilt 0 left 0\nswapped 0 at 0\ndone a 0\nopen c at 0\nopen d at 0\n",
    told: &[
        Told {
            query: 0,
            shard: 0,
            layout: b"0,1,2,3/4,5,6,7",
        },
        Told {
            query: 2,
            shard: 0,
            layout: b"0,2,4,6/1,3,5,7",
        },
    ],
};

// A shard of four that is given another layout, and then the same again.
static ONE_OF_FOUR: Case = Case {
    asked: b"range a 3 00\nrepart 2 0,2,4,6/1,3,5,7\nbuild 9\nswap\nrange b 3 00\nrepart 2 0,2,4,6/1,3,5,7\nbuild 9\nswap\nrange c 3 00\n",
    replies: b"open a at 0\nbuilding 2 left 0 at 0\nbuilt 2 left 0\nswapped 2 at 0\nopen b at 0\nbuilding 2 left 0 at 0\nbuilt 2 left 0\nswapped 2 at 0\nopen c at 0\n",
    told: &[
        Told {
            query: 0,
            shard: 0,
            layout: b"0,1,2,3/4,5,6,7",
        },
        Told {
            query: 0,
            shard: 1,
            layout: b"0,1,2,3/4,5,6,7",
        },
        Told {
            query: 0,
            shard: 2,
            layout: b"0,1,2,3/4,5,6,7",
        },
        Told {
            query: 0,
            shard: 3,
            layout: b"0,1,2,3/4,5,6,7",
        },
        Told {
            query: 1,
            shard: 2,
            layout: b"0,2,4,6/1,3,5,7",
        },
    ],
};

// A layout that is put in place and replaced before any query finds it.
static UNSEEN: Case = Case {
    asked: b"repart 0 0,2,4,6/1,3,5,7\nswap\nrepart 0 0,1,2,3/4,5,6,7\nswap\nrange a 3 00\ncancel a\nrange a 3 00\n",
    replies: b"building 0 left 0 at 0\nswapped 0 at 0\nbuilding 0 left 0 at 0\nswapped 0 at 0\nopen a at 0\ncancelled a 0\nopen a at 0\n",
    told: &[Told {
        query: 0,
        shard: 0,
        layout: b"0,1,2,3/4,5,6,7",
    }],
};

// Whether an item of a report is what is told.
fn is_told(item: &LayoutFrom, told: &Told) -> bool {
    item.query == told.query
        && item.shard == told.shard
        && item.layout.text().bytes() == told.layout
}

// Serves a session over a desk, and compares its replies and its report.
fn serve<D: Desk<1>, R: Abort + Env + Threads + Sync>(
    rt: &R,
    alloc: Global,
    config: &Config,
    desk: &mut D,
    case: &Case,
) -> Result<(), Fail>
    requires sync { IsSync R.row }
    requires config { (D.desk desk.old).config ≡ config.now }
{
    let mut source = MemorySource::new(case.asked.to_vec(alloc)?, 4096, Vec::new(alloc));
    let mut sink = MemorySink::new(alloc, Vec::new(alloc));
    let mut meters: Meters<Postings> = Meters::new(rt, alloc)?;
    let mut kept: Steps<Upkeep> = upkeep(rt);
    let report = session(
        rt,
        alloc,
        config,
        desk,
        &mut source,
        &mut sink,
        &NoGate,
        &mut kept,
        &mut meters,
    );
    assert_eq!(rt; sink.bytes(), case.replies);
    compare(rt, &report, case.told)
}

// Compares what a report tells of layouts.
fn compare<R: Abort>(rt: &R, report: &Report, told: &[Told]) -> Result<(), Fail> {
    let Status::Done = report.status else {
        panic!(rt; "a session that isn't done");
    };
    assert_eq!(rt; report.layouts.len(), told.len());
    for place in 0..told.len() {
        if place < report.layouts.len() {
            assert!(rt; is_told(&report.layouts[place], &told[place]));
        }
    }
    Ok(())
}

#[test]
fn a_layout_is_told_from_the_first_query_after_its_swap(rt: HostRuntime) -> Result<(), Fail> {
    let alloc = rt.alloc();
    let mut desk = SoloDesk::<1>::new(alloc, &ONE_SHARD)?;
    serve(&rt, alloc, &ONE_SHARD, &mut desk, &SWAPPED)
}

#[test]
fn each_shard_is_told_once_and_then_where_it_differs(rt: HostRuntime) -> Result<(), Fail> {
    let alloc = rt.alloc();
    let mut desk = SoloDesk::<1>::new(alloc, &FOUR_SHARDS)?;
    serve(&rt, alloc, &FOUR_SHARDS, &mut desk, &ONE_OF_FOUR)
}

#[test]
fn a_layout_that_no_query_pinned_is_not_told(rt: HostRuntime) -> Result<(), Fail> {
    let alloc = rt.alloc();
    let mut desk = SoloDesk::<1>::new(alloc, &ONE_SHARD)?;
    serve(&rt, alloc, &ONE_SHARD, &mut desk, &UNSEEN)
}
