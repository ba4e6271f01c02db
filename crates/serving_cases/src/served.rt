//! A session at a desk of a board, whose replies and report are compared.

ghost use Rattle.std.specs.Prelude.{◌≡◌, IfOk};
ghost use Rattle.std.specs.Thread.{IsSync};

use gph_serve::serve_one;
use gph_session::{LayoutFrom, Report, Status};
use line_io::{MemorySink, MemorySource};
use part_layout::Config;
use read_meter::{Meters, Steps};
use scatter_gather::NoGate;
use shared_board::SharedDesk;
use std::alloc::Global;
use std::env::Env;
use std::process::Abort;
use std::sync::Wait;
use std::test::Fail;
use std::thread::Threads;

// The ledger on which the sessions' postings are counted.
#[derive(Drop)]
pub(crate) struct Postings;

// The ledger on which the sessions' upkeep is counted.
#[derive(Drop)]
pub(crate) struct Upkeep;

// Codes of 8 bits in two parts, on one shard.
pub(crate) const CONFIG: Config = Config {
    bits: 8,
    parts: 2,
    shards: 1,
    room: 16,
    entries: 100,
    input: 1000,
};

// The most bytes of one read.
pub(crate) const BLOCK: usize = 1000;

// A layout that is told of a query, on the one shard.
pub(crate) struct Told {
    pub(crate) query: u64,
    pub(crate) layout: &'static [u8],
}

// The lines of a session, its replies, and its report.
pub(crate) struct Case {
    pub(crate) asked: &'static [u8],
    pub(crate) replies: &'static [u8],
    pub(crate) requests: u64,
    pub(crate) position: u64,
    pub(crate) told: &'static [Told],
}

// Serves a session at a desk of a board, and compares its replies and its report.
pub(crate) fn serve<'b, 'r, R: Abort + Env + Threads + Wait + Sync>(
    rt: &R,
    alloc: Global,
    desk: SharedDesk<'b, 1, &'r R>,
    case: &Case,
    upkeep: &mut Steps<Upkeep>,
) -> Result<SharedDesk<'b, 1, &'r R>, Fail>
    requires sync { IsSync R.row }
    requires config { desk.config ≡ CONFIG }
    ensures config { IfOk result (λ desk. desk.config ≡ CONFIG) }
{
    let mut source = MemorySource::new(case.asked.to_vec(alloc)?, BLOCK, Vec::new(alloc));
    let mut sink = MemorySink::new(alloc, Vec::new(alloc));
    let mut meters: Meters<Postings> = Meters::new(rt, alloc)?;
    let (report, desk) = serve_one(
        rt,
        alloc,
        &CONFIG,
        desk,
        &mut source,
        &mut sink,
        &NoGate,
        upkeep,
        &mut meters,
    );
    compare(rt, &report, sink.bytes(), case);
    Ok(desk)
}

// Compares the replies of a session and what it tells of itself.
pub(crate) fn compare<R: Abort>(rt: &R, report: &Report, replies: &[u8], case: &Case) {
    assert_eq!(rt; replies, case.replies);
    assert!(rt; report.status == Status::Done);
    assert_eq!(rt;
        (report.requests, report.position),
        (case.requests, case.position)
    );
    assert_eq!(rt; report.layouts.len(), case.told.len());
    for place in 0..case.told.len() {
        if place < report.layouts.len() {
            assert!(rt; is_told(&report.layouts[place], &case.told[place]));
        }
    }
}

// Whether an item of a report is what is told.
fn is_told(item: &LayoutFrom, told: &Told) -> bool {
    item.query == told.query && item.shard == 0 && item.layout.text().bytes() == told.layout
}
