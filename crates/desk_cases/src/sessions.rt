//! A session over the desk that another session left: what it replies, and what it asks the desk for.

ghost use Rattle.std.specs.Prelude.{◌≡◌, IfOk};
ghost use Rattle.std.specs.Thread.{IsSync};

use crate::counting::CountingDesk;
use gph_session::{Status, session};
use line_io::{MemorySink, MemorySource};
use part_layout::Config;
use read_meter::{Meters, Steps, upkeep};
use scatter_gather::NoGate;
use session_desk::{Desk, SoloDesk};
use std::alloc::Global;
use std::env::Env;
use std::process::Abort;
use std::test::Fail;
use std::thread::Threads;

// The ledger on which the sessions' postings are counted.
#[derive(Drop)]
struct Postings;

// The ledger on which the sessions' upkeep is counted.
#[derive(Drop)]
struct Upkeep;

// Codes of 8 bits in two parts, on one shard.
const CONFIG: Config = Config {
    bits: 8,
    parts: 2,
    shards: 1,
    room: 16,
    entries: 100,
    input: 1000,
};

// Lines of a session, and its replies.
struct Lines {
    asked: &'static [u8],
    told: &'static [u8],
}

// Four rows, and a query that pins their shard behind the last of them.
static ROWS: Lines = Lines {
    asked: b"add 1 00\nadd 2 0f\nadd 3 ff\nadd 4 01\nrange a 1 00\n",
    told: b"added 1 at 1\nadded 2 at 2\nadded 3 at 3\nadded 4 at 4\nopen a at 4\n",
};

// A query for the rows of the session before.
static QUERY: Lines = Lines {
    asked: b"range b 1 00\nnext b 9\ncost b\n",
    told: b"open b at 4\nhit b 0 1\nhit b 1 4\ndone b 2\ncost b reads 2 bound 2\n",
};

// A look-up by key.
static LOOK_UP: Lines = Lines {
    asked: b"get 2\n",
    told: b"code 2 0f at 4\n",
};

// Serves a session over a desk, and compares its replies.
fn serve<D: Desk<1>, R: Abort + Env + Threads + Sync>(
    rt: &R,
    alloc: Global,
    desk: &mut D,
    lines: &Lines,
) -> Result<(), Fail>
    requires sync { IsSync R.row }
    requires config { (D.desk desk.old).config ≡ CONFIG }
    ensures config { IfOk result (λ _. (D.desk desk.new).config ≡ CONFIG) }
{
    let mut source = MemorySource::new(lines.asked.to_vec(alloc)?, 4096, Vec::new(alloc));
    let mut sink = MemorySink::new(alloc, Vec::new(alloc));
    let mut meters: Meters<Postings> = Meters::new(rt, alloc)?;
    let mut kept: Steps<Upkeep> = upkeep(rt);
    let report = session(
        rt,
        alloc,
        &CONFIG,
        desk,
        &mut source,
        &mut sink,
        &NoGate,
        &mut kept,
        &mut meters,
    );
    assert_eq!(rt; sink.bytes(), lines.told);
    let Status::Done = report.status else {
        panic!(rt; "a session that isn't done");
    };
    Ok(())
}

// The codes are those of another session's rows, and none is asked for by its key: so they come from the versions that the query
// pins, which count each posting that is read. No call reads a ledger. What is seen of upkeep is that the one pin is at the
// position of the last pin before, for which a desk takes no step.
#[test]
fn strange_codes_are_read(rt: HostRuntime) -> Result<(), Fail> {
    let alloc = rt.alloc();
    let mut solo = SoloDesk::<1>::new(alloc, &CONFIG)?;
    serve(&rt, alloc, &mut solo, &ROWS)?;
    let mut desk = CountingDesk {
        inner: &mut solo,
        codes: 0,
        pinned: 4,
        upkeep: 0,
    };
    serve(&rt, alloc, &mut desk, &QUERY)?;
    assert_eq!(rt; (desk.codes, desk.upkeep), (0, 0));
    // A session that looks a key up does ask for its code.
    serve(&rt, alloc, &mut desk, &LOOK_UP)?;
    assert_eq!(rt; desk.codes, 1);
    Ok(())
}
