//! Sessions one after another at the desks of one board.

ghost use Rattle.std.specs.Prelude.{◌≡◌, IfOk};
ghost use Rattle.std.specs.Thread.{IsSync};

use crate::served::{CONFIG, Case, Told, Upkeep, compare, serve};
use crate::watched::serve_watched;
use read_meter::{Steps, upkeep};
use shard_tending::{Tended, tend};
use shared_board::{Board, SharedDesk};
use std::alloc::Global;
use std::env::Env;
use std::process::Abort;
use std::sync::Wait;
use std::test::Fail;
use std::thread::Threads;

// Sessions that are alone at their board: a query for four rows, queries before and after a swap, and one of whose lines one is
// blank and one no request.
static ALONE: [Case; 3] = [
    Case {
        asked: b"add 1 00\nadd 2 0f\nadd 3 ff\nadd 4 01\nrange a 1 00\nnext a 10\n",
        replies: b"added 1 at 1\nadded 2 at 2\nadded 3 at 3\nadded 4 at 4\nopen a at 4\nhit a 0 1\nhit a 1 4\ndone a 2\n",
        requests: 6,
        position: 4,
        told: &[Told {
            query: 0,
            layout: b"0,1,2,3/4,5,6,7",
        }],
    },
    Case {
        asked: b"add 1 00\nadd 2 0f\nadd 3 ff\nadd 4 01\nrange a 3 00\nrepart 0 0,2,4,6/1,3,5,7\nbuild 9\nswap\nnext a 9\nrange b 3 00\nnext b 9\nplan a 0\nplan b 0\nlayout 0\n",
        replies: b"added 1 at 1\nadded 2 at 2\nadded 3 at 3\nadded 4 at 4\nopen a at 4\nbuilding 0 left 4 at 4\nbuilt 0 left 0\nswapped 0 at 4\nhit a 0 1\nhit a 1 4\ndone a 2\nopen b at 4\nhit b 0 1\nhit b 1 4\ndone b 2\nplan a 0 cost 2 -1 3\nplan b 0 cost 3 -1 3\nlayout 0 0,2,4,6/1,3,5,7\n",
        requests: 14,
        position: 4,
        told: &[
            Told {
                query: 0,
                layout: b"0,1,2,3/4,5,6,7",
            },
            Told {
                query: 1,
                layout: b"0,2,4,6/1,3,5,7",
            },
        ],
    },
    Case {
        asked: b"add 1 00\n\njump\nget 1\n",
        replies: b"added 1 at 1\nbad 3\ncode 1 00 at 1\n",
        requests: 3,
        position: 1,
        told: &[],
    },
];

// Serves a session at the one desk of a board.
fn serve_alone<R: Abort + Env + Threads + Wait + Sync>(
    rt: &R,
    alloc: Global,
    case: &Case,
) -> Result<(), Fail>
    requires sync { IsSync R.row }
{
    let (board, first) = Board::<1>::new(alloc, &CONFIG)?;
    let desk = board.first(first, rt);
    let mut kept: Steps<Upkeep> = upkeep(rt);
    let _desk = serve(rt, alloc, desk, case, &mut kept)?;
    Ok(())
}

#[test]
fn a_session_at_a_board_has_its_replies_and_its_report(rt: HostRuntime) -> Result<(), Fail> {
    for case in &ALONE {
        serve_alone(&rt, rt.alloc(), case)?;
    }
    Ok(())
}

// Three rows, and a layout that is put in place.
static BUILDS: Case = Case {
    asked: b"add 1 00\nadd 2 1f\nadd 3 e3\nrepart 0 0,1,2,6/3,4,5,7\nbuild 9\nswap\n",
    replies: b"added 1 at 1\nadded 2 at 2\nadded 3 at 3\nbuilding 0 left 3 at 3\nbuilt 0 left 0\nswapped 0 at 3\n",
    requests: 6,
    position: 3,
    told: &[],
};

// The layout that a turn put in its place.
static ASKS_LAYOUT: Case = Case {
    asked: b"layout 0\n",
    replies: b"layout 0 3,1,2,6/0,4,5,7\n",
    requests: 1,
    position: 3,
    told: &[],
};

// The first query of a desk that has seen no entry.
static FINDS_FIRST: Case = Case {
    asked: b"range a 0 00\nnext a 9\n",
    replies: b"open a at 3\nhit a 0 1\ndone a 1\n",
    requests: 2,
    position: 3,
    told: &[TENDED],
};

// What is told of the layout of a turn.
const TENDED: Told = Told {
    query: 0,
    layout: b"3,1,2,6/0,4,5,7",
};

// One row more.
static ADDS: Case = Case {
    asked: b"add 4 00\n",
    replies: b"added 4 at 4\n",
    requests: 1,
    position: 4,
    told: &[],
};

// A look-up and a query that find it.
static FINDS_IT: Case = Case {
    asked: b"get 4\nrange b 0 00\nnext b 9\n",
    replies: b"code 4 00 at 4\nopen b at 4\nhit b 0 1\nhit b 0 4\ndone b 2\n",
    requests: 3,
    position: 4,
    told: &[TENDED],
};

// A query at the same position.
static FINDS_AGAIN: Case = Case {
    asked: b"range c 0 00\nnext c 9\ncost c\n",
    replies: b"open c at 4\nhit c 0 1\nhit c 0 4\ndone c 2\ncost c reads 2 bound 2\n",
    requests: 3,
    position: 4,
    told: &[TENDED],
};

// A turn of the repartition worker, which swaps so many shards.
fn tend_once<'b, 'r, R: Abort + Wait>(
    rt: &R,
    alloc: Global,
    desk: &mut SharedDesk<'b, 1, &'r R>,
    swapped: u32,
    kept: &mut Steps<Upkeep>,
)
    ensures config { desk.new.config ≡ desk.old.config }
{
    let tended = tend(alloc, desk, kept);
    let is_tended = tended
        == Tended {
            swapped,
            moved: 0,
            nomem: 0,
        };
    assert!(rt; is_tended, "{swapped}");
}

// A desk whose shard stands in the layout that a turn found.
fn tended_desk<'b, 'r, R: Abort + Env + Threads + Wait + Sync>(
    rt: &R,
    alloc: Global,
    desk: SharedDesk<'b, 1, &'r R>,
    kept: &mut Steps<Upkeep>,
) -> Result<SharedDesk<'b, 1, &'r R>, Fail>
    requires sync { IsSync R.row }
    requires config { desk.config ≡ CONFIG }
    ensures config { IfOk result (λ desk. desk.config ≡ CONFIG) }
{
    let mut built = serve(rt, alloc, desk, &BUILDS, kept)?;
    tend_once(rt, alloc, &mut built, 1, kept);
    let mut told = serve(rt, alloc, built, &ASKS_LAYOUT, kept)?;
    tend_once(rt, alloc, &mut told, 0, kept);
    Ok(told)
}

// The sessions of two desks of one board, of which the second was made before all, in turns.
fn serve_in_turns<'b, 'r, R: Abort + Env + Threads + Wait + Sync>(
    rt: &R,
    alloc: Global,
    first: SharedDesk<'b, 1, &'r R>,
    second: SharedDesk<'b, 1, &'r R>,
    kept: &mut Steps<Upkeep>,
) -> Result<(), Fail>
    requires sync { IsSync R.row }
    requires first { first.config ≡ CONFIG }
    requires second { second.config ≡ CONFIG }
{
    let first = tended_desk(rt, alloc, first, kept)?;
    let second = serve(rt, alloc, second, &FINDS_FIRST, kept)?;
    let _first = serve(rt, alloc, first, &ADDS, kept)?;
    let second = serve(rt, alloc, second, &FINDS_IT, kept)?;
    let second = serve(rt, alloc, second, &FINDS_AGAIN, kept)?;
    // No call reads a ledger: what is seen of upkeep is that each pin is at the position of the one before, for which a desk takes no
    // step.
    let watched = serve_watched(rt, alloc, second, None, 4, FINDS_AGAIN.asked)?;
    compare(rt, &watched.report, watched.sink.bytes(), &FINDS_AGAIN);
    assert_eq!(rt; watched.upkeep, 0);
    Ok(())
}

#[test]
fn a_desk_sees_what_another_did_before_and_between_its_sessions(
    rt: HostRuntime,
) -> Result<(), Fail> {
    let (board, token) = Board::<1>::new(rt.alloc(), &CONFIG)?;
    let mut first = board.first(token, &rt);
    let second = first.desk()?;
    let mut kept: Steps<Upkeep> = upkeep(&rt);
    serve_in_turns(&rt, rt.alloc(), first, second, &mut kept)
}
