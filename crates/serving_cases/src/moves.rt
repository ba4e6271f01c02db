//! A session whose build another desk outruns.

use crate::served::{CONFIG, Case, Told, compare};
use crate::watched::serve_watched;
use shared_board::Board;
use std::test::Fail;

// A swap that comes late, after which the build is still there; a second swap, which takes it along the new entry; and a query over
// what is left.
static MOVED: Case = Case {
    asked: b"add 1 00\nadd 2 0f\nadd 3 ff\nadd 4 01\nrepart 0 0,2,4,6/1,3,5,7\nbuild 9\nswap\nrepart 0 0,2,4,6/1,3,5,7\nswap\nswap\nlayout 0\nrange a 3 00\nnext a 9\n",
    replies: b"added 1 at 1\nadded 2 at 2\nadded 3 at 3\nadded 4 at 4\nbuilding 0 left 4 at 4\nbuilt 0 left 0\nmoved 0 front 4 shard 5\nbad 10\nswapped 0 at 5\nbad 10\nlayout 0 0,2,4,6/1,3,5,7\nopen a at 5\nhit a 0 1\ndone a 1\n",
    requests: 13,
    position: 5,
    told: &[Told {
        query: 0,
        layout: b"0,2,4,6/1,3,5,7",
    }],
};

#[test]
fn moved_is_told(rt: HostRuntime) -> Result<(), Fail> {
    let (board, token) = Board::<1>::new(rt.alloc(), &CONFIG)?;
    let mut first = board.first(token, &rt);
    let second = first.desk()?;
    let watched = serve_watched(&rt, rt.alloc(), first, Some(second), 0, MOVED.asked)?;
    compare(&rt, &watched.report, watched.sink.bytes(), &MOVED);
    Ok(())
}
