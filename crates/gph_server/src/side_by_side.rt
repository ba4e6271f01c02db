//! Connections side by side in threads.

ghost use Rattle.std.specs.Prelude.{◌≡◌, []};
ghost use Rattle.std.specs.Thread.{IsSync};

use crate::door::Door;
use crate::in_turn::serve_in_turn;
use part_layout::Config;
use shared_board::SharedDesk;
use std::alloc::Global;
use std::env::Env;
use std::sync::{Mutex, Wait};
use std::thread::{Threads, join};

/// Serves the connections of a door in at most so many threads, each at desks that come from one of its own, which leaves into this
/// one. Where a thread can't be started this one serves them all. It gives the desk back.
#[cycle(served)]
pub(crate) fn serve_side_by_side<'b, 'r, const W: usize, R: Env + Threads + Wait + Sync>(
    rt: &R,
    alloc: Global,
    config: &Config,
    door: &Mutex<Door>,
    threads: u32,
    desk: SharedDesk<'b, W, &'r R>,
) -> SharedDesk<'b, W, &'r R>
    requires sync { IsSync R.row }
    requires config { desk.config ≡ config.now }
    requires fronts { desk.fronts ≡ [] }
    ensures board { result.board ≡ desk.entry.board }
    ensures fronts { result.fronts ≡ [] }
{
    let mut desk = desk;
    if threads <= 1 {
        return serve_in_turn(rt, alloc, config, door, desk);
    }
    let Ok(other) = desk.desk() else {
        return serve_in_turn(rt, alloc, config, door, desk);
    };
    let half = threads / 2;
    let rest = threads - half;
    let (mut one, other) = join(
        rt,
        move ||
            requires { IsSync R.row × (desk.config ≡ config.now) × (desk.fronts ≡ []) }
            ensures { (result.board ≡ desk.entry.board) × (result.fronts ≡ []) }
        { serve_side_by_side(rt, alloc, config, door, half, desk) },
        move ||
            requires { IsSync R.row × (other.config ≡ config.now) × (other.fronts ≡ []) }
            ensures { (result.board ≡ other.entry.board) × (result.fronts ≡ []) }
        { serve_side_by_side(rt, alloc, config, door, rest, other) },
    );
    other.leave(&mut one);
    one
}
