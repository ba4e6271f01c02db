//! Connections one after the other.

ghost use Rattle.std.specs.Prelude.{◌≡◌, []};
ghost use Rattle.std.specs.Thread.{IsSync};

use crate::door::Door;
use crate::visit::serve_visit;
use part_layout::Config;
use shared_board::SharedDesk;
use std::alloc::Global;
use std::env::Env;
use std::net::TcpStream;
use std::sync::{Mutex, Wait};
use std::thread::Threads;

/// Serves the connections that are left of a door, each at a desk that comes from this one and leaves into it. It gives the desk back.
pub(crate) fn serve_in_turn<'b, 'r, const W: usize, R: Env + Threads + Wait + Sync>(
    rt: &R,
    alloc: Global,
    config: &Config,
    door: &Mutex<Door>,
    desk: SharedDesk<'b, W, &'r R>,
) -> SharedDesk<'b, W, &'r R>
    requires sync { IsSync R.row }
    requires config { desk.config ≡ config.now }
    requires fronts { desk.fronts ≡ [] }
    ensures board { result.board ≡ desk.entry.board }
    ensures fronts { result.fronts ≡ [] }
{
    let mut desk = desk;
    for _ in rt.forever() {
        let Some(stream) = next_of(rt, door) else {
            break;
        };
        serve_visit(rt, alloc, config, stream, &mut desk);
    }
    desk
}

// Waits for the next connection of a door: one thread at a time in the system, and the others for their turn.
fn next_of<R: Wait>(rt: &R, door: &Mutex<Door>) -> Option<TcpStream> {
    door.lock(rt).next()
}
