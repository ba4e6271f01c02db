//! What one connection is to the board: a desk that comes and leaves.

ghost use Rattle.std.specs.Prelude.{◌≡◌, []};
ghost use Rattle.std.specs.Thread.{IsSync};

use crate::connection::serve_connection;
use crate::ledgers::{Postings, Upkeep};
use crate::parting::part_from;
use part_layout::Config;
use read_meter::{Meters, upkeep};
use shard_tending::tend;
use shared_board::SharedDesk;
use std::alloc::Global;
use std::env::Env;
use std::net::TcpStream;
use std::sync::Wait;
use std::thread::Threads;

/// Serves a connection at a new desk, which then makes a turn of the repartition worker and leaves into this one. Where there is no
/// memory for a desk or for ledgers the connection is closed unanswered.
pub(crate) fn serve_visit<'b, 'r, const W: usize, R: Env + Threads + Wait + Sync>(
    rt: &R,
    alloc: Global,
    config: &Config,
    stream: TcpStream,
    desk: &mut SharedDesk<'b, W, &'r R>,
)
    requires sync { IsSync R.row }
    requires config { desk.old.config ≡ config.now }
    requires fronts { desk.old.fronts ≡ [] }
    ensures board { desk.new.board ≡ desk.old.board }
    ensures config { desk.new.config ≡ desk.old.config }
    ensures fronts { desk.new.fronts ≡ [] }
{
    let Ok(mut meters) = Meters::<Postings>::new(rt, alloc) else {
        return;
    };
    let Ok(own) = desk.desk() else {
        return;
    };
    // Replies are gathered, so the system needn't hold small ones back; it may.
    let _ = stream.set_nodelay(true);
    let mut steps = upkeep::<Upkeep, _>(rt);
    let mut own = serve_connection(rt, alloc, config, own, &stream, &mut steps, &mut meters);
    part_from(&stream);
    drop(stream);
    let _tended = tend(alloc, &mut own, &mut steps);
    own.leave(desk);
}
