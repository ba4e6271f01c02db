//! One connection, as the source and the sink of a session.

ghost use Rattle.std.specs.Prelude.{◌≡◌, []};
ghost use Rattle.std.specs.Thread.{IsSync};

use crate::ledgers::{Postings, Upkeep};
use gph_serve::serve_one;
use line_io::{Gathered, GatheredReader, GatheredWriter};
use part_layout::Config;
use read_meter::{Meters, Steps};
use scatter_gather::NoGate;
use shared_board::SharedDesk;
use std::alloc::Global;
use std::net::TcpStream;
use std::sync::Wait;
use std::thread::Threads;

/// Serves the session of a connection at a desk, which it gives back. Where there is no memory for it nothing is answered. What was
/// written is gathered, and given out before each read and at the end, as on standard output. However it ends, that is the end of
/// this connection alone.
pub(crate) fn serve_connection<'b, 'r, const W: usize, R: Threads + Wait + Sync>(
    rt: &R,
    alloc: Global,
    config: &Config,
    desk: SharedDesk<'b, W, &'r R>,
    stream: &TcpStream,
    steps: &mut Steps<Upkeep>,
    meters: &mut Meters<Postings>,
) -> SharedDesk<'b, W, &'r R>
    requires sync { IsSync R.row }
    requires config { desk.config ≡ config.now }
    requires fronts { desk.fronts ≡ [] }
    ensures board { result.board ≡ desk.entry.board }
    ensures fronts { result.fronts ≡ [] }
{
    let Ok(gathered) = Gathered::new(alloc, stream) else {
        return desk;
    };
    let mut source = GatheredReader::new(stream, &gathered);
    let mut sink = GatheredWriter::new(&gathered);
    let (_report, desk) = serve_one(
        rt,
        alloc,
        config,
        desk,
        &mut source,
        &mut sink,
        &NoGate,
        steps,
        meters,
    );
    let _ = gathered.give_out();
    desk
}
