//! The command `listen`: a board, and sessions at it for the connections of a port.

ghost use Rattle.std.specs.Prelude.{◌≡◌, ◌≤◌, []};
ghost use Rattle.std.specs.Thread.{IsSync};
ghost use Rattle.hamming_model.specs.declared.limits.TheConstants.{WORDS_MOST};
ghost use Rattle.gph_codes.specs.Allowed.{IsAllowed};
ghost use Rattle.part_layout.specs.Ranges.{IsConfig};

use crate::door::Door;
use crate::side_by_side::serve_side_by_side;
use gph_codes::for_width;
use part_layout::Config;
use shared_board::Board;
use std::alloc::Global;
use std::env::Env;
use std::net::{Ipv4Addr, Net, SocketAddr, TcpListener, TcpStream};
use std::sync::{Mutex, Wait};
use std::thread::Threads;

// How many connections are served at a time at most.
const THREADS: u32 = 8;

/// How a `listen` ended.
pub(crate) enum Listened {
    /// All connections were served, and the journal has so many entries.
    Closed { entries: u64 },
    /// There was no memory for the board.
    NoMemory,
    /// The port couldn't be bound, or a connection not accepted.
    Failed,
    /// The board wasn't free at the end.
    Held,
}

/// Serves so many connections to a port of the loopback address, each by a session at one board.
pub(crate) fn listen<
    R: Env + Net<Listener = TcpListener, Stream = TcpStream> + Threads + Wait + Sync,
>(rt: &R, alloc: Global, config: &Config, port: u16, sessions: u32) -> Listened
    requires sync { IsSync R.row }
    requires config { IsConfig config.now }
{
    for_width!(config.bits, listen_at_width<_>, rt, alloc, config, port, sessions)
}

// Serves them in codes of W words.
fn listen_at_width<
    const W: usize,
    R: Env + Net<Listener = TcpListener, Stream = TcpStream> + Threads + Wait + Sync,
>(rt: &R, alloc: Global, config: &Config, port: u16, sessions: u32) -> Listened
    requires sync { IsSync R.row }
    requires few_words { W ≤ WORDS_MOST }
    requires allowed { IsAllowed W config.now.bits }
    requires config { IsConfig config.now }
{
    let Ok((board, first)) = Board::<W>::new(alloc, config) else {
        return Listened::NoMemory;
    };
    let desk = board.first(first, rt);
    let address = SocketAddr::new(Ipv4Addr::LOCALHOST.into(), port);
    let Ok(listener) = TcpListener::bind(rt, address) else {
        return Listened::Failed;
    };
    let door = Mutex::new(Door::new(listener, sessions));
    let desk = serve_side_by_side(rt, alloc, config, &door, THREADS, desk);
    let standing = desk.stand();
    let has_failed = door.into_inner().has_failed();
    match board.close(standing) {
        Ok(_journal) if has_failed => Listened::Failed,
        Ok(journal) => Listened::Closed {
            entries: journal.length(),
        },
        Err(_held) => Listened::Held,
    }
}
