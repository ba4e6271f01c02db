//! One session over a desk of a board.

ghost use Rattle.std.specs.Prelude.{◌≡◌, []};
ghost use Rattle.std.specs.Thread.{IsSync};
ghost use Rattle.session_desk.specs.Calls.{OnlyLearns};
ghost use Rattle.session_model.specs.Outside.{Untouched};
ghost use Rattle.session_model.specs.Outcomes.{IsDone, IsReadFault, IsWriteFault};
ghost use Rattle.session_model.specs.Outside.{call};
ghost use Rattle.session_model.specs.Outcomes.{IsInputLimit};
ghost use Rattle.gph_session.specs.Sessions.{EndsBy, nothing_told, told_by};
ghost use Rattle.shared_board.specs.Shared.{shared_desk};
ghost use Rattle.gph_serve.specs.BoardSession.{IsCompleteSession, KeepsSeat};

use gph_session::{Report, Status, session};
use line_io::{Sink, Source};
use part_layout::Config;
use read_meter::{Meters, Steps};
use scatter_gather::Gate;
use shared_board::SharedDesk;
use std::alloc::Global;
use std::sync::Wait;
use std::thread::Threads;

/// Serves one session over `source` and `sink` at a desk of a board, beside those of other desks in other threads, until the input
/// ends or a line ends it; gives back the desk, and a report of the session. Each of the ledgers counts the postings that the
/// session's queries read on its shard, and `upkeep` the entries that its shards follow and the rows that it places. It waits for a
/// place of the board while another desk holds that, and for nothing else: a search holds none.
pub fn serve_one<
    'b,
    const W: usize,
    T: Wait + Copy,
    S: Source,
    K: Sink,
    R: Threads + Sync,
    G: Gate,
    L: Send,
    M,
>(
    rt: &R,
    alloc: Global,
    config: &Config,
    desk: SharedDesk<'b, W, T>,
    source: &mut S,
    sink: &mut K,
    gate: &G,
    upkeep: &mut Steps<M>,
    meters: &mut Meters<L>,
) -> (Report, SharedDesk<'b, W, T>)
    requires sync { IsSync R.row }
    requires config { desk.config ≡ config.now }
    // The desk is as it was but for what it has seen, its pins and its counts: what it had seen begins that.
    ensures keeps { KeepsSeat (shared_desk desk.entry) (shared_desk result.1) }
    ensures no_fronts { desk.entry.fronts ≡ [] → result.1.fronts ≡ [] }
    // Where there was no memory to begin with nothing was done.
    ensures unread { result.0.status ≡ Status.NoMemory → OnlyLearns (shared_desk desk.entry)
        (shared_desk result.1) × Untouched (call S.left S.faults K.held K.faults source.old
        source.new sink.old sink.new meters.old meters.new upkeep.old upkeep.new) }
    ensures empty { result.0.status ≡ Status.NoMemory →
        told_by result.0 ≡ nothing_told (shared_desk result.1) }
    // What was read, written and counted, and what the desk has seen, by each other status, with its cause.
    ensures done { result.0.status ≡ Status.Done → EndsBy IsDone config.now result.0
        (shared_desk desk.entry) (shared_desk result.1) (call S.left S.faults K.held K.faults
        source.old source.new sink.old sink.new meters.old meters.new upkeep.old upkeep.new) }
    ensures read_fault { result.0.status ≡ Status.ReadFault → EndsBy IsReadFault config.now result.0
        (shared_desk desk.entry) (shared_desk result.1) (call S.left S.faults K.held K.faults
        source.old source.new sink.old sink.new meters.old meters.new upkeep.old upkeep.new) }
    ensures write_fault { result.0.status ≡ Status.WriteFault → EndsBy IsWriteFault config.now
        result.0 (shared_desk desk.entry) (shared_desk result.1) (call S.left S.faults K.held
        K.faults source.old source.new sink.old sink.new meters.old meters.new
        upkeep.old upkeep.new) }
    ensures input_limit { result.0.status ≡ Status.InputLimit → EndsBy IsInputLimit config.now
        result.0 (shared_desk desk.entry) (shared_desk result.1) (call S.left S.faults K.held
        K.faults source.old source.new sink.old sink.new meters.old meters.new
        upkeep.old upkeep.new) }
    // No input within the limit is turned away, unless a fault rose or memory lacked.
    ensures complete { IsCompleteSession result.0.status config.now (call S.left S.faults
        K.held K.faults source.old source.new sink.old sink.new
        meters.old meters.new upkeep.old upkeep.new) }
{
    let mut desk = desk;
    let report = session(
        rt, alloc, config, &mut desk, source, sink, gate, upkeep, meters,
    );
    (report, desk)
}
