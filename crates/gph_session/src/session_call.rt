//! One session over a desk.

ghost use Rattle.std.specs.Prelude.{◌≡◌, ◌≤◌, true};
ghost use Rattle.std.specs.Thread.{IsSync};
ghost use Rattle.session_desk.specs.Calls.{OnlyLearns};
ghost use Rattle.session_model.specs.Outside.{Untouched};
ghost use Rattle.session_model.specs.Outcomes.{IsDone, IsReadFault, IsWriteFault};
ghost use Rattle.session_model.specs.Outside.{call};
ghost use Rattle.session_model.specs.Outcomes.{IsInputLimit};
ghost use Rattle.gph_session.specs.Sessions.{EndsBy, nothing_told, told_by};

use crate::report::{Report, Status};
use crate::serve::serve;
use line_io::{Sink, Source};
use open_session::{Session, new_session};
use part_layout::Config;
use read_meter::{Meters, NoMemory, Steps};
use scatter_gather::Gate;
use session_desk::Desk;
use session_model::BLOCK_MOST;
use std::alloc::Global;
use std::thread::Threads;

/// Serves one session over a desk, which others may share, until the input ends or a line ends it. The ledgers count as in `run`.
pub fn session<
    const W: usize,
    D: Desk<W>,
    S: Source,
    K: Sink,
    R: Threads + Sync,
    G: Gate,
    L: Send,
    M,
>(
    rt: &R,
    alloc: Global,
    config: &Config,
    desk: &mut D,
    source: &mut S,
    sink: &mut K,
    gate: &G,
    upkeep: &mut Steps<M>,
    meters: &mut Meters<L>,
) -> Report
    requires sync { IsSync R.row }
    requires config { (D.desk desk.old).config ≡ config.now }
    // Where there was no memory to begin with nothing was done.
    ensures unread { result.status ≡ Status.NoMemory → OnlyLearns (D.desk desk.old)
        (D.desk desk.new) × Untouched (call S.left S.faults K.held K.faults source.old source.new
        sink.old sink.new meters.old meters.new upkeep.old upkeep.new) }
    ensures unchanged { result.status ≡ Status.NoMemory → (D.desk desk.old).alone ≡ true →
        D.desk desk.new ≡ D.desk desk.old }
    ensures empty { result.status ≡ Status.NoMemory →
        told_by result ≡ nothing_told (D.desk desk.new) }
    // What was read, written and counted, and what the desk has seen, by each other status, with its cause.
    ensures done { result.status ≡ Status.Done → EndsBy IsDone config.now result
        (D.desk desk.old) (D.desk desk.new) (call S.left S.faults K.held K.faults source.old
        source.new sink.old sink.new meters.old meters.new upkeep.old upkeep.new) }
    ensures read_fault { result.status ≡ Status.ReadFault → EndsBy IsReadFault config.now result
        (D.desk desk.old) (D.desk desk.new) (call S.left S.faults K.held K.faults source.old
        source.new sink.old sink.new meters.old meters.new upkeep.old upkeep.new) }
    ensures write_fault { result.status ≡ Status.WriteFault → EndsBy IsWriteFault config.now result
        (D.desk desk.old) (D.desk desk.new) (call S.left S.faults K.held K.faults source.old
        source.new sink.old sink.new meters.old meters.new upkeep.old upkeep.new) }
    ensures input_limit { result.status ≡ Status.InputLimit → EndsBy IsInputLimit config.now result
        (D.desk desk.old) (D.desk desk.new) (call S.left S.faults K.held K.faults source.old
        source.new sink.old sink.new meters.old meters.new upkeep.old upkeep.new) }
{
    // The desk's own calls say what is true of it.
    let position = desk.length();
    let _who = desk.who();
    let begun = new_session::<W>(alloc, position);
    let block = Vec::from_elem(alloc, 0u8, BLOCK_MOST);
    let (Ok(mut session), Ok(mut block)) = (begun, block) else {
        return Report {
            status: Status::NoMemory,
            requests: 0,
            position,
            layouts: Vec::new(alloc),
        };
    };
    let status = serve(
        rt,
        alloc,
        config,
        &mut session,
        desk,
        block.as_mut_slice(),
        source,
        sink,
        gate,
        upkeep,
        meters,
    );
    let requests = session.requests;
    let position = session.position;
    let Session { pinned, .. } = session;
    Report {
        status,
        requests,
        position,
        layouts: pinned.told,
    }
}
