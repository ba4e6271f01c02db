//! A session from its first read to its end.

ghost use Rattle.std.specs.Prelude.{◌≡◌, ◌≤◌, [], length};
ghost use Rattle.std.specs.Thread.{IsSync};
ghost use Rattle.session_model.specs.declared.limits.TheConstants.{BLOCK_MOST};
ghost use Rattle.session_model.specs.Outside.{call};
ghost use Rattle.layout_search.specs.Improves.{AreSamples};
ghost use Rattle.open_session.specs.KeptBuild.{IsBuildOfDesk};
ghost use Rattle.open_session.specs.Meaning.{IsReady, HaveShards};
ghost use Rattle.gph_session.specs.Flow.{HasBegunWith, told_so_far};
ghost use Rattle.open_session.specs.Moments.{moment_of};
ghost use Rattle.gph_session.specs.Serving.{EndsAs};

use crate::block::{answer_block, answer_end};
use crate::report::Status;
use line_io::{Failed, Sink, Source};
use open_session::Session;
use part_layout::Config;
use read_meter::{Meters, Steps};
use scatter_gather::Gate;
use session_desk::Desk;
use session_model::BLOCK_MOST;
use session_step::Turn;
use std::alloc::Global;
use std::thread::Threads;

/// Reads and answers, at most the input's limit, until the input ends or a line ends the session.
pub(crate) fn serve<
    const W: usize,
    D: Desk<W>,
    S: Source,
    K: Sink,
    R: Threads + Sync,
    G: Gate,
    L: Send,
    M,
>(
    rt: &R,
    alloc: Global,
    config: &Config,
    session: &mut Session<W>,
    desk: &mut D,
    block: &mut [u8],
    source: &mut S,
    sink: &mut K,
    gate: &G,
    upkeep: &mut Steps<M>,
    meters: &mut Meters<L>,
) -> Status
    requires sync { IsSync R.row }
    requires ready { IsReady W config.now }
    requires config { (D.desk desk.old).config ≡ config.now }
    requires shards { HaveShards config.now.shards session.old.queries }
    requires samples { AreSamples config.now.bits session.old.samples }
    requires build { IsBuildOfDesk (D.desk desk.old) session.old.build }
    requires room { length block.old ≡ BLOCK_MOST }
    requires new { HasBegunWith config.now
        (moment_of (D.desk desk.old) session.old meters.old upkeep.old) session.old.cutter.held }
    ensures { EndsAs result config.now (D.desk desk.old) (D.desk desk.new) (told_so_far (moment_of
        (D.desk desk.new) session.new meters.new upkeep.new)) (call S.left S.faults K.held K.faults
        source.old source.new sink.old sink.new meters.old meters.new upkeep.old upkeep.new) }
{
    let limit = config.input;
    let mut taken: u64 = 0;
    loop {
        let room = (limit - taken).clamp(1, BLOCK_MOST as u64) as usize;
        match source.read(&mut block[..room]) {
            Err(Failed) => return Status::ReadFault,
            Ok(0) => {
                return match answer_end(
                    rt, alloc, config, session, desk, sink, gate, upkeep, meters,
                ) {
                    Ok(_) => Status::Done,
                    Err(Failed) => Status::WriteFault,
                };
            }
            Ok(count) => {
                if taken == limit {
                    return Status::InputLimit;
                }
                taken += count as u64;
                match answer_block(
                    rt,
                    alloc,
                    config,
                    session,
                    desk,
                    &block[..count],
                    sink,
                    gate,
                    upkeep,
                    meters,
                ) {
                    Ok(Turn::Goes) => {}
                    Ok(Turn::Quits) => return Status::Done,
                    Err(Failed) => return Status::WriteFault,
                }
            }
        }
    }
}
