//! Bytes as they come.

ghost use Rattle.std.specs.Prelude.{◌≡◌, ◌<◌, ◌≤◌, length, take};
ghost use Rattle.std.specs.Thread.{IsSync};
ghost use Rattle.open_queries.specs.Writing.{IsCaused};
ghost use Rattle.layout_search.specs.Improves.{AreSamples};
ghost use Rattle.open_session.specs.KeptBuild.{IsBuildOfDesk};
ghost use Rattle.open_session.specs.Meaning.{IsReady, HaveShards};
ghost use Rattle.gph_session.specs.Pieces.{FlowsBetween, EndsBetween};
ghost use Rattle.open_session.specs.Moments.{point_of};

use line_io::{Failed, Sink};
use open_session::Session;
use part_layout::Config;
use read_meter::{Meters, Steps};
use scatter_gather::Gate;
use session_desk::Desk;
use session_step::{Turn, answer};
use std::alloc::Global;
use std::thread::Threads;

/// Answers the lines of a block, up to the first that ends the session.
pub(crate) fn answer_block<
    const W: usize,
    D: Desk<W>,
    K: Sink,
    R: Threads + Sync,
    G: Gate,
    L: Send,
    M,
>(
    rt: &R,
    alloc: Global,
    config: &Config,
    session: &mut Session<W>,
    desk: &mut D,
    block: &[u8],
    sink: &mut K,
    gate: &G,
    upkeep: &mut Steps<M>,
    meters: &mut Meters<L>,
) -> Result<Turn, Failed>
    requires sync { IsSync R.row }
    requires ready { IsReady W config.now }
    requires config { (D.desk desk.old).config ≡ config.now }
    requires shards { HaveShards config.now.shards session.old.queries }
    requires samples { AreSamples config.now.bits session.old.samples }
    requires build { IsBuildOfDesk (D.desk desk.old) session.old.build }
    ensures flow { FlowsBetween result config.now block.now
        (point_of (D.desk desk.old) session.old meters.old upkeep.old (K.held sink.old))
        (point_of (D.desk desk.new) session.new meters.new upkeep.new (K.held sink.new)) }
    ensures config { (D.desk desk.new).config ≡ config.now }
    ensures shards { HaveShards config.now.shards session.new.queries }
    ensures samples { AreSamples config.now.bits session.new.samples }
    ensures build { IsBuildOfDesk (D.desk desk.new) session.new.build }
    ensures cause { IsCaused (K.faults sink.old) (K.faults sink.new) result }
{
    let mut done = 0;
    while done < block.len() {
        let (taken, turn) = answer_line(
            rt,
            alloc,
            config,
            session,
            desk,
            &block[done..],
            sink,
            gate,
            upkeep,
            meters,
        );
        match turn {
            Ok(Turn::Goes) => done += taken,
            Ok(Turn::Quits) => return Ok(Turn::Quits),
            Err(Failed) => return Err(Failed),
        }
    }
    Ok(Turn::Goes)
}

// Takes the bytes up to and with the next LF, or all, and answers the line that they end: how many bytes, and how it goes on.
fn answer_line<const W: usize, D: Desk<W>, K: Sink, R: Threads + Sync, G: Gate, L: Send, M>(
    rt: &R,
    alloc: Global,
    config: &Config,
    session: &mut Session<W>,
    desk: &mut D,
    bytes: &[u8],
    sink: &mut K,
    gate: &G,
    upkeep: &mut Steps<M>,
    meters: &mut Meters<L>,
) -> (usize, Result<Turn, Failed>)
    requires sync { IsSync R.row }
    requires ready { IsReady W config.now }
    requires config { (D.desk desk.old).config ≡ config.now }
    requires shards { HaveShards config.now.shards session.old.queries }
    requires samples { AreSamples config.now.bits session.old.samples }
    requires build { IsBuildOfDesk (D.desk desk.old) session.old.build }
    requires some { 0 < length bytes.now }
    ensures progress { (0 < result.0) × (result.0 ≤ length bytes.now) }
    ensures flow { FlowsBetween result.1 config.now (take result.0 bytes.now)
        (point_of (D.desk desk.old) session.old meters.old upkeep.old (K.held sink.old))
        (point_of (D.desk desk.new) session.new meters.new upkeep.new (K.held sink.new)) }
    ensures config { (D.desk desk.new).config ≡ config.now }
    ensures shards { HaveShards config.now.shards session.new.queries }
    ensures samples { AreSamples config.now.bits session.new.samples }
    ensures build { IsBuildOfDesk (D.desk desk.new) session.new.build }
    ensures cause { IsCaused (K.faults sink.old) (K.faults sink.new) result.1 }
{
    let (taken, cut) = session.cutter.push(bytes);
    match cut {
        None => (taken, Ok(Turn::Goes)),
        Some(cut) => (
            taken,
            answer(
                rt, alloc, config, session, desk, cut, sink, gate, upkeep, meters,
            ),
        ),
    }
}

/// Answers what follows the last LF, where the input has ended.
pub(crate) fn answer_end<
    const W: usize,
    D: Desk<W>,
    K: Sink,
    R: Threads + Sync,
    G: Gate,
    L: Send,
    M,
>(
    rt: &R,
    alloc: Global,
    config: &Config,
    session: &mut Session<W>,
    desk: &mut D,
    sink: &mut K,
    gate: &G,
    upkeep: &mut Steps<M>,
    meters: &mut Meters<L>,
) -> Result<Turn, Failed>
    requires sync { IsSync R.row }
    requires ready { IsReady W config.now }
    requires config { (D.desk desk.old).config ≡ config.now }
    requires shards { HaveShards config.now.shards session.old.queries }
    requires samples { AreSamples config.now.bits session.old.samples }
    requires build { IsBuildOfDesk (D.desk desk.old) session.old.build }
    ensures flow { EndsBetween result config.now
        (point_of (D.desk desk.old) session.old meters.old upkeep.old (K.held sink.old))
        (point_of (D.desk desk.new) session.new meters.new upkeep.new (K.held sink.new)) }
    ensures cause { IsCaused (K.faults sink.old) (K.faults sink.new) result }
{
    match session.cutter.finish() {
        None => Ok(Turn::Goes),
        Some(cut) => answer(
            rt, alloc, config, session, desk, cut, sink, gate, upkeep, meters,
        ),
    }
}
