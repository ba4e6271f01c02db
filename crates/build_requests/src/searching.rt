//! `search`.

ghost use Rattle.std.specs.Prelude.{◌≡◌, ◌<◌, ◌≤◌, ℕ, List, IfOk, OnErr};
ghost use Rattle.layout_search.specs.Improves.{AreSamples};
ghost use Rattle.query_protocol.specs.Requests.{Search};
ghost use Rattle.query_protocol.specs.Stored.{AreRounds};
ghost use Rattle.open_queries.specs.Writing.{IsCaused};
ghost use Rattle.open_session.specs.KeptBuild.{KeepsBuilds};
ghost use Rattle.open_session.specs.Meaning.{IsReady};
ghost use Rattle.open_session.specs.Moments.{moment_of};
ghost use Rattle.open_session.specs.PlainSteps.{AnswersUnread};
ghost use Rattle.build_requests.specs.Searching.{HasSearched, LacksSearch};

use layout_search::Found;
use line_io::{Failed, Sink};
use open_queries::{say, send};
use open_session::Session;
use part_layout::Config;
use query_protocol::{Reply, write_searched};
use read_meter::{NoMemory, Steps};
use session_desk::Desk;
use shard_rebuild::search_layout;
use std::alloc::Global;

/// Searches a layout for a shard that is cheaper for the session's samples, and answers it with what both cost.
pub fn search<const W: usize, D: Desk<W>, K: Sink, M>(
    alloc: Global,
    config: &Config,
    session: &mut Session<W>,
    desk: &mut D,
    shard: u32,
    rounds: u32,
    sink: &mut K,
    upkeep: &mut Steps<M>,
) -> Result<(), Failed>
    requires config { (D.desk desk.old).config ≡ config.now }
    requires samples { AreSamples config.now.bits session.old.samples }
    requires shard { shard < config.now.shards }
    requires rounds { AreRounds rounds }
    ensures answers { AnswersUnread (Search shard rounds) result config.now (D.desk desk.old)
        (D.desk desk.new) session.old session.new upkeep.old upkeep.new
        (K.held sink.old) (K.held sink.new) }
    ensures cutter { session.new.cutter ≡ session.old.cutter }
    ensures requests { session.new.requests ≡ session.old.requests }
    ensures queries { session.new.queries ≡ session.old.queries }
    ensures pinned { session.new.pinned ≡ session.old.pinned }
    ensures samples { session.new.samples ≡ session.old.samples }
    ensures build { session.new.build ≡ session.old.build }
    ensures config { (D.desk desk.new).config ≡ config.now }
    ensures builds { KeepsBuilds (D.desk desk.old) (D.desk desk.new) }
    ensures cause { IsCaused (K.faults sink.old) (K.faults sink.new) result }
{
    let Ok((found, at)) = searched(alloc, session, desk, shard, rounds, upkeep) else {
        return say(&mut session.out, sink, &Reply::NoMemory);
    };
    let text = found.layout.text();
    session.out.clear();
    write_searched(
        shard,
        found.before,
        found.after,
        found.swaps,
        at,
        &text,
        &mut session.out,
    );
    send(&session.out, sink)
}

// Searches a layout for a shard, and tells it with the position of its rows.
fn searched<const W: usize, D: Desk<W>, M>(
    alloc: Global,
    session: &mut Session<W>,
    desk: &mut D,
    shard: u32,
    rounds: u32,
    upkeep: &mut Steps<M>,
) -> Result<(Found, u64), NoMemory>
    requires shard { shard < (D.desk desk.old).config.shards }
    requires samples { AreSamples (D.desk desk.old).config.bits session.old.samples }
    requires rounds { AreRounds rounds }
    ensures found { (reads : List ℕ) → IfOk result (λ found. HasSearched W
        (moment_of (D.desk desk.old) session.old reads upkeep.old) (moment_of (D.desk desk.new)
        session.new reads upkeep.new) shard rounds found.0 found.1) }
    ensures none { (reads : List ℕ) → OnErr result (LacksSearch W
        (moment_of (D.desk desk.old) session.old reads upkeep.old)
        (moment_of (D.desk desk.new) session.new reads upkeep.new) shard) }
    ensures cutter { session.new.cutter ≡ session.old.cutter }
    ensures requests { session.new.requests ≡ session.old.requests }
    ensures queries { session.new.queries ≡ session.old.queries }
    ensures pinned { session.new.pinned ≡ session.old.pinned }
    ensures samples { session.new.samples ≡ session.old.samples }
    ensures build { session.new.build ≡ session.old.build }
{
    // The desk's own calls say what is true of it.
    let _who = desk.who();
    let samples = session.samples.all();
    let (found, at) = search_layout(alloc, desk, shard, samples, rounds, upkeep)?;
    session.position = at;
    Ok((found, at))
}
