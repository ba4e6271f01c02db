//! `repart`, `build` and `swap`: the requests on builds.

ghost use Rattle.std.specs.Prelude.{◌≡◌, ◌<◌, ◌≤◌, ℕ, List};
ghost use Rattle.std.specs.Arc.{arc_value};
ghost use Rattle.hamming_model.specs.declared.limits.TheConstants.{WORDS_MOST};
ghost use Rattle.query_protocol.specs.Requests.{Repart, Build, Swap};
ghost use Rattle.query_protocol.specs.Replies.{line_of};
ghost use Rattle.query_protocol.specs.Stored.{IsLaidFor};
ghost use Rattle.open_queries.specs.Writing.{IsCaused};
ghost use Rattle.session_desk.specs.Desks.{DeskState};
ghost use Rattle.open_session.specs.Steps.{AnswersOnBuild};
ghost use Rattle.open_session.specs.KeptBuild.{IsBuildOfDesk};
ghost use Rattle.open_session.specs.Meaning.{IsReady};
ghost use Rattle.open_session.specs.Moments.{moment_of};
ghost use Rattle.build_requests.specs.Rebuilding.{PlacesAs, StartsAs};
ghost use Rattle.build_requests.specs.SwappingIn.{SwapsInAs};

use line_io::{Failed, Sink};
use open_queries::say;
use open_session::{Session, ShardBuild};
use part_layout::{Config, Layout};
use query_protocol::{Bad, Reply};
use read_meter::Steps;
use session_desk::Desk;
use shard_rebuild::{SwapAnswer, start_build, swap_build};
use std::alloc::Global;
use std::sync::Arc;

/// Starts to build a layout for a shard, and answers how many rows are to be placed.
pub fn start<const W: usize, D: Desk<W>, K: Sink, M>(
    alloc: Global,
    config: &Config,
    session: &mut Session<W>,
    desk: &mut D,
    shard: u32,
    layout: Layout,
    sink: &mut K,
    upkeep: &mut Steps<M>,
) -> Result<(), Failed>
    requires ready { IsReady W config.now }
    requires config { (D.desk desk.old).config ≡ config.now }
    requires build { IsBuildOfDesk (D.desk desk.old) session.old.build }
    requires shard { shard < config.now.shards }
    requires layout { IsLaidFor config.now.bits layout }
    ensures answers { AnswersOnBuild (Repart shard layout.parts) result config.now
        (D.desk desk.old) (D.desk desk.new) session.old session.new upkeep.old upkeep.new
        (K.held sink.old) (K.held sink.new) }
    ensures build { IsBuildOfDesk (D.desk desk.new) session.new.build }
    ensures cutter { session.new.cutter ≡ session.old.cutter }
    ensures samples { session.new.samples ≡ session.old.samples }
    ensures requests { session.new.requests ≡ session.old.requests }
    ensures queries { session.new.queries ≡ session.old.queries }
    ensures config { (D.desk desk.new).config ≡ config.now }
    ensures cause { IsCaused (K.faults sink.old) (K.faults sink.new) result }
{
    let reply = started(alloc, session, desk, shard, layout, upkeep);
    say(&mut session.out, sink, &reply)
}

// Starts to build a layout for a shard, and tells the reply.
fn started<const W: usize, D: Desk<W>, M>(
    alloc: Global,
    session: &mut Session<W>,
    desk: &mut D,
    shard: u32,
    layout: Layout,
    upkeep: &mut Steps<M>,
) -> Reply
    requires shard { shard < (D.desk desk.old).config.shards }
    requires layout { IsLaidFor (D.desk desk.old).config.bits layout }
    ensures starts { (reads : List ℕ) → StartsAs W (moment_of (D.desk desk.old) session.old reads
        upkeep.old) (moment_of (D.desk desk.new) session.new reads upkeep.new) shard layout
        (line_of result) }
    ensures cutter { session.new.cutter ≡ session.old.cutter }
    ensures samples { session.new.samples ≡ session.old.samples }
    ensures requests { session.new.requests ≡ session.old.requests }
    ensures queries { session.new.queries ≡ session.old.queries }
{
    if session.build.is_some() {
        return Reply::Bad(Bad::other_build());
    }
    // The desk's own calls say what is true of it.
    let _who = desk.who();
    let Ok(layout) = Arc::new(alloc, layout) else {
        return Reply::NoMemory;
    };
    let Ok(build) = start_build(alloc, desk, shard, layout, upkeep) else {
        return Reply::NoMemory;
    };
    let at = build.at();
    let left = build.left();
    session.position = at;
    session.build = Some(ShardBuild { shard, build });
    Reply::Building { shard, left, at }
}

/// Places rows of the build, and answers how many are left.
pub fn place<const W: usize, K: Sink, M>(
    config: &Config,
    session: &mut Session<W>,
    rows_most: u32,
    sink: &mut K,
    upkeep: &mut Steps<M>,
) -> Result<(), Failed>
    requires ready { IsReady W config.now }
    ensures answers { (desk : DeskState) →
        AnswersOnBuild (Build rows_most) result config.now desk desk session.old session.new
        upkeep.old upkeep.new (K.held sink.old) (K.held sink.new) }
    ensures build { (desk : DeskState) → IsBuildOfDesk desk session.old.build →
        IsBuildOfDesk desk session.new.build }
    ensures cutter { session.new.cutter ≡ session.old.cutter }
    ensures samples { session.new.samples ≡ session.old.samples }
    ensures requests { session.new.requests ≡ session.old.requests }
    ensures queries { session.new.queries ≡ session.old.queries }
    ensures cause { IsCaused (K.faults sink.old) (K.faults sink.new) result }
{
    let reply = placed(session, rows_most, upkeep);
    say(&mut session.out, sink, &reply)
}

// Places rows of the build, and tells the reply.
fn placed<const W: usize, M>(
    session: &mut Session<W>,
    rows_most: u32,
    upkeep: &mut Steps<M>,
) -> Reply
    requires { W ≤ WORDS_MOST }
    ensures places { (desk : DeskState) (reads : List ℕ) →
        PlacesAs W (moment_of desk session.old reads upkeep.old)
        (moment_of desk session.new reads upkeep.new) rows_most (line_of result) }
    ensures cutter { session.new.cutter ≡ session.old.cutter }
    ensures samples { session.new.samples ≡ session.old.samples }
    ensures requests { session.new.requests ≡ session.old.requests }
    ensures queries { session.new.queries ≡ session.old.queries }
{
    let Some(ShardBuild { shard, mut build }) = session.build.take() else {
        return Reply::Bad(Bad::other_build());
    };
    build.step(rows_most, upkeep);
    let left = build.left();
    session.build = Some(ShardBuild { shard, build });
    Reply::Built { shard, left }
}

/// Puts the build in the place of its shard's layout, and answers the position at which it stands; or, where another desk brought the
/// shard beyond it, the position to which the build came and that of the shard.
pub fn swap<const W: usize, D: Desk<W>, K: Sink, M>(
    alloc: Global,
    config: &Config,
    session: &mut Session<W>,
    desk: &mut D,
    sink: &mut K,
    upkeep: &mut Steps<M>,
) -> Result<(), Failed>
    requires ready { IsReady W config.now }
    requires config { (D.desk desk.old).config ≡ config.now }
    requires build { IsBuildOfDesk (D.desk desk.old) session.old.build }
    ensures answers { AnswersOnBuild Swap result config.now (D.desk desk.old) (D.desk desk.new)
        session.old session.new upkeep.old upkeep.new (K.held sink.old) (K.held sink.new) }
    ensures build { IsBuildOfDesk (D.desk desk.new) session.new.build }
    ensures cutter { session.new.cutter ≡ session.old.cutter }
    ensures samples { session.new.samples ≡ session.old.samples }
    ensures requests { session.new.requests ≡ session.old.requests }
    ensures queries { session.new.queries ≡ session.old.queries }
    ensures config { (D.desk desk.new).config ≡ config.now }
    ensures cause { IsCaused (K.faults sink.old) (K.faults sink.new) result }
{
    let reply = swapped(alloc, session, desk, upkeep);
    say(&mut session.out, sink, &reply)
}

// Puts the build in place, and tells the reply.
fn swapped<const W: usize, D: Desk<W>, M>(
    alloc: Global,
    session: &mut Session<W>,
    desk: &mut D,
    upkeep: &mut Steps<M>,
) -> Reply
    requires few_words { W ≤ WORDS_MOST }
    requires build { IsBuildOfDesk (D.desk desk.old) session.old.build }
    ensures swaps { (reads : List ℕ) →
        SwapsInAs W (moment_of (D.desk desk.old) session.old reads upkeep.old)
        (moment_of (D.desk desk.new) session.new reads upkeep.new) (line_of result) }
    ensures cutter { session.new.cutter ≡ session.old.cutter }
    ensures samples { session.new.samples ≡ session.old.samples }
    ensures requests { session.new.requests ≡ session.old.requests }
    ensures queries { session.new.queries ≡ session.old.queries }
{
    let Some(ShardBuild { shard, build }) = session.build.take() else {
        return Reply::Bad(Bad::other_build());
    };
    if build.left() > 0 {
        session.build = Some(ShardBuild { shard, build });
        return Reply::Bad(Bad::rows_left());
    }
    // The desk's own calls say what is true of it.
    let _who = desk.who();
    match swap_build(alloc, desk, shard, build, upkeep) {
        SwapAnswer::Swapped { at } => {
            session.position = at;
            Reply::Swapped { shard, at }
        }
        SwapAnswer::Moved {
            front,
            shard_at,
            build,
        } => {
            session.position = front;
            session.build = Some(ShardBuild { shard, build });
            Reply::Moved {
                shard,
                front,
                at: shard_at,
            }
        }
        SwapAnswer::NoMemory { build } => {
            session.build = Some(ShardBuild { shard, build });
            Reply::NoMemory
        }
    }
}
