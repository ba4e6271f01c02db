//! The answer to one line.

ghost use Rattle.std.specs.Prelude.{◌≡◌, ◌≤◌, ◌∷◌, [], ℕ, List, Some, Ok};
ghost use Rattle.std.specs.Thread.{IsSync};
ghost use Rattle.byte_lines.specs.Cut.{TellsOf};
ghost use Rattle.gph_codes.specs.Allowed.{IsAllowed};
ghost use Rattle.query_protocol.specs.Lines.{reading};
ghost use Rattle.query_protocol.specs.Stored.{unstored, IsFit, IsFitReading, NamesOneOf, NamesShard, ReadsLine};
ghost use Rattle.query_protocol.specs.Replies.{line_of};
ghost use Rattle.layout_search.specs.Improves.{AreSamples};
ghost use Rattle.open_queries.specs.Writing.{IsCaused};
ghost use Rattle.open_session.specs.KeptBuild.{IsBuildOfDesk, KeepsBuilds};
ghost use Rattle.open_session.specs.Meaning.{IsReady, HaveShards, IsAnswered, IsPlain};
ghost use Rattle.open_session.specs.PlainSteps.{AnswersPlainlyBetween};
ghost use Rattle.open_session.specs.Steps.{AnswersBetween};
ghost use Rattle.session_step.specs.Answering.{AnswersCut, fault_reply, turn_after};
ghost use Rattle.open_session.specs.Moments.{point_of};

use crate::turn::Turn;
use build_requests::{place, search, start, swap};
use byte_lines::{Cut, Cutter};
use desk_requests::{add, delete, get, layout};
use line_io::{Failed, Sink};
use open_queries::say;
use open_session::{Question, Session};
use part_layout::Config;
use query_protocol::{Bad, LineFault, Reply, Request, read_line};
use query_requests::{begin_query, cancel, cost, next, plan};
use read_meter::{Meters, Steps};
use scatter_gather::Gate;
use session_desk::Desk;
use std::alloc::Global;
use std::thread::Threads;

/// Answers the line that was cut last, unless it ends the session.
pub fn answer<const W: usize, D: Desk<W>, K: Sink, R: Threads + Sync, G: Gate, L: Send, M>(
    rt: &R,
    alloc: Global,
    config: &Config,
    session: &mut Session<W>,
    desk: &mut D,
    cut: Cut,
    sink: &mut K,
    gate: &G,
    upkeep: &mut Steps<M>,
    meters: &mut Meters<L>,
) -> Result<Turn, Failed>
    requires sync { IsSync R.row }
    requires ready { IsReady W config.now }
    requires config { (D.desk desk.old).config ≡ config.now }
    requires shards { HaveShards config.now.shards session.old.queries }
    requires samples { AreSamples config.now.bits session.old.samples }
    requires build { IsBuildOfDesk (D.desk desk.old) session.old.build }
    ensures answers { AnswersCut cut result config.now
        (point_of (D.desk desk.old) session.old meters.old upkeep.old (K.held sink.old))
        (point_of (D.desk desk.new) session.new meters.new upkeep.new (K.held sink.new)) }
    ensures cutter { session.new.cutter ≡ session.old.cutter }
    ensures config { (D.desk desk.new).config ≡ config.now }
    ensures shards { HaveShards config.now.shards session.new.queries }
    ensures samples { AreSamples config.now.bits session.new.samples }
    ensures build { IsBuildOfDesk (D.desk desk.new) session.new.build }
    ensures cause { IsCaused (K.faults sink.old) (K.faults sink.new) result }
{
    match read_cut(alloc, config, &session.cutter, cut) {
        Ok(None) => Ok(Turn::Goes),
        Ok(Some(Request::Quit)) => Ok(Turn::Quits),
        Ok(Some(request)) => {
            let answered = meet(
                rt, alloc, config, session, desk, request, sink, gate, upkeep, meters,
            );
            session.requests = session.requests.saturating_add(1);
            goes_on(answered)
        }
        Err(fault) => {
            let reply = reply_to_fault(fault, session.build.is_some());
            let answered = say(&mut session.out, sink, &reply);
            session.requests = session.requests.saturating_add(1);
            goes_on(answered)
        }
    }
}

// How a session goes on after a reply.
fn goes_on(answered: Result<(), Failed>) -> Result<Turn, Failed>
    ensures { result ≡ turn_after answered }
{
    match answered {
        Ok(()) => Ok(Turn::Goes),
        Err(Failed) => Err(Failed),
    }
}

// Meets a request that doesn't end the session.
fn meet<const W: usize, D: Desk<W>, K: Sink, R: Threads + Sync, G: Gate, L: Send, M>(
    rt: &R,
    alloc: Global,
    config: &Config,
    session: &mut Session<W>,
    desk: &mut D,
    request: Request<W>,
    sink: &mut K,
    gate: &G,
    upkeep: &mut Steps<M>,
    meters: &mut Meters<L>,
) -> Result<(), Failed>
    requires sync { IsSync R.row }
    requires ready { IsReady W config.now }
    requires config { (D.desk desk.old).config ≡ config.now }
    requires shards { HaveShards config.now.shards session.old.queries }
    requires samples { AreSamples config.now.bits session.old.samples }
    requires build { IsBuildOfDesk (D.desk desk.old) session.old.build }
    requires fit { IsFit W config.now.bits request }
    requires shard { NamesOneOf config.now.shards request }
    requires goes { IsAnswered request }
    ensures answers { AnswersBetween (unstored config.now.bits request.entry) result config.now
        (point_of (D.desk desk.old) session.old meters.old upkeep.old (K.held sink.old))
        (point_of (D.desk desk.new) session.new meters.new upkeep.new (K.held sink.new)) }
    ensures cutter { session.new.cutter ≡ session.old.cutter }
    ensures requests { session.new.requests ≡ session.old.requests }
    ensures config { (D.desk desk.new).config ≡ config.now }
    ensures shards { HaveShards config.now.shards session.new.queries }
    ensures samples { AreSamples config.now.bits session.new.samples }
    ensures build { IsBuildOfDesk (D.desk desk.new) session.new.build }
    ensures cause { IsCaused (K.faults sink.old) (K.faults sink.new) result }
{
    match request {
        Request::Repart { shard, layout } => start(
            alloc, config, session, desk, shard, layout, sink, upkeep,
        ),
        Request::Build { n } => place(config, session, n, sink, upkeep),
        Request::Swap => swap(alloc, config, session, desk, sink, upkeep),
        request => meet_plainly(
            rt, alloc, config, session, desk, request, sink, gate, upkeep, meters,
        ),
    }
}

// Meets a request that isn't on builds.
fn meet_plainly<const W: usize, D: Desk<W>, K: Sink, R: Threads + Sync, G: Gate, L: Send, M>(
    rt: &R,
    alloc: Global,
    config: &Config,
    session: &mut Session<W>,
    desk: &mut D,
    request: Request<W>,
    sink: &mut K,
    gate: &G,
    upkeep: &mut Steps<M>,
    meters: &mut Meters<L>,
) -> Result<(), Failed>
    requires sync { IsSync R.row }
    requires ready { IsReady W config.now }
    requires config { (D.desk desk.old).config ≡ config.now }
    requires shards { HaveShards config.now.shards session.old.queries }
    requires samples { AreSamples config.now.bits session.old.samples }
    requires fit { IsFit W config.now.bits request }
    requires shard { NamesOneOf config.now.shards request }
    requires plain { IsPlain request }
    ensures answers { AnswersPlainlyBetween (unstored config.now.bits request.entry) result
        config.now (point_of (D.desk desk.old) session.old meters.old upkeep.old (K.held sink.old))
        (point_of (D.desk desk.new) session.new meters.new upkeep.new (K.held sink.new)) }
    ensures cutter { session.new.cutter ≡ session.old.cutter }
    ensures requests { session.new.requests ≡ session.old.requests }
    ensures config { (D.desk desk.new).config ≡ config.now }
    ensures shards { HaveShards config.now.shards session.new.queries }
    ensures samples { AreSamples config.now.bits session.new.samples }
    ensures build { session.new.build ≡ session.old.build }
    ensures builds { KeepsBuilds (D.desk desk.old) (D.desk desk.new) }
    ensures plain { IsPlain request.entry }
    ensures cause { IsCaused (K.faults sink.old) (K.faults sink.new) result }
{
    match request {
        Request::Add { key, code } => add(config, session, desk, key, code, sink),
        Request::Del { key } => delete(config, session, desk, key, sink),
        Request::Get { key } => get(config, session, desk, key, sink),
        Request::Range { tag, tau, code } => {
            let question = Question::Range(tau);
            begin_query(
                alloc, config, session, desk, tag, question, code, sink, upkeep,
            )
        }
        Request::Near { tag, k, code } => {
            let question = Question::Near(k);
            begin_query(
                alloc, config, session, desk, tag, question, code, sink, upkeep,
            )
        }
        Request::Next { tag, n } => next(rt, config, session, &tag, n, sink, gate, meters),
        Request::Cost { tag } => cost(config, session, &tag, sink),
        Request::Plan { tag, shard } => plan(config, session, &tag, shard, sink),
        Request::Cancel { tag } => cancel(config, session, &tag, sink),
        Request::Layout { shard } => layout(config, session, desk, shard, sink),
        Request::Search { shard, rounds } => search(
            alloc, config, session, desk, shard, rounds, sink, upkeep,
        ),
        // The caller meets those on builds, and ends the session.
        Request::Repart {
            shard: _,
            layout: _,
        } => unreachable!(),
        Request::Build { n: _ } => unreachable!(),
        Request::Swap => unreachable!(),
        Request::Quit => unreachable!(),
    }
}

// The reply to a fault of a line. Where there was no memory for the layout of a build, another one may go on.
fn reply_to_fault(fault: LineFault, has_build: bool) -> Reply
    ensures { line_of result ≡ fault_reply fault has_build }
{
    match fault {
        LineFault::Bad(fault) => Reply::Bad(fault),
        LineFault::NoMemory if has_build => Reply::Bad(Bad::other_build()),
        LineFault::NoMemory => Reply::NoMemory,
    }
}

// What the line that was cut last asks.
fn read_cut<const W: usize>(
    alloc: Global,
    config: &Config,
    cutter: &Cutter,
    cut: Cut,
) -> Result<Option<Request<W>>, LineFault>
    requires ready { IsReady W config.now }
    ensures reads { (line : List ℕ) → TellsOf (Some cut) cutter.now.line (line ∷ []) →
        ReadsLine W config.now.bits result (reading config.now line) }
    ensures fit { IsFitReading W config.now.bits result }
    ensures shard { NamesShard config.now.shards result }
{
    match cut {
        Cut::Line => read_line(alloc, config, cutter.line()),
        Cut::Long => Err(LineFault::Bad(Bad::line_too_long())),
    }
}
