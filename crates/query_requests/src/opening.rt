//! `range` and `near`.

ghost use Rattle.std.specs.Prelude.{◌≡◌, ◌≤◌, ℕ, List, take, IfOk, OnErr};
ghost use Rattle.hamming_model.specs.Codes.{StandsFor};
ghost use Rattle.hamming_model.specs.declared.limits.TheConstants.{ROOM_MOST, WORDS_MOST};
ghost use Rattle.layout_search.specs.Improves.{AreSamples};
ghost use Rattle.query_protocol.specs.Replies.{line_of};
ghost use Rattle.open_queries.specs.Writing.{IsCaused};
ghost use Rattle.open_session.specs.Questions.{ask_of, opening_request, radius_in};
ghost use Rattle.open_session.specs.Meaning.{IsReady, HaveShards};
ghost use Rattle.open_session.specs.KeptBuild.{KeepsBuilds};
ghost use Rattle.open_session.specs.Pinned.{pinned_in};
ghost use Rattle.open_session.specs.PlainSteps.{AnswersUnread};
ghost use Rattle.open_session.specs.Moments.{moment_of};
ghost use Rattle.query_requests.specs.Opening.{OpensNone, OpensPinned};
ghost use Rattle.query_requests.specs.Opened.{OpensAs};

use gph_codes::Code;
use line_io::{Failed, Sink};
use open_queries::say;
use open_session::{PinnedLayouts, Question, Session};
use part_layout::Config;
use query_opening::{Source, open_query};
use query_protocol::{Bad, Reply, Tag};
use read_meter::{NoMemory, Steps};
use scatter_gather::Gather;
use session_desk::Desk;
use std::alloc::Global;

/// Opens a query on a source for each shard, and answers the position on which it stands.
pub fn begin_query<const W: usize, D: Desk<W>, K: Sink, M>(
    alloc: Global,
    config: &Config,
    session: &mut Session<W>,
    desk: &mut D,
    tag: Tag,
    question: Question,
    code: Code<W>,
    sink: &mut K,
    upkeep: &mut Steps<M>,
) -> Result<(), Failed>
    requires ready { IsReady W config.now }
    requires config { (D.desk desk.old).config ≡ config.now }
    requires shards { HaveShards config.now.shards session.old.queries }
    requires code { StandsFor W config.now.bits code (take config.now.bits code) }
    requires samples { AreSamples config.now.bits session.old.samples }
    requires within { radius_in config.now.bits (ask_of question (take config.now.bits code))
        ≤ config.now.bits }
    ensures answers { AnswersUnread (opening_request tag (ask_of question (take config.now.bits
        code.entry))) result config.now (D.desk desk.old) (D.desk desk.new) session.old session.new
        upkeep.old upkeep.new (K.held sink.old) (K.held sink.new) }
    ensures cutter { session.new.cutter ≡ session.old.cutter }
    ensures requests { session.new.requests ≡ session.old.requests }
    ensures build { session.new.build ≡ session.old.build }
    ensures samples { AreSamples config.now.bits session.new.samples }
    ensures shards { HaveShards config.now.shards session.new.queries }
    ensures config { (D.desk desk.new).config ≡ config.now }
    ensures builds { KeepsBuilds (D.desk desk.old) (D.desk desk.new) }
    ensures cause { IsCaused (K.faults sink.old) (K.faults sink.new) result }
{
    let reply = opened(alloc, config, session, desk, tag, question, code, upkeep);
    say(&mut session.out, sink, &reply)
}

// Opens a query, and tells the reply.
fn opened<const W: usize, D: Desk<W>, M>(
    alloc: Global,
    config: &Config,
    session: &mut Session<W>,
    desk: &mut D,
    tag: Tag,
    question: Question,
    code: Code<W>,
    upkeep: &mut Steps<M>,
) -> Reply
    requires ready { IsReady W config.now }
    requires config { (D.desk desk.old).config ≡ config.now }
    requires code { StandsFor W config.now.bits code (take config.now.bits code) }
    requires samples { AreSamples config.now.bits session.old.samples }
    requires within { radius_in config.now.bits (ask_of question (take config.now.bits code))
        ≤ config.now.bits }
    ensures opens { (reads : List ℕ) → OpensAs (moment_of (D.desk desk.old) session.old reads
        upkeep.old) (moment_of (D.desk desk.new) session.new reads upkeep.new) tag
        (ask_of question (take config.now.bits code.entry)) config.now.room (line_of result) }
    ensures cutter { session.new.cutter ≡ session.old.cutter }
    ensures requests { session.new.requests ≡ session.old.requests }
    ensures build { session.new.build ≡ session.old.build }
    ensures samples { AreSamples config.now.bits session.new.samples }
{
    if session.queries.is_used(&tag) {
        return Reply::Bad(Bad::tag_in_use());
    }
    if session.queries.is_full() {
        return Reply::Bad(Bad::too_many_queries());
    }
    let Ok((gather, at)) = open_all(
        alloc,
        config.room,
        desk,
        &mut session.pinned,
        question,
        code,
        upkeep,
    ) else {
        return Reply::NoMemory;
    };
    session.position = at;
    session.queries.open(tag, gather);
    session.samples.join(question, code);
    Reply::Open { tag, at }
}

// Pins every shard at the present length, gathers a source on each version, and takes down the layouts that are pinned.
fn open_all<const W: usize, D: Desk<W>, M>(
    alloc: Global,
    room: u32,
    desk: &mut D,
    pinned: &mut PinnedLayouts,
    question: Question,
    code: Code<W>,
    upkeep: &mut Steps<M>,
) -> Result<(Gather<Source<W>>, u64), NoMemory>
    requires few_words { W ≤ WORDS_MOST }
    requires code { StandsFor W (D.desk desk.old).config.bits code
        (take (D.desk desk.old).config.bits code) }
    requires within { radius_in (D.desk desk.old).config.bits
        (ask_of question (take (D.desk desk.old).config.bits code))
        ≤ (D.desk desk.old).config.bits }
    requires some_room { 1 ≤ room }
    requires small_room { room ≤ ROOM_MOST }
    ensures opened { IfOk result (λ opened. OpensPinned (D.desk desk.old) (D.desk desk.new)
        (pinned_in pinned.old) (pinned_in pinned.new) opened.0 opened.1 (ask_of question (take
        (D.desk desk.old).config.bits code.entry)) room upkeep.old upkeep.new) }
    ensures unpinned { OnErr result (pinned_in pinned.new ≡ pinned_in pinned.old) }
    ensures none { OnErr result (OpensNone (D.desk desk.old) (D.desk desk.new)
        upkeep.old upkeep.new) }
{
    // The desk's own calls say what is true of it.
    let _who = desk.who();
    let wanted = question.wanted();
    let Ok(opened) = open_query(alloc, desk, wanted, code, room as usize, upkeep) else {
        return Err(NoMemory);
    };
    let position = opened.position;
    let versions = opened.versions;
    let Ok(gather) = Gather::new(alloc, opened.sources, question.limit(opened.rows)) else {
        return Err(NoMemory);
    };
    // The last that may find no memory, so that no layout is told of a query that wasn't opened.
    pinned.add(&versions)?;
    Ok((gather, position))
}
