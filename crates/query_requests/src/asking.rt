//! `next`, `cost`, `plan` and `cancel`: the requests on open queries.

ghost use Rattle.std.specs.Prelude.{◌≡◌, ◌<◌, ◌≤◌, ℕ, List};
ghost use Rattle.std.specs.Thread.{IsSync};
ghost use Rattle.hamming_model.specs.declared.limits.TheConstants.{WORDS_MOST};
ghost use Rattle.query_protocol.specs.Requests.{Next, Cost, Plan, Cancel};
ghost use Rattle.open_queries.specs.Writing.{IsCaused};
ghost use Rattle.open_queries.specs.Queries.{HaveShard};
ghost use Rattle.open_session.specs.Meaning.{IsReady, HaveShards};
ghost use Rattle.session_desk.specs.Desks.{DeskState};
ghost use Rattle.open_session.specs.PlainSteps.{AnswersPlainly, AnswersPlainlyBetween};
ghost use Rattle.open_session.specs.Moments.{moment_of, point_of};

use line_io::{Failed, Sink};
use open_queries::{OpenQueries, say, send};
use open_session::Session;
use part_layout::Config;
use query_opening::Source;
use query_protocol::Tag;
use read_meter::Meters;
use scatter_gather::Gate;
use std::thread::Threads;

/// Answers the next hits of the query of a tag.
pub fn next<const W: usize, K: Sink, R: Threads + Sync, G: Gate, L: Send>(
    rt: &R,
    config: &Config,
    session: &mut Session<W>,
    tag: &Tag,
    count: u32,
    sink: &mut K,
    gate: &G,
    meters: &mut Meters<L>,
) -> Result<(), Failed>
    requires ready { IsReady W config.now }
    requires sync { IsSync R.row }
    requires shards { HaveShards config.now.shards session.old.queries }
    ensures answers { (desk : DeskState) (upkeep : ℕ) → AnswersPlainlyBetween
        (Next tag.now count) result config.now (point_of desk session.old meters.old upkeep
        (K.held sink.old)) (point_of desk session.new meters.new upkeep (K.held sink.new)) }
    ensures cutter { session.new.cutter ≡ session.old.cutter }
    ensures samples { session.new.samples ≡ session.old.samples }
    ensures requests { session.new.requests ≡ session.old.requests }
    ensures build { session.new.build ≡ session.old.build }
    ensures shards { HaveShards config.now.shards session.new.queries }
    ensures cause { IsCaused (K.faults sink.old) (K.faults sink.new) result }
{
    // Each time the call says how many ledgers there are.
    let _before = meters.as_mut().len();
    let said = session
        .queries
        .next(rt, gate, tag, count, &mut session.out, sink, meters);
    let _after = meters.as_mut().len();
    said
}

/// Answers what the query of a tag has read, and what it may read.
pub fn cost<const W: usize, K: Sink>(
    config: &Config,
    session: &mut Session<W>,
    tag: &Tag,
    sink: &mut K,
) -> Result<(), Failed>
    requires ready { IsReady W config.now }
    requires shards { HaveShards config.now.shards session.old.queries }
    ensures answers { (desk : DeskState) (reads : List ℕ) (upkeep : ℕ) →
        AnswersPlainly (Cost tag.now) result config.now (K.held sink.old) (K.held sink.new)
        (moment_of desk session.old reads upkeep) (moment_of desk session.new reads upkeep) }
    ensures cutter { session.new.cutter ≡ session.old.cutter }
    ensures samples { session.new.samples ≡ session.old.samples }
    ensures requests { session.new.requests ≡ session.old.requests }
    ensures build { session.new.build ≡ session.old.build }
    ensures shards { HaveShards config.now.shards session.new.queries }
    ensures cause { IsCaused (K.faults sink.old) (K.faults sink.new) result }
{
    let reply = session.queries.cost(tag);
    say(&mut session.out, sink, &reply)
}

/// Answers the threshold vector of the query of a tag in a shard, and its cost.
pub fn plan<const W: usize, K: Sink>(
    config: &Config,
    session: &mut Session<W>,
    tag: &Tag,
    shard: u32,
    sink: &mut K,
) -> Result<(), Failed>
    requires ready { IsReady W config.now }
    requires shard { shard < config.now.shards }
    requires shards { HaveShards config.now.shards session.old.queries }
    ensures answers { (desk : DeskState) (reads : List ℕ) (upkeep : ℕ) →
        AnswersPlainly (Plan tag.now shard) result config.now (K.held sink.old) (K.held sink.new)
        (moment_of desk session.old reads upkeep) (moment_of desk session.new reads upkeep) }
    ensures cutter { session.new.cutter ≡ session.old.cutter }
    ensures samples { session.new.samples ≡ session.old.samples }
    ensures requests { session.new.requests ≡ session.old.requests }
    ensures build { session.new.build ≡ session.old.build }
    ensures shards { HaveShards config.now.shards session.new.queries }
    ensures cause { IsCaused (K.faults sink.old) (K.faults sink.new) result }
{
    every_query_has_shard(config, &session.queries, shard);
    session.queries.plan(tag, shard, &mut session.out);
    send(&session.out, sink)
}

// A source stands behind each query for the shard.
fn every_query_has_shard<const W: usize>(
    config: &Config,
    queries: &OpenQueries<Source<W>>,
    shard: u32,
)
    requires few_words { W ≤ WORDS_MOST }
    requires shard { shard < config.now.shards }
    requires shards { HaveShards config.now.shards queries.now }
    ensures { HaveShard queries.now shard }
{}

/// Ends the query of a tag, and answers how many hits it gave.
pub fn cancel<const W: usize, K: Sink>(
    config: &Config,
    session: &mut Session<W>,
    tag: &Tag,
    sink: &mut K,
) -> Result<(), Failed>
    requires ready { IsReady W config.now }
    requires shards { HaveShards config.now.shards session.old.queries }
    ensures answers { (desk : DeskState) (reads : List ℕ) (upkeep : ℕ) →
        AnswersPlainly (Cancel tag.now) result config.now (K.held sink.old) (K.held sink.new)
        (moment_of desk session.old reads upkeep) (moment_of desk session.new reads upkeep) }
    ensures cutter { session.new.cutter ≡ session.old.cutter }
    ensures samples { session.new.samples ≡ session.old.samples }
    ensures requests { session.new.requests ≡ session.old.requests }
    ensures build { session.new.build ≡ session.old.build }
    ensures shards { HaveShards config.now.shards session.new.queries }
    ensures cause { IsCaused (K.faults sink.old) (K.faults sink.new) result }
{
    let reply = session.queries.cancel(tag);
    say(&mut session.out, sink, &reply)
}
