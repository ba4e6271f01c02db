//! The next hits of a query.

ghost use Rattle.std.specs.Thread.{IsSync};
ghost use Rattle.query_protocol.specs.Replies.{reply_line};
ghost use Rattle.query_protocol.specs.Replies as reply;
ghost use Rattle.open_queries.specs.Answers.{GivesQuery};
ghost use Rattle.open_queries.specs.Kept.{GivesFirst, IsKept};
ghost use Rattle.open_queries.specs.Giving.{GivesHits};
ghost use Rattle.open_queries.specs.Writing.{Writes, IsCaused};

use crate::open_query::OpenQuery;
use crate::output::{say, write_all};
use byte_lines::LineBuf;
use hit_source::HitSource;
use line_io::{Failed, Sink};
use query_protocol::{Reply, Tag, write_hit};
use read_meter::Meters;
use scatter_gather::{Gate, Gather};
use std::thread::Threads;

/// How many units of work each source does at most in one poll, where polls go in threads: many, so that few threads are
/// started.
const BUDGET: u32 = 1_000_000;

/// Gives the next hits of a query, and its end or that there are more. One that is done reads nothing.
pub(crate) fn give_query<H: HitSource, R: Threads + Sync, G: Gate, K: Sink, L: Send>(
    query: &mut OpenQuery<H>,
    rt: &R,
    gate: &G,
    tag: &Tag,
    count: u32,
    out: &mut LineBuf,
    sink: &mut K,
    meters: &mut Meters<L>,
) -> Result<(), Failed>
    requires sync { IsSync R.row }
    requires kept { IsKept H.asked H.standing query.old }
    ensures gives { GivesQuery H.asked H.standing tag.now count query.old query.new
        (K.held sink.old) (K.held sink.new) meters.old meters.new result }
    ensures kept { IsKept H.asked H.standing query.new }
    ensures cause { IsCaused (K.faults sink.old) (K.faults sink.new) result }
{
    if query.done {
        return say_done(query, tag, out, sink);
    }
    match give_hits(&mut query.gather, rt, gate, tag, count, out, sink, meters) {
        Err(Failed) => Err(Failed),
        Ok(true) => say(out, sink, &Reply::More { tag: *tag }),
        Ok(false) => {
            query.done = true;
            say_done(query, tag, out, sink)
        }
    }
}

// Tells that all hits of a query were given, and how many there are.
fn say_done<H: HitSource, K: Sink>(
    query: &OpenQuery<H>,
    tag: &Tag,
    out: &mut LineBuf,
    sink: &mut K,
) -> Result<(), Failed>
    ensures written { Writes (K.held sink.old) (K.held sink.new) result
        (reply_line (reply.Done tag.now query.now.gather.given)) }
    ensures cause { IsCaused (K.faults sink.old) (K.faults sink.new) result }
{
    let count = query.gather.given();
    say(out, sink, &Reply::Done { tag: *tag, count })
}

// Gives the next hits of a gathering, at most `count`, and tells whether there are more.
fn give_hits<H: HitSource, R: Threads + Sync, G: Gate, K: Sink, L: Send>(
    gather: &mut Gather<H>,
    rt: &R,
    gate: &G,
    tag: &Tag,
    count: u32,
    out: &mut LineBuf,
    sink: &mut K,
    meters: &mut Meters<L>,
) -> Result<bool, Failed>
    requires sync { IsSync R.row }
    requires first { GivesFirst H.asked H.standing gather.old }
    ensures gives { GivesHits H.asked H.standing tag.now count gather.old gather.new
        (K.held sink.old) (K.held sink.new) meters.old meters.new result }
    ensures cause { IsCaused (K.faults sink.old) (K.faults sink.new) result }
{
    let mut given: u32 = 0;
    while given < count {
        let Some(hit) = gather.next(rt, gate, BUDGET, meters) else {
            return Ok(false);
        };
        out.clear();
        write_hit(tag, hit.dist, hit.key, out);
        match write_all(sink, out.bytes()) {
            Ok(()) => given += 1,
            Err(Failed) => return Err(Failed),
        }
    }
    Ok(gather.more(rt, gate, BUDGET, meters))
}
