//! The open queries of a session.

ghost use Rattle.std.specs.Prelude.{◌≡◌, ◌++◌, ◌<◌, [], ◌∷◌, true, false, nat_le, length, IfOk};
ghost use Rattle.std.specs.Thread.{IsSync};
ghost use Rattle.query_protocol.specs.Replies.{line_of};
ghost use Rattle.session_model.specs.Openings.{most_open};
ghost use Rattle.open_queries.specs.Queries.{IsFree, IsUsed, HaveShard, opened_query};
ghost use Rattle.open_queries.specs.Kept.{IsUntouched};
ghost use Rattle.open_queries.specs.Writing.{IsCaused};
ghost use Rattle.open_queries.specs.Answers.{GivesAs, CostsAs, WritesPlan, CancelsAs};

use crate::asking::{cost_query, plan_query};
use crate::giving::give_query;
use crate::open_query::{MOST_OPEN, OpenQuery, place_of};
use crate::output::say;
use byte_lines::LineBuf;
use hit_source::HitSource;
use line_io::{Failed, Sink};
use query_protocol::{Bad, Reply, Tag};
use read_meter::{Meters, NoMemory};
use scatter_gather::{Gate, Gather};
use std::alloc::Global;
use std::marker::Model;
use std::thread::Threads;

/// The open queries of a session, at most sixteen, in the order in which they were opened.
#[derive(Drop)]
pub struct OpenQueries<H: HitSource> {
    queries: Vec<OpenQuery<H>>,
}

impl<H: HitSource> Model for OpenQueries<H> {
    ghost use Rattle.std.specs.Prelude.{List, ◌≤◌, vec_capacity};
    ghost use Rattle.session_model.specs.Openings.{most_open};
    ghost use Rattle.open_queries.specs.declared.open_query.OpenQuery.{OpenQuery};
    ghost use Rattle.open_queries.specs.Kept.{AreKept};

    ghost Value = { List (OpenQuery H) };

    ghost view = { λ s. s.queries.items };

    ghost invariant = { λ s. (most_open ≤ vec_capacity s.queries)
        × AreKept H.asked H.standing s.queries.items };
}

impl<H: HitSource> OpenQueries<H> {
    /// No query, with the memory for the list of sixteen.
    ///
    /// # Errors
    ///
    /// `NoMemory` where there is none.
    pub fn new(alloc: Global) -> Result<OpenQueries<H>, NoMemory>
        ensures { IfOk result (λ queries. queries ≡ []) }
    {
        match Vec::with_capacity(alloc, MOST_OPEN) {
            Ok(queries) => Ok(OpenQueries { queries }),
            Err(_) => Err(NoMemory),
        }
    }

    /// Whether a query has this tag.
    pub fn is_used(&self, tag: &Tag) -> bool
        ensures used { result ≡ true → IsUsed self.now tag.now }
        ensures free { result ≡ false → IsFree self.now tag.now }
    {
        place_of(&self.queries, tag).is_some()
    }

    /// Whether as many queries are open as may be.
    pub fn is_full(&self) -> bool
        ensures { result ≡ nat_le most_open (length self.now) }
    {
        self.queries.len() >= MOST_OPEN
    }

    /// Opens a query, after the others. It takes no memory.
    pub fn open(&mut self, tag: Tag, gather: Gather<H>)
    where
        H: Drop,
        requires free { IsFree self.old tag }
        requires space { length self.old < most_open }
        requires untouched { IsUntouched H.asked H.standing gather }
        ensures { self.new ≡ self.old ++ opened_query tag gather ∷ [] }
    {
        let query = OpenQuery {
            tag,
            gather,
            done: false,
        };
        let Ok(()) = self.queries.push(query) else {
            unreachable!()
        };
    }

    /// Tells the next hits of the query of a tag, at most `count`, and then whether there are more or how many there were.
    ///
    /// # Errors
    ///
    /// `Failed` where the sink fails, which then has a part of that text.
    pub fn next<R: Threads + Sync, G: Gate, K: Sink, L: Send>(
        &mut self,
        rt: &R,
        gate: &G,
        tag: &Tag,
        count: u32,
        out: &mut LineBuf,
        sink: &mut K,
        meters: &mut Meters<L>,
    ) -> Result<(), Failed>
        requires sync { IsSync R.row }
        ensures gives { GivesAs H.asked H.standing self.old tag.now count
            (K.held sink.old) (K.held sink.new) meters.old meters.new result self.new }
        ensures cause { IsCaused (K.faults sink.old) (K.faults sink.new) result }
    {
        match place_of(&self.queries, tag) {
            None => say(out, sink, &Reply::Bad(Bad::unknown_tag())),
            Some(place) => give_query(
                &mut self.queries[place],
                rt,
                gate,
                tag,
                count,
                out,
                sink,
                meters,
            ),
        }
    }

    /// Tells what the query of a tag has read so far, and what it may read for the hits that it gave.
    pub fn cost(&mut self, tag: &Tag) -> Reply
        ensures { CostsAs H.asked H.standing self.old tag.now (line_of result) self.new }
    {
        match place_of(&self.queries, tag) {
            None => Reply::Bad(Bad::unknown_tag()),
            Some(place) => cost_query(&mut self.queries[place], tag),
        }
    }

    /// Puts into `out`, in place of what it held, the threshold vector of the query of a tag in a shard, and its cost.
    pub fn plan(&mut self, tag: &Tag, shard: u32, out: &mut LineBuf)
        requires { HaveShard self.old shard }
        ensures { WritesPlan H.asked H.standing self.old tag.now shard out.new self.new }
    {
        out.clear();
        match place_of(&self.queries, tag) {
            None => Reply::Bad(Bad::unknown_tag()).write(out),
            Some(place) => plan_query(&mut self.queries[place], tag, shard, out),
        }
    }

    /// Ends the query of a tag, whose memory and tag are free then, and tells how many hits it gave.
    pub fn cancel(&mut self, tag: &Tag) -> Reply
    where
        H: Drop,
        ensures { CancelsAs self.old tag.now (line_of result) self.new }
    {
        match place_of(&self.queries, tag) {
            None => Reply::Bad(Bad::unknown_tag()),
            Some(place) => {
                let query = self.queries.remove(place);
                let count = query.gather.cancel().given;
                if query.done {
                    Reply::Closed { tag: *tag, count }
                } else {
                    Reply::Cancelled { tag: *tag, count }
                }
            }
        }
    }
}
