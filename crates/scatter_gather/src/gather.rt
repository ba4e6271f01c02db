//! A gathering of the hits of many sources.

ghost use Rattle.std.specs.Prelude.{◌≡◌, ◌<◌, ◌≤◌, ◌↔◌, true, false, is_some, map, length};
ghost use Rattle.std.specs.Prelude.{IfOk, IfSome, Some, None, slice_index_or};
ghost use Rattle.std.specs.List.{AllByRecursion};
ghost use Rattle.std.specs.Thread.{IsSync};
ghost use Rattle.hamming_model.specs.declared.hit.Hit.{Hit};
ghost use Rattle.hamming_model.specs.declared.limits.TheConstants.{SHARDS_MOST};
ghost use Rattle.hit_source.specs.Sources.{IsFresh};
ghost use Rattle.scatter_gather.specs.Gathering.{gathered, seen, source_of, next_hit, has_more, answer_of};
ghost use Rattle.scatter_gather.specs.Gathering.{all_reads, all_bounds, reaches_by_rows};
ghost use Rattle.scatter_gather.specs.Due.{is_due, some_due};
ghost use Rattle.scatter_gather.specs.Heads.{MayGo};
ghost use Rattle.scatter_gather.specs.Kept.{AreOneLength, IsGathering};
ghost use Rattle.scatter_gather.specs.Polling.{PollsAll, PollsSome};
ghost use Rattle.scatter_gather.specs.Moves.{PollsOne, GivesReady, Waited, Gave, Looks, distance_of};
ghost use Rattle.scatter_gather.specs.Moves.{BeginsForNext, BeginsUpTo, BegunWithin};

use crate::looks::{
    all_near, any_may_have_next, any_waits, bound_of, least_floor, may_have_next, reads_of,
    ready_head, rows_of,
};
use crate::round::{poll_all, poll_by};
use crate::{Gate, Tally};
use hamming_model::Hit;
use hit_source::{HitSource, Polled};
use read_meter::{Meters, NoMemory, Steps};
use std::alloc::Global;
use std::marker::Model;
use std::thread::Threads;

/// The hits of up to sixteen sources in order of distance and key, up to a limit.
///
/// A source is due where no hit waits at it, its floor is the least of all, and the limit isn't
/// reached: until it was polled nobody knows whether the next hit is its own.
#[derive(Drop)]
pub struct Gather<H: HitSource> {
    sources: Vec<H>,
    limit: u64,
    given: u64,
    last: Option<u32>,
}

impl<H: HitSource> Model for Gather<H> {
    ghost use Rattle.scatter_gather.specs.Gathering.{Gathered, gathered, seen};
    ghost use Rattle.scatter_gather.specs.Kept.{IsGathering};

    ghost Value = { Gathered H };

    ghost view = { λ g. gathered g.sources.items g.limit g.given g.last };

    ghost invariant = { λ g. IsGathering
        (seen H.asked H.standing (gathered g.sources.items g.limit g.given g.last)) };
}

impl<H: HitSource> Gather<H> {
    /// Gathers these sources, of which nothing was polled or taken yet.
    ///
    /// # Errors
    ///
    /// `NoMemory`: none today, since a gathering takes no memory. The sources would be dropped.
    pub fn new(_alloc: Global, sources: Vec<H>, limit: u64) -> Result<Gather<H>, NoMemory>
        requires some { 1 ≤ length sources.items }
        requires few { length sources.items ≤ SHARDS_MOST }
        requires one_length { AreOneLength (map H.asked sources.items) }
        requires fresh { AllByRecursion (λ source. IsFresh (H.standing source)) sources.items }
        ensures { IfOk result (λ gather. gather ≡ gathered sources.items limit 0 None) }
    {
        Ok(Gather {
            sources,
            limit,
            given: 0,
            last: None,
        })
    }

    /// How many hits were given.
    pub fn given(&self) -> u64
        ensures { result ≡ self.now.given }
    {
        self.given
    }

    /// The distance of the last hit given.
    pub fn last(&self) -> Option<u32>
        ensures { result ≡ self.now.last }
    {
        self.last
    }

    /// The floor of one source.
    pub fn floor(&self, shard: usize) -> Option<u32>
        requires { shard < length self.now.sources }
        ensures { (d : H) → result ≡ (H.standing (slice_index_or self.now.sources shard d)).floor }
    {
        self.sources[shard].floor()
    }

    /// Gives the next hit where it waits already and no source may have one before it.
    pub fn ready(&mut self) -> Option<Hit>
        ensures may_go { (hit : Hit)
            → (result ≡ Some hit) ↔ MayGo (seen H.asked H.standing self.old) hit }
        ensures gives { IfSome result
            (λ hit. next_hit (seen H.asked H.standing self.old) ≡ Some hit) }
        ensures none_left { result ≡ None → some_due (seen H.asked H.standing self.old) ≡ false
            → next_hit (seen H.asked H.standing self.old) ≡ None }
        ensures after { GivesReady H.asked H.standing self.old self.new result }
        ensures shards { length self.new.sources ≡ length self.old.sources }
        // For the loops of `next` and `more`.
        ensures holds { IsGathering (seen H.asked H.standing self.new) }
        ensures rises { IfSome result (λ hit. IfSome self.old.last (λ last. last ≤ hit.dist)) }
    {
        if self.given == self.limit {
            return None;
        }
        let Some(best) = ready_head(&self.sources) else {
            return None;
        };
        let _head = self.sources[best.0].pop();
        self.given += 1;
        self.last = Some(best.1.dist);
        Some(best.1)
    }

    /// Polls one source, if it is due.
    pub fn poll_one<L>(
        &mut self,
        shard: usize,
        budget: u32,
        meters: &mut Meters<L>,
    ) -> Option<Polled>
        requires budget { 1 ≤ budget }
        requires shard { shard < length self.old.sources }
        // None exactly where it isn't due, and then nothing happens.
        ensures held { (d : H) → (result ≡ None) ↔ (is_due (seen H.asked H.standing self.old)
            (source_of H.asked H.standing (slice_index_or self.old.sources shard d)) ≡ false) }
        ensures stays { result ≡ None → self.new ≡ self.old }
        ensures ledgers { result ≡ None → meters.new ≡ meters.old }
        // Else it was polled, on its own ledger.
        ensures shards { length self.new.sources ≡ length self.old.sources }
        ensures polls { IfSome result (PollsOne H.asked H.standing budget shard
            self.old self.new meters.old meters.new) }
        ensures begins { BeginsForNext H.asked H.standing self.old self.new }
    {
        let least = least_floor(&self.sources);
        if self.given == self.limit || !may_have_next(&self.sources[shard], least) {
            return None;
        }
        Some(self.sources[shard].poll(budget, &mut meters.as_mut()[shard]))
    }

    /// Polls all sources that are due, side by side, each after `gate.pass` of its shard.
    pub fn round<R: Threads + Sync, G: Gate, L: Send>(
        &mut self,
        rt: &R,
        gate: &G,
        budget: u32,
        meters: &mut Meters<L>,
    )
        requires sync { IsSync R.row }
        requires budget { 1 ≤ budget }
        // Where none is due nothing happens.
        ensures none { some_due (seen H.asked H.standing self.old) ≡ false → self.new ≡ self.old }
        ensures no_step { some_due (seen H.asked H.standing self.old) ≡ false
            → meters.new ≡ meters.old }
        // Else each one that is due was polled once, on its own ledger.
        ensures shards { length self.new.sources ≡ length self.old.sources }
        ensures polled { some_due (seen H.asked H.standing self.old) ≡ true
            → PollsAll H.asked H.standing budget
            self.old.sources self.new.sources meters.old meters.new }
        ensures stays { self.new
            ≡ gathered self.new.sources self.old.limit self.old.given self.old.last }
        ensures begins { BeginsForNext H.asked H.standing self.old self.new }
    {
        if self.given == self.limit || !any_may_have_next(&self.sources) {
            return;
        }
        let _goes_on = poll_all(rt, gate, budget, self.sources.as_mut_slice(), meters);
    }

    // Polls the sources that are due, side by side if there is much to do, else one after the other.
    // It answers none where none is due, else whether one of them has more to do at once.
    fn poll_some<R: Threads + Sync, G: Gate, L: Send>(
        &mut self,
        rt: &R,
        gate: &G,
        budget: u32,
        much: bool,
        meters: &mut Meters<L>,
    ) -> Option<bool>
        requires sync { IsSync R.row }
        requires budget { 1 ≤ budget }
        ensures due { is_some result ≡ some_due (seen H.asked H.standing self.old) }
        ensures none { is_some result ≡ false → self.new ≡ self.old }
        ensures no_step { is_some result ≡ false → meters.new ≡ meters.old }
        ensures polled { is_some result ≡ true → PollsSome H.asked H.standing
            self.old.sources self.new.sources meters.old meters.new }
        ensures stays { self.new
            ≡ gathered self.new.sources self.old.limit self.old.given self.old.last }
        ensures holds { IsGathering (seen H.asked H.standing self.new) }
    {
        if self.given == self.limit || !any_may_have_next(&self.sources) {
            return None;
        }
        Some(poll_by(rt, gate, budget, much, self.sources.as_mut_slice(), meters))
    }

    /// The next hit: none exactly at the end of the answer.
    pub fn next<R: Threads + Sync, G: Gate, L: Send>(
        &mut self,
        rt: &R,
        gate: &G,
        budget: u32,
        meters: &mut Meters<L>,
    ) -> Option<Hit>
        requires sync { IsSync R.row }
        requires budget { 1 ≤ budget }
        ensures gives { result ≡ next_hit (seen H.asked H.standing self.old) }
        ensures gave { Gave H.asked H.standing self.old self.new meters.old meters.new result }
        ensures shards { length self.new.sources ≡ length self.old.sources }
        // No source begins a radius above the distance of the hit.
        ensures begins { BeginsUpTo H.standing (distance_of result)
            self.old.sources self.new.sources }
        ensures within { reaches_by_rows (seen H.asked H.standing self.old) ≡ true
            → BegunWithin H.standing self.old.last self.old.sources
            → BegunWithin H.standing self.new.last self.new.sources }
    {
        let mut much = false;
        loop {
            if let Some(hit) = self.ready() {
                return Some(hit);
            }
            let Some(goes_on) = self.poll_some(rt, gate, budget, much, meters) else {
                return None;
            };
            much = goes_on;
        }
    }

    /// Whether the answer has another hit.
    pub fn more<R: Threads + Sync, G: Gate, L: Send>(
        &mut self,
        rt: &R,
        gate: &G,
        budget: u32,
        meters: &mut Meters<L>,
    ) -> bool
        requires sync { IsSync R.row }
        requires budget { 1 ≤ budget }
        ensures more { result ≡ has_more (seen H.asked H.standing self.old) }
        ensures waited { Waited H.asked H.standing self.old self.new meters.old meters.new }
        ensures shards { length self.new.sources ≡ length self.old.sources }
        // Where every row is a hit, and there are as many as the limit, nothing is read.
        ensures near { reaches_by_rows (seen H.asked H.standing self.old) ≡ true
            → self.new ≡ self.old }
        ensures no_step { reaches_by_rows (seen H.asked H.standing self.old) ≡ true
            → meters.new ≡ meters.old }
    {
        if self.given == self.limit {
            return false;
        }
        if all_near(&self.sources) && self.limit <= rows_of(&self.sources) {
            return true;
        }
        let mut much = false;
        loop {
            if any_waits(&self.sources) {
                return true;
            }
            let Some(goes_on) = self.poll_some(rt, gate, budget, much, meters) else {
                return false;
            };
            much = goes_on;
        }
    }

    /// Plans one source for the distance of the last hit given, and answers the cost.
    pub fn plan(&mut self, shard: usize) -> u64
        requires { shard < length self.old.sources }
        ensures cost { (d : H) → result
            ≡ ((H.asked (slice_index_or self.old.sources shard d)).plan self.old.last).1 }
        ensures vector { (d : H) → H.planned (slice_index_or self.new.sources shard d)
            ≡ ((H.asked (slice_index_or self.old.sources shard d)).plan self.old.last).0 }
        ensures shards { length self.new.sources ≡ length self.old.sources }
        ensures looks { Looks H.asked H.standing self.old self.new }
    {
        let last = self.last;
        self.sources[shard].plan(last)
    }

    /// The threshold vector of the last `plan` of one source.
    pub fn thresholds(&self, shard: usize) -> &[i32]
        requires { shard < length self.now.sources }
        ensures { (d : H) → result.now ≡ H.planned (slice_index_or self.now.sources shard d) }
    {
        self.sources[shard].thresholds()
    }

    /// The sums of the reads and of the bounds for the distance of the last hit given, each at most
    /// the greatest u64.
    pub fn cost(&mut self) -> (u64, u64)
        ensures reads { result.0 ≡ all_reads H.standing self.old }
        ensures bound { result.1 ≡ all_bounds H.asked self.old }
        ensures shards { length self.new.sources ≡ length self.old.sources }
        ensures looks { Looks H.asked H.standing self.old self.new }
        // Where no source began a radius above the last hit's distance, it reads within the bound.
        ensures within { BegunWithin H.standing self.old.last self.old.sources
            → result.0 ≤ result.1 }
        // Where the hits given are hits of the answer, it reads one posting for each at least.
        ensures no_less { self.old.given ≤ length (answer_of (seen H.asked H.standing self.old))
            → self.old.given ≤ result.0 }
    {
        let last = self.last;
        let reads = reads_of(&self.sources);
        (reads, bound_of(self.sources.as_mut_slice(), last))
    }

    /// Ends the gathering, and tells how many hits it gave and how much was read.
    pub fn cancel(self) -> Tally
    where
        H: Drop,
        ensures given { result.given ≡ self.given }
        ensures reads { result.reads ≡ all_reads H.standing self }
    {
        Tally {
            given: self.given,
            reads: reads_of(&self.sources),
        }
    }
}
