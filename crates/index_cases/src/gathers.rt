ghost use Rattle.std.specs.Prelude.{◌≡◌, ◌≤◌, [], length, IfOk, None, All};
ghost use Rattle.std.specs.Thread.{IsSync};
ghost use Rattle.hamming_model.specs.declared.limits.TheConstants.{BITS_MOST};
ghost use Rattle.hit_source.specs.Sources.{IsFresh};

use hamming_model::{BITS_MOST, Hit};
use hit_source::{HitSource, ListedHits, Polled};
use read_meter::{Meters, NoMemory};
use scatter_gather::{Either, Gate, Gather, NoGate};
use std::alloc::{AllocError, Global};
use std::env::Env;
use std::process::Abort;
use std::sync::atomic::{AtomicU64, Ordering};
use std::test::Fail;
use std::thread::{self, Threads};

// The ledger that these tests count on.
#[derive(Drop)]
struct Reads;

// How often a gate looks whether the other source has passed.
const TURNS: u32 = 1_000_000;

// Holds source 0 until source 1 has passed, for so many turns.
#[derive(Drop)]
struct Meeting {
    passed: AtomicU64,
    missed: AtomicU64,
}

impl Gate for Meeting {
    fn pass(&self, shard: usize) {
        if shard == 1 {
            self.passed.store(1, Ordering::SeqCst);
            return;
        }
        for _turn in 0..TURNS {
            if self.passed.load(Ordering::SeqCst) == 1 {
                return;
            }
            thread::yield_now();
        }
        self.missed.store(1, Ordering::SeqCst);
    }
}

// A source of these hits, a distance and a key each, of which two may wait.
fn source_of(alloc: Global, hits: &[(u32, u64)]) -> Result<ListedHits, AllocError>
    ensures fresh { IfOk result (λ source. IsFresh (⟦<ListedHits as HitSource>⟧.standing source)) }
    ensures far { IfOk result (λ source.
        (⟦<ListedHits as HitSource>⟧.asked source).farthest ≡ BITS_MOST) }
{
    let mut list = Vec::new(alloc);
    for &(dist, key) in hits {
        list.push(Hit {
            dist: dist.min(BITS_MOST),
            key,
        })?;
    }
    Ok(ListedHits::new(list, 2))
}

#[test]
fn gate_two_sources_meet(rt: HostRuntime) -> Result<(), Fail> {
    let alloc = rt.alloc();
    let mut sources = Vec::new(alloc);
    sources.push(source_of(alloc, &[(3, 1)])?)?;
    sources.push(source_of(alloc, &[(2, 2)])?)?;
    let mut gather = Gather::new(alloc, sources, 5)?;
    let mut meters = Meters::<Reads>::new(&rt, alloc)?;
    let gate = Meeting {
        passed: AtomicU64::new(0),
        missed: AtomicU64::new(0),
    };
    gather.round(&rt, &gate, 1, &mut meters);
    assert!(rt; gate.missed.load(Ordering::SeqCst) == 0, "they met");
    Ok(())
}

// Three sources with a tie over all of them, of two kinds.
fn three(alloc: Global, limit: u64) -> Result<Gather<Either<ListedHits, ListedHits>>, NoMemory>
    ensures { IfOk result (λ gather. length gather.sources ≡ 3) }
{
    let mut sources = Vec::new(alloc);
    sources.push(Either::Range(source_of(alloc, &[(3, 9), (1, 5), (3, 1)])?))?;
    sources.push(Either::Near(source_of(alloc, &[(3, 4), (0, 7)])?))?;
    sources.push(Either::Range(source_of(alloc, &[(2, 2), (3, 3)])?))?;
    Gather::new(alloc, sources, limit)
}

// Their hits by distance, and by key where the distance is the same.
static MERGED: [(u32, u64); 7] = [(0, 7), (1, 5), (2, 2), (3, 1), (3, 3), (3, 4), (3, 9)];

// Compares what the three give up to a limit with the first of the merge.
fn compare<R: Abort + Threads + Sync + Env>(
    rt: &R,
    alloc: Global,
    limit: u64,
    budget: u32,
) -> Result<(), NoMemory>
    requires sync { IsSync R.row }
    requires budget { 1 ≤ budget }
{
    let mut gather = three(alloc, limit)?;
    let mut meters = Meters::<Reads>::new(rt, alloc)?;
    let mut given = 0;
    for &(dist, key) in &MERGED {
        if given < limit {
            assert!(rt; gather.more(rt, &NoGate, budget, &mut meters));
            let hit = gather.next(rt, &NoGate, budget, &mut meters);
            assert!(rt;
                hit == Some(Hit { dist, key }),
                "hit {given} of at most {limit}"
            );
            given += 1;
        }
    }
    assert!(rt; !gather.more(rt, &NoGate, budget, &mut meters));
    assert!(rt; gather.next(rt, &NoGate, budget, &mut meters).is_none());
    assert!(rt; gather.given() == given && gather.cancel().given == given);
    Ok(())
}

static LIMITS: [u64; 6] = [0, 1, 4, 6, 7, 20];

static BUDGETS: [u32; 4] = [1, 2, 3, 64];

#[test]
fn many_sources_give_the_merge_up_to_the_limit(rt: HostRuntime) -> Result<(), Fail> {
    for &limit in &LIMITS {
        for &budget in &BUDGETS {
            compare(&rt, rt.alloc(), limit, budget)?;
        }
    }
    Ok(())
}

#[test]
fn a_source_is_polled_only_where_it_may_have_the_next_hit(rt: HostRuntime) -> Result<(), Fail> {
    let mut gather = three(rt.alloc(), 9)?;
    let mut meters = Meters::<Reads>::new(&rt, rt.alloc())?;
    assert!(rt; gather.ready().is_none() && gather.last().is_none());
    assert!(rt; gather.poll_one(0, 1, &mut meters).is_none());
    assert!(rt; gather.poll_one(1, 1, &mut meters) == Some(Polled::Moved));
    assert!(rt; gather.poll_one(1, 1, &mut meters) == Some(Polled::Moved));
    assert!(rt; gather.poll_one(1, 1, &mut meters).is_none());
    assert!(rt; gather.ready() == Some(Hit { dist: 0, key: 7 }));
    assert!(rt;
        gather.last() == Some(0) && gather.floor(0) == Some(1) && gather.floor(1) == Some(3)
    );
    assert!(rt; gather.plan(0) == 3 && gather.thresholds(0).is_empty());
    assert!(rt; gather.cost() == (1, 7));
    let tally = gather.cancel();
    assert!(rt; tally.given == 1 && tally.reads == 1);
    Ok(())
}
