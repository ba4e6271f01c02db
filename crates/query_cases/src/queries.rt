//! Requests on open queries over three sources, with a tie over all of them.

ghost use Rattle.std.specs.Prelude.{◌≡◌, false, IfOk};
ghost use Rattle.std.specs.Thread.{IsSync};
ghost use Rattle.hamming_model.specs.declared.limits.TheConstants.{BITS_MOST};
ghost use Rattle.hit_source.specs.Sources.{IsFresh};
ghost use Rattle.open_queries.specs.Kept.{IsUntouched};

use byte_lines::LineBuf;
use hamming_model::{BITS_MOST, Hit};
use hit_source::{HitSource, ListedHits};
use line_io::MemorySink;
use open_queries::{OpenQueries, say};
use query_protocol::{Bad, Reply, Tag};
use read_meter::Meters;
use scatter_gather::{Gather, NoGate};
use std::alloc::{AllocError, Global};
use std::process::Abort;
use std::test::Fail;
use std::thread::Threads;

// The ledger that these tests count on.
#[derive(Drop)]
struct Reads;

// A source of these hits, a distance and a key each, of which two may wait.
fn source_of(alloc: Global, hits: &[(u32, u64)]) -> Result<ListedHits, AllocError>
    ensures fresh { IfOk result (λ source. IsFresh (⟦<ListedHits as HitSource>⟧.standing source)) }
    ensures far { IfOk result
        (λ source. (⟦<ListedHits as HitSource>⟧.asked source).farthest ≡ BITS_MOST) }
    ensures range { IfOk result
        (λ source. (⟦<ListedHits as HitSource>⟧.asked source).near ≡ false) }
{
    let mut list = Vec::new(alloc);
    for &(dist, key) in hits {
        list.push(Hit {
            dist: dist.min(BITS_MOST),
            key,
        })?;
    }
    Ok(ListedHits::new(list, 2))
}

// Three sources with a tie over all of them.
fn three(alloc: Global) -> Result<Gather<ListedHits>, Fail>
    ensures { IfOk result (λ gather. IsUntouched ⟦<ListedHits as HitSource>⟧.asked
        ⟦<ListedHits as HitSource>⟧.standing gather) }
{
    let mut sources = Vec::new(alloc);
    sources.push(source_of(alloc, &[(3, 9), (1, 5), (3, 1)])?)?;
    sources.push(source_of(alloc, &[(3, 4), (0, 7)])?)?;
    sources.push(source_of(alloc, &[(2, 2), (3, 3)])?)?;
    Ok(Gather::new(alloc, sources, u64::MAX)?)
}

// A request on a tag.
#[derive(Clone, Copy)]
enum Asked {
    Range,
    Next(u32),
    Cost,
    Cancel,
}

// Requests, each on a tag of one letter.
static ASKED: [(u8, Asked); 14] = [
    (b'a', Asked::Range),
    (b'b', Asked::Range),
    (b'a', Asked::Range),
    (b'a', Asked::Next(4)),
    (b'a', Asked::Cancel),
    (b'a', Asked::Next(1)),
    (b'a', Asked::Cancel),
    (b'a', Asked::Range),
    (b'a', Asked::Next(7)),
    (b'a', Asked::Cost),
    (b'a', Asked::Next(1)),
    (b'b', Asked::Next(1)),
    (b'a', Asked::Cancel),
    (b'b', Asked::Next(9)),
];

// What they are told. An opening is told nothing here.
static TOLD: &[u8] = b"bad 7\n\
hit a 0 7\nhit a 1 5\nhit a 2 2\nhit a 3 1\nmore a\n\
cancelled a 4\n\
bad 8\n\
bad 8\n\
hit a 0 7\nhit a 1 5\nhit a 2 2\nhit a 3 1\nhit a 3 3\nhit a 3 4\nhit a 3 9\ndone a 7\n\
cost a reads 7 bound 7\n\
done a 7\n\
hit b 0 7\nmore b\n\
closed a 7\n\
hit b 1 5\nhit b 2 2\nhit b 3 1\nhit b 3 3\nhit b 3 4\nhit b 3 9\ndone b 7\n";

// Meets one request.
fn meet<R: Abort + Threads + Sync>(
    rt: &R,
    alloc: Global,
    queries: &mut OpenQueries<ListedHits>,
    tag: &Tag,
    asked: Asked,
    out: &mut LineBuf,
    sink: &mut MemorySink,
    meters: &mut Meters<Reads>,
) -> Result<(), Fail>
    requires sync { IsSync R.row }
{
    match asked {
        Asked::Range => {
            if queries.is_used(tag) {
                say(out, sink, &Reply::Bad(Bad::tag_in_use())).expect(rt, "a reply");
            } else if queries.is_full() {
                say(out, sink, &Reply::Bad(Bad::too_many_queries())).expect(rt, "a reply");
            } else {
                queries.open(*tag, three(alloc)?);
            }
        }
        Asked::Next(count) => queries
            .next(rt, &NoGate, tag, count, out, sink, meters)
            .expect(rt, "the hits"),
        Asked::Cost => {
            let reply = queries.cost(tag);
            say(out, sink, &reply).expect(rt, "a reply");
        }
        Asked::Cancel => {
            let reply = queries.cancel(tag);
            say(out, sink, &reply).expect(rt, "a reply");
        }
    }
    Ok(())
}

#[test]
fn a_tag_is_given_its_own_hits_until_it_is_cancelled(rt: HostRuntime) -> Result<(), Fail> {
    let alloc = rt.alloc();
    let mut queries = OpenQueries::new(alloc)?;
    let mut out = LineBuf::new(alloc)?;
    let mut sink = MemorySink::new(alloc, Vec::new(alloc));
    let mut meters = Meters::<Reads>::new(&rt, alloc)?;
    for &(letter, asked) in &ASKED {
        let tag = Tag::of(&[letter]).expect(&rt, "a tag");
        meet(
            &rt,
            alloc,
            &mut queries,
            &tag,
            asked,
            &mut out,
            &mut sink,
            &mut meters,
        )?;
    }
    assert_eq!(rt; sink.bytes(), TOLD);
    Ok(())
}

static MADE_ROOM: &[u8] = b"bad 9\ncancelled h 0\nhit q 0 7\nmore q\n";

#[test]
fn sixteen_queries_are_open_until_one_is_cancelled(rt: HostRuntime) -> Result<(), Fail> {
    let alloc = rt.alloc();
    let mut queries = OpenQueries::new(alloc)?;
    let mut out = LineBuf::new(alloc)?;
    let mut sink = MemorySink::new(alloc, Vec::new(alloc));
    let mut meters = Meters::<Reads>::new(&rt, alloc)?;
    for letter in b'a'..=b'q' {
        let tag = Tag::of(&[letter]).expect(&rt, "a tag");
        meet(
            &rt,
            alloc,
            &mut queries,
            &tag,
            Asked::Range,
            &mut out,
            &mut sink,
            &mut meters,
        )?;
    }
    let other = Tag::of(b"h").expect(&rt, "a tag");
    meet(
        &rt,
        alloc,
        &mut queries,
        &other,
        Asked::Cancel,
        &mut out,
        &mut sink,
        &mut meters,
    )?;
    let last = Tag::of(b"q").expect(&rt, "a tag");
    meet(
        &rt,
        alloc,
        &mut queries,
        &last,
        Asked::Range,
        &mut out,
        &mut sink,
        &mut meters,
    )?;
    meet(
        &rt,
        alloc,
        &mut queries,
        &last,
        Asked::Next(1),
        &mut out,
        &mut sink,
        &mut meters,
    )?;
    assert_eq!(rt; sink.bytes(), MADE_ROOM);
    Ok(())
}
