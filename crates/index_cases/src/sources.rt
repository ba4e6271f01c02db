ghost use Rattle.std.specs.Prelude.{◌≡◌, ◌≤◌, [], length, IfOk, All};
ghost use Rattle.hamming_model.specs.declared.limits.TheConstants.{BITS_MOST, ROOM_MOST};

use crate::plain::after;
use crate::rows::field;
use hamming_model::{BITS_MOST, Hit};
use hit_source::{HitSource, ListedHits, Polled, drain, take_waiting};
use read_meter::{NoMemory, Steps, upkeep};
use std::alloc::{AllocError, Global};
use std::process::Abort;
use std::test::Fail;

// The ledger that these tests count on.
#[derive(Drop)]
struct Reads;

// What a poll answers, the key of the first hit and the floor after it, all reads so far, and how many hits wait.
#[derive(Drop)]
struct Seen {
    polled: &'static str,
    head: Option<u64>,
    floor: Option<u32>,
    reads: u64,
    waits: usize,
}

// The name of what a poll answers.
fn name_of(polled: Polled) -> &'static str {
    match polled {
        Polled::Moved => "moved",
        Polled::Full => "full",
        Polled::Ended => "ended",
    }
}

// Whether a field is this number, or a line where there is none.
fn is_told(value: Option<u64>, field: &str) -> bool {
    match value {
        Some(number) => field.parse::<u64>().ok() == Some(number),
        None => field == "-",
    }
}

impl Seen {
    // Whether a row has what was seen, in its order.
    fn is_row<R: Abort>(&self, rt: &R, line: &str) -> bool {
        let mut row = line.split('|');
        let floor = match self.floor {
            Some(distance) => Some(u64::from(distance)),
            None => None,
        };
        field(rt, &mut row) == self.polled
            && is_told(self.head, field(rt, &mut row))
            && is_told(floor, field(rt, &mut row))
            && is_told(Some(self.reads), field(rt, &mut row))
            && is_told(Some(self.waits as u64), field(rt, &mut row))
    }
}

// Hits at these distances, each with its place as its key.
fn hits_at(alloc: Global, distances: &[u32]) -> Result<Vec<Hit>, AllocError>
    ensures { IfOk result (λ hits. All (λ hit. hit.dist ≤ BITS_MOST) hits.items) }
{
    let mut hits = Vec::new(alloc);
    for place in 0..distances.len() {
        hits.push(Hit {
            dist: distances[place].min(BITS_MOST),
            key: place as u64,
        })?;
    }
    Ok(hits)
}

// Polls, looks, and takes what waits.
fn step<S: HitSource>(
    source: &mut S,
    budget: u32,
    steps: &mut Steps<Reads>,
    out: &mut Vec<Hit>,
) -> Result<Seen, NoMemory>
    requires budget { 1 ≤ budget }
    requires none_waits { (S.standing source.old).waiting ≡ [] }
    ensures { IfOk result (λ _. (S.standing source.new).waiting ≡ []) }
{
    let polled = name_of(source.poll(budget, steps));
    let head = match source.head() {
        Some(hit) => Some(hit.key),
        None => None,
    };
    let floor = source.floor();
    let reads = source.reads();
    let before = out.len();
    take_waiting(source, out)?;
    Ok(Seen {
        polled,
        head,
        floor,
        reads,
        waits: out.len().saturating_sub(before),
    })
}

// Compares each poll of a source with its row.
fn follow<S: HitSource, R: Abort>(
    rt: &R,
    source: &mut S,
    budget: u32,
    steps: &mut Steps<Reads>,
    out: &mut Vec<Hit>,
    wants: &str,
) -> Result<(), NoMemory>
    requires budget { 1 ≤ budget }
    requires none_waits { (S.standing source.old).waiting ≡ [] }
{
    for line in wants.lines() {
        let seen = step(source, budget, steps, out)?;
        assert!(rt; seen.is_row(rt, line), "{line} with a budget of {budget}");
    }
    Ok(())
}

// Hits at the distances 0, 1, 1 and 4 come in so few polls, and then no more.
fn compare<R: Abort>(
    rt: &R,
    alloc: Global,
    steps: &mut Steps<Reads>,
    room: usize,
    budget: u32,
    wants: &str,
) -> Result<(), Fail>
    requires some_room { 1 ≤ room }
    requires small_room { room ≤ ROOM_MOST }
    requires budget { 1 ≤ budget }
{
    let mut source = ListedHits::new(hits_at(alloc, &[4, 1, 0, 1])?, room);
    let mut out = Vec::new(alloc);
    follow(rt, &mut source, budget, steps, &mut out, wants)?;
    assert!(rt; out.len() == 4 && source.floor().is_none() && source.pop().is_none());
    Ok(())
}

static ROOM_2_BUDGET_3: &str = "\
moved|2|0|2|1
full|1|1|3|2
ended|0|4|4|1
ended|-|-|4|0";

static ROOM_1_BUDGET_9: &str = "\
full|2|0|1|1
full|1|1|2|1
full|3|1|3|1
ended|0|4|4|1
ended|-|-|4|0";

static ROOM_256_BUDGET_1: &str = "\
moved|-|0|1|0
moved|2|0|1|1
moved|-|1|2|0
moved|1|1|2|1
moved|-|1|3|0
moved|3|1|3|1
moved|-|4|4|0
ended|0|4|4|1
ended|-|-|4|0";

static ROOM_4_BUDGET_8: &str = "\
ended|2|0|4|4
ended|-|-|4|0
ended|-|-|4|0";

#[test]
fn a_poll_stops_at_its_budget_at_a_full_room_or_at_the_end(rt: HostRuntime) -> Result<(), Fail> {
    let mut steps = upkeep(&rt);
    compare(&rt, rt.alloc(), &mut steps, 2, 3, ROOM_2_BUDGET_3)?;
    compare(&rt, rt.alloc(), &mut steps, 1, 9, ROOM_1_BUDGET_9)?;
    compare(&rt, rt.alloc(), &mut steps, 256, 1, ROOM_256_BUDGET_1)?;
    compare(&rt, rt.alloc(), &mut steps, 4, 8, ROOM_4_BUDGET_8)?;
    Ok(())
}

#[test]
fn a_source_of_no_hits_has_ended(rt: HostRuntime) -> Result<(), Fail> {
    let mut steps: Steps<Reads> = upkeep(&rt);
    let mut source = ListedHits::new(Vec::new(rt.alloc()), 1);
    assert!(rt; source.floor().is_none());
    assert!(rt; name_of(source.poll(1, &mut steps)) == "ended");
    assert!(rt; source.reads() == 0);
    Ok(())
}

#[test]
fn a_list_has_one_plan(rt: HostRuntime) -> Result<(), Fail> {
    let mut source = ListedHits::new(hits_at(rt.alloc(), &[7, 7, 9])?, 2);
    assert!(rt; source.head().is_none() && source.floor() == Some(7));
    assert!(rt; source.plan(None) == 3 && source.bound(Some(BITS_MOST)) == 3);
    assert!(rt; source.thresholds().is_empty() && source.rows() == 3 && !source.near());
    Ok(())
}

// Compares what draining hits at these distances takes with the hits in their order.
fn compare_drained<R: Abort>(
    rt: &R,
    alloc: Global,
    steps: &mut Steps<Reads>,
    room: usize,
    budget: u32,
    distances: &[u32],
) -> Result<(), Fail>
    requires some_room { 1 ≤ room }
    requires small_room { room ≤ ROOM_MOST }
    requires budget { 1 ≤ budget }
{
    let mut want = hits_at(alloc, distances)?;
    want.sort_unstable();
    let mut source = ListedHits::new(hits_at(alloc, distances)?, room);
    let mut out = Vec::new(alloc);
    drain(&mut source, budget, steps, &mut out)?;
    let is_drained = out == want && source.floor().is_none();
    assert!(rt; is_drained, "a room of {room} and a budget of {budget}");
    Ok(())
}

static ROOMS: [usize; 5] = [1, 2, 3, 7, 256];

static BUDGETS: [u32; 4] = [1, 2, 5, 64];

#[test]
fn draining_takes_each_hit_in_order(rt: HostRuntime) -> Result<(), Fail> {
    let mut steps: Steps<Reads> = upkeep(&rt);
    let mut seed = 1;
    for &room in &ROOMS {
        for &budget in &BUDGETS {
            let mut distances = [0; 20];
            for place in 0..20usize {
                seed = after(seed);
                distances[place] = (seed >> 61) as u32;
            }
            compare_drained(&rt, rt.alloc(), &mut steps, room, budget, &distances)?;
        }
    }
    Ok(())
}
