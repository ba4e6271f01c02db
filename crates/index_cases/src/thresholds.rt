ghost use Rattle.std.specs.Prelude.{◌≡◌, ◌<◌, ◌≤◌, length};
ghost use Rattle.index_cases.specs.Listing.{nearer};

use crate::plain::after;
use std::alloc::{AllocError, Global};
use std::process::Abort;
use std::test::Fail;
use threshold_dp::{PartCounts, Scratch, Thresholds, allocate};
use threshold_model::least_by_listing;

// A distance that no radius of these tests reaches.
const FAR: u32 = 600;

// How many of the distances are among the first so many.
fn reached(distances: &[u32; 8], units: u32) -> u32
    ensures number { result ≡ nearer distances.now units }
    ensures few { result ≤ 8 }
{
    let mut count = 0;
    for place in 0..8usize {
        if distances[place] < units {
            count += 1;
        }
    }
    count
}

// The distances of eight codes from a query at each of 64 parts.
#[derive(Drop)]
struct Distances {
    at: [[u32; 8]; 64],
}

impl PartCounts for Distances {
    ghost use Rattle.index_cases.specs.Listing.{nearer_at};
    ghost use Rattle.threshold_model.specs.Vectors.{NeverFalls};
    ghost use Rattle.index_cases.specs.Nearer.{nearer_starts, nearer_rises};

    ghost parts = { λ _. 64 };

    ghost counts = { λ distances. nearer_at distances.at };

    fn count(&self, part: usize, radius: i32) -> u32 {
        reached(&self.at[part], (radius + 1) as u32)
    }

    ghost starts = { λ distances part _. nearer_starts distances.at part };

    ghost rises = { λ distances part _. nearer_rises distances.at part };
}

impl Distances {
    // All codes are out of reach at all parts.
    fn far() -> Distances {
        Distances { at: [[FAR; 8]; 64] }
    }

    // Distances that a fixed sequence gives, each below a bound.
    fn drawn(mut seed: u64, bound: u32) -> Distances
        requires { 0 < bound }
    {
        let mut distances = Distances::far();
        for row in distances.at.iter_mut() {
            for distance in row.iter_mut() {
                seed = after(seed);
                *distance = (seed >> 40) as u32 % bound;
            }
        }
        distances
    }

    // The counts of the first parts at the radii -1 to tau, one row a part.
    fn table(&self, alloc: Global, parts: usize, tau: u32) -> Result<Vec<u32>, AllocError>
        requires few { parts ≤ 64 }
        requires near { tau ≤ 512 }
    {
        let mut counts = Vec::new(alloc);
        for part in 0..parts {
            for units in 0..tau + 2 {
                counts.push(self.count(part, units as i32 - 1))?;
            }
        }
        Ok(counts)
    }
}

// Allocates in room that was reserved for more, and compares with the list of all vectors.
fn compare<R: Abort>(
    rt: &R,
    alloc: Global,
    distances: &Distances,
    parts: usize,
    tau: u32,
) -> Result<(), AllocError>
    requires some { 0 < parts }
    requires few { parts ≤ 5 }
    requires near { tau ≤ 9 }
{
    let counts = distances.table(alloc, parts, tau)?;
    assert!(rt; counts.len() == parts * (tau as usize + 2));
    let want = least_by_listing(alloc, counts.as_slice(), parts, tau)?;
    assert!(rt; want.thresholds.len() == parts);
    let mut scratch = Scratch::reserve(alloc, 5, 9).expect(rt, "memory to work in");
    let mut out = Thresholds::reserve(alloc, 5).expect(rt, "memory for a vector");
    let vector = want.thresholds.as_slice();
    // twice, since nothing of an earlier allocation may show
    let cost = want.cost;
    allocate_in(rt, &mut scratch, &mut out, distances, tau, cost, vector);
    allocate_in(rt, &mut scratch, &mut out, distances, tau, cost, vector);
    Ok(())
}

// Allocates in this room, and compares with a cost and a vector.
fn allocate_in<R: Abort>(
    rt: &R,
    scratch: &mut Scratch,
    out: &mut Thresholds,
    distances: &Distances,
    tau: u32,
    cost: u64,
    thresholds: &[i32],
)
    requires some { 0 < length thresholds.now }
    requires few { length thresholds.now ≤ 64 }
    requires parts { length thresholds.now ≤ scratch.old.parts }
    requires tau { tau ≤ scratch.old.tau }
    requires room { length thresholds.now ≤ out.old.room }
    ensures scratch { scratch.new ≡ scratch.old }
    ensures room_stays { out.new.room ≡ out.old.room }
{
    let parts = thresholds.len();
    let least = allocate(scratch, tau, parts, distances, out);
    let is_least = least == cost && out.entries() == thresholds;
    assert!(rt; is_least, "{parts} parts, tau {tau}");
}

// Allocates in room of its own, and compares with a cost and a vector.
fn expect_choice<R: Abort>(
    rt: &R,
    alloc: Global,
    distances: &Distances,
    tau: u32,
    cost: u64,
    thresholds: &[i32],
)
    requires near { tau ≤ 512 }
{
    let parts = thresholds.len();
    assert!(rt; 0 < parts && parts <= 64);
    let mut scratch = Scratch::reserve(alloc, parts, tau).expect(rt, "memory to work in");
    let mut out = Thresholds::reserve(alloc, parts).expect(rt, "memory for a vector");
    allocate_in(rt, &mut scratch, &mut out, distances, tau, cost, thresholds);
}

#[test]
fn the_choices_of_the_worked_examples(rt: HostRuntime) {
    let far = Distances::far();
    // the codes 00, 0f, ff and 01 from the query 00, at the first four positions and at the last
    let mut halves = Distances::far();
    halves.at[0] = [0, 0, 4, 0, FAR, FAR, FAR, FAR];
    halves.at[1] = [0, 4, 4, 1, FAR, FAR, FAR, FAR];
    // and at the even positions and at the odd
    let mut woven = Distances::far();
    woven.at[0] = [0, 2, 4, 0, FAR, FAR, FAR, FAR];
    woven.at[1] = [0, 2, 4, 1, FAR, FAR, FAR, FAR];
    assert!(rt; halves.count(0, -1) + halves.count(1, 1) == 2);
    assert!(rt; halves.count(0, 0) + halves.count(1, 0) == 4);
    assert!(rt; halves.count(0, 1) + halves.count(1, -1) == 3);
    expect_choice(&rt, rt.alloc(), &halves, 1, 2, &[-1, 1]);
    expect_choice(&rt, rt.alloc(), &halves, 0, 1, &[-1, 0]);
    expect_choice(&rt, rt.alloc(), &halves, 8, 4, &[-1, 8]);
    expect_choice(&rt, rt.alloc(), &halves, 3, 2, &[-1, 3]);
    expect_choice(&rt, rt.alloc(), &woven, 3, 3, &[-1, 3]);
    expect_choice(&rt, rt.alloc(), &far, 8, 0, &[-1, 8]);
}

#[test]
fn of_64_parts_the_free_one_takes_all_and_a_tie_goes_to_the_last(rt: HostRuntime) {
    let mut one_free = Distances::far();
    for row in one_free.at.iter_mut() {
        row[3] = 0;
    }
    let mut last = [-1; 64];
    last[63] = 512;
    expect_choice(&rt, rt.alloc(), &one_free, 512, 1, &last);
    one_free.at[10][3] = FAR;
    let mut tenth = [-1; 64];
    tenth[10] = 512;
    expect_choice(&rt, rt.alloc(), &one_free, 512, 0, &tenth);
    expect_choice(&rt, rt.alloc(), &one_free, 512, 1, &[512]);
}

static BOUNDS: [u32; 5] = [1, 2, 4, 8, 16];

#[test]
fn an_allocation_is_the_first_of_the_cheapest_vectors(rt: HostRuntime) -> Result<(), Fail> {
    let mut seed = 3;
    for &bound in &BOUNDS {
        seed = after(seed);
        assert!(rt; bound > 0);
        let distances = Distances::drawn(seed, bound);
        for parts in 1..6usize {
            for tau in 0..10u32 {
                compare(&rt, rt.alloc(), &distances, parts, tau)?;
            }
        }
    }
    Ok(())
}
