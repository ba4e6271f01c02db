// The table of the allocation, filled from the last part to the first.

ghost use Rattle.std.specs.Prelude.{◌≡◌, ℕ, ◌+◌, ◌-◌, ◌*◌, ◌^◌, ◌<◌, ◌≤◌, drop, length, map, slice_index};
ghost use Rattle.hamming_model.specs.declared.limits.TheConstants.{PARTS_MOST};
ghost use Rattle.threshold_model.specs.Splits.{threshold_of, units_total, split_cost, IsBest};
ghost use Rattle.threshold_dp.specs.Table.{AreAsked, IsFirstLeast, NeverFallIn, joint_cost};
ghost use Rattle.threshold_dp.specs.Table.{IsRowFrom, IsLastRow, IsSolved, pick_rows, follow};

use crate::part_counts::PartCounts;
use crate::thresholds::Thresholds;

// The units that a part takes, and what they cost together with the parts behind it.
#[derive(Clone, Copy)]
struct Pick {
    units: usize,
    cost: u64,
}

// Asks the counts of a part, one for each number of units.
fn read_counts<C: PartCounts>(counts: &C, part: usize, asked: &mut [u32])
    requires part { part < C.parts counts.now }
    requires width { length asked.old ≤ 514 }
    ensures asked { AreAsked (C.counts counts.now) part (length asked.old) asked.new }
    ensures rises { NeverFallIn asked.new }
{
    counts.count_levels(part, asked);
}

// The fewest units of a part at which it is cheapest together with the parts behind it. Counts never
// fall, so none is looked at beyond one that alone costs as much as the cheapest so far.
fn cheapest_units(asked: &[u32], costs: &[u64], units: usize) -> Pick
    requires asked { units < length asked.now }
    requires costs { units < length costs.now }
    requires rises { NeverFallIn asked.now }
    requires bound { (other : ℕ) → other ≤ units →
        slice_index costs.now other ≤ PARTS_MOST * (2 ^ 32 - 1) }
    ensures first { IsFirstLeast (joint_cost asked.now costs.now units) units result.units }
    ensures cost { result.cost ≡ joint_cost asked.now costs.now units result.units }
{
    let mut best = 0;
    let mut least = u64::from(asked[0]) + costs[units];
    for pick in 1..units + 1 {
        if u64::from(asked[pick]) >= least {
            return Pick {
                units: best,
                cost: least,
            };
        }
        let cost = u64::from(asked[pick]) + costs[units - pick];
        if cost < least {
            best = pick;
            least = cost;
        }
    }
    Pick {
        units: best,
        cost: least,
    }
}

// Adds a part in front of those that are solved: a row of picks, and the costs with this part in
// the place of those without it. Going down, the costs of fewer units are still those without it.
fn add_part(asked: &[u32], costs: &mut [u64], picks: &mut [u16])
    requires costs { length costs.old ≡ length asked.now }
    requires picks { length asked.now ≤ length picks.old }
    requires narrow { length asked.now ≤ 514 }
    requires rises { NeverFallIn asked.now }
    requires bound { (units : ℕ) → units < length asked.now →
        slice_index costs.old units ≤ PARTS_MOST * (2 ^ 32 - 1) }
    ensures row { IsRowFrom 0 (length asked.now) asked.now costs.old costs.new picks.new }
{
    let mut units = asked.len();
    while units > 0 {
        units -= 1;
        let pick = cheapest_units(asked, costs, units);
        costs[units] = pick.cost;
        picks[units] = pick.units as u16;
    }
}

// The row of the last part, which takes all units that are left.
fn add_last_part(asked: &[u32], costs: &mut [u64], picks: &mut [u16])
    requires costs { length costs.old ≡ length asked.now }
    requires picks { length asked.now ≤ length picks.old }
    requires narrow { length asked.now ≤ 514 }
    ensures row { IsLastRow (length asked.now) asked.now costs.new picks.new }
{
    for units in 0..asked.len() {
        costs[units] = u64::from(asked[units]);
        picks[units] = units as u16;
    }
}

// Solves the parts from the last one to a first one, for all units below the width of the counts.
fn solve_from<C: PartCounts>(
    counts: &C,
    first: usize,
    parts: usize,
    asked: &mut [u32],
    costs: &mut [u64],
    picks: &mut [u16],
)
    requires some { first < parts }
    requires few { parts ≤ PARTS_MOST }
    requires counted { parts ≤ C.parts counts.now }
    requires wide { 0 < length asked.old }
    requires narrow { length asked.old ≤ 514 }
    requires costs { length costs.old ≡ length asked.old }
    requires room { parts * length asked.old ≤ length picks.old }
    ensures solved { let width = length asked.old in
        IsSolved (C.counts counts.now) first
        (pick_rows width (parts - first) (drop (first * width) picks.new)) costs.new width }
{
    let width = asked.len();
    let mut part = parts - 1;
    let last = part * width;
    read_counts(counts, part, asked);
    add_last_part(asked, costs, &mut picks[last..last + width]);
    while part > first {
        part -= 1;
        let from = part * width;
        read_counts(counts, part, asked);
        add_part(asked, costs, &mut picks[from..from + width]);
    }
}

// Solves so many parts from the last one to the first, for all units below the width of the counts.
pub(crate) fn solve_parts<C: PartCounts>(
    counts: &C,
    parts: usize,
    asked: &mut [u32],
    costs: &mut [u64],
    picks: &mut [u16],
)
    requires some { 0 < parts }
    requires few { parts ≤ PARTS_MOST }
    requires counted { parts ≤ C.parts counts.now }
    requires wide { 0 < length asked.old }
    requires narrow { length asked.old ≤ 514 }
    requires costs { length costs.old ≡ length asked.old }
    requires room { parts * length asked.old ≤ length picks.old }
    ensures solved { let width = length asked.old in
        IsSolved (C.counts counts.now) 0 (pick_rows width parts picks.new) costs.new width }
{
    solve_from(counts, 0, parts, asked, costs, picks);
}

// Solves so many parts for exactly as many units as there are counts below the last, of the first part for these alone,
// and answers their least cost.
fn solve_one<C: PartCounts>(
    counts: &C,
    parts: usize,
    asked: &mut [u32],
    costs: &mut [u64],
    picks: &mut [u16],
) -> u64
    requires some { 0 < parts }
    requires few { parts ≤ PARTS_MOST }
    requires counted { parts ≤ C.parts counts.now }
    requires wide { 0 < length asked.old }
    requires narrow { length asked.old ≤ 514 }
    requires costs { length costs.old ≡ length asked.old }
    requires room { parts * length asked.old ≤ length picks.old }
    ensures best { let width = length asked.old in
        let split = follow (pick_rows width parts picks.new) (width - 1) in
        IsBest (C.counts counts.now) 0 parts (width - 1) split }
    ensures cost { let width = length asked.old in
        let split = follow (pick_rows width parts picks.new) (width - 1) in
        result ≡ split_cost (C.counts counts.now) 0 split }
{
    let units = asked.len() - 1;
    if parts == 1 {
        solve_parts(counts, parts, asked, costs, picks);
        return costs[units];
    }
    solve_from(counts, 1, parts, asked, costs, picks);
    read_counts(counts, 0, asked);
    let pick = cheapest_units(asked, costs, units);
    picks[units] = pick.units as u16;
    pick.cost
}

// Solves so many parts for tau + 1 units, and answers the least cost of exactly so many.
pub(crate) fn solve<C: PartCounts>(
    counts: &C,
    tau: u32,
    parts: usize,
    asked: &mut [u32],
    costs: &mut [u64],
    picks: &mut [u16],
) -> u64
    requires some { 0 < parts }
    requires few { parts ≤ PARTS_MOST }
    requires counted { parts ≤ C.parts counts.now }
    requires near { tau ≤ 512 }
    requires asked { tau + 2 ≤ length asked.old }
    requires costs { tau + 2 ≤ length costs.old }
    requires picks { parts * (tau + 2) ≤ length picks.old }
    ensures best { let split = follow (pick_rows (tau + 2) parts picks.new) (tau + 1) in
        IsBest (C.counts counts.now) 0 parts (tau + 1) split }
    ensures cost { let split = follow (pick_rows (tau + 2) parts picks.new) (tau + 1) in
        result ≡ split_cost (C.counts counts.now) 0 split }
{
    let width = tau as usize + 2;
    solve_one(
        counts,
        parts,
        &mut asked[..width],
        &mut costs[..width],
        picks,
    )
}

// Reads the split of so many units out of the rows of so many parts.
pub(crate) fn read_out(
    picks: &[u16],
    width: usize,
    units: usize,
    parts: usize,
    out: &mut Thresholds,
)
    requires room { parts ≤ out.old.room }
    requires narrow { width ≤ 514 }
    requires within { units < width }
    requires wide { parts * width ≤ length picks.now }
    requires sum { units_total (follow (pick_rows width parts picks.now) units) ≡ units }
    ensures entries { out.new.entries
        ≡ map threshold_of (follow (pick_rows width parts picks.now) units) }
    ensures room { out.new.room ≡ out.old.room }
{
    out.clear();
    let mut left = units;
    for part in 0..parts {
        let pick = picks[part * width + left];
        out.push(pick);
        left -= usize::from(pick);
    }
}
