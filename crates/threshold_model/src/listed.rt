ghost use Rattle.std.specs.Prelude.{◌≡◌, ℕ, ◌+◌, ◌-◌, ◌*◌, ◌^◌, ◌<◌, ◌≤◌, [], ◌∷◌, length, slice_index, map, IfOk};
ghost use Rattle.hamming_model.specs.declared.limits.TheConstants.{PARTS_MOST};
ghost use Rattle.threshold_model.specs.Vectors.{IsChoice, cost};
ghost use Rattle.threshold_model.specs.Splits.{threshold_of, split_cost, table_count, IsBest};

use std::alloc::{AllocError, Global};

/// A threshold vector and its cost.
#[derive(Drop)]
pub struct Listed {
    pub cost: u64,
    pub thresholds: Vec<i32>,
}

// A split of units over parts, and its cost.
#[derive(Drop)]
struct Split {
    cost: u64,
    units: Vec<u32>,
}

/// Goes through all threshold vectors and keeps the first of the cheapest: the definition's own
/// program, for small inputs, since there are exponentially many vectors.
///
/// The table has a row of tau + 2 counts for each part: at the radii -1 to tau.
pub fn least_by_listing(
    alloc: Global,
    counts: &[u32],
    parts: usize,
    tau: u32,
) -> Result<Listed, AllocError>
    requires some { 0 < parts }
    requires few { parts ≤ PARTS_MOST }
    requires near { tau ≤ 512 }
    requires size { length counts.now ≡ parts * (tau + 2) }
    ensures choice { IfOk result (λ listed.
        IsChoice (table_count counts.now (tau + 2)) tau parts listed.thresholds.items) }
    ensures cost { IfOk result (λ listed.
        listed.cost ≡ cost (table_count counts.now (tau + 2)) listed.thresholds.items) }
{
    let width = tau as usize + 2;
    let split = least_from(alloc, counts, width, 0, parts, width - 1)?;
    let thresholds = thresholds_of(alloc, split.units.as_slice())?;
    Ok(Listed {
        cost: split.cost,
        thresholds,
    })
}

// The first of the cheapest splits of the units over so many parts from this one on.
fn least_from(
    alloc: Global,
    counts: &[u32],
    width: usize,
    part: usize,
    parts: usize,
    units: usize,
) -> Result<Split, AllocError>
    requires some { 0 < parts }
    requires few { parts ≤ PARTS_MOST }
    requires units { units < width }
    requires narrow { width ≤ 514 }
    requires size { (part + parts) * width ≤ length counts.now }
    ensures best { IfOk result (λ split.
        IsBest (table_count counts.now width) part parts units split.units.items) }
    ensures cost { IfOk result (λ split.
        split.cost ≡ split_cost (table_count counts.now width) part split.units.items) }
    ensures bound { IfOk result (λ split. split.cost ≤ parts * (2 ^ 32 - 1)) }
{
    if parts == 1 {
        return last_split(alloc, counts[part * width + units], units);
    }
    let rest = least_from(alloc, counts, width, part + 1, parts - 1, units)?;
    let mut best = with_front(counts[part * width], 0, rest)?;
    for pick in 1..units + 1 {
        let rest = least_from(alloc, counts, width, part + 1, parts - 1, units - pick)?;
        let other = with_front(counts[part * width + pick], pick, rest)?;
        best = cheaper(best, other);
    }
    Ok(best)
}

// All units for one part.
fn last_split(alloc: Global, count: u32, units: usize) -> Result<Split, AllocError>
    requires narrow { units ≤ 514 }
    ensures units { IfOk result (λ split. split.units.items ≡ units ∷ []) }
    ensures cost { IfOk result (λ split. split.cost ≡ count) }
{
    let units = vec![in alloc; units as u32]?;
    Ok(Split {
        cost: u64::from(count),
        units,
    })
}

// A split with one more part in front.
fn with_front(count: u32, pick: usize, mut rest: Split) -> Result<Split, AllocError>
    requires narrow { pick ≤ 514 }
    requires bound { rest.cost ≤ PARTS_MOST * (2 ^ 32 - 1) }
    ensures units { IfOk result (λ split. split.units.items ≡ pick ∷ rest.units.items) }
    ensures cost { IfOk result (λ split. split.cost ≡ count + rest.cost) }
{
    rest.units.insert(0, pick as u32)?;
    rest.cost += u64::from(count);
    Ok(rest)
}

// The cheaper of two splits, the first where they cost the same.
fn cheaper(best: Split, other: Split) -> Split
    ensures other { other.cost < best.cost → result ≡ other }
    ensures best { best.cost ≤ other.cost → result ≡ best }
{
    if other.cost < best.cost { other } else { best }
}

// The thresholds that allow so many distances.
fn thresholds_of(alloc: Global, units: &[u32]) -> Result<Vec<i32>, AllocError>
    requires narrow { (k : ℕ) → slice_index units.now k ≤ 514 }
    ensures thresholds { IfOk result (λ thresholds. thresholds.items ≡ map threshold_of units.now) }
{
    let mut thresholds = Vec::new(alloc);
    for allowed in units {
        thresholds.push(*allowed as i32 - 1)?;
    }
    Ok(thresholds)
}
