//! The least sums of one number of each row, at just so many units together.

ghost use Rattle.std.specs.Prelude.{◌≡◌, ℕ, ◌+◌, ◌-◌, ◌^◌, ◌<◌, ◌≤◌, [], ◌∷◌, length};
ghost use Rattle.exchange_model.specs.Least.{IsLeastSum};
ghost use Rattle.exchange_model.specs.Pairs.{counts_beside, place_beside};
ghost use Rattle.exchange_model.specs.declared.limits.TheConstants.{SEARCH_ROWS_MOST};
ghost use Rattle.sample_table.specs.Sums.{AreCountRows, AreLeastJoint, AreLeastSums, IsCountRow, IsLeastJoint, counts_in, kept_rows};

// Leaves the least sums of so many rows in `sums`, where those from a pair on stand two places on.
pub(crate) fn least_sums(rows: &[Vec<u32>], pair: usize, number: usize, sums: &mut [u32])
    requires some { 0 < number }
    requires there { (part : ℕ) → part < number → place_beside pair part < length rows.now }
    requires rows { AreCountRows (length sums.old) (kept_rows rows.now) }
    ensures row { IsCountRow (length sums.old) sums.new }
    ensures least { let counts = counts_beside (counts_in (kept_rows rows.now)) pair in
        AreLeastSums counts 0 number (length sums.old) sums.new }
{
    let mut part = number - 1;
    sums.copy_from_slice(rows[beside(pair, part)].as_slice());
    while part > 0 {
        part -= 1;
        add_row(rows[beside(pair, part)].as_slice(), sums);
    }
}

// The place of a row among all rows, where it is counted without a pair.
fn beside(pair: usize, part: usize) -> usize
    requires { part + 2 < 2 ^ 64 }
    ensures { result ≡ place_beside pair part }
{
    if part < pair { part } else { part + 2 }
}

// The least sum of three rows' numbers at all units. It leaves the sums of the last two in `sums`.
pub(crate) fn least_of_three(first: &[u32], next: &[u32], others: &[u32], sums: &mut [u32]) -> u32
    requires some { 0 < length sums.old }
    requires first { IsCountRow (length sums.old) first.now }
    requires next { IsCountRow (length sums.old) next.now }
    requires others { IsCountRow (length sums.old) others.now }
    ensures least { let counts = counts_in (first.now ∷ next.now ∷ others.now ∷ []) in
        IsLeastSum counts 0 3 (length sums.old - 1) result }
    ensures few { result ≤ SEARCH_ROWS_MOST }
{
    sums.copy_from_slice(others);
    add_row(next, sums);
    least_joint(first, sums, sums.len() - 1)
}

// Adds a row in front of the least sums. Going down, those of fewer units are still the sums without it.
fn add_row(row: &[u32], sums: &mut [u32])
    requires row { IsCountRow (length sums.old) row.now }
    requires sums { IsCountRow (length sums.old) sums.old }
    ensures row { IsCountRow (length sums.old) sums.new }
    ensures joint { AreLeastJoint (length sums.old) row.now sums.old sums.new }
{
    let mut units = row.len();
    while units > 0 {
        units -= 1;
        sums[units] = least_joint(row, sums, units);
    }
}

// The least of a row's number and a sum, at just so many units together.
pub(crate) fn least_joint(row: &[u32], sums: &[u32], units: usize) -> u32
    requires row { IsCountRow (length sums.now) row.now }
    requires sums { IsCountRow (length sums.now) sums.now }
    requires within { units < length sums.now }
    ensures least { IsLeastJoint row.now sums.now units result }
    ensures few { result ≤ SEARCH_ROWS_MOST }
{
    let mut least = sums[units];
    for taken in 1..units + 1 {
        least = least.min(row[taken] + sums[units - taken]);
    }
    least
}
