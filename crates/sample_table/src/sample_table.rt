//! The counts of the rows round one sample.

ghost use Rattle.std.specs.Prelude.{◌≡◌, ◌+◌, ◌<◌, ◌≤◌, length, replicate, IfOk};
ghost use Rattle.exchange_model.specs.declared.limits.TheConstants.{SAMPLE_RADIUS_MOST, SEARCH_ROWS_MOST};
ghost use Rattle.sample_table.specs.Levels.{IsTurnedTo, least_of_levels, levels_of, with_part};

use crate::least_sums::{least_joint, least_of_three, least_sums};
use crate::levels::levels;
use exchange_model::{
    least_cost_is_that_of_splits, least_cost_is_that_of_three, least_cost_is_the_least,
};
use read_meter::NoMemory;
use std::alloc::Global;
use std::marker::Model;

/// How many rows are within each radius of a sample, part by part, for up to 64 rows and radii of at most 16. Beside them it keeps what
/// all parts but two neighbouring ones cost at least, at each number of units: a trial of other counts at these two then costs as
/// much as a threshold allocation of three parts.
#[derive(Drop)]
pub struct SampleTable {
    tau: u32,
    rows: Vec<Vec<u32>>,
    others: Vec<u32>,
    // room for the two rows of a trial, and for sums
    first: Vec<u32>,
    next: Vec<u32>,
    sums: Vec<u32>,
}

impl Model for SampleTable {
    ghost use Rattle.sample_table.specs.Kept.{IsTableKept, sample_table_of};
    ghost use Rattle.sample_table.specs.Levels.{PairTable, pair_table_code};

    ghost Value = { PairTable };

    ghost coded = { pair_table_code };

    ghost view = { λ t. sample_table_of t.tau t.rows.items t.others.items };

    ghost invariant = { λ t.
        IsTableKept t.tau t.rows.items t.others.items t.first.items t.next.items t.sums.items };
}

impl SampleTable {
    /// A table of no rows, for so many parts and radii up to `tau`. It has all memory that the other calls need.
    ///
    /// # Errors
    ///
    /// `NoMemory` where there is no memory for it.
    pub fn new(alloc: Global, parts: u32, tau: u32) -> Result<SampleTable, NoMemory>
        requires { tau ≤ SAMPLE_RADIUS_MOST }
        ensures tau { IfOk result (λ table. table.levels.tau ≡ tau) }
        ensures parts { IfOk result (λ table. length table.levels.rows ≡ parts) }
    {
        let Ok(mut rows) = Vec::with_capacity(alloc, parts as usize) else {
            return Err(NoMemory);
        };
        for _part in 0..parts {
            let row = zeros(alloc, tau)?;
            let Ok(()) = rows.push(row) else {
                return Err(NoMemory);
            };
        }
        let others = zeros(alloc, tau)?;
        let first = zeros(alloc, tau)?;
        let next = zeros(alloc, tau)?;
        let sums = zeros(alloc, tau)?;
        Ok(SampleTable {
            tau,
            rows,
            others,
            first,
            next,
            sums,
        })
    }

    /// Counts a part anew: how many of the rows' values there are nearer to the sample's value than each number of units.
    pub fn count_part(&mut self, part: usize, values: &[u16], value: u16)
        requires part { part < length self.old.levels.rows }
        requires few { length values.now ≤ SEARCH_ROWS_MOST }
        ensures levels { self.new.levels ≡ with_part self.old.levels part values.now value }
    {
        write_levels(&mut self.rows[part], values, value);
    }

    /// The least cost of a threshold vector for the radius tau, at most 64.
    pub fn least(&mut self) -> u32
        requires some { 0 < length self.old.levels.rows }
        ensures least { result ≡ least_of_levels self.old.levels }
        ensures few { result ≤ SEARCH_ROWS_MOST }
        ensures same { self.new ≡ self.old }
    {
        least_cost_is_that_of_splits();
        least_cost_is_the_least();
        let parts = self.rows.len();
        least_sums(self.rows.as_slice(), parts, parts, self.sums.as_mut_slice());
        self.sums[self.tau as usize + 1]
    }

    /// Turns to a part and the next: keeps what all other parts cost at least. `least_with` then tries counts of these two.
    pub fn turn_to(&mut self, pair: usize)
        requires inside { pair + 1 < length self.old.levels.rows }
        ensures levels { self.new.levels ≡ self.old.levels }
        ensures turned { IsTurnedTo pair self.new }
    {
        least_cost_is_that_of_splits();
        least_cost_is_the_least();
        let parts = self.rows.len();
        if parts == 2 {
            return;
        }
        least_sums(
            self.rows.as_slice(),
            pair,
            parts - 2,
            self.others.as_mut_slice(),
        );
    }

    /// The least cost, at most 64, that there would be with other counts at the pair that the table is turned to: those of the rows' values
    /// and the sample's at the part, and those at the next.
    pub fn least_with(
        &mut self,
        pair: usize,
        values: &[u16],
        value: u16,
        next_values: &[u16],
        next_value: u16,
    ) -> u32
        requires inside { pair + 1 < length self.old.levels.rows }
        requires turned { IsTurnedTo pair self.old }
        requires few { length values.now ≤ SEARCH_ROWS_MOST }
        requires few_next { length next_values.now ≤ SEARCH_ROWS_MOST }
        ensures least { let part = with_part self.old.levels pair values.now value in
            result ≡ least_of_levels (with_part part (pair + 1) next_values.now next_value) }
        ensures few { result ≤ SEARCH_ROWS_MOST }
        ensures same { self.new ≡ self.old }
    {
        least_cost_is_that_of_splits();
        least_cost_is_that_of_three();
        least_cost_is_the_least();
        write_levels(&mut self.first, values, value);
        write_levels(&mut self.next, next_values, next_value);
        if self.rows.len() == 2 {
            return least_joint(
                self.first.as_slice(),
                self.next.as_slice(),
                self.tau as usize + 1,
            );
        }
        least_of_three(
            self.first.as_slice(),
            self.next.as_slice(),
            self.others.as_slice(),
            self.sums.as_mut_slice(),
        )
    }
}

// Writes the levels of a part into its row, as long as that is.
fn write_levels(row: &mut Vec<u32>, values: &[u16], value: u16)
    requires { length values.now ≤ SEARCH_ROWS_MOST }
    ensures levels { row.new.items ≡ levels_of values.now value (length row.old.items) }
    ensures long { length row.new.items ≡ length row.old.items }
{
    levels(values, value, row.as_mut_slice());
}

// A row of no counts.
fn zeros(alloc: Global, tau: u32) -> Result<Vec<u32>, NoMemory>
    requires { tau ≤ SAMPLE_RADIUS_MOST }
    ensures { IfOk result (λ row. row.items ≡ replicate (tau + 2) 0) }
{
    let Ok(row) = vec![in alloc; 0u32; tau as usize + 2] else {
        return Err(NoMemory);
    };
    Ok(row)
}
