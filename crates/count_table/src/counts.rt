ghost use Rattle.std.specs.Prelude.{◌≡◌, ℕ, ◌+◌, ◌^◌, ◌<◌, ◌≤◌, true, is_ok, IfOk, negsuc, ◌≤ℤ◌, replicate, length, sum};
ghost use Rattle.ball_walk.specs.Balls.{radius_units};
ghost use Rattle.hamming_model.specs.declared.limits.TheConstants.{ENTRIES_MOST, PART_WIDTH_MOST};
ghost use Rattle.count_table.specs.Copies.{empty_table, copies_at, total_of, with_one, without_one, count_near, AreLevels};

use crate::levels::{count_rings, count_within};
use ball_walk::{Flips, distances_within};
use read_meter::NoMemory;
use std::alloc::Global;
use std::marker::Model;
use std::sync::Arc;

/// How many copies of each value of one part there are, in all at most as many as a history has entries.
///
/// From such counts the threshold allocation of GPH (ICDE 2018) learns what a radius costs.
#[derive(Drop)]
pub struct Counts {
    width: u32,
    total: u32,
    // the copies of each value, by value
    copies: Vec<u32>,
    // which values are at each distance from one: of all copies of a table the same
    flips: Arc<Flips>,
}

impl Model for Counts {
    ghost use Rattle.std.specs.Arc.{arc_value};
    ghost use Rattle.count_table.specs.Copies.{CopyTable};
    ghost use Rattle.count_table.specs.Kept.{IsCountTable};

    ghost Value = { CopyTable };

    ghost view = { λ c. record { width = c.width; copies = c.copies.items } };

    ghost invariant = { λ c. IsCountTable c.width c.total (arc_value c.flips) c.copies.items };
}

impl Counts {
    /// No copies of any value of `width` binary digits.
    ///
    /// # Errors
    ///
    /// `NoMemory` where there is no memory for twice `2^width` numbers.
    pub fn new(alloc: Global, width: u32) -> Result<Counts, NoMemory>
        requires some_width { 0 < width }
        requires small_width { width ≤ PART_WIDTH_MOST }
        ensures empty { IfOk result (λ counts. counts ≡ empty_table width) }
        ensures width { IfOk result (λ counts. counts.width ≡ width) }
    {
        let copies = no_copies(alloc, width)?;
        let flips = Flips::new(alloc, width)?;
        let shared = Arc::new(alloc, flips)?;
        Ok(Counts {
            width,
            total: 0,
            copies,
            flips: shared,
        })
    }

    /// An equal table of its own.
    ///
    /// # Errors
    ///
    /// `NoMemory` where there is no memory for it.
    pub fn copy(&self) -> Result<Counts, NoMemory>
        ensures { IfOk result (λ counts. counts ≡ self.now) }
    {
        let copies = self.copies.clone()?;
        let flips = self.flips.clone()?;
        Ok(Counts {
            width: self.width,
            total: self.total,
            copies,
            flips,
        })
    }

    /// Adds a copy of a value, where there is room for one more.
    ///
    /// # Errors
    ///
    /// None: a change takes no memory. `NoMemory` is for tables that take some.
    pub fn add(&mut self, value: u16) -> Result<(), NoMemory>
        requires in_width { value < 2 ^ self.old.width }
        requires room { total_of self.old < ENTRIES_MOST }
        ensures added { self.new ≡ with_one self.old value }
        ensures no_refusal { is_ok result ≡ true }
    {
        let at = usize::from(value);
        self.copies[at] += 1;
        self.total += 1;
        Ok(())
    }

    /// Removes a copy of a value that has one.
    ///
    /// # Errors
    ///
    /// None, as for `add`.
    pub fn remove(&mut self, value: u16) -> Result<(), NoMemory>
        requires { 0 < copies_at self.old value }
        ensures removed { self.new ≡ without_one self.old value }
        ensures no_refusal { is_ok result ≡ true }
    {
        let at = usize::from(value);
        self.copies[at] -= 1;
        self.total -= 1;
        Ok(())
    }

    /// How many copies each value has, by value.
    pub fn copies(&self) -> &[u32]
        ensures copies { result.now ≡ self.now.copies }
        ensures number { length result.now ≡ 2 ^ self.now.width }
        ensures few { sum result.now ≤ ENTRIES_MOST }
    {
        self.copies.as_slice()
    }

    /// How many copies there are.
    pub fn total(&self) -> u32
        ensures total { result ≡ total_of self.now }
        ensures few { result ≤ ENTRIES_MOST }
    {
        self.total
    }

    /// How many copies there are of values at most `radius` from `value`: of the radius -1 none. It reads
    /// one number for each value of the ball, and takes no memory.
    pub fn within(&self, value: u16, radius: i32) -> u32
        requires in_width { value < 2 ^ self.now.width }
        requires radius { negsuc 0 ≤ℤ radius }
        ensures { result ≡ count_near self.now value (radius_units radius) }
    {
        let units = distances_within(self.width, radius);
        count_within(&self.copies, &self.flips, value, units as usize)
    }

    /// Writes to each place of `out` how many copies there are of values nearer to `value` than that many
    /// units: to place 0 those within the radius -1, to place 1 within 0, and so on. It reads one number for
    /// each value that is counted at a place, and takes no memory.
    pub fn levels(&self, value: u16, out: &mut [u32])
        requires in_width { value < 2 ^ self.now.width }
        ensures { AreLevels self.now value out.new }
    {
        count_rings(&self.copies, &self.flips, value, out);
    }

    /// Which values of the width are at each distance from one.
    pub fn flips(&self) -> &Flips
        ensures { result.now ≡ self.now.width }
    {
        &self.flips
    }
}

// A zero for each value of this width.
fn no_copies(alloc: Global, width: u32) -> Result<Vec<u32>, NoMemory>
    requires { width ≤ PART_WIDTH_MOST }
    ensures { IfOk result (λ copies. copies.items ≡ replicate (2 ^ width) 0) }
{
    let bound = bound_of(width);
    let mut copies = Vec::with_capacity(alloc, bound)?;
    for _i in 0..bound {
        copies.push(0)?;
    }
    Ok(copies)
}

// How many values of this width there are.
fn bound_of(width: u32) -> usize
    requires { width ≤ PART_WIDTH_MOST }
    ensures { result ≡ 2 ^ width }
{
    1 << width
}
