//! The tables of one part.

ghost use Rattle.std.specs.Prelude.{◌≡◌, ◌≤◌, IfOk, OnOk};
ghost use Rattle.hamming_model.specs.declared.limits.TheConstants.{PART_WIDTH_MOST};
ghost use Rattle.shard_version.specs.KeptParts.{HasRow, LosesRow, TakesRow, no_rows, with_row};

use count_table::Counts;
use gph_codes::Code;
use posting_table::Postings;
use read_meter::NoMemory;
use std::alloc::Global;

/// The posting lists of one part, and how many entries each of them has.
#[derive(Drop)]
pub struct PartTable<const W: usize> {
    pub postings: Postings<W>,
    pub counts: Counts,
}

impl<const W: usize> PartTable<W> {
    // The tables of no rows.
    pub(crate) fn empty(alloc: Global, width: u32) -> Result<PartTable<W>, NoMemory>
        requires some { 1 ≤ width }
        requires narrow { width ≤ PART_WIDTH_MOST }
        ensures { IfOk result (λ table. table ≡ no_rows width) }
    {
        let postings = Postings::new(alloc, width)?;
        let counts = Counts::new(alloc, width)?;
        Ok(PartTable { postings, counts })
    }

    // Equal tables of their own.
    pub(crate) fn copy(&self) -> Result<PartTable<W>, NoMemory>
        ensures { IfOk result (λ copy. copy ≡ self.now) }
    {
        let postings = self.postings.copy()?;
        let counts = self.counts.copy()?;
        Ok(PartTable { postings, counts })
    }

    // Adds a row with a value.
    pub(crate) fn insert(&mut self, value: u16, key: u64, code: Code<W>) -> Result<(), NoMemory>
        requires { TakesRow self.old value key }
        ensures { OnOk result (self.new ≡ with_row self.old value (key, code.entry)) }
    {
        self.postings.insert(value, key, code)?;
        self.counts.add(value)?;
        Ok(())
    }

    // Takes out the row of a key with a value.
    pub(crate) fn remove(&mut self, value: u16, key: u64) -> Result<(), NoMemory>
        requires { HasRow self.old value key }
        ensures { OnOk result (LosesRow self.old self.new value key) }
    {
        let _found = self.postings.remove(value, key)?;
        self.counts.remove(value)?;
        Ok(())
    }
}
