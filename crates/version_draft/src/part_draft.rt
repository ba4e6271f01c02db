//! The lists of one part of a version that is made, with the counts of all its rows.

ghost use Rattle.std.specs.Prelude.{◌≡◌, ◌+◌, ◌*◌, ◌<◌, ◌≤◌, length, IfOk};
ghost use Rattle.std.specs.List.Sorted.{IsStrictlySortedBy};
ghost use Rattle.std.specs.Map.{keys_of};
ghost use Rattle.std.specs.Ordering.{nat_cmp};
ghost use Rattle.hamming_model.specs.declared.limits.TheConstants.{ENTRIES_MOST, WORDS_MOST};
ghost use Rattle.part_layout.specs.Laid.{part_at};
ghost use Rattle.shard_version.specs.Tables.{AreStored};
ghost use Rattle.version_draft.specs.PartDrafts.{IsPartDraft, tables_of};

use count_table::{Counts, changes_follow_a_list, counts_are_those_of_a_list};
use gph_codes::Code;
use part_layout::Layout;
use posting_table::Lists;
use read_meter::NoMemory;
use shard_version::PartTable;
use std::alloc::Global;

// The lists of one part, in room that was taken, and how many rows each value has in all.
#[derive(Drop)]
pub struct PartDraft<const W: usize> {
    pub lists: Lists<W>,
    pub counts: Counts,
}

impl<const W: usize> PartDraft<W> {
    // Counts the rows' values at a part, and takes room for them.
    pub fn begin(
        alloc: Global,
        layout: &Layout,
        part: u32,
        rows: &[(u64, Code<W>)],
    ) -> Result<PartDraft<W>, NoMemory>
        requires part { part < length layout.now.parts }
        requires room { layout.now.bits ≤ 64 * W }
        requires codes { AreStored W layout.now.bits rows.now }
        requires few { length rows.now ≤ ENTRIES_MOST }
        ensures { IfOk result (λ draft.
            IsPartDraft layout.now.bits (part_at layout.now part) rows.now 0 draft) }
    {
        changes_follow_a_list();
        counts_are_those_of_a_list();
        let width = layout.width(part);
        let mut counts = Counts::new(alloc, width)?;
        for row in 0..rows.len() {
            counts.add(layout.value(&rows[row].1, part))?;
        }
        let lists = Lists::reserve(alloc, width, counts.copies())?;
        Ok(PartDraft { lists, counts })
    }

    // Places the next row in the list of its value.
    pub fn place(&mut self, layout: &Layout, part: u32, rows: &[(u64, Code<W>)], next: usize)
        requires part { part < length layout.now.parts }
        requires room { layout.now.bits ≤ 64 * W }
        requires codes { AreStored W layout.now.bits rows.now }
        requires few_words { W ≤ WORDS_MOST }
        requires ascending { IsStrictlySortedBy nat_cmp (keys_of rows.now) }
        requires next { next < length rows.now }
        requires draft { IsPartDraft layout.now.bits (part_at layout.now part) rows.now next
            self.old }
        ensures { IsPartDraft layout.now.bits (part_at layout.now part) rows.now (next + 1)
            self.new }
    {
        let value = layout.value(&rows[next].1, part);
        self.lists.place(value, rows[next].0, rows[next].1);
    }

    // The tables of the part, as far as rows are placed.
    pub fn tables(&self) -> Result<PartTable<W>, NoMemory>
        requires { W ≤ WORDS_MOST }
        ensures { IfOk result (λ table. table ≡ tables_of self.now) }
    {
        let postings = self.lists.postings()?;
        let counts = self.counts.copy()?;
        Ok(PartTable { postings, counts })
    }
}
