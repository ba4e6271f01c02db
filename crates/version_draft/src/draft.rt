//! A version that is made row by row.

ghost use Rattle.std.specs.Prelude.{◌≡◌, ℕ, ◌+◌, ◌≤◌, length, min, IfErr, IfOk, OnOk};
ghost use Rattle.std.specs.Arc.{arc_value};
ghost use Rattle.hamming_model.specs.declared.limits.TheConstants.{WORDS_MOST};
ghost use Rattle.part_layout.specs.Laid.{IsLaid};
ghost use Rattle.shard_version.specs.Contents.{IsVersion};
ghost use Rattle.version_draft.specs.Unfinished.{begun, with_placed};

use crate::part_draft::PartDraft;
use crate::parts::{begin_each, place_in_each, tables_of_each};
use gph_codes::Code;
use hamming_model::ENTRIES_MOST;
use part_layout::Layout;
use posting_table::NoMemoryFor;
use read_meter::{NoMemory, Steps};
use shard_version::Version;
use std::alloc::Global;
use std::marker::Model;
use std::sync::Arc;

/// A version of a shard in another layout, some of whose rows are placed. Seen as the contents of the version that it becomes, and
/// how many rows are left.
#[derive(Drop)]
pub struct Draft<const W: usize> {
    alloc: Global,
    // the version in its old layout, which has its rows in common with the one that is made
    version: Version<W>,
    layout: Arc<Layout>,
    // the rows by key, to be placed in this order
    rows: Vec<(u64, Code<W>)>,
    parts: Vec<PartDraft<W>>,
    // how many rows are placed
    next: usize,
}

impl<const W: usize> Model for Draft<W> {
    ghost use Rattle.std.specs.Arc.{arc_value};
    ghost use Rattle.version_draft.specs.Unfinished.{Unfinished, unfinished_code};
    ghost use Rattle.version_draft.specs.KeptDrafts.{IsDraft, unfinished_of};

    ghost Value = { Unfinished };

    ghost coded = { unfinished_code };

    ghost view = { λ kept. unfinished_of kept.version.contents (arc_value kept.layout) kept.rows.items kept.next };

    ghost invariant = { λ kept. IsDraft {W = W} kept.version.contents (arc_value kept.layout) kept.rows.items kept.parts.items kept.next };
}

impl<const W: usize> Draft<W> {
    /// Copies the rows of a version, for one step each, counts their values at each part of another layout of the same bits, and takes
    /// room for all of them.
    ///
    /// # Errors
    ///
    /// `NoMemory` where there is no memory for that.
    pub fn begin<M>(
        alloc: Global,
        version: &Version<W>,
        layout: Arc<Layout>,
        steps: &mut Steps<M>,
    ) -> Result<Draft<W>, NoMemory>
        requires few_words { W ≤ WORDS_MOST }
        requires laid { IsLaid (arc_value layout) }
        requires bits { (arc_value layout).bits ≡ version.now.contents.layout.bits }
        ensures draft { IfOk result (λ draft.
            draft ≡ begun version.now.contents (arc_value layout)) }
        ensures steps { OnOk result (steps.new ≡ steps.old + length version.now.contents.rows) }
        ensures bound { steps.new ≤ steps.old + length version.now.contents.rows }
    {
        let _room = version.layout();
        let rows = version.first_rows(ENTRIES_MOST as u32, steps)?;
        let parts = begin_each(alloc, &layout, rows.as_slice())?;
        let version = version.copy()?;
        Ok(Draft {
            alloc,
            version,
            layout,
            rows,
            parts,
            next: 0,
        })
    }

    /// How many rows are left to place.
    pub fn left(&self) -> u64
        ensures { result ≡ self.now.left }
    {
        (self.rows.len() - self.next) as u64
    }

    /// How many entries of the history the version has taken in.
    pub fn at(&self) -> u64
        ensures at { result ≡ self.now.contents.at }
        ensures version { IsVersion self.now.contents }
    {
        self.version.at()
    }

    /// Places the next rows, so many or all that are left, for one step each. Takes no memory.
    pub fn place<M>(&mut self, n: u32, steps: &mut Steps<M>)
        ensures placed { self.new ≡ with_placed self.old n }
        ensures steps { steps.new ≡ steps.old + min n self.old.left }
    {
        let number = (self.rows.len() - self.next).min(n as usize);
        for _k in 0..number {
            steps.tick();
            self.place_one();
        }
    }

    // Places the next row in each part.
    fn place_one(&mut self)
        requires { 1 ≤ self.old.left }
        ensures { self.new ≡ with_placed self.old 1 }
    {
        place_in_each(
            &mut self.parts,
            &self.layout,
            self.rows.as_slice(),
            self.next,
        );
        self.next += 1;
    }

    /// The version, once all rows are placed. Takes time and memory for each row and part, and leaves the draft as it is.
    ///
    /// # Errors
    ///
    /// `NoMemory` where there is no memory for the version.
    pub fn version(&self) -> Result<Version<W>, NoMemory>
        requires { self.now.left ≡ 0 }
        ensures { IfOk result (λ version. version.contents ≡ self.now.contents) }
    {
        let tables = tables_of_each(self.alloc, self.parts.as_slice())?;
        let layout = self.layout.clone()?;
        self.version.in_layout(layout, tables)
    }

    /// The version that the draft has become, once all rows are placed.
    ///
    /// # Errors
    ///
    /// `NoMemoryFor` the draft, as it was.
    pub fn finish(self) -> Result<Version<W>, NoMemoryFor<Draft<W>>>
        requires { self.left ≡ 0 }
        ensures version { IfOk result (λ version. version.contents ≡ self.entry.contents) }
        ensures back { IfErr result (λ failed. failed.value ≡ self.entry) }
    {
        let Ok(version) = self.version() else {
            return Err(NoMemoryFor { value: self });
        };
        Ok(version)
    }
}
