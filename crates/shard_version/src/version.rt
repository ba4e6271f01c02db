//! The tables of one shard after the first entries of a history.

ghost use Rattle.std.specs.Prelude.{◌≡◌, ℕ, ◌+◌, ◌*◌, ◌%◌, ◌^◌, ◌==◌, ◌<◌, ◌≤◌, length, min, take, true, None, is_some, IfOk, OnErr, OnOk};
ghost use Rattle.std.specs.Arc.{arc_value};
ghost use Rattle.hamming_model.specs.declared.limits.TheConstants.{ENTRIES_MOST, SHARDS_MOST, WORDS_MOST};
ghost use Rattle.hamming_model.specs.Codes.{StandsFor};
ghost use Rattle.hamming_model.specs.History.{code_at};
ghost use Rattle.entry_log.specs.Entries.{entry_of};
ghost use Rattle.entry_log.specs.Meaning.{MeansEntry};
ghost use Rattle.gph_codes.specs.Masks.{mask_of};
ghost use Rattle.part_layout.specs.Laid.{IsLaid, part_at};
ghost use Rattle.shard_version.specs.Contents.{IsVersion, FitsShard, HasRoomFor, after_entry, empty_of};
ghost use Rattle.shard_version.specs.Kept.{next_with, with_added, with_deleted};
ghost use Rattle.shard_version.specs.Relaid.{ArePartTables, in_layout};
ghost use Rattle.shard_version.specs.Tables.{AreFirst, ArePostings, AreStored, HasTables, counts_of, table_at};

use crate::keyed_rows::KeyedRows;
use crate::masked_layout::MaskedLayout;
use crate::part_table::PartTable;
use crate::tables::{copies, empty_tables, insert_in_each, remove_from_each};
use count_table::{Counts, changes_follow_a_list, counts_are_those_of_a_list};
use entry_log::{Entry, Op};
use gph_codes::Code;
use part_layout::Layout;
use posting_table::Postings;
use read_meter::{NoMemory, Steps};
use std::alloc::Global;
use std::marker::Model;
use std::sync::Arc;

/// The rows of one shard after the first entries of a history, with a posting table and counts for each
/// part of a layout. A change of a copy isn't seen in the version that it was copied from.
#[derive(Drop)]
pub struct Version<const W: usize> {
    shard: u32,
    shards: u32,
    at: u64,
    layout: Arc<MaskedLayout<W>>,
    alloc: Global,
    rows: KeyedRows<W>,
    // one for each part of the layout
    tables: Vec<PartTable<W>>,
}

impl<const W: usize> Model for Version<W> {
    ghost use Rattle.std.specs.Arc.{arc_value};
    ghost use Rattle.shard_version.specs.Tables.{Tabled, tabled_code};
    ghost use Rattle.shard_version.specs.Kept.{AgreesWithRows, contents_of, tabled_of};

    ghost Value = { Tabled };

    ghost coded = { tabled_code };

    ghost view = { λ kept. tabled_of (contents_of kept.shard kept.shards kept.at (arc_value kept.layout) kept.rows) kept.tables.items };

    ghost invariant = { λ kept. AgreesWithRows {W = W} (contents_of kept.shard kept.shards kept.at (arc_value kept.layout) kept.rows) kept.rows kept.tables.items };
}

impl<const W: usize> Version<W> {
    /// No rows, before the first entry.
    ///
    /// # Errors
    ///
    /// `NoMemory` where there is no memory for the tables and the mask of each part.
    pub fn empty(
        alloc: Global,
        shard: u32,
        shards: u32,
        layout: Arc<Layout>,
    ) -> Result<Version<W>, NoMemory>
        requires few_words { W ≤ WORDS_MOST }
        requires room { (arc_value layout).bits ≤ 64 * W }
        requires own_shard { shard < shards }
        requires few_shards { shards ≤ SHARDS_MOST }
        ensures { IfOk result (λ version.
            version.contents ≡ empty_of shard shards (arc_value layout)) }
    {
        changes_follow_a_list();
        let parts = layout.parts();
        let tables = empty_tables(alloc, &layout, parts)?;
        let rows = KeyedRows::new(alloc)?;
        let masked = MaskedLayout::shared(alloc, layout)?;
        Ok(Version {
            shard,
            shards,
            at: 0,
            layout: masked,
            alloc,
            rows,
            tables,
        })
    }

    /// An equal version of its own: a change of either is none of the other. Takes time and memory for each
    /// bucket of rows and of posting lists, and not for each row.
    ///
    /// # Errors
    ///
    /// `NoMemory` where there is no memory for the copy.
    pub fn copy(&self) -> Result<Version<W>, NoMemory>
        ensures { IfOk result (λ version. version ≡ self.now) }
    {
        let tables = copies(self.alloc, &self.tables)?;
        let rows = self.rows.copy()?;
        let layout = self.layout.clone()?;
        Ok(Version {
            shard: self.shard,
            shards: self.shards,
            at: self.at,
            layout,
            alloc: self.alloc,
            rows,
            tables,
        })
    }

    /// A version of the same rows and position in another layout of the same bits, with these tables of its parts. It has
    /// the rows in common with this one.
    ///
    /// # Errors
    ///
    /// `NoMemory` where there is no memory to share the rows, or for the mask of each part.
    pub fn in_layout(
        &self,
        layout: Arc<Layout>,
        tables: Vec<PartTable<W>>,
    ) -> Result<Version<W>, NoMemory>
        requires laid { IsLaid (arc_value layout) }
        requires bits { (arc_value layout).bits ≡ self.now.contents.layout.bits }
        requires tables { ArePartTables (in_layout self.now.contents (arc_value layout))
            tables.items }
        ensures { IfOk result (λ version.
            version.contents ≡ in_layout self.now.contents (arc_value layout)) }
    {
        let same_rows = self.rows.copy()?;
        let masked = MaskedLayout::shared(self.alloc, layout)?;
        Ok(Version {
            shard: self.shard,
            shards: self.shards,
            at: self.at,
            layout: masked,
            alloc: self.alloc,
            rows: same_rows,
            tables,
        })
    }

    /// The version after one more entry: an entry of another shard changes no row. A refusal drops the
    /// version.
    ///
    /// # Errors
    ///
    /// `NoMemory` where there is no memory for one row more.
    pub fn apply(self, entry: &Entry<W>) -> Result<Version<W>, NoMemory>
        requires few_words { W ≤ WORDS_MOST }
        requires counted { self.contents.at + 1 < 2 ^ 64 }
        requires means { MeansEntry self.contents.layout.bits entry.now
            (entry_of self.contents.layout.bits entry.now) }
        requires fits { FitsShard self.contents
            (entry_of self.contents.layout.bits entry.now).operation }
        requires room { HasRoomFor self.contents
            (entry_of self.contents.layout.bits entry.now).operation }
        ensures { IfOk result (λ version. version.contents ≡ after_entry self.entry.contents
            (entry_of self.entry.contents.layout.bits entry.now)) }
    {
        match entry.op {
            Op::Add { key, code } if self.owns(key) => self.with_row(key, code),
            Op::Delete { key } if self.owns(key) => self.without_row(key),
            _ => Ok(self.passed()),
        }
    }

    // Whether a key is of this shard.
    fn owns(&self, key: u64) -> bool
        ensures { result ≡ (key % self.now.contents.shards == self.now.contents.shard) }
    {
        key % u64::from(self.shards) == u64::from(self.shard)
    }

    // The version after an entry that changes no row.
    fn passed(mut self) -> Version<W>
        requires { self.contents.at + 1 < 2 ^ 64 }
        ensures { result.contents ≡ next_with self.entry.contents self.entry.contents.rows }
    {
        self.at += 1;
        self
    }

    // The version after an entry that adds a row.
    fn with_row(mut self, key: u64, code: Code<W>) -> Result<Version<W>, NoMemory>
        requires counted { self.contents.at + 1 < 2 ^ 64 }
        requires room { length self.contents.rows < ENTRIES_MOST }
        requires own { key % self.contents.shards ≡ self.contents.shard }
        requires code { StandsFor W self.contents.layout.bits code
            (take self.contents.layout.bits code) }
        requires absent { code_at self.contents.rows key ≡ None }
        ensures { IfOk result (λ version.
            version.contents ≡ with_added self.entry.contents key code.entry) }
    {
        changes_follow_a_list();
        counts_are_those_of_a_list();
        insert_in_each(&mut self.tables, self.layout.layout(), key, code)?;
        self.rows.insert(key, code)?;
        self.at += 1;
        Ok(self)
    }

    // The version after an entry that deletes a row.
    fn without_row(mut self, key: u64) -> Result<Version<W>, NoMemory>
        requires counted { self.contents.at + 1 < 2 ^ 64 }
        requires present { is_some (code_at self.contents.rows key) ≡ true }
        ensures { IfOk result (λ version. version.contents ≡ with_deleted self.entry.contents key) }
    {
        changes_follow_a_list();
        let code = self.rows.remove(key)?;
        remove_from_each(&mut self.tables, self.layout.layout(), key, &code)?;
        self.at += 1;
        Ok(self)
    }

    /// The shard whose rows these are.
    pub fn shard(&self) -> u32
        ensures { result ≡ self.now.contents.shard }
    {
        self.shard
    }

    /// The number of shards.
    pub fn shards(&self) -> u32
        ensures { result ≡ self.now.contents.shards }
    {
        self.shards
    }

    /// How many entries of the history were taken in.
    pub fn at(&self) -> u64
        ensures at { result ≡ self.now.contents.at }
        ensures version { IsVersion self.now.contents }
    {
        self.at
    }

    /// How many rows there are.
    pub fn rows(&self) -> u64
        ensures number { result ≡ length self.now.contents.rows }
        ensures version { IsVersion self.now.contents }
    {
        self.rows.len() as u64
    }

    /// Whether a key has a row.
    pub fn has_key(&self, key: u64) -> bool
        ensures { result ≡ is_some (code_at self.now.contents.rows key) }
    {
        self.rows.has_key(key)
    }

    /// The layout.
    pub fn layout(&self) -> &Arc<Layout>
        ensures layout { arc_value result.now ≡ self.now.contents.layout }
        ensures version { IsVersion self.now.contents }
        ensures tables { HasTables W self.now }
    {
        self.layout.layout()
    }

    /// The code with ones at the positions of a part. It is made with the layout, and copies have it in common.
    pub fn mask(&self, part: u32) -> &Code<W>
        requires { part < length self.now.contents.layout.parts }
        ensures { result.now ≡ mask_of (64 * W) (part_at self.now.contents.layout part) }
    {
        self.layout.mask(part)
    }

    /// The posting lists of a part: each row once, in the list of its code's value at the part.
    pub fn postings(&self, part: u32) -> &Postings<W>
        requires { part < length self.now.contents.layout.parts }
        ensures table { result.now ≡ table_at self.now part }
        ensures postings { ArePostings W self.now.contents part result.now }
    {
        &self.tables[part as usize].postings
    }

    /// How many rows have each value of a part.
    pub fn counts(&self, part: u32) -> &Counts
        requires { part < length self.now.contents.layout.parts }
        ensures { result.now ≡ counts_of self.now.contents part }
    {
        &self.tables[part as usize].counts
    }

    /// The rows of least key, so many, or all where there are fewer, in the order of their keys. Adds
    /// one step for each.
    ///
    /// # Errors
    ///
    /// `NoMemory` where there is no memory for that many; no row is read then.
    pub fn first_rows<M>(
        &self,
        n: u32,
        steps: &mut Steps<M>,
    ) -> Result<Vec<(u64, Code<W>)>, NoMemory>
        ensures rows { IfOk result (λ rows. AreFirst n self.now.contents rows.items) }
        ensures codes { IfOk result (λ rows. AreStored W self.now.contents.layout.bits rows.items) }
        ensures steps { OnOk result
            (steps.new ≡ steps.old + min n (length self.now.contents.rows)) }
        ensures unread { OnErr result (steps.new ≡ steps.old) }
    {
        self.rows.first(n, steps)
    }
}
