//! The posting lists of one part.

ghost use Rattle.std.specs.Prelude.{◌≡◌, ◌+◌, ◌^◌, ◌<◌, ◌≤◌, true, false, length, take, drop, slice_index_or, IfOk, OnOk, OnErr, Ok};
ghost use Rattle.hamming_model.specs.declared.limits.TheConstants.{ENTRIES_MOST, PART_WIDTH_MOST};
ghost use Rattle.posting_table.specs.KeptLists.{AreKeptLists, reserved_of};
ghost use Rattle.posting_table.specs.Tables.{LosesEntry, no_postings, has_key, posting_list, with_posting, with_list};

use crate::bucket::Bucket;
use crate::changes::{push_in, remove_from};
use gph_codes::Code;
use read_meter::{NoMemory, Steps};
use std::alloc::Global;
use std::marker::Model;
use std::sync::Arc;

/// How many buckets the lists of a part are kept in, where it has that many values: the list of a value is in
/// the bucket of its rest by this number.
pub(crate) const BUCKETS: usize = 256;

/// The posting lists of one part of a layout: for each value of the part the entries (key, code) of the
/// codes that have it there. Seen as a table: the part's width, and the lists by value. The order of a
/// list is free, but for what each call says of it.
#[derive(Drop)]
pub struct Postings<const W: usize> {
    alloc: Global,
    width: u32,
    // tables that are copies of one another have the buckets in common that neither has changed since
    buckets: Vec<Arc<Bucket<W>>>,
}

impl<const W: usize> Model for Postings<W> {
    ghost use Rattle.posting_table.specs.Tables.{Table, table_code};
    ghost use Rattle.posting_table.specs.Kept.{AreBuckets, buckets_of, kept_table};

    ghost Value = { Table };

    ghost coded = { table_code };

    ghost view = { λ kept. kept_table kept.width kept.buckets.items };

    ghost invariant = { λ kept. AreBuckets kept.width (buckets_of kept.buckets.items) };
}

impl<const W: usize> Postings<W> {
    /// Empty lists for the `2 ^ width` values of a part of `width` positions.
    ///
    /// # Errors
    ///
    /// `NoMemory` where there is no memory for that many lists.
    pub fn new(alloc: Global, width: u32) -> Result<Postings<W>, NoMemory>
        requires some { 1 ≤ width }
        requires narrow { width ≤ PART_WIDTH_MOST }
        ensures { IfOk result (λ table. table ≡ no_postings width) }
    {
        let values = 1usize << width;
        let number = values.min(BUCKETS);
        let mut buckets = Vec::with_capacity(alloc, number)?;
        for _i in 0..number {
            let bucket = Bucket::new(alloc, (values + BUCKETS - 1) / BUCKETS)?;
            let shared = Arc::new(alloc, bucket)?;
            buckets.push(shared)?;
        }
        Ok(Postings {
            alloc,
            width,
            buckets,
        })
    }

    // A table of copies of the lists of all values.
    pub(crate) fn of_lists(
        alloc: Global,
        width: u32,
        lists: &[Vec<(u64, Code<W>)>],
    ) -> Result<Postings<W>, NoMemory>
        requires { AreKeptLists width lists.now }
        ensures { IfOk result (λ table. table ≡ (reserved_of width lists.now).table) }
    {
        let number = lists.len().min(BUCKETS);
        let mut buckets = Vec::with_capacity(alloc, number)?;
        for rest in 0..number {
            let bucket = Bucket::of_rest(
                alloc,
                lists,
                rest,
                (lists.len() + BUCKETS - 1) / BUCKETS,
            )?;
            let shared = Arc::new(alloc, bucket)?;
            buckets.push(shared)?;
        }
        Ok(Postings {
            alloc,
            width,
            buckets,
        })
    }

    /// An equal table of its own: a change of either is none of the other. Takes time and memory for each
    /// bucket and not for each entry.
    ///
    /// # Errors
    ///
    /// `NoMemory` where there is no memory for the buckets.
    pub fn copy(&self) -> Result<Postings<W>, NoMemory>
        ensures { IfOk result (λ copy. copy ≡ self.now) }
    {
        let mut copies = Vec::with_capacity(self.alloc, self.buckets.len())?;
        for bucket in &self.buckets {
            let shared = bucket.clone()?;
            copies.push(shared)?;
        }
        Ok(Postings {
            alloc: self.alloc,
            width: self.width,
            buckets: copies,
        })
    }

    /// Adds an entry at the end of the list of a value.
    ///
    /// # Errors
    ///
    /// `NoMemory` where there is no memory for one more entry; the table is unchanged then.
    pub fn insert(&mut self, value: u16, key: u64, code: Code<W>) -> Result<(), NoMemory>
        requires in_width { value < 2 ^ self.old.width }
        requires absent { has_key (posting_list self.old value) key ≡ false }
        requires room { length (posting_list self.old value) < ENTRIES_MOST }
        ensures added { OnOk result (self.new ≡ with_posting self.old value (key, code.entry)) }
        ensures unchanged { OnErr result (self.new ≡ self.old) }
    {
        let bucket = &mut self.buckets[value as usize % BUCKETS];
        push_in(bucket, value as usize / BUCKETS, key, code)
    }

    /// Removes the entry of a key from the list of a value, where it has one, and tells whether it had.
    /// Looks at the entries of that list one by one.
    ///
    /// # Errors
    ///
    /// `NoMemory` where there is no memory to change the list; the table is unchanged then.
    pub fn remove(&mut self, value: u16, key: u64) -> Result<bool, NoMemory>
        requires { value < 2 ^ self.old.width }
        ensures found { IfOk result (λ found. found ≡ has_key (posting_list self.old value) key) }
        ensures removed { result ≡ Ok true → LosesEntry self.old self.new value key }
        ensures others { self.new ≡ with_list self.old value (posting_list self.new value) }
        ensures absent { result ≡ Ok false → self.new ≡ self.old }
        ensures unchanged { OnErr result (self.new ≡ self.old) }
    {
        let (bucket, at) = (value as usize % BUCKETS, value as usize / BUCKETS);
        let Some(place) = self.buckets[bucket].place_of(at, key) else {
            return Ok(false);
        };
        let Ok(()) = remove_from(&mut self.buckets[bucket], at, place) else {
            return Err(NoMemory);
        };
        Ok(true)
    }

    /// How many entries the list of a value has.
    pub fn len(&self, value: u16) -> u32
        requires { value < 2 ^ self.now.width }
        ensures number { result ≡ length (posting_list self.now value) }
        ensures bound { result ≤ ENTRIES_MOST }
    {
        self.buckets[value as usize % BUCKETS].len(value as usize / BUCKETS) as u32
    }

    /// The entry at a place in the list of a value, for one step.
    pub fn entry<L>(&self, value: u16, place: u32, steps: &mut Steps<L>) -> (u64, Code<W>)
        requires in_width { value < 2 ^ self.now.width }
        requires in_list { place < length (posting_list self.now value) }
        ensures entry { result ≡ slice_index_or (posting_list self.now value) place result }
        ensures step { steps.new ≡ steps.old + 1 }
    {
        self.block(value, place, 1, steps)[0]
    }

    /// So many entries of the list of a value, from a place on, for one step each.
    pub fn block<L>(
        &self,
        value: u16,
        from: u32,
        count: u32,
        steps: &mut Steps<L>,
    ) -> &[(u64, Code<W>)]
        requires in_width { value < 2 ^ self.now.width }
        requires in_list { from + count ≤ length (posting_list self.now value) }
        ensures entries { result.now ≡ take count (drop from (posting_list self.now value)) }
        ensures steps { steps.new ≡ steps.old + count }
    {
        for _entry in 0..count {
            steps.tick();
        }
        &self.entries(value)[from as usize..from as usize + count as usize]
    }

    // The entries of a value.
    fn entries(&self, value: u16) -> &[(u64, Code<W>)]
        requires { value < 2 ^ self.now.width }
        ensures entries { result.now ≡ posting_list self.now value }
        ensures short { length result.now ≤ ENTRIES_MOST }
    {
        self.buckets[value as usize % BUCKETS].list(value as usize / BUCKETS)
    }
}
