//! The rows of a version by key, in buckets that its copies share.

ghost use Rattle.std.specs.Prelude.{◌≡◌, ℕ, ◌+◌, ◌^◌, ◌<◌, ◌≤◌, [], Some, None, is_some, length, min, take, true, replicate, IfOk, OnOk, OnErr};
ghost use Rattle.std.specs.Arc.{arc_value};
ghost use Rattle.std.specs.BTreeMap.{insert_entry, is_at};
ghost use Rattle.std.specs.List.Sorted.{IsStrictlySortedBy};
ghost use Rattle.std.specs.Map.{keys_of, remove_entry};
ghost use Rattle.std.specs.Ordering.{nat_cmp};
ghost use Rattle.hamming_model.specs.declared.limits.TheConstants.{ENTRIES_MOST, WORDS_MOST};
ghost use Rattle.hamming_model.specs.History.{code_at};
ghost use Rattle.shard_version.specs.KeptRows.{AreNone, IsLeastHead, row_buckets_of};

use crate::row_bucket::RowBucket;
use gph_codes::Code;
use read_meter::{NoMemory, Steps};
use std::alloc::Global;
use std::marker::Model;
use std::sync::Arc;

// How many buckets there are: a row is in the one of its key's rest by this number.
pub(crate) const ROW_BUCKETS: usize = 256;

// Rows (key, code), seen as the list that ascends by key.
#[derive(Drop)]
pub(crate) struct KeyedRows<const W: usize> {
    alloc: Global,
    number: usize,
    // rows that are copies of one another have the buckets in common that neither has changed since
    buckets: Vec<Arc<RowBucket<W>>>,
}

impl<const W: usize> Model for KeyedRows<W> {
    ghost use Rattle.std.specs.Prelude.{ℕ, List};
    ghost use Rattle.shard_version.specs.KeptRows.{AreKeyedRows, row_buckets_of, rows_in};

    ghost Value = { List (ℕ × List ℕ) };

    ghost view = { λ kept. rows_in (row_buckets_of kept.buckets.items) };

    ghost invariant = { λ kept. AreKeyedRows kept.number (row_buckets_of kept.buckets.items) };
}

impl<const W: usize> KeyedRows<W> {
    // No rows.
    pub(crate) fn new(alloc: Global) -> Result<KeyedRows<W>, NoMemory>
        ensures { IfOk result (λ rows. rows ≡ []) }
    {
        let mut buckets = Vec::with_capacity(alloc, ROW_BUCKETS)?;
        for _i in 0..ROW_BUCKETS {
            let bucket = Arc::new(alloc, RowBucket::new(alloc))?;
            buckets.push(bucket)?;
        }
        Ok(KeyedRows {
            alloc,
            number: 0,
            buckets,
        })
    }

    // Equal rows of their own.
    pub(crate) fn copy(&self) -> Result<KeyedRows<W>, NoMemory>
        ensures { IfOk result (λ copy. copy ≡ self.now) }
    {
        let mut copies = Vec::with_capacity(self.alloc, self.buckets.len())?;
        for bucket in &self.buckets {
            let shared = bucket.clone()?;
            copies.push(shared)?;
        }
        Ok(KeyedRows {
            alloc: self.alloc,
            number: self.number,
            buckets: copies,
        })
    }

    // How many rows there are.
    pub(crate) fn len(&self) -> usize
        ensures { result ≡ length self.now }
    {
        self.number
    }

    // Whether a key has a row.
    pub(crate) fn has_key(&self, key: u64) -> bool
        requires { W ≤ WORDS_MOST }
        ensures { result ≡ is_some (code_at self.now key) }
    {
        self.buckets[key as usize % ROW_BUCKETS].has_key(key)
    }

    // Puts in the row of a key that has none.
    pub(crate) fn insert(&mut self, key: u64, code: Code<W>) -> Result<(), NoMemory>
        requires absent { code_at self.old key ≡ None }
        requires room { length self.old < ENTRIES_MOST }
        ensures added { OnOk result (self.new ≡ insert_entry nat_cmp self.old key code.entry) }
    {
        insert_in(&mut self.buckets[key as usize % ROW_BUCKETS], key, code)?;
        self.number += 1;
        Ok(())
    }

    // Takes out the row of a key, and gives its code.
    pub(crate) fn remove(&mut self, key: u64) -> Result<Code<W>, NoMemory>
        requires present { is_some (code_at self.old key) ≡ true }
        ensures code { IfOk result (λ code. code_at self.old key ≡ Some code) }
        ensures removed { OnOk result (self.new ≡ remove_entry (is_at (nat_cmp key)) self.old) }
    {
        let code = remove_from(&mut self.buckets[key as usize % ROW_BUCKETS], key)?;
        self.number -= 1;
        Ok(code)
    }

    // The rows of least key, so many, or all where there are fewer, for one step each.
    pub(crate) fn first<M>(
        &self,
        n: u32,
        steps: &mut Steps<M>,
    ) -> Result<Vec<(u64, Code<W>)>, NoMemory>
        ensures rows { IfOk result (λ first. first.items ≡ take n self.now) }
        ensures steps { OnOk result (steps.new ≡ steps.old + min n (length self.now)) }
        ensures unread { OnErr result (steps.new ≡ steps.old) }
    {
        let number = self.number.min(n as usize);
        let mut first = Vec::with_capacity(self.alloc, number)?;
        let mut heads = no_heads(self.alloc)?;
        for _i in 0..number {
            let next = least_head(&self.buckets, &heads);
            steps.tick();
            let Ok(()) = first.push(self.buckets[next].row(heads[next])) else {
                unreachable!();
            };
            heads[next] += 1;
        }
        Ok(first)
    }
}

// Of each bucket no row is taken.
fn no_heads(alloc: Global) -> Result<Vec<usize>, NoMemory>
    ensures { IfOk result (λ heads. AreNone heads.items) }
{
    let mut heads = Vec::with_capacity(alloc, ROW_BUCKETS)?;
    for _i in 0..ROW_BUCKETS {
        heads.push(0)?;
    }
    Ok(heads)
}

// The bucket whose next row has the least key.
fn least_head<const W: usize>(buckets: &[Arc<RowBucket<W>>], heads: &[usize]) -> usize
    requires buckets { length buckets.now ≡ ROW_BUCKETS }
    requires heads { length heads.now ≡ ROW_BUCKETS }
    ensures { IsLeastHead (row_buckets_of buckets.now) heads.now ROW_BUCKETS result }
{
    let mut best = 0;
    for at in 0..ROW_BUCKETS {
        if buckets[at].key_at(heads[at]) < buckets[best].key_at(heads[best]) {
            best = at;
        }
    }
    best
}

// Puts a row into a bucket: in place where no other version has it, else into a copy that is made first.
fn insert_in<const W: usize>(
    bucket: &mut Arc<RowBucket<W>>,
    key: u64,
    code: Code<W>,
) -> Result<(), NoMemory>
    requires ascending { IsStrictlySortedBy nat_cmp (keys_of (arc_value bucket.old)) }
    requires absent { code_at (arc_value bucket.old) key ≡ None }
    ensures added { OnOk result (arc_value bucket.new
        ≡ insert_entry nat_cmp (arc_value bucket.old) key code.entry) }
    ensures unchanged { OnErr result (arc_value bucket.new ≡ arc_value bucket.old) }
{
    let own = Arc::make_mut(bucket)?;
    own.insert(key, code)
}

// Takes the row of a key out of a bucket, likewise.
fn remove_from<const W: usize>(
    bucket: &mut Arc<RowBucket<W>>,
    key: u64,
) -> Result<Code<W>, NoMemory>
    requires ascending { IsStrictlySortedBy nat_cmp (keys_of (arc_value bucket.old)) }
    requires present { is_some (code_at (arc_value bucket.old) key) ≡ true }
    ensures code { IfOk result (λ code. code_at (arc_value bucket.old) key ≡ Some code) }
    ensures removed { OnOk result (arc_value bucket.new
        ≡ remove_entry (is_at (nat_cmp key)) (arc_value bucket.old)) }
    ensures unchanged { OnErr result (arc_value bucket.new ≡ arc_value bucket.old) }
{
    let own = Arc::make_mut(bucket)?;
    Ok(own.remove(key))
}
