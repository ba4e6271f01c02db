//! The rows whose keys have one rest, which versions may share.

ghost use Rattle.std.specs.Prelude.{◌≡◌, ◌^◌, ◌<◌, ◌≤◌, [], Some, None, is_some, length, true, slice_index_or, IfOk, OnOk, OnErr};
ghost use Rattle.std.specs.BTreeMap.{insert_entry, is_at};
ghost use Rattle.std.specs.List.Sorted.{IsStrictlySortedBy};
ghost use Rattle.std.specs.Map.{keys_of, remove_entry};
ghost use Rattle.std.specs.Ordering.{nat_cmp};
ghost use Rattle.hamming_model.specs.declared.limits.TheConstants.{WORDS_MOST};
ghost use Rattle.hamming_model.specs.History.{code_at};
ghost use Rattle.shard_version.specs.KeptRows.{key_from};

use crate::places::{place_of, stands_at};
use gph_codes::Code;
use read_meter::NoMemory;
use std::alloc::{AllocError, Global};
use std::marker::Model;

// Rows (key, code), ascending by key.
#[derive(Drop)]
pub(crate) struct RowBucket<const W: usize> {
    alloc: Global,
    rows: Vec<(u64, Code<W>)>,
}

impl<const W: usize> Model for RowBucket<W> {
    ghost use Rattle.std.specs.Prelude.{ℕ, List};

    ghost Value = { List (ℕ × List ℕ) };

    ghost view = { λ bucket. bucket.rows.items };
}

impl<const W: usize> RowBucket<W> {
    // No rows.
    pub(crate) fn new(alloc: Global) -> RowBucket<W>
        ensures { result ≡ [] }
    {
        RowBucket {
            alloc,
            rows: Vec::new(alloc),
        }
    }

    // Equal rows of their own.
    fn copy(&self) -> Result<RowBucket<W>, NoMemory>
        ensures { IfOk result (λ copy. copy ≡ self.now) }
    {
        let rows = Vec::from_slice(self.alloc, self.rows.as_slice())?;
        Ok(RowBucket {
            alloc: self.alloc,
            rows,
        })
    }

    // Whether a key has a row.
    pub(crate) fn has_key(&self, key: u64) -> bool
        requires few_words { W ≤ WORDS_MOST }
        requires ascending { IsStrictlySortedBy nat_cmp (keys_of self.now) }
        ensures { result ≡ is_some (code_at self.now key) }
    {
        stands_at(&self.rows, place_of(&self.rows, key), key)
    }

    // The key of the row at a place, or a number above all keys where there is none.
    pub(crate) fn key_at(&self, at: usize) -> u128
        ensures key { result ≡ key_from self.now at }
        ensures small { at < length self.now → result < 2 ^ 64 }
    {
        if at < self.rows.len() {
            u128::from(self.rows[at].0)
        } else {
            1 << 64
        }
    }

    // The row at a place.
    pub(crate) fn row(&self, at: usize) -> (u64, Code<W>)
        requires { at < length self.now }
        ensures { result ≡ slice_index_or self.now at result }
    {
        self.rows[at]
    }

    // Puts in the row of a key that has none.
    pub(crate) fn insert(&mut self, key: u64, code: Code<W>) -> Result<(), NoMemory>
        requires ascending { IsStrictlySortedBy nat_cmp (keys_of self.old) }
        requires absent { code_at self.old key ≡ None }
        ensures added { OnOk result (self.new ≡ insert_entry nat_cmp self.old key code.entry) }
        ensures unchanged { OnErr result (self.new ≡ self.old) }
    {
        let place = place_of(&self.rows, key);
        self.rows.insert(place, (key, code))?;
        Ok(())
    }

    // Takes out the row of a key, and gives its code.
    pub(crate) fn remove(&mut self, key: u64) -> Code<W>
        requires ascending { IsStrictlySortedBy nat_cmp (keys_of self.old) }
        requires present { is_some (code_at self.old key) ≡ true }
        ensures code { code_at self.old key ≡ Some result }
        ensures removed { self.new ≡ remove_entry (is_at (nat_cmp key)) self.old }
    {
        let place = place_of(&self.rows, key);
        self.rows.remove(place).1
    }
}

impl<const W: usize> Clone for RowBucket<W> {
    ghost is_clone = { λ old new. new ≡ old };

    fn clone(&self) -> Result<RowBucket<W>, AllocError> {
        let Ok(copy) = self.copy() else {
            return Err(AllocError);
        };
        Ok(copy)
    }
}
