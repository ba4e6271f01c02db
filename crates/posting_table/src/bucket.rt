//! Some of the posting lists of a part, which tables may share.

ghost use Rattle.std.specs.Prelude.{◌≡◌, ℕ, ◌+◌, ◌*◌, ◌<◌, [], length, replicate, slice_set, IfOk, OnOk, OnErr};
ghost use Rattle.posting_table.specs.KeptLists.{held_by, lists_of_rest};
ghost use Rattle.posting_table.specs.Tables.{FindsKey};
ghost use Rattle.posting_table.specs.Shared.{LosesAt, list_at, with_last};

use crate::postings::BUCKETS;
use gph_codes::Code;
use read_meter::NoMemory;
use std::alloc::{AllocError, Global};
use std::marker::Model;

// Lists of entries (key, code), by number.
#[derive(Drop)]
pub(crate) struct Bucket<const W: usize> {
    alloc: Global,
    lists: Vec<Vec<(u64, Code<W>)>>,
}

impl<const W: usize> Model for Bucket<W> {
    ghost use Rattle.std.specs.Prelude.{ℕ, List, map};

    ghost Value = { List (List (ℕ × List ℕ)) };

    ghost view = { λ bucket. map (λ list. list.items) bucket.lists.items };
}

impl<const W: usize> Bucket<W> {
    // So many empty lists.
    pub(crate) fn new(alloc: Global, number: usize) -> Result<Bucket<W>, NoMemory>
        ensures { IfOk result (λ bucket. bucket ≡ replicate number []) }
    {
        let mut lists = Vec::with_capacity(alloc, number)?;
        for _i in 0..number {
            lists.push(Vec::new(alloc))?;
        }
        Ok(Bucket { alloc, lists })
    }

    // Equal lists of their own.
    fn copy(&self) -> Result<Bucket<W>, NoMemory>
        ensures { IfOk result (λ copy. copy ≡ self.now) }
    {
        let mut copies = Vec::with_capacity(self.alloc, self.lists.len())?;
        for list in &self.lists {
            let copied = Vec::from_slice(self.alloc, list.as_slice())?;
            copies.push(copied)?;
        }
        Ok(Bucket {
            alloc: self.alloc,
            lists: copies,
        })
    }

    // Copies of so many lists, of the values that have one rest.
    pub(crate) fn of_rest(
        alloc: Global,
        all: &[Vec<(u64, Code<W>)>],
        rest: usize,
        number: usize,
    ) -> Result<Bucket<W>, NoMemory>
        requires { (round : ℕ) → round < number → round * BUCKETS + rest < length all.now }
        ensures { IfOk result (λ bucket. bucket ≡ lists_of_rest (held_by all.now) rest number) }
    {
        let mut lists = Vec::with_capacity(alloc, number)?;
        for round in 0..number {
            let own = &all[round * BUCKETS + rest];
            let copied = Vec::from_slice(alloc, own.as_slice())?;
            lists.push(copied)?;
        }
        Ok(Bucket { alloc, lists })
    }

    // How many entries a list has.
    pub(crate) fn len(&self, at: usize) -> usize
        requires { at < length self.now }
        ensures { result ≡ length (list_at self.now at) }
    {
        self.lists[at].len()
    }

    // The entries of a list.
    pub(crate) fn list(&self, at: usize) -> &[(u64, Code<W>)]
        requires { at < length self.now }
        ensures { result.now ≡ list_at self.now at }
    {
        self.lists[at].as_slice()
    }

    // The place of the first entry of a key in a list.
    pub(crate) fn place_of(&self, at: usize, key: u64) -> Option<usize>
        requires { at < length self.now }
        ensures { FindsKey (list_at self.now at) key result }
    {
        for (place, entry) in self.lists[at].iter().enumerate() {
            if entry.0 == key {
                return Some(place);
            }
        }
        None
    }

    // Adds an entry at the end of a list.
    pub(crate) fn push(&mut self, at: usize, key: u64, code: Code<W>) -> Result<(), NoMemory>
        requires { at < length self.old }
        ensures added { OnOk result (self.new ≡ with_last self.old at (key, code.entry)) }
        ensures unchanged { OnErr result (self.new ≡ self.old) }
    {
        let Ok(()) = self.lists[at].push((key, code)) else {
            return Err(NoMemory);
        };
        Ok(())
    }

    // Takes an entry out of a list, whose last entry takes its place.
    pub(crate) fn remove(&mut self, at: usize, place: usize)
        requires bucket { at < length self.old }
        requires list { place < length (list_at self.old at) }
        ensures lost { LosesAt (list_at self.old at) (list_at self.new at) place }
        ensures others { self.new ≡ slice_set self.old at (list_at self.new at) }
    {
        self.lists[at].swap_remove(place);
    }
}

impl<const W: usize> Clone for Bucket<W> {
    ghost is_clone = { λ old new. new ≡ old };

    fn clone(&self) -> Result<Bucket<W>, AllocError> {
        let Ok(copy) = self.copy() else {
            return Err(AllocError);
        };
        Ok(copy)
    }
}
