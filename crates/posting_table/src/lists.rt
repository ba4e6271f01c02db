//! Posting lists whose room was taken before.

ghost use Rattle.std.specs.Prelude.{◌≡◌, ◌^◌, ◌<◌, ◌≤◌, length, sum, IfErr, IfOk};
ghost use Rattle.hamming_model.specs.declared.limits.TheConstants.{ENTRIES_MOST, PART_WIDTH_MOST, WORDS_MOST};
ghost use Rattle.posting_table.specs.Reserved.{HasSpace, entry_placed, with_room};

use crate::no_memory_for::NoMemoryFor;
use crate::postings::Postings;
use gph_codes::Code;
use read_meter::NoMemory;
use std::alloc::Global;
use std::marker::Model;

/// The posting lists of one part that are filled entry by entry, in room that was taken before. Seen as a
/// table, and the room of each list.
#[derive(Drop)]
pub struct Lists<const W: usize> {
    alloc: Global,
    width: u32,
    // by value; the capacity of each is its room
    lists: Vec<Vec<(u64, Code<W>)>>,
}

impl<const W: usize> Model for Lists<W> {
    ghost use Rattle.posting_table.specs.Reserved.{Reserved, reserved_code};
    ghost use Rattle.posting_table.specs.KeptLists.{AreKeptLists, reserved_of};

    ghost Value = { Reserved };

    ghost coded = { reserved_code };

    ghost view = { λ kept. reserved_of kept.width kept.lists.items };

    ghost invariant = { λ kept. AreKeptLists kept.width kept.lists.items };
}

impl<const W: usize> Lists<W> {
    /// Empty lists with room for so many entries of each of the `2 ^ width` values.
    ///
    /// # Errors
    ///
    /// `NoMemory` where there is no memory for that room.
    pub fn reserve(alloc: Global, width: u32, sizes: &[u32]) -> Result<Lists<W>, NoMemory>
        requires some { 1 ≤ width }
        requires narrow { width ≤ PART_WIDTH_MOST }
        requires number { length sizes.now ≡ 2 ^ width }
        requires few { sum sizes.now ≤ ENTRIES_MOST }
        ensures { IfOk result (λ lists. lists ≡ with_room width sizes.now) }
    {
        let mut lists = Vec::with_capacity(alloc, sizes.len())?;
        for size in sizes {
            let list = Vec::with_capacity(alloc, *size as usize)?;
            lists.push(list)?;
        }
        Ok(Lists {
            alloc,
            width,
            lists,
        })
    }

    /// Adds an entry at the end of the list of a value, in its room. Takes no memory.
    pub fn place(&mut self, value: u16, key: u64, code: Code<W>)
        requires { HasSpace self.old value key }
        ensures { self.new ≡ entry_placed self.old value (key, code.entry) }
    {
        self.lists[value as usize].push_reserved((key, code));
    }

    /// A posting table of equal lists. Takes time and memory for each entry.
    ///
    /// # Errors
    ///
    /// `NoMemory` where there is no memory for the table.
    pub fn postings(&self) -> Result<Postings<W>, NoMemory>
        requires { W ≤ WORDS_MOST }
        ensures { IfOk result (λ postings. postings ≡ self.now.table) }
    {
        Postings::of_lists(self.alloc, self.width, &self.lists)
    }

    /// The same lists as a posting table.
    ///
    /// # Errors
    ///
    /// `NoMemoryFor` these lists, with the same entries and the same room.
    pub fn into_postings(self) -> Result<Postings<W>, NoMemoryFor<Lists<W>>>
        requires { W ≤ WORDS_MOST }
        ensures lists { IfOk result (λ postings. postings ≡ self.entry.table) }
        ensures back { IfErr result (λ failed. failed.value ≡ self.entry) }
    {
        let Ok(postings) = self.postings() else {
            return Err(NoMemoryFor { value: self });
        };
        Ok(postings)
    }
}
