//! The entries of a journal or of a front.

ghost use Rattle.std.specs.Prelude.{◌≡◌, ◌+◌, ◌<◌, ◌≤◌, ◌++◌, [], ◌∷◌, length, map, slice_index_or, IfOk, OnOk, OnErr};
ghost use Rattle.std.specs.Arc.{arc_value};
ghost use Rattle.hamming_model.specs.declared.limits.TheConstants.{ENTRIES_MOST, WORDS_MOST};
ghost use Rattle.entry_log.specs.Entries.{kept_entry};
ghost use Rattle.commit_journal.specs.declared.chunks.TheConstants.{CHUNK};

use crate::chunks::{CHUNK, Chunks};
use entry_log::Entry;
use read_meter::NoMemory;
use std::alloc::Global;
use std::marker::Model;
use std::sync::Arc;

/// Entries in the order in which they came. A copy shares the whole chunks, and has the last entries, fewer than a chunk, for
/// itself.
#[derive(Drop)]
pub struct Entries<const W: usize> {
    alloc: Global,
    whole: Arc<Chunks<W>>,
    last: Vec<Entry<W>>,
}

impl<const W: usize> Model for Entries<W> {
    ghost use Rattle.std.specs.Prelude.{List};
    ghost use Rattle.std.specs.Arc.{arc_value};
    ghost use Rattle.hamming_model.specs.History.{JournalEntry};
    ghost use Rattle.hamming_model.specs.Coding.{history_code};
    ghost use Rattle.commit_journal.specs.Chunks.{IsCut, cut_entries};

    ghost Value = { List JournalEntry };

    ghost coded = { history_code };

    ghost view = { λ entries. cut_entries (arc_value entries.whole) entries.last.items };

    ghost invariant = { λ entries. IsCut (arc_value entries.whole) entries.last.items };
}

impl<const W: usize> Entries<W> {
    /// No entries.
    pub fn new(alloc: Global) -> Result<Entries<W>, NoMemory>
        requires { W ≤ WORDS_MOST }
        ensures { IfOk result (λ entries. entries ≡ []) }
    {
        let whole = Arc::new(alloc, Chunks::new(alloc))?;
        Ok(Entries {
            alloc,
            whole,
            last: Vec::new(alloc),
        })
    }

    /// How many entries there are.
    pub fn len(&self) -> u64
        ensures number { result ≡ length self.now }
        ensures few { result ≤ ENTRIES_MOST }
    {
        (self.whole.len() + self.last.len()) as u64
    }

    /// Adds an entry at the end.
    pub fn push(&mut self, entry: Entry<W>) -> Result<(), NoMemory>
        requires { length self.old < ENTRIES_MOST }
        ensures added { OnOk result (self.new ≡ self.old ++ kept_entry entry.entry ∷ []) }
        ensures unchanged { OnErr result (self.new ≡ self.old) }
    {
        if self.last.len() + 1 < CHUNK {
            self.last.push(entry)?;
            return Ok(());
        }
        let chunk = with_entry(self.alloc, &self.last, entry)?;
        push_chunk(&mut self.whole, chunk)?;
        self.last.clear();
        Ok(())
    }

    /// Equal entries.
    pub fn copy(&self) -> Result<Entries<W>, NoMemory>
        ensures { IfOk result (λ copy. copy ≡ self.now) }
    {
        let last = Vec::from_slice(self.alloc, self.last.as_slice())?;
        let whole = self.whole.clone()?;
        Ok(Entries {
            alloc: self.alloc,
            whole,
            last,
        })
    }

    /// The entry at a place.
    pub fn entry(&self, number: u64) -> &Entry<W>
        requires { number < length self.now }
        ensures { slice_index_or self.now number (kept_entry result.now) ≡ kept_entry result.now }
    {
        let place = number as usize;
        let whole = self.whole.len();
        if place < whole {
            self.whole.entry(place)
        } else {
            &self.last[place - whole]
        }
    }
}

// The entries with one more.
fn with_entry<const W: usize>(
    alloc: Global,
    last: &[Entry<W>],
    entry: Entry<W>,
) -> Result<Vec<Entry<W>>, NoMemory>
    ensures { IfOk result (λ chunk. chunk.items ≡ last.now ++ entry.entry ∷ []) }
{
    let mut chunk = Vec::from_slice(alloc, last)?;
    chunk.push(entry)?;
    Ok(chunk)
}

// Adds a chunk to the others, or to a copy of them where they are shared.
fn push_chunk<const W: usize>(
    whole: &mut Arc<Chunks<W>>,
    chunk: Vec<Entry<W>>,
) -> Result<(), NoMemory>
    requires whole { length chunk.items ≡ CHUNK }
    requires room { length (arc_value whole.old) + CHUNK ≤ ENTRIES_MOST }
    ensures added { OnOk result (arc_value whole.new
        ≡ arc_value whole.old ++ map kept_entry chunk.entry.items) }
    ensures unchanged { OnErr result (arc_value whole.new ≡ arc_value whole.old) }
{
    let own = Arc::make_mut(whole)?;
    own.push(chunk)
}
