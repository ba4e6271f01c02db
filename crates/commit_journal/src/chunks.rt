//! Whole chunks of entries.

ghost use Rattle.std.specs.Prelude.{◌≡◌, ◌+◌, ◌%◌, ◌<◌, ◌≤◌, ◌++◌, [], length, map, slice_index_or, IfOk, OnOk, OnErr};
ghost use Rattle.hamming_model.specs.declared.limits.TheConstants.{ENTRIES_MOST, WORDS_MOST};
ghost use Rattle.entry_log.specs.Entries.{kept_entry};
ghost use Rattle.commit_journal.specs.Chunks.{AreShared, chunk_items};
ghost use Rattle.commit_journal.specs.declared.chunks.TheConstants.{CHUNK};

use entry_log::Entry;
use read_meter::NoMemory;
use std::alloc::{AllocError, Global};
use std::marker::Model;
use std::sync::Arc;

/// How many entries a chunk has.
pub const CHUNK: usize = 256;

/// Chunks of `CHUNK` entries each. A copy has the same chunks and not chunks of its own.
#[derive(Drop)]
pub struct Chunks<const W: usize> {
    alloc: Global,
    all: Vec<Arc<Vec<Entry<W>>>>,
}

impl<const W: usize> Model for Chunks<W> {
    ghost use Rattle.std.specs.Prelude.{List, map};
    ghost use Rattle.hamming_model.specs.History.{JournalEntry};
    ghost use Rattle.hamming_model.specs.Coding.{history_code};
    ghost use Rattle.entry_log.specs.Entries.{kept_entry};
    ghost use Rattle.commit_journal.specs.Chunks.{AreChunks, joined_chunks};

    ghost Value = { List JournalEntry };

    ghost coded = { history_code };

    ghost view = { λ chunks. map kept_entry (joined_chunks chunks.all.items) };

    ghost invariant = { λ chunks. AreChunks chunks.all.items };
}

impl<const W: usize> Chunks<W> {
    /// No chunk.
    pub fn new(alloc: Global) -> Chunks<W>
        requires { W ≤ WORDS_MOST }
        ensures { result ≡ [] }
    {
        Chunks {
            alloc,
            all: Vec::new(alloc),
        }
    }

    /// How many entries there are.
    pub fn len(&self) -> usize
        ensures number { result ≡ length self.now }
        ensures whole { result % CHUNK ≡ 0 }
        ensures few { result ≤ ENTRIES_MOST }
    {
        self.all.len() * CHUNK
    }

    /// Adds a chunk behind the others.
    pub fn push(&mut self, chunk: Vec<Entry<W>>) -> Result<(), NoMemory>
        requires whole { length chunk.items ≡ CHUNK }
        requires room { length self.old + CHUNK ≤ ENTRIES_MOST }
        ensures added { OnOk result (self.new ≡ self.old ++ map kept_entry chunk.entry.items) }
        ensures unchanged { OnErr result (self.new ≡ self.old) }
    {
        let shared = Arc::new(self.alloc, chunk)?;
        self.all.push(shared)?;
        Ok(())
    }

    /// The same chunks.
    pub fn copy(&self) -> Result<Chunks<W>, NoMemory>
        ensures { IfOk result (λ copy. copy ≡ self.now) }
    {
        let all = shared_chunks(self.alloc, &self.all)?;
        Ok(Chunks {
            alloc: self.alloc,
            all,
        })
    }

    /// The entry at a place.
    pub fn entry(&self, place: usize) -> &Entry<W>
        requires { place < length self.now }
        ensures { slice_index_or self.now place (kept_entry result.now) ≡ kept_entry result.now }
    {
        &self.all[place / CHUNK][place % CHUNK]
    }
}

impl<const W: usize> Clone for Chunks<W> {
    ghost is_clone = { λ old new. new ≡ old };

    fn clone(&self) -> Result<Chunks<W>, AllocError> {
        let Ok(copy) = self.copy() else {
            return Err(AllocError);
        };
        Ok(copy)
    }
}

// The same chunks, in a list of their own.
fn shared_chunks<const W: usize>(
    alloc: Global,
    chunks: &[Arc<Vec<Entry<W>>>],
) -> Result<Vec<Arc<Vec<Entry<W>>>>, NoMemory>
    requires { W ≤ WORDS_MOST }
    ensures { IfOk result (λ shared. AreShared shared.items chunks.now) }
{
    let mut shared = Vec::with_capacity(alloc, chunks.len())?;
    for chunk in chunks {
        let one = chunk.clone()?;
        shared.push(one)?;
    }
    Ok(shared)
}
