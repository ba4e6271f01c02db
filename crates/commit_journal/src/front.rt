//! A front: a position of the history, with all that stands below it.

ghost use Rattle.std.specs.Prelude.{◌≡◌, ◌+◌, ◌<◌, ◌≤◌, length, slice_index_or};
ghost use Rattle.hamming_model.specs.declared.limits.TheConstants.{ENTRIES_MOST};
ghost use Rattle.entry_log.specs.Entries.{kept_entry};
ghost use Rattle.commit_journal.specs.Fronts.{IsFront, position_of};

use crate::entries::Entries;
use entry_log::Entry;
use read_meter::Steps;
use std::marker::Model;

/// A position of the history, with the entries below it and the positions of the fronts that were live below it when it was
/// opened.
#[derive(Drop)]
pub struct Front<const W: usize> {
    pub(crate) id: usize,
    pub(crate) who: u32,
    pub(crate) older: Vec<u64>,
    pub(crate) entries: Entries<W>,
}

impl<const W: usize> Model for Front<W> {
    ghost use Rattle.commit_journal.specs.Fronts.{FrontState, IsFront, front_code, front_of};

    ghost Value = { FrontState };

    ghost coded = { front_code };

    ghost view = { λ front. front_of front.id front.who front.older.items front.entries };

    ghost invariant = { λ front. IsFront (front_of front.id front.who front.older.items front.entries) };
}

impl<const W: usize> Front<W> {
    /// Its number, which no other live front has.
    pub fn id(&self) -> usize
        ensures { result ≡ self.now.id }
    {
        self.id
    }

    /// The number of the session that opened it.
    pub fn who(&self) -> u32
        ensures { result ≡ self.now.who }
    {
        self.who
    }

    /// How many entries stand below it.
    pub fn position(&self) -> u64
        ensures position { result ≡ position_of self.now }
        ensures few { result ≤ ENTRIES_MOST }
        ensures front { IsFront self.now }
    {
        self.entries.len()
    }

    /// The positions of the fronts that were live strictly below it when it was opened, ascending, each once.
    pub fn older(&self) -> &[u64]
        ensures { result.now ≡ self.now.older }
    {
        &self.older
    }

    /// The entry at a place below it, from 0 on, for one step.
    pub fn entry<M>(&self, place: u64, steps: &mut Steps<M>) -> &Entry<W>
        requires { place < position_of self.now }
        ensures entry { slice_index_or self.now.entries place (kept_entry result.now)
            ≡ kept_entry result.now }
        ensures step { steps.new ≡ steps.old + 1 }
    {
        steps.tick();
        self.entries.entry(place)
    }
}
