ghost use Rattle.std.specs.Prelude.{◌≡◌, ◌<◌, ◌≤◌, List, [], ◌∷◌, ◌++◌, length, IfOk};
ghost use Rattle.hamming_model.specs.declared.limits.TheConstants.{PARTS_MOST};
ghost use Rattle.threshold_model.specs.Splits.{threshold_of};

use read_meter::NoMemory;
use std::alloc::Global;
use std::marker::Model;

/// A threshold vector: one i32 a part, at least -1, where -1 is a part that isn't searched.
#[derive(Drop)]
pub struct Thresholds {
    room: usize,
    entries: Vec<i32>,
}

impl Model for Thresholds {
    ghost use Rattle.std.specs.Prelude.{◌≤◌, vec_capacity};
    ghost use Rattle.threshold_dp.specs.Room.{ThresholdList};

    ghost Value = { ThresholdList };

    ghost view = { λ t. record { entries = t.entries.items; room = t.room } };

    ghost invariant = { λ t. t.room ≤ vec_capacity t.entries };
}

impl Thresholds {
    /// No entries, and room for one for each of so many parts.
    pub fn reserve(alloc: Global, parts: usize) -> Result<Thresholds, NoMemory>
        requires some { 0 < parts }
        requires few { parts ≤ PARTS_MOST }
        ensures empty { IfOk result (λ thresholds. thresholds.entries ≡ []) }
        ensures room { IfOk result (λ thresholds. thresholds.room ≡ parts) }
    {
        let entries = Vec::with_capacity(alloc, parts)?;
        Ok(Thresholds {
            room: parts,
            entries,
        })
    }

    /// The entries, one a part.
    pub fn entries(&self) -> &[i32]
        ensures entries { result.now ≡ self.now.entries }
    {
        self.entries.as_slice()
    }

    // Takes all entries out.
    pub(crate) fn clear(&mut self)
        ensures entries { self.new.entries ≡ [] }
        ensures room { self.new.room ≡ self.old.room }
    {
        self.entries.clear();
    }

    // Appends the threshold that allows so many distances.
    pub(crate) fn push(&mut self, units: u16)
        requires room { length self.old.entries < self.old.room }
        ensures entries { self.new.entries ≡ self.old.entries ++ threshold_of units ∷ [] }
        ensures room { self.new.room ≡ self.old.room }
    {
        let threshold = threshold(units);
        let Ok(()) = self.entries.push(threshold) else {
            unreachable!()
        };
    }
}

// The threshold that allows so many distances.
fn threshold(units: u16) -> i32
    ensures threshold { result ≡ threshold_of units }
{
    i32::from(units) - 1
}
