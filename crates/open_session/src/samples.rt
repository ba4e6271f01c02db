//! The samples of a session.

ghost use Rattle.std.specs.Prelude.{◌≡◌, ◌≤◌, ℕ, ◌++◌, ◌∷◌, [], length, take, IfOk};
ghost use Rattle.hamming_model.specs.declared.limits.TheConstants.{WORDS_MOST};
ghost use Rattle.hamming_model.specs.Codes.{StandsFor};
ghost use Rattle.exchange_model.specs.declared.limits.TheConstants.{SAMPLES_MOST};
ghost use Rattle.layout_search.specs.Improves.{AreSamples};
ghost use Rattle.session_model.specs.Searches.{newest_of};
ghost use Rattle.open_session.specs.Questions.{ask_of};
ghost use Rattle.open_session.specs.Samples.{SamplesJoined};

use crate::question::Question;
use exchange_model::{SAMPLE_RADIUS_MOST, SAMPLES_MOST};
use gph_codes::Code;
use layout_search::Sample;
use read_meter::NoMemory;
use std::alloc::Global;
use std::marker::Model;

/// The last range queries of a small radius that a session opened, at most 16, the oldest first: those by which it searches layouts.
#[derive(Drop)]
pub struct Samples<const W: usize> {
    kept: Vec<Sample<W>>,
}

impl<const W: usize> Model for Samples<W> {
    ghost use Rattle.std.specs.Prelude.{List, ◌≤◌, length, vec_capacity};
    ghost use Rattle.exchange_model.specs.declared.limits.TheConstants.{SAMPLES_MOST};
    ghost use Rattle.layout_search.specs.declared.sample.Sample.{Sample};

    ghost Value = { List (Sample W) };

    ghost view = { λ s. s.kept.items };

    ghost invariant = { λ s. (SAMPLES_MOST ≤ vec_capacity s.kept)
        × (length s.kept.items ≤ SAMPLES_MOST) };
}

impl<const W: usize> Samples<W> {
    // No sample, with the memory for as many as may be.
    pub(crate) fn new(alloc: Global) -> Result<Samples<W>, NoMemory>
        ensures { IfOk result (λ samples. samples ≡ []) }
    {
        match Vec::with_capacity(alloc, SAMPLES_MOST) {
            Ok(kept) => Ok(Samples { kept }),
            Err(_) => Err(NoMemory),
        }
    }

    /// The samples, the oldest first.
    pub fn all(&self) -> &[Sample<W>]
        ensures all { result.now ≡ self.now }
        ensures few { length self.now ≤ SAMPLES_MOST }
    {
        self.kept.as_slice()
    }

    /// Keeps a query that was opened, where it is a sample.
    pub fn join(&mut self, question: Question, code: Code<W>)
        requires few_words { W ≤ WORDS_MOST }
        ensures joined { (bits : ℕ) → SamplesJoined bits (ask_of question (take bits code.entry))
            self.old self.new }
        ensures samples { (bits : ℕ) → StandsFor W bits code.entry (take bits code.entry) →
            AreSamples bits self.old → AreSamples bits self.new }
    {
        // There are never more than may be.
        let _samples = self.all();
        if let Question::Range(tau) = question {
            if tau <= SAMPLE_RADIUS_MOST {
                self.push(Sample { query: code, tau });
            }
        }
    }

    // Keeps one sample more, and lets go of the oldest where there are as many as may be.
    fn push(&mut self, sample: Sample<W>)
        requires { W ≤ WORDS_MOST }
        ensures { self.new ≡ newest_of SAMPLES_MOST (self.old ++ sample.entry ∷ []) }
    {
        if self.kept.len() == SAMPLES_MOST {
            let _oldest = self.kept.remove(0);
        }
        let Ok(()) = self.kept.push(sample) else {
            unreachable!();
        };
    }
}
