//! Parts whose positions run on in one word of a code.

ghost use Rattle.std.specs.Prelude.{◌≡◌, ℕ, ◌+◌, ◌*◌, ◌%◌, ◌^◌, ◌<◌, ◌≤◌, List, length, IfOk, IfSome};
ghost use Rattle.std.specs.List.{range_with_len};
ghost use Rattle.hamming_model.specs.Codes.{StandsFor};
ghost use Rattle.hamming_model.specs.Layouts.{part_value};
ghost use Rattle.hamming_model.specs.declared.limits.TheConstants.{PART_WIDTH_MOST};
ghost use Rattle.part_layout.specs.Kept.{AreRuns, RunsOn, lists_of};

use gph_codes::Code;
use read_meter::NoMemory;
use std::alloc::Global;

// How many bits a word of a code has.
const WORD: usize = 64;

/// For each part its first position, where its positions run on from it in one word.
pub fn runs_of(alloc: Global, parts: &[Vec<u16>]) -> Result<Vec<Option<u16>>, NoMemory>
    ensures { IfOk result (λ runs. AreRuns (lists_of parts.now) runs.items) }
{
    let mut runs = Vec::with_capacity(alloc, parts.len())?;
    for part in parts {
        runs.push(run_of(part))?;
    }
    Ok(runs)
}

// The first position of a part, where its positions run on from it in one word.
fn run_of(part: &[u16]) -> Option<u16>
    ensures { IfSome result (λ first. RunsOn part.now first) }
{
    let first = *part.first()?;
    for (place, position) in part.iter().enumerate() {
        if usize::from(*position) != usize::from(first) + place {
            return None;
        }
    }
    if usize::from(first) % WORD + part.len() <= WORD {
        Some(first)
    } else {
        None
    }
}

/// The value of a code at so many positions that run on from the first of them in one word: those before them are
/// shifted out, and then those after them.
pub fn run_value<const W: usize>(code: &Code<W>, first: u16, width: usize) -> u16
    requires some { 0 < width }
    requires narrow { width ≤ PART_WIDTH_MOST }
    requires in_word { first % 64 + width ≤ 64 }
    requires room { first + width ≤ 64 * W }
    ensures value { (bits : ℕ) (x : List ℕ) → StandsFor W bits code.now x → first + width ≤ bits →
        result ≡ part_value x (range_with_len first width) }
    ensures bound { result < 2 ^ width }
{
    let word = code.words()[usize::from(first) / WORD];
    (word << (usize::from(first) % WORD) >> (WORD - width)) as u16
}
