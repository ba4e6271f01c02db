//! The search for a cheaper layout.

ghost use Rattle.std.specs.Prelude.{◌≡◌, ◌+◌, ◌≤◌, min, length, IfOk, OnOk};
ghost use Rattle.std.specs.Arc.{arc_value};
ghost use Rattle.hamming_model.specs.declared.limits.TheConstants.{WORDS_MOST};
ghost use Rattle.exchange_model.specs.declared.limits.TheConstants.{ROUNDS_MOST, SEARCH_ROWS_MOST};
ghost use Rattle.part_layout.specs.Laid.{IsLaid};
ghost use Rattle.layout_search.specs.Improves.{AreSamples, FindsImproved};

use crate::arrangement::Arrangement;
use crate::search::Search;
use crate::{Found, Sample};
use exchange_model::{SEARCH_ROWS_MOST, rounds_never_cost_more};
use read_meter::{NoMemory, Steps};
use shard_version::Version;
use std::alloc::Global;
use std::sync::Arc;

/// Searches a layout that is cheaper for the samples: each of the rounds makes the first exchange of two positions of neighbouring
/// parts that lowers the cost, in the order of the part, of its place and of the next part's place, and the search ends where
/// there is none. The cost of a layout is what the samples would read, at least, of the 64 rows of least key.
///
/// # Errors
///
/// `NoMemory` where there is no memory for the rows, the counts or the layout.
pub fn improve<const W: usize, M>(
    alloc: Global,
    version: &Version<W>,
    samples: &[Sample<W>],
    rounds: u32,
    steps: &mut Steps<M>,
) -> Result<Found, NoMemory>
    requires few_words { W ≤ WORDS_MOST }
    requires samples { AreSamples version.now.contents.layout.bits samples.now }
    requires some_rounds { 1 ≤ rounds }
    requires few_rounds { rounds ≤ ROUNDS_MOST }
    // What was found.
    ensures found { IfOk result (FindsImproved version.now.contents samples.now rounds) }
    ensures laid { IfOk result (λ found. IsLaid (arc_value found.layout)) }
    ensures bits { IfOk result (λ found.
        (arc_value found.layout).bits ≡ version.now.contents.layout.bits) }
    ensures never_dearer { IfOk result (λ found. found.after ≤ found.before) }
    ensures few_swaps { IfOk result (λ found. found.swaps ≤ rounds) }
    // A step for each row read.
    ensures steps { OnOk result
        (steps.new ≡ steps.old + min SEARCH_ROWS_MOST (length version.now.contents.rows)) }
    ensures bound { steps.new
        ≤ steps.old + min SEARCH_ROWS_MOST (length version.now.contents.rows) }
{
    rounds_never_cost_more();
    let rows = version.first_rows(SEARCH_ROWS_MOST, steps)?;
    let arrangement = Arrangement::of(alloc, version.layout())?;
    let mut search = Search::new(alloc, arrangement, rows, samples)?;
    let before = search.cost();
    let swaps = search.improve(rounds);
    let after = search.cost();
    let found = search.layout.layout(alloc)?;
    let Ok(layout) = Arc::new(alloc, found) else {
        return Err(NoMemory);
    };
    Ok(Found {
        layout,
        before,
        after,
        swaps,
    })
}
