//! Searching a layout for a shard.

ghost use Rattle.std.specs.Prelude.{◌≡◌, ◌+◌, ◌-◌, ◌<◌, ◌≤◌, length, IfOk};
ghost use Rattle.commit_journal.specs.Fronts.{position_of};
ghost use Rattle.exchange_model.specs.declared.limits.TheConstants.{ROUNDS_MOST, SEARCH_ROWS_MOST};
ghost use Rattle.layout_search.specs.Improves.{AreSamples};
ghost use Rattle.session_desk.specs.Calls.{KeepsKnown};
ghost use Rattle.session_desk.specs.Desks.{IsDesk, IsOwnFront, pinned_at};
ghost use Rattle.query_opening.specs.Pinning.{ComesOn};
ghost use Rattle.shard_rebuild.specs.Searching.{FindsFrom, FindsLayout};
ghost use Rattle.shard_rebuild.specs.ShardBuilds.{KeepsOtherPins};

use commit_journal::Front;
use layout_search::{Found, Sample, improve};
use read_meter::{NoMemory, Steps};
use session_desk::Desk;
use std::alloc::Global;

/// Searches a layout for a shard that is cheaper for the samples, from the version at a front of its own, which it closes, and tells
/// the front's position with what it found. The shard keeps its layout. At most 64 steps, beside those that bring the shard to the
/// front.
///
/// # Errors
///
/// `NoMemory` where there is none for the front, the version or the search. The shard may have come on.
pub fn search_layout<const W: usize, D: Desk<W>, M>(
    alloc: Global,
    desk: &mut D,
    shard: u32,
    samples: &[Sample<W>],
    rounds: u32,
    steps: &mut Steps<M>,
) -> Result<(Found, u64), NoMemory>
    requires shard { shard < (D.desk desk.old).config.shards }
    requires samples { AreSamples (D.desk desk.old).config.bits samples.now }
    requires some_rounds { 1 ≤ rounds }
    requires few_rounds { rounds ≤ ROUNDS_MOST }
    ensures found { IfOk result (λ found. FindsLayout (D.desk desk.old) (D.desk desk.new)
        shard samples.now rounds found.0 found.1) }
    // In any case the desk is as before but for what it saw and how far the shard came.
    ensures comes { ComesOn (D.desk desk.old) (D.desk desk.new) }
    ensures others { KeepsOtherPins (D.desk desk.old) (D.desk desk.new) shard }
    ensures known { KeepsKnown (D.desk desk.new) (D.knows desk.old) (D.knows desk.new) }
    ensures desk { IsDesk W (D.desk desk.new) }
    // The steps.
    ensures upkeep { IfOk result (λ found. steps.new ≤ steps.old
        + (found.1 - pinned_at (D.desk desk.old) shard) + SEARCH_ROWS_MOST) }
    ensures bound { steps.new ≤ steps.old
        + (length (D.desk desk.new).seen - pinned_at (D.desk desk.old) shard)
        + SEARCH_ROWS_MOST }
{
    let _before = desk.who();
    let Ok(front) = desk.open_front() else {
        let _after = desk.who();
        return Err(NoMemory);
    };
    let position = front.position();
    let found = search_at(alloc, desk, &front, shard, samples, rounds, steps);
    desk.close_front(front);
    let _after = desk.who();
    Ok((found?, position))
}

// Searches a layout from a shard's version at a front on.
fn search_at<const W: usize, D: Desk<W>, M>(
    alloc: Global,
    desk: &mut D,
    front: &Front<W>,
    shard: u32,
    samples: &[Sample<W>],
    rounds: u32,
    steps: &mut Steps<M>,
) -> Result<Found, NoMemory>
    requires own { IsOwnFront (D.desk desk.old) front.now }
    requires knows { D.knows desk.old front.now }
    requires whole { position_of front.now ≡ length (D.desk desk.old).seen }
    requires shard { shard < (D.desk desk.old).config.shards }
    requires samples { AreSamples (D.desk desk.old).config.bits samples.now }
    requires some_rounds { 1 ≤ rounds }
    requires few_rounds { rounds ≤ ROUNDS_MOST }
    ensures finds { IfOk result (λ found. FindsFrom (D.desk desk.old) (D.desk desk.new)
        shard samples.now rounds found (position_of front.now)) }
    ensures comes { ComesOn (D.desk desk.old) (D.desk desk.new) }
    ensures others { KeepsOtherPins (D.desk desk.old) (D.desk desk.new) shard }
    ensures last { (D.desk desk.new).last ≡ (D.desk desk.old).last }
    ensures own { IsOwnFront (D.desk desk.new) front.now }
    ensures knows { D.knows desk.new front.now }
    ensures known { KeepsKnown (D.desk desk.new) (D.knows desk.old) (D.knows desk.new) }
    ensures bound { steps.new ≤ steps.old
        + (position_of front.now - pinned_at (D.desk desk.old) shard) + SEARCH_ROWS_MOST }
{
    let _shards = desk.shards();
    let version = desk.pin(front, shard, steps)?;
    improve(alloc, &version, samples, rounds, steps)
}
