//! A version that goes along a front.

ghost use Rattle.std.specs.Prelude.{◌≡◌, ◌+◌, ◌≤◌, ◌++◌, map, IfOk, OnOk};
ghost use Rattle.hamming_model.specs.Recoded.{AreStoredEntries};
ghost use Rattle.hamming_model.specs.declared.limits.TheConstants.{WORDS_MOST};
ghost use Rattle.commit_journal.specs.Fronts.{has_position, position_of};
ghost use Rattle.versioned_shard.specs.Along.{Follows, Reaches};
ghost use Rattle.versioned_shard.specs.Shards.{contents_at, made, staying};

use commit_journal::Front;
use hamming_model::recoded_histories_are_alike;
use read_meter::{NoMemory, Steps};
use shard_version::{Version, versions_follow_the_history};
use std::alloc::Global;
use std::sync::Arc;

/// The version at a later position, for one step an entry: one copy, or the same version where it stands there.
///
/// # Errors
///
/// `NoMemory` where there is none for the version; the steps of the entries that were taken in stay.
pub fn reached<const W: usize, M>(
    alloc: Global,
    version: &Arc<Version<W>>,
    front: &Front<W>,
    position: u64,
    steps: &mut Steps<M>,
) -> Result<Arc<Version<W>>, NoMemory>
    requires few_words { W ≤ WORDS_MOST }
    requires ahead { (contents_at version.now).at ≤ position }
    requires below { position ≤ position_of front.now }
    requires follows { Follows front.now.entries (contents_at version.now) }
    requires codes { AreStoredEntries W (contents_at version.now).layout.bits front.now.entries }
    ensures reaches { IfOk result (λ reached.
        Reaches front.now.entries (contents_at version.now) position (contents_at reached)) }
    ensures steps { OnOk result (steps.new + (contents_at version.now).at ≡ steps.old + position) }
    ensures bound { steps.new + (contents_at version.now).at ≤ steps.old + position }
{
    recoded_histories_are_alike();
    versions_follow_the_history();
    let at = version.at();
    if at == position {
        let same = version.clone()?;
        return Ok(same);
    }
    let _few = front.position();
    let mut next = version.copy()?;
    for place in at..position {
        let entry = front.entry(place, steps);
        next = next.apply(entry)?;
    }
    let shared = Arc::new(alloc, next)?;
    Ok(shared)
}

// Goes along a front, and keeps a version at each position of its list from that of the version on. The answer is the version at
// the front.
pub fn follow<const W: usize, M>(
    alloc: Global,
    current: &Arc<Version<W>>,
    front: &Front<W>,
    kept: &mut Vec<Arc<Version<W>>>,
    steps: &mut Steps<M>,
) -> Result<Arc<Version<W>>, NoMemory>
    requires few_words { W ≤ WORDS_MOST }
    requires behind { (contents_at current.now).at ≤ position_of front.now }
    requires follows { Follows front.now.entries (contents_at current.now) }
    requires codes { AreStoredEntries W (contents_at current.now).layout.bits front.now.entries }
    ensures reaches { IfOk result (λ last. Reaches front.now.entries (contents_at current.now)
        (position_of front.now) (contents_at last)) }
    ensures made { OnOk result (map contents_at kept.new.items ≡ map contents_at kept.old.items
        ++ made front.now.entries (contents_at current.now) front.now.older) }
    ensures steps { OnOk result
        (steps.new + (contents_at current.now).at ≡ steps.old + position_of front.now) }
    ensures bound { steps.new + (contents_at current.now).at ≤ steps.old + position_of front.now }
{
    let at = current.at();
    let position = front.position();
    let mut version = current.clone()?;
    for older in front.older() {
        if at <= *older {
            let next = reached(alloc, &version, front, *older, steps)?;
            let same = next.clone()?;
            kept.push(same)?;
            version = next;
        }
    }
    reached(alloc, &version, front, position, steps)
}

// The kept versions at these positions.
pub fn staying<const W: usize>(
    alloc: Global,
    kept: &[Arc<Version<W>>],
    older: &[u64],
) -> Result<Vec<Arc<Version<W>>>, NoMemory>
    requires { W ≤ WORDS_MOST }
    ensures { IfOk result (λ stay.
        map contents_at stay.items ≡ staying older.now (map contents_at kept.now)) }
{
    let mut stay = Vec::new(alloc);
    for version in kept {
        if stands_in(older, version.at()) {
            let same = version.clone()?;
            stay.push(same)?;
        }
    }
    Ok(stay)
}

// Whether a position is among these.
fn stands_in(positions: &[u64], position: u64) -> bool
    ensures { result ≡ has_position positions.now position }
{
    for other in positions {
        if *other == position {
            return true;
        }
    }
    false
}
