//! Shards that come to the front of a query.

ghost use Rattle.std.specs.Prelude.{◌≡◌, ◌⊎◌, ◌+◌, ◌-◌, ◌<◌, ◌≤◌, IfOk, OnErr, OnOk};
ghost use Rattle.hamming_model.specs.Recoded.{AreStoredEntries};
ghost use Rattle.commit_journal.specs.Fronts.{position_of};
ghost use Rattle.versioned_shard.specs.Along.{Follows};
ghost use Rattle.versioned_shard.specs.Shards.{HasVersion, IsOneOf, advanced, contents_at};
ghost use Rattle.world_parts.specs.Calls.{come_to};

use crate::place::Place;
use commit_journal::Front;
use read_meter::{NoMemory, Steps};
use shard_version::Version;
use std::sync::Arc;

/// Brings a shard to a front, where it is behind, for one step an entry, and tells where it stands then.
///
/// # Errors
///
/// `NoMemory` where there is none for the versions; then nothing changed.
pub fn come<const W: usize, M>(
    place: &mut Place<W>,
    front: &Front<W>,
    steps: &mut Steps<M>,
) -> Result<u64, NoMemory>
    requires follows { place.old.shard.current.at < position_of front.now →
        Follows front.now.entries place.old.shard.current }
    requires codes { AreStoredEntries W place.old.shard.current.layout.bits front.now.entries }
    ensures came { OnOk result (place.new ≡ come_to front.now place.old) }
    ensures at { IfOk result (λ at. at ≡ place.new.shard.current.at) }
    ensures unchanged { OnErr result (place.new ≡ place.old) }
    ensures bound { steps.new ≤ steps.old + (position_of front.now - place.old.shard.current.at) }
{
    place.shard.advance(front, steps)?;
    Ok(place.shard.at())
}

/// Brings a shard to a front, where it is behind, for one step an entry, and gives the version at the front.
///
/// # Errors
///
/// `NoMemory` where there is none for the versions; the shard may have come to the front.
pub fn bring<const W: usize, M>(
    place: &mut Place<W>,
    front: &Front<W>,
    steps: &mut Steps<M>,
) -> Result<Arc<Version<W>>, NoMemory>
    requires follows { place.old.shard.current.at < position_of front.now →
        Follows front.now.entries place.old.shard.current }
    requires codes { AreStoredEntries W place.old.shard.current.layout.bits front.now.entries }
    requires there { HasVersion (advanced front.now place.old.shard) (position_of front.now) }
    ensures came { OnOk result (place.new ≡ come_to front.now place.old) }
    ensures version { IfOk result (λ version.
        IsOneOf place.new.shard (position_of front.now) (contents_at version)) }
    ensures lacks { OnErr result
        ((place.new ≡ place.old) ⊎ (place.new ≡ come_to front.now place.old)) }
    ensures bound { steps.new ≤ steps.old + (position_of front.now - place.old.shard.current.at) }
{
    place.shard.advance(front, steps)?;
    place.shard.version_for(front)
}
