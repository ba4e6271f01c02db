//! Shards before the first entry.

ghost use Rattle.std.specs.Prelude.{◌≡◌, ◌*◌, ◌<◌, ◌≤◌, [], IfOk};
ghost use Rattle.std.specs.Arc.{arc_value};
ghost use Rattle.hamming_model.specs.declared.limits.TheConstants.{SHARDS_MOST, WORDS_MOST};
ghost use Rattle.shard_version.specs.Contents.{empty_of};
ghost use Rattle.versioned_shard.specs.Shards.{shard_with};
ghost use Rattle.world_parts.specs.Starts.{ArePlacesBegun};

use crate::place::Place;
use part_layout::Layout;
use read_meter::NoMemory;
use shard_version::Version;
use std::alloc::Global;
use std::sync::Arc;
use versioned_shard::Shard;

/// So many shards before the first entry, all in one layout, with no builds.
///
/// # Errors
///
/// `NoMemory` where there is none for the shards.
pub fn first_places<const W: usize>(
    alloc: Global,
    shards: u32,
    layout: &Arc<Layout>,
) -> Result<Vec<Place<W>>, NoMemory>
    requires few_words { W ≤ WORDS_MOST }
    requires words { (arc_value layout.now).bits ≤ 64 * W }
    requires few_shards { shards ≤ SHARDS_MOST }
    ensures { IfOk result (λ places.
        ArePlacesBegun shards (arc_value layout.now) places.items shards) }
{
    let mut places = Vec::new(alloc);
    for number in 0..shards {
        let shard = first_shard(alloc, shards, number, layout)?;
        places.push(Place { shard, build: None })?;
    }
    Ok(places)
}

// A shard before the first entry.
fn first_shard<const W: usize>(
    alloc: Global,
    shards: u32,
    shard: u32,
    layout: &Arc<Layout>,
) -> Result<Shard<W>, NoMemory>
    requires few_words { W ≤ WORDS_MOST }
    requires words { (arc_value layout.now).bits ≤ 64 * W }
    requires own { shard < shards }
    requires few_shards { shards ≤ SHARDS_MOST }
    ensures { IfOk result (λ first. first ≡ shard_with
        (empty_of shard shards (arc_value layout.now)) []) }
{
    let own = layout.clone()?;
    let version = Version::empty(alloc, shard, shards, own)?;
    Shard::new(alloc, version)
}
