//! Pins of shards.

ghost use Rattle.std.specs.Prelude.{◌≡◌, ◌≤◌, length, IfOk, IfSome, OnErr, OnOk, None, Some, if◌then◌else◌, is_none, slice_get};
ghost use Rattle.hamming_model.specs.declared.limits.TheConstants.{ROOM_MOST, SHARDS_MOST, WORDS_MOST};
ghost use Rattle.commit_journal.specs.Journals.{IsLive};
ghost use Rattle.world_parts.specs.Pinned.{MayOpenEach, PinsHeld, missing, pinned_with};
ghost use Rattle.world_parts.specs.Whole.{IsWhole};

use crate::held::Held;
use crate::sources::begin;
use commit_journal::Journal;
use read_meter::NoMemory;
use shard_version::Version;
use std::alloc::Global;
use std::snapshot::Snapshot;
use std::sync::Arc;

/// Pins a version of a shard that isn't pinned, and tells how many aren't. With the last one a source begins on each version and the front
/// is closed.
///
/// # Errors
///
/// `NoMemory` where there is none for the sources; then nothing changed.
pub fn pin_held<const W: usize>(
    alloc: Global,
    journal: &mut Journal<W>,
    held: &mut Held<W>,
    shard: usize,
    version: Arc<Version<W>>,
    room: usize,
) -> Result<u32, NoMemory>
    requires few_words { W ≤ WORDS_MOST }
    requires some_room { 1 ≤ room }
    requires small_room { room ≤ ROOM_MOST }
    requires whole { IsWhole held.old }
    requires few { length held.old.pins.items ≤ SHARDS_MOST }
    requires live { IfSome held.old.front (IsLive journal.old) }
    requires not_pinned { slice_get held.old.pins.items shard ≡ Some None }
    requires may { missing (pinned_with held.old.pins.items shard version) ≡ 0 →
        MayOpenEach held.old.ask (pinned_with held.old.pins.items shard version) }
    ensures left { IfOk result (λ left. left ≡ missing held.new.pinned.value.items) }
    ensures pins { OnOk result (PinsHeld room journal.old journal.new held.old held.new
        shard version.entry) }
    ensures held { OnErr result (held.new ≡ held.old) }
    ensures journal { OnErr result (journal.new ≡ journal.old) }
{
    let left = unpinned(&held.pins) - 1;
    if left > 0 {
        held.pins[shard] = Some(version);
        held.pinned = Snapshot::of(&held.pins);
        return Ok(left);
    }
    let begun = begin(alloc, &held.pins, shard, &version, &held.ask, room)?;
    held.pins[shard] = Some(version);
    held.pinned = Snapshot::of(&held.pins);
    held.gather = Some(begun.gather);
    held.gathered = Snapshot::of(&held.gather);
    held.limit = begun.limit;
    if let Some(front) = held.front.take() {
        journal.close_front(front);
    }
    Ok(left)
}

/// How many shards aren't pinned.
pub fn unpinned<const W: usize>(pins: &[Option<Arc<Version<W>>>]) -> u32
    requires { length pins.now ≤ SHARDS_MOST }
    ensures { result ≡ missing pins.now }
{
    let mut left = 0;
    for shard in 0..pins.len() {
        left += one_if_none(&pins[shard]);
    }
    left
}

// One where no version is pinned.
fn one_if_none<const W: usize>(pin: &Option<Arc<Version<W>>>) -> u32
    ensures count { result ≡ (if is_none pin.now then 1 else 0) }
    ensures few { result ≤ 1 }
{
    match pin {
        Some(_version) => 0,
        None => 1,
    }
}
