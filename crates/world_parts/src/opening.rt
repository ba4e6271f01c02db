//! Openings of queries.

ghost use Rattle.std.specs.Prelude.{◌≡◌, ◌≤◌, replicate, IfOk, None};
ghost use Rattle.hamming_model.specs.declared.limits.TheConstants.{WORDS_MOST};
ghost use Rattle.world_parts.specs.Opened.{IsJustOpened};

use crate::ask::Ask;
use crate::held::Held;
use commit_journal::Front;
use read_meter::NoMemory;
use shard_version::Version;
use std::alloc::Global;
use std::snapshot::Snapshot;
use std::sync::Arc;

/// A query at a front, with these versions pinned. No source has begun.
pub fn new_held<const W: usize>(
    ask: Ask<W>,
    front: Front<W>,
    pins: Vec<Option<Arc<Version<W>>>>,
) -> Held<W>
    requires { W ≤ WORDS_MOST }
    ensures { IsJustOpened ask.entry front.entry pins.entry.items result }
{
    let position = front.position();
    let pinned = Snapshot::of(&pins);
    let gather = None;
    let gathered = Snapshot::of(&gather);
    Held {
        ask,
        position,
        front: Some(front),
        pins,
        gather,
        limit: 0,
        cancelled: false,
        pinned,
        gathered,
    }
}

/// No version for each of so many shards.
///
/// # Errors
///
/// `NoMemory` where there is none for the list.
pub fn no_pins<const W: usize>(
    alloc: Global,
    shards: usize,
) -> Result<Vec<Option<Arc<Version<W>>>>, NoMemory>
    ensures { IfOk result (λ pins. pins.items ≡ replicate shards None) }
{
    let mut pins = Vec::new(alloc);
    for _shard in 0..shards {
        pins.push(None)?;
    }
    Ok(pins)
}
