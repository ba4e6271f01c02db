//! Pinning every shard at one position.

ghost use Rattle.std.specs.Prelude.{◌≡◌, ◌+◌, ◌<◌, ◌≤◌, length, IfOk, OnErr};
ghost use Rattle.commit_journal.specs.Fronts.{position_of};
ghost use Rattle.session_desk.specs.Calls.{KeepsKnown};
ghost use Rattle.session_desk.specs.Desks.{IsDesk, IsOwnFront};
ghost use Rattle.query_opening.specs.Pinning.{ComesOn, PinsAll, PinsFirst, behind, contents_of_all};

use commit_journal::Front;
use read_meter::{NoMemory, Steps};
use session_desk::Desk;
use shard_version::Version;
use std::alloc::Global;
use std::sync::Arc;

/// The versions of all shards, in the order of their numbers, at one position.
#[derive(Drop)]
pub struct Pinned<const W: usize> {
    pub versions: Vec<Arc<Version<W>>>,
    pub position: u64,
}

/// Pins every shard, in the order of their numbers, at a front at the length of all that is seen, and closes the front.
///
/// # Errors
///
/// `NoMemory` where there is none for the front or a version. Some shards may have come on.
pub fn pin_all<const W: usize, D: Desk<W>, M>(
    alloc: Global,
    desk: &mut D,
    steps: &mut Steps<M>,
) -> Result<Pinned<W>, NoMemory>
    // Every shard is pinned at one position.
    ensures pinned { IfOk result (λ pinned. PinsAll (D.desk desk.old) (D.desk desk.new)
        pinned.position (contents_of_all pinned.versions.items)) }
    ensures spent { IfOk result (λ pinned. steps.new ≤ steps.old
        + behind (D.desk desk.old).pins pinned.position (D.desk desk.old).config.shards) }
    // In any case the desk is as before but for what it saw and how far its shards came.
    ensures comes { ComesOn (D.desk desk.old) (D.desk desk.new) }
    ensures known { KeepsKnown (D.desk desk.new) (D.knows desk.old) (D.knows desk.new) }
    ensures upkeep { steps.new ≤ steps.old
        + behind (D.desk desk.old).pins (length (D.desk desk.new).seen)
        (D.desk desk.old).config.shards }
    ensures desk { IsDesk W (D.desk desk.new) }
{
    let _shards = desk.shards();
    let Ok(front) = desk.open_front() else {
        let _who = desk.who();
        return Err(NoMemory);
    };
    let position = front.position();
    let pinned = pin_each(alloc, desk, &front, steps);
    desk.close_front(front);
    let _who = desk.who();
    let versions = pinned?;
    Ok(Pinned { versions, position })
}

// Pins every shard at a front.
fn pin_each<const W: usize, D: Desk<W>, M>(
    alloc: Global,
    desk: &mut D,
    front: &Front<W>,
    steps: &mut Steps<M>,
) -> Result<Vec<Arc<Version<W>>>, NoMemory>
    requires own { IsOwnFront (D.desk desk.old) front.now }
    requires knows { D.knows desk.old front.now }
    requires whole { position_of front.now ≡ length (D.desk desk.old).seen }
    ensures pinned { IfOk result (λ versions. PinsFirst (D.desk desk.old) (D.desk desk.new)
        (position_of front.now) (contents_of_all versions.items) (D.desk desk.old).config.shards) }
    ensures comes { ComesOn (D.desk desk.old) (D.desk desk.new) }
    ensures last { (D.desk desk.new).last ≡ (D.desk desk.old).last }
    ensures own { IsOwnFront (D.desk desk.new) front.now }
    ensures knows { D.knows desk.new front.now }
    ensures known { KeepsKnown (D.desk desk.new) (D.knows desk.old) (D.knows desk.new) }
    ensures upkeep { steps.new ≤ steps.old
        + behind (D.desk desk.old).pins (position_of front.now) (D.desk desk.old).config.shards }
{
    let mut versions = Vec::new(alloc);
    for shard in 0..desk.shards() {
        let version = desk.pin(front, shard, steps)?;
        versions.push(version)?;
    }
    Ok(versions)
}
