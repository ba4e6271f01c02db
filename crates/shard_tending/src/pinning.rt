//! A shard is pinned at a front of its own.

ghost use Rattle.std.specs.Prelude.{◌≡◌, ◌+◌, ◌-◌, ◌<◌, ◌≤◌, length, IfOk};
ghost use Rattle.commit_journal.specs.Fronts.{position_of};
ghost use Rattle.versioned_shard.specs.Shards.{contents_at};
ghost use Rattle.session_desk.specs.Calls.{KeepsKnown};
ghost use Rattle.session_desk.specs.Desks.{IsDesk, IsOwnFront, pinned_at};
ghost use Rattle.query_opening.specs.Pinning.{ComesOn, IsPinnedShard};
ghost use Rattle.shard_tending.specs.Turns.{PinsShard};

use commit_journal::Front;
use read_meter::{NoMemory, Steps};
use session_desk::Desk;
use shard_version::Version;
use std::sync::Arc;

// The version of a shard at a front of its own, which is closed.
pub(crate) fn pin_shard<const W: usize, D: Desk<W>, M>(
    desk: &mut D,
    shard: u32,
    upkeep: &mut Steps<M>,
) -> Result<Arc<Version<W>>, NoMemory>
    requires shard { shard < (D.desk desk.old).config.shards }
    ensures pinned { IfOk result (λ version.
        PinsShard (D.desk desk.old) (D.desk desk.new) shard (contents_at version)) }
    ensures comes { ComesOn (D.desk desk.old) (D.desk desk.new) }
    ensures known { KeepsKnown (D.desk desk.new) (D.knows desk.old) (D.knows desk.new) }
    ensures desk { IsDesk W (D.desk desk.new) }
    ensures upkeep { IfOk result (λ version.
        upkeep.new ≤ upkeep.old + (contents_at version).at) }
    ensures bound { upkeep.new ≤ upkeep.old + length (D.desk desk.new).seen }
{
    let Ok(front) = desk.open_front() else {
        let _after = desk.who();
        return Err(NoMemory);
    };
    let version = pin_at(desk, &front, shard, upkeep);
    desk.close_front(front);
    let _after = desk.who();
    version
}

// The version of a shard at a front.
fn pin_at<const W: usize, D: Desk<W>, M>(
    desk: &mut D,
    front: &Front<W>,
    shard: u32,
    upkeep: &mut Steps<M>,
) -> Result<Arc<Version<W>>, NoMemory>
    requires own { IsOwnFront (D.desk desk.old) front.now }
    requires knows { D.knows desk.old front.now }
    requires whole { position_of front.now ≡ length (D.desk desk.old).seen }
    requires shard { shard < (D.desk desk.old).config.shards }
    ensures pinned { IfOk result (λ version. IsPinnedShard (D.desk desk.old) (D.desk desk.new)
        (position_of front.now) shard (contents_at version)) }
    ensures comes { ComesOn (D.desk desk.old) (D.desk desk.new) }
    ensures own { IsOwnFront (D.desk desk.new) front.now }
    ensures knows { D.knows desk.new front.now }
    ensures known { KeepsKnown (D.desk desk.new) (D.knows desk.old) (D.knows desk.new) }
    ensures bound { upkeep.new ≤ upkeep.old
        + (position_of front.now - pinned_at (D.desk desk.old) shard) }
{
    let _shards = desk.shards();
    let version = desk.pin(front, shard, upkeep)?;
    Ok(version)
}
