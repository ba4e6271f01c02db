//! Starting a build.

ghost use Rattle.std.specs.Prelude.{◌≡◌, ◌+◌, ◌-◌, ◌<◌, ◌≤◌, length, IfOk, OnErr};
ghost use Rattle.std.specs.Arc.{arc_value};
ghost use Rattle.part_layout.specs.Laid.{IsLaid};
ghost use Rattle.commit_journal.specs.Fronts.{position_of};
ghost use Rattle.session_desk.specs.Calls.{KeepsKnown};
ghost use Rattle.session_desk.specs.Desks.{IsDesk, IsOwnFront, pinned_at};
ghost use Rattle.query_opening.specs.Pinning.{ComesOn};
ghost use Rattle.shard_rebuild.specs.ShardBuilds.{BeginsBuild, IsBuildOf, KeepsOtherPins};
ghost use Rattle.shard_rebuild.specs.Fronting.{BeginsAt};

use commit_journal::Front;
use part_layout::Layout;
use read_meter::{NoMemory, Steps};
use repartitioner::Build;
use session_desk::Desk;
use shard_version::versions_follow_the_history;
use std::alloc::Global;
use std::sync::Arc;

/// Starts a build of a shard in another layout, from the version at a front of its own, which it closes. One step for each row, beside
/// those that bring the shard to the front.
///
/// # Errors
///
/// `NoMemory` where there is none for the front, the version or the build. The shard may have come on.
pub fn start_build<const W: usize, D: Desk<W>, M>(
    alloc: Global,
    desk: &mut D,
    shard: u32,
    layout: Arc<Layout>,
    steps: &mut Steps<M>,
) -> Result<Build<W>, NoMemory>
    requires shard { shard < (D.desk desk.old).config.shards }
    requires laid { IsLaid (arc_value layout) }
    requires bits { (arc_value layout).bits ≡ (D.desk desk.old).config.bits }
    // The build is the shard's, and has all rows of its position left.
    ensures started { IfOk result (λ build. BeginsBuild (D.desk desk.old) (D.desk desk.new)
        shard (arc_value layout) build) }
    ensures build { IfOk result (λ build. IsBuildOf (D.desk desk.new) shard build) }
    // In any case the desk is as before but for what it saw and how far the shard came.
    ensures comes { ComesOn (D.desk desk.old) (D.desk desk.new) }
    ensures others { KeepsOtherPins (D.desk desk.old) (D.desk desk.new) shard }
    ensures known { KeepsKnown (D.desk desk.new) (D.knows desk.old) (D.knows desk.new) }
    ensures desk { IsDesk W (D.desk desk.new) }
    // The steps.
    ensures upkeep { IfOk result (λ build. steps.new ≤ steps.old
        + (build.contents.at - pinned_at (D.desk desk.old) shard) + build.left) }
    ensures bound { steps.new ≤ steps.old
        + (length (D.desk desk.new).seen - pinned_at (D.desk desk.old) shard)
        + length (D.desk desk.new).seen }
{
    let _before = desk.who();
    let Ok(front) = desk.open_front() else {
        let _after = desk.who();
        return Err(NoMemory);
    };
    let build = build_at(alloc, desk, &front, shard, layout, steps);
    desk.close_front(front);
    let _after = desk.who();
    build
}

// A build of a shard's version at a front.
fn build_at<const W: usize, D: Desk<W>, M>(
    alloc: Global,
    desk: &mut D,
    front: &Front<W>,
    shard: u32,
    layout: Arc<Layout>,
    steps: &mut Steps<M>,
) -> Result<Build<W>, NoMemory>
    requires own { IsOwnFront (D.desk desk.old) front.now }
    requires knows { D.knows desk.old front.now }
    requires whole { position_of front.now ≡ length (D.desk desk.old).seen }
    requires shard { shard < (D.desk desk.old).config.shards }
    requires laid { IsLaid (arc_value layout) }
    requires bits { (arc_value layout).bits ≡ (D.desk desk.old).config.bits }
    ensures begins { IfOk result (λ build. BeginsAt (D.desk desk.old) (D.desk desk.new)
        (position_of front.now) shard (arc_value layout) build) }
    ensures comes { ComesOn (D.desk desk.old) (D.desk desk.new) }
    ensures others { KeepsOtherPins (D.desk desk.old) (D.desk desk.new) shard }
    ensures last { (D.desk desk.new).last ≡ (D.desk desk.old).last }
    ensures own { IsOwnFront (D.desk desk.new) front.now }
    ensures knows { D.knows desk.new front.now }
    ensures known { KeepsKnown (D.desk desk.new) (D.knows desk.old) (D.knows desk.new) }
    ensures upkeep { IfOk result (λ build. steps.new ≤ steps.old
        + (position_of front.now - pinned_at (D.desk desk.old) shard) + build.left) }
    ensures bound { steps.new ≤ steps.old
        + (position_of front.now - pinned_at (D.desk desk.old) shard) + position_of front.now }
{
    let _shards = desk.shards();
    versions_follow_the_history();
    let version = desk.pin(front, shard, steps)?;
    let build = Build::start(alloc, &version, layout, steps)?;
    let _at = build.at();
    Ok(build)
}
