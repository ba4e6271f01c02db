//! Swapping a build in.

ghost use Rattle.std.specs.Prelude.{◌≡◌, ◌+◌, ◌-◌, ◌≤◌, ◌↔◌, length, true, OnOk};
ghost use Rattle.commit_journal.specs.Fronts.{position_of};
ghost use Rattle.session_desk.specs.Calls.{KeepsKnown};
ghost use Rattle.session_desk.specs.Desks.{IsDesk, IsOwnFront, pinned_at};
ghost use Rattle.query_opening.specs.Pinning.{ComesOn};
ghost use Rattle.shard_rebuild.specs.Fronting.{MeetsAt, SwapsAs};
ghost use Rattle.shard_rebuild.specs.ShardBuilds.{IsBuildOf, KeepsOtherPins};
ghost use Rattle.shard_rebuild.specs.Swapping.{BuildGoesOn, FindsMoved, LacksMemory, SwapsIn};
ghost use Rattle.shard_rebuild.specs.Swapping.{IfMoved, IfNoMemory, IfSwapped, front_in};

use crate::answer::SwapAnswer;
use crate::laws::builds_stay_with_their_shard;
use commit_journal::Front;
use read_meter::{NoMemory, Steps};
use repartitioner::{Build, Unready, builds_follow_the_history};
use session_desk::Desk;
use std::alloc::Global;

/// Swaps in a build of a shard with nothing left to place: the build follows to a front of its own, where the shard is pinned too, the
/// front is closed, and the desk swaps once. Where the shard was beyond the front, or there was no memory, the build goes on.
///
/// One step for each entry that the build follows, beside those that bring the shard to the front.
pub fn swap_build<const W: usize, D: Desk<W>, M>(
    alloc: Global,
    desk: &mut D,
    shard: u32,
    build: Build<W>,
    steps: &mut Steps<M>,
) -> SwapAnswer<W>
    requires of_shard { IsBuildOf (D.desk desk.old) shard build }
    requires placed { build.left ≡ 0 }
    // The answers.
    ensures swapped { IfSwapped result (λ at.
        SwapsIn (D.desk desk.old) (D.desk desk.new) shard build.entry at) }
    ensures moved { IfMoved result (λ front shard_at back.
        FindsMoved (D.desk desk.old) (D.desk desk.new) shard build.entry front shard_at back) }
    ensures no_memory { IfNoMemory result (λ back.
        LacksMemory (D.desk desk.old) (D.desk desk.new) shard build.entry back) }
    ensures alone { (D.desk desk.old).alone ≡ true → IfMoved result (λ front shard_at back. ⊥) }
    // In any case.
    ensures others { KeepsOtherPins (D.desk desk.old) (D.desk desk.new) shard }
    ensures known { KeepsKnown (D.desk desk.new) (D.knows desk.old) (D.knows desk.new) }
    ensures desk { IsDesk W (D.desk desk.new) }
    ensures upkeep { steps.new ≤ steps.old
        + (front_in result (length (D.desk desk.new).seen) - pinned_at (D.desk desk.old) shard)
        + (front_in result (length (D.desk desk.new).seen) - build.entry.contents.at) }
{
    let _before = desk.who();
    let Ok(front) = desk.open_front() else {
        let _after = desk.who();
        return SwapAnswer::NoMemory { build };
    };
    let position = front.position();
    let mut build = build;
    let came = follow_to(desk, &front, shard, &mut build, steps);
    desk.close_front(front);
    let _closed = desk.who();
    let Ok(()) = came else {
        return SwapAnswer::NoMemory { build };
    };
    let answer = finish_and_swap(alloc, desk, shard, build, position);
    let _after = desk.who();
    answer
}

// Brings a build and its shard to a front.
fn follow_to<const W: usize, D: Desk<W>, M>(
    desk: &mut D,
    front: &Front<W>,
    shard: u32,
    build: &mut Build<W>,
    steps: &mut Steps<M>,
) -> Result<(), NoMemory>
    requires own { IsOwnFront (D.desk desk.old) front.now }
    requires knows { D.knows desk.old front.now }
    requires entries { front.now.entries ≡ (D.desk desk.old).seen }
    requires of_shard { IsBuildOf (D.desk desk.old) shard build.old }
    requires placed { build.old.left ≡ 0 }
    ensures meets { OnOk result
        (MeetsAt (D.desk desk.new) (position_of front.now) shard build.new) }
    ensures goes_on { BuildGoesOn (D.desk desk.new) shard build.old build.new }
    ensures comes { ComesOn (D.desk desk.old) (D.desk desk.new) }
    ensures others { KeepsOtherPins (D.desk desk.old) (D.desk desk.new) shard }
    ensures last { (D.desk desk.new).last ≡ (D.desk desk.old).last }
    ensures own { IsOwnFront (D.desk desk.new) front.now }
    ensures knows { D.knows desk.new front.now }
    ensures known { KeepsKnown (D.desk desk.new) (D.knows desk.old) (D.knows desk.new) }
    ensures upkeep { steps.new ≤ steps.old
        + (position_of front.now - pinned_at (D.desk desk.old) shard)
        + (position_of front.now - build.old.contents.at) }
{
    builds_follow_the_history();
    builds_stay_with_their_shard();
    let _shards = desk.shards();
    let Ok(()) = build.follow(front, steps) else {
        return Err(NoMemory);
    };
    let _at = build.at();
    let _version = desk.pin(front, shard, steps)?;
    Ok(())
}

// Finishes a build that came to a front, and swaps it in.
fn finish_and_swap<const W: usize, D: Desk<W>>(
    alloc: Global,
    desk: &mut D,
    shard: u32,
    build: Build<W>,
    position: u64,
) -> SwapAnswer<W>
    requires of_shard { IsBuildOf (D.desk desk.old) shard build }
    requires placed { build.left ≡ 0 }
    ensures swaps { SwapsAs (D.desk desk.old) (D.desk desk.new) shard build.entry position result }
    ensures known { KeepsKnown (D.desk desk.new) (D.knows desk.old) (D.knows desk.new) }
{
    let _shards = desk.shards();
    let prepared = match build.finish() {
        Ok(prepared) => prepared,
        Err(Unready::NoMemory { build }) => return SwapAnswer::NoMemory { build },
        Err(Unready::Left { left: _, build: _ }) => unreachable!(),
    };
    let Err(moved) = desk.swap(shard, prepared) else {
        return SwapAnswer::Swapped { at: position };
    };
    SwapAnswer::Moved {
        front: position,
        shard_at: moved.shard_at,
        build: Build::resume(alloc, moved.prepared),
    }
}
