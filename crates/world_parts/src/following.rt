//! Builds that follow the history.

ghost use Rattle.std.specs.Prelude.{◌≡◌, ◌+◌, ◌-◌, ◌≤◌, length, option_map, IfOk, IfSome, OnErr, OnOk};
ghost use Rattle.versioned_shard.specs.Along.{version_at};
ghost use Rattle.repartitioner.specs.Builds.{placed_all};
ghost use Rattle.world_parts.specs.Builds.{FollowsAs, MayFollow, entries_of_build};
ghost use Rattle.world_parts.specs.Seen.{build_seen};

use crate::place::Place;
use commit_journal::Journal;
use read_meter::{NoMemory, Steps};
use repartitioner::Build;
use world_model::{Refused, Told};

/// Brings the build of a shard to the end of the history, for one step an entry, and tells how many there are.
///
/// # Errors
///
/// `NoBuild` where none goes on, or `Unready` where rows of it are left. Else `NoMemory` where there is none for the version. Nothing changed
/// then.
pub fn follow_history<const W: usize, M>(
    journal: &mut Journal<W>,
    place: &mut Place<W>,
    steps: &mut Steps<M>,
) -> Result<Told, Refused>
    requires may { IfSome place.old.build (MayFollow W journal.old.history) }
    ensures journal { journal.new ≡ journal.old }
    ensures follows { FollowsAs journal.old.history place.old place.new result }
    ensures bound { steps.new ≤ steps.old + entries_of_build (length journal.old.history)
        (option_map build_seen place.old.build) }
{
    let Some(build) = &mut place.build else {
        return Err(Refused::NoBuild);
    };
    let left = build.left();
    if left > 0 {
        return Err(Refused::Unready { left });
    }
    let Ok(at) = come_to_end(journal, build, steps) else {
        return Err(Refused::NoMemory);
    };
    Ok(Told::Followed { at })
}

// Brings a build to the end of the history, by a front that is closed at once, and tells how many entries there are.
fn come_to_end<const W: usize, M>(
    journal: &mut Journal<W>,
    build: &mut Build<W>,
    steps: &mut Steps<M>,
) -> Result<u64, NoMemory>
    requires placed { build.old.left ≡ 0 }
    requires may { MayFollow W journal.old.history build.old }
    ensures journal { journal.new ≡ journal.old }
    ensures at { IfOk result (λ at. at ≡ length journal.old.history) }
    ensures came { OnOk result (build.new ≡ placed_all
        (version_at journal.old.history build.old.contents (length journal.old.history))) }
    ensures unchanged { OnErr result (build.new ≡ build.old) }
    ensures bound { steps.new ≤ steps.old
        + (length journal.old.history - build.old.contents.at) }
{
    let front = journal.open_front(0)?;
    let at = front.position();
    let followed = build.follow(&front, steps);
    journal.close_front(front);
    followed?;
    Ok(at)
}
