//! Shards that get the layout of their builds.

ghost use Rattle.std.specs.Prelude.{◌≡◌};
ghost use Rattle.world_parts.specs.Swaps.{MayBeSwapped, TakesLayoutAs};

use crate::place::Place;
use repartitioner::Unready;
use world_model::{Refused, Told};

/// Gives a shard the layout of its build, where both stand at one position, and tells which. The build is gone then. Whether they do is
/// judged before any memory is taken.
///
/// # Errors
///
/// `NoBuild`, `Unready` or `Moved`, the first that holds. Else `NoMemory` where there is none for the version. Nothing changed then.
pub fn swap_in<const W: usize>(place: &mut Place<W>) -> Result<Told, Refused>
    requires { MayBeSwapped place.old }
    ensures { TakesLayoutAs place.old place.new result }
{
    let shard_at = place.shard.at();
    let Some(build) = place.build.take() else {
        return Err(Refused::NoBuild);
    };
    let left = build.left();
    if left > 0 {
        place.build = Some(build);
        return Err(Refused::Unready { left });
    }
    if build.at() != shard_at {
        place.build = Some(build);
        return Err(Refused::Moved { shard_at });
    }
    match build.finish() {
        Ok(prepared) => {
            let Ok(()) = place.shard.swap(prepared) else {
                unreachable!()
            };
            Ok(Told::Swapped { at: shard_at })
        }
        Err(Unready::Left { build, .. } | Unready::NoMemory { build }) => {
            place.build = Some(build);
            Err(Refused::NoMemory)
        }
    }
}
