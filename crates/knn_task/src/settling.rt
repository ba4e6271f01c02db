//! Hits that are settled at the end of a ring.

ghost use Rattle.std.specs.Prelude.{◌+◌, ◌<◌, ◌≤◌, ◌==◌, length, if◌then◌else◌, IfSome};
ghost use Rattle.std.specs.Prelude.{◌≡◌};
ghost use Rattle.hit_source.specs.Sources.{radii_begun};
ghost use Rattle.ring_walk.specs.RingWalks.{IsRingPlace, new_of};
ghost use Rattle.shard_probe.specs.Probed.{KeepCodes};
ghost use Rattle.knn_task.specs.Near.{SettlesRing, with_new};

use crate::near_task::Mark;
use gph_codes::Code;
use hit_source::HitWindow;
use ring_walk::{NearPlan, RingWalk};

// How many radii there are up to one.
pub(crate) fn radii_up_to(given: Option<u32>, bits: u32) -> u32
    requires within { IfSome given (λ radius. radius ≤ bits) }
    requires few { bits ≤ 512 }
    ensures { result ≡ radii_begun given }
{
    match given {
        Some(radius) => radius + 1,
        None => 0,
    }
}

// Adds the hits that are new of a run of postings behind those that were found.
pub(crate) fn keep<const W: usize>(
    window: &mut HitWindow,
    plan: &NearPlan<W>,
    walk: &RingWalk,
    run: &[(u64, Code<W>)],
)
    requires place { IsRingPlace plan.now walk.now }
    requires stored { KeepCodes W plan.now.version run.now }
    requires room { length window.old.found + length (new_of plan.now walk.now.units run.now)
        ≤ window.old.capacity }
    ensures { window.new ≡ with_new window.old (new_of plan.now walk.now.units run.now) }
{
    for posting in run {
        if let Some(hit) = walk.new_hit(plan, posting.0, &posting.1) {
            window.push(hit);
        }
    }
}

// Settles the hits where nothing of the ring is left: all of them, where all rows were found.
pub(crate) fn settle_ring(
    window: &mut HitWindow,
    mark: Mark,
    left: u64,
    rows: u64,
    bits: u32,
    begun: u32,
) -> Mark
    requires ready { mark.ready ≤ length window.old.found }
    requires bits { bits ≤ 512 }
    ensures { SettlesRing (if length window.old.found == rows then bits + 1 else begun) left
        window.old window.new mark result }
{
    if left > 0 {
        return mark;
    }
    let units = if window.len() as u64 == rows {
        bits + 1
    } else {
        begun
    };
    let ready = window.settle(mark.ready, units);
    Mark {
        ready,
        settled: units,
    }
}
