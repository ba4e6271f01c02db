//! One turn of the repartition worker.

ghost use Rattle.std.specs.Prelude.{◌≡◌, ◌+◌, ◌*◌, ◌≤◌, true, length};
ghost use Rattle.session_desk.specs.Calls.{KeepsKnown};
ghost use Rattle.session_desk.specs.Desks.{IsDesk};
ghost use Rattle.shard_tending.specs.Outcomes.{turns_in};
ghost use Rattle.shard_tending.specs.Tending.{IsCountRise, KeepsOwnDesk, TendsAlone};

use crate::tended::Tended;
use crate::turning::tend_shard;
use exchange_model::rounds_never_cost_more;
use read_meter::Steps;
use session_desk::Desk;
use std::alloc::Global;

/// Goes through the shards in order. On each it pins the shard at a front of its own, searches a layout that is cheaper for the codes of
/// the 16 rows of least key with the radius 4, in at most 8 rounds, and where there is one builds it, 256 rows at a time, follows to a
/// front of its own, and swaps once. Where another desk had brought the shard beyond that front the build is dropped. Where there is
/// no memory the shard's layout stays, and the turn goes on with the next shard.
pub fn tend<const W: usize, D: Desk<W>, M>(
    alloc: Global,
    desk: &mut D,
    upkeep: &mut Steps<M>,
) -> Tended
    // The desk stays as it was, but for what it saw of others, its shards and its counts of swaps.
    ensures keeps { KeepsOwnDesk (D.desk desk.old) (D.desk desk.new) }
    ensures known { KeepsKnown (D.desk desk.new) (D.knows desk.old) (D.knows desk.new) }
    ensures desk { IsDesk W (D.desk desk.new) }
    // The counts.
    ensures few { turns_in result ≤ (D.desk desk.old).config.shards }
    ensures swapped { IsCountRise (D.desk desk.old).done result.swapped (D.desk desk.new).done }
    ensures moved { IsCountRise (D.desk desk.old).late result.moved (D.desk desk.new).late }
    // The layouts over a desk that is alone.
    ensures alone { (D.desk desk.old).alone ≡ true →
        TendsAlone (D.desk desk.old) (D.desk desk.new) result (D.desk desk.old).config.shards }
    // The steps.
    ensures bound { upkeep.new ≤ upkeep.old
        + (D.desk desk.old).config.shards * (80 + 3 * length (D.desk desk.new).seen) }
{
    rounds_never_cost_more();
    let mut tended = Tended {
        swapped: 0,
        moved: 0,
        nomem: 0,
    };
    let shards = desk.shards();
    for shard in 0..shards {
        tended = tended.with(tend_shard(alloc, desk, shard, upkeep));
    }
    let _after = desk.who();
    tended
}
