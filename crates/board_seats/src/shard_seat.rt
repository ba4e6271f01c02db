//! What a seat does at a shard of the board: it claims that shard's word alone, and never the journal's.

ghost use Rattle.std.specs.Prelude.{◌≡◌, ◌+◌, ◌-◌, ◌≤◌, suc, get_or, IfErr, IfOk, is_err};
ghost use Rattle.part_layout.specs.Text.{layout_text};
ghost use Rattle.commit_journal.specs.Fronts.{position_of};
ghost use Rattle.versioned_shard.specs.Shards.{contents_at};
ghost use Rattle.board_seats.specs.ShardCalls.{CameTo, IsGivenAt, IsMadeApart, PutsLayout};
ghost use Rattle.board_seats.specs.Told.{TakesShard};
ghost use Rattle.board_seats.specs.Views.{AmongFronts};
ghost use Rattle.board_seats.specs.Visits.{HasShard, IsFree, VisitedShard};

use crate::rule::{ClaimsShard, LeavesShard, Place, Seen};
use crate::shard_cell::{pin_in, swap_in, text_in};
use commit_journal::Front;
use part_layout::LayoutText;
use read_meter::{NoMemory, Steps};
use shard_version::{Prepared, Version};
use std::sync::{Arc, Wait};
use std::thread;
use versioned_shard::{Moved, shards_keep_the_rule};

// Takes a shard, once it is at home. The answer is its place in the table.
fn claim_shard<const W: usize, R: Wait>(
    rt: &R,
    place: &Place<W>,
    me: &mut Seen<W>,
    shard: u32,
) -> usize
    requires place { me.old.table_id ≡ place.now.table_id }
    requires table { HasShard place.now.table_id shard }
    requires free { IsFree me.old.me }
    ensures table { me.new.table_id ≡ me.old.table_id }
    ensures seat { me.new.id ≡ me.old.id }
    ensures word { result ≡ suc shard }
    ensures taken { TakesShard (suc shard) me.old.me me.new.me }
{
    let word = shard as usize + 1;
    for _ in rt.forever() {
        let found = place.compare_exchange::<ClaimsShard>(me, word, 0, 1);
        if found == 0 {
            return word;
        }
        thread::yield_now();
    }
    unreachable!()
}

/// The version of a shard at a front of this seat. The shard comes to the front where it is behind, for one step an entry.
///
/// # Errors
///
/// `NoMemory` where there is none for the versions; the shard may have come to the front.
pub fn pin<const W: usize, R: Wait, M>(
    rt: &R,
    place: &Place<W>,
    me: &mut Seen<W>,
    front: &Front<W>,
    shard: u32,
    steps: &mut Steps<M>,
) -> Result<Arc<Version<W>>, NoMemory>
    requires place { me.old.table_id ≡ place.now.table_id }
    requires table { HasShard place.now.table_id shard }
    requires free { IsFree me.old.me }
    requires own { AmongFronts me.old.me.0.fronts front.now }
    ensures table { me.new.table_id ≡ me.old.table_id }
    ensures pinned { (visit : VisitedShard shard me.old.me me.new.me)
        × CameTo front.now visit.old visit.new
        × IfOk result (λ version. (position_of front.now ≤ visit.new.current.at)
        × IsGivenAt visit.config visit.journal shard (position_of front.now) (contents_at version)) }
    ensures upkeep { steps.new ≤ steps.old +
        (position_of front.now - get_or me.old.me.0.left shard 0) }
{
    shards_keep_the_rule();
    let _position = front.position();
    let word = claim_shard(rt, place, me, shard);
    let version = pin_in(me.slot_mut(place, word), front, steps);
    place.store::<LeavesShard>(me, word, 0);
    version
}

/// The text of the layout in which a shard stands.
pub fn layout_of<const W: usize, R: Wait>(
    rt: &R,
    place: &Place<W>,
    me: &mut Seen<W>,
    shard: u32,
) -> LayoutText
    requires place { me.old.table_id ≡ place.now.table_id }
    requires table { HasShard place.now.table_id shard }
    requires free { IsFree me.old.me }
    ensures table { me.new.table_id ≡ me.old.table_id }
    ensures told { (visit : VisitedShard shard me.old.me me.new.me) × (visit.new ≡ visit.old)
        × (result ≡ layout_text visit.new.current.layout.parts) }
{
    let word = claim_shard(rt, place, me, shard);
    let text = text_in(me.slot_mut(place, word));
    place.store::<LeavesShard>(me, word, 0);
    text
}

/// Puts a version that was made apart in the place of a shard's present one, which it stands at one position with.
///
/// # Errors
///
/// `Moved` exactly where the positions differ, with that of the shard; the shard is as before, and the version handed back.
pub fn swap<const W: usize, R: Wait>(
    rt: &R,
    place: &Place<W>,
    me: &mut Seen<W>,
    shard: u32,
    prepared: Prepared<W>,
) -> Result<(), Moved<W>>
    requires place { me.old.table_id ≡ place.now.table_id }
    requires table { HasShard place.now.table_id shard }
    requires free { IsFree me.old.me }
    requires made { IsMadeApart me.old.me.0 shard (contents_at prepared.version) }
    ensures table { me.new.table_id ≡ me.old.table_id }
    ensures swapped { (visit : VisitedShard shard me.old.me me.new.me)
        × PutsLayout visit.old visit.new (contents_at prepared.entry.version) (is_err result)
        × IfErr result (λ moved. moved.shard_at ≡ visit.new.current.at) }
    ensures back { IfErr result (λ moved. moved.prepared ≡ prepared.entry) }
{
    shards_keep_the_rule();
    let word = claim_shard(rt, place, me, shard);
    let swapped = swap_in(me.slot_mut(place, word), prepared);
    place.store::<LeavesShard>(me, word, 0);
    swapped
}
