//! What is done to a shard in its slot.

ghost use Rattle.std.specs.Prelude.{◌≡◌, ◌+◌, ◌-◌, ◌<◌, ◌≤◌, IfErr, IfOk, OnOk, is_err};
ghost use Rattle.hamming_model.specs.Recoded.{AreStoredEntries};
ghost use Rattle.part_layout.specs.Laid.{IsLaid};
ghost use Rattle.part_layout.specs.Text.{layout_text};
ghost use Rattle.shard_version.specs.Contents.{IsVersion};
ghost use Rattle.commit_journal.specs.Fronts.{position_of};
ghost use Rattle.versioned_shard.specs.Along.{Follows};
ghost use Rattle.versioned_shard.specs.Shards.{HasVersion, IsOneOf, MayStandIn, advanced, contents_at};
ghost use Rattle.board_seats.specs.ShardCalls.{CameTo, PutsLayout};
ghost use Rattle.board_seats.specs.Told.{shard_in};

use crate::rule::Cell;
use commit_journal::Front;
use part_layout::LayoutText;
use read_meter::{NoMemory, Steps};
use shard_version::{Prepared, Version};
use std::sync::Arc;
use versioned_shard::Moved;

// Comes to a front, and gives the version there.
pub(crate) fn pin_in<const W: usize, M>(
    cell: &mut Cell<W>,
    front: &Front<W>,
    steps: &mut Steps<M>,
) -> Result<Arc<Version<W>>, NoMemory>
    requires cell { cell.old ≡ Cell.Shard (shard_in cell.old) }
    requires follows { (shard_in cell.old).current.at < position_of front.now →
        Follows front.now.entries (shard_in cell.old).current }
    requires codes { AreStoredEntries W (shard_in cell.old).current.layout.bits front.now.entries }
    requires has { HasVersion (advanced front.now (shard_in cell.old)) (position_of front.now) }
    ensures cell { cell.new ≡ Cell.Shard (shard_in cell.new) }
    ensures came { CameTo front.now (shard_in cell.old) (shard_in cell.new) }
    ensures reached { OnOk result (shard_in cell.new ≡ advanced front.now (shard_in cell.old)) }
    ensures given { IfOk result (λ version.
        IsOneOf (shard_in cell.new) (position_of front.now) (contents_at version)) }
    ensures sound { IfOk result (λ version. IsVersion (contents_at version)) }
    ensures upkeep { steps.new ≤ steps.old +
        (position_of front.now - (shard_in cell.old).current.at) }
{
    match cell {
        Cell::Shard(shard) => {
            shard.advance(front, steps)?;
            let version = shard.version_for(front)?;
            let _at = version.at();
            Ok(version)
        }
        _ => unreachable!(),
    }
}

// The text of a shard's layout.
pub(crate) fn text_in<const W: usize>(cell: &mut Cell<W>) -> LayoutText
    requires { cell.old ≡ Cell.Shard (shard_in cell.old) }
    ensures cell { cell.new ≡ cell.old }
    ensures text { result ≡ layout_text (shard_in cell.old).current.layout.parts }
{
    match cell {
        Cell::Shard(shard) => shard.current().layout().text(),
        _ => unreachable!(),
    }
}

// Takes a version that was made apart, where both stand at one position.
pub(crate) fn swap_in<const W: usize>(
    cell: &mut Cell<W>,
    prepared: Prepared<W>,
) -> Result<(), Moved<W>>
    requires cell { cell.old ≡ Cell.Shard (shard_in cell.old) }
    requires may { MayStandIn (shard_in cell.old) (contents_at prepared.version) }
    ensures cell { cell.new ≡ Cell.Shard (shard_in cell.new) }
    ensures laid { IsLaid (contents_at prepared.entry.version).layout }
    ensures swapped { PutsLayout (shard_in cell.old) (shard_in cell.new)
        (contents_at prepared.entry.version) (is_err result) }
    ensures at { IfErr result (λ moved. moved.shard_at ≡ (shard_in cell.old).current.at) }
    ensures back { IfErr result (λ moved. moved.prepared ≡ prepared.entry) }
{
    match cell {
        Cell::Shard(shard) => {
            let _at = prepared.version.at();
            shard.swap(prepared)
        }
        _ => unreachable!(),
    }
}
