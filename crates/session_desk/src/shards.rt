//! What a desk that is alone does with its shards.

ghost use Rattle.std.specs.Arc.{arc_value};
ghost use Rattle.std.specs.Prelude.{◌≡◌, ◌≢◌, ◌↔◌, ◌*◌, ◌+◌, ◌-◌, ◌<◌, ◌≤◌, [], max, IfErr, IfOk, IsErr, OnErr, OnOk};
ghost use Rattle.hamming_model.specs.Recoded.{AreStoredEntries};
ghost use Rattle.hamming_model.specs.declared.limits.TheConstants.{WORDS_MOST};
ghost use Rattle.part_layout.specs.Laid.{IsLaid};
ghost use Rattle.part_layout.specs.Ranges.{IsConfig};
ghost use Rattle.part_layout.specs.Text.{layout_text};
ghost use Rattle.shard_version.specs.Contents.{empty_of};
ghost use Rattle.commit_journal.specs.Fronts.{position_of};
ghost use Rattle.commit_journal.specs.Journals.{IsLive, KnowsFront};
ghost use Rattle.versioned_shard.specs.Along.{Follows};
ghost use Rattle.versioned_shard.specs.Rule.{KeepsJournalRule};
ghost use Rattle.versioned_shard.specs.Shards.{contents_at, shard_with, with_layout};
ghost use Rattle.session_desk.specs.Desks.{starting_layout};
ghost use Rattle.session_desk.specs.Solos.{ComesTo, GivesVersion, IsSwapped};

use commit_journal::{Front, Journal, live_fronts_come_and_go};
use part_layout::{Config, Layout, LayoutText};
use read_meter::{NoMemory, Steps};
use shard_version::{Prepared, Version};
use std::alloc::Global;
use std::sync::Arc;
use versioned_shard::{Moved, Shard, shards_keep_the_rule};

// The layout in which each shard starts.
pub fn first_layout(alloc: Global, config: &Config) -> Result<Arc<Layout>, NoMemory>
    requires config { IsConfig config.now }
    ensures layout { IfOk result (λ layout. arc_value layout ≡ starting_layout config.now) }
    ensures laid { IfOk result (λ layout. IsLaid (arc_value layout)) }
{
    let Ok(layout) = Layout::contiguous(alloc, config.bits, config.parts) else {
        return Err(NoMemory);
    };
    let _parts = layout.parts();
    let shared = Arc::new(alloc, layout)?;
    Ok(shared)
}

// A shard before the first entry.
pub fn first_shard<const W: usize>(
    alloc: Global,
    config: &Config,
    shard: u32,
    layout: &Arc<Layout>,
) -> Result<Shard<W>, NoMemory>
    requires few_words { W ≤ WORDS_MOST }
    requires room { (arc_value layout.now).bits ≤ 64 * W }
    requires config { IsConfig config.now }
    requires own { shard < config.now.shards }
    ensures { IfOk result (λ first. first ≡ shard_with
        (empty_of shard config.now.shards (arc_value layout.now)) []) }
{
    let own = layout.clone()?;
    let version = Version::empty(alloc, shard, config.shards, own)?;
    Shard::new(alloc, version)
}

// Brings a shard to a live front, and gives its version there.
pub fn pin_shard<const W: usize, M>(
    journal: &Journal<W>,
    shard: &mut Shard<W>,
    front: &Front<W>,
    steps: &mut Steps<M>,
) -> Result<Arc<Version<W>>, NoMemory>
    requires rule { KeepsJournalRule journal.now shard.old }
    requires codes { AreStoredEntries W shard.old.current.layout.bits journal.now.history }
    requires live { IsLive journal.now front.now }
    requires known { KnowsFront journal.now front.now }
    ensures comes { ComesTo journal.now (position_of front.now) shard.old shard.new }
    ensures reached { OnOk result (shard.new.current.at ≡ max shard.old.current.at
        (position_of front.now)) }
    ensures gives { IfOk result (λ version.
        GivesVersion journal.now.history (position_of front.now) shard.new (contents_at version)) }
    ensures upkeep { steps.new ≤ steps.old + (position_of front.now - shard.old.current.at) }
{
    live_fronts_come_and_go();
    shards_keep_the_rule();
    let _position = front.position();
    shard.advance(front, steps)?;
    let version = shard.version_for(front)?;
    let _at = version.at();
    Ok(version)
}

// The text of a version's layout.
pub fn text_of<const W: usize>(version: &Arc<Version<W>>) -> LayoutText
    ensures { result ≡ layout_text (contents_at version.now).layout.parts }
{
    version.layout().text()
}

// Takes a version that was made apart in place of a shard's present one, where both stand at one position.
pub fn swap_shard<const W: usize>(
    journal: &Journal<W>,
    shard: &mut Shard<W>,
    prepared: Prepared<W>,
) -> Result<(), Moved<W>>
    requires rule { KeepsJournalRule journal.now shard.old }
    requires shard_is { (contents_at prepared.version).shard ≡ shard.old.current.shard }
    requires shards_are { (contents_at prepared.version).shards ≡ shard.old.current.shards }
    requires bits_are { (contents_at prepared.version).layout.bits ≡ shard.old.current.layout.bits }
    requires follows { Follows journal.now.history (contents_at prepared.version) }
    ensures keeps { IsSwapped journal.now shard.old shard.new }
    ensures swapped { OnOk result (shard.new ≡ with_layout shard.old
        (contents_at prepared.entry.version).layout) }
    ensures moved { IsErr result ↔ ((contents_at prepared.entry.version).at ≢
        shard.old.current.at) }
    ensures at { IfErr result (λ moved. moved.shard_at ≡ shard.old.current.at) }
    ensures back { IfErr result (λ moved. moved.prepared ≡ prepared.entry) }
    ensures unchanged { OnErr result (shard.new ≡ shard.old) }
{
    shards_keep_the_rule();
    let _at = prepared.version.at();
    shard.swap(prepared)
}
