//! The journal and the shards with which a board begins.

ghost use Rattle.std.specs.Arc.{arc_value};
ghost use Rattle.std.specs.Prelude.{◌≡◌, ◌*◌, ◌<◌, ◌≤◌, IfOk};
ghost use Rattle.hamming_model.specs.declared.limits.TheConstants.{SESSIONS_MOST, WORDS_MOST};
ghost use Rattle.part_layout.specs.Laid.{IsLaid};
ghost use Rattle.part_layout.specs.Ranges.{IsConfig};
ghost use Rattle.commit_journal.specs.Journals.{IsJournal};
ghost use Rattle.session_desk.specs.Desks.{starting_layout};
ghost use Rattle.session_desk.specs.Solos.{first_shard_of};
ghost use Rattle.shared_board.specs.Boards.{opened_journal};

use board_seats::Opening;
use commit_journal::Journal;
use part_layout::{Config, Layout};
use read_meter::NoMemory;
use shard_version::Version;
use std::alloc::Global;
use std::sync::Arc;
use versioned_shard::Shard;

// A journal with no entry, where the number of the first desk is drawn.
pub(crate) fn first_journal<const W: usize>(
    alloc: Global,
    opening: &Opening,
) -> Result<Journal<W>, NoMemory>
    requires config { IsConfig opening.now.config }
    requires few_words { W ≤ WORDS_MOST }
    requires number { opening.now.number < SESSIONS_MOST }
    ensures journal { IfOk result (λ journal. journal ≡ opened_journal opening.now) }
    ensures sound { IfOk result (λ journal. IsJournal journal) }
{
    let journal = Journal::numbered_from(alloc, opening.config.entries, opening.number + 1)?;
    let _sound = journal.length();
    Ok(journal)
}

// The layout in which each shard starts.
pub(crate) fn first_layout(alloc: Global, config: &Config) -> Result<Arc<Layout>, NoMemory>
    requires config { IsConfig config.now }
    ensures layout { IfOk result (λ layout. arc_value layout ≡ starting_layout config.now) }
    ensures laid { IfOk result (λ layout. IsLaid (arc_value layout)) }
{
    let Ok(layout) = Layout::contiguous(alloc, config.bits, config.parts) else {
        return Err(NoMemory);
    };
    let _parts = layout.parts();
    let shared = Arc::new(alloc, layout)?;
    Ok(shared)
}

// A shard before the first entry.
pub(crate) fn first_shard<const W: usize>(
    alloc: Global,
    config: &Config,
    shard: u32,
    layout: &Arc<Layout>,
) -> Result<Shard<W>, NoMemory>
    requires few_words { W ≤ WORDS_MOST }
    requires room { config.now.bits ≤ 64 * W }
    requires config { IsConfig config.now }
    requires own { shard < config.now.shards }
    requires layout { arc_value layout.now ≡ starting_layout config.now }
    ensures { IfOk result (λ first. first ≡ first_shard_of config.now shard) }
{
    let own = layout.clone()?;
    let version = Version::empty(alloc, shard, config.shards, own)?;
    Shard::new(alloc, version)
}
