//! The layout of a pin.

ghost use Rattle.std.specs.Prelude.{◌≡◌, IfOk, None, replicate};
ghost use Rattle.part_layout.specs.Text.{layout_text};
ghost use Rattle.versioned_shard.specs.Shards.{contents_at};

use part_layout::Layout;
use read_meter::NoMemory;
use shard_version::Version;
use std::alloc::Global;
use std::marker::Model;
use std::sync::Arc;

/// The layout of a version that was pinned, which is shared. Seen as its text.
#[derive(Drop)]
pub(crate) struct PinnedLayout {
    layout: Arc<Layout>,
}

impl Model for PinnedLayout {
    ghost use Rattle.std.specs.Prelude.{List, ℕ};
    ghost use Rattle.std.specs.Arc.{arc_value};
    ghost use Rattle.part_layout.specs.Text.{layout_text};

    ghost Value = { List ℕ };

    ghost view = { λ pinned. layout_text (arc_value pinned.layout).parts };
}

impl PinnedLayout {
    /// That of a version.
    pub(crate) fn of<const W: usize>(version: &Arc<Version<W>>) -> Result<PinnedLayout, NoMemory>
        ensures { IfOk result (λ pinned. pinned
            ≡ layout_text (contents_at version.now).layout.parts) }
    {
        let layout = version.layout().clone()?;
        Ok(PinnedLayout { layout })
    }
}

// A pin for each of so many shards, of which none gave a version yet.
pub(crate) fn no_pins(
    alloc: Global,
    shards: u32,
) -> Result<Vec<Option<(u64, PinnedLayout)>>, NoMemory>
    ensures { IfOk result (λ pins. pins.items ≡ replicate shards None) }
{
    let mut pins = Vec::new(alloc);
    for number in 0..shards {
        pins.push(None)?;
    }
    Ok(pins)
}
