//! A layout with the masks of its parts.

ghost use Rattle.std.specs.Prelude.{◌≡◌, ◌*◌, ◌<◌, ◌≤◌, length, IfOk};
ghost use Rattle.std.specs.Arc.{arc_value};
ghost use Rattle.hamming_model.specs.declared.limits.TheConstants.{WORDS_MOST};
ghost use Rattle.gph_codes.specs.Masks.{mask_of};
ghost use Rattle.part_layout.specs.Laid.{part_at};
ghost use Rattle.shard_version.specs.Masked.{AreMasks};

use gph_codes::Code;
use part_layout::Layout;
use read_meter::NoMemory;
use std::alloc::Global;
use std::marker::Model;
use std::sync::Arc;

// A layout, and for each part the code with ones at its positions. It is seen as the layout.
#[derive(Drop)]
pub(crate) struct MaskedLayout<const W: usize> {
    layout: Arc<Layout>,
    masks: Vec<Code<W>>,
}

impl<const W: usize> Model for MaskedLayout<W> {
    ghost use Rattle.std.specs.Arc.{arc_value};
    ghost use Rattle.part_layout.specs.Laid.{Laid, laid_code};
    ghost use Rattle.shard_version.specs.Masked.{AreMasks};

    ghost Value = { Laid };

    ghost coded = { laid_code };

    ghost view = { λ kept. arc_value kept.layout };

    ghost invariant = { λ kept. AreMasks W (arc_value kept.layout).parts kept.masks.items };
}

impl<const W: usize> MaskedLayout<W> {
    // Makes the masks once, for all that share them.
    pub(crate) fn shared(
        alloc: Global,
        layout: Arc<Layout>,
    ) -> Result<Arc<MaskedLayout<W>>, NoMemory>
        requires few_words { W ≤ WORDS_MOST }
        requires room { (arc_value layout).bits ≤ 64 * W }
        ensures { IfOk result (λ masked. arc_value masked ≡ arc_value layout) }
    {
        let masks = masks_of(alloc, &layout)?;
        let masked = Arc::new(alloc, MaskedLayout { layout, masks })?;
        Ok(masked)
    }

    // The layout.
    pub(crate) fn layout(&self) -> &Arc<Layout>
        ensures { arc_value result.now ≡ self.now }
    {
        &self.layout
    }

    // The mask of a part.
    pub(crate) fn mask(&self, part: u32) -> &Code<W>
        requires { part < length self.now.parts }
        ensures { result.now ≡ mask_of (64 * W) (part_at self.now part) }
    {
        &self.masks[part as usize]
    }
}

// For each part the code with ones at its positions.
fn masks_of<const W: usize>(alloc: Global, layout: &Layout) -> Result<Vec<Code<W>>, NoMemory>
    requires { layout.now.bits ≤ 64 * W }
    ensures { IfOk result (λ masks. AreMasks W layout.now.parts masks.items) }
{
    let parts = layout.parts();
    let mut masks = Vec::with_capacity(alloc, parts as usize)?;
    for part in 0..parts {
        masks.push(mask_of(layout, part))?;
    }
    Ok(masks)
}

// The code with ones at the positions of a part.
fn mask_of<const W: usize>(layout: &Layout, part: u32) -> Code<W>
    requires part { part < length layout.now.parts }
    requires room { layout.now.bits ≤ 64 * W }
    ensures { result ≡ mask_of (64 * W) (part_at layout.now part) }
{
    let mut mask = Code::zeros();
    for place in 0..layout.width(part) {
        mask.set(layout.position(part, place));
    }
    mask
}
