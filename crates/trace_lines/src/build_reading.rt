//! What the words after `repart` ask.

ghost use Rattle.line_forms.specs.Forms.{shard_form};
ghost use Rattle.line_forms.specs.Words.{words};
ghost use Rattle.part_layout.specs.Laid.{IsCodeSize};
ghost use Rattle.query_protocol.specs.ShardsAsked.{layout_form};
ghost use Rattle.trace_lines.specs.EventAsked.{event_repart_asked, event_repart_of};
ghost use Rattle.trace_lines.specs.EventForms.{two_words};
ghost use Rattle.trace_lines.specs.EventRequests.{AsksWithMemory};

use crate::EventRequest;
use crate::faults::of_word;
use crate::forms::{layout_of, two_words};
use line_forms::shard_of;
use query_protocol::LineFault;
use read_meter::NoMemory;
use std::alloc::Global;

// The words after `repart`: a shard and a layout.
pub(crate) fn read_repart<const W: usize>(
    alloc: Global,
    bits: u32,
    after: &[u8],
) -> Result<EventRequest<W>, LineFault>
    requires { IsCodeSize bits }
    ensures { AsksWithMemory W bits result (event_repart_asked bits (two_words (words after.now))) }
{
    match two_words(after) {
        Ok((shard, text)) => read_build(alloc, bits, shard, text),
        Err(fault) => Err(LineFault::Bad(fault)),
    }
}

// A shard and a layout.
#[tactic(auto, using(crate::proofs::FormLemmas::laid_again))]
fn read_build<const W: usize>(
    alloc: Global,
    bits: u32,
    shard: &[u8],
    text: &[u8],
) -> Result<EventRequest<W>, LineFault>
    requires { IsCodeSize bits }
    ensures { AsksWithMemory W bits result
        (event_repart_of bits (shard_form shard.now) (layout_form bits text.now)) }
{
    let Some(shard) = shard_of(shard) else {
        return Err(LineFault::Bad(of_word(2)));
    };
    match layout_of(alloc, bits, text) {
        None => Err(LineFault::Bad(of_word(3))),
        Some(Ok(layout)) => Ok(EventRequest::BuildStart { shard, layout }),
        Some(Err(NoMemory)) => Err(LineFault::NoMemory),
    }
}
