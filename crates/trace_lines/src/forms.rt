//! The words that a line has left, so many of them, and what a word of each form stands for.

ghost use Rattle.std.specs.Prelude.{◌≡◌, ◌≤◌, [], ◌∷◌, Some, Err, is_some, IfOk, IfSome, MatchResult};
ghost use Rattle.std.specs.Arc.{arc_value};
ghost use Rattle.line_forms.specs.Words.{words};
ghost use Rattle.part_layout.specs.Laid.{IsCodeSize};
ghost use Rattle.query_protocol.specs.Asked.{nearest_of};
ghost use Rattle.query_protocol.specs.ShardsAsked.{layout_form};
ghost use Rattle.world_model.specs.Events.{IsLayoutFor};
ghost use Rattle.trace_lines.specs.EventForms.{who_form, query_form};
ghost use Rattle.trace_lines.specs.EventForms.{one_word, two_words, three_words};

use crate::faults::other_number_of_words;
use hamming_model::ENTRIES_MOST;
use line_forms::{next_word, number_of};
use part_layout::{Layout, LayoutFault};
use query_protocol::Bad;
use read_meter::NoMemory;
use std::alloc::Global;
use std::sync::Arc;

// The one word that is left.
pub(crate) fn one_word(after: &[u8]) -> Result<&[u8], Bad>
    ensures { MatchResult result
        (λ word. words after.now ≡ word.now ∷ [])
        (λ fault. one_word (words after.now) ≡ Err fault) }
{
    let Some((first, after)) = next_word(after) else {
        return Err(other_number_of_words());
    };
    if next_word(after).is_some() {
        return Err(other_number_of_words());
    }
    Ok(first)
}

// The two words that are left.
pub(crate) fn two_words(after: &[u8]) -> Result<(&[u8], &[u8]), Bad>
    ensures { MatchResult result
        (λ two. words after.now ≡ two.0.now ∷ two.1.now ∷ [])
        (λ fault. two_words (words after.now) ≡ Err fault) }
{
    let Some((first, after)) = next_word(after) else {
        return Err(other_number_of_words());
    };
    let Some((second, after)) = next_word(after) else {
        return Err(other_number_of_words());
    };
    if next_word(after).is_some() {
        return Err(other_number_of_words());
    }
    Ok((first, second))
}

// The three words that are left.
pub(crate) fn three_words(after: &[u8]) -> Result<(&[u8], &[u8], &[u8]), Bad>
    ensures { MatchResult result
        (λ three. words after.now ≡ three.0.now ∷ three.1.now ∷ three.2.now ∷ [])
        (λ fault. three_words (words after.now) ≡ Err fault) }
{
    let Some((first, after)) = next_word(after) else {
        return Err(other_number_of_words());
    };
    let Some((second, after)) = next_word(after) else {
        return Err(other_number_of_words());
    };
    let Some((third, after)) = next_word(after) else {
        return Err(other_number_of_words());
    };
    if next_word(after).is_some() {
        return Err(other_number_of_words());
    }
    Ok((first, second, third))
}

// A session's number.
pub(crate) fn who_of(word: &[u8]) -> Option<u32>
    ensures { result ≡ who_form word.now }
{
    match number_of(10, 0, u64::from(u32::MAX), word) {
        None => None,
        Some(value) => Some(value as u32),
    }
}

// The number of a query.
pub(crate) fn query_of(word: &[u8]) -> Option<u32>
    ensures { result ≡ query_form word.now }
{
    match number_of(5, 0, 99999, word) {
        None => None,
        Some(value) => Some(value as u32),
    }
}

// How many of the nearest rows are asked.
pub(crate) fn nearest_of(word: &[u8]) -> Option<u32>
    ensures value { result ≡ nearest_of word.now }
    ensures some { IfSome result (λ k. 1 ≤ k) }
{
    match number_of(7, 1, ENTRIES_MOST, word) {
        None => None,
        Some(value) => Some(value as u32),
    }
}

// The layout of so many bits that a text spells, where it spells one, and maybe no memory for it.
pub(crate) fn layout_of(
    alloc: Global,
    bits: u32,
    text: &[u8],
) -> Option<Result<Arc<Layout>, NoMemory>>
    requires { IsCodeSize bits }
    ensures form { is_some result ≡ is_some (layout_form bits text.now) }
    ensures layout { IfSome result (λ read. IfOk read (λ layout.
        layout_form bits text.now ≡ Some (arc_value layout).parts)) }
    ensures fit { IfSome result (λ read. IfOk read (λ layout.
        IsLayoutFor bits (arc_value layout))) }
{
    match Layout::parse(alloc, bits, text) {
        Ok(layout) => {
            // The layout's own call says that it is one.
            let _parts = layout.parts();
            Some(shared(alloc, layout))
        }
        Err(LayoutFault::NoMemory) => Some(Err(NoMemory)),
        Err(_) => None,
    }
}

// The layout where many may hold it.
fn shared(alloc: Global, layout: Layout) -> Result<Arc<Layout>, NoMemory>
    ensures { IfOk result (λ shared. arc_value shared ≡ layout) }
{
    Ok(Arc::new(alloc, layout)?)
}
