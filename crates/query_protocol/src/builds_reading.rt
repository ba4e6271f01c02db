//! What the words of a line on builds, or on the search for a layout, ask.

ghost use Rattle.std.specs.Prelude.{◌≡◌, ℕ, ◌≤◌, List, Some, is_some, IfOk, IfSome};
ghost use Rattle.line_forms.specs.Words.{words};
ghost use Rattle.part_layout.specs.Laid.{IsCodeSize};
ghost use Rattle.query_protocol.specs.Requests.{Swap};
ghost use Rattle.query_protocol.specs.Asked.{nothing_more};
ghost use Rattle.query_protocol.specs.ShardsAsked.{layout_form, repart_asked, build_asked, rounds_of, searching_asked};
ghost use Rattle.query_protocol.specs.Stored.{AreRounds, IsLaidFor, ReadsAs, ReadsLine, NamesShard};

use crate::{Bad, LineFault, Request};
use exchange_model::ROUNDS_MOST;
use line_forms::{count_of, next_word, number_of, shard_of};
use part_layout::{Config, Layout, LayoutFault};
use read_meter::NoMemory;
use std::alloc::Global;

// The words after `repart`.
pub(crate) fn read_repart<const W: usize>(
    alloc: Global,
    config: &Config,
    after: &[u8],
) -> Result<Option<Request<W>>, LineFault>
    requires { IsCodeSize config.now.bits }
    ensures reads { ReadsLine W config.now.bits result
        (repart_asked config.now.bits config.now.shards (words after.now)) }
    ensures shard { NamesShard config.now.shards result }
{
    let Some((shard, after)) = next_word(after) else {
        return Err(LineFault::Bad(Bad::other_number_of_words()));
    };
    let Some((text, after)) = next_word(after) else {
        return Err(LineFault::Bad(Bad::other_number_of_words()));
    };
    if next_word(after).is_some() {
        return Err(LineFault::Bad(Bad::other_number_of_words()));
    }
    let Some(shard) = shard_of(shard) else {
        return Err(LineFault::Bad(Bad::of_word(2)));
    };
    let Some(layout) = layout_of(alloc, config.bits, text) else {
        return Err(LineFault::Bad(Bad::of_word(3)));
    };
    if shard >= config.shards {
        return Err(LineFault::Bad(Bad::no_such_shard()));
    }
    match layout {
        Ok(layout) => Ok(Some(Request::Repart { shard, layout })),
        Err(NoMemory) => Err(LineFault::NoMemory),
    }
}

// The layout of so many bits that a text spells, where it spells one, and maybe no memory for it.
fn layout_of(alloc: Global, bits: u32, text: &[u8]) -> Option<Result<Layout, NoMemory>>
    requires { IsCodeSize bits }
    ensures form { is_some result ≡ is_some (layout_form bits text.now) }
    ensures layout { IfSome result (λ read. IfOk read (λ layout.
        layout_form bits text.now ≡ Some layout.parts)) }
    ensures fit { IfSome result (λ read. IfOk read (λ layout. IsLaidFor bits layout)) }
{
    match Layout::parse(alloc, bits, text) {
        Ok(layout) => {
            // The layout's own call says that it is one.
            let _parts = layout.parts();
            Some(Ok(layout))
        }
        Err(LayoutFault::NoMemory) => Some(Err(NoMemory)),
        Err(_) => None,
    }
}

// The words after `build`.
pub(crate) fn read_build<const W: usize>(after: &[u8]) -> Result<Option<Request<W>>, Bad>
    ensures reads { (bits : ℕ) → ReadsAs W bits result (build_asked (words after.now)) }
    ensures shard { (shards : ℕ) → NamesShard shards result }
{
    let Some((n, after)) = next_word(after) else {
        return Err(Bad::other_number_of_words());
    };
    if next_word(after).is_some() {
        return Err(Bad::other_number_of_words());
    }
    match count_of(n) {
        Some(n) => Ok(Some(Request::Build { n })),
        None => Err(Bad::of_word(2)),
    }
}

// The words after `swap`.
pub(crate) fn read_swap<const W: usize>(after: &[u8]) -> Result<Option<Request<W>>, Bad>
    ensures reads { (bits : ℕ) → ReadsAs W bits result (nothing_more Swap (words after.now)) }
    ensures shard { (shards : ℕ) → NamesShard shards result }
{
    if next_word(after).is_some() {
        return Err(Bad::other_number_of_words());
    }
    Ok(Some(Request::Swap))
}

// The words after `search`.
pub(crate) fn read_search<const W: usize>(
    shards: u32,
    after: &[u8],
) -> Result<Option<Request<W>>, Bad>
    ensures reads { (bits : ℕ) → ReadsAs W bits result (searching_asked shards (words after.now)) }
    ensures shard { NamesShard shards result }
{
    let Some((shard, after)) = next_word(after) else {
        return Err(Bad::other_number_of_words());
    };
    let Some((rounds, after)) = next_word(after) else {
        return Err(Bad::other_number_of_words());
    };
    if next_word(after).is_some() {
        return Err(Bad::other_number_of_words());
    }
    let Some(shard) = shard_of(shard) else {
        return Err(Bad::of_word(2));
    };
    let Some(rounds) = rounds_of(rounds) else {
        return Err(Bad::of_word(3));
    };
    if shard < shards {
        Ok(Some(Request::Search { shard, rounds }))
    } else {
        Err(Bad::no_such_shard())
    }
}

// How many rounds a search has.
fn rounds_of(word: &[u8]) -> Option<u32>
    ensures value { result ≡ rounds_of word.now }
    ensures rounds { IfSome result (λ rounds. AreRounds rounds) }
{
    match number_of(1, 1, u64::from(ROUNDS_MOST), word) {
        None => None,
        Some(value) => Some(value as u32),
    }
}
