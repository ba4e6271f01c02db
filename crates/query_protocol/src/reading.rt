//! A line as a request.

ghost use Rattle.std.specs.Prelude.{◌≡◌, ◌≢◌, ℕ, ◌≤◌, List, [], ◌∷◌, length, Some, Err, MatchResult};
ghost use Rattle.gph_codes.specs.Allowed.{IsAllowed};
ghost use Rattle.hamming_model.specs.declared.limits.TheConstants.{WORDS_MOST};
ghost use Rattle.byte_lines.specs.declared.cutter.TheConstants.{LINE_MOST};
ghost use Rattle.line_forms.specs.Words.{words};
ghost use Rattle.query_protocol.specs.Lines.{reading, of_words, request_word, with_words};
ghost use Rattle.part_layout.specs.Laid.{IsCodeSize};
ghost use Rattle.query_protocol.specs.Requests.{Quit};
ghost use Rattle.query_protocol.specs.Asked.{add_asked, range_asked, nearest_asked, next_asked};
ghost use Rattle.query_protocol.specs.Asked.{plan_asked, nothing_more, key_alone, tag_alone};
ghost use Rattle.query_protocol.specs.Asked.{opening_words, nearest_of};
ghost use Rattle.query_protocol.specs.ShardsAsked.{layout_asked};
ghost use Rattle.query_protocol.specs.Stored.{ReadsAs, ReadsLine, NamesShard};
ghost use Rattle.query_protocol.specs.declared.request.RequestWord.TheVariants.{RepartWord};

use crate::builds_reading::{read_build, read_repart, read_search, read_swap};
use crate::{Bad, LineFault, Request, RequestWord};
use hamming_model::ENTRIES_MOST;
use line_forms::{
    Tag, code_of, count_of, is_printable, key_of, next_word, number_of, radius_of, shard_of,
};
use part_layout::Config;
use std::alloc::Global;

/// What a line asks of a server that was asked for so: None where the line has no word, else a request or the
/// line's first fault. The line comes without its end; for a longer one see `Bad::line_too_long`.
///
/// The faults, each judged where none before it was found: 2, a byte is no printable ASCII; 3, the first
/// word is no request word; 4, the request has another number of words; 5, a word is not of its form;
/// 6, there is no shard of this number; and last, for a `repart` alone, there is no memory for its layout.
pub fn read_line<const W: usize>(
    alloc: Global,
    config: &Config,
    line: &[u8],
) -> Result<Option<Request<W>>, LineFault>
    requires few_words { W ≤ WORDS_MOST }
    requires allowed { IsAllowed W config.now.bits }
    requires size { IsCodeSize config.now.bits }
    requires short { length line.now ≤ LINE_MOST }
    ensures reads { ReadsLine W config.now.bits result (reading config.now line.now) }
    ensures shard { NamesShard config.now.shards result }
{
    if !is_printable(line) {
        return Err(LineFault::Bad(Bad::no_text()));
    }
    read_words(alloc, config, line)
}

// The words of a line.
fn read_words<const W: usize>(
    alloc: Global,
    config: &Config,
    line: &[u8],
) -> Result<Option<Request<W>>, LineFault>
    requires few_words { W ≤ WORDS_MOST }
    requires allowed { IsAllowed W config.now.bits }
    requires size { IsCodeSize config.now.bits }
    ensures reads { ReadsLine W config.now.bits result (of_words config.now (words line.now)) }
    ensures shard { NamesShard config.now.shards result }
{
    match next_word(line) {
        None => Ok(None),
        Some((word, after)) => read_after(alloc, config, request_word(word), after),
    }
}

// A request word and the words after it.
fn read_after<const W: usize>(
    alloc: Global,
    config: &Config,
    word: Option<RequestWord>,
    after: &[u8],
) -> Result<Option<Request<W>>, LineFault>
    requires few_words { W ≤ WORDS_MOST }
    requires allowed { IsAllowed W config.now.bits }
    requires size { IsCodeSize config.now.bits }
    ensures reads { ReadsLine W config.now.bits result
        (with_words config.now word (words after.now)) }
    ensures shard { NamesShard config.now.shards result }
{
    if let Some(RequestWord::RepartWord) = word {
        return read_repart(alloc, config, after);
    }
    match read_without_memory(config, word, after) {
        Ok(asked) => Ok(asked),
        Err(fault) => Err(LineFault::Bad(fault)),
    }
}

// A request word whose request takes no memory, and the words after it.
fn read_without_memory<const W: usize>(
    config: &Config,
    word: Option<RequestWord>,
    after: &[u8],
) -> Result<Option<Request<W>>, Bad>
    requires few_words { W ≤ WORDS_MOST }
    requires allowed { IsAllowed W config.now.bits }
    requires other { word ≢ Some RepartWord }
    ensures reads { ReadsAs W config.now.bits result
        (with_words config.now word (words after.now)) }
    ensures shard { NamesShard config.now.shards result }
{
    match word {
        None => Err(Bad::no_request_word()),
        Some(RequestWord::AddWord) => read_add(config.bits, after),
        Some(RequestWord::DelWord) => Ok(Some(Request::Del {
            key: key_alone(after)?,
        })),
        Some(RequestWord::GetWord) => Ok(Some(Request::Get {
            key: key_alone(after)?,
        })),
        Some(RequestWord::RangeWord) => read_range(config.bits, after),
        Some(RequestWord::NearWord) => read_near(config.bits, after),
        Some(RequestWord::NextWord) => read_next(after),
        Some(RequestWord::CostWord) => Ok(Some(Request::Cost {
            tag: tag_alone(after)?,
        })),
        Some(RequestWord::PlanWord) => read_plan(config.shards, after),
        Some(RequestWord::CancelWord) => Ok(Some(Request::Cancel {
            tag: tag_alone(after)?,
        })),
        Some(RequestWord::LayoutWord) => read_layout(config.shards, after),
        Some(RequestWord::BuildWord) => read_build(after),
        Some(RequestWord::SwapWord) => read_swap(after),
        Some(RequestWord::SearchWord) => read_search(config.shards, after),
        Some(RequestWord::QuitWord) => read_quit(after),
        // The caller reads it.
        Some(RequestWord::RepartWord) => unreachable!(),
    }
}

// The request word that a word is.
fn request_word(word: &[u8]) -> Option<RequestWord>
    ensures { result ≡ request_word word.now }
{
    if word == b"add".as_slice() {
        Some(RequestWord::AddWord)
    } else if word == b"del".as_slice() {
        Some(RequestWord::DelWord)
    } else if word == b"get".as_slice() {
        Some(RequestWord::GetWord)
    } else if word == b"range".as_slice() {
        Some(RequestWord::RangeWord)
    } else if word == b"near".as_slice() {
        Some(RequestWord::NearWord)
    } else if word == b"next".as_slice() {
        Some(RequestWord::NextWord)
    } else if word == b"cost".as_slice() {
        Some(RequestWord::CostWord)
    } else if word == b"plan".as_slice() {
        Some(RequestWord::PlanWord)
    } else if word == b"cancel".as_slice() {
        Some(RequestWord::CancelWord)
    } else if word == b"layout".as_slice() {
        Some(RequestWord::LayoutWord)
    } else if word == b"repart".as_slice() {
        Some(RequestWord::RepartWord)
    } else if word == b"build".as_slice() {
        Some(RequestWord::BuildWord)
    } else if word == b"swap".as_slice() {
        Some(RequestWord::SwapWord)
    } else if word == b"search".as_slice() {
        Some(RequestWord::SearchWord)
    } else if word == b"quit".as_slice() {
        Some(RequestWord::QuitWord)
    } else {
        None
    }
}

// The words after `add`.
fn read_add<const W: usize>(bits: u32, after: &[u8]) -> Result<Option<Request<W>>, Bad>
    requires few_words { W ≤ WORDS_MOST }
    requires allowed { IsAllowed W bits }
    ensures reads { ReadsAs W bits result (add_asked bits (words after.now)) }
    ensures shard { (shards : ℕ) → NamesShard shards result }
{
    let Some((key, after)) = next_word(after) else {
        return Err(Bad::other_number_of_words());
    };
    let Some((code, after)) = next_word(after) else {
        return Err(Bad::other_number_of_words());
    };
    if next_word(after).is_some() {
        return Err(Bad::other_number_of_words());
    }
    let Some(key) = key_of(key) else {
        return Err(Bad::of_word(2));
    };
    let Some(code) = code_of(bits, code) else {
        return Err(Bad::of_word(3));
    };
    Ok(Some(Request::Add { key, code }))
}

// The words after `range`.
fn read_range<const W: usize>(bits: u32, after: &[u8]) -> Result<Option<Request<W>>, Bad>
    requires few_words { W ≤ WORDS_MOST }
    requires allowed { IsAllowed W bits }
    ensures reads { ReadsAs W bits result (range_asked bits (words after.now)) }
    ensures shard { (shards : ℕ) → NamesShard shards result }
{
    let (tag, tau, code) = opening_words(after)?;
    let Some(tag) = Tag::of(tag) else {
        return Err(Bad::of_word(2));
    };
    let Some(tau) = radius_of(bits, tau) else {
        return Err(Bad::of_word(3));
    };
    let Some(code) = code_of(bits, code) else {
        return Err(Bad::of_word(4));
    };
    Ok(Some(Request::Range { tag, tau, code }))
}

// The words after `near`.
fn read_near<const W: usize>(bits: u32, after: &[u8]) -> Result<Option<Request<W>>, Bad>
    requires few_words { W ≤ WORDS_MOST }
    requires allowed { IsAllowed W bits }
    ensures reads { ReadsAs W bits result (nearest_asked bits (words after.now)) }
    ensures shard { (shards : ℕ) → NamesShard shards result }
{
    let (tag, k, code) = opening_words(after)?;
    let Some(tag) = Tag::of(tag) else {
        return Err(Bad::of_word(2));
    };
    let Some(k) = nearest_of(k) else {
        return Err(Bad::of_word(3));
    };
    let Some(code) = code_of(bits, code) else {
        return Err(Bad::of_word(4));
    };
    Ok(Some(Request::Near { tag, k, code }))
}

// How many of the nearest rows are asked.
fn nearest_of(word: &[u8]) -> Option<u32>
    ensures { result ≡ nearest_of word.now }
{
    match number_of(7, 1, ENTRIES_MOST, word) {
        None => None,
        Some(value) => Some(value as u32),
    }
}

// The three words of a request that opens a query.
fn opening_words(after: &[u8]) -> Result<(&[u8], &[u8], &[u8]), Bad>
    ensures { MatchResult result
        (λ three. words after.now ≡ three.0.now ∷ three.1.now ∷ three.2.now ∷ [])
        (λ fault. opening_words (words after.now) ≡ Err fault) }
{
    let Some((tag, after)) = next_word(after) else {
        return Err(Bad::other_number_of_words());
    };
    let Some((number, after)) = next_word(after) else {
        return Err(Bad::other_number_of_words());
    };
    let Some((code, after)) = next_word(after) else {
        return Err(Bad::other_number_of_words());
    };
    if next_word(after).is_some() {
        return Err(Bad::other_number_of_words());
    }
    Ok((tag, number, code))
}

// The words after `next`.
fn read_next<const W: usize>(after: &[u8]) -> Result<Option<Request<W>>, Bad>
    ensures reads { (bits : ℕ) → ReadsAs W bits result (next_asked (words after.now)) }
    ensures shard { (shards : ℕ) → NamesShard shards result }
{
    let Some((tag, after)) = next_word(after) else {
        return Err(Bad::other_number_of_words());
    };
    let Some((n, after)) = next_word(after) else {
        return Err(Bad::other_number_of_words());
    };
    if next_word(after).is_some() {
        return Err(Bad::other_number_of_words());
    }
    let Some(tag) = Tag::of(tag) else {
        return Err(Bad::of_word(2));
    };
    let Some(n) = count_of(n) else {
        return Err(Bad::of_word(3));
    };
    Ok(Some(Request::Next { tag, n }))
}

// The key of a request that has no other word.
fn key_alone(after: &[u8]) -> Result<u64, Bad>
    ensures { result ≡ key_alone (words after.now) }
{
    let Some((key, after)) = next_word(after) else {
        return Err(Bad::other_number_of_words());
    };
    if next_word(after).is_some() {
        return Err(Bad::other_number_of_words());
    }
    key_of(key).ok_or(Bad::of_word(2))
}

// The tag of a request that has no other word.
fn tag_alone(after: &[u8]) -> Result<Tag, Bad>
    ensures { result ≡ tag_alone (words after.now) }
{
    let Some((tag, after)) = next_word(after) else {
        return Err(Bad::other_number_of_words());
    };
    if next_word(after).is_some() {
        return Err(Bad::other_number_of_words());
    }
    Tag::of(tag).ok_or(Bad::of_word(2))
}

// The words after `plan`.
fn read_plan<const W: usize>(shards: u32, after: &[u8]) -> Result<Option<Request<W>>, Bad>
    ensures reads { (bits : ℕ) → ReadsAs W bits result (plan_asked shards (words after.now)) }
    ensures shard { NamesShard shards result }
{
    let Some((tag, after)) = next_word(after) else {
        return Err(Bad::other_number_of_words());
    };
    let Some((shard, after)) = next_word(after) else {
        return Err(Bad::other_number_of_words());
    };
    if next_word(after).is_some() {
        return Err(Bad::other_number_of_words());
    }
    let Some(tag) = Tag::of(tag) else {
        return Err(Bad::of_word(2));
    };
    let Some(shard) = shard_of(shard) else {
        return Err(Bad::of_word(3));
    };
    if shard >= shards {
        return Err(Bad::no_such_shard());
    }
    Ok(Some(Request::Plan { tag, shard }))
}

// The words after `layout`.
fn read_layout<const W: usize>(shards: u32, after: &[u8]) -> Result<Option<Request<W>>, Bad>
    ensures reads { (bits : ℕ) → ReadsAs W bits result (layout_asked shards (words after.now)) }
    ensures shard { NamesShard shards result }
{
    let Some((shard, after)) = next_word(after) else {
        return Err(Bad::other_number_of_words());
    };
    if next_word(after).is_some() {
        return Err(Bad::other_number_of_words());
    }
    let Some(shard) = shard_of(shard) else {
        return Err(Bad::of_word(2));
    };
    if shard < shards {
        Ok(Some(Request::Layout { shard }))
    } else {
        Err(Bad::no_such_shard())
    }
}

// The words after `quit`.
fn read_quit<const W: usize>(after: &[u8]) -> Result<Option<Request<W>>, Bad>
    ensures reads { (bits : ℕ) → ReadsAs W bits result (nothing_more Quit (words after.now)) }
    ensures shard { (shards : ℕ) → NamesShard shards result }
{
    if next_word(after).is_some() {
        return Err(Bad::other_number_of_words());
    }
    Ok(Some(Request::Quit))
}
