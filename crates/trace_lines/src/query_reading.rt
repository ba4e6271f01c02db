//! What the words of a line on queries and builds ask, but those of a layout.

ghost use Rattle.std.specs.Prelude.{◌≡◌, ℕ, ◌≤◌, IfSome};
ghost use Rattle.line_forms.specs.Forms.{count_of};
ghost use Rattle.line_forms.specs.Words.{words};
ghost use Rattle.trace_lines.specs.EventAsked.{poll_asked, query_alone, query_and_shard};
ghost use Rattle.trace_lines.specs.EventAsked.{shard_alone, shard_and_rows};
ghost use Rattle.trace_lines.specs.EventForms.{three_words};
ghost use Rattle.trace_lines.specs.EventRequests.{AsksAs};

use crate::EventRequest;
use crate::faults::of_word;
use crate::forms::{one_word, query_of, three_words, two_words};
use line_forms::{count_of, shard_of};
use query_protocol::Bad;

// The query of an event that names nothing else.
pub(crate) fn query_alone(after: &[u8]) -> Result<u32, Bad>
    ensures { result ≡ query_alone (words after.now) }
{
    let query = one_word(after)?;
    query_of(query).ok_or(of_word(2))
}

// The shard of an event that names nothing else.
pub(crate) fn shard_alone(after: &[u8]) -> Result<u32, Bad>
    ensures { result ≡ shard_alone (words after.now) }
{
    let shard = one_word(after)?;
    shard_of(shard).ok_or(of_word(2))
}

// The query and the shard of an event that names nothing else.
pub(crate) fn query_and_shard(after: &[u8]) -> Result<(u32, u32), Bad>
    ensures { result ≡ query_and_shard (words after.now) }
{
    let (query, shard) = two_words(after)?;
    let Some(query) = query_of(query) else {
        return Err(of_word(2));
    };
    let Some(shard) = shard_of(shard) else {
        return Err(of_word(3));
    };
    Ok((query, shard))
}

// The words after `build`: a shard and how many rows.
pub(crate) fn shard_and_rows(after: &[u8]) -> Result<(u32, u32), Bad>
    ensures { result ≡ shard_and_rows (words after.now) }
{
    let (shard, rows) = two_words(after)?;
    let Some(shard) = shard_of(shard) else {
        return Err(of_word(2));
    };
    let Some(rows) = count_of(rows) else {
        return Err(of_word(3));
    };
    Ok((shard, rows))
}

// The words after `poll`: a query, a shard and how much it may read.
pub(crate) fn read_poll<const W: usize>(after: &[u8]) -> Result<EventRequest<W>, Bad>
    ensures { (bits : ℕ) → AsksAs W bits result (poll_asked (three_words (words after.now))) }
{
    let (query, shard, budget) = three_words(after)?;
    let Some(query) = query_of(query) else {
        return Err(of_word(2));
    };
    let Some(shard) = shard_of(shard) else {
        return Err(of_word(3));
    };
    let Some(budget) = budget_of(budget) else {
        return Err(of_word(4));
    };
    Ok(EventRequest::Poll {
        query,
        shard,
        budget,
    })
}

// How much a poll may read.
fn budget_of(word: &[u8]) -> Option<u32>
    ensures value { result ≡ count_of word.now }
    ensures some { IfSome result (λ budget. 1 ≤ budget) }
{
    count_of(word)
}
