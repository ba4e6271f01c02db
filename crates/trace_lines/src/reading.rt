//! A line of a trace as an event.

ghost use Rattle.std.specs.Prelude.{◌≡◌, ◌≢◌, ◌≤◌, length, Some};
ghost use Rattle.gph_codes.specs.Allowed.{IsAllowed};
ghost use Rattle.hamming_model.specs.declared.limits.TheConstants.{WORDS_MOST};
ghost use Rattle.byte_lines.specs.declared.cutter.TheConstants.{LINE_MOST};
ghost use Rattle.line_forms.specs.Words.{words};
ghost use Rattle.part_layout.specs.Laid.{IsCodeSize};
ghost use Rattle.trace_lines.specs.EventForms.{event_word};
ghost use Rattle.trace_lines.specs.EventLines.{event_asked, event_of_words, event_reading};
ghost use Rattle.trace_lines.specs.EventRequests.{AsksAs, AsksWithMemory, ReadsEvent};
ghost use Rattle.trace_lines.specs.declared.event_word.EventWord.TheVariants.{RepartWord};

use crate::build_reading::read_repart;
use crate::faults::{no_event_word, no_text};
use crate::query_reading::{query_alone, query_and_shard, read_poll, shard_alone, shard_and_rows};
use crate::session_reading::{read_commit, read_open};
use crate::{EventRequest, EventWord};
use line_forms::{is_printable, next_word};
use query_protocol::{Bad, LineFault};
use std::alloc::Global;

/// What a line of a trace asks: None where the line has no word, else an event or the line's first fault. The line comes without its
/// end; for a longer one see `line_too_long`.
///
/// The faults, each judged where none before it was found: 2, a byte is no printable ASCII; 3, the first word names no event; 4, the
/// event has another number of words, which for `commit` and `open` is that of the form that the third word names, or of any of their
/// forms where it names none; 5, a word is not of its form; and last, for a `repart` alone, there is no memory for its layout. A third
/// word that names no form is judged in its place, after the session's number.
pub fn read_event_line<const W: usize>(
    alloc: Global,
    bits: u32,
    line: &[u8],
) -> Result<Option<EventRequest<W>>, LineFault>
    requires few_words { W ≤ WORDS_MOST }
    requires allowed { IsAllowed W bits }
    requires size { IsCodeSize bits }
    requires short { length line.now ≤ LINE_MOST }
    ensures { ReadsEvent W bits result (event_reading bits line.now) }
{
    if !is_printable(line) {
        return Err(LineFault::Bad(no_text()));
    }
    read_words(alloc, bits, line)
}

// The words of a line.
fn read_words<const W: usize>(
    alloc: Global,
    bits: u32,
    line: &[u8],
) -> Result<Option<EventRequest<W>>, LineFault>
    requires few_words { W ≤ WORDS_MOST }
    requires allowed { IsAllowed W bits }
    requires size { IsCodeSize bits }
    ensures { ReadsEvent W bits result (event_of_words bits (words line.now)) }
{
    match next_word(line) {
        None => Ok(None),
        Some((word, after)) => match read_after(alloc, bits, event_word(word), after) {
            Ok(request) => Ok(Some(request)),
            Err(fault) => Err(fault),
        },
    }
}

// An event's word and the words after it.
fn read_after<const W: usize>(
    alloc: Global,
    bits: u32,
    word: Option<EventWord>,
    after: &[u8],
) -> Result<EventRequest<W>, LineFault>
    requires few_words { W ≤ WORDS_MOST }
    requires allowed { IsAllowed W bits }
    requires size { IsCodeSize bits }
    ensures { AsksWithMemory W bits result (event_asked bits word (words after.now)) }
{
    if let Some(EventWord::RepartWord) = word {
        return read_repart(alloc, bits, after);
    }
    match read_without_memory(bits, word, after) {
        Ok(request) => Ok(request),
        Err(fault) => Err(LineFault::Bad(fault)),
    }
}

// The word of an event that is read without memory, and the words after it.
fn read_without_memory<const W: usize>(
    bits: u32,
    word: Option<EventWord>,
    after: &[u8],
) -> Result<EventRequest<W>, Bad>
    requires few_words { W ≤ WORDS_MOST }
    requires allowed { IsAllowed W bits }
    requires other { word ≢ Some RepartWord }
    ensures { AsksAs W bits result (event_asked bits word (words after.now)) }
{
    match word {
        None => Err(no_event_word()),
        Some(EventWord::CommitWord) => read_commit(bits, after),
        Some(EventWord::OpenWord) => read_open(bits, after),
        Some(EventWord::AdvanceWord) => {
            let (query, shard) = query_and_shard(after)?;
            Ok(EventRequest::Advance { query, shard })
        }
        Some(EventWord::PinWord) => {
            let (query, shard) = query_and_shard(after)?;
            Ok(EventRequest::Pin { query, shard })
        }
        Some(EventWord::PollWord) => read_poll(after),
        Some(EventWord::GiveWord) => Ok(EventRequest::Give {
            query: query_alone(after)?,
        }),
        Some(EventWord::CancelWord) => Ok(EventRequest::Cancel {
            query: query_alone(after)?,
        }),
        Some(EventWord::BuildWord) => {
            let (shard, rows) = shard_and_rows(after)?;
            Ok(EventRequest::BuildStep { shard, rows })
        }
        Some(EventWord::FollowWord) => Ok(EventRequest::Follow {
            shard: shard_alone(after)?,
        }),
        Some(EventWord::SwapWord) => Ok(EventRequest::Swap {
            shard: shard_alone(after)?,
        }),
        // The caller reads it.
        Some(EventWord::RepartWord) => unreachable!(),
    }
}

// The event that a word names.
fn event_word(word: &[u8]) -> Option<EventWord>
    ensures { result ≡ event_word word.now }
{
    if word == b"commit".as_slice() {
        Some(EventWord::CommitWord)
    } else if word == b"open".as_slice() {
        Some(EventWord::OpenWord)
    } else if word == b"advance".as_slice() {
        Some(EventWord::AdvanceWord)
    } else if word == b"pin".as_slice() {
        Some(EventWord::PinWord)
    } else if word == b"poll".as_slice() {
        Some(EventWord::PollWord)
    } else if word == b"give".as_slice() {
        Some(EventWord::GiveWord)
    } else if word == b"cancel".as_slice() {
        Some(EventWord::CancelWord)
    } else if word == b"repart".as_slice() {
        Some(EventWord::RepartWord)
    } else if word == b"build".as_slice() {
        Some(EventWord::BuildWord)
    } else if word == b"follow".as_slice() {
        Some(EventWord::FollowWord)
    } else if word == b"swap".as_slice() {
        Some(EventWord::SwapWord)
    } else {
        None
    }
}
