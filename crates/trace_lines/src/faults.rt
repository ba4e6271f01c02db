//! The faults of a line, in the order in which they are judged.

ghost use Rattle.std.specs.Prelude.{◌≡◌, ℕ, ◌<◌, List, length, Err};
ghost use Rattle.byte_lines.specs.declared.cutter.TheConstants.{LINE_MOST};
ghost use Rattle.query_protocol.specs.Requests.{bad, bad_word};
ghost use Rattle.trace_lines.specs.EventLines.{event_reading};

use query_protocol::Bad;

/// The line has more than 4,096 bytes. This is judged first.
pub fn line_too_long() -> Bad
    ensures { (bits : ℕ) (line : List ℕ) →
        LINE_MOST < length line → event_reading bits line ≡ Err result }
{
    numbered(1)
}

// A byte of the line is no printable ASCII.
pub(crate) fn no_text() -> Bad
    ensures { result ≡ bad 2 }
{
    numbered(2)
}

// The first word names no event.
pub(crate) fn no_event_word() -> Bad
    ensures { result ≡ bad 3 }
{
    numbered(3)
}

// The event has another number of words.
pub(crate) fn other_number_of_words() -> Bad
    ensures { result ≡ bad 4 }
{
    numbered(4)
}

// The word at this place is the first that is not of its form.
pub(crate) fn of_word(place: u8) -> Bad
    ensures { result ≡ bad_word place }
{
    Bad {
        number: 5,
        word: place,
    }
}

// A fault that names no word.
fn numbered(number: u8) -> Bad
    ensures { result ≡ bad number }
{
    Bad { number, word: 0 }
}
