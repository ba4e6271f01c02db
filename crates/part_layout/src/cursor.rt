//! The positions that a layout text lists, one after the other.

ghost use Rattle.std.specs.Prelude.{◌≡◌, ◌<◌, ◌≤◌, [], All, true, false, length, take, slice_index, IfSome, MatchOption};
ghost use Rattle.std.specs.Str.Parse.{digits_value, AllDigits};
ghost use Rattle.part_layout.specs.ReadOn.{is_mark, IsRest, Lists};

use line_forms::value_of;

/// A position as a text lists it.
#[derive(Clone, Copy, Debug, PartialEq, Eq)]
pub struct ListedPosition {
    /// Below 1,000.
    pub position: u32,
    /// Whether it is the last of its part.
    pub ends_part: bool,
}

/// The first position that the rest of a layout text lists, and what follows it and its mark, or None where nothing is left.
pub fn next_position(text: &[u8]) -> Option<(ListedPosition, &[u8])>
    requires { IsRest text.now }
    ensures parts { MatchOption result (text.now ≡ []) (λ it. Lists text.now it.0 it.1.now) }
    ensures rest { IfSome result (λ found. IsRest found.1.now) }
    ensures more { IfSome result (λ found. found.0.ends_part ≡ false → 0 < length found.1.now) }
    ensures fewer { IfSome result (λ found. length found.1.now < length text.now) }
    ensures small { IfSome result (λ found. found.0.position < 1000) }
{
    if text.is_empty() {
        return None;
    }
    let (word, after) = text.split_at(first_mark(text));
    let position = position_of(word);
    match after {
        [] => Some((
            ListedPosition {
                position,
                ends_part: true,
            },
            after,
        )),
        [mark, rest @ ..] => Some((
            ListedPosition {
                position,
                ends_part: *mark == b'/',
            },
            rest,
        )),
    }
}

// The place of the first mark, or the number of bytes where there is none.
fn first_mark(text: &[u8]) -> usize
    ensures within { result ≤ length text.now }
    ensures word { All (λ byte. is_mark byte ≡ false) (take result text.now) }
    ensures stops { result < length text.now → is_mark (slice_index text.now result) ≡ true }
{
    let mut end = 0;
    while end < text.len() && text[end] != b',' && text[end] != b'/' {
        end += 1;
    }
    end
}

// The number that up to three decimal digits write.
fn position_of(word: &[u8]) -> u32
    requires short { length word.now ≤ 3 }
    requires digits { AllDigits 10 word.now }
    ensures value { result ≡ digits_value 10 word.now }
    ensures small { result < 1000 }
{
    value_of(word) as u32
}
