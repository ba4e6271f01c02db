//! The words of a line.

ghost use Rattle.std.specs.Prelude.{◌≡◌, ◌≤◌, ◌<◌, [], ◌∷◌, ◌++◌, length, take, drop, slice_index, MatchOption};
ghost use Rattle.line_forms.specs.Words.{words, words_after, begun_word, has_no_space, is_printable, IsBegun};

// How many bytes are searched for a space at once.
const BLOCK: usize = 16;

/// Whether every byte is printable ASCII. Looks at all of them, wherever the first other one is, so that a machine can look at
/// many at once.
pub fn is_printable(line: &[u8]) -> bool
    ensures { result ≡ is_printable line.now }
{
    let mut printable = true;
    for byte in line {
        printable &= 32 <= *byte && *byte <= 126;
    }
    printable
}

/// The first word of a line and what follows it, or None where no word is left.
pub fn next_word(line: &[u8]) -> Option<(&[u8], &[u8])>
    ensures { MatchOption result (words line.now ≡ [])
        (λ found. words line.now ≡ found.0.now ∷ words found.1.now) }
{
    let begun = without_spaces(line);
    if begun.is_empty() {
        return None;
    }
    Some(begun.split_at(word_end(begun)))
}

// The line from its first word on.
fn without_spaces(line: &[u8]) -> &[u8]
    ensures same { words result.now ≡ words line.now }
    ensures begun { IsBegun result.now }
{
    let mut rest = line;
    while let [b' ', after @ ..] = rest {
        rest = after;
    }
    rest
}

// The place of the first space, or the number of bytes where there is none.
fn word_end(begun: &[u8]) -> usize
    ensures within { result ≤ length begun.now }
    ensures stops { result < length begun.now → slice_index begun.now result ≡ 32 }
    ensures splits { words begun.now
        ≡ begun_word (take result begun.now) ++ words (drop result begun.now) }
{
    let mut end = blocks_end(begun);
    while end < begun.len() && begun[end] != b' ' {
        end += 1;
    }
    end
}

// How many bytes the first whole blocks have that have no space.
fn blocks_end(begun: &[u8]) -> usize
    ensures within { result ≤ length begun.now }
    ensures goes_on { words begun.now
        ≡ words_after (take result begun.now) (drop result begun.now) }
{
    let mut end = 0;
    while begun.len() - end >= BLOCK && has_no_space(&begun[end..end + BLOCK]) {
        end += BLOCK;
    }
    end
}

// Whether no byte is a space. Looks at all of them, so that a machine can look at many at once.
fn has_no_space(bytes: &[u8]) -> bool
    ensures { result ≡ has_no_space bytes.now }
{
    let mut none = true;
    for byte in bytes {
        none &= *byte != b' ';
    }
    none
}
