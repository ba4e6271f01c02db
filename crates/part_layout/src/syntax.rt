//! Whether a text is one of the grammar of layout texts.

ghost use Rattle.std.specs.Prelude.{◌≡◌, ◌≤◌, IfSome, MatchOption};
ghost use Rattle.part_layout.specs.Grammar.{IsLayoutText, IsSyntaxFault};
ghost use Rattle.part_layout.specs.ReadOn.{digits_after};

/// Where a text goes wrong, if it does: the first byte, from 0, that no layout text goes on with, or the text's length
/// where it is only the beginning of one.
pub fn syntax_fault(text: &[u8]) -> Option<usize>
    ensures { MatchOption result (IsLayoutText text.now) (λ at. IsSyntaxFault text.now at) }
{
    let mut digits = 0;
    for (at, byte) in text.iter().enumerate() {
        match digits_after(digits, *byte) {
            None => return Some(at),
            Some(more) => digits = more,
        }
    }
    if digits == 0 { Some(text.len()) } else { None }
}

// How many digits the last position of a begun text has once a byte follows, where it may.
fn digits_after(digits: u32, byte: u8) -> Option<u32>
    requires { digits ≤ 3 }
    ensures value { result ≡ digits_after digits byte }
    ensures few { IfSome result (λ more. more ≤ 3) }
{
    match byte {
        b'0'..=b'9' if digits < 3 => Some(digits + 1),
        b',' | b'/' if 0 < digits => Some(0),
        _ => None,
    }
}
