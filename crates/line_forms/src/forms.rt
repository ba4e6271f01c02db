//! The forms of words: what a word stands for, where it has the form.

ghost use Rattle.std.specs.Prelude.{◌≡◌, ℕ, ◌≤◌, length, take, option_map, IfSome, IsTrue};
ghost use Rattle.std.specs.List.{list_all};
ghost use Rattle.hamming_model.specs.Codes.{StandsFor};
ghost use Rattle.hamming_model.specs.declared.limits.TheConstants.{WORDS_MOST};
ghost use Rattle.gph_codes.specs.Allowed.{IsAllowed};
ghost use Rattle.line_forms.specs.Forms.{key_form, radius_of, count_of, code_form, shard_form, is_letter_or_digit, is_tag};
ghost use Rattle.line_forms.specs.declared.tag.TheConstants.{TAG_MOST};

use crate::decimals::number_of;
use crate::tag::TAG_MOST;
use gph_codes::Code;

/// A key.
pub fn key_of(word: &[u8]) -> Option<u64>
    ensures { result ≡ key_form word.now }
{
    number_of(20, 0, u64::MAX, word)
}

/// A radius of codes of so many bits.
pub fn radius_of(bits: u32, word: &[u8]) -> Option<u32>
    ensures value { result ≡ radius_of bits word.now }
    ensures within { IfSome result (λ radius. radius ≤ bits) }
{
    match number_of(3, 0, u64::from(bits), word) {
        None => None,
        Some(value) => Some(value as u32),
    }
}

/// How many hits are asked.
pub fn count_of(word: &[u8]) -> Option<u32>
    ensures { result ≡ count_of word.now }
{
    match number_of(5, 1, 65536, word) {
        None => None,
        Some(value) => Some(value as u32),
    }
}

/// A shard's number.
pub fn shard_of(word: &[u8]) -> Option<u32>
    ensures { result ≡ shard_form word.now }
{
    match number_of(2, 0, 99, word) {
        None => None,
        Some(value) => Some(value as u32),
    }
}

fn is_letter_or_digit(byte: u8) -> bool
    ensures { result ≡ is_letter_or_digit byte }
{
    matches!(byte, b'0'..=b'9' | b'A'..=b'Z' | b'a'..=b'z')
}

/// Whether a word is a tag.
pub(crate) fn is_tag(word: &[u8]) -> bool
    ensures value { result ≡ is_tag word.now }
    ensures short { IsTrue result → length word.now ≤ TAG_MOST }
{
    1 <= word.len() && word.len() <= TAG_MOST && are_letters_or_digits(word)
}

fn are_letters_or_digits(word: &[u8]) -> bool
    ensures { result ≡ list_all is_letter_or_digit word.now }
{
    word.iter().all(|byte| is_letter_or_digit(*byte))
}

/// A code of so many bits.
pub fn code_of<const W: usize>(bits: u32, word: &[u8]) -> Option<Code<W>>
    requires few_words { W ≤ WORDS_MOST }
    requires allowed { IsAllowed W bits }
    ensures value { option_map (take bits) result ≡ code_form bits word.now }
    ensures fit { IfSome result (λ code. StandsFor W bits code (take bits code)) }
{
    match Code::from_hex(bits, word) {
        Ok(code) => Some(code),
        Err(_) => None,
    }
}
