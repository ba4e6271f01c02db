//! The bytes of words, the top byte of the first word first.

ghost use Rattle.std.specs.Prelude.{◌≡◌, ℕ, ◌+◌, ◌*◌, ◌++◌, ◌<◌, ◌≤◌, length, take, drop, Ok, Some, true};
ghost use Rattle.std.specs.List.{list_all};
ghost use Rattle.gph_codes.specs.Words.{IsWords, byte_bits, word_bits};
ghost use Rattle.hex.specs.Hex.{IsBytes, decode_of, hex_digit_value, is_hex_digit};
ghost use Rattle.gph_codes.specs.Spelling.{Spells};
ghost use Rattle.hamming_model.specs.Codes.{bits_of};
ghost use Rattle.hamming_model.specs.declared.limits.TheConstants.{WORDS_MOST};

use hex::FromHexError;

/// How many bytes a buffer for the bytes of a code has.
pub const BUFFER: usize = 64;

/// Writes the bytes that so many pairs of hexadecimal digits spell over a buffer's first ones.
pub fn spell(text: &[u8], number: usize, bytes: &mut [u8]) -> Result<(), FromHexError>
    requires room { number ≤ length bytes.old }
    requires pairs { length text.now ≡ 2 * number }
    ensures { Spells text.now number bytes.old bytes.new result }
{
    if are_digits(text) {
        put_pairs(text, &mut bytes[..number]);
        return Ok(());
    }
    // This call names the first byte that is no digit.
    hex::decode_to_slice(text, &mut bytes[..number])
}

// Whether every byte is a hexadecimal digit. Looks at all of them, so that a machine can look at many at once.
fn are_digits(text: &[u8]) -> bool
    ensures { result ≡ list_all is_hex_digit text.now }
{
    let mut all = true;
    for byte in text {
        all &= is_digit(*byte);
    }
    all
}

// Each bound is judged, with no branch.
fn is_digit(byte: u8) -> bool
    ensures { result ≡ is_hex_digit byte }
{
    let decimal = (b'0' <= byte) & (byte <= b'9');
    let upper = (b'A' <= byte) & (byte <= b'F');
    let lower = (b'a' <= byte) & (byte <= b'f');
    decimal | upper | lower
}

// Writes the bytes that pairs of digits spell.
fn put_pairs(text: &[u8], bytes: &mut [u8])
    requires pairs { length text.now ≡ 2 * length bytes.old }
    requires digits { list_all is_hex_digit text.now ≡ true }
    ensures { decode_of text.now ≡ Ok bytes.new }
{
    for place in 0..bytes.len() {
        bytes[place] = digit_value(text[2 * place]) * 16 + digit_value(text[2 * place + 1]);
    }
}

// The value of a digit, with no branch: its low four bits, and nine more for a letter.
fn digit_value(digit: u8) -> u8
    requires { is_hex_digit digit ≡ true }
    ensures value { hex_digit_value digit ≡ Some result }
    ensures small { result < 16 }
{
    digit % 16 + digit / 64 * 9
}

/// The words of a buffer's first bytes.
pub fn words_from<const W: usize>(bytes: &[u8; BUFFER]) -> [u64; W]
    requires { W ≤ WORDS_MOST }
    ensures words { IsWords W result }
    ensures bits { word_bits result ≡ byte_bits (take (8 * W) bytes.now) }
{
    let mut words = [0; W];
    for place in 0..W {
        words[place] = word_at(bytes, 8 * place);
    }
    words
}

/// The bytes of words, in a buffer.
pub fn bytes_of<const W: usize>(words: &[u64; W]) -> [u8; BUFFER]
    requires { W ≤ WORDS_MOST }
    ensures bits { byte_bits (take (8 * W) result) ≡ word_bits words.now }
    ensures fit { IsBytes result }
{
    let mut bytes = [0; BUFFER];
    for place in 0..W {
        put_word(&mut bytes, 8 * place, words[place]);
    }
    bytes
}

// Writes a word's eight bytes from a place on.
fn put_word(bytes: &mut [u8], at: usize, word: u64)
    requires { at + 8 ≤ length bytes.old }
    ensures bits { byte_bits (take (at + 8) bytes.new)
        ≡ byte_bits (take at bytes.old) ++ bits_of 64 word }
    ensures fit { IsBytes bytes.new }
{
    bytes[at..at + 8].copy_from_slice(&word.to_be_bytes());
}

// The word of the eight bytes from a place on.
fn word_at(bytes: &[u8], at: usize) -> u64
    requires { at + 8 ≤ length bytes.now }
    ensures { bits_of 64 result ≡ byte_bits (take 8 (drop at bytes.now)) }
{
    u64::from_be_bytes([
        bytes[at],
        bytes[at + 1],
        bytes[at + 2],
        bytes[at + 3],
        bytes[at + 4],
        bytes[at + 5],
        bytes[at + 6],
        bytes[at + 7],
    ])
}
