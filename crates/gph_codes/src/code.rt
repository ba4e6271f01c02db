//! A code, kept in words of 64 bits.

ghost use Rattle.std.specs.Prelude.{◌≡◌, ℕ, ◌+◌, ◌-◌, ◌*◌, ◌/◌, ◌%◌, ◌^◌, ◌<◌, ◌≤◌, ◌↔◌, List, All, length, replicate, slice_set, ◌≢◌, Ok, Err, IsTrue, IsOk, IfOk, slice_index};
ghost use Rattle.hamming_model.specs.Codes.{StandsFor, distance, hex_code};
ghost use Rattle.hamming_model.specs.declared.limits.TheConstants.{WORDS_MOST};
ghost use Rattle.gph_codes.specs.Allowed.{IsAllowed};
ghost use Rattle.gph_codes.specs.Masks.{distance_under};
ghost use Rattle.gph_codes.specs.Words.{word_bits};
ghost use Rattle.gph_codes.specs.Digits.{IsHexDigit, IsLowerDigit, IsSpelled, IsFirstFault};
ghost use Rattle.gph_codes.specs.declared.code_fault.CodeFault.TheVariants.{Length, Digit};
ghost use Rattle.hex.specs.declared.error.FromHexError.TheVariants.{InvalidHexCharacter};

use crate::CodeFault;
use crate::bytes::{BUFFER, bytes_of, spell, words_from};
use crate::distance::{word_distance, word_distance_under};
use hex::FromHexError;
use std::marker::Model;

/// A code of at most `64 * W` bits. Position 0 is the top bit of the first word, and the bits past
/// the code's own are zero.
#[derive(Clone, Copy, Debug, PartialEq, Eq)]
pub struct Code<const W: usize> {
    words: [u64; W],
}

impl<const W: usize> Model for Code<W> {
    ghost use Rattle.std.specs.Prelude.{ℕ, List};
    ghost use Rattle.gph_codes.specs.Words.{word_bits, words_of, IsWords};
    ghost use Rattle.gph_codes.specs.WordsLaw.{words_again};

    ghost Value = { List ℕ };

    ghost view = { λ code. word_bits code.words };

    ghost invariant = { λ code. IsWords W code.words };

    ghost inverse = { λ bits. record { words = words_of W bits } };

    ghost inverse_ok = { λ code fits i. record { words = words_again W code.words fits i } };
}

impl<const W: usize> Code<W> {
    /// The code with 0 at each of the `64 * W` positions.
    pub fn zeros() -> Code<W>
        ensures { result ≡ replicate (64 * W) 0 }
    {
        Code { words: [0; W] }
    }

    /// Reads a code of `bits` bits from hexadecimal digits of either case, four bits a digit, the
    /// first digit at positions 0 to 3. A text of another length is refused before its digits are.
    pub fn from_hex(bits: u32, text: &[u8]) -> Result<Code<W>, CodeFault>
        requires few_words { W ≤ WORDS_MOST }
        requires allowed { IsAllowed W bits }
        // The code of the digits.
        ensures code { IfOk result (λ code. StandsFor W bits code (hex_code text.now)) }
        ensures ok { IsOk result ↔ IsSpelled bits text.now }
        // The two faults.
        ensures length { (result ≡ Err Length) ↔ (length text.now ≢ bits / 4) }
        ensures digit { (at : ℕ) → (result ≡ Err (Digit at)) ↔ IsFirstFault bits text.now at }
    {
        if text.len() != bits as usize / 4 {
            return Err(CodeFault::Length);
        }
        let mut bytes = [0; BUFFER];
        match spell(text, bits as usize / 8, &mut bytes) {
            Ok(()) => Ok(Code {
                words: words_from(&bytes),
            }),
            Err(fault) => Err(CodeFault::Digit {
                at: place_of(fault),
            }),
        }
    }

    /// Writes the code's first `bits` bits as lower-case hexadecimal digits, four bits a digit.
    pub fn to_hex(&self, bits: u32, out: &mut [u8])
        requires few_words { W ≤ WORDS_MOST }
        requires allowed { IsAllowed W bits }
        requires room { length out.old ≡ bits / 4 }
        ensures lower { All IsLowerDigit out.new }
        ensures code { (code : List ℕ) → StandsFor W bits self.now code → hex_code out.new ≡ code }
    {
        let bytes = bytes_of(&self.words);
        let Ok(()) = hex::encode_to_slice(&bytes[..bits as usize / 8], out) else {
            unreachable!();
        };
    }

    /// The words that keep the code, the top bit of the first word at position 0.
    pub fn words(&self) -> [u64; W]
        ensures { word_bits result ≡ self.now }
    {
        self.words
    }

    /// Whether the bit at a position is 1.
    pub fn bit(&self, position: u32) -> bool
        requires { position < 64 * W }
        ensures { IsTrue result ↔ (slice_index self.now position ≡ 1) }
    {
        self.words[position as usize / 64] >> (63 - position % 64) & 1 == 1
    }

    /// Sets the bit at a position to 1.
    pub fn set(&mut self, position: u32)
        requires { position < 64 * W }
        ensures { self.new ≡ slice_set self.old position 1 }
    {
        self.words[position as usize / 64] |= 1 << (63 - position % 64);
    }
}

/// At how many of the positions where a mask has a one two codes differ. Counts the ones of the
/// exclusive or of their words that the mask has too.
pub fn dist_under<const W: usize>(mask: &Code<W>, one: &Code<W>, other: &Code<W>) -> u32
    requires { W ≤ WORDS_MOST }
    ensures distance { result ≡ distance_under mask.now one.now other.now }
    ensures few { result ≤ 64 * W }
{
    word_distance_under(&mask.words, &one.words, &other.words)
}

/// At how many positions two codes differ. Counts the ones of the exclusive or of their words.
pub fn dist<const W: usize>(one: &Code<W>, other: &Code<W>) -> u32
    requires { W ≤ WORDS_MOST }
    ensures { result ≡ distance one.now other.now }
{
    word_distance(&one.words, &other.words)
}

// The place of the byte that is no digit.
fn place_of(fault: FromHexError) -> usize
    ensures { (c index : ℕ) → fault ≡ InvalidHexCharacter c index → result ≡ index }
{
    match fault {
        FromHexError::InvalidHexCharacter { index, .. } => index,
        _ => 0,
    }
}
