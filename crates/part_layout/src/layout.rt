//! The layout of a code's positions in parts.

ghost use Rattle.std.specs.Prelude.{◌≡◌, ◌*◌, ◌^◌, ◌<◌, ◌≤◌, ◌↔◌, ℕ, length, take, slice_index, Err, IfErr, IfOk};
ghost use Rattle.hamming_model.specs.declared.limits.TheConstants.{PART_WIDTH_MOST};
ghost use Rattle.part_layout.specs.declared.layout_text.TheConstants.{TEXT};
ghost use Rattle.part_layout.specs.Laid.{IsCodeSize, IsLaid, IsValue, part_at};
ghost use Rattle.part_layout.specs.Contiguous.{CanBeCut, IsCutFault, IsNumberFault, IsWidthFault, can_be_cut, contiguous};
ghost use Rattle.part_layout.specs.Faults.{IsFaultless, IsFault};
ghost use Rattle.part_layout.specs.Grammar.{IsSyntaxFault, spelled};
ghost use Rattle.part_layout.specs.Text.{layout_text};
ghost use Rattle.part_layout.specs.declared.layout_fault.LayoutFault.TheVariants.{Missing, NoMemory, Parts, Range, Syntax, Twice, Width};

use crate::judging::fault_in;
use crate::layout_text::TEXT;
use crate::pieces::{contiguous_parts, first_width, put_parts, value_at};
use crate::spelling::parts_of;
use crate::syntax::syntax_fault;
use crate::word_runs::{run_value, runs_of};
use crate::{LayoutFault, LayoutText};
use gph_codes::Code;
use hamming_model::{PART_WIDTH_MOST, PARTS_MOST};
use std::alloc::Global;
use std::marker::Model;

// The most parts, as a number of parts is given.
const PARTS: u32 = PARTS_MOST as u32;

/// The positions of a code of 8 to 256 bits, in 1 to 64 parts of 1 to 12 positions.
#[derive(Drop)]
pub struct Layout {
    bits: u32,
    parts: Vec<Vec<u16>>,
    // for each part its first position, where its positions run on in one word
    runs: Vec<Option<u16>>,
}

impl Model for Layout {
    ghost use Rattle.part_layout.specs.Kept.{IsLaidInRuns, laid_of};
    ghost use Rattle.part_layout.specs.Laid.{Laid, laid_code};

    ghost Value = { Laid };

    ghost coded = { laid_code };

    ghost view = { λ kept. laid_of kept.bits kept.parts.items };

    ghost invariant = { λ kept. IsLaidInRuns (laid_of kept.bits kept.parts.items) kept.runs.items };
}

impl Layout {
    /// Whether there is a contiguous layout of so many bits in so many parts: 1 to 64 parts, each of 1 to 12 positions.
    pub fn can_be_cut(bits: u32, parts: u32) -> bool
        ensures { result ≡ can_be_cut bits parts }
    {
        1 <= parts && parts <= PARTS && parts <= bits && bits <= PART_WIDTH_MOST * parts
    }

    /// The contiguous layout: the positions in order, in parts as equal as can be, the longer first.
    ///
    /// # Errors
    ///
    /// `Parts` where `parts` is 0, over 64 or over `bits`, else `Width` of part 0 where the first
    /// part would have more than 12 positions, else `NoMemory` where there is no memory for it.
    pub fn contiguous(alloc: Global, bits: u32, parts: u32) -> Result<Layout, LayoutFault>
        requires { IsCodeSize bits }
        ensures bits { IfOk result (λ layout. layout.bits ≡ bits) }
        ensures layout { IfOk result (λ layout. layout.parts ≡ contiguous bits parts) }
        ensures causes { IfErr result IsCutFault }
        ensures number { (n : ℕ) → (result ≡ Err (Parts n)) ↔ IsNumberFault bits parts n }
        ensures width { (part : ℕ) → (result ≡ Err (Width part)) ↔ IsWidthFault bits parts part }
        ensures cut { IfOk result (λ layout. CanBeCut bits parts) }
        ensures memory { IfErr result (λ fault. (fault ≡ NoMemory) ↔ CanBeCut bits parts) }
    {
        if parts == 0 || parts > PARTS || parts > bits {
            return Err(LayoutFault::Parts { count: parts });
        }
        if first_width(bits, parts) > PART_WIDTH_MOST {
            return Err(LayoutFault::Width { part: 0 });
        }
        let Ok(kept) = contiguous_parts(alloc, bits, parts) else {
            return Err(LayoutFault::NoMemory);
        };
        let Ok(runs) = runs_of(alloc, &kept) else {
            return Err(LayoutFault::NoMemory);
        };
        Ok(Layout {
            bits,
            parts: kept,
            runs,
        })
    }

    /// The layout that a text spells: parts with '/' between each two, in a part positions with ',' between each two, each
    /// of one to three decimal digits. It reads the text a few times and takes memory once no fault is left.
    ///
    /// # Errors
    ///
    /// The first of these that applies: `Syntax` at the first byte, from 0, with which the text begins no text of that
    /// form, or at the text's length where it only begins one; `Range` of the first number that is at least `bits`;
    /// `Twice` of the first number that stood before; `Missing` of the least position that stands nowhere; `Width` of the
    /// first part of more than 12 positions; `Parts` where there are over 64; `NoMemory` where there is no memory for it.
    pub fn parse(alloc: Global, bits: u32, text: &[u8]) -> Result<Layout, LayoutFault>
        requires { IsCodeSize bits }
        // The layout.
        ensures bits { IfOk result (λ layout. layout.bits ≡ bits) }
        ensures layout { IfOk result (λ layout. layout.parts ≡ spelled text.now) }
        ensures faultless { IfOk result (λ layout. IsFaultless bits text.now) }
        // The faults.
        ensures syntax { (at : ℕ) → (result ≡ Err (Syntax at)) ↔ IsSyntaxFault text.now at }
        ensures range { (n : ℕ) → (result ≡ Err (Range n)) ↔ IsFault bits text.now (Range n) }
        ensures twice { (n : ℕ) → (result ≡ Err (Twice n)) ↔ IsFault bits text.now (Twice n) }
        ensures missing { (n : ℕ) → (result ≡ Err (Missing n)) ↔ IsFault bits text.now (Missing n) }
        ensures width { (n : ℕ) → (result ≡ Err (Width n)) ↔ IsFault bits text.now (Width n) }
        ensures parts { (n : ℕ) → (result ≡ Err (Parts n)) ↔ IsFault bits text.now (Parts n) }
        // Want of memory comes last.
        ensures memory { IfErr result (λ fault. (fault ≡ NoMemory) ↔ IsFaultless bits text.now) }
    {
        if let Some(at) = syntax_fault(text) {
            return Err(LayoutFault::Syntax { at });
        }
        if let Some(fault) = fault_in(bits, text) {
            return Err(fault);
        }
        let Ok(parts) = parts_of(alloc, text) else {
            return Err(LayoutFault::NoMemory);
        };
        let Ok(runs) = runs_of(alloc, &parts) else {
            return Err(LayoutFault::NoMemory);
        };
        Ok(Layout { bits, parts, runs })
    }

    /// The number of bits of the codes.
    pub fn bits(&self) -> u32
        ensures bits { result ≡ self.now.bits }
        ensures allowed { IsCodeSize result }
    {
        self.bits
    }

    /// The number of parts.
    pub fn parts(&self) -> u32
        ensures number { result ≡ length self.now.parts }
        ensures layout { IsLaid self.now }
    {
        self.parts.len() as u32
    }

    /// The number of positions of a part: 1 to 12.
    pub fn width(&self, part: u32) -> u32
        requires { part < length self.now.parts }
        ensures width { result ≡ length (part_at self.now part) }
        ensures some { 1 ≤ result }
        ensures narrow { result ≤ PART_WIDTH_MOST }
    {
        self.parts[part as usize].len() as u32
    }

    /// A position of a part, in the part's order.
    pub fn position(&self, part: u32, place: u32) -> u32
        requires in_layout { part < length self.now.parts }
        requires in_part { place < length (part_at self.now part) }
        ensures position { result ≡ slice_index (part_at self.now part) place }
        ensures bound { result < self.now.bits }
    {
        u32::from(self.parts[part as usize][place as usize])
    }

    /// The value of a code at a part: the bits at the part's positions, the first the top one. Where the positions run on in
    /// one word it takes two shifts, else a step for each position.
    pub fn value<const W: usize>(&self, code: &Code<W>, part: u32) -> u16
        requires in_layout { part < length self.now.parts }
        requires room { self.now.bits ≤ 64 * W }
        ensures value { IsValue W self.now code.now part result }
        ensures bound { result < 2 ^ length (part_at self.now part) }
    {
        let positions = self.parts[part as usize].as_slice();
        match self.runs[part as usize] {
            Some(first) => run_value(code, first, positions.len()),
            None => value_at(code, self.bits, positions),
        }
    }

    /// Writes the text at the front of a buffer and gives its length: the positions in decimal,
    /// ',' between those of a part and '/' between parts.
    pub fn write(&self, out: &mut [u8]) -> usize
        requires { length out.old ≡ TEXT }
        ensures text { take result out.new ≡ layout_text self.now.parts }
        ensures bound { result ≤ TEXT }
    {
        put_parts(self.parts.as_slice(), out)
    }

    /// The same text, in a buffer of its own.
    pub fn text(&self) -> LayoutText
        ensures { result ≡ layout_text self.now.parts }
    {
        let mut bytes = [0; TEXT];
        let length = self.write(&mut bytes);
        LayoutText::new(bytes, length)
    }
}
