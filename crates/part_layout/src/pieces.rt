//! Parts as they are laid, printed and read of a code.

ghost use Rattle.std.specs.Prelude.{◌≡◌, ◌+◌, ◌-◌, ◌*◌, ◌^◌, ◌<◌, ◌≤◌, ◌++◌, ℕ, List, All, [], length, take, slice_index, slice_index_or, IfOk, OnOk};
ghost use Rattle.std.specs.List.{range_with_len};
ghost use Rattle.hamming_model.specs.Codes.{StandsFor};
ghost use Rattle.hamming_model.specs.Layouts.{part_value};
ghost use Rattle.hamming_model.specs.declared.limits.TheConstants.{BITS_MOST, PART_WIDTH_MOST};
ghost use Rattle.part_layout.specs.Contiguous.{contiguous};
ghost use Rattle.part_layout.specs.Kept.{AddsRuns, FitsText, lists_of, mark_before};
ghost use Rattle.part_layout.specs.Text.{layout_text, part_text};

use gph_codes::Code;
use itoa::Buffer;
use read_meter::NoMemory;
use std::alloc::Global;

/// How many positions the first part of the contiguous layout has.
pub fn first_width(bits: u32, parts: u32) -> u32
    requires some { 0 < parts }
    requires few { bits ≤ BITS_MOST }
    ensures { result ≡ length (slice_index_or (contiguous bits parts) 0 []) }
{
    if bits % parts == 0 {
        bits / parts
    } else {
        bits / parts + 1
    }
}

/// The parts of the contiguous layout.
pub fn contiguous_parts(alloc: Global, bits: u32, parts: u32) -> Result<Vec<Vec<u16>>, NoMemory>
    requires some { 0 < parts }
    requires few { bits ≤ BITS_MOST }
    ensures { IfOk result (λ kept. lists_of kept.items ≡ contiguous bits parts) }
{
    let width = bits / parts;
    let longer = bits % parts;
    let mut kept = Vec::new(alloc);
    push_runs(alloc, &mut kept, longer, width + 1, 0)?;
    push_runs(
        alloc,
        &mut kept,
        parts - longer,
        width,
        longer * (width + 1),
    )?;
    Ok(kept)
}

// Adds so many parts of one width, the positions in order from the first on.
fn push_runs(
    alloc: Global,
    parts: &mut Vec<Vec<u16>>,
    number: u32,
    width: u32,
    first: u32,
) -> Result<(), NoMemory>
    requires { first + number * width ≤ BITS_MOST }
    ensures { OnOk result (AddsRuns parts.old.items parts.new.items number width first) }
{
    for done in 0..number {
        let part = run(alloc, first + done * width, width)?;
        parts.push(part)?;
    }
    Ok(())
}

// So many positions in order.
fn run(alloc: Global, first: u32, width: u32) -> Result<Vec<u16>, NoMemory>
    requires { first + width ≤ BITS_MOST }
    ensures { IfOk result (λ part. part.items ≡ range_with_len first width) }
{
    let mut part = Vec::new(alloc);
    for offset in 0..width {
        part.push((first + offset) as u16)?;
    }
    Ok(part)
}

/// The value of a code of so many bits at a part.
pub fn value_at<const W: usize>(code: &Code<W>, bits: u32, part: &[u16]) -> u16
    requires in_code { All (λ position. position < bits) part.now }
    requires room { bits ≤ 64 * W }
    requires narrow { length part.now ≤ PART_WIDTH_MOST }
    ensures value { (x : List ℕ) → StandsFor W bits code.now x → result ≡ part_value x part.now }
    ensures bound { result < 2 ^ length part.now }
{
    let mut value = 0;
    for position in part {
        value = 2 * value + bit_at(code, bits, u32::from(*position));
    }
    value
}

// The bit of a code at a position.
fn bit_at<const W: usize>(code: &Code<W>, bits: u32, position: u32) -> u16
    requires in_code { position < bits }
    requires room { bits ≤ 64 * W }
    ensures bit { (x : List ℕ) → StandsFor W bits code.now x → result ≡ slice_index x position }
    ensures bound { result < 2 }
{
    if code.bit(position) { 1 } else { 0 }
}

/// Writes the text of parts at the front of a buffer and gives its length.
pub fn put_parts(parts: &[Vec<u16>], out: &mut [u8]) -> usize
    requires { FitsText (length out.old) (lists_of parts.now) }
    ensures text { take result out.new ≡ layout_text (lists_of parts.now) }
    ensures bound { result ≤ length out.old }
{
    let mut at = 0;
    for (place, part) in parts.iter().enumerate() {
        at = put_mark(out, at, place, b'/');
        at = put_part(out, at, part.as_slice());
    }
    at
}

// Writes the text of a part from a place on, and gives the place after it.
fn put_part(out: &mut [u8], at: usize, part: &[u16]) -> usize
    requires room { at + 4 * length part.now ≤ length out.old + 1 }
    requires some { 0 < length part.now }
    requires short { All (λ position. position < 1000) part.now }
    ensures text { take result out.new ≡ take at out.old ++ part_text part.now }
    ensures bound { result + 1 ≤ at + 4 * length part.now }
{
    let mut end = at;
    for (place, position) in part.iter().enumerate() {
        end = put_mark(out, end, place, b',');
        end = put(out, end, Buffer::new().format(*position).as_bytes());
    }
    end
}

// Writes the mark before a piece at a place, but not before the first, and gives the place after it.
fn put_mark(out: &mut [u8], at: usize, place: usize, mark: u8) -> usize
    requires { at + 1 ≤ length out.old }
    ensures written { take result out.new ≡ take at out.old ++ mark_before place mark }
    ensures end { result ≡ at + length (mark_before place mark) }
{
    if place == 0 {
        at
    } else {
        put(out, at, &[mark])
    }
}

// Writes bytes from a place on, and gives the place after them.
fn put(out: &mut [u8], at: usize, bytes: &[u8]) -> usize
    requires { at + length bytes.now ≤ length out.old }
    ensures written { take result out.new ≡ take at out.old ++ bytes.now }
    ensures end { result ≡ at + length bytes.now }
{
    let end = at + bytes.len();
    out[at..end].copy_from_slice(bytes);
    end
}
