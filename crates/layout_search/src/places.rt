//! The positions of parts: read from a layout, put in other places, and read of a code.

ghost use Rattle.std.specs.Prelude.{◌≡◌, ◌*◌, ◌^◌, ◌<◌, ◌≤◌, ℕ, List, All, [], length, slice_index, slice_index_or, slice_set, IfOk};
ghost use Rattle.hamming_model.specs.Codes.{StandsFor};
ghost use Rattle.hamming_model.specs.Layouts.{part_value};
ghost use Rattle.hamming_model.specs.declared.limits.TheConstants.{PART_WIDTH_MOST};
ghost use Rattle.part_layout.specs.Kept.{lists_of};
ghost use Rattle.part_layout.specs.Laid.{IsLaid, part_at};

use gph_codes::Code;
use part_layout::Layout;
use read_meter::NoMemory;
use std::alloc::Global;

// The positions of a part of a layout.
pub(crate) fn part_of(alloc: Global, layout: &Layout, part: u32) -> Result<Vec<u16>, NoMemory>
    requires in_layout { part < length layout.now.parts }
    requires laid { IsLaid layout.now }
    ensures { IfOk result (λ positions. positions.items ≡ part_at layout.now part) }
{
    let mut positions = Vec::new(alloc);
    for place in 0..layout.width(part) {
        let Ok(()) = positions.push(layout.position(part, place) as u16) else {
            return Err(NoMemory);
        };
    }
    Ok(positions)
}

// The position at a place of a part.
pub(crate) fn position_at(parts: &Vec<Vec<u16>>, part: usize, place: usize) -> u16
    requires in_layout { part < length parts.now.items }
    requires in_part { place < length (slice_index_or (lists_of parts.now.items) part []) }
    ensures { result ≡ slice_index (slice_index_or (lists_of parts.now.items) part []) place }
{
    parts[part][place]
}

// Puts a position at a place of a part.
pub(crate) fn put_position(parts: &mut Vec<Vec<u16>>, part: usize, place: usize, position: u16)
    requires in_layout { part < length parts.old.items }
    requires in_part { place < length (slice_index_or (lists_of parts.old.items) part []) }
    ensures { let own = slice_index_or (lists_of parts.old.items) part [] in
        lists_of parts.new.items
        ≡ slice_set (lists_of parts.old.items) part (slice_set own place position) }
{
    parts[part][place] = position;
}

// The value of a code of so many bits at a part.
pub(crate) fn value_at<const W: usize>(code: &Code<W>, bits: u32, part: &[u16]) -> u16
    requires in_code { All (λ position. position < bits) part.now }
    requires room { bits ≤ 64 * W }
    requires narrow { length part.now ≤ PART_WIDTH_MOST }
    ensures { (x : List ℕ) → StandsFor W bits code.now x → result ≡ part_value x part.now }
{
    let mut value = 0;
    for position in part {
        value = 2 * value + bit_at(code, bits, u32::from(*position));
    }
    value
}

// The bit of a code at a position.
fn bit_at<const W: usize>(code: &Code<W>, bits: u32, position: u32) -> u16
    requires in_code { position < bits }
    requires room { bits ≤ 64 * W }
    ensures bit { (x : List ℕ) → StandsFor W bits code.now x → result ≡ slice_index x position }
    ensures bound { result < 2 }
{
    if code.bit(position) { 1 } else { 0 }
}
