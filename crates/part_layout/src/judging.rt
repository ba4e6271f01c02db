//! What is wrong with the parts that a layout text spells.

ghost use Rattle.std.specs.Prelude.{◌≡◌, ℕ, ◌<◌, ◌≤◌, List, [], All, length, Some, None, IfOk, IfErr};
ghost use Rattle.hamming_model.specs.declared.limits.TheConstants.{BITS_MOST};
ghost use Rattle.part_layout.specs.Faults.{fault_of, first_beyond, first_repeated, first_wide, least_missing};
ghost use Rattle.part_layout.specs.Grammar.{IsLayoutText, spelled};
ghost use Rattle.part_layout.specs.Laid.{IsCodeSize};
ghost use Rattle.part_layout.specs.ReadOn.{numbers_left, parts_left, IsRest, Tells};

use crate::LayoutFault;
use crate::cursor::next_position;
use hamming_model::{BITS_MOST, PART_WIDTH_MOST, PARTS_MOST};

// How many positions a code may have.
const POSITIONS: usize = BITS_MOST as usize;

/// The first fault of the parts that a layout text spells, as a layout of codes of so many bits. It takes no memory.
pub fn fault_in(bits: u32, text: &[u8]) -> Option<LayoutFault>
    requires allowed { IsCodeSize bits }
    requires text { IsLayoutText text.now }
    ensures { result ≡ fault_of bits (spelled text.now) }
{
    if let Some(position) = first_beyond(bits, text) {
        return Some(LayoutFault::Range { position });
    }
    let table = match table_of(text) {
        Err(position) => return Some(LayoutFault::Twice { position }),
        Ok(table) => table,
    };
    if let Some(position) = least_missing(bits, &table) {
        return Some(LayoutFault::Missing { position });
    }
    if let Some(part) = first_wide(text) {
        return Some(LayoutFault::Width { part });
    }
    let count = number_of_parts(text);
    if PARTS_MOST < count as usize {
        return Some(LayoutFault::Parts { count });
    }
    None
}

// The first number that is at least the number of bits.
fn first_beyond(bits: u32, text: &[u8]) -> Option<u32>
    requires { IsRest text.now }
    ensures { result ≡ first_beyond bits (numbers_left text.now) }
{
    let mut rest = text;
    while let Some((listed, after)) = next_position(rest) {
        if bits <= listed.position {
            return Some(listed.position);
        }
        rest = after;
    }
    None
}

// Which positions the text lists, or the first number that stood before.
fn table_of(text: &[u8]) -> Result<[bool; POSITIONS], u32>
    requires rest { IsRest text.now }
    requires few { All (λ number. number < BITS_MOST) (numbers_left text.now) }
    ensures repeated { IfErr result (λ n. first_repeated [] (numbers_left text.now) ≡ Some n) }
    ensures single { IfOk result (λ table. first_repeated [] (numbers_left text.now) ≡ None) }
    ensures table { IfOk result (λ table. Tells table (numbers_left text.now)) }
{
    let mut table = empty_table();
    let mut rest = text;
    while let Some((listed, after)) = next_position(rest) {
        if table[listed.position as usize] {
            return Err(listed.position);
        }
        table[listed.position as usize] = true;
        rest = after;
    }
    Ok(table)
}

// The table of no positions.
fn empty_table() -> [bool; POSITIONS]
    ensures none { Tells result [] }
    ensures size { length result ≡ BITS_MOST }
{
    [false; POSITIONS]
}

// The least position below the number of bits that isn't listed.
fn least_missing(bits: u32, table: &[bool; POSITIONS]) -> Option<u32>
    requires { bits ≤ BITS_MOST }
    ensures { (numbers : List ℕ) → Tells table.now numbers → result ≡ least_missing bits numbers }
{
    for position in 0..bits {
        if !table[position as usize] {
            return Some(position);
        }
    }
    None
}

// The first part, from 0, of more than 12 positions.
fn first_wide(text: &[u8]) -> Option<u32>
    requires rest { IsRest text.now }
    requires few { length (numbers_left text.now) ≤ BITS_MOST }
    ensures { result ≡ first_wide (parts_left text.now) }
{
    let mut part = 0;
    let mut width: u32 = 0;
    let mut rest = text;
    while let Some((listed, after)) = next_position(rest) {
        width += 1;
        if PART_WIDTH_MOST < width {
            return Some(part);
        }
        if listed.ends_part {
            part += 1;
            width = 0;
        }
        rest = after;
    }
    None
}

// How many parts there are.
fn number_of_parts(text: &[u8]) -> u32
    requires rest { IsRest text.now }
    requires few { length (numbers_left text.now) ≤ BITS_MOST }
    ensures { result ≡ length (parts_left text.now) }
{
    let mut count = 0;
    let mut rest = text;
    while let Some((listed, after)) = next_position(rest) {
        if listed.ends_part {
            count += 1;
        }
        rest = after;
    }
    count
}
