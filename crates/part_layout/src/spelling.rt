//! The parts that a layout text spells, as they are kept.

ghost use Rattle.std.specs.Prelude.{◌≡◌, ◌<◌, ◌∷◌, length, IfOk};
ghost use Rattle.part_layout.specs.Kept.{lists_of};
ghost use Rattle.part_layout.specs.ReadOn.{parts_left, BeginsWith, IsRest};

use crate::cursor::next_position;
use read_meter::NoMemory;
use std::alloc::Global;

/// The parts that a layout text spells.
pub fn parts_of(alloc: Global, text: &[u8]) -> Result<Vec<Vec<u16>>, NoMemory>
    requires { IsRest text.now }
    ensures { IfOk result (λ kept. lists_of kept.items ≡ parts_left text.now) }
{
    let mut parts = Vec::new(alloc);
    let mut rest = text;
    while !rest.is_empty() {
        let (part, after) = first_part(alloc, rest)?;
        parts.push(part)?;
        rest = after;
    }
    Ok(parts)
}

// The first part that the rest of a text spells, and what follows it.
fn first_part(alloc: Global, text: &[u8]) -> Result<(Vec<u16>, &[u8]), NoMemory>
    requires rest { IsRest text.now }
    requires some { 0 < length text.now }
    ensures part { IfOk result (λ found. BeginsWith text.now found.0.items found.1.now) }
    ensures rest { IfOk result (λ found. IsRest found.1.now) }
    ensures fewer { IfOk result (λ found. length found.1.now < length text.now) }
{
    let mut part = Vec::new(alloc);
    let mut rest = text;
    while let Some((listed, after)) = next_position(rest) {
        part.push(listed.position as u16)?;
        if listed.ends_part {
            return Ok((part, after));
        }
        rest = after;
    }
    unreachable!()
}
