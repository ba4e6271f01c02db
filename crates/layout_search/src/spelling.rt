//! The text of parts.

ghost use Rattle.std.specs.Prelude.{◌≡◌, ◌++◌, IfOk, OnOk};
ghost use Rattle.part_layout.specs.Kept.{lists_of, mark_before};
ghost use Rattle.part_layout.specs.Text.{layout_text, part_text};

use itoa::Buffer;
use read_meter::NoMemory;
use std::alloc::Global;

// The text of parts.
pub(crate) fn text_of(alloc: Global, parts: &[Vec<u16>]) -> Result<Vec<u8>, NoMemory>
    ensures { IfOk result (λ text. text.items ≡ layout_text (lists_of parts.now)) }
{
    let mut text = Vec::new(alloc);
    for (place, part) in parts.iter().enumerate() {
        add_mark(&mut text, place, b'/')?;
        add_part(&mut text, part.as_slice())?;
    }
    Ok(text)
}

// Adds the text of a part.
fn add_part(text: &mut Vec<u8>, part: &[u16]) -> Result<(), NoMemory>
    ensures { OnOk result (text.new.items ≡ text.old.items ++ part_text part.now) }
{
    for (place, position) in part.iter().enumerate() {
        add_mark(text, place, b',')?;
        add(text, Buffer::new().format(*position).as_bytes())?;
    }
    Ok(())
}

// Adds the mark before a piece at a place, but not before the first.
fn add_mark(text: &mut Vec<u8>, place: usize, mark: u8) -> Result<(), NoMemory>
    ensures { OnOk result (text.new.items ≡ text.old.items ++ mark_before place mark) }
{
    if place == 0 {
        return Ok(());
    }
    add(text, &[mark])
}

// Adds bytes.
fn add(text: &mut Vec<u8>, bytes: &[u8]) -> Result<(), NoMemory>
    ensures { OnOk result (text.new.items ≡ text.old.items ++ bytes.now) }
{
    let Ok(()) = text.extend_from_slice(bytes) else {
        return Err(NoMemory);
    };
    Ok(())
}
