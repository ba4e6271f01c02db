//! The tables of all parts of a layout.

ghost use Rattle.std.specs.Prelude.{◌≡◌, ◌*◌, ◌≤◌, length, take, IfOk, OnOk};
ghost use Rattle.hamming_model.specs.Codes.{StandsFor};
ghost use Rattle.shard_version.specs.KeptParts.{AreChanged, AreEmpty, EachHas, EachTakes, Lost, Taken};

use crate::part_table::PartTable;
use gph_codes::Code;
use part_layout::Layout;
use read_meter::NoMemory;
use std::alloc::Global;

// Tables of no rows, for each part.
pub fn empty_tables<const W: usize>(
    alloc: Global,
    layout: &Layout,
    parts: u32,
) -> Result<Vec<PartTable<W>>, NoMemory>
    requires { parts ≡ length layout.now.parts }
    ensures { IfOk result (λ tables. AreEmpty layout.now tables.items (length layout.now.parts)) }
{
    let mut tables = Vec::new(alloc);
    for part in 0..parts {
        let table = PartTable::empty(alloc, layout.width(part))?;
        tables.push(table)?;
    }
    Ok(tables)
}

// Equal tables of their own.
pub fn copies<const W: usize>(
    alloc: Global,
    tables: &[PartTable<W>],
) -> Result<Vec<PartTable<W>>, NoMemory>
    ensures { IfOk result (λ copies. copies.items ≡ tables.now) }
{
    let mut copies = Vec::new(alloc);
    for table in tables {
        let copied = table.copy()?;
        copies.push(copied)?;
    }
    Ok(copies)
}

// Adds a row to each part.
pub fn insert_in_each<const W: usize>(
    tables: &mut Vec<PartTable<W>>,
    layout: &Layout,
    key: u64,
    code: Code<W>,
) -> Result<(), NoMemory>
    requires room { layout.now.bits ≤ 64 * W }
    requires number { length tables.old.items ≡ length layout.now.parts }
    requires code { StandsFor W layout.now.bits code (take layout.now.bits code) }
    requires each { EachTakes layout.now tables.old.items key (take layout.now.bits code) }
    ensures { OnOk result (AreChanged
        (Taken layout.now key code.entry (take layout.now.bits code.entry))
        tables.old.items tables.new.items (length tables.old.items)) }
{
    for part in 0..layout.parts() {
        let value = layout.value(&code, part);
        tables[part as usize].insert(value, key, code)?;
    }
    Ok(())
}

// Takes a row out of each part.
pub fn remove_from_each<const W: usize>(
    tables: &mut Vec<PartTable<W>>,
    layout: &Layout,
    key: u64,
    code: &Code<W>,
) -> Result<(), NoMemory>
    requires room { layout.now.bits ≤ 64 * W }
    requires number { length tables.old.items ≡ length layout.now.parts }
    requires code { StandsFor W layout.now.bits code.now (take layout.now.bits code.now) }
    requires each { EachHas layout.now tables.old.items key (take layout.now.bits code.now) }
    ensures { OnOk result (AreChanged
        (Lost layout.now key (take layout.now.bits code.now))
        tables.old.items tables.new.items (length tables.old.items)) }
{
    for part in 0..layout.parts() {
        let value = layout.value(code, part);
        tables[part as usize].remove(value, key)?;
    }
    Ok(())
}
