//! All parts of a version that is made.

ghost use Rattle.std.specs.Prelude.{◌≡◌, ◌*◌, ◌<◌, ◌≤◌, length, map, IfOk};
ghost use Rattle.std.specs.List.Sorted.{IsStrictlySortedBy};
ghost use Rattle.std.specs.Map.{keys_of};
ghost use Rattle.std.specs.Ordering.{nat_cmp};
ghost use Rattle.hamming_model.specs.declared.limits.TheConstants.{ENTRIES_MOST, WORDS_MOST};
ghost use Rattle.shard_version.specs.Tables.{AreStored};
ghost use Rattle.version_draft.specs.KeptDrafts.{AreBegun, ArePlaced};
ghost use Rattle.version_draft.specs.PartDrafts.{tables_of};

use crate::part_draft::PartDraft;
use gph_codes::Code;
use part_layout::Layout;
use read_meter::NoMemory;
use shard_version::PartTable;
use std::alloc::Global;

// Counts the rows' values at each part, and takes room for them.
pub fn begin_each<const W: usize>(
    alloc: Global,
    layout: &Layout,
    rows: &[(u64, Code<W>)],
) -> Result<Vec<PartDraft<W>>, NoMemory>
    requires few_words { W ≤ WORDS_MOST }
    requires room { layout.now.bits ≤ 64 * W }
    requires codes { AreStored W layout.now.bits rows.now }
    requires few { length rows.now ≤ ENTRIES_MOST }
    ensures { IfOk result (λ parts.
        AreBegun layout.now rows.now parts.items (length layout.now.parts)) }
{
    let mut parts = Vec::new(alloc);
    for part in 0..layout.parts() {
        let draft = PartDraft::begin(alloc, layout, part, rows)?;
        parts.push(draft)?;
    }
    Ok(parts)
}

// Places the next row in each part.
pub fn place_in_each<const W: usize>(
    parts: &mut Vec<PartDraft<W>>,
    layout: &Layout,
    rows: &[(u64, Code<W>)],
    next: usize,
)
    requires room { layout.now.bits ≤ 64 * W }
    requires codes { AreStored W layout.now.bits rows.now }
    requires few_words { W ≤ WORDS_MOST }
    requires ascending { IsStrictlySortedBy nat_cmp (keys_of rows.now) }
    requires next { next < length rows.now }
    requires parts { ArePlaced layout.now rows.now parts.old.items next 0 }
    ensures { ArePlaced layout.now rows.now parts.new.items next (length layout.now.parts) }
{
    for part in 0..layout.parts() {
        parts[part as usize].place(layout, part, rows, next);
    }
}

// The tables of each part, as far as rows are placed.
pub fn tables_of_each<const W: usize>(
    alloc: Global,
    parts: &[PartDraft<W>],
) -> Result<Vec<PartTable<W>>, NoMemory>
    requires { W ≤ WORDS_MOST }
    ensures { IfOk result (λ tables. tables.items ≡ map tables_of parts.now) }
{
    let mut tables = Vec::new(alloc);
    for part in parts {
        let table = part.tables()?;
        tables.push(table)?;
    }
    Ok(tables)
}
