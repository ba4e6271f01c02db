//! The counts of the parts, in the table of each sample.

ghost use Rattle.std.specs.Prelude.{◌≡◌, ◌*◌, ◌<◌, ◌≤◌, length, IfOk};
ghost use Rattle.exchange_model.specs.Exchanges.{IsInside};
ghost use Rattle.layout_search.specs.Arranged.{exchanged_in};
ghost use Rattle.part_layout.specs.Laid.{IsLaid, part_at};
ghost use Rattle.shard_version.specs.Tables.{part_values};
ghost use Rattle.layout_search.specs.Inside.{AreCounted, AreStoredRows, AreNear, AreTables, HaveParts, HaveRadii, IsSearchTask, plain_rows};

use crate::Sample;
use crate::arrangement::Arrangement;
use exchange_model::PositionExchange;
use gph_codes::Code;
use read_meter::NoMemory;
use sample_table::SampleTable;
use std::alloc::Global;

// A table of no counts for each sample.
pub(crate) fn empty_tables<const W: usize>(
    alloc: Global,
    parts: u32,
    samples: &[Sample<W>],
) -> Result<Vec<SampleTable>, NoMemory>
    requires { AreNear samples.now }
    ensures number { IfOk result (λ tables. length tables.items ≡ length samples.now) }
    ensures wide { IfOk result (λ tables. HaveParts parts (length tables.items) tables.items) }
    ensures near { IfOk result (λ tables. HaveRadii samples.now tables.items) }
{
    let Ok(mut tables) = Vec::with_capacity(alloc, samples.len()) else {
        return Err(NoMemory);
    };
    for at in 0..samples.len() {
        let table = SampleTable::new(alloc, parts, samples[at].tau)?;
        let Ok(()) = tables.push(table) else {
            return Err(NoMemory);
        };
    }
    Ok(tables)
}

// Counts all parts.
pub(crate) fn count_all<const W: usize>(
    layout: &Arrangement,
    rows: &[(u64, Code<W>)],
    samples: &[Sample<W>],
    values: &mut [u16],
    tables: &mut [SampleTable],
)
    requires task { IsSearchTask layout.now.bits rows.now samples.now }
    requires values { length values.old ≡ length rows.now }
    requires tables { length tables.old ≡ length samples.now }
    requires wide { HaveParts (length layout.now.parts) (length tables.old) tables.old }
    requires near { HaveRadii samples.now tables.old }
    ensures counted { AreTables layout.now.bits rows.now samples.now layout.now.parts tables.new }
    ensures sized { length values.new ≡ length values.old }
{
    for part in 0..layout.parts() {
        count_part(layout, part, rows, samples, values, tables);
    }
}

// Exchanges two positions of a layout, and counts the two parts anew in the table of each sample.
pub(crate) fn exchange_parts<const W: usize>(
    layout: &mut Arrangement,
    exchange: PositionExchange,
    rows: &[(u64, Code<W>)],
    samples: &[Sample<W>],
    values: &mut [u16],
    tables: &mut [SampleTable],
)
    requires laid { IsLaid layout.old }
    requires inside { IsInside layout.old.parts exchange }
    requires task { IsSearchTask layout.old.bits rows.now samples.now }
    requires counted { AreTables layout.old.bits rows.now samples.now layout.old.parts tables.old }
    requires values { length values.old ≡ length rows.now }
    ensures layout { layout.new ≡ exchanged_in layout.old exchange }
    ensures laid { IsLaid layout.new }
    ensures counted { AreTables layout.new.bits rows.now samples.now layout.new.parts tables.new }
{
    layout.exchange(exchange);
    count_part(layout, exchange.part, rows, samples, values, tables);
    count_part(layout, exchange.part + 1, rows, samples, values, tables);
}

// Counts a part anew in the table of each sample.
fn count_part<const W: usize>(
    layout: &Arrangement,
    part: u32,
    rows: &[(u64, Code<W>)],
    samples: &[Sample<W>],
    values: &mut [u16],
    tables: &mut [SampleTable],
)
    requires part { part < length layout.now.parts }
    requires task { IsSearchTask layout.now.bits rows.now samples.now }
    requires values { length values.old ≡ length rows.now }
    requires tables { length tables.old ≡ length samples.now }
    requires wide { HaveParts (length layout.now.parts) (length tables.old) tables.old }
    requires near { HaveRadii samples.now tables.old }
    ensures { AreCounted layout.now.bits rows.now samples.now part (part_at layout.now part)
        tables.old tables.new (length tables.old) }
{
    row_values(layout, part, rows, values);
    for at in 0..samples.len() {
        let value = layout.value(&samples[at].query, part);
        tables[at].count_part(part as usize, values, value);
    }
}

// The values of the rows at a part.
pub(crate) fn row_values<const W: usize>(
    layout: &Arrangement,
    part: u32,
    rows: &[(u64, Code<W>)],
    values: &mut [u16],
)
    requires part { part < length layout.now.parts }
    requires room { layout.now.bits ≤ 64 * W }
    requires codes { AreStoredRows W layout.now.bits rows.now }
    requires values { length values.old ≡ length rows.now }
    ensures { values.new
        ≡ part_values (plain_rows layout.now.bits rows.now) (part_at layout.now part) }
{
    for at in 0..rows.len() {
        values[at] = layout.value(&rows[at].1, part);
    }
}
