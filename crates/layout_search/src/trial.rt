//! What an exchange would cost: the counts of two parts beside those that the tables have.

ghost use Rattle.std.specs.Prelude.{◌≡◌, ◌+◌, ◌<◌, length};
ghost use Rattle.part_layout.specs.Laid.{IsLaid};
ghost use Rattle.layout_search.specs.Inside.{IsSearchTask, cost_at};
ghost use Rattle.layout_search.specs.Trial.{AreTablesBeside, AreTurned, HavePair, HaveSameCounts};

use crate::Sample;
use crate::arrangement::Arrangement;
use crate::counting::row_values;
use exchange_model::least_cost_is_the_least;
use gph_codes::Code;
use sample_table::SampleTable;

// Turns each table to a part and the next.
pub(crate) fn turn_all(part: u32, tables: &mut [SampleTable])
    requires { HavePair part tables.old }
    ensures counts { HaveSameCounts tables.old tables.new }
    ensures turned { AreTurned part (length tables.new) tables.new }
{
    for at in 0..tables.len() {
        tables[at].turn_to(part as usize);
    }
}

// The cost of a layout, where the tables are of one that differs from it at a part and the next alone.
pub(crate) fn trial_cost<const W: usize>(
    layout: &Arrangement,
    part: u32,
    rows: &[(u64, Code<W>)],
    samples: &[Sample<W>],
    values: &mut [u16],
    next_values: &mut [u16],
    tables: &mut [SampleTable],
) -> u64
    requires laid { IsLaid layout.now }
    requires pair { part + 1 < length layout.now.parts }
    requires task { IsSearchTask layout.now.bits rows.now samples.now }
    requires counted { AreTablesBeside layout.now.bits rows.now samples.now layout.now.parts part
        tables.old }
    requires turned { AreTurned part (length tables.old) tables.old }
    requires values { length values.old ≡ length rows.now }
    requires next_values { length next_values.old ≡ length rows.now }
    ensures cost { result ≡ cost_at layout.now.bits rows.now samples.now layout.now.parts }
    ensures same { tables.new ≡ tables.old }
{
    least_cost_is_the_least();
    row_values(layout, part, rows, values);
    row_values(layout, part + 1, rows, next_values);
    let mut total = 0;
    for at in 0..samples.len() {
        let value = layout.value(&samples[at].query, part);
        let next_value = layout.value(&samples[at].query, part + 1);
        let least = tables[at].least_with(part as usize, values, value, next_values, next_value);
        total += u64::from(least);
    }
    total
}
