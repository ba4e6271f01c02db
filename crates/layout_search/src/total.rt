//! The least costs of all samples, added up.

ghost use Rattle.std.specs.Prelude.{◌≡◌, sum_by};
ghost use Rattle.layout_search.specs.Totals.{AreSolvable, table_cost};

use sample_table::SampleTable;

// The sum of the least costs.
pub(crate) fn total_cost(tables: &mut [SampleTable]) -> u64
    requires { AreSolvable tables.old }
    ensures cost { result ≡ sum_by table_cost tables.old }
    ensures same { tables.new ≡ tables.old }
{
    let mut total = 0;
    for at in 0..tables.len() {
        total += u64::from(tables[at].least());
    }
    total
}
