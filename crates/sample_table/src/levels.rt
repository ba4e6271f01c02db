//! How many values are near to one.

ghost use Rattle.std.specs.Prelude.{◌≡◌, ◌+◌, ◌<◌, ◌≤◌, EachIndex, count_by, length, slice_index, sum, take};
ghost use Rattle.ball_walk.specs.Balls.{value_distance};
ghost use Rattle.exchange_model.specs.declared.limits.TheConstants.{SEARCH_ROWS_MOST};
ghost use Rattle.sample_table.specs.Levels.{levels_of};
ghost use Rattle.sample_table.specs.Sums.{is_last_at};

// Writes to each place of `out` how many values are nearer to a value than that many units.
pub(crate) fn levels(values: &[u16], value: u16, out: &mut [u32])
    requires { length values.now ≤ SEARCH_ROWS_MOST }
    ensures { out.new ≡ levels_of values.now value (length out.old) }
{
    count_each(values, value, out);
    add_up(out);
}

// Writes to each place how many values are near enough at that many units, and at no fewer.
fn count_each(values: &[u16], value: u16, out: &mut [u32])
    requires { length values.now ≤ SEARCH_ROWS_MOST }
    ensures { EachIndex out.new (λ at. slice_index out.new at
        ≡ count_by (is_last_at value at) values.now) }
{
    out.fill(0);
    for other in values {
        let units = distance(*other, value) + 1;
        if units < out.len() {
            out[units] += 1;
        }
    }
}

// At how many binary digits two values differ.
fn distance(other: u16, value: u16) -> usize
    ensures distance { result ≡ value_distance other value }
    ensures few { result ≤ 16 }
{
    (other ^ value).count_ones() as usize
}

// Adds to each number all those before it.
fn add_up(out: &mut [u32])
    requires { sum out.old ≤ SEARCH_ROWS_MOST }
    ensures { EachIndex out.new (λ at. slice_index out.new at ≡ sum (take (at + 1) out.old)) }
{
    for at in 1..out.len() {
        out[at] += out[at - 1];
    }
}
