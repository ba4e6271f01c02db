//! Where a key stands among rows that ascend by key.

ghost use Rattle.std.specs.Prelude.{◌≡◌, is_some, nat_lt};
ghost use Rattle.std.specs.List.Sorted.{IsStrictlySortedBy};
ghost use Rattle.std.specs.Map.{keys_of};
ghost use Rattle.std.specs.Ordering.{nat_cmp};
ghost use Rattle.hamming_model.specs.History.{code_at};
ghost use Rattle.shard_version.specs.Kept.{IsPlace};

use gph_codes::Code;

// The place at which the row of a key stands, or would stand. Looks at some of the keys, by halves.
pub fn place_of<const W: usize>(rows: &[(u64, Code<W>)], key: u64) -> usize
    requires { IsStrictlySortedBy nat_cmp (keys_of rows.now) }
    ensures { IsPlace rows.now key result }
{
    rows.partition_point(
        |row: &(u64, Code<W>)| -> bool
            ensures { result ≡ nat_lt row.now.0 key }
        { row.0 < key },
    )
}

// Whether the row of a key stands at its place.
pub fn stands_at<const W: usize>(rows: &[(u64, Code<W>)], place: usize, key: u64) -> bool
    requires ascending { IsStrictlySortedBy nat_cmp (keys_of rows.now) }
    requires place { IsPlace rows.now key place }
    ensures { result ≡ is_some (code_at rows.now key) }
{
    place < rows.len() && rows[place].0 == key
}
