//! A change of one bucket of a table: in place where no other table has it, else in a copy that is made first.

ghost use Rattle.std.specs.Prelude.{◌≡◌, ◌<◌, length, slice_set, OnOk, OnErr};
ghost use Rattle.std.specs.Arc.{arc_value};
ghost use Rattle.posting_table.specs.Shared.{LosesAt, list_at, with_last};

use crate::bucket::Bucket;
use gph_codes::Code;
use read_meter::NoMemory;
use std::sync::Arc;

// Adds an entry at the end of a list.
pub(crate) fn push_in<const W: usize>(
    bucket: &mut Arc<Bucket<W>>,
    at: usize,
    key: u64,
    code: Code<W>,
) -> Result<(), NoMemory>
    requires { at < length (arc_value bucket.old) }
    ensures added { OnOk result (arc_value bucket.new
        ≡ with_last (arc_value bucket.old) at (key, code.entry)) }
    ensures unchanged { OnErr result (arc_value bucket.new ≡ arc_value bucket.old) }
{
    let own = Arc::make_mut(bucket)?;
    own.push(at, key, code)
}

// Takes an entry out of a list, whose last entry takes its place.
pub(crate) fn remove_from<const W: usize>(
    bucket: &mut Arc<Bucket<W>>,
    at: usize,
    place: usize,
) -> Result<(), NoMemory>
    requires bucket { at < length (arc_value bucket.old) }
    requires list { place < length (list_at (arc_value bucket.old) at) }
    ensures lost { OnOk result (LosesAt (list_at (arc_value bucket.old) at)
        (list_at (arc_value bucket.new) at) place) }
    ensures others { arc_value bucket.new
        ≡ slice_set (arc_value bucket.old) at (list_at (arc_value bucket.new) at) }
    ensures unchanged { OnErr result (arc_value bucket.new ≡ arc_value bucket.old) }
{
    let own = Arc::make_mut(bucket)?;
    own.remove(at, place);
    Ok(())
}
