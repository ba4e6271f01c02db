//! The positions of live fronts below a position.

ghost use Rattle.std.specs.Prelude.{◌≡◌, ◌<◌, ◌||◌, ◌==◌, IfOk, OnOk};
ghost use Rattle.commit_journal.specs.Fronts.{AreOlder, ArePositionsInOrder, has_position};
ghost use Rattle.commit_journal.specs.Kept.{AddsPosition, live_of};

use read_meter::NoMemory;
use slab::Slab;
use std::alloc::Global;

// The positions of the live fronts strictly below a position, ascending, each once.
pub fn older_positions(
    alloc: Global,
    live: &Slab<(u32, u64)>,
    position: u64,
) -> Result<Vec<u64>, NoMemory>
    ensures { IfOk result (λ older. AreOlder (live_of live.now) position older.items) }
{
    let mut older = Vec::new(alloc);
    for (_id, front) in live.iter() {
        if front.1 < position {
            add_position(&mut older, front.1)?;
        }
    }
    Ok(older)
}

// Adds a position at its place, where it isn't there.
fn add_position(positions: &mut Vec<u64>, position: u64) -> Result<(), NoMemory>
    requires { ArePositionsInOrder positions.old.items }
    ensures { OnOk result (AddsPosition positions.old.items position positions.new.items) }
{
    for place in 0..positions.len() {
        if positions[place] == position {
            return Ok(());
        }
        if positions[place] > position {
            positions.insert(place, position)?;
            return Ok(());
        }
    }
    positions.push(position)?;
    Ok(())
}
