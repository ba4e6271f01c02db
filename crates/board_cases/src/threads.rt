//! Desks of one board in threads of their own.

ghost use Rattle.std.specs.Prelude.{◌≡◌, []};
ghost use Rattle.std.specs.Thread.{IsSync};

use crate::boards::{CONFIG, another, commit, entries_of, spelled};
use entry_log::{Decision, Op};
use shared_board::{Board, SharedDesk, Standing};
use std::alloc::Global;
use std::env::Env;
use std::process::Abort;
use std::sync::Wait;
use std::test::Fail;
use std::thread::{Threads, join};

// How many rows each desk adds.
const MANY: u64 = 100;

// Adds many rows, from one key on.
fn add_rows<'b, 'r, R: Abort + Wait>(
    rt: &R,
    desk: SharedDesk<'b, 1, &'r R>,
    first: u64,
) -> SharedDesk<'b, 1, &'r R>
    requires bits { desk.config.bits ≡ 8 }
    requires fronts { desk.fronts ≡ [] }
    ensures board { result.board ≡ desk.entry.board }
    ensures fronts { result.fronts ≡ [] }
{
    let code = spelled(rt, b"35");
    let mut adding = desk;
    for place in 0..MANY {
        let key = first.wrapping_add(place);
        let _position = commit(rt, &mut adding, Op::Add { key, code }, Decision::Added);
    }
    adding
}

// Two desks add rows in threads of their own, and the second leaves into the first.
fn add_both<'b, 'r, R: Abort + Threads + Wait + Sync>(
    rt: &R,
    one: SharedDesk<'b, 1, &'r R>,
    two: SharedDesk<'b, 1, &'r R>,
) -> SharedDesk<'b, 1, &'r R>
    requires sync { IsSync R.row }
    requires same_board { two.board ≡ one.board }
    requires bits_one { one.config.bits ≡ 8 }
    requires bits_two { two.config.bits ≡ 8 }
    requires fronts_one { one.fronts ≡ [] }
    requires fronts_two { two.fronts ≡ [] }
    ensures board { result.board ≡ one.entry.board }
    ensures fronts { result.fronts ≡ [] }
{
    let (mut into, other) = join(
        rt,
        move || -> SharedDesk<'_, 1, &R>
            requires bits { one.config.bits ≡ 8 }
            requires fronts { one.fronts ≡ [] }
            ensures board { result.board ≡ one.entry.board }
            ensures fronts { result.fronts ≡ [] }
        { add_rows(rt, one, 1000) },
        move || -> SharedDesk<'_, 1, &R>
            requires bits { two.config.bits ≡ 8 }
            requires fronts { two.fronts ≡ [] }
            ensures board { result.board ≡ two.entry.board }
            ensures fronts { result.fronts ≡ [] }
        { add_rows(rt, two, 2000) },
    );
    other.leave(&mut into);
    into
}

// A desk makes another, both add rows in threads of their own, and the new one leaves into it.
fn add_with_another<'b, 'r, R: Abort + Threads + Wait + Sync>(
    rt: &R,
    first: SharedDesk<'b, 1, &'r R>,
) -> SharedDesk<'b, 1, &'r R>
    requires sync { IsSync R.row }
    requires bits { first.config.bits ≡ 8 }
    requires fronts { first.fronts ≡ [] }
    ensures board { result.board ≡ first.entry.board }
    ensures fronts { result.fronts ≡ [] }
{
    let mut one = first;
    let two = another(rt, &mut one);
    add_both(rt, one, two)
}

// Two desks add rows in threads of their own, the second beside a third, and the second leaves into the first.
fn add_side_by_side<'b, 'r, R: Abort + Threads + Wait + Sync>(
    rt: &R,
    zero: SharedDesk<'b, 1, &'r R>,
    one: SharedDesk<'b, 1, &'r R>,
) -> SharedDesk<'b, 1, &'r R>
    requires sync { IsSync R.row }
    requires same_board { one.board ≡ zero.board }
    requires bits_zero { zero.config.bits ≡ 8 }
    requires bits_one { one.config.bits ≡ 8 }
    requires fronts_zero { zero.fronts ≡ [] }
    requires fronts_one { one.fronts ≡ [] }
    ensures board { result.board ≡ zero.entry.board }
    ensures fronts { result.fronts ≡ [] }
{
    let (mut into, other) = join(
        rt,
        move || -> SharedDesk<'_, 1, &R>
            requires bits { zero.config.bits ≡ 8 }
            requires fronts { zero.fronts ≡ [] }
            ensures board { result.board ≡ zero.entry.board }
            ensures fronts { result.fronts ≡ [] }
        { add_rows(rt, zero, 0) },
        move || -> SharedDesk<'_, 1, &R>
            requires sync { IsSync R.row }
            requires bits { one.config.bits ≡ 8 }
            requires fronts { one.fronts ≡ [] }
            ensures board { result.board ≡ one.entry.board }
            ensures fronts { result.fronts ≡ [] }
        { add_with_another(rt, one) },
    );
    other.leave(&mut into);
    into
}

// Three desks of one board add rows, and what is left of them stands.
fn add_and_leave<'b, 'r, R: Abort + Threads + Wait + Sync>(
    rt: &R,
    first: SharedDesk<'b, 1, &'r R>,
) -> Standing<1>
    requires sync { IsSync R.row }
    requires bits { first.config.bits ≡ 8 }
    requires fronts { first.fronts ≡ [] }
    ensures { result.0 ≡ first.entry.board }
{
    let mut zero = first;
    let one = another(rt, &mut zero);
    let left = add_side_by_side(rt, zero, one);
    left.stand()
}

// The entries of a board's journal, to which three desks in threads of their own added rows.
fn three_desks<R: Abort + Env + Threads + Wait + Sync>(
    rt: &R,
    alloc: Global,
) -> Result<Vec<(u32, u64)>, Fail>
    requires sync { IsSync R.row }
{
    let (board, first) = Board::<1>::new(alloc, &CONFIG)?;
    let zero = board.first(first, rt);
    let standing = add_and_leave(rt, zero);
    let mut journal = board.close(standing).expect(rt, "the journal");
    entries_of(rt, alloc, &mut journal)
}

// Each desk's entries stand in its order.
#[test]
fn three_desks_in_threads_leave_one_journal(rt: HostRuntime) -> Result<(), Fail> {
    let entries = three_desks(&rt, rt.alloc())?;
    assert!(&rt; entries.len() == 300);
    let mut next = [0, 1000, 2000];
    for &(who, key) in &entries {
        assert!(&rt; who < 3);
        let place = who as usize;
        assert!(&rt; key == next[place]);
        next[place] = key.wrapping_add(1);
    }
    assert!(&rt; next == [100, 1100, 2100]);
    Ok(())
}
