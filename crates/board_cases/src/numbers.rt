//! The numbers of desks, used up.

ghost use Rattle.std.specs.Prelude.{◌≡◌, []};

use crate::boards::{CONFIG, another, commit, entries_of, spelled};
use entry_log::{Decision, Op};
use hamming_model::SESSIONS_MOST;
use shared_board::{Board, DeskFault, SharedDesk, Standing};
use std::alloc::Global;
use std::env::Env;
use std::process::Abort;
use std::sync::Wait;
use std::test::Fail;

// The greatest number of a desk.
const LAST: u32 = SESSIONS_MOST - 1;

// The one before it.
const FIRST: u32 = SESSIONS_MOST - 2;

// Asks for a desk where no number is left.
fn none_is_made<'b, 'r, R: Abort + Wait>(rt: &R, desk: &mut SharedDesk<'b, 1, &'r R>)
    ensures board { desk.new.board ≡ desk.old.board }
    ensures config { desk.new.config ≡ desk.old.config }
    ensures fronts { desk.new.fronts ≡ desk.old.fronts }
{
    let Err(fault) = desk.desk() else {
        panic!(rt; "a desk past the last number");
    };
    assert!(rt; fault == DeskFault::Numbers);
}

// The last desk but one makes the last, and neither makes another; both commit all the same.
fn use_up<'b, 'r, R: Abort + Wait>(rt: &R, first: SharedDesk<'b, 1, &'r R>) -> Standing<1>
    requires bits { first.config.bits ≡ 8 }
    requires fronts { first.fronts ≡ [] }
    ensures { result.0 ≡ first.entry.board }
{
    let mut one = first;
    let mut last = another(rt, &mut one);
    assert!(rt; one.who() == FIRST && last.who() == LAST);
    none_is_made(rt, &mut one);
    none_is_made(rt, &mut last);
    let code = spelled(rt, b"00");
    let by_last = commit(rt, &mut last, Op::Add { key: 1, code }, Decision::Added);
    let by_one = commit(rt, &mut one, Op::Delete { key: 1 }, Decision::Deleted);
    assert!(rt; by_last == 1 && by_one == 2);
    last.leave(&mut one);
    // A desk that is gone gives no number back.
    none_is_made(rt, &mut one);
    one.stand()
}

// The entries of a board's journal after that.
fn entries_after<R: Abort + Env + Wait>(rt: &R, alloc: Global) -> Result<Vec<(u32, u64)>, Fail> {
    let (board, first) = Board::<1>::numbered_from(alloc, &CONFIG, FIRST)?;
    let one = board.first(first, rt);
    let standing = use_up(rt, one);
    let mut journal = board.close(standing).expect(rt, "the journal");
    entries_of(rt, alloc, &mut journal)
}

#[test]
fn no_desk_is_made_past_the_last_number(rt: HostRuntime) -> Result<(), Fail> {
    let entries = entries_after(&rt, rt.alloc())?;
    assert!(&rt; entries.len() == 2);
    assert!(&rt; entries[0] == (LAST, 1));
    assert!(&rt; entries[1] == (FIRST, 1));
    Ok(())
}
