//! What two desks of one board see of each other.

ghost use Rattle.std.specs.Prelude.{◌≡◌, []};

use crate::boards::{CONFIG, another, commit, entries_of, spelled};
use entry_log::{Decision, Op};
use gph_codes::Code;
use shared_board::{Board, SharedDesk, Standing};
use std::alloc::Global;
use std::env::Env;
use std::process::Abort;
use std::sync::Wait;
use std::test::Fail;

// Compares the code of a key at a desk, and how many entries that sees.
fn finds<'b, 'r, R: Abort + Wait>(
    rt: &R,
    desk: &mut SharedDesk<'b, 1, &'r R>,
    key: u64,
    code: Option<Code<1>>,
    entries: u64,
)
    ensures board { desk.new.board ≡ desk.old.board }
    ensures config { desk.new.config ≡ desk.old.config }
    ensures fronts { desk.new.fronts ≡ desk.old.fronts }
{
    let found = desk.code_of(key);
    assert!(rt; found == (code, entries), "{entries}");
}

// A desk adds a row and leaves a note; another meets it and deletes the row; the first sees that without a note.
fn add_and_delete<'b, 'r, R: Abort + Wait>(rt: &R, first: SharedDesk<'b, 1, &'r R>) -> Standing<1>
    requires bits { first.config.bits ≡ 8 }
    requires fronts { first.fronts ≡ [] }
    ensures { result.0 ≡ first.entry.board }
{
    let mut zero = first;
    let mut one = another(rt, &mut zero);
    assert!(rt; zero.who() == 0 && one.who() == 1);
    let code = spelled(rt, b"00");
    let added = commit(rt, &mut zero, Op::Add { key: 1, code }, Decision::Added);
    let note = zero.note().expect(rt, "memory for a note");
    one.meet(note);
    finds(rt, &mut one, 1, Some(code), 1);
    let deleted = commit(rt, &mut one, Op::Delete { key: 1 }, Decision::Deleted);
    assert!(rt; added == 1 && deleted == 2);
    finds(rt, &mut zero, 1, None, 2);
    one.leave(&mut zero);
    zero.stand()
}

// A desk leaves while a note of it, and one of the other desk, were met by nobody.
fn leave_notes<'b, 'r, R: Abort + Wait>(rt: &R, first: SharedDesk<'b, 1, &'r R>) -> Standing<1>
    requires bits { first.config.bits ≡ 8 }
    requires fronts { first.fronts ≡ [] }
    ensures { result.0 ≡ first.entry.board }
{
    let mut zero = first;
    let mut one = another(rt, &mut zero);
    let code = spelled(rt, b"ff");
    let added = commit(rt, &mut one, Op::Add { key: 9, code }, Decision::Added);
    let of_one = one.note().expect(rt, "memory for a note");
    let of_zero = zero.note().expect(rt, "memory for a note");
    one.leave(&mut zero);
    finds(rt, &mut zero, 9, Some(code), 1);
    let taken = commit(rt, &mut zero, Op::Add { key: 9, code }, Decision::Taken);
    assert!(rt; added == 1 && taken == 1 && zero.length() == 1);
    drop(of_one);
    drop(of_zero);
    zero.stand()
}

// What two desks do.
#[derive(Clone, Copy)]
enum Case {
    AddAndDelete,
    LeaveNotes,
}

// The entries of a board's journal after a case.
fn entries_after<R: Abort + Env + Wait>(
    rt: &R,
    alloc: Global,
    case: Case,
) -> Result<Vec<(u32, u64)>, Fail> {
    let (board, first) = Board::<1>::new(alloc, &CONFIG)?;
    let zero = board.first(first, rt);
    let standing = match case {
        Case::AddAndDelete => add_and_delete(rt, zero),
        Case::LeaveNotes => leave_notes(rt, zero),
    };
    let mut journal = board.close(standing).expect(rt, "the journal");
    entries_of(rt, alloc, &mut journal)
}

#[test]
fn a_desk_sees_what_another_deleted_without_a_note_of_it(rt: HostRuntime) -> Result<(), Fail> {
    let entries = entries_after(&rt, rt.alloc(), Case::AddAndDelete)?;
    assert!(&rt; entries.len() == 2);
    assert!(&rt; entries[0] == (0, 1));
    assert!(&rt; entries[1] == (1, 1));
    Ok(())
}

#[test]
fn a_desk_leaves_with_a_note_unread(rt: HostRuntime) -> Result<(), Fail> {
    let entries = entries_after(&rt, rt.alloc(), Case::LeaveNotes)?;
    assert!(&rt; entries.len() == 1);
    assert!(&rt; entries[0] == (1, 9));
    Ok(())
}
