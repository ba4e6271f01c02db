//! What is done to the journal in its slot.

ghost use Rattle.std.specs.Prelude.{◌≡◌, ◌↔◌, ◌+◌, length, None, IfOk, OnErr, IfSome, OnSome, IfNone};
ghost use Rattle.hamming_model.specs.History.{code_at, rows_of};
ghost use Rattle.hamming_model.specs.declared.limits.TheConstants.{SESSIONS_MOST};
ghost use Rattle.commit_journal.specs.Journals.{Commits, IsJournal, IsLive, KeepsFronts, KnowsFront};
ghost use Rattle.commit_journal.specs.Journals.{Opens, entry_by, without_front};
ghost use Rattle.board_seats.specs.Told.{IsFrontCell, journal_in};

use crate::rule::Cell;
use commit_journal::{Decided, Front, Journal};
use entry_log::Op;
use gph_codes::Code;
use read_meter::NoMemory;

// The decision on an operation of a session.
pub(crate) fn commit_in<const W: usize>(
    cell: &mut Cell<W>,
    who: u32,
    op: Op<W>,
) -> Result<Decided, NoMemory>
    requires { cell.old ≡ Cell.Journal (journal_in cell.old) }
    ensures cell { cell.new ≡ Cell.Journal (journal_in cell.new) }
    ensures sound { IsJournal (journal_in cell.new) }
    ensures decided { IfOk result (λ decided.
        Commits (journal_in cell.old) (journal_in cell.new) (entry_by who op.entry) decided) }
    ensures unchanged { OnErr result (cell.new ≡ cell.old) }
    ensures fronts { KeepsFronts (journal_in cell.old) (journal_in cell.new) }
{
    match cell {
        Cell::Journal(journal) => {
            let decided = journal.commit(who, op);
            let _sound = journal.length();
            decided
        }
        _ => unreachable!(),
    }
}

// The code of a key, and how many entries there are.
pub(crate) fn look_up_in<const W: usize>(cell: &mut Cell<W>, key: u64) -> (Option<Code<W>>, u64)
    requires { cell.old ≡ Cell.Journal (journal_in cell.old) }
    ensures cell { cell.new ≡ cell.old }
    ensures code { result.0 ≡ code_at (rows_of (journal_in cell.old).history) key }
    ensures length { result.1 ≡ length (journal_in cell.old).history }
{
    match cell {
        Cell::Journal(journal) => (journal.code_of(key), journal.length()),
        _ => unreachable!(),
    }
}

// A front of a session at the present length.
pub(crate) fn open_in<const W: usize>(cell: &mut Cell<W>, who: u32) -> Result<Front<W>, NoMemory>
    requires { cell.old ≡ Cell.Journal (journal_in cell.old) }
    ensures cell { cell.new ≡ Cell.Journal (journal_in cell.new) }
    ensures sound { IsJournal (journal_in cell.new) }
    ensures opened { IfOk result (λ front.
        Opens (journal_in cell.old) (journal_in cell.new) who front) }
    ensures live { IfOk result (λ front. IsLive (journal_in cell.new) front) }
    ensures known { IfOk result (λ front. KnowsFront (journal_in cell.new) front) }
    ensures unchanged { OnErr result (cell.new ≡ cell.old) }
    ensures fronts { KeepsFronts (journal_in cell.old) (journal_in cell.new) }
{
    match cell {
        Cell::Journal(journal) => {
            let front = journal.open_front(who);
            let _sound = journal.length();
            front
        }
        _ => unreachable!(),
    }
}

// A front less.
pub(crate) fn close_in<const W: usize>(cell: &mut Cell<W>, front: Front<W>)
    requires cell { cell.old ≡ Cell.Journal (journal_in cell.old) }
    requires live { IsLive (journal_in cell.old) front }
    ensures cell { cell.new ≡ Cell.Journal (journal_in cell.new) }
    ensures sound { IsJournal (journal_in cell.new) }
    ensures closed { journal_in cell.new ≡ without_front (journal_in cell.old) front.entry.id }
    ensures fronts { KeepsFronts (journal_in cell.old) (journal_in cell.new) }
{
    match cell {
        Cell::Journal(journal) => {
            journal.close_front(front);
            let _sound = journal.length();
        }
        _ => unreachable!(),
    }
}

// The number of the next session, where one is left.
pub(crate) fn enter_in<const W: usize>(cell: &mut Cell<W>) -> Option<u32>
    requires { cell.old ≡ Cell.Journal (journal_in cell.old) }
    ensures cell { cell.new ≡ Cell.Journal (journal_in cell.new) }
    ensures sound { IsJournal (journal_in cell.new) }
    ensures number { IfSome result (λ number. number ≡ (journal_in cell.old).next) }
    ensures drawn { OnSome result (journal_in cell.new
        ≡ record (journal_in cell.old) { next = (journal_in cell.old).next + 1 }) }
    ensures none { (result ≡ None) ↔ ((journal_in cell.old).next ≡ SESSIONS_MOST) }
    ensures unchanged { IfNone result (cell.new ≡ cell.old) }
    ensures fronts { KeepsFronts (journal_in cell.old) (journal_in cell.new) }
{
    match cell {
        Cell::Journal(journal) => {
            let number = journal.enter();
            let _sound = journal.length();
            number
        }
        _ => unreachable!(),
    }
}

// A front as a cell, which a step is told of.
pub(crate) fn said_of<const W: usize>(front: Front<W>) -> Cell<W>
    ensures { result ≡ Cell.Front front.entry }
{
    Cell::Front(front)
}

// The front in a cell.
pub(crate) fn front_of<const W: usize>(cell: Cell<W>) -> Front<W>
    requires { IsFrontCell cell }
    ensures { cell.entry ≡ Cell.Front result }
{
    match cell {
        Cell::Front(front) => front,
        _ => unreachable!(),
    }
}
