//! The end of a board.

ghost use Rattle.std.specs.Prelude.{◌≡◌, ◌↔◌, ◌*◌, ◌%◌, length, true, IfErr, IfOk, is_err};

use board_seats::Cell;
use commit_journal::Journal;
use std::marker::Model;

/// A board that no desk shares any more. Seen as its word 0, and as the journal where the word is even.
#[derive(Drop)]
pub struct Ended<const W: usize> {
    pub(crate) word: u64,
    pub(crate) cell: Cell<W>,
}

impl<const W: usize> Model for Ended<W> {
    ghost use Rattle.std.specs.Prelude.{ℕ};
    ghost use Rattle.std.specs.Coded.{coded×, coded_ℕ};
    ghost use Rattle.commit_journal.specs.Journals.{JournalState, journal_code};
    ghost use Rattle.board_seats.specs.Told.{journal_in};
    ghost use Rattle.shared_board.specs.Boards.{IsBoardEnd};

    ghost Value = { ℕ × JournalState };

    ghost coded = { coded× coded_ℕ journal_code };

    ghost view = { λ ended. (ended.word, journal_in ended.cell) };

    ghost invariant = { λ ended. IsBoardEnd ended.word ended.cell };
}

/// A seat was given up while it held the journal. No call of a desk ends so.
#[derive(Clone, Copy, Debug, PartialEq, Eq)]
pub struct Held {
    /// Word 0 of the board.
    pub word: u64,
}

impl<const W: usize> Ended<W> {
    /// The journal, which has half as many entries as word 0 says.
    ///
    /// # Errors
    ///
    /// `Held` exactly where word 0 is odd.
    pub fn journal(self) -> Result<Journal<W>, Held>
        // The journal.
        ensures journal { IfOk result (λ journal. journal ≡ self.entry.1) }
        ensures entries { IfOk result (λ journal. self.entry.0 ≡ 2 * length journal.history) }
        // It is held.
        ensures held { (is_err result ≡ true) ↔ (self.entry.0 % 2 ≡ 1) }
        ensures word { IfErr result (λ held. held.word ≡ self.entry.0) }
    {
        let Ended { word, cell } = self;
        if word % 2 == 1 {
            return Err(Held { word });
        }
        match cell {
            Cell::Journal(journal) => Ok(journal),
            _ => unreachable!(),
        }
    }
}
