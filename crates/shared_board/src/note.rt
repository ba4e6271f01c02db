//! What a desk leaves for another.

use board_seats::{Place, Seen};
use std::marker::Model;

/// What a desk had seen, for another to meet. Seen as the board's number and those entries.
#[derive(Drop)]
pub struct Note<'b, const W: usize> {
    pub(crate) place: &'b Place<W>,
    pub(crate) seat: Seen<W>,
}

impl<'b, const W: usize> Model for Note<'b, W> {
    ghost use Rattle.std.specs.Prelude.{ℕ, List};
    ghost use Rattle.std.specs.Coded.{coded×, coded_list, coded_ℕ};
    ghost use Rattle.hamming_model.specs.Coding.{history_code};
    ghost use Rattle.hamming_model.specs.History.{JournalEntry};
    ghost use Rattle.board_seats.specs.Visits.{IsFree};
    ghost use Rattle.shared_board.specs.Boards.{board_number};

    ghost Value = { List ℕ × List JournalEntry };

    ghost coded = { coded× (coded_list coded_ℕ) history_code };

    ghost view = { λ note. (board_number note.seat.table_id, note.seat.me.0.seen) };

    ghost invariant = { λ note. IsFree note.seat.me };
}
