//! What a desk leaves for the end of the board.

use board_seats::Seen;
use std::marker::Model;

/// What a desk had seen when its loan of the board ended. Seen as a note is.
#[derive(Drop)]
pub struct Standing<const W: usize> {
    pub(crate) seat: Seen<W>,
}

impl<const W: usize> Model for Standing<W> {
    ghost use Rattle.std.specs.Prelude.{ℕ, List};
    ghost use Rattle.std.specs.Coded.{coded×, coded_list, coded_ℕ};
    ghost use Rattle.hamming_model.specs.Coding.{history_code};
    ghost use Rattle.hamming_model.specs.History.{JournalEntry};
    ghost use Rattle.board_seats.specs.Visits.{IsFree};
    ghost use Rattle.shared_board.specs.Boards.{board_number};

    ghost Value = { List ℕ × List JournalEntry };

    ghost coded = { coded× (coded_list coded_ℕ) history_code };

    ghost view = { λ standing. (board_number standing.seat.table_id, standing.seat.me.0.seen) };

    ghost invariant = { λ standing. IsFree standing.seat.me };
}
