//! The board.

ghost use Rattle.std.specs.Prelude.{◌≡◌, ◌*◌, ◌%◌, ◌<◌, ◌≤◌, IfErr, IfOk};
ghost use mathlib.Core.List.{IsPrefix};
ghost use Rattle.hamming_model.specs.declared.limits.TheConstants.{SESSIONS_MOST, WORDS_MOST};
ghost use Rattle.part_layout.specs.Ranges.{IsConfig};
ghost use Rattle.shared_board.specs.Shared.{first_desk};

use crate::desk::SharedDesk;
use crate::ended::{Ended, Held};
use crate::pinned_layout::PinnedLayout;
use crate::standing::Standing;
use crate::start::{first_journal, first_layout, first_shard};
use atomic_table::Table;
use board_seats::{Cell, Keeps, Opening, Seen, View};
use commit_journal::Journal;
use part_layout::Config;
use read_meter::NoMemory;
use std::alloc::Global;
use std::marker::Model;
use std::sync::Wait;
use versioned_shard::shards_keep_the_rule;

/// One journal and its shards for desks in several threads. Seen as its number and what it was made for.
#[derive(Drop)]
pub struct Board<const W: usize> {
    table: Table<Cell<W>, View<W>, Opening, Keeps<W>, Global>,
    opening: Opening,
}

impl<const W: usize> Model for Board<W> {
    ghost use Rattle.std.specs.Prelude.{ℕ, List};
    ghost use Rattle.std.specs.Coded.{coded×, coded_list, coded_ℕ};
    ghost use Rattle.board_seats.specs.declared.rule.Opening.{Opening};
    ghost use Rattle.shared_board.specs.Boards.{HasPlaces, board_number, opening_code};

    ghost Value = { List ℕ × Opening };

    ghost coded = { coded× (coded_list coded_ℕ) opening_code };

    ghost view = { λ board. (board_number board.table.shared.table_id, board.opening) };

    ghost invariant = { λ board. HasPlaces board.table.shared.table_id board.opening.config };
}

/// The right to the first desk of a board. Seen as the board is.
#[derive(Drop)]
pub struct First<const W: usize> {
    alloc: Global,
    seat: Seen<W>,
    opening: Opening,
    pins: Vec<Option<(u64, PinnedLayout)>>,
}

impl<const W: usize> Model for First<W> {
    ghost use Rattle.std.specs.Prelude.{◌≡◌, ℕ, List, [], None, replicate};
    ghost use Rattle.std.specs.Coded.{coded×, coded_list, coded_ℕ};
    ghost use Rattle.board_seats.specs.declared.rule.Opening.{Opening};
    ghost use Rattle.board_seats.specs.Views.{first_view};
    ghost use Rattle.shared_board.specs.Boards.{IsAskedFor, board_number, opening_code};

    ghost Value = { List ℕ × Opening };

    ghost coded = { coded× (coded_list coded_ℕ) opening_code };

    ghost view = { λ first. (board_number first.seat.table_id, first.opening) };

    ghost invariant = { λ first. IsAskedFor W first.opening.config
        × (first.seat.me ≡ (first_view first.opening, []))
        × (first.pins.items ≡ replicate first.opening.config.shards None) };
}

impl<const W: usize> Board<W> {
    /// A board with no entry and as many shards as the Config asks for, each in the contiguous layout; and the right to its first
    /// desk, with number 0.
    ///
    /// # Errors
    ///
    /// `NoMemory` where there is none for the journal, the layout, the shards or their table.
    pub fn new(alloc: Global, config: &Config) -> Result<(Board<W>, First<W>), NoMemory>
        requires config { IsConfig config.now }
        requires few_words { W ≤ WORDS_MOST }
        requires room { config.now.bits ≤ 64 * W }
        ensures first { IfOk result (λ made. made.1 ≡ made.0) }
        ensures config { IfOk result (λ made. made.0.1.config ≡ config.now) }
        ensures number { IfOk result (λ made. made.0.1.number ≡ 0) }
    {
        Board::numbered_from(alloc, config, 0)
    }

    /// The same, and the first desk has a number of the caller's. No desk has one of the numbers before it.
    ///
    /// # Errors
    ///
    /// As of `new`.
    pub fn numbered_from(
        alloc: Global,
        config: &Config,
        first: u32,
    ) -> Result<(Board<W>, First<W>), NoMemory>
        requires config { IsConfig config.now }
        requires few_words { W ≤ WORDS_MOST }
        requires room { config.now.bits ≤ 64 * W }
        requires number { first < SESSIONS_MOST }
        ensures first { IfOk result (λ made. made.1 ≡ made.0) }
        ensures config { IfOk result (λ made. made.0.1.config ≡ config.now) }
        ensures number { IfOk result (λ made. made.0.1.number ≡ first) }
    {
        shards_keep_the_rule();
        let opening = Opening {
            config: *config,
            number: first,
        };
        let journal = first_journal(alloc, &opening)?;
        let layout = first_layout(alloc, config)?;
        let mut words = Vec::new(alloc);
        let mut slots = Vec::new(alloc);
        let mut pins = Vec::new(alloc);
        words.push(0)?;
        slots.push(Cell::Journal(journal))?;
        for number in 0..config.shards {
            let shard = first_shard(alloc, config, number, &layout)?;
            words.push(0)?;
            slots.push(Cell::Shard(shard))?;
            pins.push(None)?;
        }
        let Ok((table, seat)) = Table::new(alloc, &words, slots, &opening) else {
            return Err(NoMemory);
        };
        let right = First {
            alloc,
            seat,
            opening,
            pins,
        };
        Ok((Board { table, opening }, right))
    }

    /// The first desk, which has seen nothing.
    pub fn first<R: Wait + Copy>(&self, first: First<W>, rt: R) -> SharedDesk<'_, W, R>
        requires { first ≡ self.now }
        ensures { result ≡ first_desk self.now.0 self.now.1 }
    {
        let First {
            alloc,
            seat,
            opening,
            pins,
        } = first;
        let table = &self.table;
        SharedDesk::first(alloc, &table.shared, seat, rt, opening, pins)
    }

    /// The end of the board, which a standing desk speaks of.
    pub fn end(self, standing: Standing<W>) -> Ended<W>
        requires { standing.0 ≡ self.0 }
        ensures begins { ¬ (result.0 % 2 ≡ 1) → IsPrefix standing.entry.1 result.1.history }
    {
        let Board { table, opening: _ } = self;
        let Standing { seat } = standing;
        let mut closed = table.close_with(seat);
        let word = closed.word(0);
        let cell = closed.take(0);
        let count = closed.slot_count();
        for other in 1..count {
            let _cell = closed.take(other);
        }
        closed.free();
        Ended { word, cell }
    }

    /// The journal, which begins with all that the standing desk had seen.
    ///
    /// # Errors
    ///
    /// `Held` exactly where word 0 is odd at the board's end.
    pub fn close(self, standing: Standing<W>) -> Result<Journal<W>, Held>
        requires { standing.0 ≡ self.0 }
        ensures begins { IfOk result (λ journal. IsPrefix standing.entry.1 journal.history) }
        ensures held { IfErr result (λ held. held.word % 2 ≡ 1) }
    {
        self.end(standing).journal()
    }
}
