//! What holds between any two steps on the board, and the kinds of its steps.

ghost use Rattle.board_seats.specs.Views.{first_view, note_of, spent_view};

use atomic_table::{Join, Play, Seat, Shared, Split, TableRule};
use commit_journal::{Front, Journal};
use part_layout::Config;
use std::collections::LinkedList;
use std::marker::Model;
use versioned_shard::Shard;

/// What lies in a slot. Word 0 and slot 0 are the journal's, word 1 + s and slot 1 + s those of shard s. A front lies in no slot:
/// the step that opens it is told of it.
#[derive(Drop)]
pub enum Cell<const W: usize> {
    Journal(Journal<W>),
    Shard(Shard<W>),
    Front(Front<W>),
}

/// The entries that a view speaks of. No value of it is made.
pub struct Past {}

impl Model for Past {
    ghost use Rattle.std.specs.Prelude.{List, []};
    ghost use Rattle.hamming_model.specs.History.{JournalEntry};
    ghost use Rattle.hamming_model.specs.Coding.{history_code};

    ghost Value = { List JournalEntry };

    ghost coded = { history_code };

    ghost view = { λ _. [] };
}

/// What a seat knows. No value of it is made.
pub struct View<const W: usize> {
    /// The number of its desk.
    pub number: Option<u32>,
    /// The entries that it has seen.
    pub seen: Past,
    /// What a seat that was joined had seen.
    pub met: Past,
    /// The next number as it was found last.
    pub next: u32,
    /// What the board was made for.
    pub config: Option<Config>,
    /// The live fronts of its desk.
    pub fronts: LinkedList<Front<W>>,
    /// The place that it holds, as it was taken.
    pub held: Option<(usize, Cell<W>)>,
    /// By shard the position at which it was released last.
    pub left: LinkedList<u64>,
}

/// What a board is made for, and the number of its first desk.
#[derive(Clone, Copy)]
pub struct Opening {
    pub config: Config,
    pub number: u32,
}

/// The rule of the board, with its opening as the key.
pub struct Keeps<const W: usize>;

/// The board, as its seats share it.
pub type Place<const W: usize> = Shared<Cell<W>, View<W>, Opening, Keeps<W>>;

/// A seat at the board.
pub type Seen<const W: usize> = Seat<Cell<W>, View<W>>;

impl<const W: usize> TableRule<Cell<W>, View<W>, Opening> for Keeps<W> {
    ghost use Rattle.board_seats.specs.Rule.{IsShown};

    ghost holds = { λ _ s. IsShown s };

    ghost first = { first_view };
}

/// A load that tells nothing.
pub struct Looks;

impl<const W: usize> Play<Cell<W>, View<W>> for Looks {
    ghost use Rattle.board_seats.specs.Told.{Looked};

    ghost then = { Looked };
}

/// The claim of the journal.
pub struct Claims;

impl<const W: usize> Play<Cell<W>, View<W>> for Claims {
    ghost use Rattle.board_seats.specs.Told.{Claimed};

    ghost then = { Claimed };
}

/// The release of the journal.
pub struct Settles;

impl<const W: usize> Play<Cell<W>, View<W>> for Settles {
    ghost use Rattle.board_seats.specs.Told.{Settled};

    ghost then = { Settled };
}

/// The release of the journal with a front more, which it is told of.
pub struct Opens;

impl<const W: usize> Play<Cell<W>, View<W>> for Opens {
    ghost use Rattle.board_seats.specs.Told.{Opened};

    ghost then = { Opened };
}

/// The release of the journal with a front less.
pub struct Closes;

impl<const W: usize> Play<Cell<W>, View<W>> for Closes {
    ghost use Rattle.board_seats.specs.Told.{Closed};

    ghost then = { Closed };
}

/// The release of the journal where a number was drawn.
pub struct Draws;

impl<const W: usize> Play<Cell<W>, View<W>> for Draws {
    ghost use Rattle.board_seats.specs.Told.{Drawn};

    ghost then = { Drawn };
}

/// A load of word 0 after a join, which tells the seat the history.
pub struct Meets;

impl<const W: usize> Play<Cell<W>, View<W>> for Meets {
    ghost use Rattle.board_seats.specs.Told.{Met};

    ghost then = { Met };
}

/// The claim of a shard.
pub struct ClaimsShard;

impl<const W: usize> Play<Cell<W>, View<W>> for ClaimsShard {
    ghost use Rattle.board_seats.specs.Told.{ClaimedShard};

    ghost then = { ClaimedShard };
}

/// The release of a shard.
pub struct LeavesShard;

impl<const W: usize> Play<Cell<W>, View<W>> for LeavesShard {
    ghost use Rattle.board_seats.specs.Told.{LeftShard};

    ghost then = { LeftShard };
}

/// A seat with no number and no fronts splits off, which has seen what this one has; or such a seat is joined.
pub struct Notes;

impl<const W: usize> Split<View<W>> for Notes {
    ghost left = { λ view. view };

    ghost right = { note_of };
}

impl<const W: usize> Join<View<W>> for Notes {
    ghost both = { λ view other. record view { met = other.seen } };

    ghost spent = { spent_view };
}

/// The join of a seat that has just found the next number.
pub struct Finds;

impl<const W: usize> Join<View<W>> for Finds {
    ghost both = { λ view other. record view { met = other.seen; next = other.next } };

    ghost spent = { spent_view };
}
