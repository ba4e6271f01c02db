//! A desk makes other desks, and takes in what they had seen.

ghost use Rattle.std.specs.Prelude.{◌≡◌, ◌≢◌, [], IfErr, IfOk, Some};
ghost use mathlib.Core.List.{IsPrefix};
ghost use Rattle.hamming_model.specs.declared.limits.TheConstants.{SESSIONS_MOST};
ghost use Rattle.session_desk.specs.Calls.{OnlyLearns};
ghost use Rattle.board_seats.specs.Views.{AreOfOthers};
ghost use Rattle.shared_board.specs.Shared.{fresh_desk, shared_desk};
ghost use Rattle.shared_board.specs.declared.desk_fault.DeskFault.TheVariants.{Numbers};

use crate::desk::SharedDesk;
use crate::desk_fault::DeskFault;
use crate::note::Note;
use crate::pinned_layout::no_pins;
use crate::standing::Standing;
use read_meter::NoMemory;
use std::sync::Wait;

impl<'b, const W: usize, R: Wait + Copy> SharedDesk<'b, W, R> {
    /// A new desk at the same board, which has seen what this one has.
    ///
    /// # Errors
    ///
    /// `Numbers` where all `SESSIONS_MOST` numbers are out. `NoMemory` where there is none for its pins; this desk is as before.
    pub fn desk(&mut self) -> Result<SharedDesk<'b, W, R>, DeskFault>
        // The new desk.
        ensures desk { IfOk result (λ desk. desk
            ≡ fresh_desk self.old.board desk.who self.old.config desk.seen desk.next) }
        ensures begins { IfOk result (λ desk. IsPrefix self.old.seen desk.seen) }
        ensures others { IfOk result (λ desk. AreOfOthers (Some desk.who) desk.seen) }
        ensures number { IfOk result (λ desk. (self.new.next ≡ desk.who)
            × (desk.who ≢ SESSIONS_MOST)) }
        // No number is left, or no memory.
        ensures numbers { IfErr result (λ fault. fault ≡ Numbers
            → self.new.next ≡ SESSIONS_MOST) }
        ensures no_memory { IfErr result (λ fault. fault ≢ Numbers → self.new ≡ self.old) }
        // This desk.
        ensures learns { OnlyLearns (shared_desk self.old) (shared_desk self.new) }
        ensures board { self.new.board ≡ self.old.board }
        ensures config { self.new.config ≡ self.old.config }
        ensures fronts { self.new.fronts ≡ self.old.fronts }
    {
        let Ok(pins) = no_pins(self.alloc, self.config.shards) else {
            return Err(DeskFault::NoMemory);
        };
        let place = self.place;
        let rt = self.rt;
        let mut seat = board_seats::note(place, &mut self.seat);
        let drawn = board_seats::draw(&rt, place, &mut seat);
        let found = board_seats::note(place, &mut seat);
        board_seats::find(place, &mut self.seat, found);
        match drawn {
            Some(who) => Ok(SharedDesk {
                alloc: self.alloc,
                place,
                seat,
                rt,
                config: self.config,
                who,
                last: 0,
                pins,
                done: 0,
                late: 0,
            }),
            None => Err(DeskFault::Numbers),
        }
    }

    /// What this desk has seen, for another to meet.
    ///
    /// # Errors
    ///
    /// `NoMemory` where there is none for it.
    pub fn note(&mut self) -> Result<Note<'b, W>, NoMemory>
        ensures same { self.new ≡ self.old }
        ensures note { IfOk result (λ note. note ≡ (self.old.board, self.old.seen)) }
    {
        let place = self.place;
        let seat = board_seats::note(place, &mut self.seat);
        Ok(Note { place, seat })
    }

    /// Sees what the note's desk had seen.
    pub fn meet(&mut self, note: Note<'b, W>)
        requires board { note.0 ≡ self.old.board }
        ensures learns { OnlyLearns (shared_desk self.old) (shared_desk self.new) }
        ensures met { IsPrefix note.entry.1 self.new.seen }
        ensures board { self.new.board ≡ self.old.board }
        ensures config { self.new.config ≡ self.old.config }
        ensures fronts { self.new.fronts ≡ self.old.fronts }
    {
        let place = self.place;
        let Note { place: _, seat } = note;
        board_seats::meet(place, &mut self.seat, seat);
    }

    /// Gives up this desk to another, which has then seen what both had.
    pub fn leave(self, into: &mut SharedDesk<'b, W, R>)
        requires board { self.board ≡ into.old.board }
        requires fronts { self.fronts ≡ [] }
        ensures learns { OnlyLearns (shared_desk into.old) (shared_desk into.new) }
        ensures met { IsPrefix self.entry.seen into.new.seen }
        ensures board { into.new.board ≡ into.old.board }
        ensures config { into.new.config ≡ into.old.config }
        ensures fronts { into.new.fronts ≡ into.old.fronts }
    {
        let place = into.place;
        let SharedDesk {
            alloc: _,
            place: _,
            seat,
            rt: _,
            config: _,
            who: _,
            last: _,
            pins: _,
            done: _,
            late: _,
        } = self;
        board_seats::meet(place, &mut into.seat, seat);
    }

    /// Ends the loan of the board, and keeps what was seen.
    pub fn stand(self) -> Standing<W>
        requires fronts { self.fronts ≡ [] }
        ensures { result ≡ (self.entry.board, self.entry.seen) }
    {
        let SharedDesk {
            alloc: _,
            place: _,
            seat,
            rt: _,
            config: _,
            who: _,
            last: _,
            pins: _,
            done: _,
            late: _,
        } = self;
        Standing { seat }
    }
}
