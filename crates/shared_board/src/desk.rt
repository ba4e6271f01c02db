//! A desk of the board.

ghost use Rattle.std.specs.Prelude.{◌≡◌, ◌+◌, ◌-◌, ◌<◌, ◌≤◌, [], ◌∷◌, length, replicate, IfErr, IfOk, OnErr, None, is_err};
ghost use Rattle.hamming_model.specs.History.{code_at, rows_of};
ghost use Rattle.hamming_model.specs.Recoded.{IsStoredOperation};
ghost use Rattle.entry_log.specs.Entries.{kept_operation};
ghost use Rattle.commit_journal.specs.Fronts.{position_of};
ghost use Rattle.versioned_shard.specs.Shards.{contents_at};
ghost use Rattle.session_desk.specs.Calls.{ClosesFront, Comes, CommitsAt, IsMadeFor, OnlyLearns, OpensFront};
ghost use Rattle.session_desk.specs.Calls.{PinsVersion, Swaps, TellsLayout};
ghost use Rattle.session_desk.specs.Desks.{IsDesk, IsOwnFront, left_at, pinned_at};
ghost use Rattle.board_seats.specs.Views.{AmongFronts, first_view, without_id};
ghost use Rattle.shared_board.specs.Boards.{HasPlaces, IsAskedFor, board_number};
ghost use Rattle.shared_board.specs.Shared.{first_desk, shared_desk};

use crate::counts::{late_after, one_more};
use crate::pinned_layout::PinnedLayout;
use board_seats::{Opening, Place, Seen};
use commit_journal::{Decided, Front};
use entry_log::Op;
use gph_codes::Code;
use part_layout::{Config, LayoutText};
use read_meter::{NoMemory, Steps};
use shard_version::{Prepared, Version};
use std::alloc::Global;
use std::marker::Model;
use std::sync::{Arc, Wait};
use versioned_shard::Moved;

/// A session's desk at a board. It waits for the place that a call needs with its own runtime.
#[derive(Drop)]
pub struct SharedDesk<'b, const W: usize, R: Wait + Copy> {
    pub(crate) alloc: Global,
    pub(crate) place: &'b Place<W>,
    pub(crate) seat: Seen<W>,
    pub(crate) rt: R,
    pub(crate) config: Config,
    pub(crate) who: u32,
    pub(crate) last: u64,
    // position and layout of each shard's last pin
    pub(crate) pins: Vec<Option<(u64, PinnedLayout)>>,
    pub(crate) done: u64,
    pub(crate) late: u64,
}

impl<'b, const W: usize, R: Wait + Copy> Model for SharedDesk<'b, W, R> {
    ghost use Rattle.shared_board.specs.Shared.{IsSeated, SharedState, seated_of, shared_code};

    ghost Value = { SharedState };

    ghost coded = { shared_code };

    ghost view = { λ d. seated_of d.place.now.table_id d.who d.config d.seat.me.0 d.last d.pins.items d.done d.late };

    ghost invariant = { λ d. IsSeated d.place.now.table_id d.seat.table_id d.seat.me
        (seated_of d.place.now.table_id d.who d.config d.seat.me.0 d.last d.pins.items d.done d.late) };
}

impl<'b, const W: usize, R: Wait + Copy> SharedDesk<'b, W, R> {
    // The first desk of a board.
    pub(crate) fn first(
        alloc: Global,
        place: &'b Place<W>,
        seat: Seen<W>,
        rt: R,
        opening: Opening,
        pins: Vec<Option<(u64, PinnedLayout)>>,
    ) -> SharedDesk<'b, W, R>
        requires board { seat.table_id ≡ place.now.table_id }
        requires places { HasPlaces place.now.table_id opening.config }
        requires asked { IsAskedFor W opening.config }
        requires seat { seat.me ≡ (first_view opening, []) }
        requires pins { pins.items ≡ replicate opening.config.shards None }
        ensures { result ≡ first_desk (board_number place.now.table_id) opening }
    {
        SharedDesk {
            alloc,
            place,
            seat,
            rt,
            config: opening.config,
            who: opening.number,
            last: 0,
            pins,
            done: 0,
            late: 0,
        }
    }

    /// Its number.
    pub fn who(&self) -> u32
        ensures who { result ≡ self.now.who }
        ensures desk { IsDesk W (shared_desk self.now) }
    {
        self.who
    }

    /// How many shards there are.
    pub fn shards(&self) -> u32
        ensures shards { result ≡ self.now.config.shards }
        ensures desk { IsDesk W (shared_desk self.now) }
    {
        self.config.shards
    }

    /// Decides on an operation, and appends its entry where that is added or deleted.
    ///
    /// # Errors
    ///
    /// `NoMemory` where there is none for one entry more.
    pub fn commit(&mut self, op: Op<W>) -> Result<Decided, NoMemory>
        requires { IsStoredOperation W self.old.config.bits (kept_operation op) }
        ensures decided { IfOk result (λ decided. CommitsAt (shared_desk self.old)
            (shared_desk self.new) (kept_operation op.entry) decided) }
        ensures unchanged { OnErr result (OnlyLearns (shared_desk self.old)
            (shared_desk self.new)) }
        // What stays.
        ensures board { self.new.board ≡ self.old.board }
        ensures config { self.new.config ≡ self.old.config }
        ensures fronts { self.new.fronts ≡ self.old.fronts }
    {
        let place = self.place;
        let rt = self.rt;
        board_seats::commit(&rt, place, &mut self.seat, self.who, op)
    }

    /// The code of a key, none exactly where it has no row, and how many entries there are.
    pub fn code_of(&mut self, key: u64) -> (Option<Code<W>>, u64)
        ensures code { result.0 ≡ code_at (rows_of (shared_desk self.new).seen) key }
        ensures length { result.1 ≡ length self.new.seen }
        ensures learns { OnlyLearns (shared_desk self.old) (shared_desk self.new) }
        // What stays.
        ensures board { self.new.board ≡ self.old.board }
        ensures config { self.new.config ≡ self.old.config }
        ensures fronts { self.new.fronts ≡ self.old.fronts }
    {
        let place = self.place;
        let rt = self.rt;
        board_seats::code_of(&rt, place, &mut self.seat, key)
    }

    /// How many entries there are.
    pub fn length(&mut self) -> u64
        ensures length { result ≡ length self.new.seen }
        ensures learns { OnlyLearns (shared_desk self.old) (shared_desk self.new) }
        // What stays.
        ensures board { self.new.board ≡ self.old.board }
        ensures config { self.new.config ≡ self.old.config }
        ensures fronts { self.new.fronts ≡ self.old.fronts }
    {
        let place = self.place;
        let rt = self.rt;
        let (_code, length) = board_seats::code_of(&rt, place, &mut self.seat, 0);
        length
    }

    /// A front at the length of all that is seen.
    ///
    /// # Errors
    ///
    /// `NoMemory` where there is none for the front.
    pub fn open_front(&mut self) -> Result<Front<W>, NoMemory>
        // The front.
        ensures opened { IfOk result (λ front. OpensFront (shared_desk self.old)
            (shared_desk self.new) front) }
        ensures own { IfOk result (λ front. IsOwnFront (shared_desk self.new) front) }
        ensures fronts { IfOk result (λ front. self.new.fronts ≡ front ∷ self.old.fronts) }
        // No memory.
        ensures unchanged { OnErr result (OnlyLearns (shared_desk self.old)
            (shared_desk self.new)) }
        ensures same { OnErr result (self.new.fronts ≡ self.old.fronts) }
        // What stays.
        ensures board { self.new.board ≡ self.old.board }
        ensures config { self.new.config ≡ self.old.config }
    {
        let place = self.place;
        let rt = self.rt;
        let front = board_seats::open_front(&rt, place, &mut self.seat, self.who)?;
        self.last = front.position();
        Ok(front)
    }

    /// Closes a front of this desk.
    pub fn close_front(&mut self, front: Front<W>)
        requires own { AmongFronts self.old.fronts front }
        ensures closed { ClosesFront (shared_desk self.old) (shared_desk self.new) front.entry }
        ensures fronts { self.new.fronts ≡ without_id front.entry.id self.old.fronts }
        // What stays.
        ensures board { self.new.board ≡ self.old.board }
        ensures config { self.new.config ≡ self.old.config }
    {
        let place = self.place;
        let rt = self.rt;
        board_seats::close_front(&rt, place, &mut self.seat, front);
    }

    /// The version of a shard at a front of this desk. The shard comes to the front where it is behind, for one step an entry.
    ///
    /// # Errors
    ///
    /// `NoMemory` where there is none for the versions on the way. The shard may have come to the front.
    pub fn pin<M>(
        &mut self,
        front: &Front<W>,
        shard: u32,
        steps: &mut Steps<M>,
    ) -> Result<Arc<Version<W>>, NoMemory>
        requires own { AmongFronts self.old.fronts front.now }
        requires shard { shard < self.old.config.shards }
        ensures pinned { IfOk result (λ version. PinsVersion (shared_desk self.old)
            (shared_desk self.new) front.now shard (contents_at version)) }
        ensures comes { OnErr result (Comes (shared_desk self.old) (shared_desk self.new) shard
            self.old.pins) }
        ensures upkeep { steps.new ≤ steps.old +
            (position_of front.now - pinned_at (shared_desk self.old) shard) }
        // What stays.
        ensures board { self.new.board ≡ self.old.board }
        ensures config { self.new.config ≡ self.old.config }
        ensures fronts { self.new.fronts ≡ self.old.fronts }
    {
        let place = self.place;
        let rt = self.rt;
        let version = board_seats::pin(&rt, place, &mut self.seat, front, shard, steps)?;
        let layout = PinnedLayout::of(&version)?;
        self.pins[shard as usize] = Some((front.position(), layout));
        Ok(version)
    }

    /// The text of a shard's present layout.
    pub fn layout_of(&mut self, shard: u32) -> LayoutText
        requires shard { shard < self.old.config.shards }
        ensures layout { TellsLayout (shared_desk self.old) (shared_desk self.new) shard result }
        // What stays.
        ensures board { self.new.board ≡ self.old.board }
        ensures config { self.new.config ≡ self.old.config }
        ensures fronts { self.new.fronts ≡ self.old.fronts }
    {
        let place = self.place;
        let rt = self.rt;
        board_seats::layout_of(&rt, place, &mut self.seat, shard)
    }

    /// Puts a version that was made apart in the place of a shard's present one, which it stands at one position with.
    ///
    /// # Errors
    ///
    /// `Moved` exactly where the positions differ, with that of the shard; the version is handed back.
    pub fn swap(&mut self, shard: u32, prepared: Prepared<W>) -> Result<(), Moved<W>>
        requires shard { shard < self.old.config.shards }
        requires made { IsMadeFor (shared_desk self.old) shard (contents_at prepared.version) }
        ensures swapped { Swaps (shared_desk self.old) (shared_desk self.new) shard
            (contents_at prepared.entry.version) (is_err result) }
        ensures at { IfErr result (λ moved. moved.shard_at ≡ left_at (shared_desk self.new) shard) }
        ensures back { IfErr result (λ moved. moved.prepared ≡ prepared.entry) }
        // What stays.
        ensures board { self.new.board ≡ self.old.board }
        ensures config { self.new.config ≡ self.old.config }
        ensures fronts { self.new.fronts ≡ self.old.fronts }
    {
        let place = self.place;
        let rt = self.rt;
        let position = prepared.version.at();
        let swapped = board_seats::swap(&rt, place, &mut self.seat, shard, prepared);
        match swapped {
            Ok(()) => {
                self.done = one_more(self.done);
                Ok(())
            }
            Err(moved) => {
                self.late = late_after(self.late, self.last, position, moved.shard_at);
                Err(moved)
            }
        }
    }
}
