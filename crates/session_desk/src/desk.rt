//! The desk of a session.

ghost use Rattle.std.specs.Prelude.{◌≡◌, ◌+◌, ◌-◌, ◌<◌, ◌≤◌, length, take, IfErr, IfOk, IfSome, OnErr, is_err};
ghost use Rattle.hamming_model.specs.Codes.{StandsFor};
ghost use Rattle.hamming_model.specs.History.{code_at, rows_of};
ghost use Rattle.hamming_model.specs.Recoded.{IsStoredOperation};
ghost use Rattle.entry_log.specs.Entries.{kept_operation};
ghost use Rattle.commit_journal.specs.Fronts.{position_of};
ghost use Rattle.versioned_shard.specs.Shards.{contents_at};
ghost use Rattle.session_desk.specs.Calls.{ClosesFront, Comes, CommitsAt, IsMadeFor, KeepsKnown, OnlyLearns};
ghost use Rattle.session_desk.specs.Calls.{OpensFront, PinsVersion, Swaps, TellsLayout};
ghost use Rattle.session_desk.specs.Desks.{IsDesk, IsOwnFront, left_at, pinned_at};

use commit_journal::{Decided, Front};
use entry_log::Op;
use gph_codes::Code;
use part_layout::LayoutText;
use read_meter::{NoMemory, Steps};
use shard_version::{Prepared, Version};
use std::sync::Arc;
use versioned_shard::Moved;

/// What a session works over: a history, of which it has seen the beginning, and the shards along it. Each call may see more of
/// what others added.
pub trait Desk<const W: usize> {
    ghost use Rattle.commit_journal.specs.Fronts.{FrontState};
    ghost use Rattle.session_desk.specs.Desks.{DeskState};

    /// What it stands for.
    ghost desk: { Self → DeskState };

    /// What it knows of a front that it opened, as long as that is live.
    ghost knows: { Self → FrontState → Type 0 };

    /// Its number.
    fn who(&self) -> u32
        ensures who { result ≡ (desk self.now).who }
        ensures desk { IsDesk W (desk self.now) };

    /// How many shards there are.
    fn shards(&self) -> u32
        ensures shards { result ≡ (desk self.now).config.shards }
        ensures desk { IsDesk W (desk self.now) };

    /// Decides on an operation, and appends its entry where that is added or deleted.
    ///
    /// # Errors
    ///
    /// `NoMemory` where there is none for one entry more.
    fn commit(&mut self, op: Op<W>) -> Result<Decided, NoMemory>
        requires { IsStoredOperation W (desk self.old).config.bits (kept_operation op) }
        ensures decided { IfOk result (λ decided. CommitsAt (desk self.old) (desk self.new)
            (kept_operation op.entry) decided) }
        ensures unchanged { OnErr result (OnlyLearns (desk self.old) (desk self.new)) }
        ensures known { KeepsKnown (desk self.new) (knows self.old) (knows self.new) };

    /// The code of a key, none exactly where it has no row, and how many entries there are.
    fn code_of(&mut self, key: u64) -> (Option<Code<W>>, u64)
        ensures code { result.0 ≡ code_at (rows_of (desk self.new).seen) key }
        ensures stands { IfSome result.0 (λ code. StandsFor W (desk self.new).config.bits code
            (take (desk self.new).config.bits code)) }
        ensures length { result.1 ≡ length (desk self.new).seen }
        ensures learns { OnlyLearns (desk self.old) (desk self.new) }
        ensures known { KeepsKnown (desk self.new) (knows self.old) (knows self.new) };

    /// How many entries there are.
    fn length(&mut self) -> u64
        ensures length { result ≡ length (desk self.new).seen }
        ensures learns { OnlyLearns (desk self.old) (desk self.new) }
        ensures known { KeepsKnown (desk self.new) (knows self.old) (knows self.new) };

    /// A front at the length of all that is seen.
    ///
    /// # Errors
    ///
    /// `NoMemory` where there is none for the front.
    fn open_front(&mut self) -> Result<Front<W>, NoMemory>
        ensures opened { IfOk result (λ front. OpensFront (desk self.old) (desk self.new) front) }
        ensures own { IfOk result (λ front. IsOwnFront (desk self.new) front) }
        ensures knows { IfOk result (λ front. knows self.new front) }
        ensures unchanged { OnErr result (OnlyLearns (desk self.old) (desk self.new)) }
        ensures known { KeepsKnown (desk self.new) (knows self.old) (knows self.new) };

    /// Closes a front of this desk.
    fn close_front(&mut self, front: Front<W>)
        requires own { IsOwnFront (desk self.old) front }
        requires knows { knows self.old front }
        ensures closed { ClosesFront (desk self.old) (desk self.new) front.entry }
        ensures known { KeepsKnown (desk self.new) (knows self.old) (knows self.new) };

    /// The version of a shard at a front of this desk. The shard comes to the front where it is behind, for one step an entry.
    ///
    /// # Errors
    ///
    /// `NoMemory` where there is none for the versions on the way. The shard may have come to the front.
    fn pin<M>(
        &mut self,
        front: &Front<W>,
        shard: u32,
        steps: &mut Steps<M>,
    ) -> Result<Arc<Version<W>>, NoMemory>
        requires own { IsOwnFront (desk self.old) front.now }
        requires knows { knows self.old front.now }
        requires shard { shard < (desk self.old).config.shards }
        ensures pinned { IfOk result (λ version.
            PinsVersion (desk self.old) (desk self.new) front.now shard (contents_at version)) }
        ensures comes { OnErr result (Comes (desk self.old) (desk self.new) shard
            (desk self.old).pins) }
        ensures upkeep { steps.new ≤ steps.old +
            (position_of front.now - pinned_at (desk self.old) shard) }
        ensures known { KeepsKnown (desk self.new) (knows self.old) (knows self.new) };

    /// The text of a shard's present layout.
    fn layout_of(&mut self, shard: u32) -> LayoutText
        requires shard { shard < (desk self.old).config.shards }
        ensures layout { TellsLayout (desk self.old) (desk self.new) shard result }
        ensures known { KeepsKnown (desk self.new) (knows self.old) (knows self.new) };

    /// Puts a version that was made apart in the place of a shard's present one, which it stands at one position with.
    ///
    /// # Errors
    ///
    /// `Moved` exactly where the positions differ, with that of the shard; the version is handed back.
    fn swap(&mut self, shard: u32, prepared: Prepared<W>) -> Result<(), Moved<W>>
        requires shard { shard < (desk self.old).config.shards }
        requires made { IsMadeFor (desk self.old) shard (contents_at prepared.version) }
        ensures swapped { Swaps (desk self.old) (desk self.new) shard
            (contents_at prepared.entry.version) (is_err result) }
        ensures at { IfErr result (λ moved. moved.shard_at ≡ left_at (desk self.new) shard) }
        ensures back { IfErr result (λ moved. moved.prepared ≡ prepared.entry) }
        ensures known { KeepsKnown (desk self.new) (knows self.old) (knows self.new) };
}
