//! A desk of the board as a session's desk.

ghost use Rattle.std.specs.Prelude.{◌≡◌, ◌<◌, IfErr, IfOk, OnErr, is_err};
ghost use Rattle.hamming_model.specs.Recoded.{IsStoredOperation};
ghost use Rattle.entry_log.specs.Entries.{kept_operation};
ghost use Rattle.versioned_shard.specs.Shards.{contents_at};
ghost use Rattle.session_desk.specs.Calls.{ClosesFront, CommitsAt, IsMadeFor, KeepsKnown, OnlyLearns, Swaps};
ghost use Rattle.session_desk.specs.Desks.{IsOwnFront, left_at};
ghost use Rattle.board_seats.specs.Views.{AmongFronts};
ghost use Rattle.shared_board.specs.Shared.{shared_desk};

use crate::desk::SharedDesk;
use commit_journal::{Decided, Front};
use entry_log::Op;
use gph_codes::Code;
use part_layout::LayoutText;
use read_meter::{NoMemory, Steps};
use session_desk::Desk;
use shard_version::{Prepared, Version};
use std::sync::{Arc, Wait};
use versioned_shard::Moved;

impl<'b, const W: usize, R: Wait + Copy> Desk<W> for SharedDesk<'b, W, R> {
    ghost desk = { shared_desk };

    ghost knows = { λ s front. AmongFronts s.fronts front };

    fn who(&self) -> u32 {
        self.who()
    }

    fn shards(&self) -> u32 {
        self.shards()
    }

    fn commit(&mut self, op: Op<W>) -> Result<Decided, NoMemory>
        requires { IsStoredOperation W self.old.config.bits (kept_operation op) }
        ensures decided { IfOk result (λ decided. CommitsAt (shared_desk self.old)
            (shared_desk self.new) (kept_operation op.entry) decided) }
        ensures unchanged { OnErr result (OnlyLearns (shared_desk self.old)
            (shared_desk self.new)) }
        ensures known { KeepsKnown (shared_desk self.new) (AmongFronts self.old.fronts)
            (AmongFronts self.new.fronts) }
    {
        self.commit(op)
    }

    fn code_of(&mut self, key: u64) -> (Option<Code<W>>, u64) {
        let found = self.code_of(key);
        let _who = self.who();
        found
    }

    fn length(&mut self) -> u64 {
        self.length()
    }

    fn open_front(&mut self) -> Result<Front<W>, NoMemory> {
        self.open_front()
    }

    fn close_front(&mut self, front: Front<W>)
        requires own { IsOwnFront (shared_desk self.old) front }
        requires knows { AmongFronts self.old.fronts front }
        ensures closed { ClosesFront (shared_desk self.old) (shared_desk self.new) front.entry }
        ensures known { KeepsKnown (shared_desk self.new) (AmongFronts self.old.fronts)
            (AmongFronts self.new.fronts) }
    {
        self.close_front(front);
    }

    fn pin<M>(
        &mut self,
        front: &Front<W>,
        shard: u32,
        steps: &mut Steps<M>,
    ) -> Result<Arc<Version<W>>, NoMemory> {
        self.pin(front, shard, steps)
    }

    fn layout_of(&mut self, shard: u32) -> LayoutText {
        self.layout_of(shard)
    }

    fn swap(&mut self, shard: u32, prepared: Prepared<W>) -> Result<(), Moved<W>>
        requires shard { shard < self.old.config.shards }
        requires made { IsMadeFor (shared_desk self.old) shard (contents_at prepared.version) }
        ensures swapped { Swaps (shared_desk self.old) (shared_desk self.new) shard
            (contents_at prepared.entry.version) (is_err result) }
        ensures at { IfErr result (λ moved. moved.shard_at ≡ left_at (shared_desk self.new) shard) }
        ensures back { IfErr result (λ moved. moved.prepared ≡ prepared.entry) }
        ensures known { KeepsKnown (shared_desk self.new) (AmongFronts self.old.fronts)
            (AmongFronts self.new.fronts) }
    {
        self.swap(shard, prepared)
    }
}
