//! A desk that counts what is asked of it.

ghost use Rattle.std.specs.Prelude.{◌≡◌, ◌<◌, IfErr, IfOk, OnErr, is_err};
ghost use Rattle.hamming_model.specs.Recoded.{IsStoredOperation};
ghost use Rattle.entry_log.specs.Entries.{kept_operation};
ghost use Rattle.versioned_shard.specs.Shards.{contents_at};
ghost use Rattle.session_desk.specs.Calls.{ClosesFront, CommitsAt, IsMadeFor, KeepsKnown, OnlyLearns, Swaps};
ghost use Rattle.session_desk.specs.Desks.{IsOwnFront, left_at};

use commit_journal::{Decided, Front};
use entry_log::Op;
use gph_codes::Code;
use part_layout::LayoutText;
use read_meter::{NoMemory, Steps};
use session_desk::Desk;
use shard_version::{Prepared, Version};
use std::sync::Arc;
use versioned_shard::Moved;

/// A desk of one shard that hands each call on to another desk, and stands for just what that does.
#[derive(Drop)]
pub(crate) struct CountingDesk<'a, D> {
    pub(crate) inner: &'a mut D,
    /// How often a code was asked for by its key.
    pub(crate) codes: u64,
    /// The position of the shard's last pin.
    pub(crate) pinned: u64,
    /// The most steps by which the pins so far may have raised upkeep.
    pub(crate) upkeep: u64,
}

impl<'a, const W: usize, D: Desk<W>> Desk<W> for CountingDesk<'a, D> {
    ghost desk = { λ s. D.desk s.inner.now };

    ghost knows = { λ s front. D.knows s.inner.now front };

    fn who(&self) -> u32 {
        self.inner.who()
    }

    fn shards(&self) -> u32 {
        self.inner.shards()
    }

    fn commit(&mut self, op: Op<W>) -> Result<Decided, NoMemory>
        requires { IsStoredOperation W (D.desk self.old.inner.now).config.bits (kept_operation op) }
        ensures decided { IfOk result (λ decided. CommitsAt (D.desk self.old.inner.now)
            (D.desk self.new.inner.now) (kept_operation op.entry) decided) }
        ensures unchanged { OnErr result
            (OnlyLearns (D.desk self.old.inner.now) (D.desk self.new.inner.now)) }
        ensures known { KeepsKnown (D.desk self.new.inner.now)
            (D.knows self.old.inner.now) (D.knows self.new.inner.now) }
    {
        self.inner.commit(op)
    }

    fn code_of(&mut self, key: u64) -> (Option<Code<W>>, u64) {
        self.codes = self.codes.saturating_add(1);
        self.inner.code_of(key)
    }

    fn length(&mut self) -> u64 {
        self.inner.length()
    }

    fn open_front(&mut self) -> Result<Front<W>, NoMemory> {
        self.inner.open_front()
    }

    fn close_front(&mut self, front: Front<W>)
        requires own { IsOwnFront (D.desk self.old.inner.now) front }
        requires knows { D.knows self.old.inner.now front }
        ensures closed { ClosesFront (D.desk self.old.inner.now) (D.desk self.new.inner.now)
            front.entry }
        ensures known { KeepsKnown (D.desk self.new.inner.now)
            (D.knows self.old.inner.now) (D.knows self.new.inner.now) }
    {
        self.inner.close_front(front)
    }

    fn pin<M>(
        &mut self,
        front: &Front<W>,
        shard: u32,
        steps: &mut Steps<M>,
    ) -> Result<Arc<Version<W>>, NoMemory> {
        let position = front.position();
        let behind = position.saturating_sub(self.pinned);
        self.upkeep = self.upkeep.saturating_add(behind);
        self.pinned = position;
        self.inner.pin(front, shard, steps)
    }

    fn layout_of(&mut self, shard: u32) -> LayoutText {
        self.inner.layout_of(shard)
    }

    fn swap(&mut self, shard: u32, prepared: Prepared<W>) -> Result<(), Moved<W>>
        requires shard { shard < (D.desk self.old.inner.now).config.shards }
        requires made { IsMadeFor (D.desk self.old.inner.now) shard (contents_at prepared.version) }
        ensures swapped { Swaps (D.desk self.old.inner.now) (D.desk self.new.inner.now) shard
            (contents_at prepared.entry.version) (is_err result) }
        ensures at { IfErr result (λ moved. moved.shard_at
            ≡ left_at (D.desk self.new.inner.now) shard) }
        ensures back { IfErr result (λ moved. moved.prepared ≡ prepared.entry) }
        ensures known { KeepsKnown (D.desk self.new.inner.now)
            (D.knows self.old.inner.now) (D.knows self.new.inner.now) }
    {
        self.inner.swap(shard, prepared)
    }
}
