//! A desk of which is seen what may raise upkeep, and before whose first swap another desk may come on.

ghost use Rattle.std.specs.Prelude.{◌≡◌, ◌<◌, IfErr, IfOk, OnErr, is_err};
ghost use Rattle.std.specs.Thread.{IsSync};
ghost use Rattle.hamming_model.specs.Recoded.{IsStoredOperation};
ghost use Rattle.entry_log.specs.Entries.{kept_operation};
ghost use Rattle.versioned_shard.specs.Shards.{contents_at};
ghost use Rattle.session_desk.specs.Calls.{ClosesFront, CommitsAt, IsMadeFor, KeepsKnown, OnlyLearns, Swaps};
ghost use Rattle.session_desk.specs.Desks.{IsOwnFront, left_at};

use crate::rivals::let_on;
use crate::served::{BLOCK, CONFIG, Postings, Upkeep};
use commit_journal::{Decided, Front};
use entry_log::Op;
use gph_codes::Code;
use gph_session::{Report, session};
use line_io::{MemorySink, MemorySource};
use part_layout::LayoutText;
use read_meter::{Meters, NoMemory, Steps, upkeep};
use scatter_gather::NoGate;
use session_desk::Desk;
use shard_version::{Prepared, Version};
use std::alloc::Global;
use std::env::Env;
use std::process::Abort;
use std::sync::Arc;
use std::test::Fail;
use std::thread::Threads;
use versioned_shard::Moved;

/// A desk of one shard that hands each call on to another desk, and stands for just what that does.
#[derive(Drop)]
pub(crate) struct WatchedDesk<'a, D: Drop> {
    pub(crate) inner: &'a mut D,
    /// The desk that comes on before the first swap.
    pub(crate) rival: Option<D>,
    /// The ledger of its steps.
    pub(crate) steps: Steps<Upkeep>,
    /// The position of the shard's last pin.
    pub(crate) pinned: u64,
    /// The most steps by which the pins so far may have raised upkeep.
    pub(crate) upkeep: u64,
}

impl<'a, const W: usize, D: Desk<W> + Drop> Desk<W> for WatchedDesk<'a, D> {
    ghost desk = { λ s. D.desk s.inner.now };

    ghost knows = { λ s front. D.knows s.inner.now front };

    fn who(&self) -> u32 {
        self.inner.who()
    }

    fn shards(&self) -> u32 {
        self.inner.shards()
    }

    fn commit(&mut self, op: Op<W>) -> Result<Decided, NoMemory>
        requires { IsStoredOperation W (D.desk self.old.inner.now).config.bits (kept_operation op) }
        ensures decided { IfOk result (λ decided. CommitsAt (D.desk self.old.inner.now)
            (D.desk self.new.inner.now) (kept_operation op.entry) decided) }
        ensures unchanged { OnErr result
            (OnlyLearns (D.desk self.old.inner.now) (D.desk self.new.inner.now)) }
        ensures known { KeepsKnown (D.desk self.new.inner.now)
            (D.knows self.old.inner.now) (D.knows self.new.inner.now) }
    {
        self.inner.commit(op)
    }

    fn code_of(&mut self, key: u64) -> (Option<Code<W>>, u64) {
        self.inner.code_of(key)
    }

    fn length(&mut self) -> u64 {
        self.inner.length()
    }

    fn open_front(&mut self) -> Result<Front<W>, NoMemory> {
        self.inner.open_front()
    }

    fn close_front(&mut self, front: Front<W>)
        requires own { IsOwnFront (D.desk self.old.inner.now) front }
        requires knows { D.knows self.old.inner.now front }
        ensures closed { ClosesFront (D.desk self.old.inner.now) (D.desk self.new.inner.now)
            front.entry }
        ensures known { KeepsKnown (D.desk self.new.inner.now)
            (D.knows self.old.inner.now) (D.knows self.new.inner.now) }
    {
        self.inner.close_front(front)
    }

    fn pin<M>(
        &mut self,
        front: &Front<W>,
        shard: u32,
        steps: &mut Steps<M>,
    ) -> Result<Arc<Version<W>>, NoMemory> {
        let position = front.position();
        let behind = position.saturating_sub(self.pinned);
        self.upkeep = self.upkeep.saturating_add(behind);
        self.pinned = position;
        self.inner.pin(front, shard, steps)
    }

    fn layout_of(&mut self, shard: u32) -> LayoutText {
        self.inner.layout_of(shard)
    }

    fn swap(&mut self, shard: u32, prepared: Prepared<W>) -> Result<(), Moved<W>>
        requires shard { shard < (D.desk self.old.inner.now).config.shards }
        requires made { IsMadeFor (D.desk self.old.inner.now) shard (contents_at prepared.version) }
        ensures swapped { Swaps (D.desk self.old.inner.now) (D.desk self.new.inner.now) shard
            (contents_at prepared.entry.version) (is_err result) }
        ensures at { IfErr result (λ moved. moved.shard_at
            ≡ left_at (D.desk self.new.inner.now) shard) }
        ensures back { IfErr result (λ moved. moved.prepared ≡ prepared.entry) }
        ensures known { KeepsKnown (D.desk self.new.inner.now)
            (D.knows self.old.inner.now) (D.knows self.new.inner.now) }
    {
        let_on(&mut self.rival, shard, &mut self.steps);
        self.inner.swap(shard, prepared)
    }
}

/// What became of a session over a watched desk: its report, its replies, and by how many steps its pins may have raised upkeep.
#[derive(Drop)]
pub(crate) struct Watched {
    pub(crate) report: Report,
    pub(crate) sink: MemorySink,
    pub(crate) upkeep: u64,
}

/// Serves a session over a desk whose shard was pinned at a position, and before whose first swap a rival comes on, if there is one.
pub(crate) fn serve_watched<D: Desk<1> + Drop, R: Abort + Env + Threads + Sync>(
    rt: &R,
    alloc: Global,
    desk: D,
    rival: Option<D>,
    pinned: u64,
    asked: &[u8],
) -> Result<Watched, Fail>
    requires sync { IsSync R.row }
    requires config { (D.desk desk).config ≡ CONFIG }
{
    let mut source = MemorySource::new(asked.to_vec(alloc)?, BLOCK, Vec::new(alloc));
    let mut sink = MemorySink::new(alloc, Vec::new(alloc));
    let mut meters: Meters<Postings> = Meters::new(rt, alloc)?;
    let mut kept: Steps<Upkeep> = upkeep(rt);
    let mut inner = desk;
    let mut watched = WatchedDesk {
        inner: &mut inner,
        rival,
        steps: upkeep(rt),
        pinned,
        upkeep: 0,
    };
    let report = session(
        rt,
        alloc,
        &CONFIG,
        &mut watched,
        &mut source,
        &mut sink,
        &NoGate,
        &mut kept,
        &mut meters,
    );
    let upkeep = watched.upkeep;
    Ok(Watched {
        report,
        sink,
        upkeep,
    })
}
