//! A desk that is alone.

ghost use Rattle.std.specs.Prelude.{◌≡◌, ◌*◌, ◌<◌, ◌≤◌, if◌then◌else◌, IfErr, IfOk, OnErr, is_err};
ghost use Rattle.hamming_model.specs.Recoded.{IsStoredOperation};
ghost use Rattle.hamming_model.specs.declared.limits.TheConstants.{WORDS_MOST};
ghost use Rattle.part_layout.specs.Ranges.{IsConfig};
ghost use Rattle.entry_log.specs.Entries.{kept_operation};
ghost use Rattle.commit_journal.specs.Journals.{KnowsFront};
ghost use Rattle.versioned_shard.specs.Shards.{contents_at};
ghost use Rattle.session_desk.specs.Calls.{ClosesFront, CommitsAt, IsMadeFor, KeepsKnown, OnlyLearns, Swaps, is_late, one_more};
ghost use Rattle.session_desk.specs.Desks.{IsOwnFront, left_at, new_desk};
ghost use Rattle.session_desk.specs.Solos.{desk_of};

use crate::desk::Desk;
use crate::pinned_layout::PinnedLayout;
use crate::shards::{first_layout, first_shard, pin_shard, swap_shard, text_of};
use commit_journal::{Decided, Front, Journal};
use entry_log::Op;
use gph_codes::Code;
use part_layout::{Config, LayoutText};
use read_meter::{NoMemory, Steps};
use shard_version::{Prepared, Version};
use std::alloc::Global;
use std::marker::Model;
use std::sync::Arc;
use versioned_shard::{Moved, Shard, journals_keep_the_rule, shards_keep_the_rule};

/// A desk that owns its journal and its shards, so that nobody else adds to the history.
#[derive(Drop)]
pub struct SoloDesk<const W: usize> {
    config: Config,
    journal: Journal<W>,
    last: u64,
    shards: Vec<Shard<W>>,
    // position and layout of each shard's last pin
    pins: Vec<Option<(u64, PinnedLayout)>>,
    done: u64,
    late: u64,
}

impl<const W: usize> Model for SoloDesk<W> {
    ghost use Rattle.session_desk.specs.Solos.{IsSoloDesk, SoloState, solo_code, solo_of};

    ghost Value = { SoloState };

    ghost coded = { solo_code };

    ghost view = { λ s. solo_of s.config s.journal s.last s.shards.items s.pins.items s.done s.late };

    ghost invariant = { λ s. IsSoloDesk W (solo_of s.config s.journal s.last s.shards.items s.pins.items s.done s.late) };
}

impl<const W: usize> SoloDesk<W> {
    /// A desk with no entries and as many shards as the Config asks for, each in the contiguous layout.
    ///
    /// # Errors
    ///
    /// `NoMemory` where there is none for the journal, the layout or the shards.
    pub fn new(alloc: Global, config: &Config) -> Result<SoloDesk<W>, NoMemory>
        requires config { IsConfig config.now }
        requires few_words { W ≤ WORDS_MOST }
        requires room { config.now.bits ≤ 64 * W }
        ensures begins { IfOk result (λ desk. ⟦<SoloDesk<W> as Desk<W>>⟧.desk desk ≡ new_desk
            config.now) }
    {
        shards_keep_the_rule();
        let journal = Journal::new(alloc, config.entries)?;
        let layout = first_layout(alloc, config)?;
        let mut shards = Vec::new(alloc);
        let mut pins = Vec::new(alloc);
        for number in 0..config.shards {
            let shard = first_shard(alloc, config, number, &layout)?;
            shards.push(shard)?;
            pins.push(None)?;
        }
        Ok(SoloDesk {
            config: *config,
            journal,
            last: 0,
            shards,
            pins,
            done: 0,
            late: 0,
        })
    }
}

impl<const W: usize> Desk<W> for SoloDesk<W> {
    ghost desk = { desk_of };

    ghost knows = { λ s front. KnowsFront s.journal front };

    fn who(&self) -> u32 {
        let _length = self.journal.length();
        0
    }

    fn shards(&self) -> u32 {
        let _length = self.journal.length();
        self.config.shards
    }

    fn commit(&mut self, op: Op<W>) -> Result<Decided, NoMemory>
        requires { IsStoredOperation W self.old.config.bits (kept_operation op) }
        ensures decided { IfOk result (λ decided.
            CommitsAt (desk_of self.old) (desk_of self.new) (kept_operation op.entry) decided) }
        ensures unchanged { OnErr result (OnlyLearns (desk_of self.old) (desk_of self.new)) }
        ensures known { KeepsKnown (desk_of self.new) (KnowsFront self.old.journal)
            (KnowsFront self.new.journal) }
    {
        journals_keep_the_rule();
        self.journal.commit(0, op)
    }

    fn code_of(&mut self, key: u64) -> (Option<Code<W>>, u64) {
        (self.journal.code_of(key), self.journal.length())
    }

    fn length(&mut self) -> u64 {
        self.journal.length()
    }

    fn open_front(&mut self) -> Result<Front<W>, NoMemory> {
        journals_keep_the_rule();
        let front = self.journal.open_front(0)?;
        self.last = front.position();
        Ok(front)
    }

    fn close_front(&mut self, front: Front<W>)
        requires own { IsOwnFront (desk_of self.old) front }
        requires knows { KnowsFront self.old.journal front }
        ensures closed { ClosesFront (desk_of self.old) (desk_of self.new) front.entry }
        ensures known { KeepsKnown (desk_of self.new) (KnowsFront self.old.journal)
            (KnowsFront self.new.journal) }
    {
        journals_keep_the_rule();
        self.journal.close_front(front);
    }

    fn pin<M>(
        &mut self,
        front: &Front<W>,
        shard: u32,
        steps: &mut Steps<M>,
    ) -> Result<Arc<Version<W>>, NoMemory> {
        let place = shard as usize;
        let version = pin_shard(&self.journal, &mut self.shards[place], front, steps)?;
        let layout = PinnedLayout::of(&version)?;
        self.pins[place] = Some((front.position(), layout));
        Ok(version)
    }

    fn layout_of(&mut self, shard: u32) -> LayoutText {
        text_of(self.shards[shard as usize].current())
    }

    fn swap(&mut self, shard: u32, prepared: Prepared<W>) -> Result<(), Moved<W>>
        requires shard { shard < self.old.config.shards }
        requires made { IsMadeFor (desk_of self.old) shard (contents_at prepared.version) }
        ensures swapped { Swaps (desk_of self.old) (desk_of self.new) shard
            (contents_at prepared.entry.version) (is_err result) }
        ensures at { IfErr result (λ moved. moved.shard_at ≡ left_at (desk_of self.new) shard) }
        ensures back { IfErr result (λ moved. moved.prepared ≡ prepared.entry) }
        ensures known { KeepsKnown (desk_of self.new) (KnowsFront self.old.journal)
            (KnowsFront self.new.journal) }
    {
        let position = prepared.version.at();
        let swapped = swap_shard(&self.journal, &mut self.shards[shard as usize], prepared);
        match swapped {
            Ok(()) => {
                self.done = one_more(self.done);
                Ok(())
            }
            Err(moved) => {
                self.late = late_after(self.late, self.last, position, moved.shard_at);
                Err(moved)
            }
        }
    }
}

// The count of late swaps after one more that was moved.
fn late_after(late: u64, last: u64, prepared_at: u64, shard_at: u64) -> u64
    ensures { result ≡ if is_late last prepared_at shard_at then one_more late else late }
{
    if prepared_at == last && last < shard_at {
        one_more(late)
    } else {
        late
    }
}

// One more, where there is room.
fn one_more(count: u64) -> u64
    ensures { result ≡ one_more count }
{
    count.saturating_add(1)
}
