//! The build.

ghost use Rattle.std.specs.Prelude.{◌≡◌, ◌↔◌, ℕ, ◌+◌, ◌-◌, ◌<◌, ◌≤◌, length, min, IfErr, IfOk, OnErr, OnOk};
ghost use Rattle.std.specs.Arc.{arc_value};
ghost use Rattle.hamming_model.specs.Recoded.{AreStoredEntries};
ghost use Rattle.hamming_model.specs.declared.limits.TheConstants.{WORDS_MOST};
ghost use Rattle.part_layout.specs.Laid.{IsLaid};
ghost use Rattle.shard_version.specs.Contents.{IsVersion};
ghost use Rattle.version_draft.specs.Unfinished.{begun, with_placed};
ghost use Rattle.commit_journal.specs.Fronts.{position_of};
ghost use Rattle.versioned_shard.specs.Along.{Follows};
ghost use Rattle.versioned_shard.specs.Shards.{contents_at};
ghost use Rattle.repartitioner.specs.Builds.{followed, placed_all};
ghost use Rattle.repartitioner.specs.Refusals.{IsLeft, TellsLeft, handed_back};
ghost use Rattle.repartitioner.specs.declared.state.BuildState.TheVariants.{Going, Ready};

use crate::stage::Stage;
use crate::state::BuildState;
use crate::unready::Unready;
use commit_journal::Front;
use part_layout::Layout;
use read_meter::{NoMemory, Steps};
use shard_version::{Prepared, Version};
use std::alloc::Global;
use std::marker::Model;
use std::sync::Arc;
use version_draft::Draft;
use versioned_shard::reached;

/// A version of a shard that is made in another layout. Seen as the contents of the version that it becomes, and how many rows are
/// left to place.
#[derive(Drop)]
pub struct Build<const W: usize> {
    alloc: Global,
    stage: Stage<W>,
}

impl<const W: usize> Model for Build<W> {
    ghost use Rattle.std.specs.Prelude.{◌≤◌};
    ghost use Rattle.hamming_model.specs.declared.limits.TheConstants.{WORDS_MOST};
    ghost use Rattle.version_draft.specs.Unfinished.{Unfinished, unfinished_code};
    ghost use Rattle.repartitioner.specs.Stages.{unfinished_in};

    ghost Value = { Unfinished };

    ghost coded = { unfinished_code };

    ghost view = { λ build. unfinished_in build.stage };

    ghost invariant = { λ build. W ≤ WORDS_MOST };
}

impl<const W: usize> Build<W> {
    /// A build of a version in another layout of the same bits, with no row placed: reads each row, for one step, and takes room for
    /// all of them.
    ///
    /// # Errors
    ///
    /// `NoMemory` where there is no memory for that; the steps stay.
    pub fn start<M>(
        alloc: Global,
        version: &Arc<Version<W>>,
        layout: Arc<Layout>,
        steps: &mut Steps<M>,
    ) -> Result<Build<W>, NoMemory>
        requires few_words { W ≤ WORDS_MOST }
        requires laid { IsLaid (arc_value layout) }
        requires bits { (arc_value layout).bits ≡ (contents_at version.now).layout.bits }
        ensures build { IfOk result (λ build.
            build ≡ begun (contents_at version.now) (arc_value layout)) }
        ensures steps { OnOk result
            (steps.new ≡ steps.old + length (contents_at version.now).rows) }
        ensures bound { steps.new ≤ steps.old + length (contents_at version.now).rows }
    {
        let draft = Draft::begin(alloc, version, layout, steps)?;
        Ok(Build {
            alloc,
            stage: Stage::Placing(draft),
        })
    }

    /// A build that was finished goes on, with nothing left to place.
    pub fn resume(alloc: Global, prepared: Prepared<W>) -> Build<W>
        requires { W ≤ WORDS_MOST }
        ensures { result ≡ placed_all (contents_at prepared.entry.version) }
    {
        Build {
            alloc,
            stage: Stage::Following(prepared.version),
        }
    }

    /// How many rows are left to place.
    pub fn left(&self) -> u64
        ensures { result ≡ self.now.left }
    {
        match &self.stage {
            Stage::Placing(draft) => draft.left(),
            Stage::Following(_) => 0,
        }
    }

    /// How many entries of the history the build has taken in.
    pub fn at(&self) -> u64
        ensures at { result ≡ self.now.contents.at }
        ensures version { IsVersion self.now.contents }
    {
        match &self.stage {
            Stage::Placing(draft) => draft.at(),
            Stage::Following(version) => version.at(),
        }
    }

    /// Places the next rows, so many or all that are left, for one step each, and tells how many are left. Takes no memory.
    pub fn step<M>(&mut self, n: u32, steps: &mut Steps<M>) -> BuildState
        ensures placed { self.new ≡ with_placed self.old n }
        ensures steps { steps.new ≡ steps.old + min n self.old.left }
        // The answers.
        ensures going { (left : ℕ) → (result ≡ Going left) ↔ ((left ≡ self.new.left) × (0 < left)) }
        ensures ready { (result ≡ Ready) ↔ (self.new.left ≡ 0) }
    {
        if let Stage::Placing(draft) = &mut self.stage {
            draft.place(n, steps);
            let left = draft.left();
            if left > 0 {
                return BuildState::Going { left };
            }
        }
        BuildState::Ready
    }

    /// Takes in the entries up to a front, for one step each. A version that others may have too is copied first.
    ///
    /// # Errors
    ///
    /// `NoMemory` where there is none for the version; the build is as before, and the steps stay.
    pub fn follow<M>(&mut self, front: &Front<W>, steps: &mut Steps<M>) -> Result<(), NoMemory>
        requires placed { self.old.left ≡ 0 }
        requires ahead { self.old.contents.at ≤ position_of front.now }
        requires follows { Follows front.now.entries self.old.contents }
        requires codes { AreStoredEntries W self.old.contents.layout.bits front.now.entries }
        // The build.
        ensures followed { OnOk result (self.new ≡ followed front.now self.old) }
        ensures unchanged { OnErr result (self.new ≡ self.old) }
        // The steps.
        ensures steps { OnOk result
            (steps.new ≡ steps.old + (position_of front.now - self.old.contents.at)) }
        ensures bound { steps.new ≤ steps.old + (position_of front.now - self.old.contents.at) }
    {
        let version = self.version()?;
        let position = front.position();
        let version = reached(self.alloc, &version, front, position, steps)?;
        self.stage = Stage::Following(version);
        Ok(())
    }

    /// The finished rebuild, to be swapped in at its position.
    ///
    /// # Errors
    ///
    /// `Left` exactly where rows are left. Else `NoMemory` where there is none for the version. Both hand the build back as it was.
    pub fn finish(self) -> Result<Prepared<W>, Unready<W>>
        ensures prepared { IfOk result (λ prepared.
            contents_at prepared.version ≡ self.entry.contents) }
        ensures left { IsLeft result ↔ (0 < self.entry.left) }
        ensures told { IfErr result (λ unready. TellsLeft unready self.entry.left) }
        ensures back { IfErr result (λ unready. handed_back unready ≡ self.entry) }
    {
        let left = self.left();
        if left > 0 {
            return Err(Unready::Left { left, build: self });
        }
        let Ok(version) = self.version() else {
            return Err(Unready::NoMemory { build: self });
        };
        Ok(Prepared { version })
    }

    // The version, once all rows are placed.
    fn version(&self) -> Result<Arc<Version<W>>, NoMemory>
        requires { self.now.left ≡ 0 }
        ensures { IfOk result (λ version. contents_at version ≡ self.now.contents) }
    {
        let shared = match &self.stage {
            Stage::Placing(draft) => {
                let version = draft.version()?;
                Arc::new(self.alloc, version).ok()
            }
            Stage::Following(version) => version.clone().ok(),
        };
        shared.ok_or(NoMemory)
    }
}
