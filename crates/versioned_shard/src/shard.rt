//! The shard.

ghost use Rattle.std.specs.Prelude.{◌≡◌, ◌≢◌, ◌↔◌, ◌+◌, ◌-◌, ◌<◌, ◌≤◌, [], IfErr, IfOk, IsErr, OnErr, OnOk};
ghost use Rattle.std.specs.Arc.{arc_value};
ghost use Rattle.hamming_model.specs.Recoded.{AreStoredEntries};
ghost use Rattle.hamming_model.specs.declared.limits.TheConstants.{WORDS_MOST};
ghost use Rattle.commit_journal.specs.Fronts.{position_of};
ghost use Rattle.versioned_shard.specs.Along.{Follows};
ghost use Rattle.versioned_shard.specs.Shards.{HasVersion, IsOneOf, MayStandIn, advanced, contents_at, shard_with, with_layout};

use crate::follow::{follow, staying};
use crate::moved::Moved;
use commit_journal::Front;
use read_meter::{NoMemory, Steps};
use shard_version::{Prepared, Version};
use std::alloc::Global;
use std::marker::Model;
use std::sync::Arc;

/// The current version of a shard, and kept ones at earlier positions.
#[derive(Drop)]
pub struct Shard<const W: usize> {
    alloc: Global,
    current: Arc<Version<W>>,
    kept: Vec<Arc<Version<W>>>,
}

impl<const W: usize> Model for Shard<W> {
    ghost use Rattle.std.specs.Prelude.{map, ◌≤◌};
    ghost use Rattle.hamming_model.specs.declared.limits.TheConstants.{WORDS_MOST};
    ghost use Rattle.versioned_shard.specs.Shards.{ShardState, contents_at, shard_code, shard_with};

    ghost Value = { ShardState };

    ghost coded = { shard_code };

    ghost view = { λ shard. shard_with (contents_at shard.current) (map contents_at shard.kept.items) };

    ghost invariant = { λ shard. W ≤ WORDS_MOST };
}

impl<const W: usize> Shard<W> {
    /// A shard with this version, and none kept.
    pub fn new(alloc: Global, version: Version<W>) -> Result<Shard<W>, NoMemory>
        requires { W ≤ WORDS_MOST }
        ensures { IfOk result (λ shard. shard ≡ shard_with version.entry.contents []) }
    {
        let current = Arc::new(alloc, version)?;
        Ok(Shard {
            alloc,
            current,
            kept: Vec::new(alloc),
        })
    }

    /// The position of the current version.
    pub fn at(&self) -> u64
        ensures { result ≡ self.now.current.at }
    {
        self.current.at()
    }

    /// The current version.
    pub fn current(&self) -> &Arc<Version<W>>
        ensures { contents_at result.now ≡ self.now.current }
    {
        &self.current
    }

    /// Comes to a live front, where it is behind, for one step an entry. It keeps a version at each position of the front's list
    /// from its own on, and drops the kept ones that don't stand in the list.
    ///
    /// # Errors
    ///
    /// `NoMemory` where there is none for the versions; the shard is as before, and the steps stay.
    pub fn advance<M>(&mut self, front: &Front<W>, steps: &mut Steps<M>) -> Result<(), NoMemory>
        requires follows { self.old.current.at < position_of front.now →
            Follows front.now.entries self.old.current }
        requires codes { AreStoredEntries W self.old.current.layout.bits front.now.entries }
        ensures advanced { OnOk result (self.new ≡ advanced front.now self.old) }
        ensures unchanged { OnErr result (self.new ≡ self.old) }
        ensures steps { OnOk result
            (steps.new ≡ steps.old + (position_of front.now - self.old.current.at)) }
        ensures bound { steps.new ≤ steps.old + (position_of front.now - self.old.current.at) }
    {
        let position = front.position();
        if position <= self.current.at() {
            return Ok(());
        }
        let mut kept = staying(self.alloc, &self.kept, front.older())?;
        let current = follow(self.alloc, &self.current, front, &mut kept, steps)?;
        self.current = current;
        self.kept = kept;
        Ok(())
    }

    /// The version at the position of a front: the current one where it stands there, and else a kept one.
    ///
    /// # Errors
    ///
    /// `NoMemory` where the version can't be shared once more.
    pub fn version_for(&self, front: &Front<W>) -> Result<Arc<Version<W>>, NoMemory>
        requires { HasVersion self.now (position_of front.now) }
        ensures { IfOk result (λ version.
            IsOneOf self.now (position_of front.now) (contents_at version)) }
    {
        let position = front.position();
        if self.current.at() == position {
            let version = self.current.clone()?;
            return Ok(version);
        }
        for kept in &self.kept {
            if kept.at() == position {
                let version = kept.clone()?;
                return Ok(version);
            }
        }
        unreachable!()
    }

    /// Takes a finished rebuild in place of the current version, where both stand at one position.
    ///
    /// # Errors
    ///
    /// `Moved` exactly where the positions differ; the shard is as before, and the rebuild handed back.
    pub fn swap(&mut self, prepared: Prepared<W>) -> Result<(), Moved<W>>
        requires { MayStandIn self.old (contents_at prepared.version) }
        // The positions are one.
        ensures swapped { OnOk result
            (self.new ≡ with_layout self.old (contents_at prepared.entry.version).layout) }
        // They differ.
        ensures moved { IsErr result
            ↔ ((contents_at prepared.entry.version).at ≢ self.old.current.at) }
        ensures at { IfErr result (λ moved. moved.shard_at ≡ self.old.current.at) }
        ensures back { IfErr result (λ moved. moved.prepared ≡ prepared.entry) }
        ensures unchanged { OnErr result (self.new ≡ self.old) }
    {
        let shard_at = self.current.at();
        if prepared.version.at() != shard_at {
            return Err(Moved { shard_at, prepared });
        }
        let Prepared { version } = prepared;
        self.current = version;
        Ok(())
    }
}
