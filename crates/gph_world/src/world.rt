//! The world.

use commit_journal::Journal;
use std::alloc::Global;
use std::marker::Model;
use world_parts::{Held, Place};

/// A history, the shards' versions of it with their builds, and the queries on its prefixes. Seen as what no call changes, and as the
/// state of the definitions.
#[derive(Drop)]
pub struct World<const W: usize> {
    pub(crate) alloc: Global,
    pub(crate) bits: u32,
    pub(crate) room: usize,
    pub(crate) journal: Journal<W>,
    pub(crate) places: Vec<Place<W>>,
    pub(crate) queries: Vec<Held<W>>,
}

impl<const W: usize> Model for World<W> {
    ghost use Rattle.gph_world.specs.Worlds.{WorldView, world_code};
    ghost use Rattle.gph_world.specs.Kept.{KeepsWorld};
    ghost use Rattle.gph_world.specs.Seen.{world_seen};

    ghost Value = { WorldView };

    ghost coded = { world_code };

    ghost view = { λ w. world_seen w.bits w.room w.journal w.places.items w.queries.items };

    ghost invariant = { λ w. KeepsWorld w.bits w.room w.journal w.places.items w.queries.items };
}
