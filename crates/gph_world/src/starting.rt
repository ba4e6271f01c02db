//! The beginning of a world.

ghost use Rattle.std.specs.Prelude.{◌≡◌, ◌*◌, ◌≤◌, IfOk};
ghost use Rattle.std.specs.Arc.{arc_value};
ghost use Rattle.hamming_model.specs.declared.limits.TheConstants.{ENTRIES_MOST, ROOM_MOST, SHARDS_MOST, WORDS_MOST};
ghost use Rattle.world_model.specs.Events.{IsLayoutFor};
ghost use Rattle.gph_world.specs.Worlds.{start_of};

use crate::world::World;
use commit_journal::Journal;
use part_layout::Layout;
use read_meter::NoMemory;
use std::alloc::Global;
use std::sync::Arc;
use world_parts::first_places;

impl<const W: usize> World<W> {
    /// A world to which nothing happened: codes of so many bits, so many shards in one layout, 1 to 256 hits that may wait at a source,
    /// and as many entries as the limit.
    ///
    /// # Errors
    ///
    /// `NoMemory` where there is none for the journal or the shards.
    pub fn new(
        alloc: Global,
        bits: u32,
        shards: u32,
        layout: Arc<Layout>,
        room: usize,
        limit: u64,
    ) -> Result<World<W>, NoMemory>
        requires few_words { W ≤ WORDS_MOST }
        requires words { bits ≤ 64 * W }
        requires layout { IsLayoutFor bits (arc_value layout) }
        requires some_shards { 1 ≤ shards }
        requires few_shards { shards ≤ SHARDS_MOST }
        requires some_room { 1 ≤ room }
        requires small_room { room ≤ ROOM_MOST }
        requires limited { limit ≤ ENTRIES_MOST }
        ensures { IfOk result (λ world.
            world ≡ start_of bits shards room limit (arc_value layout)) }
    {
        let journal = Journal::new(alloc, limit)?;
        let places = first_places(alloc, shards, &layout)?;
        Ok(World {
            alloc,
            bits,
            room,
            journal,
            places,
            queries: Vec::new(alloc),
        })
    }
}
