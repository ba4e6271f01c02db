//! The layouts that the queries of a session pinned.

ghost use Rattle.std.specs.Prelude.{◌≡◌, ◌<◌, ◌≤◌, ◌++◌, [], length, map, take, OnErr, OnOk};
ghost use Rattle.std.specs.Arc.{arc_value};
ghost use Rattle.std.specs.Str.{bytes_eq};
ghost use Rattle.hamming_model.specs.declared.limits.TheConstants.{SHARDS_MOST};
ghost use Rattle.part_layout.specs.Laid.{part_at};
ghost use Rattle.query_opening.specs.Pinning.{contents_of_all};
ghost use Rattle.session_model.specs.Told.{is_same_layout};
ghost use Rattle.open_session.specs.Pinned.{PinsMore, has_told, layouts_in, pinned_in, told_layout, told_next};

use part_layout::Layout;
use read_meter::NoMemory;
use shard_version::Version;
use std::alloc::Global;
use std::sync::Arc;

/// From the query of this number on, counted from 0 in the order of opening and at most to the greatest u64, queries pinned this
/// layout on this shard.
#[derive(Drop)]
pub struct LayoutFrom {
    pub query: u64,
    pub shard: u32,
    pub layout: Arc<Layout>,
}

/// How many queries were opened, at most the greatest u64, and the layouts that they pinned: one for each shard of the first, and
/// then each where a query pinned another than the one before.
#[derive(Drop)]
pub struct PinnedLayouts {
    pub opened: u64,
    pub told: Vec<LayoutFrom>,
}

impl PinnedLayouts {
    /// Those of no query.
    pub(crate) fn new(alloc: Global) -> PinnedLayouts
        ensures opened { result.opened ≡ 0 }
        ensures told { result.told.items ≡ [] }
    {
        PinnedLayouts {
            opened: 0,
            told: Vec::new(alloc),
        }
    }

    /// Those with the layouts that one query more pinned, by the versions of its shards. Takes memory only for those that differ.
    pub fn add<const W: usize>(&mut self, versions: &[Arc<Version<W>>]) -> Result<(), NoMemory>
        requires few { length versions.now ≤ SHARDS_MOST }
        ensures added { OnOk result (PinsMore (pinned_in self.old) (pinned_in self.new)
            (layouts_in (contents_of_all versions.now))) }
        ensures none { OnErr result (pinned_in self.new ≡ pinned_in self.old) }
    {
        let known = self.told.len();
        for shard in 0..versions.len() {
            let added = self.add_one(known, shard as u32, versions[shard].layout());
            if let Err(NoMemory) = added {
                self.told.truncate(known);
                return Err(NoMemory);
            }
        }
        self.opened = self.opened.saturating_add(1);
        Ok(())
    }

    // Adds the layout that a query pinned on a shard, unless it is the last of the shard among so many.
    fn add_one(&mut self, known: usize, shard: u32, layout: &Arc<Layout>) -> Result<(), NoMemory>
        requires known { known ≤ length self.old.told.items }
        ensures added { OnOk result (map told_layout self.new.told.items ≡ map told_layout
            self.old.told.items ++ told_next (map told_layout (take known self.old.told.items))
            self.old.opened shard (arc_value layout.now).parts) }
        ensures front { take known self.new.told.items ≡ take known self.old.told.items }
        ensures longer { length self.old.told.items ≤ length self.new.told.items }
        ensures opened { self.new.opened ≡ self.old.opened }
    {
        if is_told(&self.told[..known], shard, layout) {
            return Ok(());
        }
        let layout = layout.clone()?;
        self.told.push(LayoutFrom {
            query: self.opened,
            shard,
            layout,
        })?;
        Ok(())
    }
}

// Whether the last layout that is told of a shard is this one.
fn is_told(told: &[LayoutFrom], shard: u32, layout: &Layout) -> bool
    ensures { result ≡ has_told (map told_layout told.now) shard layout.now.parts }
{
    let mut left = told.len();
    while left > 0 {
        left -= 1;
        if told[left].shard == shard {
            return is_same(&told[left].layout, layout);
        }
    }
    false
}

// Whether two layouts are the same: as many parts, each with the same positions in the same order.
fn is_same(one: &Layout, other: &Layout) -> bool
    ensures { result ≡ is_same_layout one.now.parts other.now.parts }
{
    let parts = one.parts();
    if parts != other.parts() {
        return false;
    }
    for part in 0..parts {
        if !is_same_part(one, other, part) {
            return false;
        }
    }
    true
}

// Whether a part has the same positions in two layouts, in the same order.
fn is_same_part(one: &Layout, other: &Layout, part: u32) -> bool
    requires one { part < length one.now.parts }
    requires other { part < length other.now.parts }
    ensures { result ≡ bytes_eq (part_at one.now part) (part_at other.now part) }
{
    let width = one.width(part);
    if width != other.width(part) {
        return false;
    }
    for place in 0..width {
        if one.position(part, place) != other.position(part, place) {
            return false;
        }
    }
    true
}
