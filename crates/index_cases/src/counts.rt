ghost use Rattle.std.specs.Prelude.{◌≡◌, ◌^◌, ◌<◌, ◌≤◌};
ghost use Rattle.count_table.specs.Copies.{with_one};

use crate::plain::{after, differences};
use count_table::{Counts, changes_follow_a_list};
use hamming_model::ENTRIES_MOST;
use read_meter::NoMemory;
use std::alloc::Global;
use std::marker::Model;
use std::process::Abort;
use std::test::Fail;

// Adds a copy, where there is room.
fn add<R: Abort>(rt: &R, counts: &mut Counts, value: u16)
    requires in_width { value < 2 ^ counts.old.width }
    ensures { counts.new ≡ with_one counts.old value }
{
    assert!(rt; u64::from(counts.total()) < ENTRIES_MOST);
    counts.add(value).expect(rt, "memory for a copy");
}

// A table, and the list of the values that it has copies of.
#[derive(Drop)]
struct Listed {
    width: u32,
    counts: Counts,
    items: Vec<u16>,
}

impl Model for Listed {
    ghost use Rattle.std.specs.Prelude.{ℕ, List};
    ghost use Rattle.index_cases.specs.Listing.{IsTableOf};

    ghost Value = { List ℕ };

    ghost view = { λ listed. listed.items.items };

    ghost invariant = { λ listed. IsTableOf listed.width listed.counts listed.items.items };
}

impl Listed {
    fn new(alloc: Global, width: u32) -> Result<Listed, NoMemory>
        requires some_width { 0 < width }
        requires small_width { width ≤ 12 }
    {
        changes_follow_a_list();
        let counts = Counts::new(alloc, width)?;
        Ok(Listed {
            width,
            counts,
            items: Vec::new(alloc),
        })
    }

    // Adds a copy of a value that the seed gives.
    fn add<R: Abort>(&mut self, rt: &R, seed: u64) {
        changes_follow_a_list();
        let value = (seed >> 48) as u16 % (1 << self.width);
        add(rt, &mut self.counts, value);
        self.items.push(value).expect(rt, "memory for an item");
    }

    // Removes a copy of the value that was added last among those that stand.
    fn remove<R: Abort>(&mut self, rt: &R) {
        changes_follow_a_list();
        if let Some(value) = self.items.pop() {
            assert!(rt; value < 1 << self.width);
            self.counts.remove(value).expect(rt, "memory to remove");
        }
    }

    // How many items are nearer to a value than so many units: each item is looked at.
    fn plain_count(&self, value: u16, units: usize) -> usize {
        self.items
            .iter()
            .filter(|item| differences(**item, value) < units)
            .count()
    }

    // Compares each count round a value with that of the list.
    fn compare<R: Abort>(&self, rt: &R, pattern: u16) {
        let width = self.width;
        let value = pattern % (1 << width);
        let mut levels = [0; 16];
        self.counts.levels(value, &mut levels);
        for units in 0..16usize {
            let radius = units as i32 - 1;
            let want = self.plain_count(value, units);
            let within = self.counts.within(value, radius) as usize;
            let is_counted = within == want && levels[units] as usize == want;
            assert!(rt; is_counted, "{value} {width} {radius}");
        }
        assert!(rt; self.counts.total() as usize == self.items.len(), "{width}");
    }
}

#[test]
fn a_removed_copy_counts_no_more(rt: HostRuntime) -> Result<(), Fail> {
    let mut counts = Counts::new(rt.alloc(), 2)?;
    add(&rt, &mut counts, 0);
    add(&rt, &mut counts, 3);
    add(&rt, &mut counts, 3);
    counts.remove(3)?;
    let mut levels = [9; 5];
    counts.levels(0, &mut levels);
    // the counts at the radii -1 to 3
    assert!(rt; levels == [0, 1, 1, 2, 2]);
    for units in 0..5usize {
        let within = counts.within(0, units as i32 - 1);
        assert!(rt; within == levels[units], "{units} units");
    }
    assert!(rt; counts.total() == 2);
    Ok(())
}

#[test]
fn counts_follow_any_list_of_changes(rt: HostRuntime) -> Result<(), Fail> {
    let mut seed = 1;
    for width in 1..13u32 {
        let mut listed = Listed::new(rt.alloc(), width)?;
        listed.compare(&rt, 0);
        for round in 0..60u32 {
            seed = after(seed);
            if round % 4 == 3 {
                listed.remove(&rt);
            } else {
                listed.add(&rt, seed);
            }
            listed.compare(&rt, (seed >> 50) as u16);
        }
    }
    Ok(())
}

#[test]
fn a_copy_is_a_table_of_its_own(rt: HostRuntime) -> Result<(), Fail> {
    let mut counts = Counts::new(rt.alloc(), 3)?;
    add(&rt, &mut counts, 5);
    let mut copy = counts.copy()?;
    assert!(rt; copy.within(5, 3) == 1);
    add(&rt, &mut copy, 4);
    counts.remove(5)?;
    assert!(rt; copy.within(5, 3) == 2 && counts.within(5, 3) == 0);
    Ok(())
}
