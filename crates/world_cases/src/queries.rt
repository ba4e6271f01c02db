//! Queries on the prefixes of a history.

use crate::worlds::{Reads, Upkeep, add, open_near, open_range, refuses, small_world, tells};
use entry_log::Decision;
use gph_world::World;
use hamming_model::Hit;
use hit_source::Polled;
use read_meter::{Meters, Steps, upkeep};
use std::test::Fail;
use world_model::{Refused, Told};

#[test]
fn each_query_answers_the_rows_at_its_opening(rt: HostRuntime) -> Result<(), Fail> {
    let mut steps: Steps<Upkeep> = upkeep(&rt);
    let mut meters: Meters<Reads> = Meters::new(&rt, rt.alloc())?;
    let mut world = small_world(&rt, rt.alloc(), 1, 9);
    add(&rt, &mut world, 1, b"00", Decision::Added, 1);
    add(&rt, &mut world, 2, b"0f", Decision::Added, 2);
    open_range(&rt, &mut world, 8, b"00", 0, 2);
    add(&rt, &mut world, 3, b"ff", Decision::Added, 3);
    add(&rt, &mut world, 4, b"01", Decision::Added, 4);
    open_range(&rt, &mut world, 8, b"00", 1, 4);
    refuses(&rt, world.give(0), Refused::NotPinned);
    tells(&rt, world.pin(1, 0, &mut steps), Told::Pinned { left: 0 });
    tells(&rt, world.pin(0, 0, &mut steps), Told::Pinned { left: 0 });
    refuses(&rt, world.advance(0, 0, &mut steps), Refused::Unfronted);
    tells(&rt, world.give(0), Told::NotYet);
    tells(
        &rt,
        world.poll(0, 0, 65536, &mut meters),
        Told::Polled(Polled::Ended),
    );
    tells(&rt, world.give(0), Told::Gave(Hit { dist: 0, key: 1 }));
    tells(&rt, world.give(0), Told::Gave(Hit { dist: 4, key: 2 }));
    tells(&rt, world.give(0), Told::Ended { count: 2 });
    tells(
        &rt,
        world.poll(1, 0, 65536, &mut meters),
        Told::Polled(Polled::Ended),
    );
    tells(&rt, world.give(1), Told::Gave(Hit { dist: 0, key: 1 }));
    tells(&rt, world.give(1), Told::Gave(Hit { dist: 1, key: 4 }));
    tells(&rt, world.cancel(1), Told::Cancelled { count: 2 });
    refuses(&rt, world.give(1), Refused::Closed);
    refuses(&rt, world.give(2), Refused::NoQuery);
    refuses(&rt, world.swap(0), Refused::NoBuild);
    Ok(())
}

#[test]
fn two_shards_give_the_nearest_by_distance_and_key(rt: HostRuntime) -> Result<(), Fail> {
    let mut steps: Steps<Upkeep> = upkeep(&rt);
    let mut meters: Meters<Reads> = Meters::new(&rt, rt.alloc())?;
    let mut world = small_world(&rt, rt.alloc(), 2, 3);
    add(&rt, &mut world, 1, b"01", Decision::Added, 1);
    add(&rt, &mut world, 2, b"80", Decision::Added, 2);
    add(&rt, &mut world, 4, b"ff", Decision::Added, 3);
    add(&rt, &mut world, 5, b"00", Decision::Full, 3);
    open_near(&rt, &mut world, 2, b"00", 0, 3);
    tells(&rt, world.pin(0, 1, &mut steps), Told::Pinned { left: 1 });
    tells(&rt, world.pin(0, 1, &mut steps), Told::Pinned { left: 1 });
    refuses(&rt, world.poll(0, 0, 9, &mut meters), Refused::NotPinned);
    tells(
        &rt,
        world.advance(0, 0, &mut steps),
        Told::Advanced { at: 3 },
    );
    tells(&rt, world.pin(0, 0, &mut steps), Told::Pinned { left: 0 });
    tells(&rt, world.pin(0, 0, &mut steps), Told::Pinned { left: 0 });
    poll_both(&mut world, &mut meters);
    tells(&rt, world.give(0), Told::Gave(Hit { dist: 1, key: 1 }));
    poll_both(&mut world, &mut meters);
    tells(&rt, world.give(0), Told::Gave(Hit { dist: 1, key: 2 }));
    tells(&rt, world.give(0), Told::Ended { count: 2 });
    refuses(&rt, world.pin(0, 2, &mut steps), Refused::NoShard);
    refuses(&rt, world.pin(1, 0, &mut steps), Refused::NoQuery);
    Ok(())
}

// Polls the first query on each of two shards, for 9 units at a time, until no source of so few rows has any more to do.
fn poll_both(world: &mut World<1>, meters: &mut Meters<Reads>) {
    for _round in 0..200 {
        let _first = world.poll(0, 0, 9, meters);
        let _second = world.poll(0, 1, 9, meters);
    }
}
