//! Builds beside queries.

use crate::worlds::{
    Reads, Upkeep, add, layout_of, open_near, open_range, refuses, small_world, tells,
};
use entry_log::Decision;
use hamming_model::Hit;
use hit_source::Polled;
use read_meter::{Meters, Steps, upkeep};
use std::test::Fail;
use world_model::{Refused, Told};

#[test]
fn a_build_is_overtaken_and_waits_for_its_shard(rt: HostRuntime) -> Result<(), Fail> {
    let mut steps: Steps<Upkeep> = upkeep(&rt);
    let mut meters: Meters<Reads> = Meters::new(&rt, rt.alloc())?;
    let mut world = small_world(&rt, rt.alloc(), 1, 9);
    add(&rt, &mut world, 1, b"00", Decision::Added, 1);
    open_range(&rt, &mut world, 8, b"00", 0, 1);
    tells(
        &rt,
        world.advance(0, 0, &mut steps),
        Told::Advanced { at: 1 },
    );
    let layout = layout_of(&rt, rt.alloc(), b"0,2,4,6/1,3,5,7");
    tells(
        &rt,
        world.build_start(0, layout, &mut steps),
        Told::Built { left: 1 },
    );
    refuses(&rt, world.swap(0), Refused::Unready { left: 1 });
    add(&rt, &mut world, 2, b"0f", Decision::Added, 2);
    open_range(&rt, &mut world, 8, b"00", 1, 2);
    tells(
        &rt,
        world.build_step(0, 9, &mut steps),
        Told::Built { left: 0 },
    );
    tells(&rt, world.follow(0, &mut steps), Told::Followed { at: 2 });
    refuses(&rt, world.swap(0), Refused::Moved { shard_at: 1 });
    tells(&rt, world.pin(1, 0, &mut steps), Told::Pinned { left: 0 });
    tells(&rt, world.swap(0), Told::Swapped { at: 2 });
    tells(&rt, world.pin(0, 0, &mut steps), Told::Pinned { left: 0 });
    tells(
        &rt,
        world.poll(0, 0, 65536, &mut meters),
        Told::Polled(Polled::Ended),
    );
    tells(&rt, world.give(0), Told::Gave(Hit { dist: 0, key: 1 }));
    tells(&rt, world.give(0), Told::Ended { count: 1 });
    refuses(&rt, world.swap(0), Refused::NoBuild);
    Ok(())
}

#[test]
fn a_build_waits_for_its_shard(rt: HostRuntime) -> Result<(), Fail> {
    let mut steps: Steps<Upkeep> = upkeep(&rt);
    let mut meters: Meters<Reads> = Meters::new(&rt, rt.alloc())?;
    let mut world = small_world(&rt, rt.alloc(), 1, 2);
    add(&rt, &mut world, 1, b"00", Decision::Added, 1);
    open_range(&rt, &mut world, 8, b"00", 0, 1);
    tells(
        &rt,
        world.advance(0, 0, &mut steps),
        Told::Advanced { at: 1 },
    );
    let layout = layout_of(&rt, rt.alloc(), b"0,2,4,6/1,3,5,7");
    tells(
        &rt,
        world.build_start(0, layout, &mut steps),
        Told::Built { left: 1 },
    );
    refuses(&rt, world.swap(0), Refused::Unready { left: 1 });
    add(&rt, &mut world, 2, b"0f", Decision::Added, 2);
    add(&rt, &mut world, 3, b"0f", Decision::Full, 2);
    open_near(&rt, &mut world, 1, b"00", 1, 2);
    tells(
        &rt,
        world.build_step(0, 9, &mut steps),
        Told::Built { left: 0 },
    );
    tells(&rt, world.follow(0, &mut steps), Told::Followed { at: 2 });
    refuses(&rt, world.swap(0), Refused::Moved { shard_at: 1 });
    tells(
        &rt,
        world.advance(1, 0, &mut steps),
        Told::Advanced { at: 2 },
    );
    tells(&rt, world.swap(0), Told::Swapped { at: 2 });
    refuses(&rt, world.poll(1, 0, 9, &mut meters), Refused::NotPinned);
    refuses(&rt, world.give(0), Refused::NotPinned);
    tells(&rt, world.cancel(0), Told::Cancelled { count: 0 });
    refuses(&rt, world.advance(0, 0, &mut steps), Refused::Closed);
    refuses(&rt, world.give(2), Refused::NoQuery);
    Ok(())
}

#[test]
fn a_shard_has_one_build_at_a_time(rt: HostRuntime) -> Result<(), Fail> {
    let mut steps: Steps<Upkeep> = upkeep(&rt);
    let mut world = small_world(&rt, rt.alloc(), 2, 9);
    let first = layout_of(&rt, rt.alloc(), b"0,2,4,6/1,3,5,7");
    let second = layout_of(&rt, rt.alloc(), b"0,1/2,3/4,5/6,7");
    let third = layout_of(&rt, rt.alloc(), b"0,1/2,3/4,5/6,7");
    refuses(&rt, world.build_step(2, 1, &mut steps), Refused::NoShard);
    refuses(&rt, world.build_step(1, 1, &mut steps), Refused::NoBuild);
    tells(
        &rt,
        world.build_start(1, first, &mut steps),
        Told::Built { left: 0 },
    );
    refuses(
        &rt,
        world.build_start(1, second, &mut steps),
        Refused::Building,
    );
    tells(&rt, world.swap(1), Told::Swapped { at: 0 });
    tells(
        &rt,
        world.build_start(1, third, &mut steps),
        Told::Built { left: 0 },
    );
    refuses(&rt, world.follow(0, &mut steps), Refused::NoBuild);
    Ok(())
}
