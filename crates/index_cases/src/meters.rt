ghost use Rattle.std.specs.Prelude.{◌≡◌, ◌+◌, ◌<◌, slice_index, slice_set};

use read_meter::{Meters, Steps, upkeep};
use std::test::Fail;

// The ledger that these tests count on.
#[derive(Drop)]
struct Reads;

// Ticks twice.
fn tick_twice(steps: &mut Steps<Reads>)
    ensures { steps.new ≡ steps.old + 2 }
{
    steps.tick();
    steps.tick();
}

// Ticks one ledger of the sixteen.
fn tick_at(meters: &mut Meters<Reads>, shard: usize)
    requires { shard < 16 }
    ensures { meters.new ≡ slice_set meters.old shard (slice_index meters.old shard + 1) }
{
    meters.as_mut()[shard].tick();
}

#[test]
fn sixteen_ledgers_and_that_of_upkeep_tick(rt: HostRuntime) -> Result<(), Fail> {
    let mut meters: Meters<Reads> = Meters::new(&rt, rt.alloc())?;
    assert!(rt; meters.as_mut().len() == 16);
    for shard in 0..16usize {
        tick_at(&mut meters, shard);
        tick_twice(&mut meters.as_mut()[shard]);
    }
    let mut spent: Steps<Reads> = upkeep(&rt);
    tick_twice(&mut spent);
    Ok(())
}
