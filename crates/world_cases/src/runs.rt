//! A whole list of events, taken by one call.

ghost use Rattle.std.specs.Prelude.{◌≡◌};
ghost use Rattle.std.specs.List.{AllByRecursion};
ghost use Rattle.gph_world.specs.Happenings.{IsEventFor};

use crate::worlds::{Reads, Upkeep, small_world, spelled};
use commit_journal::Decided;
use entry_log::{Decision, Op};
use gph_world::{Ask, Event, World};
use hamming_model::Hit;
use hit_source::Polled;
use read_meter::{Meters, Steps, upkeep};
use std::process::Abort;
use std::test::Fail;
use world_model::{Refused, Told};

// Events that a world is to take, and what each has to be answered.
#[derive(Drop)]
struct Script {
    events: Vec<Event<1>>,
    wants: Vec<Result<Told, Refused>>,
}

#[test]
fn a_list_answers_each_query_on_its_own_prefix(rt: HostRuntime) -> Result<(), Fail> {
    let mut steps: Steps<Upkeep> = upkeep(&rt);
    let mut meters: Meters<Reads> = Meters::new(&rt, rt.alloc())?;
    let mut world = small_world(&rt, rt.alloc(), 1, 9);
    let mut script = Script {
        events: Vec::new(rt.alloc()),
        wants: Vec::new(rt.alloc()),
    };
    add(&rt, &world, &mut script, 1, b"00");
    add(&rt, &world, &mut script, 2, b"0f");
    open(&rt, &world, &mut script, 0, 2);
    add(&rt, &world, &mut script, 3, b"ff");
    add(&rt, &world, &mut script, 4, b"01");
    open(&rt, &world, &mut script, 1, 4);
    give(&rt, &world, &mut script, 0, Err(Refused::NotPinned));
    pin(&rt, &world, &mut script, 1);
    pin(&rt, &world, &mut script, 0);
    let advance = Event::Advance { query: 0, shard: 0 };
    then(&rt, &world, &mut script, advance, Err(Refused::Unfronted));
    give(&rt, &world, &mut script, 0, Ok(Told::NotYet));
    poll(&rt, &world, &mut script, 0);
    give(
        &rt,
        &world,
        &mut script,
        0,
        Ok(Told::Gave(Hit { dist: 0, key: 1 })),
    );
    give(
        &rt,
        &world,
        &mut script,
        0,
        Ok(Told::Gave(Hit { dist: 4, key: 2 })),
    );
    give(&rt, &world, &mut script, 0, Ok(Told::Ended { count: 2 }));
    poll(&rt, &world, &mut script, 1);
    give(
        &rt,
        &world,
        &mut script,
        1,
        Ok(Told::Gave(Hit { dist: 0, key: 1 })),
    );
    give(
        &rt,
        &world,
        &mut script,
        1,
        Ok(Told::Gave(Hit { dist: 1, key: 4 })),
    );
    let cancel = Event::Cancel { query: 1 };
    then(
        &rt,
        &world,
        &mut script,
        cancel,
        Ok(Told::Cancelled { count: 2 }),
    );
    give(&rt, &world, &mut script, 1, Err(Refused::Closed));
    give(&rt, &world, &mut script, 2, Err(Refused::NoQuery));
    let swap = Event::Swap { shard: 0 };
    then(&rt, &world, &mut script, swap, Err(Refused::NoBuild));
    let Script { events, wants } = script;
    let answers = world
        .run(events, &mut steps, &mut meters)
        .expect(&rt, "memory for the answers");
    assert!(&rt; answers == wants, "other answers");
    Ok(())
}

// Puts an event at the end of a script, with what it has to be answered.
fn then<R: Abort>(
    rt: &R,
    world: &World<1>,
    script: &mut Script,
    event: Event<1>,
    want: Result<Told, Refused>,
)
    requires event { IsEventFor world.now.setting event }
    requires before { AllByRecursion (IsEventFor world.now.setting) script.old.events.items }
    ensures { AllByRecursion (IsEventFor world.now.setting) script.new.events.items }
{
    let Ok(()) = script.events.push(event) else {
        panic!(rt; "no memory for an event");
    };
    let Ok(()) = script.wants.push(want) else {
        panic!(rt; "no memory for an answer");
    };
}

// A session adds a row of a key, which is the number of its entry.
fn add<R: Abort>(rt: &R, world: &World<1>, script: &mut Script, key: u64, text: &[u8])
    requires bits { world.now.setting.bits ≡ 8 }
    requires before { AllByRecursion (IsEventFor world.now.setting) script.old.events.items }
    ensures { AllByRecursion (IsEventFor world.now.setting) script.new.events.items }
{
    let code = spelled(rt, text);
    let op = Op::Add { key, code };
    let decided = Decided {
        decision: Decision::Added,
        position: key,
    };
    then(
        rt,
        world,
        script,
        Event::Commit { who: 1, op },
        Ok(Told::Decided(decided)),
    );
}

// A session opens a query of a number on all rows so far: those within 8 of the code 00.
fn open<R: Abort>(rt: &R, world: &World<1>, script: &mut Script, query: u32, position: u64)
    requires bits { world.now.setting.bits ≡ 8 }
    requires before { AllByRecursion (IsEventFor world.now.setting) script.old.events.items }
    ensures { AllByRecursion (IsEventFor world.now.setting) script.new.events.items }
{
    let code = spelled(rt, b"00");
    let ask = Ask::Range { tau: 8, code };
    then(
        rt,
        world,
        script,
        Event::Open { who: 2, ask },
        Ok(Told::Opened { query, position }),
    );
}

// A query pins the version of the only shard.
fn pin<R: Abort>(rt: &R, world: &World<1>, script: &mut Script, query: u32)
    requires { AllByRecursion (IsEventFor world.now.setting) script.old.events.items }
    ensures { AllByRecursion (IsEventFor world.now.setting) script.new.events.items }
{
    then(
        rt,
        world,
        script,
        Event::Pin { query, shard: 0 },
        Ok(Told::Pinned { left: 0 }),
    );
}

// The source of a query works until it has ended.
fn poll<R: Abort>(rt: &R, world: &World<1>, script: &mut Script, query: u32)
    requires { AllByRecursion (IsEventFor world.now.setting) script.old.events.items }
    ensures { AllByRecursion (IsEventFor world.now.setting) script.new.events.items }
{
    let event = Event::Poll {
        query,
        shard: 0,
        budget: 65536,
    };
    then(rt, world, script, event, Ok(Told::Polled(Polled::Ended)));
}

// A query is asked for its next hit.
fn give<R: Abort>(
    rt: &R,
    world: &World<1>,
    script: &mut Script,
    query: u32,
    want: Result<Told, Refused>,
)
    requires { AllByRecursion (IsEventFor world.now.setting) script.old.events.items }
    ensures { AllByRecursion (IsEventFor world.now.setting) script.new.events.items }
{
    then(rt, world, script, Event::Give { query }, want);
}
