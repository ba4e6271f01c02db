//! One event after another.

ghost use Rattle.std.specs.Prelude.{◌≡◌, ◌+◌, ◌≤◌, IfOk, OnErr};
ghost use Rattle.std.specs.List.{AllByRecursion};
ghost use Rattle.world_model.specs.Answers.{AnswersAll};
ghost use Rattle.world_model.specs.Sound.{IsSound};
ghost use Rattle.world_model.specs.WorldStep.{WorldStep};
ghost use Rattle.gph_world.specs.Happenings.{IsEventFor, event_seen, events_seen};
ghost use Rattle.gph_world.specs.Rising.{RiseByReads};
ghost use Rattle.gph_world.specs.Upkeep.{RisesByEach, upkeep_most};

use crate::event::Event;
use crate::world::World;
use read_meter::{Meters, NoMemory, Steps};
use world_model::{
    Refused, Told, each_event_keeps_the_rules, every_list_of_events_answers_the_scan,
    reads_are_bounded,
};

impl<const W: usize> World<W> {
    /// Takes one event: it happens, or is refused for its cause. The ledgers of the shards rise by what the sources there read.
    ///
    /// # Errors
    ///
    /// The first cause that holds of those that `Refused` lists. Else `NoMemory` where there is none for the event; then nothing
    /// changed, but that a shard may have been brought to the front of the query that was to pin it.
    pub fn step<L, M>(
        &mut self,
        event: Event<W>,
        upkeep: &mut Steps<M>,
        meters: &mut Meters<L>,
    ) -> Result<Told, Refused>
        requires event { IsEventFor self.old.setting event }
        // What happens.
        ensures step { WorldStep self.old.setting self.old.state
            (event_seen self.old.setting.bits event.entry) result self.new.state }
        ensures ledgers { RiseByReads self.old.state self.new.state meters.old meters.new }
        ensures bound { upkeep.new ≤ upkeep.old
            + upkeep_most self.old.state (event_seen self.old.setting.bits event.entry) }
        // What stays.
        ensures setting { self.new.setting ≡ self.old.setting }
        ensures sound { IsSound self.new.setting self.new.state }
    {
        each_event_keeps_the_rules();
        reads_are_bounded();
        self.is_sound();
        match event {
            Event::Commit { who, op } => self.commit(who, op),
            Event::Open { who, ask } => self.open(who, ask),
            Event::Advance { query, shard } => self.advance(query, shard, upkeep),
            Event::Pin { query, shard } => self.pin(query, shard, upkeep),
            Event::Poll {
                query,
                shard,
                budget,
            } => self.poll(query, shard, budget, meters),
            Event::Give { query } => self.give(query),
            Event::Cancel { query } => self.cancel(query),
            Event::BuildStart { shard, layout } => self.build_start(shard, layout, upkeep),
            Event::BuildStep { shard, rows } => self.build_step(shard, rows, upkeep),
            Event::Follow { shard } => self.follow(shard, upkeep),
            Event::Swap { shard } => self.swap(shard),
        }
    }

    /// Takes events one after another, and answers each. Whatever events these are, each query that ends has answered exactly the scan
    /// of its own prefix, and each shard has read no more than the bound.
    ///
    /// # Errors
    ///
    /// `NoMemory` where there is none for the list of answers; then no event was taken.
    pub fn run<L, M>(
        &mut self,
        events: Vec<Event<W>>,
        upkeep: &mut Steps<M>,
        meters: &mut Meters<L>,
    ) -> Result<Vec<Result<Told, Refused>>, NoMemory>
        requires events { AllByRecursion (IsEventFor self.old.setting) events.items }
        // What happens.
        ensures answers { IfOk result (λ answers. AnswersAll self.old.setting self.old.state
            (events_seen self.old.setting.bits events.entry.items) answers.items self.new.state) }
        ensures ledgers { RiseByReads self.old.state self.new.state meters.old meters.new }
        ensures bound { IfOk result (λ answers. RisesByEach self.old.setting self.old.state
            (events_seen self.old.setting.bits events.entry.items) answers.items self.new.state
            upkeep.old upkeep.new) }
        // What stays.
        ensures setting { self.new.setting ≡ self.old.setting }
        ensures sound { IsSound self.new.setting self.new.state }
        ensures untaken { OnErr result (self.new ≡ self.old) }
        ensures uncounted { OnErr result (upkeep.new ≡ upkeep.old) }
    {
        every_list_of_events_answers_the_scan();
        self.is_sound();
        let mut answers = Vec::with_capacity(self.alloc, events.len())?;
        for event in events {
            let answer = self.step(event, upkeep, meters);
            let Ok(()) = answers.push(answer) else {
                unreachable!()
            };
        }
        Ok(answers)
    }

    // The state is sound.
    fn is_sound(&self)
        ensures { IsSound self.now.setting self.now.state }
    {
        let _bits = self.bits;
    }
}
