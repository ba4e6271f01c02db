//! A range query on one version.

ghost use Rattle.std.specs.Prelude.{◌≡◌, ◌+◌, ◌<◌, ◌≤◌, ◌++◌, false, length, None, IfOk};
ghost use Rattle.std.specs.Arc.{arc_value};
ghost use Rattle.hamming_model.specs.Codes.{StandsFor};
ghost use Rattle.hamming_model.specs.declared.limits.TheConstants.{ROOM_MOST, WORDS_MOST};
ghost use Rattle.hit_source.specs.Moves.{PollAnswers};
ghost use Rattle.hit_source.specs.Work.{Works, IsStopped};
ghost use Rattle.shard_query.specs.Opening.{AsksRange, BeginsRange, opened_code};
ghost use Rattle.shard_query.specs.Tasks.{IsTask, with_kept};
ghost use Rattle.shard_probe.specs.Probed.{KeepCodes};
ghost use Rattle.shard_walk.specs.Planned.{kept_of};

use gph_codes::Code;
use hamming_model::Hit;
use hit_source::{HitSource, HitWindow, Polled};
use read_meter::{NoMemory, Steps};
use search_model::hits_are_few;
use shard_version::Version;
use shard_walk::{Plan, Walk};
use std::alloc::Global;
use std::sync::Arc;

/// All codes of a version within a radius of a query, found through the posting tables.
///
/// The hits are collected while postings are read, put in order with the last read, and then given: the
/// room is a window over them.
#[derive(Drop)]
pub struct RangeTask<const W: usize> {
    plan: Plan<W>,
    walk: Walk,
    window: HitWindow,
    reads: u64,
    ghost kept: { IsTask plan walk window reads },
}

impl<const W: usize> RangeTask<W> {
    ghost use Rattle.shard_query.specs.Standings.{task_asked, task_standing};

    /// Opens the query: plans it and takes all its memory, room for at most as many hits as the least cost.
    ///
    /// # Errors
    ///
    /// `NoMemory` where there is no memory for that.
    pub fn open(
        alloc: Global,
        version: Arc<Version<W>>,
        query: Code<W>,
        tau: u32,
        room: usize,
    ) -> Result<RangeTask<W>, NoMemory>
        requires few_words { W ≤ WORDS_MOST }
        requires code { StandsFor W (arc_value version).contents.layout.bits query
            (opened_code (arc_value version).contents query) }
        requires near { tau ≤ (arc_value version).contents.layout.bits }
        requires some_room { 1 ≤ room }
        requires small_room { room ≤ ROOM_MOST }
        ensures asked { IfOk result (λ task. AsksRange (arc_value version.entry).contents
            (opened_code (arc_value version.entry).contents query.entry)
            tau room (⟦<RangeTask<W> as HitSource>⟧.asked task)) }
        ensures begins { IfOk result (λ task. BeginsRange (arc_value version.entry).contents
            (⟦<RangeTask<W> as HitSource>⟧.asked task)
            (⟦<RangeTask<W> as HitSource>⟧.standing task)) }
    {
        hits_are_few();
        let plan = Plan::open(alloc, version, query, tau)?;
        let walk = Walk::start(&plan);
        let window = HitWindow::reserve(alloc, plan.least() as usize, room)?;
        Ok(RangeTask {
            plan,
            walk,
            window,
            reads: 0,
        })
    }

    // Does units of work, so many at most: takes a value of a ball, reads a run of postings, or moves a hit
    // into the room. It answers how many it did: none only where none can be done.
    fn work<L>(&mut self, most: u32, steps: &mut Steps<L>) -> u32
        requires { 1 ≤ most }
        ensures plan { self.new.plan ≡ self.old.plan }
        ensures room { self.new.window.room ≡ self.old.window.room }
        ensures few { result ≤ most }
        ensures works { Works None result
            (task_standing self.old) (task_standing self.new) steps.old steps.new }
        ensures stops { result ≡ 0 → IsStopped (task_asked self.new) (task_standing self.new) }
    {
        if self.reads < self.plan.least() {
            return self.search(most, steps);
        }
        if self.window.is_full() || self.window.has_moved_all() {
            return 0;
        }
        self.window.advance();
        1
    }

    // Takes a value of a ball, or reads postings of its list, so many at most.
    fn search<L>(&mut self, most: u32, steps: &mut Steps<L>) -> u32
        requires some { 1 ≤ most }
        requires more { self.old.reads < self.old.plan.least }
        ensures plan { self.new.plan ≡ self.old.plan }
        ensures room { self.new.window.room ≡ self.old.window.room }
        ensures some { 1 ≤ result }
        ensures few { result ≤ most }
        ensures works { Works None result
            (task_standing self.old) (task_standing self.new) steps.old steps.new }
    {
        if self.walk.is_in_list() {
            return self.read(most, steps);
        }
        self.walk.next_value(&self.plan);
        1
    }

    // Reads postings of a list, so many at most. With the last one of all the hits that were kept are put
    // in order.
    fn read<L>(&mut self, most: u32, steps: &mut Steps<L>) -> u32
        requires some { 1 ≤ most }
        requires more { self.old.reads < self.old.plan.least }
        requires posting { self.old.walk.next < self.old.walk.size }
        ensures plan { self.new.plan ≡ self.old.plan }
        ensures room { self.new.window.room ≡ self.old.window.room }
        ensures some { 1 ≤ result }
        ensures few { result ≤ most }
        ensures works { Works None result
            (task_standing self.old) (task_standing self.new) steps.old steps.new }
    {
        hits_are_few();
        let least = self.plan.least();
        let part = self.walk.part();
        let run = self.walk.read(&self.plan, most, steps);
        let count = run.len() as u32;
        keep(&mut self.window, &self.plan, part, run);
        self.reads += u64::from(count);
        if self.reads == least {
            self.window.sort();
        }
        count
    }

    // How a poll ends that ends here.
    fn judged(&self) -> Polled
        ensures { PollAnswers (task_asked self.now) (task_standing self.now) result }
    {
        if self.reads == self.plan.least() && self.window.has_moved_all() {
            Polled::Ended
        } else if self.window.is_full() {
            Polled::Full
        } else {
            Polled::Moved
        }
    }
}

// Adds the hits that a part keeps of a run of postings behind those that were found.
fn keep<const W: usize>(window: &mut HitWindow, plan: &Plan<W>, part: usize, run: &[(u64, Code<W>)])
    requires stored { KeepCodes W plan.now.version run.now }
    requires room { length window.old.found + length (kept_of plan.now part run.now)
        ≤ window.old.capacity }
    ensures { window.new ≡ with_kept window.old (kept_of plan.now part run.now) }
{
    for posting in run {
        if let Some(hit) = plan.kept(part, posting.0, &posting.1) {
            window.push(hit);
        }
    }
}

impl<const W: usize> HitSource for RangeTask<W> {
    ghost use Rattle.shard_query.specs.Tasks.{asked_of, standing_of};
    ghost use Rattle.shard_query.specs.TaskLaw.{task_lawful};

    ghost asked = { λ task. asked_of task.plan task.window.room };

    ghost standing = { λ task. standing_of task.plan task.walk task.window task.reads };

    ghost planned = { λ task. task.plan.thresholds };

    ghost lawful = { λ task. task_lawful task.plan task.walk task.window task.reads task.kept };

    fn poll<L>(&mut self, budget: u32, steps: &mut Steps<L>) -> Polled {
        let mut left = budget;
        while left > 0 {
            let done = self.work(left, steps);
            if done == 0 {
                return self.judged();
            }
            left -= done;
        }
        self.judged()
    }

    fn head(&self) -> Option<Hit> {
        self.window.head()
    }

    fn pop(&mut self) -> Option<Hit> {
        self.window.pop()
    }

    fn floor(&self) -> Option<u32> {
        if self.reads < self.plan.least() {
            return Some(0);
        }
        self.window.floor()
    }

    fn reads(&self) -> u64 {
        self.reads
    }

    fn rows(&self) -> u64 {
        self.plan.rows()
    }

    fn near(&self) -> bool {
        false
    }

    fn plan(&mut self, given: Option<u32>) -> u64 {
        self.plan.least()
    }

    fn thresholds(&self) -> &[i32] {
        self.plan.thresholds()
    }

    fn bound(&mut self, given: Option<u32>) -> u64 {
        self.plan.least()
    }
}
