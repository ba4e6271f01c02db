//! A near query on one version.

ghost use Rattle.std.specs.Prelude.{◌≡◌, ◌<◌, ◌≤◌, true, false, length, Some, IfOk};
ghost use Rattle.std.specs.Arc.{arc_value};
ghost use Rattle.hamming_model.specs.Codes.{StandsFor};
ghost use Rattle.hamming_model.specs.declared.limits.TheConstants.{ROOM_MOST, WORDS_MOST};
ghost use Rattle.hit_source.specs.Moves.{PollAnswers};
ghost use Rattle.hit_source.specs.Work.{Works};
ghost use Rattle.knn_task.specs.Near.{IsHeld, IsUnder};
ghost use Rattle.knn_task.specs.Opening.{AsksNear, BeginsNear, near_code};
ghost use Rattle.knn_task.specs.Walked.{IsNearTask, search_of, ring_at};

use crate::near_rings::NearRings;
use crate::settling::{radii_up_to, settle_ring};
use gph_codes::Code;
use hamming_model::Hit;
use hit_source::{HitSource, HitWindow, Polled};
use read_meter::{NoMemory, Steps};
use shard_version::Version;
use std::alloc::Global;
use std::sync::Arc;
use threshold_model::units_are_values_and_costs;

// How many hits are settled, and up to how many units of distance.
#[derive(Clone, Copy)]
pub(crate) struct Mark {
    pub(crate) ready: usize,
    pub(crate) settled: u32,
}

/// All codes of a version, nearest first, found through the posting tables.
///
/// With each radius begun, one part is searched one distance farther, the one where that costs least. The
/// hits found are kept; those nearer than all parts together were searched are settled, and given in
/// order: the room is a window over them.
#[derive(Drop)]
pub struct NearTask<const W: usize> {
    rings: NearRings<W>,
    window: HitWindow,
    mark: Mark,
    reads: u64,
    ghost kept: { IsNearTask rings.plan rings.walk window mark reads },
}

impl<const W: usize> NearTask<W> {
    ghost use Rattle.knn_task.specs.Standings.{near_task_asked, near_task_standing};

    /// Opens the query: plans it for all radii and takes all its memory, 16 bytes for each row among it.
    ///
    /// # Errors
    ///
    /// `NoMemory` where there is no memory for that.
    pub fn open(
        alloc: Global,
        version: Arc<Version<W>>,
        query: Code<W>,
        room: usize,
    ) -> Result<NearTask<W>, NoMemory>
        requires few_words { W ≤ WORDS_MOST }
        requires code { StandsFor W (arc_value version).contents.layout.bits query
            (near_code (arc_value version).contents query) }
        requires some_room { 1 ≤ room }
        requires small_room { room ≤ ROOM_MOST }
        ensures asked { IfOk result (λ task. AsksNear (arc_value version.entry).contents
            (near_code (arc_value version.entry).contents query.entry) room
            (⟦<NearTask<W> as HitSource>⟧.asked task)) }
        ensures begins { IfOk result (λ task. BeginsNear (arc_value version.entry).contents
            (near_code (arc_value version.entry).contents query.entry)
            (⟦<NearTask<W> as HitSource>⟧.standing task)) }
    {
        units_are_values_and_costs();
        let rings = NearRings::open(alloc, version, query)?;
        let window = HitWindow::reserve(alloc, rings.rows() as usize, room)?;
        Ok(NearTask {
            rings,
            window,
            mark: Mark {
                ready: 0,
                settled: 0,
            },
            reads: 0,
        })
    }

    // Does units of work, so many at most: takes a value of a ring, reads a run of postings, moves a hit
    // into the room, or begins the next radius. It answers how many it did: none only where none can be
    // done with no radius above the limit.
    fn work<L>(&mut self, limit: u32, most: u32, steps: &mut Steps<L>) -> u32
        requires some { 1 ≤ most }
        requires under { IsUnder limit self.old.window self.old.mark }
        ensures search { search_of self.new.rings.plan ≡ search_of self.old.rings.plan }
        ensures room { self.new.window.room ≡ self.old.window.room }
        ensures few { result ≤ most }
        ensures works { Works (Some limit) result
            (near_task_standing self.old) (near_task_standing self.new) steps.old steps.new }
        ensures under { IsUnder limit self.new.window self.new.mark }
        ensures stops { result ≡ 0
            → IsHeld limit (near_task_asked self.new) (near_task_standing self.new) }
    {
        if self.rings.left() > 0 {
            return self.search(limit, most, steps);
        }
        if self.window.is_full() {
            return 0;
        }
        if self.window.moved() < self.mark.ready {
            self.window.advance();
            return 1;
        }
        if self.mark.ready as u64 == self.rings.rows() {
            return 0;
        }
        if self.mark.settled > limit {
            return 0;
        }
        self.begin(limit, steps);
        1
    }

    // Takes a value of the ring, or reads postings of its list, so many at most.
    fn search<L>(&mut self, limit: u32, most: u32, steps: &mut Steps<L>) -> u32
        requires some { 1 ≤ most }
        requires more { 0 < (ring_at self.old.rings.plan self.old.rings.walk).reads }
        requires under { IsUnder limit self.old.window self.old.mark }
        ensures search { search_of self.new.rings.plan ≡ search_of self.old.rings.plan }
        ensures room { self.new.window.room ≡ self.old.window.room }
        ensures some { 1 ≤ result }
        ensures few { result ≤ most }
        ensures works { Works (Some limit) result
            (near_task_standing self.old) (near_task_standing self.new) steps.old steps.new }
        ensures under { IsUnder limit self.new.window self.new.mark }
    {
        if self.rings.is_in_list() {
            return self.read(limit, most, steps);
        }
        self.rings.next_value();
        1
    }

    // Reads postings of the ring, so many at most. With the last one the ring is settled.
    fn read<L>(&mut self, limit: u32, most: u32, steps: &mut Steps<L>) -> u32
        requires some { 1 ≤ most }
        requires more { 0 < (ring_at self.old.rings.plan self.old.rings.walk).reads }
        requires posting { (ring_at self.old.rings.plan self.old.rings.walk).in_list ≡ true }
        requires under { IsUnder limit self.old.window self.old.mark }
        ensures search { search_of self.new.rings.plan ≡ search_of self.old.rings.plan }
        ensures room { self.new.window.room ≡ self.old.window.room }
        ensures some { 1 ≤ result }
        ensures few { result ≤ most }
        ensures works { Works (Some limit) result
            (near_task_standing self.old) (near_task_standing self.new) steps.old steps.new }
        ensures under { IsUnder limit self.new.window self.new.mark }
    {
        let count = self.rings.read(most, &mut self.window, steps);
        self.reads += u64::from(count);
        self.mark = settle_ring(
            &mut self.window,
            self.mark,
            self.rings.left(),
            self.rings.rows(),
            self.rings.bits(),
            self.rings.begun(),
        );
        count
    }

    // Begins the next radius. Where its ring has nothing to read it is settled at once.
    fn begin<L>(&mut self, limit: u32, steps: &mut Steps<L>)
        requires done { (ring_at self.old.rings.plan self.old.rings.walk).reads ≡ 0 }
        requires more { self.old.mark.ready < length (search_of self.old.rings.plan).rows }
        requires near { self.old.mark.settled ≤ limit }
        requires under { IsUnder limit self.old.window self.old.mark }
        ensures search { search_of self.new.rings.plan ≡ search_of self.old.rings.plan }
        ensures room { self.new.window.room ≡ self.old.window.room }
        ensures works { Works (Some limit) 1
            (near_task_standing self.old) (near_task_standing self.new) steps.old steps.new }
        ensures under { IsUnder limit self.new.window self.new.mark }
    {
        self.rings.begin();
        self.mark = settle_ring(
            &mut self.window,
            self.mark,
            self.rings.left(),
            self.rings.rows(),
            self.rings.bits(),
            self.rings.begun(),
        );
    }

    // How a poll ends that ends here.
    fn judged(&self) -> Polled
        ensures { PollAnswers (near_task_asked self.now) (near_task_standing self.now) result }
    {
        if self.window.moved() as u64 == self.rings.rows() {
            Polled::Ended
        } else if self.window.is_full() {
            Polled::Full
        } else {
            Polled::Moved
        }
    }
}

impl<const W: usize> HitSource for NearTask<W> {
    ghost use Rattle.knn_task.specs.Walked.{near_asked, near_standing, search_of, ring_at};
    ghost use Rattle.knn_task.specs.NearLaw.{near_lawful};

    ghost asked = { λ task. near_asked task.rings.plan task.window.room };

    ghost standing = { λ task. near_standing task.rings.plan task.rings.walk
        task.window task.mark task.reads };

    ghost planned = { λ task. task.rings.thresholds.entries };

    ghost lawful = { λ task. near_lawful (search_of task.rings.plan)
        (ring_at task.rings.plan task.rings.walk) task.rings.walk.begun
        task.window task.mark task.reads task.kept.kept task.rings.kept.ring };

    fn poll<L>(&mut self, budget: u32, steps: &mut Steps<L>) -> Polled {
        let Some(limit) = self.floor() else {
            return Polled::Ended;
        };
        let mut left = budget;
        while left > 0 {
            let done = self.work(limit, left, steps);
            if done == 0 {
                return self.judged();
            }
            left -= done;
        }
        self.judged()
    }

    fn head(&self) -> Option<Hit> {
        self.window.head()
    }

    fn pop(&mut self) -> Option<Hit> {
        self.window.pop()
    }

    fn floor(&self) -> Option<u32> {
        if self.window.given() < self.mark.ready {
            self.window.floor()
        } else if self.mark.ready as u64 == self.rings.rows() {
            None
        } else {
            Some(self.mark.settled)
        }
    }

    fn reads(&self) -> u64 {
        self.reads
    }

    fn rows(&self) -> u64 {
        self.rings.rows()
    }

    fn near(&self) -> bool {
        true
    }

    fn plan(&mut self, given: Option<u32>) -> u64 {
        self.rings.plan(given.unwrap_or(0))
    }

    fn thresholds(&self) -> &[i32] {
        self.rings.thresholds()
    }

    fn bound(&mut self, given: Option<u32>) -> u64 {
        let radii = radii_up_to(given, self.rings.bits());
        self.rings.bound(radii)
    }
}
