//! Hits in order, of which the first were given and the next wait.

ghost use Rattle.std.specs.Prelude.{◌≡◌, ◌+◌, ◌-◌, ◌<◌, ◌≤◌, ◌==◌, [], length, IfOk};
ghost use Rattle.hit_source.specs.Windows.{IsWindow, Window, left_of, waiting_of, first_distance};
ghost use Rattle.hit_source.specs.Windows.{window_of, with_hit, put_in_order, with_moved, with_given};
ghost use Rattle.hit_source.specs.Moves.{first_of};
ghost use Rattle.hit_source.specs.Settled.{Settles};

use crate::settling::order_nearer;
use hamming_model::Hit;
use read_meter::NoMemory;
use std::alloc::Global;
use std::marker::Model;

/// A list of hits with a room in it: first hits are pushed and put in order, then they are moved into the
/// room one at a time, and taken from it. No hit is copied to another place for that.
#[derive(Drop)]
pub struct HitWindow {
    found: Vec<Hit>,
    capacity: usize,
    room: usize,
    given: usize,
    moved: usize,
}

impl Model for HitWindow {
    ghost use Rattle.std.specs.Prelude.{◌≤◌, vec_capacity};
    ghost use Rattle.hit_source.specs.Windows.{IsWindow, Window, window_at};

    ghost Value = { Window };

    ghost view = { λ w. window_at w.found.items w.capacity w.room w.given w.moved };

    ghost invariant = { λ w. (w.capacity ≤ vec_capacity w.found) × IsWindow (window_at w.found.items w.capacity w.room w.given w.moved) };
}

impl HitWindow {
    /// No hits, with memory for so many, 16 bytes each, of which so many may wait.
    ///
    /// # Errors
    ///
    /// `NoMemory` where there is no memory for them.
    pub fn reserve(alloc: Global, capacity: usize, room: usize) -> Result<HitWindow, NoMemory>
        ensures { IfOk result (λ window. window ≡ window_of [] capacity room) }
    {
        let found = Vec::with_capacity(alloc, capacity)?;
        Ok(HitWindow {
            found,
            capacity,
            room,
            given: 0,
            moved: 0,
        })
    }

    /// These hits, of which none was moved, and no memory for more. It takes no memory.
    pub fn of(hits: Vec<Hit>, room: usize) -> HitWindow
        ensures { result ≡ window_of hits.items (length hits.items) room }
    {
        let capacity = hits.len();
        HitWindow {
            found: hits,
            capacity,
            room,
            given: 0,
            moved: 0,
        }
    }

    /// Adds a hit behind the others. It takes no memory.
    pub fn push(&mut self, hit: Hit)
        requires reserved { length self.old.found < self.old.capacity }
        ensures pushed { self.new ≡ with_hit self.old hit }
        ensures fits { IsWindow self.new }
    {
        let Ok(()) = self.found.push(hit) else {
            unreachable!()
        };
    }

    /// Puts all hits in order of distance and key, in place.
    pub fn sort(&mut self)
        ensures sorted { self.new ≡ put_in_order self.old }
        ensures fits { IsWindow self.new }
    {
        self.found.sort_unstable();
    }

    /// Puts the hits behind the first so many that are nearer than so many units in front of the others,
    /// in order, in place. It answers how many hits are settled now: those first ones, and these.
    pub fn settle(&mut self, from: usize, units: u32) -> usize
        requires from { from ≤ length self.old.found }
        ensures settles { Settles from units self.old self.new result }
        ensures fits { IsWindow self.new }
    {
        let (_front, back) = self.found.as_mut_slice().split_at_mut(from);
        from + order_nearer(back, units)
    }

    /// Moves the next hit into the room.
    pub fn advance(&mut self)
        requires more { self.old.moved < length self.old.found }
        requires space { self.old.moved < self.old.given + self.old.room }
        ensures moved { self.new ≡ with_moved self.old }
        ensures fits { IsWindow self.new }
    {
        self.moved += 1;
    }

    /// The first hit that waits: none exactly where the room is empty.
    pub fn head(&self) -> Option<Hit>
        ensures head { result ≡ first_of (waiting_of self.now) }
        ensures fits { IsWindow self.now }
    {
        if self.given < self.moved {
            Some(self.found[self.given])
        } else {
            None
        }
    }

    /// Takes the first hit that waits: none exactly where the room is empty.
    pub fn pop(&mut self) -> Option<Hit>
        ensures head { result ≡ first_of (waiting_of self.old) }
        ensures given { self.new ≡ with_given self.old }
        ensures fits { IsWindow self.new }
    {
        if self.given == self.moved {
            return None;
        }
        let hit = self.found[self.given];
        self.given += 1;
        Some(hit)
    }

    /// The distance of the first hit that wasn't given: none exactly where all were given.
    pub fn floor(&self) -> Option<u32>
        ensures { result ≡ first_distance (left_of self.now) }
    {
        if self.given < self.found.len() {
            Some(self.found[self.given].dist)
        } else {
            None
        }
    }

    /// Whether as many hits wait as may.
    pub fn is_full(&self) -> bool
        ensures { result ≡ (self.now.moved - self.now.given == self.now.room) }
    {
        self.moved - self.given == self.room
    }

    /// Whether every hit was given or waits.
    pub fn has_moved_all(&self) -> bool
        ensures { result ≡ (self.now.moved == length self.now.found) }
    {
        self.moved == self.found.len()
    }

    /// How many hits there are.
    pub fn len(&self) -> usize
        ensures { result ≡ length self.now.found }
    {
        self.found.len()
    }

    /// How many hits were given.
    pub fn given(&self) -> usize
        ensures given { result ≡ self.now.given }
        ensures fits { IsWindow self.now }
    {
        self.given
    }

    /// How many hits were given or wait.
    pub fn moved(&self) -> usize
        ensures moved { result ≡ self.now.moved }
        ensures fits { IsWindow self.now }
    {
        self.moved
    }

    /// How many hits wait.
    pub fn waits(&self) -> usize
        ensures waits { result ≡ length (waiting_of self.now) }
        ensures fits { IsWindow self.now }
    {
        self.moved - self.given
    }
}
