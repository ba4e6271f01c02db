//! A source whose hits are a fixed list.

ghost use Rattle.std.specs.Prelude.{◌≡◌, ◌+◌, ◌<◌, ◌≤◌, true, false, length, if◌then◌else◌, All, None};
ghost use Rattle.hamming_model.specs.Scan.{in_order};
ghost use Rattle.hamming_model.specs.declared.limits.TheConstants.{BITS_MOST, ROOM_MOST};
ghost use Rattle.hit_source.specs.Moves.{PollAnswers};
ghost use Rattle.hit_source.specs.Work.{Works, IsStopped};
ghost use Rattle.hit_source.specs.Listed.{asked_of_list, start_of_list, standing_of_list, IsListed};

use crate::{HitSource, HitWindow, Polled};
use hamming_model::Hit;
use read_meter::Steps;

/// A source that reads a fixed list of hits: each hit costs two units of work, a posting read and a
/// move into the room.
#[derive(Drop)]
pub struct ListedHits {
    window: HitWindow,
    reads: u64,
    ghost listed: { IsListed window reads },
}

impl ListedHits {
    /// A source of these hits in order, of which so many may wait. It takes no memory.
    pub fn new(hits: Vec<Hit>, room: usize) -> ListedHits
        requires near { All (λ hit. hit.dist ≤ BITS_MOST) hits.items }
        requires some_room { 1 ≤ room }
        requires small_room { room ≤ ROOM_MOST }
        ensures asked { ⟦<ListedHits as HitSource>⟧.asked result
            ≡ asked_of_list (in_order hits.items) room }
        ensures standing { ⟦<ListedHits as HitSource>⟧.standing result
            ≡ start_of_list (in_order hits.items) }
    {
        let mut window = HitWindow::of(hits, room);
        window.sort();
        ListedHits { window, reads: 0 }
    }

    // Reads the next posting, or moves the hit that was read into the room. It answers whether it could.
    fn work<L>(&mut self, steps: &mut Steps<L>) -> bool
        ensures found { self.new.window.found ≡ self.old.window.found }
        ensures room { self.new.window.room ≡ self.old.window.room }
        ensures works { Works None (if result then 1 else 0)
            (standing_of_list self.old.window self.old.reads)
            (standing_of_list self.new.window self.new.reads) steps.old steps.new }
        ensures stops { result ≡ false → IsStopped
            (asked_of_list self.new.window.found self.new.window.room)
            (standing_of_list self.new.window self.new.reads) }
    {
        if self.window.moved() == self.window.len() || self.window.is_full() {
            return false;
        }
        if (self.window.moved() as u64) < self.reads {
            self.window.advance();
            return true;
        }
        steps.tick();
        self.reads += 1;
        true
    }

    // How a poll ends that ends here.
    fn judged(&self) -> Polled
        ensures { PollAnswers (asked_of_list self.now.window.found self.now.window.room)
            (standing_of_list self.now.window self.now.reads) result }
    {
        if self.window.has_moved_all() {
            Polled::Ended
        } else if self.window.is_full() {
            Polled::Full
        } else {
            Polled::Moved
        }
    }
}

impl HitSource for ListedHits {
    ghost use Rattle.std.specs.Prelude.{[]};
    ghost use Rattle.hit_source.specs.Listed.{asked_of_list, standing_of_list};
    ghost use Rattle.hit_source.specs.ListedLaw.{listed_lawful};

    ghost asked = { λ source. asked_of_list source.window.found source.window.room };

    ghost standing = { λ source. standing_of_list source.window source.reads };

    ghost planned = { λ source. [] };

    ghost lawful = { λ source. listed_lawful source.window source.reads source.listed };

    fn poll<L>(&mut self, budget: u32, steps: &mut Steps<L>) -> Polled {
        for _done in 0..budget {
            if !self.work(steps) {
                return self.judged();
            }
        }
        self.judged()
    }

    fn head(&self) -> Option<Hit> {
        self.window.head()
    }

    fn pop(&mut self) -> Option<Hit> {
        self.window.pop()
    }

    fn floor(&self) -> Option<u32> {
        self.window.floor()
    }

    fn reads(&self) -> u64 {
        self.reads
    }

    fn rows(&self) -> u64 {
        self.window.len() as u64
    }

    fn near(&self) -> bool {
        false
    }

    fn plan(&mut self, given: Option<u32>) -> u64 {
        self.window.len() as u64
    }

    fn thresholds(&self) -> &[i32] {
        &[]
    }

    fn bound(&mut self, given: Option<u32>) -> u64 {
        self.window.len() as u64
    }
}
