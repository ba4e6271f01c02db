//! Sources of hits, polled in steps.

ghost use Rattle.std.specs.Prelude.{◌≡◌, ℕ, ℤ, ◌≤◌, List, [], IfSome};
ghost use Rattle.hit_source.specs.Sources.{Asked, Standing, IsLawful};
ghost use Rattle.hit_source.specs.Moves.{Polls, Pops, first_of};

use crate::Polled;
use hamming_model::Hit;
use read_meter::Steps;

/// A query on one shard whose hits are found in steps and given in order of distance and key. No call
/// takes memory.
pub trait HitSource: Send {
    /// What it is asked, which no call changes.
    ghost asked: { Self → Asked };

    /// Where it stands.
    ghost standing: { Self → Standing };

    /// The threshold vector of the last `plan`.
    ghost planned: { Self → List ℤ };

    /// Does at most `budget` units of work, of which no hit may wait before: a unit is a posting read, with
    /// one step on the ledger, a value of a ball, a hit moved into the room, or a radius begun. It stops
    /// where the budget is spent, the room is full, nothing is left, or the next unit would begin a radius
    /// greater than the floor at entry.
    fn poll<L>(&mut self, budget: u32, steps: &mut Steps<L>) -> Polled
        requires budget { 1 ≤ budget }
        requires none_waits { (standing self.old).waiting ≡ [] }
        ensures polls { Polls budget (asked self.old)
            (standing self.old) (standing self.new) steps.old steps.new result }
        ensures asked { asked self.new ≡ asked self.old }
        ensures lawful { IsLawful (asked self.new) (standing self.new) };

    /// The first hit that waits: none exactly where the room is empty.
    fn head(&self) -> Option<Hit>
        ensures head { result ≡ first_of (standing self.now).waiting }
        ensures lawful { IsLawful (asked self.now) (standing self.now) };

    /// Takes the first hit that waits: none exactly where the room is empty.
    fn pop(&mut self) -> Option<Hit>
        ensures pops { Pops (standing self.old) (standing self.new) result }
        ensures asked { asked self.new ≡ asked self.old }
        ensures lawful { IsLawful (asked self.new) (standing self.new) };

    /// A distance that no hit which isn't given yet is below: none exactly where all hits were given and
    /// it has ended.
    fn floor(&self) -> Option<u32>
        ensures { result ≡ (standing self.now).floor };

    /// The postings read since it was opened.
    fn reads(&self) -> u64
        ensures { result ≡ (standing self.now).reads };

    /// The rows of its shard.
    fn rows(&self) -> u64
        ensures { result ≡ (asked self.now).rows };

    /// Whether its hits are all its rows, nearest first.
    fn near(&self) -> bool
        ensures { result ≡ (asked self.now).near };

    /// Plans for a radius, and answers the cost of the first of the cheapest threshold vectors. A range
    /// has one radius, its own, whatever is given.
    fn plan(&mut self, given: Option<u32>) -> u64
        requires { IfSome given (λ radius. radius ≤ (asked self.old).farthest) }
        ensures cost { result ≡ ((asked self.old).plan given).1 }
        ensures vector { planned self.new ≡ ((asked self.old).plan given).0 }
        ensures asked { asked self.new ≡ asked self.old }
        ensures standing { standing self.new ≡ standing self.old };

    /// The vector of the last `plan`, a threshold for each part.
    fn thresholds(&self) -> &[i32]
        ensures { result.now ≡ planned self.now };

    /// The most postings that are read up to a radius: for a range the least cost of a vector.
    fn bound(&mut self, given: Option<u32>) -> u64
        requires { IfSome given (λ radius. radius ≤ (asked self.old).farthest) }
        ensures bound { result ≡ (asked self.old).bound given }
        ensures asked { asked self.new ≡ asked self.old }
        ensures standing { standing self.new ≡ standing self.old };

    /// What holds of a source at every moment.
    ghost lawful: { (source : Self) → IsLawful (asked source) (standing source) };
}
