//! The rounds of a search.

ghost use Rattle.std.specs.Prelude.{◌≡◌, ◌≤◌};
ghost use Rattle.exchange_model.specs.declared.limits.TheConstants.{ROUNDS_MOST};
ghost use Rattle.layout_search.specs.Arranged.{reached_in};
ghost use Rattle.layout_search.specs.Ready.{IsSearchReady, SameTask, end_of};

use crate::search::Search;

impl<const W: usize> Search<W> {
    // Goes through so many rounds, and answers how many exchanges were made.
    pub(crate) fn improve(&mut self, rounds: u32) -> u32
        requires ready { IsSearchReady self.old }
        requires few { rounds ≤ ROUNDS_MOST }
        ensures ready { IsSearchReady self.new }
        ensures task { SameTask self.old self.new }
        ensures layout { self.new.layout ≡ reached_in self.old.layout (end_of self.old rounds) }
        ensures swaps { result ≡ (end_of self.old rounds).swaps }
        ensures few { result ≤ rounds }
    {
        if rounds == 0 {
            return 0;
        }
        let bound = self.cost();
        let Some(_exchange) = self.first(bound) else {
            return 0;
        };
        self.improve(rounds - 1) + 1
    }
}
