//! The exchanges of a layout, tried in their order.

ghost use Rattle.std.specs.Prelude.{◌≡◌, ◌+◌, ◌<◌, length, slice_index_or, [], None};
ghost use Rattle.layout_search.specs.Ready.{LeavesExchanged, IsSearchReady, IsTurnedSearch, SameTask, cost_with};
ghost use Rattle.exchange_model.specs.Exchanges.{exchanges, exchanges_of_part, exchanges_of_place};
ghost use Rattle.exchange_model.specs.Rounds.{first_below};

use crate::search::Search;
use exchange_model::PositionExchange;

impl<const W: usize> Search<W> {
    // Makes the first exchange of a place of a part with one of the next part that is cheap enough.
    fn first_of_place(&mut self, part: u32, place: u32, bound: u64) -> Option<PositionExchange>
        requires ready { IsSearchReady self.old }
        requires part { part + 1 < length self.old.layout.parts }
        requires place { place < length (slice_index_or self.old.layout.parts part []) }
        requires turned { IsTurnedSearch part self.old }
        ensures ready { IsSearchReady self.new }
        ensures turned { (result ≡ None) → IsTurnedSearch part self.new }
        ensures task { SameTask self.old self.new }
        ensures first { result
            ≡ first_below (cost_with self.old) self.old.layout.parts bound
            (exchanges_of_place self.old.layout.parts part place) }
        ensures layout { LeavesExchanged self.old.layout self.new.layout result }
    {
        for other in 0..self.layout.width(part + 1) {
            let exchange = PositionExchange { part, place, other };
            if self.cost_after(exchange) < bound {
                self.exchange(exchange);
                return Some(exchange);
            }
        }
        None
    }

    // Makes the first exchange between a part and the next that is cheap enough.
    fn first_of_part(&mut self, part: u32, bound: u64) -> Option<PositionExchange>
        requires ready { IsSearchReady self.old }
        requires part { part + 1 < length self.old.layout.parts }
        ensures ready { IsSearchReady self.new }
        ensures task { SameTask self.old self.new }
        ensures first { result
            ≡ first_below (cost_with self.old) self.old.layout.parts bound
            (exchanges_of_part self.old.layout.parts part) }
        ensures layout { LeavesExchanged self.old.layout self.new.layout result }
    {
        self.turn_to(part);
        for place in 0..self.layout.width(part) {
            if let Some(exchange) = self.first_of_place(part, place, bound) {
                return Some(exchange);
            }
        }
        None
    }

    // Makes the first exchange that is cheap enough.
    pub(crate) fn first(&mut self, bound: u64) -> Option<PositionExchange>
        requires { IsSearchReady self.old }
        ensures ready { IsSearchReady self.new }
        ensures task { SameTask self.old self.new }
        ensures first { result
            ≡ first_below (cost_with self.old) self.old.layout.parts bound
            (exchanges self.old.layout.parts) }
        ensures layout { LeavesExchanged self.old.layout self.new.layout result }
    {
        for part in 0..self.layout.parts() - 1 {
            if let Some(exchange) = self.first_of_part(part, bound) {
                return Some(exchange);
            }
        }
        None
    }
}
