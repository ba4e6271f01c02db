//! What the least cost, the exchanges and the rounds of a search are.

ghost use Rattle.std.specs.Prelude.{◌≡◌, ℕ, ◌+◌, ◌<◌, ◌≤◌, List, Some, None};
ghost use Rattle.hamming_model.specs.Layouts.{IsLayout};
ghost use Rattle.threshold_model.specs.Vectors.{IsLeast};
ghost use Rattle.exchange_model.specs.Exchanges.{IsInside, exchanged, exchanges};
ghost use Rattle.exchange_model.specs.Least.{IsLeastSum, least_cost};
ghost use Rattle.exchange_model.specs.Pairs.{counts_of_pair, least_beside};
ghost use Rattle.exchange_model.specs.Rounds.{first_below, first_cheaper, improved};
ghost use Rattle.exchange_model.specs.declared.position_exchange.PositionExchange.{PositionExchange};

use threshold_model::{choice_is_unique, vector_allows_tau_and_one_units};

/// Law: the least over the list of all threshold vectors is the least cost of a vector, and the only one. It depends on no count of
/// more than tau + 1 units.
pub fn least_cost_is_the_least()
    ensures least { (count : ℕ → ℕ → ℕ) (tau parts : ℕ) → 0 < parts →
        IsLeast count tau parts (least_cost count tau parts) }
    ensures alone { (count : ℕ → ℕ → ℕ) (tau parts least : ℕ) → 0 < parts →
        IsLeast count tau parts least → least ≡ least_cost count tau parts }
    ensures agrees { (one other : ℕ → ℕ → ℕ) (tau parts : ℕ) → 0 < parts →
        ((part units : ℕ) → part < parts → units ≤ tau + 1 → one part units ≡ other part units) →
        least_cost one tau parts ≡ least_cost other tau parts }
{
    choice_is_unique();
    vector_allows_tau_and_one_units();
}

/// Law: the least cost of a split of tau + 1 units over the parts is the least cost of a vector.
pub fn least_cost_is_that_of_splits()
    ensures { (count : ℕ → ℕ → ℕ) (tau parts least : ℕ) → 0 < parts →
        IsLeastSum count 0 parts (tau + 1) least → least ≡ least_cost count tau parts }
{
    choice_is_unique();
}

/// Law: the least cost of all parts is that of three: a part, the next, and one whose count at so many units is the least cost of all
/// others at just as many.
pub fn least_cost_is_that_of_three()
    ensures { (count : ℕ → ℕ → ℕ) (tau pair parts : ℕ) → 3 ≤ parts → pair + 1 < parts →
        ((part : ℕ) → part < parts → count part 0 ≡ 0) →
        least_cost (counts_of_pair count pair (least_beside count pair parts)) tau 3
        ≡ least_cost count tau parts }
{
    choice_is_unique();
}

/// Law: after an exchange of places that are there, the parts are a layout as before, and the same exchange brings them back.
pub fn exchanges_keep_a_layout()
    ensures layout { (bits : ℕ) (parts : List (List ℕ)) (exchange : PositionExchange) →
        IsInside parts exchange → IsLayout bits parts → IsLayout bits (exchanged parts exchange) }
    ensures inside { (parts : List (List ℕ)) (exchange : PositionExchange) →
        IsInside parts exchange → IsInside (exchanged parts exchange) exchange }
    ensures twice { (parts : List (List ℕ)) (exchange : PositionExchange) →
        IsInside parts exchange → exchanged (exchanged parts exchange) exchange ≡ parts }
{}

/// Law: the exchange that is found is one of two neighbouring parts' places, and makes the layout cheaper than the bound. Where
/// none is found, no such exchange does.
pub fn an_exchange_is_found_where_one_is_cheaper()
    ensures found { (cost : List (List ℕ) → ℕ) (parts : List (List ℕ)) (bound : ℕ)
        (exchange : PositionExchange) →
        first_below cost parts bound (exchanges parts) ≡ Some exchange → IsInside parts exchange }
    ensures cheaper { (cost : List (List ℕ) → ℕ) (parts : List (List ℕ)) (bound : ℕ)
        (exchange : PositionExchange) →
        first_below cost parts bound (exchanges parts) ≡ Some exchange →
        cost (exchanged parts exchange) < bound }
    ensures none { (cost : List (List ℕ) → ℕ) (parts : List (List ℕ)) (bound : ℕ)
        (exchange : PositionExchange) → first_below cost parts bound (exchanges parts) ≡ None →
        IsInside parts exchange → bound ≤ cost (exchanged parts exchange) }
{}

/// Law: the layout after some rounds is one of the same bits. With each exchange, of which there is at most one a round, it costs at
/// least one less; where there were fewer, no exchange makes it cheaper still.
pub fn rounds_never_cost_more()
    ensures layout { (cost : List (List ℕ) → ℕ) (rounds bits : ℕ) (parts : List (List ℕ)) →
        IsLayout bits parts → IsLayout bits (improved cost rounds parts).parts }
    ensures few { (cost : List (List ℕ) → ℕ) (rounds : ℕ) (parts : List (List ℕ)) →
        (improved cost rounds parts).swaps ≤ rounds }
    ensures cheaper { (cost : List (List ℕ) → ℕ) (rounds : ℕ) (parts : List (List ℕ)) →
        (improved cost rounds parts).swaps + cost (improved cost rounds parts).parts ≤ cost parts }
    ensures end { (cost : List (List ℕ) → ℕ) (rounds : ℕ) (parts : List (List ℕ)) →
        (improved cost rounds parts).swaps < rounds →
        first_cheaper cost (improved cost rounds parts).parts ≡ None }
{}
