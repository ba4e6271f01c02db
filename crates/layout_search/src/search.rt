//! A layout with the counts of the samples over it.

ghost use Rattle.std.specs.Prelude.{◌≡◌, ◌+◌, ◌<◌, length, IfOk};
ghost use Rattle.exchange_model.specs.Exchanges.{IsInside, exchanged};
ghost use Rattle.layout_search.specs.Arranged.{exchanged_in};
ghost use Rattle.part_layout.specs.Laid.{IsLaid};
ghost use Rattle.layout_search.specs.Inside.{IsSearchTask};
ghost use Rattle.layout_search.specs.Ready.{IsSearchReady, IsTurnedSearch, SameTask, cost_with};

use crate::Sample;
use crate::arrangement::Arrangement;
use crate::counting::{count_all, empty_tables, exchange_parts};
use crate::total::total_cost;
use crate::trial::{trial_cost, turn_all};
use exchange_model::{PositionExchange, least_cost_is_the_least};
use gph_codes::Code;
use read_meter::NoMemory;
use sample_table::SampleTable;
use std::alloc::Global;

// A layout, the rows and samples that it is judged by, and the counts of each sample over it.
#[derive(Drop)]
pub(crate) struct Search<const W: usize> {
    pub(crate) layout: Arrangement,
    pub(crate) rows: Vec<(u64, Code<W>)>,
    pub(crate) samples: Vec<Sample<W>>,
    pub(crate) tables: Vec<SampleTable>,
    // room for the values of the rows at one part, and at the next
    pub(crate) values: Vec<u16>,
    pub(crate) next_values: Vec<u16>,
}

impl<const W: usize> Search<W> {
    // The search on a layout, with all parts counted.
    pub(crate) fn new(
        alloc: Global,
        layout: Arrangement,
        rows: Vec<(u64, Code<W>)>,
        samples: &[Sample<W>],
    ) -> Result<Search<W>, NoMemory>
        requires laid { IsLaid layout }
        requires task { IsSearchTask layout.bits rows.items samples.now }
        ensures ready { IfOk result (λ search. IsSearchReady search) }
        ensures layout { IfOk result (λ search. search.layout ≡ layout) }
        ensures rows { IfOk result (λ search. search.rows.items ≡ rows.entry.items) }
        ensures samples { IfOk result (λ search. search.samples.items ≡ samples.now) }
    {
        let parts = layout.parts();
        let mut tables = empty_tables(alloc, parts, samples)?;
        let Ok(mut values) = vec![in alloc; 0u16; rows.len()] else {
            return Err(NoMemory);
        };
        count_all(
            &layout,
            rows.as_slice(),
            samples,
            values.as_mut_slice(),
            tables.as_mut_slice(),
        );
        let Ok(samples) = Vec::from_slice(alloc, samples) else {
            return Err(NoMemory);
        };
        let Ok(next_values) = vec![in alloc; 0u16; rows.len()] else {
            return Err(NoMemory);
        };
        Ok(Search {
            layout,
            rows,
            samples,
            tables,
            values,
            next_values,
        })
    }

    // Exchanges two positions, and counts the two parts anew.
    pub(crate) fn exchange(&mut self, exchange: PositionExchange)
        requires ready { IsSearchReady self.old }
        requires inside { IsInside self.old.layout.parts exchange }
        ensures ready { IsSearchReady self.new }
        ensures layout { self.new.layout ≡ exchanged_in self.old.layout exchange }
        ensures task { SameTask self.old self.new }
    {
        exchange_parts(
            &mut self.layout,
            exchange,
            self.rows.as_slice(),
            self.samples.as_slice(),
            self.values.as_mut_slice(),
            self.tables.as_mut_slice(),
        );
    }

    // The cost of the layout.
    pub(crate) fn cost(&mut self) -> u64
        requires { IsSearchReady self.old }
        ensures ready { IsSearchReady self.new }
        ensures cost { result ≡ cost_with self.old self.old.layout.parts }
        ensures layout { self.new.layout ≡ self.old.layout }
        ensures task { SameTask self.old self.new }
    {
        least_cost_is_the_least();
        total_cost(self.tables.as_mut_slice())
    }

    // Turns to a part and the next, whose exchanges can then be tried.
    pub(crate) fn turn_to(&mut self, part: u32)
        requires ready { IsSearchReady self.old }
        requires inside { part + 1 < length self.old.layout.parts }
        ensures ready { IsSearchReady self.new }
        ensures turned { IsTurnedSearch part self.new }
        ensures layout { self.new.layout ≡ self.old.layout }
        ensures task { SameTask self.old self.new }
    {
        turn_all(part, self.tables.as_mut_slice());
    }

    // What the layout would cost after an exchange between the parts that the search is turned to.
    pub(crate) fn cost_after(&mut self, exchange: PositionExchange) -> u64
        requires ready { IsSearchReady self.old }
        requires inside { IsInside self.old.layout.parts exchange }
        requires turned { IsTurnedSearch exchange.part self.old }
        ensures ready { IsSearchReady self.new }
        ensures turned { IsTurnedSearch exchange.part self.new }
        ensures cost { result ≡ cost_with self.old (exchanged self.old.layout.parts exchange) }
        ensures layout { self.new.layout ≡ self.old.layout }
        ensures task { SameTask self.old self.new }
    {
        self.layout.exchange(exchange);
        let cost = trial_cost(
            &self.layout,
            exchange.part,
            self.rows.as_slice(),
            self.samples.as_slice(),
            self.values.as_mut_slice(),
            self.next_values.as_mut_slice(),
            self.tables.as_mut_slice(),
        );
        self.layout.exchange(exchange);
        cost
    }
}
