//! A layout whose positions can change places.

ghost use Rattle.std.specs.Prelude.{◌≡◌, ◌*◌, ◌<◌, ◌≤◌, ◌^◌, length, IfOk};
ghost use Rattle.hamming_model.specs.declared.limits.TheConstants.{PART_WIDTH_MOST};
ghost use Rattle.part_layout.specs.Laid.{IsLaid, IsValue, part_at};
ghost use Rattle.exchange_model.specs.Exchanges.{IsInside};
ghost use Rattle.layout_search.specs.Arranged.{exchanged_in};

use crate::places::{part_of, position_at, put_position, value_at};
use crate::spelling::text_of;
use exchange_model::PositionExchange;
use gph_codes::Code;
use part_layout::{Layout, text_of_layouts};
use read_meter::NoMemory;
use std::alloc::Global;
use std::marker::Model;

// The positions of a layout's parts, to be exchanged in place.
#[derive(Drop)]
pub(crate) struct Arrangement {
    bits: u32,
    parts: Vec<Vec<u16>>,
}

impl Model for Arrangement {
    ghost use Rattle.part_layout.specs.Kept.{laid_of};
    ghost use Rattle.part_layout.specs.Laid.{IsLaid, Laid, laid_code};

    ghost Value = { Laid };

    ghost coded = { laid_code };

    ghost view = { λ kept. laid_of kept.bits kept.parts.items };

    ghost invariant = { λ kept. IsLaid (laid_of kept.bits kept.parts.items) };
}

impl Arrangement {
    // The arrangement of a layout.
    pub(crate) fn of(alloc: Global, layout: &Layout) -> Result<Arrangement, NoMemory>
        ensures { IfOk result (λ arrangement. arrangement ≡ layout.now) }
    {
        let bits = layout.bits();
        let mut parts = Vec::new(alloc);
        for part in 0..layout.parts() {
            let positions = part_of(alloc, layout, part)?;
            let Ok(()) = parts.push(positions) else {
                return Err(NoMemory);
            };
        }
        Ok(Arrangement { bits, parts })
    }

    // The layout: the one that the text of the parts spells. This text has no fault, so that only memory can be wanting.
    pub(crate) fn layout(&self, alloc: Global) -> Result<Layout, NoMemory>
        ensures { IfOk result (λ layout. layout ≡ self.now) }
    {
        text_of_layouts();
        let text = text_of(alloc, self.parts.as_slice())?;
        let Ok(layout) = Layout::parse(alloc, self.bits, text.as_slice()) else {
            return Err(NoMemory);
        };
        Ok(layout)
    }

    // The number of parts.
    pub(crate) fn parts(&self) -> u32
        ensures number { result ≡ length self.now.parts }
        ensures laid { IsLaid self.now }
    {
        self.parts.len() as u32
    }

    // The number of positions of a part.
    pub(crate) fn width(&self, part: u32) -> u32
        requires { part < length self.now.parts }
        ensures { result ≡ length (part_at self.now part) }
    {
        self.parts[part as usize].len() as u32
    }

    // The value of a code at a part.
    pub(crate) fn value<const W: usize>(&self, code: &Code<W>, part: u32) -> u16
        requires in_layout { part < length self.now.parts }
        requires room { self.now.bits ≤ 64 * W }
        ensures value { IsValue W self.now code.now part result }
    {
        value_at(code, self.bits, self.parts[part as usize].as_slice())
    }

    // Exchanges two positions of neighbouring parts.
    pub(crate) fn exchange(&mut self, exchange: PositionExchange)
        requires { IsInside self.old.parts exchange }
        ensures exchanged { self.new ≡ exchanged_in self.old exchange }
        ensures laid { IsLaid self.new }
    {
        let part = exchange.part as usize;
        let place = exchange.place as usize;
        let other = exchange.other as usize;
        let first = position_at(&self.parts, part, place);
        let next = position_at(&self.parts, part + 1, other);
        put_position(&mut self.parts, part, place, next);
        put_position(&mut self.parts, part + 1, other, first);
    }
}
