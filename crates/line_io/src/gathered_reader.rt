ghost use Rattle.std.specs.Prelude.{◌≡◌, OnErr};
ghost use Rattle.std.specs.Io.{ReadsAtMost};
ghost use Rattle.std.specs.Io.KnownBytes.{ReadConsumes};
ghost use Rattle.line_io.specs.Faults.{HasCause, IsSteady, StaysTold, counted};

use crate::gathered::Gathered;
use crate::read_after::ReadAfter;
use crate::read_end::ReadEnd;
use crate::source::{Failed, Source, fault};
use crate::write_end::WriteEnd;
use std::marker::Model;

/// A reader of std that has what was gathered given out before each read.
#[derive(Drop)]
pub struct GatheredReader<'g, R: ReadEnd, W: WriteEnd + Drop> {
    reader: ReadAfter<R>,
    gathered: &'g Gathered<W>,
    faults: u64,
}

impl<'g, R: ReadEnd, W: WriteEnd + Drop> Model for GatheredReader<'g, R, W> {
    ghost use Rattle.line_io.specs.Objects.{Counted};

    ghost Value = { Counted R };

    ghost view = { λ s. record { end = s.reader; faults = s.faults } };
}

impl<'g, R: ReadEnd, W: WriteEnd + Drop> GatheredReader<'g, R, W> {
    /// A source over `reader` that has met no fault.
    pub fn new(reader: R, gathered: &'g Gathered<W>) -> GatheredReader<'g, R, W>
        ensures reader { result.end ≡ reader }
        ensures faults { result.faults ≡ 0 }
    {
        GatheredReader {
            reader: ReadAfter::new(reader),
            gathered,
            faults: 0,
        }
    }
}

impl<'g, R: ReadEnd, W: WriteEnd + Drop> Source for GatheredReader<'g, R, W> {
    ghost left = { λ s. R.left s.end };

    ghost faults = { λ s. s.faults };

    fn read(&mut self, room: &mut [u8]) -> Result<usize, Failed>
        // What every source promises.
        ensures bound { ReadsAtMost result room.new }
        ensures bytes { ReadConsumes (R.left self.old.end) (R.left self.new.end) result room.new }
        ensures told { StaysTold (R.left self.old.end) (R.left self.new.end) }
        ensures cause { HasCause self.old.faults self.new.faults result }
        ensures steady { IsSteady self.old.faults self.new.faults result }

        // It is one read, and each error counts once.
        ensures call { R.one_read self.old.end self.new.end room.new result }
        ensures count { OnErr result (self.new.faults ≡ counted self.old.faults) }
    {
        match self.reader.read(self.gathered.give_out(), room) {
            Ok(read) => Ok(read),
            Err(Failed) => Err(fault(&mut self.faults)),
        }
    }
}
