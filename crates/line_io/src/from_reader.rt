ghost use Rattle.std.specs.Prelude.{◌≡◌, OnErr};
ghost use Rattle.std.specs.Io.{ReadsAtMost};
ghost use Rattle.std.specs.Io.KnownBytes.{ReadConsumes};
ghost use Rattle.line_io.specs.Faults.{HasCause, IsSteady, StaysTold, counted};

use crate::read_end::ReadEnd;
use crate::source::{Failed, Source, fault};
use std::marker::Model;

/// A reader of std as a source that counts its errors.
#[derive(Drop)]
pub struct FromReader<R: ReadEnd> {
    reader: R,
    faults: u64,
}

impl<R: ReadEnd> Model for FromReader<R> {
    ghost use Rattle.line_io.specs.Objects.{Counted};

    ghost Value = { Counted R };

    ghost view = { λ s. record { end = s.reader; faults = s.faults } };
}

impl<R: ReadEnd> FromReader<R> {
    /// A source over `reader` that has met no fault.
    pub fn new(reader: R) -> FromReader<R>
        ensures reader { result.end ≡ reader }
        ensures faults { result.faults ≡ 0 }
    {
        FromReader { reader, faults: 0 }
    }
}

impl<R: ReadEnd> Source for FromReader<R> {
    ghost left = { λ s. R.left s.end };

    ghost faults = { λ s. s.faults };

    fn read(&mut self, room: &mut [u8]) -> Result<usize, Failed>
        // What every source promises.
        ensures bound { ReadsAtMost result room.new }
        ensures bytes { ReadConsumes (R.left self.old.end) (R.left self.new.end) result room.new }
        ensures told { StaysTold (R.left self.old.end) (R.left self.new.end) }
        ensures cause { HasCause self.old.faults self.new.faults result }
        ensures steady { IsSteady self.old.faults self.new.faults result }

        // It is one read, and each error counts once.
        ensures call { R.one_read self.old.end self.new.end room.new result }
        ensures count { OnErr result (self.new.faults ≡ counted self.old.faults) }
    {
        match self.reader.read_once(room) {
            Ok(read) => Ok(read),
            Err(Failed) => Err(fault(&mut self.faults)),
        }
    }
}
