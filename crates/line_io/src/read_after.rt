ghost use Rattle.std.specs.Prelude.{◌≡◌};
ghost use Rattle.std.specs.Io.{ReadsAtMost};
ghost use Rattle.std.specs.Io.KnownBytes.{ReadConsumes};
ghost use Rattle.line_io.specs.Faults.{StaysTold};

use crate::gathering::{Flushed, NotFlushed};
use crate::read_end::ReadEnd;
use crate::source::Failed;
use std::marker::Model;

/// A reader that can only be read with the answer of a giving-out at hand.
#[derive(Drop)]
pub(crate) struct ReadAfter<R: ReadEnd> {
    reader: R,
}

impl<R: ReadEnd> Model for ReadAfter<R> {
    ghost Value = { R };

    ghost view = { λ s. s.reader };
}

impl<R: ReadEnd> ReadAfter<R> {
    pub(crate) fn new(reader: R) -> ReadAfter<R>
        ensures { result ≡ reader }
    {
        ReadAfter { reader }
    }

    /// Reads once. A giving-out that failed is told by the next write, and by no read.
    pub(crate) fn read(
        &mut self,
        _given: Result<Flushed, NotFlushed>,
        room: &mut [u8],
    ) -> Result<usize, Failed>
        ensures bound { ReadsAtMost result room.new }
        ensures bytes { ReadConsumes (R.left self.old) (R.left self.new) result room.new }
        ensures told { StaysTold (R.left self.old) (R.left self.new) }
        ensures call { R.one_read self.old self.new room.new result }
    {
        self.reader.read_once(room)
    }
}
