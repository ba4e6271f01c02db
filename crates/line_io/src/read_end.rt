ghost use Rattle.std.specs.Prelude.{◌≡◌, ℕ, List};
ghost use Rattle.std.specs.declared.option.Option.{Option};
ghost use Rattle.std.specs.declared.result.Result.{Result};
ghost use Rattle.std.specs.Io.{ReadsAtMost};
ghost use Rattle.std.specs.Io.KnownBytes.{ReadConsumes};
ghost use Rattle.line_io.specs.Faults.{StaysTold};
ghost use Rattle.line_io.specs.declared.source.Failed.{Failed};

use crate::source::Failed;
use std::io::Read;

/// What bytes are read from, call by call. Each reader of std is one.
pub trait ReadEnd {
    /// The bytes left to read, where they are told.
    ghost left: { Self → Option (List ℕ) };

    /// Whether one read can lead from this end to that, with this room after it and this answer.
    ghost one_read: { Self → Self → List ℕ → Result ℕ Failed → Type 0 };

    /// Reads once. Failed stands for the error of a reader.
    fn read_once(&mut self, room: &mut [u8]) -> Result<usize, Failed>
        ensures bound { ReadsAtMost result room.new }
        ensures bytes { ReadConsumes (left self.old) (left self.new) result room.new }
        ensures told { StaysTold (left self.old) (left self.new) }
        ensures call { one_read self.old self.new room.new result };
}

impl<R: Read> ReadEnd for R {
    ghost left = { R.remaining };

    ghost one_read = { λ before after room answer.
        ReadConsumes (R.remaining before) (R.remaining after) answer room };

    fn read_once(&mut self, room: &mut [u8]) -> Result<usize, Failed> {
        match self.read(room) {
            Ok(read) => Ok(read),
            Err(_) => Err(Failed),
        }
    }
}
