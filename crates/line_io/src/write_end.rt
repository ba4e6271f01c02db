ghost use Rattle.std.specs.Prelude.{ℕ, Bool, List, IsTrue};
ghost use Rattle.std.specs.declared.option.Option.{Option};
ghost use Rattle.std.specs.declared.result.Result.{Result};
ghost use Rattle.std.specs.Io.{WritesAtMost};
ghost use Rattle.std.specs.Io.KnownBytes.{Appends, Keeps, WriteAppends};
ghost use Rattle.line_io.specs.declared.source.Failed.{Failed};

use crate::source::Failed;
use std::io::Write;

/// What bytes are written to, call by call. Each writer of std is one.
pub trait WriteEnd {
    /// The bytes held, where they are told.
    ghost held: { Self → Option (List ℕ) };

    /// Whether one write of this piece can lead from this end to that, with this answer.
    ghost one_write: { Self → Self → List ℕ → Result ℕ Failed → Type 0 };

    /// Whether writing this piece whole can lead from this end to that, and whether it succeeded.
    ghost whole_write: { Self → Self → List ℕ → Bool → Type 0 };

    /// Whether one flush can lead from this end to that, and whether it succeeded.
    ghost one_flush: { Self → Self → Bool → Type 0 };

    /// Writes once. Failed stands for the error of a writer.
    fn write_once(&mut self, piece: &[u8]) -> Result<usize, Failed>
        ensures bound { WritesAtMost result piece.now }
        ensures bytes { WriteAppends (held self.old) (held self.new) result piece.now }
        ensures call { one_write self.old self.new piece.now result };

    /// Writes a piece whole, and returns whether that succeeded.
    fn write_whole(&mut self, piece: &[u8]) -> bool
        ensures bytes { IsTrue result → Appends (held self.old) (held self.new) piece.now }
        ensures call { whole_write self.old self.new piece.now result };

    /// Flushes what was written, and returns whether that succeeded.
    fn flush_once(&mut self) -> bool
        ensures bytes { Keeps (held self.old) (held self.new) }
        ensures call { one_flush self.old self.new result };
}

impl<K: Write> WriteEnd for K {
    ghost held = { K.contents };

    ghost one_write = { λ before after piece answer.
        WriteAppends (K.contents before) (K.contents after) answer piece };

    ghost whole_write = { λ before after piece well.
        IsTrue well → Appends (K.contents before) (K.contents after) piece };

    ghost one_flush = { λ before after well. Keeps (K.contents before) (K.contents after) };

    fn write_once(&mut self, piece: &[u8]) -> Result<usize, Failed> {
        match self.write(piece) {
            Ok(taken) => Ok(taken),
            Err(_) => Err(Failed),
        }
    }

    fn write_whole(&mut self, piece: &[u8]) -> bool {
        self.write_all(piece).is_ok()
    }

    fn flush_once(&mut self) -> bool {
        self.flush().is_ok()
    }
}
