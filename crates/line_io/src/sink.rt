ghost use Rattle.std.specs.Prelude.{ℕ, List};
ghost use Rattle.std.specs.declared.option.Option.{Option};
ghost use Rattle.std.specs.Io.{WritesAtMost};
ghost use Rattle.std.specs.Io.KnownBytes.{WriteAppends};
ghost use Rattle.line_io.specs.Faults.{HasCause, IsSteady, TakesSome};

use crate::source::Failed;

/// Where bytes go.
pub trait Sink {
    /// The bytes held, where the sink tells them.
    ghost held: { Self → Option (List ℕ) };

    /// The faults met so far, which stop at the greatest u64.
    ghost faults: { Self → ℕ };

    /// Takes the front of `piece`, and returns how many bytes that is: at least one, unless the
    /// piece is empty. Failed takes nothing. A write that succeeds counts no fault.
    fn write(&mut self, piece: &[u8]) -> Result<usize, Failed>
        ensures bound { WritesAtMost result piece.now }
        ensures bytes { WriteAppends (held self.old) (held self.new) result piece.now }
        ensures takes { TakesSome result piece.now }
        ensures cause { HasCause (faults self.old) (faults self.new) result }
        ensures steady { IsSteady (faults self.old) (faults self.new) result };
}
