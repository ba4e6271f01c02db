ghost use Rattle.std.specs.Prelude.{◌≡◌, ℕ, length, None, IsOk, IfOk};
ghost use Rattle.std.specs.Io.{WritesAtMost};
ghost use Rattle.std.specs.Io.KnownBytes.{WriteAppends};
ghost use Rattle.line_io.specs.Faults.{HasCause, IsSteady, TakesSome};

use crate::sink::Sink;
use crate::source::Failed;

/// A sink that takes every piece whole, keeps nothing of it, and never fails.
#[derive(Clone, Copy, Debug)]
pub struct SteadySink;

impl SteadySink {
    /// A sink that keeps nothing.
    pub fn new() -> SteadySink {
        SteadySink
    }
}

impl Sink for SteadySink {
    ghost held = { λ _. None };

    ghost faults = { λ _. 0 };

    fn write(&mut self, piece: &[u8]) -> Result<usize, Failed>
        // What every sink promises.
        ensures bound { WritesAtMost result piece.now }
        ensures bytes { WriteAppends None None result piece.now }
        ensures takes { TakesSome result piece.now }
        ensures cause { HasCause 0 0 result }
        ensures steady { IsSteady 0 0 result }

        // It never fails, and takes all.
        ensures succeeds { IsOk result }
        ensures whole { IfOk result (λ n. n ≡ length piece.now) }
    {
        Ok(piece.len())
    }
}
