ghost use Rattle.std.specs.Prelude.{◌≡◌, ℕ, ◌≤◌, length, min, drop, Some, IsOk, IfOk};
ghost use Rattle.std.specs.Io.{ReadsAtMost};
ghost use Rattle.std.specs.Io.KnownBytes.{ReadConsumes};
ghost use Rattle.line_io.specs.Faults.{HasCause, IsSteady, StaysTold};
ghost use Rattle.line_io.specs.Objects.{SteadyInput};

use crate::pieces::give;
use crate::source::{Failed, Source};
use std::marker::Model;

/// A source in memory that gives its bytes in pieces, and never fails.
#[derive(Drop)]
pub struct SteadySource {
    bytes: Vec<u8>,
    given: usize,
    piece: usize,
}

impl Model for SteadySource {
    ghost Value = { SteadyInput };

    ghost view = { λ s. record { left = drop s.given s.bytes.items; piece = s.piece } };

    ghost invariant = { λ s. (s.given ≤ length s.bytes.items) × (1 ≤ s.piece) };
}

impl SteadySource {
    /// A source of `bytes`, at most `piece` in a read.
    pub fn new(bytes: Vec<u8>, piece: usize) -> SteadySource
        requires { 1 ≤ piece }
        ensures left { result.left ≡ bytes.items }
        ensures piece { result.piece ≡ piece }
    {
        SteadySource {
            bytes,
            given: 0,
            piece,
        }
    }
}

impl Source for SteadySource {
    ghost left = { λ s. Some s.left };

    ghost faults = { λ _. 0 };

    fn read(&mut self, room: &mut [u8]) -> Result<usize, Failed>
        // What every source promises.
        ensures bound { ReadsAtMost result room.new }
        ensures bytes { ReadConsumes (Some self.old.left) (Some self.new.left) result room.new }
        ensures told { StaysTold (Some self.old.left) (Some self.new.left) }
        ensures cause { HasCause 0 0 result }
        ensures steady { IsSteady 0 0 result }

        // It never fails, and gives what it can.
        ensures succeeds { IsOk result }
        ensures gives { IfOk result (λ n.
            n ≡ min self.old.piece (min (length room.new) (length self.old.left))) }
        ensures piece { self.new.piece ≡ self.old.piece }
    {
        let read = give(self.bytes.as_slice(), self.given, self.piece, room);
        self.given += read;
        Ok(read)
    }
}
