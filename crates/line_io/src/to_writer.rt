ghost use Rattle.std.specs.Prelude.{◌≡◌, OnErr};
ghost use Rattle.std.specs.Io.{WritesAtMost};
ghost use Rattle.std.specs.Io.KnownBytes.{WriteAppends};
ghost use Rattle.line_io.specs.Faults.{HasCause, IsSteady, TakesSome, TellsWrite, counted};

use crate::sink::Sink;
use crate::source::{Failed, fault};
use crate::write_end::WriteEnd;
use std::marker::Model;

/// A writer of std as a sink that counts its errors, and a write of no byte as one of them.
#[derive(Drop)]
pub struct ToWriter<K: WriteEnd> {
    writer: K,
    faults: u64,
}

impl<K: WriteEnd> Model for ToWriter<K> {
    ghost use Rattle.line_io.specs.Objects.{Counted};

    ghost Value = { Counted K };

    ghost view = { λ s. record { end = s.writer; faults = s.faults } };
}

impl<K: WriteEnd> ToWriter<K> {
    /// A sink over `writer` that has met no fault.
    pub fn new(writer: K) -> ToWriter<K>
        ensures writer { result.end ≡ writer }
        ensures faults { result.faults ≡ 0 }
    {
        ToWriter { writer, faults: 0 }
    }
}

impl<K: WriteEnd> Sink for ToWriter<K> {
    ghost held = { λ s. K.held s.end };

    ghost faults = { λ s. s.faults };

    fn write(&mut self, piece: &[u8]) -> Result<usize, Failed>
        // What every sink promises.
        ensures bound { WritesAtMost result piece.now }
        ensures bytes { WriteAppends (K.held self.old.end) (K.held self.new.end) result piece.now }
        ensures takes { TakesSome result piece.now }
        ensures cause { HasCause self.old.faults self.new.faults result }
        ensures steady { IsSteady self.old.faults self.new.faults result }

        // It is one write, and one that failed or took nothing counts once.
        ensures call { TellsWrite (K.one_write self.old.end self.new.end) piece.now result }
        ensures count { OnErr result (self.new.faults ≡ counted self.old.faults) }
    {
        match self.writer.write_once(piece) {
            Ok(0) if !piece.is_empty() => Err(fault(&mut self.faults)),
            Ok(taken) => Ok(taken),
            Err(Failed) => Err(fault(&mut self.faults)),
        }
    }
}
